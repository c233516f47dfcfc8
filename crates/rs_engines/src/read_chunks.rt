//! Rows that are read chunk by chunk.
ghost use Rattle.std.specs.Prelude.{◌≡◌, ℕ, ◌<◌};
ghost use Rattle.rs_field.specs.rows.Rows.{symbol};

use crate::basis::{Basis, FieldBasis, TwistedBasis};
use crate::byte_vector::ByteVector;
use crate::twisted_chunks::twist_chunk;
use rs_field::engine::Change;
use std::marker::PhantomData;

/// A row that is read chunk by chunk. The chunks hold its words in the basis `W`.
pub trait ReadChunks<W: Basis>: Copy + Drop {
    // The number of chunks.
    ghost chunk_count: { Self → ℕ };

    // The word of the field at symbol s of chunk k, for k and s in this order.
    ghost word: { Self → ℕ → ℕ → ℕ };

    /// Returns the number of chunks.
    fn count(self) -> usize
        ensures { result ≡ chunk_count self };

    /// Returns chunk `k`.
    fn chunk(self, k: usize) -> [u8; 64]
        requires { k < chunk_count self }
        ensures { (s : ℕ) → s < 32 → W.value (symbol result s) ≡ word self k s };
}

impl ReadChunks<FieldBasis> for Change<'_> {
    ghost use Rattle.std.specs.Prelude.{length};
    ghost use Rattle.rs_field.specs.rows.Changed.{change_word};

    ghost chunk_count = { λ x. length x.old.now };

    ghost word = { λ x k s. change_word x k s };

    #[inline(always)]
    fn count(self) -> usize {
        self.old.len()
    }

    #[inline(always)]
    fn chunk(self, k: usize) -> [u8; 64] {
        Change::chunk(&self, k)
    }
}

impl ReadChunks<FieldBasis> for &[[u8; 64]] {
    ghost use Rattle.std.specs.Prelude.{length};
    ghost use Rattle.rs_field.specs.rows.Rows.{chunk};

    ghost chunk_count = { λ x. length x.now };

    ghost word = { λ x k s. symbol (chunk x.now k) s };

    #[inline(always)]
    fn count(self) -> usize {
        self.len()
    }

    #[inline(always)]
    fn chunk(self, k: usize) -> [u8; 64] {
        self[k]
    }
}

/// A row whose words are changed into the other basis when they are read.
#[derive(Clone, Copy)]
pub struct TwistedRow<'a, V: ByteVector> {
    /// The row.
    pub row: &'a [[u8; 64]],
    /// The vectors that change it.
    pub vectors: PhantomData<V>,
}

impl<V: ByteVector> ReadChunks<TwistedBasis> for TwistedRow<'_, V> {
    ghost use Rattle.std.specs.Prelude.{length};
    ghost use Rattle.rs_field.specs.rows.Rows.{chunk};

    ghost chunk_count = { λ x. length x.row.now };

    ghost word = { λ x k s. symbol (chunk x.row.now k) s };

    #[inline(always)]
    fn count(self) -> usize {
        self.row.len()
    }

    #[inline(always)]
    fn chunk(self, k: usize) -> [u8; 64] {
        let mut chunk = self.row[k];
        twist_chunk::<V>(&mut chunk);
        chunk
    }
}

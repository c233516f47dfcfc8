//! The bases in which several sums are made.
ghost use Rattle.std.specs.Prelude.{◌≡◌, ◌⊎◌, ℕ, ◌<◌, ◌≤◌};

use crate::basis::{Basis, FieldBasis, TwistedBasis};
use crate::byte_vector::ByteVector;
use crate::group_sums::add_to_group;
use crate::read_chunks::TwistedRow;
use crate::row_factors::RowFactors;
use crate::twisted_rows::{clear_rows, prepare_twisted_rows, twist_rows};
use rs_field::engine::{ChangeRows, Writing};
use std::marker::PhantomData;

/// A basis in which several sums are made.
pub trait SumBasis: Basis {
    ghost use Rattle.std.specs.Prelude.{◌≡◌, ◌⊎◌, ℕ, ◌+◌, ◌^◌, ◌<◌, ◌≤◌, length, slice_index, bit_xor};
    ghost use Rattle.rs_field.specs.rows.Rows.{chunk, symbol};
    ghost use Rattle.rs_field.specs.rows.Written.{held};
    ghost use Rattle.rs_field.specs.words.Tables.{times_factor};

    /// Prepares the first `len` chunks of each row from row `from` up to, but not including, row `to` for sums in this
    /// basis. Rows that are to be replaced are cleared.
    fn prepare<V: ByteVector, R: ChangeRows>(
        rows: &mut R,
        from: usize,
        to: usize,
        len: usize,
        writing: Writing,
    )
        requires order { from ≤ to }
        requires has { (i k : ℕ) → from ≤ i → i < to → k < len → R.has (R.kept rows.old) i k }
        ensures held { (k s i : ℕ) → k < len → s < 32 → from ≤ i → i < to
            → Self.value (R.word rows.new k s i) ≡ held writing (R.word rows.old k s i) }
        ensures others { (k s i : ℕ) → s < 32 → (len ≤ k) ⊎ ((i < from) ⊎ (to ≤ i))
            → R.word rows.new k s i ≡ R.word rows.old k s i }
        ensures kept { R.kept rows.new ≡ R.kept rows.old };

    /// Changes the words of these chunks from the basis of the field into this basis.
    fn enter<V: ByteVector, R: ChangeRows>(rows: &mut R, from: usize, to: usize, len: usize)
        requires order { from ≤ to }
        requires has { (i k : ℕ) → from ≤ i → i < to → k < len → R.has (R.kept rows.old) i k }
        ensures entered { (k s i : ℕ) → k < len → s < 32 → from ≤ i → i < to
            → Self.value (R.word rows.new k s i) ≡ R.word rows.old k s i }
        ensures others { (k s i : ℕ) → s < 32 → (len ≤ k) ⊎ ((i < from) ⊎ (to ≤ i))
            → R.word rows.new k s i ≡ R.word rows.old k s i }
        ensures kept { R.kept rows.new ≡ R.kept rows.old };

    /// Changes the words of these chunks from this basis into the basis of the field.
    fn leave<V: ByteVector, R: ChangeRows>(rows: &mut R, from: usize, to: usize, len: usize)
        requires order { from ≤ to }
        requires has { (i k : ℕ) → from ≤ i → i < to → k < len → R.has (R.kept rows.old) i k }
        ensures left { (k s i : ℕ) → k < len → s < 32 → from ≤ i → i < to
            → R.word rows.new k s i ≡ Self.value (R.word rows.old k s i) }
        ensures others { (k s i : ℕ) → s < 32 → (len ≤ k) ⊎ ((i < from) ⊎ (to ≤ i))
            → R.word rows.new k s i ≡ R.word rows.old k s i }
        ensures kept { R.kept rows.new ≡ R.kept rows.old };

    /// Adds a row to the rows from row `at` on, times the factors of a group. The words of the rows are in this basis,
    /// and those of the added row in the basis of the field.
    fn add<V: ByteVector, R: ChangeRows, G: RowFactors<Self>>(
        rows: &mut R,
        at: usize,
        row: &[[u8; 64]],
        group: G,
    )
        requires has { (d k : ℕ) → d < length (G.logs group) → k < length row.now
            → R.has (R.kept rows.old) (at + d) k }
        requires few { at + length (G.logs group) < 2 ^ 64 }
        ensures sums { (k s d : ℕ) → k < length row.now → s < 32 → d < length (G.logs group)
            → Self.value (R.word rows.new k s (at + d))
            ≡ bit_xor (Self.value (R.word rows.old k s (at + d)))
            (times_factor (slice_index (G.logs group) d) (symbol (chunk row.now k) s)) }
        ensures others { (k s i : ℕ) → s < 32
            → (length row.now ≤ k) ⊎ ((i < at) ⊎ (at + length (G.logs group) ≤ i))
            → R.word rows.new k s i ≡ R.word rows.old k s i }
        ensures kept { R.kept rows.new ≡ R.kept rows.old };
}

impl SumBasis for FieldBasis {
    #[inline(always)]
    fn prepare<V: ByteVector, R: ChangeRows>(
        rows: &mut R,
        from: usize,
        to: usize,
        len: usize,
        writing: Writing,
    ) {
        match writing {
            Writing::Replacing => clear_rows(rows, from, to, len),
            Writing::Adding => {}
        }
    }

    #[inline(always)]
    fn enter<V: ByteVector, R: ChangeRows>(_rows: &mut R, _from: usize, _to: usize, _len: usize) {}

    #[inline(always)]
    fn leave<V: ByteVector, R: ChangeRows>(_rows: &mut R, _from: usize, _to: usize, _len: usize) {}

    #[inline(always)]
    fn add<V: ByteVector, R: ChangeRows, G: RowFactors<Self>>(
        rows: &mut R,
        at: usize,
        row: &[[u8; 64]],
        group: G,
    ) {
        add_to_group::<V, FieldBasis, R, G, _>(rows, at, row, group);
    }
}

impl SumBasis for TwistedBasis {
    #[inline(always)]
    fn prepare<V: ByteVector, R: ChangeRows>(
        rows: &mut R,
        from: usize,
        to: usize,
        len: usize,
        writing: Writing,
    ) {
        prepare_twisted_rows::<V, R>(rows, from, to, len, writing);
    }

    #[inline(always)]
    fn enter<V: ByteVector, R: ChangeRows>(rows: &mut R, from: usize, to: usize, len: usize) {
        twist_rows::<V, R>(rows, from, to, len);
    }

    #[inline(always)]
    fn leave<V: ByteVector, R: ChangeRows>(rows: &mut R, from: usize, to: usize, len: usize) {
        twist_rows::<V, R>(rows, from, to, len);
    }

    #[inline(always)]
    fn add<V: ByteVector, R: ChangeRows, G: RowFactors<Self>>(
        rows: &mut R,
        at: usize,
        row: &[[u8; 64]],
        group: G,
    ) {
        let row = TwistedRow {
            row,
            vectors: PhantomData::<V>,
        };
        add_to_group::<V, TwistedBasis, R, G, _>(rows, at, row, group);
    }
}

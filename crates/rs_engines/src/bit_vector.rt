//! Vectors of 16 bytes that look up bit by bit. They are for processors without an instruction for shuffles.
//!
//! If the bytes of a number are additive, the byte at an index is a sum of the bytes at 1, 2, 4 and 8, one for each bit
//! that is set in the index.
ghost use Rattle.std.specs.Prelude.{◌≡◌, ℕ, ◌*◌, ◌/◌, ◌%◌, ◌^◌, ◌<◌, slice_index};
ghost use Rattle.std.specs.Int.{bit_at};
ghost use Rattle.std.proofs.Common.{inl, refl};
ghost use Rattle.rs_field.specs.words.Products.{byte_at};
ghost use Rattle.rs_engines.specs.Additive.{HasAdditiveBytes};

use crate::byte_vector::{ByteVector, put_vector, vector_at};
use rs_field::engine::vectors;
use std::simd::prelude::*;

/// A vector of 16 bytes. A look-up adds a byte for each bit of the index.
#[derive(Clone, Copy)]
pub struct BitVector {
    lanes: u8x16,
}

#[inline(always)]
fn byte_from(t: u128, shift: u32) -> u8
    requires { shift < 128 }
    ensures { result ≡ t / 2 ^ shift % 256 }
{
    (t >> shift & 255) as u8
}

// Returns `byte` in each lane in which this bit is set, and zero in the others.
#[inline(always)]
fn byte_at_bit(v: u8x16, bit: u8, byte: u8) -> u8x16
    ensures { (k i : ℕ) → bit ≡ 2 ^ k → i < 16
        → slice_index result i ≡ bit_at (slice_index v i) k * byte }
{
    let bits = u8x16::splat(bit);
    (v & bits)
        .simd_eq(bits)
        .select(u8x16::splat(byte), u8x16::splat(0))
}

// Returns in each lane the sum of the bytes of `t` at 1, 2, 4 and 8 for four bits of this lane, of which `first` is the
// lowest.
#[inline(always)]
fn sum_of_bits(v: u8x16, first: u8, t: u128) -> u8x16
    ensures low { HasAdditiveBytes t → first ≡ 1 → (i : ℕ) → i < 16
        → slice_index result i ≡ byte_at t (slice_index v i % 16) }
    ensures high { HasAdditiveBytes t → first ≡ 16 → (i : ℕ) → i < 16
        → slice_index result i ≡ byte_at t (slice_index v i / 16) }
{
    let low = vectors::sum(
        byte_at_bit(v, first, byte_from(t, 8)),
        byte_at_bit(v, first << 1, byte_from(t, 16)),
    );
    let high = vectors::sum(
        byte_at_bit(v, first << 2, byte_from(t, 32)),
        byte_at_bit(v, first << 3, byte_from(t, 64)),
    );
    vectors::sum(low, high)
}

impl ByteVector for BitVector {
    const LANES: usize = 16;

    ghost LANES = { 16 };

    ghost bytes = { λ v. v.lanes };

    ghost width = { inl refl };

    #[inline(always)]
    fn load(c: &[u8; 64], at: usize) -> BitVector {
        BitVector {
            lanes: vector_at(c, at),
        }
    }

    #[inline(always)]
    fn store(self, c: &mut [u8; 64], at: usize) {
        put_vector(self.lanes, c, at);
    }

    #[inline(always)]
    fn sum(self, other: BitVector) -> BitVector {
        BitVector {
            lanes: vectors::sum(self.lanes, other.lanes),
        }
    }

    #[inline(always)]
    fn at_low_nibbles(self, t: u128) -> BitVector {
        BitVector {
            lanes: sum_of_bits(self.lanes, 1, t),
        }
    }

    #[inline(always)]
    fn at_high_nibbles(self, t: u128) -> BitVector {
        BitVector {
            lanes: sum_of_bits(self.lanes, 16, t),
        }
    }
}

//! Vectors of 16 or of 32 bytes. A shuffle looks up all lanes at once in a table of 16 bytes.
ghost use Rattle.std.specs.Prelude.{◌≡◌, ℕ, ◌+◌, ◌/◌, ◌%◌, ◌<◌, ◌≤◌, ◌⊎◌, List, slice_index, bit_xor, refl};
ghost use Rattle.std.proofs.Common.{inl, inr};
ghost use Rattle.rs_field.specs.words.Products.{byte_at};
ghost use Rattle.rs_engines.specs.Additive.{HasAdditiveBytes};

use rs_field::engine::vectors;
use std::simd::prelude::*;

/// A vector of bytes. Look-ups are methods of the vector, because the checker accepts a shuffle only if its width is
/// written as a number.
pub trait ByteVector: Copy + Drop {
    /// The number of bytes of the vector.
    const LANES: usize;

    ghost LANES: { ℕ };

    // The bytes of a vector, lane by lane.
    ghost bytes: { Self → List ℕ };

    /// Returns the bytes of a chunk from index `at` on.
    fn load(c: &[u8; 64], at: usize) -> Self
        requires { at + LANES ≤ 64 }
        ensures { (i s : ℕ) → i < LANES → s ≡ at + i
            → slice_index (bytes result) i ≡ slice_index c.now s };

    /// Writes the bytes of the vector into a chunk, from index `at` on.
    fn store(self, c: &mut [u8; 64], at: usize)
        requires { at + LANES ≤ 64 }
        ensures stored { (i s : ℕ) → i < LANES → s ≡ at + i
            → slice_index c.new s ≡ slice_index (bytes self) i }
        ensures kept { (i : ℕ) → (i < at) ⊎ (at + LANES ≤ i)
            → slice_index c.new i ≡ slice_index c.old i };

    /// Returns the XOR of two vectors, lane by lane. The first clause states that lanes are bytes.
    fn sum(self, other: Self) -> Self
        ensures small { (i : ℕ) → i < LANES
            → (slice_index (bytes self) i < 256) × (slice_index (bytes other) i < 256) }
        ensures lanes { (i : ℕ) → i < LANES
            → slice_index (bytes result) i
            ≡ bit_xor (slice_index (bytes self) i) (slice_index (bytes other) i) };

    /// Returns in each lane the byte of `t` whose index is the low nibble of this lane.
    fn at_low_nibbles(self, t: u128) -> Self
        ensures { HasAdditiveBytes t → (i : ℕ) → i < LANES
            → slice_index (bytes result) i ≡ byte_at t (slice_index (bytes self) i % 16) };

    /// Returns in each lane the byte of `t` whose index is the high nibble of this lane.
    fn at_high_nibbles(self, t: u128) -> Self
        ensures small { (i : ℕ) → i < LANES → slice_index (bytes self) i < 256 }
        ensures lanes { HasAdditiveBytes t → (i : ℕ) → i < LANES
            → slice_index (bytes result) i ≡ byte_at t (slice_index (bytes self) i / 16) };

    // The lanes of one vector hold the low or the high bytes of half a chunk, or of a whole chunk.
    ghost width: { (LANES ≡ 16) ⊎ (LANES ≡ 32) };
}

#[inline(always)]
pub(crate) fn vector_at<const N: usize>(c: &[u8; 64], at: usize) -> Simd<u8, N>
    requires { at + N ≤ 64 }
    ensures { (i s : ℕ) → i < N → s ≡ at + i → slice_index result i ≡ slice_index c.now s }
{
    Simd::from_slice(&c[at..at + N])
}

// Writes N bytes into a chunk, from index `at` on.
#[inline(always)]
pub(crate) fn put_vector<const N: usize>(v: Simd<u8, N>, c: &mut [u8; 64], at: usize)
    requires { at + N ≤ 64 }
    ensures stored { (i s : ℕ) → i < N → s ≡ at + i → slice_index c.new s ≡ slice_index v.entry i }
    ensures kept { (i : ℕ) → (i < at) ⊎ (at + N ≤ i) → slice_index c.new i ≡ slice_index c.old i }
{
    v.copy_to_slice(&mut c[at..at + N]);
}

#[inline(always)]
fn table(t: u128) -> u8x16
    ensures { (i : ℕ) → i < 16 → slice_index result i ≡ byte_at t i }
{
    u64x2::from_array([(t & 0xFFFF_FFFF_FFFF_FFFF) as u64, (t >> 64) as u64]).to_le_bytes()
}

#[inline(always)]
fn table_twice(t: u128) -> u8x32
    ensures { (i : ℕ) → i < 32 → slice_index result i ≡ byte_at t (i % 16) }
{
    table(t).swizzle([
        0, 1, 2, 3, 4, 5, 6, 7, 8, 9, 10, 11, 12, 13, 14, 15, 0, 1, 2, 3, 4, 5, 6, 7, 8, 9, 10, 11,
        12, 13, 14, 15,
    ])
}

impl ByteVector for u8x16 {
    const LANES: usize = 16;

    ghost LANES = { 16 };

    ghost bytes = { λ v. v };

    ghost width = { inl refl };

    #[inline(always)]
    fn load(c: &[u8; 64], at: usize) -> u8x16 {
        vector_at(c, at)
    }

    #[inline(always)]
    fn store(self, c: &mut [u8; 64], at: usize) {
        put_vector(self, c, at);
    }

    #[inline(always)]
    fn sum(self, other: u8x16) -> u8x16 {
        vectors::sum(self, other)
    }

    #[inline(always)]
    fn at_low_nibbles(self, t: u128) -> u8x16 {
        table(t).swizzle_dyn(self & u8x16::splat(15))
    }

    #[inline(always)]
    fn at_high_nibbles(self, t: u128) -> u8x16 {
        table(t).swizzle_dyn(self >> u8x16::splat(4))
    }
}

impl ByteVector for u8x32 {
    const LANES: usize = 32;

    ghost LANES = { 32 };

    ghost bytes = { λ v. v };

    ghost width = { inr refl };

    #[inline(always)]
    fn load(c: &[u8; 64], at: usize) -> u8x32 {
        vector_at(c, at)
    }

    #[inline(always)]
    fn store(self, c: &mut [u8; 64], at: usize) {
        put_vector(self, c, at);
    }

    #[inline(always)]
    fn sum(self, other: u8x32) -> u8x32 {
        vectors::sum(self, other)
    }

    #[inline(always)]
    fn at_low_nibbles(self, t: u128) -> u8x32 {
        table_twice(t).swizzle_dyn_within::<16>(self & u8x32::splat(15))
    }

    #[inline(always)]
    fn at_high_nibbles(self, t: u128) -> u8x32 {
        table_twice(t).swizzle_dyn_within::<16>(self >> u8x32::splat(4))
    }
}

//! Sums of bytes in lanes.
ghost use Rattle.std.specs.Prelude.{◌≡◌, ℕ, ◌<◌, slice_index, bit_xor};

use std::simd::prelude::*;

/// Returns the sum of two vectors of bytes: lane i is the XOR of their lanes i. The first clause states that the lanes
/// of both vectors are bytes.
#[inline(always)]
pub fn sum<const N: usize>(x: Simd<u8, N>, y: Simd<u8, N>) -> Simd<u8, N>
    ensures bytes { (i : ℕ) → i < N
        → (slice_index x.entry i < 256) × (slice_index y.entry i < 256) }
    ensures lanes { (i : ℕ) → i < N
        → slice_index result i ≡ bit_xor (slice_index x.entry i) (slice_index y.entry i) }
{
    x ^ y
}

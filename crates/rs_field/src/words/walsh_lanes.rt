//! The Walsh-Hadamard transform of 64 entries modulo 65535, in the lanes of four vectors.
ghost use Rattle.std.specs.Prelude.{◌≡◌, ℕ, ◌+◌, ◌-◌, ◌*◌, ◌%◌, ◌<◌, max, length, slice_index};
ghost use Rattle.rs_field.specs.words.Walsh.{IsWalsh, IsLayer, IsFourSums};
ghost use Rattle.rs_field.specs.words.StepBounds.{CountsPairs};

use super::{GfElement, Steps};
use std::simd::prelude::*;

#[inline(always)]
fn larger(x: u16x16, y: u16x16) -> u16x16
    ensures { (i : ℕ) → i < 16 → slice_index result i ≡ max (slice_index x i) (slice_index y i) }
{
    x.simd_max(y)
}

#[inline(always)]
fn excess(x: u16x16, y: u16x16) -> u16x16
    ensures { (i : ℕ) → i < 16 → slice_index result i ≡ slice_index x i - slice_index y i }
{
    x.saturating_sub(y)
}

// Returns the sums modulo 65535, computed as in `branchless_add_mod`.
#[inline(always)]
fn add_mod_lanes(x: u16x16, y: u16x16) -> u16x16
    ensures { (i : ℕ) → i < 16
        → slice_index result i % 65535 ≡ (slice_index x i + slice_index y i) % 65535 }
{
    larger(x + y, excess(x, !y))
}

// Returns the differences modulo 65535. The complement of a word is its negative modulo 65535.
#[inline(always)]
fn sub_mod_lanes(x: u16x16, y: u16x16) -> u16x16
    ensures { (i : ℕ) → i < 16
        → slice_index result i % 65535 ≡ (slice_index x i + 65534 * slice_index y i) % 65535 }
{
    add_mod_lanes(x, !y)
}

// Returns the sums and differences of lanes at distance 1. In lanes 1, 3, .. the complement makes the difference.
#[inline(always)]
fn layer_1(v: u16x16) -> u16x16
    ensures { IsLayer 1 v result }
{
    add_mod_lanes(
        v.swizzle([1, 0, 3, 2, 5, 4, 7, 6, 9, 8, 11, 10, 13, 12, 15, 14]),
        v.shuffle(
            !v,
            [0, 17, 2, 19, 4, 21, 6, 23, 8, 25, 10, 27, 12, 29, 14, 31],
        ),
    )
}

// Returns the sums and differences of lanes at distance 2. In lanes 2, 3, 6, 7, .. the complement makes the difference.
#[inline(always)]
fn layer_2(v: u16x16) -> u16x16
    ensures { IsLayer 2 v result }
{
    add_mod_lanes(
        v.swizzle([2, 3, 0, 1, 6, 7, 4, 5, 10, 11, 8, 9, 14, 15, 12, 13]),
        v.shuffle(
            !v,
            [0, 1, 18, 19, 4, 5, 22, 23, 8, 9, 26, 27, 12, 13, 30, 31],
        ),
    )
}

// Returns the sums and differences of lanes at distance 4. In lanes 4 to 7 and 12 to 15 the complement makes the
// difference.
#[inline(always)]
fn layer_4(v: u16x16) -> u16x16
    ensures { IsLayer 4 v result }
{
    add_mod_lanes(
        v.swizzle([4, 5, 6, 7, 0, 1, 2, 3, 12, 13, 14, 15, 8, 9, 10, 11]),
        v.shuffle(
            !v,
            [0, 1, 2, 3, 20, 21, 22, 23, 8, 9, 10, 11, 28, 29, 30, 31],
        ),
    )
}

// Returns the sums and differences of lanes at distance 8. In lanes 8 to 15 the complement makes the difference.
#[inline(always)]
fn layer_8(v: u16x16) -> u16x16
    ensures { IsLayer 8 v result }
{
    add_mod_lanes(
        v.swizzle([8, 9, 10, 11, 12, 13, 14, 15, 0, 1, 2, 3, 4, 5, 6, 7]),
        v.shuffle(!v, [0, 1, 2, 3, 4, 5, 6, 7, 24, 25, 26, 27, 28, 29, 30, 31]),
    )
}

#[inline(always)]
fn walsh_16(v: u16x16) -> u16x16
    ensures { IsWalsh 16 (λ y. slice_index v y) (λ w. slice_index result w) }
{
    layer_8(layer_4(layer_2(layer_1(v))))
}

// Returns the result of two layers on four vectors: first the sums and differences of vectors 0 and 1 and of vectors 2
// and 3, then the sums and differences of the new vectors 0 and 2 and of the new vectors 1 and 3.
#[inline(always)]
fn vector_sums(x0: u16x16, x1: u16x16, x2: u16x16, x3: u16x16) -> (u16x16, u16x16, u16x16, u16x16)
    ensures { (i : ℕ) → i < 16
        → IsFourSums (slice_index x0 i) (slice_index x1 i) (slice_index x2 i) (slice_index x3 i)
        (slice_index result.0 i) (slice_index result.1 i) (slice_index result.2 i)
        (slice_index result.3 i) }
{
    let low_sum = add_mod_lanes(x0, x1);
    let low_difference = sub_mod_lanes(x0, x1);
    let high_sum = add_mod_lanes(x2, x3);
    let high_difference = sub_mod_lanes(x2, x3);
    (
        add_mod_lanes(low_sum, high_sum),
        add_mod_lanes(low_difference, high_difference),
        sub_mod_lanes(low_sum, high_sum),
        sub_mod_lanes(low_difference, high_difference),
    )
}

#[inline(always)]
fn lanes_of(entries: &[GfElement]) -> u16x16
    requires { length entries.now ≡ 16 }
    ensures { (i : ℕ) → i < 16 → slice_index result i ≡ slice_index entries.now i }
{
    u16x16::from_slice(entries)
}

// Writes the lanes of a vector into 16 entries.
#[inline(always)]
fn put_lanes(v: u16x16, entries: &mut [GfElement])
    requires { length entries.old ≡ 16 }
    ensures { (i : ℕ) → i < 16 → slice_index entries.new i ≡ slice_index v i }
{
    v.copy_to_slice(entries);
}

/// Transforms 64 entries: 16 entries in the lanes of each vector, and then two layers between the four vectors.
#[inline(always)]
pub(crate) fn walsh_64(steps: &mut Steps, entries: &mut [GfElement])
    requires { length entries.old ≡ 64 }
    ensures values { IsWalsh 64 (λ y. slice_index entries.old y) (λ w. slice_index entries.new w) }
    ensures counts { CountsPairs 192 steps.old steps.new }
{
    steps.pair_sums(192);
    let (low, high) = entries.split_at_mut(32);
    let (x0, x1) = low.split_at_mut(16);
    let (x2, x3) = high.split_at_mut(16);
    let v0 = walsh_16(lanes_of(x0));
    let v1 = walsh_16(lanes_of(x1));
    let v2 = walsh_16(lanes_of(x2));
    let v3 = walsh_16(lanes_of(x3));
    let (y0, y1, y2, y3) = vector_sums(v0, v1, v2, v3);
    put_lanes(y0, x0);
    put_lanes(y1, x1);
    put_lanes(y2, x2);
    put_lanes(y3, x3);
}

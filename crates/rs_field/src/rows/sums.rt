//! Sums of rows: of two lists of chunks, and of ranges of rows.
ghost use Rattle.std.specs.Prelude.{◌≡◌, ℕ, ◌+◌, ◌*◌, ◌<◌, ◌≤◌, ◌⊎◌, length, slice_index, bit_xor};
ghost use Rattle.rs_field.specs.rows.Rows.{chunk, symbol, SameOutside};
ghost use Rattle.rs_field.specs.rows.View.{word, Fits, SameExtent, SameRowsOutside};
ghost use Rattle.rs_field.specs.words.StepBounds.{CountsRows};

use super::ShardsRefMut;
use super::vectors::sum;
use crate::words::Steps;
use std::simd::prelude::*;

// Adds y to x, byte by byte.
#[inline(always)]
pub(crate) fn xor_chunk(x: &mut [u8; 64], y: &[u8; 64])
    ensures bytes { (i : ℕ) → i < 64
        → slice_index x.new i ≡ bit_xor (slice_index x.old i) (slice_index y.now i) }
    ensures symbols { (s : ℕ) → s < 32
        → symbol x.new s ≡ bit_xor (symbol x.old s) (symbol y.now s) }
{
    *x = sum(u8x64::from_array(*x), u8x64::from_array(*y)).to_array();
}

/// Adds `ys` to `xs`, chunk by chunk: each byte becomes its XOR with the byte at the same place, and so each symbol
/// becomes its sum with the symbol there. Both lists have the same number of chunks.
pub fn xor(xs: &mut [[u8; 64]], ys: &[[u8; 64]])
    requires { length xs.old ≡ length ys.now }
    ensures bytes { (k i : ℕ) → k < length xs.old → i < 64
        → slice_index (chunk xs.new k) i
        ≡ bit_xor (slice_index (chunk xs.old k) i) (slice_index (chunk ys.now k) i) }
    ensures symbols { (k s : ℕ) → k < length xs.old → s < 32
        → symbol (chunk xs.new k) s
        ≡ bit_xor (symbol (chunk xs.old k) s) (symbol (chunk ys.now k) s) }
{
    for k in 0..xs.len() {
        xor_chunk(&mut xs[k], &ys[k]);
    }
}

// Adds the n chunks from b on to the n chunks from a on.
fn xor_runs(chunks: &mut [[u8; 64]], a: usize, b: usize, n: usize)
    requires apart { (a + n ≤ b) ⊎ (b + n ≤ a) }
    requires a_in { a + n ≤ length chunks.old }
    requires b_in { b + n ≤ length chunks.old }
    ensures sums { (k s : ℕ) → k < n → s < 32
        → symbol (chunk chunks.new (a + k)) s
        ≡ bit_xor (symbol (chunk chunks.old (a + k)) s) (symbol (chunk chunks.old (b + k)) s) }
    ensures others { SameOutside a (a + n) chunks.old chunks.new }
{
    let (front, back) = chunks.split_at_mut(a.max(b));
    if a < b {
        xor(&mut front[a..a + n], &back[..n]);
    } else {
        xor(&mut back[..n], &front[b..b + n]);
    }
}

/// Adds `count` rows from `y` on to the rows from `x` on, and counts one row step for each. Both ranges are among the
/// rows and have no row in common. The second range is unchanged.
pub fn xor_within(steps: &mut Steps, data: &mut ShardsRefMut<'_>, x: usize, y: usize, count: usize)
    requires fits { Fits «data».old }
    requires apart { (x + count ≤ y) ⊎ (y + count ≤ x) }
    requires x_in { x + count ≤ «data».old.shard_count }
    requires y_in { y + count ≤ «data».old.shard_count }
    ensures extent { SameExtent «data».old «data».new }
    ensures sums { (i k s : ℕ) → i < count → k < «data».old.shard_len_64 → s < 32
        → word «data».new k s (x + i)
        ≡ bit_xor (word «data».old k s (x + i)) (word «data».old k s (y + i)) }
    ensures others { SameRowsOutside x (x + count) «data».old «data».new }
    ensures counts { CountsRows count steps.old steps.new }
{
    steps.row_steps(count);
    let len = data.shard_len_64;
    xor_runs(data.chunks, x * len, y * len, count * len);
}

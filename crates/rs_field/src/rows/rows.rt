//! Row functions that count their steps: clearing, copying and products.
ghost use Rattle.std.specs.Prelude.{◌≡◌, ℕ, ◌+◌, ◌-◌, ◌<◌, ◌≤◌, length};
ghost use Rattle.rs_field.specs.words.Field.{product, power};
ghost use Rattle.rs_field.specs.rows.Rows.{chunk, symbol, SameOutside};
ghost use Rattle.rs_field.specs.rows.View.{cell, word, Fits, SameExtent, SameRowsOutside, AreZero};
ghost use Rattle.rs_field.specs.words.StepBounds.{CountsRows, RowProductCounts};

use super::ShardsRefMut;
use super::engine::Engine;
use crate::words::{GfElement, Steps};

/// Fills rows `start` to `end - 1` with zero bytes, and counts one row step for each.
pub fn clear_rows(steps: &mut Steps, rows: &mut ShardsRefMut<'_>, start: usize, end: usize)
    requires fits { Fits rows.old }
    requires ordered { start ≤ end }
    requires within { end ≤ rows.old.shard_count }
    ensures extent { SameExtent rows.old rows.new }
    ensures zeros { AreZero start end rows.new }
    ensures others { SameRowsOutside start end rows.old rows.new }
    ensures counts { CountsRows (end - start) steps.old steps.new }
{
    steps.row_steps(end - start);
    rows.zero(start..end);
}

/// Copies the `count` rows from row `from` on into the rows from row `to` on, and counts one row step for each. `from +
/// count` is at most `to`.
pub fn copy_rows(
    steps: &mut Steps,
    rows: &mut ShardsRefMut<'_>,
    from: usize,
    to: usize,
    count: usize,
)
    requires fits { Fits rows.old }
    requires apart { from + count ≤ to }
    requires within { to + count ≤ rows.old.shard_count }
    ensures extent { SameExtent rows.old rows.new }
    ensures copied { (i k : ℕ) → k < rows.old.shard_len_64 → i < count
        → cell rows.new k (to + i) ≡ cell rows.old k (from + i) }
    ensures others { SameRowsOutside to (to + count) rows.old rows.new }
    ensures counts { CountsRows count steps.old steps.new }
{
    steps.row_steps(count);
    let len = rows.shard_len_64;
    let start = from * len;
    rows.chunks
        .copy_within(start..start + count * len, to * len);
}

/// Multiplies row `index` by the generator to the power `log_m`, with `mul` of the engine. 65535 is the factor one.
pub fn mul_row_at<E: Engine>(
    engine: &E,
    steps: &mut Steps,
    rows: &mut ShardsRefMut<'_>,
    index: usize,
    log_m: GfElement,
)
    requires fits { Fits rows.old }
    requires within { index < rows.old.shard_count }
    ensures extent { SameExtent rows.old rows.new }
    ensures products { (k s : ℕ) → k < rows.old.shard_len_64 → s < 32
        → word rows.new k s index ≡ product (word rows.old k s index) (power log_m) }
    ensures others { SameRowsOutside index (index + 1) rows.old rows.new }
    ensures counts { RowProductCounts steps.old steps.new }
{
    let len = rows.shard_len_64;
    mul_run(engine, steps, rows.chunks, index * len, len, log_m);
}

// Multiplies the n chunks from a on.
fn mul_run<E: Engine>(
    engine: &E,
    steps: &mut Steps,
    chunks: &mut [[u8; 64]],
    a: usize,
    n: usize,
    log_m: GfElement,
)
    requires { a + n ≤ length chunks.old }
    ensures products { (k s : ℕ) → k < n → s < 32
        → symbol (chunk chunks.new (a + k)) s
        ≡ product (symbol (chunk chunks.old (a + k)) s) (power log_m) }
    ensures others { SameOutside a (a + n) chunks.old chunks.new }
    ensures counts { RowProductCounts steps.old steps.new }
{
    engine.mul(steps, &mut chunks[a..a + n], log_m);
}

//! The coding of the high rate. The recovery shards are values at the points of the first block. The originals are
//! values at the points after this block.
ghost use Rattle.std.specs.Prelude.{◌≡◌, ℕ, ◌+◌, ◌*◌, ◌%◌, ◌^◌, ◌<◌, ◌≤◌, true};
ghost use Rattle.rs_field.specs.words.StepBounds.{CountsUpTo, transform_steps};
ghost use Rattle.rs_field.specs.code.Counts.{next_power, supports, high_rate};
ghost use Rattle.rs_field.specs.code.Frame.{encoder_rows};
ghost use Rattle.rs_field.specs.words.Transform.{forward};
ghost use Rattle.rs_field.specs.rows.View.{word, Fits, SameExtent, SameRowsOutside};
ghost use Rattle.rs_rate.specs.passes.Coding.{SumsBlocks, CodesWords, CodingCounts};
ghost use Rattle.rs_rate.specs.passes.Coding.{further_blocks, zero_padded};

use rs_field::engine::rows::clear_rows;
use rs_field::engine::utils::xor_within;
use rs_field::engine::{Engine, ShardsRefMut, Steps};

// Computes the recovery shards in the first rows from the originals in the rows.
pub(crate) fn code_high<E: Engine>(
    engine: &E,
    steps: &mut Steps,
    rows: &mut ShardsRefMut<'_>,
    original_count: usize,
    recovery_count: usize,
    block: usize,
)
    requires fits { Fits rows.old }
    requires supported { supports high_rate original_count recovery_count ≡ true }
    requires rows { rows.old.shard_count
        ≡ encoder_rows high_rate original_count recovery_count }
    requires block { block ≡ next_power recovery_count }
    ensures extent { SameExtent rows.old rows.new }
    ensures words { (k s : ℕ) → k < rows.old.shard_len_64 → s < 32
        → CodesWords high_rate original_count recovery_count
        (word rows.old k s) (word rows.new k s) }
    ensures counts { CodingCounts high_rate original_count recovery_count steps.old steps.new }
{
    sum_blocks(engine, steps, rows, original_count, block);
    engine.fft(steps, rows, 0, block, recovery_count, 0);
}

// Transforms each block of originals backward into the coefficients of its combination, and sums these in the first
// block.
fn sum_blocks<E: Engine>(
    engine: &E,
    steps: &mut Steps,
    rows: &mut ShardsRefMut<'_>,
    original_count: usize,
    block: usize,
)
    requires fits { Fits rows.old }
    requires power { (d : ℕ) × (block ≡ 2 ^ d) }
    requires some { 0 < original_count }
    requires enough { original_count ≤ rows.old.shard_count }
    requires whole { rows.old.shard_count % block ≡ 0 }
    requires points { rows.old.shard_count + block ≤ 65536 }
    ensures extent { SameExtent rows.old rows.new }
    ensures sums { (n : ℕ) × (original_count ≤ n * block) × (n * block + block ≤ 65536)
        × ((k s : ℕ) → k < rows.old.shard_len_64 → s < 32
        → SumsBlocks block n original_count (word rows.old k s) (word rows.new k s)) }
    ensures counts { CountsUpTo
        (block + transform_steps block + further_blocks block rows.old.shard_count
        * (2 * block + transform_steps block)) 0 0 steps.old steps.new }
{
    pass_block(engine, steps, rows, 0, original_count, block);
    let mut start = block;
    while start < original_count {
        pass_block(engine, steps, rows, start, original_count, block);
        xor_within(steps, rows, 0, start, block);
        start += block;
    }
}

// Transforms the `block` rows from `start` on backward. They become the coefficients of the combination whose values
// are the originals of these rows, at the points from `start + block` on, and zero after them.
fn pass_block<E: Engine>(
    engine: &E,
    steps: &mut Steps,
    rows: &mut ShardsRefMut<'_>,
    start: usize,
    original_count: usize,
    block: usize,
)
    requires fits { Fits rows.old }
    requires power { (d : ℕ) × (block ≡ 2 ^ d) }
    requires some { start < original_count }
    requires aligned { start % block ≡ 0 }
    requires within { start + block ≤ rows.old.shard_count }
    requires points { rows.old.shard_count + block ≤ 65536 }
    ensures extent { SameExtent rows.old rows.new }
    ensures others { SameRowsOutside start (start + block) rows.old rows.new }
    ensures values { (k s i : ℕ) → k < rows.old.shard_len_64 → s < 32 → i < block
        → forward block (start + block) (λ q. word rows.new k s (start + q)) i
        ≡ zero_padded original_count (word rows.old k s) (start + i) }
    ensures counts { CountsUpTo (block + transform_steps block) 0 0 steps.old steps.new }
{
    let count = block.min(original_count - start);
    clear_rows(steps, rows, start + count, start + block);
    engine.ifft(steps, rows, start, block, count, start + block);
}

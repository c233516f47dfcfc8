//! The coding of the low rate. The originals, and zeros after them, are values at the points of the first block. The
//! recovery shards are values at the points after this block.
ghost use Rattle.std.specs.Prelude.{◌≡◌, ℕ, ◌+◌, ◌*◌, ◌%◌, ◌^◌, ◌<◌, ◌≤◌, true};
ghost use Rattle.rs_field.specs.words.StepBounds.{CountsUpTo, transform_steps};
ghost use Rattle.rs_field.specs.code.Counts.{low_rate, next_power, supports};
ghost use Rattle.rs_field.specs.code.Frame.{encoder_rows};
ghost use Rattle.rs_field.specs.words.Transform.{forward};
ghost use Rattle.rs_field.specs.rows.View.{cell, word, Fits, SameExtent};
ghost use Rattle.rs_rate.specs.passes.Coding.{CodesWords, CodingCounts, further_blocks};

use rs_field::engine::rows::{clear_rows, copy_rows};
use rs_field::engine::{Engine, ShardsRefMut, Steps};

// Computes the recovery shards in the first rows from the originals in the rows.
pub(crate) fn code_low<E: Engine>(
    engine: &E,
    steps: &mut Steps,
    rows: &mut ShardsRefMut<'_>,
    original_count: usize,
    recovery_count: usize,
    block: usize,
)
    requires fits { Fits rows.old }
    requires supported { supports low_rate original_count recovery_count ≡ true }
    requires rows { rows.old.shard_count
        ≡ encoder_rows low_rate original_count recovery_count }
    requires block { block ≡ next_power original_count }
    ensures extent { SameExtent rows.old rows.new }
    ensures words { (k s : ℕ) → k < rows.old.shard_len_64 → s < 32
        → CodesWords low_rate original_count recovery_count
        (word rows.old k s) (word rows.new k s) }
    ensures counts { CodingCounts low_rate original_count recovery_count steps.old steps.new }
{
    clear_rows(steps, rows, original_count, block);
    engine.ifft(steps, rows, 0, block, original_count, 0);
    code_further(engine, steps, rows, recovery_count, block);
    engine.fft(steps, rows, 0, block, block.min(recovery_count), block);
}

// Computes the recovery rows from row `block` on: the coefficients are copied into each block and transformed forward.
fn code_further<E: Engine>(
    engine: &E,
    steps: &mut Steps,
    rows: &mut ShardsRefMut<'_>,
    recovery_count: usize,
    block: usize,
)
    requires fits { Fits rows.old }
    requires power { (d : ℕ) × (block ≡ 2 ^ d) }
    requires enough { recovery_count ≤ rows.old.shard_count }
    requires whole { rows.old.shard_count % block ≡ 0 }
    requires points { rows.old.shard_count + block ≤ 65536 }
    ensures extent { SameExtent rows.old rows.new }
    ensures combination { (i k : ℕ) → k < rows.old.shard_len_64 → i < block
        → cell rows.new k i ≡ cell rows.old k i }
    ensures values { (k s i : ℕ) → k < rows.old.shard_len_64 → s < 32
        → block ≤ i → i < recovery_count
        → word rows.new k s i ≡ forward block 0 (λ q. word rows.old k s q) (block + i) }
    ensures counts { CountsUpTo
        (further_blocks block rows.old.shard_count * (block + transform_steps block))
        0 0 steps.old steps.new }
{
    let mut start = block;
    while start < recovery_count {
        copy_rows(steps, rows, 0, start, block);
        let wanted = block.min(recovery_count - start);
        engine.fft(steps, rows, start, block, wanted, start + block);
        start += block;
    }
}

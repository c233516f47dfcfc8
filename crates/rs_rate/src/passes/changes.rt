//! How a change of one original changes the recovery shards: each word of a recovery shard changes by the change of the
//! original's word times a factor.
ghost use Rattle.std.specs.Prelude.{◌≡◌, ◌≢◌, ℕ, ◌/◌, ◌%◌, ◌<◌, ◌≤◌, ◌⊎◌, true, false, length, vec_len};
ghost use Rattle.std.specs.Prelude.{slice_index, bit_xor, IfOk, IfErr};
ghost use Rattle.rs_field.specs.code.Column.{column};
ghost use Rattle.rs_field.specs.code.Counts.{default_rate};
ghost use Rattle.rs_field.specs.code.Frame.{original_row, recovery_row, row_count};
ghost use Rattle.rs_field.specs.code.OneChange.{AreChangeFactors};
ghost use Rattle.rs_field.specs.rows.MarkedRows.{is_marked};
ghost use Rattle.rs_field.specs.words.DirectSum.{direct_factor};
ghost use Rattle.rs_field.specs.words.Field.{product, power};

use crate::passes::sums::{
    BaseFactors, add_tail_times, factor_of, finish_sums, locate_base, summed_piece,
};
use crate::rows::shard_rows::insert_at;
use crate::values::supported_counts::DefaultRateCounts;
use rs_field::engine::{Engine, GfElement, Steps};
use rs_field::error::Error;
use std::alloc::Global;

/// Returns a logarithm for each recovery shard. If the original with this index changes, each word of recovery shard i
/// changes by the change of the original's word times the generator to the power of logarithm i.
///
/// # Errors
///
/// [`Error::OutOfMemory`] if the logarithms cannot be allocated.
pub fn change_factors<E: Engine>(
    alloc: Global,
    engine: &E,
    steps: &mut Steps,
    counts: DefaultRateCounts,
    index: usize,
) -> Result<Vec<GfElement>, Error>
    requires { index < counts.original_count }
    ensures made { IfOk result
        (λ factors. AreChangeFactors default_rate counts.original_count counts.recovery_count index
        factors.items) }
    ensures refused { IfErr result (λ e. e ≡ Error.OutOfMemory) }
{
    let marks = original_marks(alloc, counts)?;
    let base = locate_base(alloc, engine, steps, counts.frame, &marks)?;
    recovery_factors(alloc, counts, &base, counts.frame.original_row(index))
}

fn original_marks(alloc: Global, counts: DefaultRateCounts) -> Result<Vec<bool>, Error>
    ensures length { IfOk result (λ marks. vec_len marks ≡ row_count counts.frame) }
    ensures own { IfOk result (λ marks. (i : ℕ) → i < counts.original_count
        → is_marked marks.items (original_row counts.frame i) ≡ true) }
    ensures others { IfOk result (λ marks. (p : ℕ)
        → (p < counts.frame.originals_from) ⊎ (original_row counts.frame counts.original_count ≤ p)
        → is_marked marks.items p ≡ false) }
    ensures refused { IfErr result (λ e. e ≡ Error.OutOfMemory) }
{
    let mut marks = vec![in alloc; false; counts.frame.row_count()]?;
    for i in 0..counts.original_count {
        marks[counts.frame.original_row(i)] = true;
    }
    Ok(marks)
}

fn recovery_factors(
    alloc: Global,
    counts: DefaultRateCounts,
    base: &BaseFactors,
    x: usize,
) -> Result<Vec<GfElement>, Error>
    requires entries { length base.now.locator.items ≡ row_count counts.frame }
    requires from { x < row_count counts.frame }
    requires apart { (i : ℕ) → i < counts.recovery_count → x ≢ recovery_row counts.frame i }
    ensures count { IfOk result (λ factors. length factors.items ≡ counts.recovery_count) }
    ensures factors { IfOk result (λ factors. (i : ℕ) → i < counts.recovery_count
        → slice_index factors.items i
        ≡ direct_factor (λ z. slice_index base.now.locator.items z) x
        (recovery_row counts.frame i)) }
    ensures refused { IfErr result (λ e. e ≡ Error.OutOfMemory) }
{
    let mut factors = Vec::with_capacity(alloc, counts.recovery_count)?;
    for i in 0..counts.recovery_count {
        let log_m = factor_of(&base.locator, &base.logs, x, counts.frame.recovery_row(i));
        factors.push(log_m)?;
    }
    Ok(factors)
}

/// Adds the tail of a change, which is less than a chunk, times a factor, to the tail of a recovery shard, in place.
/// Both tails have the same even number of bytes. `log_m` is the logarithm of the factor, below 65535.
pub fn add_to_tail<E: Engine>(
    engine: &E,
    steps: &mut Steps,
    tail: &mut [u8],
    change: &[u8],
    log_m: GfElement,
)
    requires same { length change.now ≡ length tail.old }
    requires short { length tail.old < 64 }
    requires even { length tail.old % 2 ≡ 0 }
    requires factor { log_m < 65535 }
    ensures length { length tail.new ≡ length tail.old }
    ensures words { (j : ℕ) → j < length tail.old / 2
        → column j tail.new
        ≡ bit_xor (column j tail.old) (product (column j change.now) (power log_m)) }
{
    if tail.is_empty() {
        return;
    }
    let mut row = [[0; 64]];
    insert_at(&mut row, tail, 0);
    add_tail_times(engine, steps, &mut row, change, log_m);
    finish_sums(&mut row, 1, 1, tail.len());
    tail.copy_from_slice(summed_piece(&row, 0, tail.len()));
}

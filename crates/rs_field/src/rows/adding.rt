//! Rows that are only read and added to sums, each times a factor for the row and the sum. Rows that are cleared, and
//! the steps of sums.
ghost use Rattle.std.specs.Prelude.{◌≡◌, ℕ, ◌+◌, ◌*◌, ◌<◌, length, replicate};
ghost use Rattle.rs_field.specs.rows.AddedRows.{clear_steps};
ghost use Rattle.rs_field.specs.rows.Rows.{chunk, symbol};
ghost use Rattle.rs_field.specs.rows.Written.{held};
ghost use Rattle.rs_field.specs.words.StepBounds.{CountsUpTo};

use super::reading::{ReadRows, Writing};
use crate::words::{GfElement, Steps};

/// Rows of which each is added to each of some sums, times a factor for the two.
pub trait AddedRows: ReadRows {
    ghost use Rattle.std.specs.Prelude.{◌≡◌, ℕ, ◌<◌};

    /// The number of sums.
    ghost sum_count: { Self → ℕ };

    /// The logarithm of the factor for row i and sum d, for i and d in this order. 65535 represents the factor zero.
    ghost log: { Self → ℕ → ℕ → ℕ };

    /// Returns the number of chunks of each row.
    fn len(&self) -> usize
        ensures { result ≡ Self.row_len self.now };

    /// Returns the number of sums.
    fn sums(&self) -> usize
        ensures { result ≡ sum_count self.now };

    /// Returns the logarithm of the factor for a row and a sum.
    fn factor(&self, row: usize, sum: usize) -> GfElement
        requires row { row < Self.row_count self.now }
        requires sum { sum < sum_count self.now }
        ensures { result ≡ log self.now row sum };
}

/// Clears a row that is to be replaced.
pub fn prepare(steps: &mut Steps, x: &mut [[u8; 64]], writing: Writing)
    ensures held { (k s : ℕ) → k < length x.old → s < 32
        → symbol (chunk x.new k) s ≡ held writing (symbol (chunk x.old k) s) }
    ensures counts { CountsUpTo (clear_steps writing) 0 0 steps.old steps.new }
{
    count_clearing(steps, writing);
    match writing {
        Writing::Replacing => clear(x),
        Writing::Adding => {}
    }
}

/// Clears a row.
pub fn clear(x: &mut [[u8; 64]])
    ensures { (k : ℕ) → k < length x.old → chunk x.new k ≡ replicate 64 0 }
{
    for chunk in x.iter_mut() {
        *chunk = [0; 64];
    }
}

// Counts the steps of sums of `count` rows each.
pub(crate) fn count_sums(steps: &mut Steps, sums: usize, count: usize, writing: Writing)
    ensures { CountsUpTo (sums * (clear_steps writing + 3 * count)) 0 0 steps.old steps.new }
{
    for _sum in 0..sums {
        count_clearing(steps, writing);
        steps.row_steps(count);
    }
}

// Counts the step that clears a row that is to be replaced.
fn count_clearing(steps: &mut Steps, writing: Writing)
    ensures { CountsUpTo (clear_steps writing) 0 0 steps.old steps.new }
{
    match writing {
        Writing::Replacing => steps.row_step(),
        Writing::Adding => {}
    }
}

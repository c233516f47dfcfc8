//! Rows that are only read, wherever they lie, and how they are written to other rows.
ghost use Rattle.std.specs.Prelude.{◌≡◌, ℕ, ◌+◌, ◌*◌, ◌<◌, ◌≤◌, length, bit_xor};
ghost use Rattle.rs_field.specs.rows.Rows.{chunk, symbol, word_in, SameOutside};
ghost use Rattle.rs_field.specs.rows.Written.{held};
ghost use Rattle.rs_field.specs.words.StepBounds.{CountsRows};

use super::sums::xor;
use crate::words::Steps;

/// How rows are written to other rows.
#[derive(Clone, Copy, Debug, PartialEq, Eq, Hash)]
pub enum Writing {
    /// They replace the other rows, whatever these hold.
    Replacing,
    /// They are added to the other rows.
    Adding,
}

/// Rows of equal length that are only read.
pub trait ReadRows {
    ghost use Rattle.std.specs.Prelude.{◌≡◌, ℕ, ◌<◌, ◌≤◌, length};
    ghost use Rattle.rs_field.specs.rows.Rows.{chunk, symbol};

    /// The number of rows.
    ghost row_count: { Self → ℕ };

    /// The number of chunks of each row.
    ghost row_len: { Self → ℕ };

    /// Symbol s of chunk k of row i, for k, s and i in this order.
    ghost word: { Self → ℕ → ℕ → ℕ → ℕ };

    /// Returns the number of rows.
    fn count(&self) -> usize
        ensures { result ≡ row_count self.now };

    /// Returns the chunks of the row with this index.
    fn row(&self, index: usize) -> &[[u8; 64]]
        requires { index < row_count self.now }
        ensures length { length result.now ≡ row_len self.now }
        ensures words { (k s : ℕ) → k < row_len self.now → s < 32
            → symbol (chunk result.now k) s ≡ word self.now k s index };

    /// Returns a number of first rows after which all rows are zero, so that nobody needs to read these. The default
    /// body returns the number of all rows.
    fn used(&self) -> usize
        ensures few { result ≤ row_count self.now }
        ensures zeros { (k s i : ℕ) → k < row_len self.now → s < 32 → result ≤ i
            → i < row_count self.now → word self.now k s i ≡ 0 }
    {
        self.count()
    }
}

// Writes a row to another row of the same length.
fn write_row(x: &mut [[u8; 64]], y: &[[u8; 64]], writing: Writing)
    requires { length x.old ≡ length y.now }
    ensures { (k s : ℕ) → k < length x.old → s < 32
        → symbol (chunk x.new k) s
        ≡ bit_xor (held writing (symbol (chunk x.old k) s)) (symbol (chunk y.now k) s) }
{
    match writing {
        Writing::Replacing => x.copy_from_slice(y),
        Writing::Adding => xor(x, y),
    }
}

// Writes a row to the chunks from `start` on.
fn write_row_at(x: &mut [[u8; 64]], start: usize, y: &[[u8; 64]], writing: Writing)
    requires { start + length y.now ≤ length x.old }
    ensures words { (k s : ℕ) → k < length y.now → s < 32
        → symbol (chunk x.new (start + k)) s
        ≡ bit_xor (held writing (symbol (chunk x.old (start + k)) s)) (symbol (chunk y.now k) s) }
    ensures others { SameOutside start (start + length y.now) x.old x.new }
{
    write_row(&mut x[start..start + y.len()], y, writing);
}

/// Writes rows to the rows that lie end to end in `x`, and counts one row step for each.
pub(crate) fn write_rows<R: ReadRows>(
    steps: &mut Steps,
    x: &mut [[u8; 64]],
    rows: &R,
    writing: Writing,
)
    requires { length x.old ≡ R.row_count rows.now * R.row_len rows.now }
    ensures length { length x.new ≡ length x.old }
    ensures words { (k s i : ℕ) → k < R.row_len rows.now → s < 32 → i < R.row_count rows.now
        → word_in x.new (R.row_len rows.now) k s i
        ≡ bit_xor (held writing (word_in x.old (R.row_len rows.now) k s i))
        (R.word rows.now k s i) }
    ensures counts { CountsRows (R.row_count rows.now) steps.old steps.new }
{
    let count = rows.count();
    steps.row_steps(count);
    for index in 0..count {
        let row = rows.row(index);
        write_row_at(x, index * row.len(), row, writing);
    }
}

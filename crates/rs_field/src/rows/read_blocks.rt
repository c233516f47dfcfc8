//! The backward transform of many rows that are only read. Groups of four rows are transformed first, and then the
//! groups, as rows that are four times as long. Groups of which no row is used are zero, and no transform reads them.
ghost use Rattle.std.specs.Prelude.{◌≡◌, ℕ, ◌+◌, ◌*◌, ◌/◌, ◌%◌, ◌^◌, ◌<◌, ◌≤◌, length, replicate};
ghost use Rattle.rs_field.specs.rows.Rows.{SameOutside, chunk, word_in};
ghost use Rattle.rs_field.specs.rows.Written.{AreWritten, AreGroupsWritten};
ghost use Rattle.rs_field.specs.words.StepBounds.{CountsUpTo, transform_steps};
ghost use Rattle.rs_field.specs.words.Transform.{IsBackward};

use super::adding::clear;
use super::engine::Engine;
use super::read_transform::{ifft_of_rows, transform_backward};
use super::reading::{ReadRows, Writing, write_rows};
use crate::words::Steps;

/// Writes the backward transform of at least eight rows at `skew_delta` to the rows that lie end to end in `x`, in
/// place of what these hold.
pub fn ifft_of_many<E: Engine, R: ReadRows>(
    engine: &E,
    steps: &mut Steps,
    x: &mut [[u8; 64]],
    rows: &R,
    skew_delta: usize,
)
    requires room { length x.old ≡ R.row_count rows.now * R.row_len rows.now }
    requires many { (d : ℕ) × (R.row_count rows.now ≡ 8 * 2 ^ d) }
    requires shift { skew_delta % R.row_count rows.now ≡ 0 }
    requires points { skew_delta + R.row_count rows.now ≤ 65536 }
    ensures length { length x.new ≡ length x.old }
    ensures written { (k s : ℕ) → k < R.row_len rows.now → s < 32
        → IsBackward (R.row_count rows.now) skew_delta (R.word rows.now k s)
        (word_in x.new (R.row_len rows.now) k s) }
    ensures counts { let n = R.row_count rows.now in
        CountsUpTo (n + transform_steps n) 0 0 steps.old steps.new }
{
    let groups = rows.count() / 4;
    let used = used_groups(rows);
    ifft_of_groups(engine, steps, x, rows, used, skew_delta);
    let len = x.len() / groups;
    transform_backward(engine, steps, x, groups, len, used, skew_delta / 4);
}

/// Adds the backward transform of at least eight rows at `skew_delta` to the rows that lie end to end in `x`. `spare`
/// has room for as many rows, and holds anything afterwards.
///
/// With two or four groups, the last transform adds its result to `x`. With more, the whole transform is made in
/// `spare` and then added.
pub fn add_ifft_of_many<E: Engine, R: ReadRows>(
    engine: &E,
    steps: &mut Steps,
    x: &mut [[u8; 64]],
    spare: &mut [[u8; 64]],
    rows: &R,
    skew_delta: usize,
)
    requires room { length x.old ≡ R.row_count rows.now * R.row_len rows.now }
    requires spare { length spare.old ≡ R.row_count rows.now * R.row_len rows.now }
    requires many { (d : ℕ) × (R.row_count rows.now ≡ 8 * 2 ^ d) }
    requires shift { skew_delta % R.row_count rows.now ≡ 0 }
    requires points { skew_delta + R.row_count rows.now ≤ 65536 }
    ensures length { length x.new ≡ length x.old }
    ensures spare { length spare.new ≡ length spare.old }
    ensures written { (k s : ℕ) → k < R.row_len rows.now → s < 32
        → AreWritten Writing.Adding (R.row_count rows.now) skew_delta (R.row_len rows.now) k s
        (R.word rows.now k s) x.old x.new }
    ensures counts { let n = R.row_count rows.now in
        CountsUpTo (2 * n + transform_steps n) 0 0 steps.old steps.new }
{
    let count = rows.count() / 4;
    let len = x.len() / count;
    if count > 4 {
        ifft_of_many(engine, steps, spare, rows, skew_delta);
        let made = EndToEnd {
            chunks: spare,
            count,
            len,
        };
        write_rows(steps, x, &made, Writing::Adding);
    } else {
        ifft_of_groups(engine, steps, spare, rows, used_groups(rows), skew_delta);
        let groups = EndToEnd {
            chunks: spare,
            count,
            len,
        };
        ifft_of_rows(engine, steps, x, &groups, skew_delta / 4, Writing::Adding);
    }
}

// Returns a number of first groups of four rows after which all rows are zero.
fn used_groups<R: ReadRows>(rows: &R) -> usize
    requires few { R.row_count rows.now ≤ 65536 }
    requires fours { R.row_count rows.now % 4 ≡ 0 }
    ensures few { result * 4 ≤ R.row_count rows.now }
    ensures zeros { (k s i : ℕ) → k < R.row_len rows.now → s < 32 → result * 4 ≤ i
        → i < R.row_count rows.now → R.word rows.now k s i ≡ 0 }
{
    (rows.used() + 3) / 4
}

// Writes the backward transform of each of the first `used` groups of four rows to the same rows of `x`, and clears the
// rows of the other groups, which are zero.
fn ifft_of_groups<E: Engine, R: ReadRows>(
    engine: &E,
    steps: &mut Steps,
    x: &mut [[u8; 64]],
    rows: &R,
    used: usize,
    skew_delta: usize,
)
    requires room { length x.old ≡ R.row_count rows.now * R.row_len rows.now }
    requires many { (d : ℕ) × (R.row_count rows.now ≡ 8 * 2 ^ d) }
    requires shift { skew_delta % R.row_count rows.now ≡ 0 }
    requires points { skew_delta + R.row_count rows.now ≤ 65536 }
    requires used { used * 4 ≤ R.row_count rows.now }
    requires zeros { (k s i : ℕ) → k < R.row_len rows.now → s < 32 → used * 4 ≤ i
        → i < R.row_count rows.now → R.word rows.now k s i ≡ 0 }
    ensures length { length x.new ≡ length x.old }
    ensures written { (k s : ℕ) → k < R.row_len rows.now → s < 32
        → AreGroupsWritten (R.row_count rows.now / 4) skew_delta (R.word rows.now k s)
        (word_in x.new (R.row_len rows.now) k s) }
    ensures zeros { (i : ℕ) → used * 4 * R.row_len rows.now ≤ i → i < length x.new
        → chunk x.new i ≡ replicate 64 0 }
    ensures counts { CountsUpTo (2 * R.row_count rows.now) 0 0 steps.old steps.new }
{
    let len = rows.row(0).len();
    for group in 0..used {
        ifft_of_group(engine, steps, x, rows, group * 4, skew_delta + group * 4);
    }
    steps.row_steps(rows.count() - used * 4);
    clear_from(x, used * 4 * len);
}

// Clears all chunks from chunk `start` on.
fn clear_from(x: &mut [[u8; 64]], start: usize)
    requires { start ≤ length x.old }
    ensures length { length x.new ≡ length x.old }
    ensures zeros { (i : ℕ) → start ≤ i → i < length x.old → chunk x.new i ≡ replicate 64 0 }
    ensures others { SameOutside start (length x.old) x.old x.new }
{
    clear(&mut x[start..]);
}

// Writes the backward transform of the four rows from row `first` on, at `shift`, to the same rows of `x`.
fn ifft_of_group<E: Engine, R: ReadRows>(
    engine: &E,
    steps: &mut Steps,
    x: &mut [[u8; 64]],
    rows: &R,
    first: usize,
    shift: usize,
)
    requires room { length x.old ≡ R.row_count rows.now * R.row_len rows.now }
    requires inside { first + 4 ≤ R.row_count rows.now }
    requires few { R.row_count rows.now ≤ 65536 }
    requires shift { shift % 4 ≡ 0 }
    requires points { shift + 4 ≤ 65536 }
    ensures length { length x.new ≡ length x.old }
    ensures written { (k s : ℕ) → k < R.row_len rows.now → s < 32
        → IsBackward 4 shift (λ i. R.word rows.now k s (first + i))
        (λ i. word_in x.new (R.row_len rows.now) k s (first + i)) }
    ensures others { let n = R.row_len rows.now in
        SameOutside (first * n) ((first + 4) * n) x.old x.new }
    ensures counts { CountsUpTo 8 0 0 steps.old steps.new }
{
    let group = FourRowsFrom { rows, first };
    let len = group.row(0).len();
    let x = &mut x[first * len..(first + 4) * len];
    ifft_of_rows(engine, steps, x, &group, shift, Writing::Replacing);
}

/// Four neighbouring rows of rows that are only read.
#[derive(Drop)]
struct FourRowsFrom<'a, R: ReadRows> {
    /// All rows.
    rows: &'a R,
    /// The index of the first of the four rows.
    first: usize,
    ghost inside: { first + 4 ≤ R.row_count rows.now },
    ghost few: { R.row_count rows.now ≤ 65536 },
}

impl<'a, R: ReadRows> ReadRows for FourRowsFrom<'a, R> {
    ghost use Rattle.std.specs.Prelude.{◌+◌};

    ghost row_count = { λ x. 4 };

    ghost row_len = { λ x. R.row_len x.rows.now };

    ghost word = { λ x k s i. R.word x.rows.now k s (x.first + i) };

    fn count(&self) -> usize {
        4
    }

    fn row(&self, index: usize) -> &[[u8; 64]] {
        self.rows.row(self.first + index)
    }
}

/// Rows that lie end to end in a list of chunks.
#[derive(Drop)]
struct EndToEnd<'a> {
    /// The chunks, row after row.
    chunks: &'a [[u8; 64]],
    /// The number of rows.
    count: usize,
    /// The number of chunks of a row.
    len: usize,
    ghost room: { length chunks.now ≡ count * len },
}

impl<'a> ReadRows for EndToEnd<'a> {
    ghost use Rattle.rs_field.specs.rows.Rows.{word_in};

    ghost row_count = { λ x. x.count };

    ghost row_len = { λ x. x.len };

    ghost word = { λ x k s i. word_in x.chunks.now x.len k s i };

    fn count(&self) -> usize {
        self.count
    }

    fn row(&self, index: usize) -> &[[u8; 64]] {
        &self.chunks[index * self.len..(index + 1) * self.len]
    }
}

//! Sums of rows, by any engine.
ghost use Rattle.std.specs.Prelude.{◌≡◌, ℕ, ◌+◌, ◌*◌, ◌<◌, ◌≤◌, length, bit_xor};
ghost use Rattle.rs_field.specs.rows.AddedRows.{clear_steps, row_sum};
ghost use Rattle.rs_field.specs.rows.Rows.{chunk, symbol, word_in, SameOutside};
ghost use Rattle.rs_field.specs.rows.Written.{held};
ghost use Rattle.rs_field.specs.words.StepBounds.{CountsUpTo};

use super::adding::{AddedRows, prepare};
use super::engine::Engine;
use super::reading::Writing;
use crate::words::Steps;

/// Writes the sums of `rows` to rows of `x`. The first row of `x` begins at its first chunk, and each of the others
/// begins `stride` chunks after the one before it. The sums replace the first chunks of these rows or are added to
/// them, as `writing` says. The chunks after them are unchanged.
///
/// If the engine has no loops of its own for this, the rows are added one by one with [`mul_add`](Engine::mul_add).
pub fn write_sums<E: Engine, A: AddedRows>(
    engine: &E,
    steps: &mut Steps,
    x: &mut [[u8; 64]],
    stride: usize,
    rows: &A,
    writing: Writing,
)
    requires room { length x.old ≡ A.sum_count rows.now * stride }
    requires fit { A.row_len rows.now ≤ stride }
    ensures length { length x.new ≡ length x.old }
    ensures sums { (k s d : ℕ) → k < A.row_len rows.now → s < 32 → d < A.sum_count rows.now
        → word_in x.new stride k s d
        ≡ bit_xor (held writing (word_in x.old stride k s d))
        (row_sum (A.row_count rows.now) (λ i. A.log rows.now i d) (A.word rows.now k s)) }
    ensures rest { (k s d : ℕ) → A.row_len rows.now ≤ k → k < stride → s < 32
        → d < A.sum_count rows.now
        → word_in x.new stride k s d ≡ word_in x.old stride k s d }
    ensures counts { CountsUpTo (A.sum_count rows.now
        * (clear_steps writing + 3 * A.row_count rows.now)) 0 0 steps.old steps.new }
{
    if engine.add_rows(steps, x, stride, rows, writing) {
        return;
    }
    for index in 0..rows.sums() {
        let sum = OneSum { rows, index };
        write_sum_at(engine, steps, x, index * stride, sum, writing);
    }
}

/// One of the sums of rows.
#[derive(Drop)]
struct OneSum<'a, A: AddedRows> {
    /// The rows.
    rows: &'a A,
    /// The index of the sum.
    index: usize,
    ghost inside: { index < A.sum_count rows.now },
}

// Writes a sum to the chunks from `start` on.
fn write_sum_at<E: Engine, A: AddedRows>(
    engine: &E,
    steps: &mut Steps,
    x: &mut [[u8; 64]],
    start: usize,
    sum: OneSum<'_, A>,
    writing: Writing,
)
    requires { start + A.row_len sum.rows.now ≤ length x.old }
    ensures sums { (k s : ℕ) → k < A.row_len sum.entry.rows.now → s < 32
        → symbol (chunk x.new (start + k)) s
        ≡ bit_xor (held writing (symbol (chunk x.old (start + k)) s))
        (row_sum (A.row_count sum.entry.rows.now) (λ i. A.log sum.entry.rows.now i sum.entry.index)
        (A.word sum.entry.rows.now k s)) }
    ensures others { SameOutside start (start + A.row_len sum.entry.rows.now) x.old x.new }
    ensures counts { CountsUpTo (clear_steps writing + 3 * A.row_count sum.entry.rows.now) 0 0
        steps.old steps.new }
{
    let len = sum.rows.len();
    write_sum(engine, steps, &mut x[start..start + len], sum, writing);
}

// Writes a sum to a row.
fn write_sum<E: Engine, A: AddedRows>(
    engine: &E,
    steps: &mut Steps,
    x: &mut [[u8; 64]],
    sum: OneSum<'_, A>,
    writing: Writing,
)
    requires { length x.old ≡ A.row_len sum.rows.now }
    ensures sums { (k s : ℕ) → k < A.row_len sum.entry.rows.now → s < 32
        → symbol (chunk x.new k) s
        ≡ bit_xor (held writing (symbol (chunk x.old k) s))
        (row_sum (A.row_count sum.entry.rows.now) (λ i. A.log sum.entry.rows.now i sum.entry.index)
        (A.word sum.entry.rows.now k s)) }
    ensures counts { CountsUpTo (clear_steps writing + 3 * A.row_count sum.entry.rows.now) 0 0
        steps.old steps.new }
{
    prepare(steps, x, writing);
    for index in 0..sum.rows.count() {
        let factor = sum.rows.factor(index, sum.index);
        engine.mul_add(steps, x, sum.rows.row(index), factor);
    }
}

//! The backward transform of rows that are only read.
ghost use Rattle.std.specs.Prelude.{◌≡◌, ℕ, ◌+◌, ◌*◌, ◌%◌, ◌^◌, ◌<◌, ◌≤◌, length, replicate};
ghost use Rattle.rs_field.specs.rows.Rows.{chunk, word_in};
ghost use Rattle.rs_field.specs.rows.Written.{AreWritten, held, steps_before, written_steps};
ghost use Rattle.rs_field.specs.words.StepBounds.{CountsUpTo, TransformCounts};
ghost use Rattle.rs_field.specs.words.Transform.{forward, IsBackward};

use super::ShardsRefMut;
use super::engine::Engine;
use super::reading::{ReadRows, Writing, write_rows};
use crate::words::Steps;

/// Writes the backward transform of `rows` at `skew_delta` to the rows that lie end to end in `x`. The result replaces
/// the rows of `x` or is added to them, as `writing` says.
///
/// If the engine has no loops of its own for this, the rows are written first and then transformed in place. To add the
/// result to `x`, `x` is transformed forward before.
pub fn ifft_of_rows<E: Engine, R: ReadRows>(
    engine: &E,
    steps: &mut Steps,
    x: &mut [[u8; 64]],
    rows: &R,
    skew_delta: usize,
    writing: Writing,
)
    requires room { length x.old ≡ R.row_count rows.now * R.row_len rows.now }
    requires power { (d : ℕ) × (R.row_count rows.now ≡ 2 ^ d) }
    requires shift { skew_delta % R.row_count rows.now ≡ 0 }
    requires points { skew_delta + R.row_count rows.now ≤ 65536 }
    ensures length { length x.new ≡ length x.old }
    ensures written { (k s : ℕ) → k < R.row_len rows.now → s < 32
        → AreWritten writing (R.row_count rows.now) skew_delta (R.row_len rows.now) k s
        (R.word rows.now k s) x.old x.new }
    ensures counts { CountsUpTo (written_steps writing (R.row_count rows.now)) 0 0
        steps.old steps.new }
{
    if engine.ifft_of(steps, x, rows, skew_delta, writing) {
        return;
    }
    let count = rows.count();
    let len = rows.row(0).len();
    prepare_rows(engine, steps, x, count, len, skew_delta, writing);
    write_rows(steps, x, rows, writing);
    transform_backward(engine, steps, x, count, len, count, skew_delta);
}

// Transforms the `count` rows of `len` chunks that lie end to end in `x` forward if rows are to be added to them.
fn prepare_rows<E: Engine>(
    engine: &E,
    steps: &mut Steps,
    x: &mut [[u8; 64]],
    count: usize,
    len: usize,
    skew_delta: usize,
    writing: Writing,
)
    requires room { length x.old ≡ count * len }
    requires power { (d : ℕ) × (count ≡ 2 ^ d) }
    requires shift { skew_delta % count ≡ 0 }
    requires points { skew_delta + count ≤ 65536 }
    ensures length { length x.new ≡ length x.old }
    ensures values { (k s i : ℕ) → k < len → s < 32 → i < count
        → forward count skew_delta (λ q. held writing (word_in x.old len k s q)) i
        ≡ held writing (word_in x.new len k s i) }
    ensures counts { CountsUpTo (steps_before writing count) 0 0 steps.old steps.new }
{
    match writing {
        Writing::Replacing => {}
        Writing::Adding => transform_forward(engine, steps, x, count, len, skew_delta),
    }
}

// Transforms the `count` rows of `len` chunks that lie end to end in `x` forward.
fn transform_forward<E: Engine>(
    engine: &E,
    steps: &mut Steps,
    x: &mut [[u8; 64]],
    count: usize,
    len: usize,
    skew_delta: usize,
)
    requires room { length x.old ≡ count * len }
    requires power { (d : ℕ) × (count ≡ 2 ^ d) }
    requires shift { skew_delta % count ≡ 0 }
    requires points { skew_delta + count ≤ 65536 }
    ensures length { length x.new ≡ length x.old }
    ensures values { (k s i : ℕ) → k < len → s < 32 → i < count
        → word_in x.new len k s i ≡ forward count skew_delta (word_in x.old len k s) i }
    ensures counts { TransformCounts count steps.old steps.new }
{
    let mut rows = ShardsRefMut::new(count, len, x);
    engine.fft(steps, &mut rows, 0, count, count, skew_delta);
}

/// Transforms the `count` rows of `len` chunks that lie end to end in `x` backward. Only the first `used` rows may hold
/// other bytes than zeros.
pub(crate) fn transform_backward<E: Engine>(
    engine: &E,
    steps: &mut Steps,
    x: &mut [[u8; 64]],
    count: usize,
    len: usize,
    used: usize,
    skew_delta: usize,
)
    requires room { length x.old ≡ count * len }
    requires power { (d : ℕ) × (count ≡ 2 ^ d) }
    requires used { used ≤ count }
    requires zeros { (i : ℕ) → used * len ≤ i → i < length x.old → chunk x.old i ≡ replicate 64 0 }
    requires shift { skew_delta % count ≡ 0 }
    requires points { skew_delta + count ≤ 65536 }
    ensures length { length x.new ≡ length x.old }
    ensures values { (k s : ℕ) → k < len → s < 32
        → IsBackward count skew_delta (word_in x.old len k s) (word_in x.new len k s) }
    ensures counts { TransformCounts count steps.old steps.new }
{
    let mut rows = ShardsRefMut::new(count, len, x);
    engine.ifft(steps, &mut rows, 0, count, used, skew_delta);
}

//! The engine that a kernel makes.
ghost use Rattle.std.specs.Prelude.{◌≡◌, ℕ, true, false, ◌+◌, ◌*◌, ◌%◌, ◌^◌, ◌<◌, ◌≤◌, length, slice_index};
ghost use Rattle.rs_field.specs.rows.Written.{AreWritten};
ghost use Rattle.rs_field.specs.words.StepBounds.{CountsUpTo, LocatorCounts, LocatorCountsBelow};
ghost use Rattle.rs_field.specs.words.Field.{power, log};
ghost use Rattle.rs_field.specs.words.Locator.{IsLocatorBelow};

use super::ShardsRefMut;
use super::adding::{AddedRows, count_sums};
use super::block::Block;
use super::bytes::symbols_are_words;
use super::changing::{Change, ChangeRows};
use super::engine::Engine;
use super::kernel::{FourRows, Kernel, ThreeLogarithms};
use super::layers::Direction::{Backward, Forward};
use super::marked_rows::UsedRows;
use super::reading::{ReadRows, Writing};
use super::transform::transform;
use crate::words::logarithms::put_logarithms;
use crate::words::{GfElement, Steps, locating};

impl<K: Kernel> Engine for K {
    fn fft(
        &self,
        steps: &mut Steps,
        data: &mut ShardsRefMut<'_>,
        pos: usize,
        size: usize,
        truncated_size: usize,
        skew_delta: usize,
    ) {
        let wanted = UsedRows::First(truncated_size);
        let block = Block::new(pos, size, skew_delta);
        transform(Forward, self, steps, data, block, wanted);
    }

    fn ifft(
        &self,
        steps: &mut Steps,
        data: &mut ShardsRefMut<'_>,
        pos: usize,
        size: usize,
        truncated_size: usize,
        skew_delta: usize,
    ) {
        let given = UsedRows::First(truncated_size);
        let block = Block::new(pos, size, skew_delta);
        transform(Backward, self, steps, data, block, given);
    }

    fn fft_wanted(
        &self,
        steps: &mut Steps,
        data: &mut ShardsRefMut<'_>,
        pos: usize,
        wanted: &[bool],
        skew_delta: usize,
    ) {
        let block = Block::new(pos, wanted.len(), skew_delta);
        let wanted = UsedRows::Marked(wanted);
        transform(Forward, self, steps, data, block, wanted);
    }

    fn ifft_given(
        &self,
        steps: &mut Steps,
        data: &mut ShardsRefMut<'_>,
        pos: usize,
        given: &[bool],
        skew_delta: usize,
    ) {
        let block = Block::new(pos, given.len(), skew_delta);
        let given = UsedRows::Marked(given);
        transform(Backward, self, steps, data, block, given);
    }

    fn reads_rows(&self) -> bool {
        Kernel::reads_rows(self)
    }

    fn ifft_of<R: ReadRows>(
        &self,
        steps: &mut Steps,
        x: &mut [[u8; 64]],
        rows: &R,
        skew_delta: usize,
        writing: Writing,
    ) -> bool {
        match rows.count() {
            2 => ifft_of_two(self, steps, x, rows, skew_delta, writing),
            4 => ifft_of_four(self, steps, x, rows, skew_delta, writing),
            _ => false,
        }
    }

    fn mul(&self, steps: &mut Steps, x: &mut [[u8; 64]], log_m: GfElement) {
        steps.row_step();
        self.mul_row(x, log_m);
    }

    fn mul_add(&self, steps: &mut Steps, x: &mut [[u8; 64]], y: &[[u8; 64]], log_m: GfElement) {
        steps.row_step();
        self.mul_add_row(x, y, log_m);
    }

    fn add_rows<A: AddedRows>(
        &self,
        steps: &mut Steps,
        x: &mut [[u8; 64]],
        stride: usize,
        rows: &A,
        writing: Writing,
    ) -> bool {
        let has_added = Kernel::add_rows(self, x, stride, rows, writing);
        if has_added {
            count_sums(steps, rows.sums(), rows.count(), writing);
        }
        has_added
    }

    fn add_change<R: ChangeRows>(
        &self,
        steps: &mut Steps,
        rows: &mut R,
        change: Change<'_>,
        logs: &[GfElement],
    ) -> bool {
        let has_changed = Kernel::add_change(self, rows, change, logs);
        if has_changed {
            steps.row_steps(logs.len());
        }
        has_changed
    }

    fn eval_poly(&self, steps: &mut Steps, erasures: &mut [GfElement], truncated_size: usize) {
        let log_walsh = self.tables().log_walsh();
        locating::eval_poly(steps, erasures, truncated_size, log_walsh);
    }

    fn locate(&self, steps: &mut Steps, erasures: &mut [GfElement])
        requires power { (d : ℕ) × (length erasures.old ≡ 2 ^ d) }
        requires few { length erasures.old ≤ 65536 }
        ensures values { IsLocatorBelow (length erasures.old) (λ y. slice_index erasures.old y)
            (λ x. slice_index erasures.new x) }
        ensures counts { LocatorCounts steps.old steps.new }
        ensures own_counts { LocatorCountsBelow (length erasures.old) steps.old steps.new }
    {
        let log_walsh = self.tables().log_walsh_below(erasures.len());
        locating::locate(steps, erasures, log_walsh);
    }

    fn logarithms(&self, logs: &mut [GfElement]) -> bool
        requires few { length logs.old ≤ 65536 }
        ensures values { result ≡ true
            → (z : ℕ) → 0 < z → z < length logs.old → slice_index logs.new z ≡ log z }
        ensures always { result ≡ true }
    {
        put_logarithms(logs, self.tables().skew);
        true
    }
}

// Does `ifft_of` for two rows, with the butterfly of the kernel.
fn ifft_of_two<K: Kernel, R: ReadRows>(
    kernel: &K,
    steps: &mut Steps,
    x: &mut [[u8; 64]],
    rows: &R,
    skew_delta: usize,
    writing: Writing,
) -> bool
    requires room { length x.old ≡ 2 * R.row_len rows.now }
    requires count { R.row_count rows.now ≡ 2 }
    requires shift { skew_delta % 2 ≡ 0 }
    requires points { skew_delta + 2 ≤ 65536 }
    ensures length { length x.new ≡ length x.old }
    ensures written { result ≡ true → (k s : ℕ) → k < R.row_len rows.now → s < 32
        → AreWritten writing 2 skew_delta (R.row_len rows.now) k s (R.word rows.now k s)
        x.old x.new }
    ensures kept { result ≡ false → x.new ≡ x.old }
    ensures counts { result ≡ true → CountsUpTo 3 0 0 steps.old steps.new }
    ensures uncounted { result ≡ false → CountsUpTo 0 0 0 steps.old steps.new }
{
    let (y0, y1) = (rows.row(0), rows.row(1));
    symbols_are_words(y0);
    symbols_are_words(y1);
    let log_m = kernel.tables().skew[skew_delta];
    let is_written = kernel.ifft_of_two(x, y0, y1, log_m, writing);
    if is_written {
        steps.row_steps(3);
    }
    is_written
}

// Does `ifft_of` for four rows, with the two layers of the kernel.
fn ifft_of_four<K: Kernel, R: ReadRows>(
    kernel: &K,
    steps: &mut Steps,
    x: &mut [[u8; 64]],
    rows: &R,
    skew_delta: usize,
    writing: Writing,
) -> bool
    requires room { length x.old ≡ 4 * R.row_len rows.now }
    requires count { R.row_count rows.now ≡ 4 }
    requires shift { skew_delta % 4 ≡ 0 }
    requires points { skew_delta + 4 ≤ 65536 }
    ensures length { length x.new ≡ length x.old }
    ensures written { result ≡ true → (k s : ℕ) → k < R.row_len rows.now → s < 32
        → AreWritten writing 4 skew_delta (R.row_len rows.now) k s (R.word rows.now k s)
        x.old x.new }
    ensures kept { result ≡ false → x.new ≡ x.old }
    ensures counts { result ≡ true → CountsUpTo 8 0 0 steps.old steps.new }
    ensures uncounted { result ≡ false → CountsUpTo 0 0 0 steps.old steps.new }
{
    let skew = kernel.tables().skew;
    let logs = ThreeLogarithms {
        log_m02: skew[skew_delta + 1],
        log_m01: skew[skew_delta],
        log_m23: skew[skew_delta + 2],
    };
    let y = FourRows {
        row_0: rows.row(0),
        row_1: rows.row(1),
        row_2: rows.row(2),
        row_3: rows.row(3),
    };
    symbols_are_words(y.row_0);
    symbols_are_words(y.row_1);
    symbols_are_words(y.row_2);
    symbols_are_words(y.row_3);
    let is_written = kernel.ifft_of_four(x, y, logs, writing);
    if is_written {
        steps.row_steps(8);
    }
    is_written
}

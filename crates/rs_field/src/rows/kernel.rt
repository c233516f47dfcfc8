//! The parts of an engine that differ from engine to engine.
ghost use Rattle.std.specs.Prelude.{◌≡◌, ℕ, ◌+◌, ◌*◌, ◌<◌, ◌≤◌, true, false, length, bit_xor};
ghost use Rattle.rs_field.specs.words.Field.{product, power};
ghost use Rattle.rs_field.specs.words.Tables.{times_factor};
ghost use Rattle.rs_field.specs.rows.Changed.{AreChanged};
ghost use Rattle.rs_field.specs.rows.AddedRows.{row_sum};
ghost use Rattle.rs_field.specs.rows.Rows.{chunk, symbol, word_in};
ghost use Rattle.rs_field.specs.rows.Pairs.{IsBackwardTwo, at_two_added};
ghost use Rattle.rs_field.specs.rows.TwoLayers.{IsForwardTwoLayers, IsBackwardTwoLayers};
ghost use Rattle.rs_field.specs.rows.TwoLayers.{IsBackwardFour, at_four_added};
ghost use Rattle.rs_field.specs.rows.Written.{held};

use super::adding::AddedRows;
use super::changing::{Change, ChangeRows};
use super::reading::Writing;
use crate::words::GfElement;
use crate::words::lent_tables::LentTables;

/// The logarithms of the three factors that two layers of butterflies on four rows use. 65535 represents the factor
/// zero.
#[derive(Clone, Copy, Debug, PartialEq, Eq, Hash)]
pub struct ThreeLogarithms {
    /// The logarithm of the factor of the butterfly on rows 0 and 2 and of the butterfly on rows 1 and 3.
    pub log_m02: GfElement,
    /// The logarithm of the factor of the butterfly on rows 0 and 1.
    pub log_m01: GfElement,
    /// The logarithm of the factor of the butterfly on rows 2 and 3.
    pub log_m23: GfElement,
}

/// Four rows that are only read.
#[derive(Clone, Copy, Debug)]
pub struct FourRows<'a> {
    /// The first row.
    pub row_0: &'a [[u8; 64]],
    /// The second row.
    pub row_1: &'a [[u8; 64]],
    /// The third row.
    pub row_2: &'a [[u8; 64]],
    /// The fourth row.
    pub row_3: &'a [[u8; 64]],
}

/// The parts in which engines differ: the tables that they read, the butterflies of two rows, and the products of a
/// row.
///
/// Each type with these parts is an engine: the module `kernel_engine` implements [`Engine`](super::engine::Engine) for
/// it, with the transforms, the products and the locator. The factor of a butterfly is given by its logarithm `log_m`;
/// 65535 represents the factor zero.
pub trait Kernel: Drop {
    /// Returns the tables of transforms and locators.
    fn tables(&self) -> LentTables<'_>;

    /// Adds `y` times the factor to `x`, and then the new `x` to `y`. Both rows have the same number of chunks.
    fn fft_butterfly(&self, x: &mut [[u8; 64]], y: &mut [[u8; 64]], log_m: GfElement)
        requires { length x.old ≡ length y.old }
        ensures first { (k s : ℕ) → k < length x.old → s < 32
            → symbol (chunk x.new k) s
            ≡ bit_xor (symbol (chunk x.old k) s) (times_factor log_m (symbol (chunk y.old k) s)) }
        ensures second { (k s : ℕ) → k < length x.old → s < 32
            → symbol (chunk y.new k) s
            ≡ bit_xor (symbol (chunk y.old k) s) (symbol (chunk x.new k) s) };

    /// Adds `x` to `y`, and then the new `y` times the factor to `x`. Both rows have the same number of chunks.
    fn ifft_butterfly(&self, x: &mut [[u8; 64]], y: &mut [[u8; 64]], log_m: GfElement)
        requires { length x.old ≡ length y.old }
        ensures first { (k s : ℕ) → k < length x.old → s < 32
            → symbol (chunk x.new k) s
            ≡ bit_xor (symbol (chunk x.old k) s) (times_factor log_m (symbol (chunk y.new k) s)) }
        ensures second { (k s : ℕ) → k < length x.old → s < 32
            → symbol (chunk y.new k) s
            ≡ bit_xor (symbol (chunk y.old k) s) (symbol (chunk x.old k) s) };

    /// Does two layers of `fft_butterfly` on four rows: first on rows 0 and 2 and on rows 1 and 3, with the factor of
    /// `log_m02`, then on rows 0 and 1, with the factor of `log_m01`, and on rows 2 and 3, with the factor of
    /// `log_m23`. All four rows have the same number of chunks.
    ///
    /// The default body calls `fft_butterfly` four times. An engine can have a body of its own that loads and stores
    /// each word once for both layers.
    fn fft_two_layers(
        &self,
        x0: &mut [[u8; 64]],
        x1: &mut [[u8; 64]],
        x2: &mut [[u8; 64]],
        x3: &mut [[u8; 64]],
        logs: ThreeLogarithms,
    )
        requires one { length x0.old ≡ length x1.old }
        requires two { length x0.old ≡ length x2.old }
        requires three { length x0.old ≡ length x3.old }
        ensures { (k : ℕ) → k < length x0.old
            → IsForwardTwoLayers logs.log_m02 logs.log_m01 logs.log_m23 (chunk x0.old k)
            (chunk x1.old k) (chunk x2.old k) (chunk x3.old k)
            (chunk x0.new k) (chunk x1.new k) (chunk x2.new k) (chunk x3.new k) }
    {
        self.fft_butterfly(x0, x2, logs.log_m02);
        self.fft_butterfly(x1, x3, logs.log_m02);
        self.fft_butterfly(x0, x1, logs.log_m01);
        self.fft_butterfly(x2, x3, logs.log_m23);
    }

    /// Does two layers of `ifft_butterfly` on four rows: first on rows 0 and 1, with the factor of `log_m01`, and on
    /// rows 2 and 3, with the factor of `log_m23`, then on rows 0 and 2 and on rows 1 and 3, with the factor of
    /// `log_m02`. All four rows have the same number of chunks.
    ///
    /// The default body calls `ifft_butterfly` four times.
    fn ifft_two_layers(
        &self,
        x0: &mut [[u8; 64]],
        x1: &mut [[u8; 64]],
        x2: &mut [[u8; 64]],
        x3: &mut [[u8; 64]],
        logs: ThreeLogarithms,
    )
        requires one { length x0.old ≡ length x1.old }
        requires two { length x0.old ≡ length x2.old }
        requires three { length x0.old ≡ length x3.old }
        ensures { (k : ℕ) → k < length x0.old
            → IsBackwardTwoLayers logs.log_m02 logs.log_m01 logs.log_m23 (chunk x0.old k)
            (chunk x1.old k) (chunk x2.old k) (chunk x3.old k)
            (chunk x0.new k) (chunk x1.new k) (chunk x2.new k) (chunk x3.new k) }
    {
        self.ifft_butterfly(x0, x1, logs.log_m01);
        self.ifft_butterfly(x2, x3, logs.log_m23);
        self.ifft_butterfly(x0, x2, logs.log_m02);
        self.ifft_butterfly(x1, x3, logs.log_m02);
    }

    /// Returns whether the kernel has [`ifft_of_two`](Kernel::ifft_of_two) and [`ifft_of_four`](Kernel::ifft_of_four)
    /// of its own, which spare a copy of rows that are only read. The default body returns false.
    fn reads_rows(&self) -> bool {
        false
    }

    /// Writes the backward butterfly of the rows `y0` and `y1` to the two rows that lie end to end in `x`, and returns
    /// true. The result replaces the rows of `x` or is added to them, as `writing` says. Or changes nothing and returns
    /// false, as the default body does. All four rows have the same number of chunks.
    fn ifft_of_two(
        &self,
        x: &mut [[u8; 64]],
        y0: &[[u8; 64]],
        y1: &[[u8; 64]],
        log_m: GfElement,
        writing: Writing,
    ) -> bool
        requires room { length x.old ≡ 2 * length y0.now }
        requires same { length y1.now ≡ length y0.now }
        ensures length { length x.new ≡ length x.old }
        ensures written { let n = length y0.now in
            result ≡ true → (k s : ℕ) → k < n → s < 32
            → at_two_added s (IsBackwardTwo log_m) (held writing)
            (chunk y0.now k) (chunk y1.now k) (chunk x.old k) (chunk x.old (n + k))
            (chunk x.new k) (chunk x.new (n + k)) }
        ensures kept { result ≡ false → x.new ≡ x.old }
    {
        false
    }

    /// Writes the two backward layers of the rows `y` to the four rows that lie end to end in `x`, and returns true.
    /// The result replaces the rows of `x` or is added to them, as `writing` says. Or changes nothing and returns
    /// false, as the default body does. All eight rows have the same number of chunks.
    fn ifft_of_four(
        &self,
        x: &mut [[u8; 64]],
        y: FourRows<'_>,
        logs: ThreeLogarithms,
        writing: Writing,
    ) -> bool
        requires room { length x.old ≡ 4 * length y.row_0.now }
        requires one { length y.row_1.now ≡ length y.row_0.now }
        requires two { length y.row_2.now ≡ length y.row_0.now }
        requires three { length y.row_3.now ≡ length y.row_0.now }
        ensures length { length x.new ≡ length x.old }
        ensures written { let n = length y.entry.row_0.now in
            result ≡ true → (k s : ℕ) → k < n → s < 32
            → at_four_added s (IsBackwardFour logs.log_m02 logs.log_m01 logs.log_m23)
            (held writing) (chunk y.entry.row_0.now k) (chunk y.entry.row_1.now k)
            (chunk y.entry.row_2.now k) (chunk y.entry.row_3.now k)
            (chunk x.old k) (chunk x.old (n + k))
            (chunk x.old (2 * n + k)) (chunk x.old (3 * n + k))
            (chunk x.new k) (chunk x.new (n + k))
            (chunk x.new (2 * n + k)) (chunk x.new (3 * n + k)) }
        ensures kept { result ≡ false → x.new ≡ x.old }
    {
        false
    }

    /// Multiplies every symbol of every chunk of a row by the generator to the power `log_m`; 65535 is the factor one.
    fn mul_row(&self, x: &mut [[u8; 64]], log_m: GfElement)
        ensures { (k s : ℕ) → k < length x.old → s < 32
            → symbol (chunk x.new k) s ≡ product (symbol (chunk x.old k) s) (power log_m) };

    /// Adds `y` times the factor of a butterfly to `x`; 65535 represents the factor zero. Both rows have the same
    /// number of chunks.
    fn mul_add_row(&self, x: &mut [[u8; 64]], y: &[[u8; 64]], log_m: GfElement)
        requires { length x.old ≡ length y.now }
        ensures { (k s : ℕ) → k < length x.old → s < 32
            → symbol (chunk x.new k) s
            ≡ bit_xor (symbol (chunk x.old k) s) (times_factor log_m (symbol (chunk y.now k) s)) };

    /// Writes the sums of `rows` to the first chunks of the rows that lie `stride` chunks apart in `x`, as
    /// [`write_sums`](super::row_sums::write_sums) says, and returns true. Or changes nothing and returns false, as the
    /// default body does.
    fn add_rows<A: AddedRows>(
        &self,
        x: &mut [[u8; 64]],
        stride: usize,
        rows: &A,
        writing: Writing,
    ) -> bool
        requires room { length x.old ≡ A.sum_count rows.now * stride }
        requires fit { A.row_len rows.now ≤ stride }
        ensures length { length x.new ≡ length x.old }
        ensures sums { result ≡ true
            → (k s d : ℕ) → k < A.row_len rows.now → s < 32 → d < A.sum_count rows.now
            → word_in x.new stride k s d
            ≡ bit_xor (held writing (word_in x.old stride k s d))
            (row_sum (A.row_count rows.now) (λ i. A.log rows.now i d) (A.word rows.now k s)) }
        ensures rest { (k s d : ℕ) → A.row_len rows.now ≤ k → k < stride → s < 32
            → d < A.sum_count rows.now
            → word_in x.new stride k s d ≡ word_in x.old stride k s d }
        ensures kept { result ≡ false → x.new ≡ x.old }
    {
        false
    }

    /// Adds a change to each row, times a factor for the row, and returns true. `logs` has the logarithm of each
    /// factor; 65535 represents the factor zero. Or changes nothing and returns false, as the default body does.
    fn add_change<R: ChangeRows>(
        &self,
        rows: &mut R,
        change: Change<'_>,
        logs: &[GfElement],
    ) -> bool
        requires has { (i k : ℕ) → i < length logs.now → k < length change.old.now
            → R.has (R.kept rows.old) i k }
        ensures changed { result ≡ true
            → AreChanged change.entry logs.now (R.word rows.old) (R.word rows.new) }
        ensures kept { R.kept rows.new ≡ R.kept rows.old }
        ensures unchanged { result ≡ false → rows.new ≡ rows.old }
    {
        false
    }
}

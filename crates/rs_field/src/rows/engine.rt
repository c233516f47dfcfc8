//! The trait of an engine.
ghost use Rattle.std.specs.Prelude.{◌≡◌, ℕ, ◌+◌, ◌*◌, ◌%◌, ◌^◌, ◌<◌, ◌≤◌, true, false, length, slice_index};
ghost use Rattle.std.specs.Prelude.{bit_xor};
ghost use Rattle.rs_field.specs.words.Field.{product, power, log};
ghost use Rattle.rs_field.specs.words.Tables.{times_factor};
ghost use Rattle.rs_field.specs.rows.MarkedRows.{is_marked, OthersAreZero};
ghost use Rattle.rs_field.specs.words.Transform.{forward};
ghost use Rattle.rs_field.specs.rows.Changed.{AreChanged};
ghost use Rattle.rs_field.specs.rows.AddedRows.{clear_steps, row_sum};
ghost use Rattle.rs_field.specs.rows.Rows.{chunk, symbol, word_in};
ghost use Rattle.rs_field.specs.rows.View.{word, Fits, SameExtent, SameRowsOutside, AreZero};
ghost use Rattle.rs_field.specs.rows.Written.{AreWritten, held, written_steps};
ghost use Rattle.rs_field.specs.words.Locator.{IsLocator, IsLocatorBelow};
ghost use Rattle.rs_field.specs.words.StepBounds.{LocatorCounts, TransformCounts, RowProductCounts, RowSumCounts};
ghost use Rattle.rs_field.specs.words.StepBounds.{ChangeCounts, CountsUpTo};

use super::ShardsRefMut;
use super::adding::AddedRows;
use super::bytes::symbols_are_words;
use super::changing::{Change, ChangeRows};
use super::marked_rows::marked_end;
use super::reading::{ReadRows, Writing};
use super::sums::xor;
use crate::words::{GF_MODULUS, GF_ORDER, GfElement, Steps};

/// An engine: the transforms of rows, the product of a row, and the locator that encoders and decoders need.
///
/// The transforms are those of Lin, Chung and Han ("Novel polynomial basis and its application to Reed-Solomon erasure
/// codes"), in the form of Leopard-RS. They compute values from coefficients in the basis of subspace polynomials,
/// separately for each symbol. The points of the values are `skew_delta`, `skew_delta + 1` and so on. Every call
/// succeeds and allocates nothing.
///
/// A type that provides `fft`, `ifft`, `mul` and `eval_poly` is an engine. The other nine calls have default bodies.
pub trait Engine: Drop {
    /// Transforms the `size` rows from `pos` on forward, at `skew_delta`.
    ///
    /// For i below `truncated_size`, row `pos + i` becomes the sum, over q below `size`, of the old row `pos + q` times
    /// the basis polynomial q at the point `skew_delta + i`. The rows from `pos + truncated_size` on hold anything
    /// afterwards. All other rows are unchanged. `size` is a power of two, and `skew_delta` a multiple of it.
    fn fft(
        &self,
        steps: &mut Steps,
        data: &mut ShardsRefMut<'_>,
        pos: usize,
        size: usize,
        truncated_size: usize,
        skew_delta: usize,
    )
        requires fits { Fits «data».old }
        requires power { (d : ℕ) × (size ≡ 2 ^ d) }
        requires truncated { truncated_size ≤ size }
        requires within { pos + size ≤ «data».old.shard_count }
        requires shift { skew_delta % size ≡ 0 }
        requires points { skew_delta + size ≤ 65536 }
        ensures extent { SameExtent «data».old «data».new }
        ensures others { SameRowsOutside pos (pos + size) «data».old «data».new }
        ensures values { (k s i : ℕ) → k < «data».old.shard_len_64 → s < 32 → i < truncated_size
            → word «data».new k s (pos + i)
            ≡ forward size skew_delta (λ q. word «data».old k s (pos + q)) i }
        ensures counts { TransformCounts size steps.old steps.new };

    /// Transforms the `size` rows from `pos` on backward, at `skew_delta`: afterwards they hold the rows of which the
    /// old rows are the forward transform. The rows from `pos + truncated_size` on must be zero before. All other rows
    /// are unchanged.
    fn ifft(
        &self,
        steps: &mut Steps,
        data: &mut ShardsRefMut<'_>,
        pos: usize,
        size: usize,
        truncated_size: usize,
        skew_delta: usize,
    )
        requires fits { Fits «data».old }
        requires power { (d : ℕ) × (size ≡ 2 ^ d) }
        requires truncated { truncated_size ≤ size }
        requires within { pos + size ≤ «data».old.shard_count }
        requires shift { skew_delta % size ≡ 0 }
        requires points { skew_delta + size ≤ 65536 }
        requires zeros { AreZero (pos + truncated_size) (pos + size) «data».old }
        ensures extent { SameExtent «data».old «data».new }
        ensures others { SameRowsOutside pos (pos + size) «data».old «data».new }
        ensures values { (k s i : ℕ) → k < «data».old.shard_len_64 → s < 32 → i < size
            → word «data».old k s (pos + i)
            ≡ forward size skew_delta (λ q. word «data».new k s (pos + q)) i }
        ensures counts { TransformCounts size steps.old steps.new };

    /// Transforms as many rows as `wanted` has marks, from row `pos` on, forward at `skew_delta`.
    ///
    /// Row `pos + i`, if it is marked as wanted, becomes the sum, over all q, of the old row `pos + q` times the basis
    /// polynomial q at the point `skew_delta + i`. Rows that are not wanted hold anything afterwards. All other rows
    /// are unchanged. The default body makes one `fft` that is truncated after the last wanted row.
    fn fft_wanted(
        &self,
        steps: &mut Steps,
        data: &mut ShardsRefMut<'_>,
        pos: usize,
        wanted: &[bool],
        skew_delta: usize,
    )
        requires fits { Fits «data».old }
        requires power { (d : ℕ) × (length wanted.now ≡ 2 ^ d) }
        requires within { pos + length wanted.now ≤ «data».old.shard_count }
        requires shift { skew_delta % length wanted.now ≡ 0 }
        requires points { skew_delta + length wanted.now ≤ 65536 }
        ensures extent { SameExtent «data».old «data».new }
        ensures others { SameRowsOutside pos (pos + length wanted.now) «data».old «data».new }
        ensures values { (k s i : ℕ) → k < «data».old.shard_len_64 → s < 32
            → is_marked wanted.now i ≡ true
            → word «data».new k s (pos + i)
            ≡ forward (length wanted.now) skew_delta (λ q. word «data».old k s (pos + q)) i }
        ensures counts { TransformCounts (length wanted.now) steps.old steps.new }
    {
        let end = marked_end(wanted);
        self.fft(steps, data, pos, wanted.len(), end, skew_delta);
    }

    /// Transforms as many rows as `given` has marks, from row `pos` on, backward at `skew_delta`.
    ///
    /// Afterwards they hold the rows of which the old rows are the forward transform. Rows that are not marked as given
    /// must be zero before. All other rows are unchanged. The default body makes one `ifft` that is truncated after the
    /// last given row.
    fn ifft_given(
        &self,
        steps: &mut Steps,
        data: &mut ShardsRefMut<'_>,
        pos: usize,
        given: &[bool],
        skew_delta: usize,
    )
        requires fits { Fits «data».old }
        requires power { (d : ℕ) × (length given.now ≡ 2 ^ d) }
        requires within { pos + length given.now ≤ «data».old.shard_count }
        requires shift { skew_delta % length given.now ≡ 0 }
        requires points { skew_delta + length given.now ≤ 65536 }
        requires zeros { OthersAreZero given.now pos «data».old }
        ensures extent { SameExtent «data».old «data».new }
        ensures others { SameRowsOutside pos (pos + length given.now) «data».old «data».new }
        ensures values { (k s i : ℕ) → k < «data».old.shard_len_64 → s < 32 → i < length given.now
            → word «data».old k s (pos + i)
            ≡ forward (length given.now) skew_delta (λ q. word «data».new k s (pos + q)) i }
        ensures counts { TransformCounts (length given.now) steps.old steps.new }
    {
        let end = marked_end(given);
        self.ifft(steps, data, pos, given.len(), end, skew_delta);
    }

    /// Returns whether the engine has an [`ifft_of`](Engine::ifft_of) that is faster than a copy of the rows and
    /// [`ifft`](Engine::ifft). If so, a call that encodes a whole message reads the originals where they are, for
    /// counts and sizes for which it can. The default body returns false.
    fn reads_rows(&self) -> bool {
        false
    }

    /// Writes the backward transform of `rows` at `skew_delta` to the rows that lie end to end in `x`, and returns
    /// true. The result replaces the rows of `x` or is added to them, as `writing` says. Or changes nothing and
    /// returns false, as the default body does. The number of rows is a power of two, and `skew_delta` a multiple of
    /// it.
    fn ifft_of<R: ReadRows>(
        &self,
        steps: &mut Steps,
        x: &mut [[u8; 64]],
        rows: &R,
        skew_delta: usize,
        writing: Writing,
    ) -> bool
        requires room { length x.old ≡ R.row_count rows.now * R.row_len rows.now }
        requires power { (d : ℕ) × (R.row_count rows.now ≡ 2 ^ d) }
        requires shift { skew_delta % R.row_count rows.now ≡ 0 }
        requires points { skew_delta + R.row_count rows.now ≤ 65536 }
        ensures length { length x.new ≡ length x.old }
        ensures written { result ≡ true → (k s : ℕ) → k < R.row_len rows.now → s < 32
            → AreWritten writing (R.row_count rows.now) skew_delta (R.row_len rows.now) k s
            (R.word rows.now k s) x.old x.new }
        ensures kept { result ≡ false → x.new ≡ x.old }
        ensures counts { result ≡ true
            → CountsUpTo (written_steps writing (R.row_count rows.now)) 0 0 steps.old steps.new }
        ensures uncounted { result ≡ false → CountsUpTo 0 0 0 steps.old steps.new }
    {
        false
    }

    /// Multiplies every symbol of every chunk of a row by the generator to the power `log_m`. 65535 is the factor one.
    fn mul(&self, steps: &mut Steps, x: &mut [[u8; 64]], log_m: GfElement)
        ensures products { (k s : ℕ) → k < length x.old → s < 32
            → symbol (chunk x.new k) s ≡ product (symbol (chunk x.old k) s) (power log_m) }
        ensures counts { RowProductCounts steps.old steps.new };

    /// Adds `y` times the generator to the power `log_m` to `x`, symbol by symbol. 65535 represents the factor zero, as
    /// in butterflies. Both rows have the same number of chunks.
    ///
    /// The default body divides `x` by the factor, adds `y`, and multiplies the sum by the factor. These are three row
    /// steps. The engines of this library take one.
    fn mul_add(&self, steps: &mut Steps, x: &mut [[u8; 64]], y: &[[u8; 64]], log_m: GfElement)
        requires { length x.old ≡ length y.now }
        ensures sums { (k s : ℕ) → k < length x.old → s < 32
            → symbol (chunk x.new k) s
            ≡ bit_xor (symbol (chunk x.old k) s) (times_factor log_m (symbol (chunk y.now k) s)) }
        ensures counts { RowSumCounts steps.old steps.new }
    {
        symbols_are_words(x);
        if log_m != GF_MODULUS {
            self.mul(steps, x, GF_MODULUS - log_m);
            steps.row_step();
            xor(x, y);
            self.mul(steps, x, log_m);
        }
    }

    /// Writes the sums of `rows` to the first chunks of the rows that lie `stride` chunks apart in `x`, as
    /// [`write_sums`](super::row_sums::write_sums) says, and returns true. Or changes nothing and returns false, as the
    /// default body does.
    fn add_rows<A: AddedRows>(
        &self,
        steps: &mut Steps,
        x: &mut [[u8; 64]],
        stride: usize,
        rows: &A,
        writing: Writing,
    ) -> bool
        requires room { length x.old ≡ A.sum_count rows.now * stride }
        requires fit { A.row_len rows.now ≤ stride }
        ensures length { length x.new ≡ length x.old }
        ensures sums { result ≡ true
            → (k s d : ℕ) → k < A.row_len rows.now → s < 32 → d < A.sum_count rows.now
            → word_in x.new stride k s d
            ≡ bit_xor (held writing (word_in x.old stride k s d))
            (row_sum (A.row_count rows.now) (λ i. A.log rows.now i d) (A.word rows.now k s)) }
        ensures rest { (k s d : ℕ) → A.row_len rows.now ≤ k → k < stride → s < 32
            → d < A.sum_count rows.now
            → word_in x.new stride k s d ≡ word_in x.old stride k s d }
        ensures kept { result ≡ false → x.new ≡ x.old }
        ensures counts { result ≡ true
            → CountsUpTo (A.sum_count rows.now
            * (clear_steps writing + 3 * A.row_count rows.now)) 0 0 steps.old steps.new }
        ensures uncounted { result ≡ false → CountsUpTo 0 0 0 steps.old steps.new }
    {
        false
    }

    /// Adds a change of at least one chunk to each row, times the generator to the power of the row's entry of `logs`,
    /// and returns true. 65535 represents the factor zero. Each row has the chunks of the change. Or changes
    /// nothing and returns false, as the default body does.
    fn add_change<R: ChangeRows>(
        &self,
        steps: &mut Steps,
        rows: &mut R,
        change: Change<'_>,
        logs: &[GfElement],
    ) -> bool
        requires has { (i k : ℕ) → i < length logs.now → k < length change.old.now
            → R.has (R.kept rows.old) i k }
        requires some { 0 < length change.old.now }
        ensures changed { result ≡ true
            → AreChanged change.entry logs.now (R.word rows.old) (R.word rows.new) }
        ensures unchanged { result ≡ false → rows.new ≡ rows.old }
        ensures kept { R.kept rows.new ≡ R.kept rows.old }
        ensures counts { result ≡ true
            → ChangeCounts (length logs.now * length change.entry.old.now) steps.old steps.new }
        ensures uncounted { result ≡ false → CountsUpTo 0 0 0 steps.old steps.new }
    {
        false
    }

    /// Computes the locator of the marked points, at all points at once: entry x becomes, modulo 65535, the sum over
    /// all points y other than x of entry y times the logarithm of `x XOR y`.
    ///
    /// There are 65536 entries, and those from `truncated_size` on are 0; `truncated_size` is at most 65536. Only the
    /// residue of a new entry is fixed: 0 and 65535 both represent zero. The locator is that of Leopard-RS.
    fn eval_poly(&self, steps: &mut Steps, erasures: &mut [GfElement], truncated_size: usize)
        requires size { length erasures.old ≡ 65536 }
        requires truncated { truncated_size ≤ 65536 }
        requires zeros { (y : ℕ) → truncated_size ≤ y → y < 65536 → slice_index erasures.old y ≡ 0 }
        ensures values { IsLocator (λ y. slice_index erasures.old y)
            (λ x. slice_index erasures.new x) }
        ensures counts { LocatorCounts steps.old steps.new };

    /// Computes the locator of marked points among the first ones, at these points. There are as many points as
    /// entries, a power of two and at most 65536: entry x becomes, modulo 65535, the sum over these points y other than
    /// x of entry y times the logarithm of `x XOR y`.
    ///
    /// Only the residue of a new entry is fixed: 0 and 65535 both represent zero. The default body makes one
    /// `eval_poly` over 65536 entries on the stack, with no point after the entries marked.
    fn locate(&self, steps: &mut Steps, erasures: &mut [GfElement])
        requires power { (d : ℕ) × (length erasures.old ≡ 2 ^ d) }
        requires few { length erasures.old ≤ 65536 }
        ensures values { IsLocatorBelow (length erasures.old) (λ y. slice_index erasures.old y)
            (λ x. slice_index erasures.new x) }
        ensures counts { LocatorCounts steps.old steps.new }
    {
        let count = erasures.len();
        let mut padded = [0; GF_ORDER];
        padded[..count].copy_from_slice(erasures);
        self.eval_poly(steps, &mut padded, count);
        erasures.copy_from_slice(&padded[..count]);
    }

    /// Sets each entry of `logs` to the logarithm of its index, except for entry 0, and returns true. Or returns false
    /// if the engine has no logarithms. There are at most 65536 entries.
    ///
    /// A decoder needs logarithms for direct sums. If an engine has none, its decoders always use transforms. The
    /// default body returns false.
    fn logarithms(&self, logs: &mut [GfElement]) -> bool
        requires few { length logs.old ≤ 65536 }
        ensures values { result ≡ true
            → (z : ℕ) → 0 < z → z < length logs.old → slice_index logs.new z ≡ log z }
    {
        false
    }
}

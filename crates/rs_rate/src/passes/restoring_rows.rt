//! The decoding of a round over rows, for every rate: it computes the rows of the missing originals from the rows of
//! the given shards.
//!
//! The given rows are multiplied by the locator of the erased rows, and all other rows are cleared. Consider the
//! polynomial through these rows. Its last coefficients, as many as there are surplus shards, are zero if and only if
//! some message agrees with all given shards. The value of the polynomial plus its derivative at an erased row is the
//! missing word times the derivative of the locator. The method is that of Lin, Chung and Han in the form of
//! Leopard-RS. The check of surplus shards is our addition.
ghost use Rattle.std.specs.Prelude.{◌≡◌, ℕ, ◌+◌, ◌-◌, ◌/◌, ◌%◌, ◌<◌, ◌≤◌, ◌↔◌, true, false};
ghost use Rattle.std.specs.Prelude.{length, replicate, slice_index};
ghost use Rattle.rs_field.specs.words.StepBounds.{CountsRows, CountsUpTo, transform_steps};
ghost use Rattle.rs_field.specs.words.Field.{product, power};
ghost use Rattle.rs_field.specs.rows.Layout.{row_len};
ghost use Rattle.rs_field.specs.rows.View.{cell, word, Fits, SameExtent};
ghost use Rattle.rs_field.specs.rows.MarkedRows.{is_marked};
ghost use Rattle.rs_rate.specs.passes.Decoding.{located_word, AreRowsOf, AreCoefficients};
ghost use Rattle.rs_rate.specs.rows.Marks.{CanBeRestored};
ghost use Rattle.rs_rate.specs.passes.Decoding.{restore_steps, RestoresWords};
ghost use Rattle.rs_rate.specs.rows.Marks.{given_marks, restored_marks, mark_count, WantsMissing};
ghost use Rattle.rs_field.specs.code.Frame.{original_row};
ghost use Rattle.rs_rate.specs.values.Configured.{IsConfigured, rows_to_decode};

use crate::rows::marks::Marks;
use crate::values::configuration::{Configuration, Tally};
use rs_field::bytes::row_symbols_are_words;
use rs_field::engine::derivative::formal_derivative;
use rs_field::engine::layout::is_zero_row;
use rs_field::engine::rows::{clear_rows, mul_row_at};
use rs_field::engine::{Engine, GF_MODULUS, GfElement, ShardsRefMut, Steps};

// Restores the words of the missing originals if some message agrees with all given shards, and returns whether one
// does. Afterwards the marks are those of restored originals.
pub(crate) fn restore_rows<E: Engine>(
    engine: &E,
    steps: &mut Steps,
    rows: &mut ShardsRefMut<'_>,
    marks: &mut Marks,
    locator: &[GfElement],
    tally: Tally,
) -> bool
    requires rows { AreRowsOf tally.configuration rows.old }
    requires facts { CanBeRestored tally marks.old }
    requires located { length locator.now ≡ rows_to_decode tally.configuration }
    ensures extent { SameExtent rows.old rows.new }
    ensures marks { WantsMissing tally.configuration marks.old marks.new }
    ensures words { RestoresWords tally.configuration (given_marks marks.old) locator.now
        tally.surplus
        (word rows.old) (word rows.new) result }
    ensures counts { CountsUpTo (restore_steps tally.configuration tally.surplus) 0 0 steps.old
        steps.new }
{
    let configuration = tally.configuration;
    let agrees = interpolate(engine, steps, rows, marks, locator, tally);
    marks.want_missing(configuration);
    if agrees && tally.missing > 0 {
        formal_derivative(steps, rows);
        engine.fft_wanted(steps, rows, 0, marks.restored(), 0);
        reveal_rows(engine, steps, rows, marks, locator, configuration);
    }
    agrees
}

// Replaces the given words by the coefficients of the polynomial through the located words, and returns whether the
// last coefficients, as many as there are surplus shards, are zero.
fn interpolate<E: Engine>(
    engine: &E,
    steps: &mut Steps,
    rows: &mut ShardsRefMut<'_>,
    marks: &Marks,
    locator: &[GfElement],
    tally: Tally,
) -> bool
    requires rows { AreRowsOf tally.configuration rows.old }
    requires facts { CanBeRestored tally marks.now }
    requires located { length locator.now ≡ rows_to_decode tally.configuration }
    ensures extent { SameExtent rows.old rows.new }
    ensures coefficients { AreCoefficients tally.configuration
        (given_marks marks.now) locator.now tally.surplus (word rows.old) (word rows.new) result }
    ensures counts { let w = rows_to_decode tally.configuration in
        CountsUpTo (w + (transform_steps w + tally.surplus)) 0 0 steps.old steps.new }
{
    let configuration = tally.configuration;
    let given = marks.given();
    locate_rows(engine, steps, rows, given, locator);
    engine.ifft_given(steps, rows, 0, given, 0);
    row_symbols_are_words(rows);
    let first = configuration.frame.row_count() - tally.surplus;
    are_zero_rows(steps, rows, first, configuration.shard_bytes)
}

// Multiplies the given rows by the powers of the generator that the locator gives for their points, and clears the
// other rows. Each row counts at most one row step.
fn locate_rows<E: Engine>(
    engine: &E,
    steps: &mut Steps,
    rows: &mut ShardsRefMut<'_>,
    given: &[bool],
    locator: &[GfElement],
)
    requires fits { Fits rows.old }
    requires marked { length given.now ≡ rows.old.shard_count }
    requires located { length locator.now ≡ rows.old.shard_count }
    ensures extent { SameExtent rows.old rows.new }
    ensures located { (k s p : ℕ) → k < rows.old.shard_len_64 → s < 32 → p < rows.old.shard_count
        → word rows.new k s p ≡ located_word given.now locator.now (word rows.old k s) p }
    ensures cleared { (k p : ℕ) → k < rows.old.shard_len_64 → p < rows.old.shard_count
        → is_marked given.now p ≡ false
        → cell rows.new k p ≡ replicate 64 0 }
    ensures counts { CountsUpTo rows.old.shard_count 0 0 steps.old steps.new }
{
    for p in 0..rows.len() {
        if given[p] {
            mul_row_at(engine, steps, rows, p, locator[p]);
        } else {
            clear_rows(steps, rows, p, p + 1);
        }
    }
}

// Returns whether all rows from row `first` on are zero in each column of shards of this size. Each row that is checked
// counts one row step.
fn are_zero_rows(
    steps: &mut Steps,
    rows: &ShardsRefMut<'_>,
    first: usize,
    shard_bytes: usize,
) -> bool
    requires fits { Fits rows.now }
    requires len { rows.now.shard_len_64 ≡ row_len shard_bytes }
    requires even { shard_bytes % 2 ≡ 0 }
    requires within { first ≤ rows.now.shard_count }
    ensures zero { ((i j : ℕ) → first ≤ i → i < rows.now.shard_count → j < shard_bytes / 2
        → word rows.now (j / 32) (j % 32) i ≡ 0) ↔ (result ≡ true) }
    ensures counts { CountsUpTo (rows.now.shard_count - first) 0 0 steps.old steps.new }
    ensures all_counted { result ≡ true
        → CountsRows (rows.now.shard_count - first) steps.old steps.new }
{
    for i in first..rows.len() {
        steps.row_step();
        if !is_zero_row(rows.row(i), shard_bytes) {
            return false;
        }
    }
    true
}

// Divides the rows of the missing originals by the powers of the generator that the locator gives for their points.
// Each row counts at most one row step.
fn reveal_rows<E: Engine>(
    engine: &E,
    steps: &mut Steps,
    rows: &mut ShardsRefMut<'_>,
    marks: &Marks,
    locator: &[GfElement],
    configuration: Configuration,
)
    requires configured { IsConfigured configuration }
    requires rows { AreRowsOf configuration rows.old }
    requires marked { mark_count marks.now ≡ rows.old.shard_count }
    requires located { length locator.now ≡ rows.old.shard_count }
    ensures extent { SameExtent rows.old rows.new }
    ensures revealed { (k s i : ℕ) → k < rows.old.shard_len_64 → s < 32
        → i < configuration.original_count
        → let p = original_row configuration.frame i in
        is_marked (restored_marks marks.now) p ≡ true
        → word rows.new k s p
        ≡ product (word rows.old k s p) (power (65535 - slice_index locator.now p)) }
    ensures counts { CountsUpTo configuration.original_count 0 0 steps.old steps.new }
{
    for i in 0..configuration.original_count {
        let row = configuration.frame.original_row(i);
        if marks.is_restored(row) {
            mul_row_at(engine, steps, rows, row, GF_MODULUS - locator[row]);
        }
    }
}

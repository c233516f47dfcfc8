//! The locator of the erased rows of a decoder.
ghost use Rattle.std.specs.Prelude.{◌≡◌, ℕ, ◌<◌, ◌≤◌, [], length, slice_index, Some, if◌then◌else◌};
ghost use Rattle.rs_field.specs.code.Frame.{row_count};
ghost use Rattle.rs_field.specs.rows.MarkedRows.{is_marked};
ghost use Rattle.rs_field.specs.words.StepBounds.{LocatorCounts};
ghost use Rattle.rs_rate.specs.passes.Decoding.{IsLocatorOf};
ghost use Rattle.rs_rate.specs.rows.Marks.{erasure};

use crate::values::configuration::Tally;
use rs_field::bytes::are_words;
use rs_field::engine::{Engine, GfElement, Steps};
use rs_field::frame::Frame;

// Computes the locator of the erased rows, at all rows. Rows after the marks in `given` count as not given, even if
// their shards were received.
pub(crate) fn make_locator<E: Engine>(
    engine: &E,
    steps: &mut Steps,
    entries: &mut [GfElement],
    given: &[bool],
    frame: Frame,
)
    requires few { frame.exponent ≤ 16 }
    requires entries { length entries.old ≡ row_count frame }
    ensures locator { IsLocatorOf frame given.now entries.new }
    ensures counts { LocatorCounts steps.old steps.new }
{
    mark_erased(entries, given, frame);
    engine.locate(steps, entries);
    are_words(entries);
}

// Computes the locator of the erased rows, unless `located` says that the entries were made for as many marks. The
// marks are then the same.
pub(crate) fn make_locator_once<E: Engine>(
    engine: &E,
    steps: &mut Steps,
    entries: &mut [GfElement],
    given: &[bool],
    tally: Tally,
)
    requires few { tally.configuration.frame.exponent ≤ 16 }
    requires entries { length entries.old ≡ row_count tally.configuration.frame }
    requires located { tally.located ≡ Some (length given.now)
        → IsLocatorOf tally.configuration.frame given.now entries.old }
    ensures locator { IsLocatorOf tally.configuration.frame given.now entries.new }
    ensures kept { tally.located ≡ Some (length given.now)
        → (entries.new ≡ entries.old) × (steps.new ≡ steps.old) }
    ensures counts { LocatorCounts steps.old steps.new }
{
    if tally.located == Some(given.len()) {
        return;
    }
    make_locator(engine, steps, entries, given, tally.configuration.frame);
}

// Sets the entries of the erased rows to 1 and all other entries to 0. A row is erased if it is not known to be zero
// and its shard is not given. Rows after the marks in `given` count as not given.
fn mark_erased(entries: &mut [GfElement], given: &[bool], frame: Frame)
    ensures rows { (row : ℕ) → row < length entries.old
        → slice_index entries.new row ≡ erasure frame given.now row }
    ensures length { length entries.new ≡ length entries.old }
{
    mark_unknown(entries, frame);
    clear_given(entries, given);
}

// Sets the entries of the rows that are known to be zero to 0, and all other entries to 1.
fn mark_unknown(entries: &mut [GfElement], frame: Frame)
    ensures rows { (row : ℕ) → row < length entries.old
        → slice_index entries.new row ≡ erasure frame [] row }
    ensures length { length entries.new ≡ length entries.old }
{
    for row in 0..entries.len() {
        let is_zero = frame.zeros_from <= row && row < frame.zeros_to;
        entries[row] = if is_zero { 0 } else { 1 };
    }
}

// Sets the entries of the given rows to 0. Each entry is stored, changed or not, so that the compiler can store several
// at once.
fn clear_given(entries: &mut [GfElement], given: &[bool])
    ensures rows { (row : ℕ) → row < length entries.old
        → slice_index entries.new row
        ≡ (if is_marked given.now row then 0 else slice_index entries.old row) }
    ensures length { length entries.new ≡ length entries.old }
{
    for row in 0..given.len().min(entries.len()) {
        entries[row] = if given[row] { 0 } else { entries[row] };
    }
}

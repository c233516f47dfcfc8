//! The decoding of a round, for every rate: by direct sums or by transforms, with the locator, the tails and the
//! round's end.
ghost use Rattle.std.specs.Prelude.{◌≡◌, ℕ, ◌+◌, ◌<◌, ◌≤◌};
ghost use Rattle.std.specs.Prelude.{true, false, length, IfNone, IfOk, IfSome, MatchResult};
ghost use Rattle.rs_field.specs.words.StepBounds.{CountsUpTo};
ghost use Rattle.rs_field.specs.code.Bounds.{DecodeCounts};
ghost use Rattle.rs_field.specs.code.Counts.{Rate};
ghost use Rattle.rs_field.specs.code.Decoder.{fresh_decoder, Restored, NoneAgrees};
ghost use Rattle.rs_field.specs.rows.MarkedRows.{is_marked};
ghost use Rattle.rs_field.specs.rows.Rows.{word_in};
ghost use Rattle.rs_rate.specs.rows.DecoderRoom.{memory_room};
ghost use Rattle.rs_field.specs.code.Frame.{original_row, row_count};
ghost use Rattle.rs_rate.specs.values.Configured.{configuration_at, IsConfigured, rows_to_decode};
ghost use Rattle.rs_rate.specs.rows.DecoderView.{decoder_state, restored_by_rows, restored_from};
ghost use Rattle.rs_rate.specs.passes.Located.{AreLocated, IsLocated, LocatesOnce};
ghost use Rattle.rs_rate.specs.passes.Decoding.{find_steps, FindsWords, RestoresShards};
ghost use Rattle.rs_rate.specs.rows.Marks.{CanBeRestored};
ghost use Rattle.rs_field.specs.rows.Layout.{row_len};
ghost use Rattle.rs_rate.specs.rows.Marks.{given_marks, restored_marks, mark_count, WantsMissing};
ghost use Rattle.rs_rate.specs.values.SetUp.{IsSetUp};
ghost use Rattle.rs_rate.specs.values.ChunkCounts.{chunk_count};
ghost use Rattle.rs_rate.specs.rows.ShardRows.{shard_laid_out, shard_in_order};

use crate::passes::direct::{MOST_ROWS, are_sums_used, sum_rows};
use crate::passes::locators::make_locator_once;
use crate::passes::restoring_rows::restore_rows;
use crate::passes::sums::{SumBase, list_base};
use crate::rows::decoder_work::DecoderRows;
use crate::rows::marks::Marks;
use crate::rows::shard_rows::{move_tail, rows_are_bytes};
use crate::values::configuration::{Configuration, Tally};
use rs_field::engine::layout::row_len;
use rs_field::engine::{Engine, GfElement, ShardsRefMut, Steps};
use rs_field::error::Error;

// What a round found, and what the entries of the locator are after it.
#[derive(Clone, Copy)]
struct Found {
    // True if some message agrees with all given shards.
    agrees: bool,
    // `Some(n)` if the entries are the locator for which only rows among the first n marks count as given, and `None`
    // if no locator was made.
    located: Option<usize>,
}

// Restores the missing originals and returns their number, or fails if no message agrees with all given shards. The
// round ends. `located` says for which marks the entries are the locator, before and after the round, as in `Found`.
pub(crate) fn decode_rows<E: Engine>(
    engine: &E,
    steps: &mut Steps,
    rows: &mut DecoderRows,
    located: &mut Option<usize>,
) -> Result<usize, Error>
    requires enough { rows.old.configuration.original_count
        ≤ rows.old.originals_given + rows.old.recovery_given }
    requires located { IsLocated rows.old located.old }
    ensures state { (rate : Rate)
        → decoder_state rate rows.new
        ≡ fresh_decoder (configuration_at rate rows.old.configuration) }
    ensures answer { (rate : Rate) → IsSetUp rate rows.old.configuration
        → MatchResult result
        (λ _. Restored (decoder_state rate rows.old) (restored_by_rows rows.new))
        (NoneAgrees (decoder_state rate rows.old)) }
    ensures counted { IfOk result (λ count. count ≡ length (restored_from rows.new 0)) }
    ensures configuration { rows.new.configuration ≡ rows.old.configuration }
    ensures room { memory_room rows.new.memory ≡ memory_room rows.old.memory }
    ensures counts { DecodeCounts (rows_to_decode rows.old.configuration) steps.old steps.new }
    ensures located { AreLocated rows.old.configuration.frame (given_marks rows.old.memory.marks)
        located.new rows.new.memory.entries.items }
    ensures once { LocatesOnce located.old located.new steps.old steps.new }
{
    let tally = rows.tally(*located);
    let memory = &mut rows.memory;
    let chunks = memory.chunks.as_mut_slice();
    let entries = memory.entries.as_mut_slice();
    let found = restore(engine, steps, chunks, &mut memory.marks, entries, tally);
    *located = found.located;
    let answer = if found.agrees {
        Ok(tally.missing)
    } else {
        Err(Error::InconsistentShards {
            original_received_count: rows.originals_given,
            recovery_received_count: rows.recovery_given,
        })
    };
    rows_are_bytes(
        rows.memory.chunks.as_slice(),
        tally.configuration.frame.row_count(),
        tally.configuration.shard_bytes,
    );
    rows.originals_given = 0;
    rows.recovery_given = 0;
    answer
}

// Restores the missing originals in their rows if some message agrees with all given shards. If all originals and no
// recovery shards are given, there is nothing to restore. Afterwards the marks are those of restored originals.
// `entries` is memory for the locator, or the locator.
#[tactic(auto, unfolding(crate::specs::values::ChunkCounts::chunk_count))]
fn restore<E: Engine>(
    engine: &E,
    steps: &mut Steps,
    chunks: &mut [[u8; 64]],
    marks: &mut Marks,
    entries: &mut [GfElement],
    tally: Tally,
) -> Found
    requires whole { chunk_count
        (rows_to_decode tally.configuration) tally.configuration.shard_bytes ≤ length chunks.old }
    requires facts { CanBeRestored tally marks.old }
    requires entries { length entries.old ≡ rows_to_decode tally.configuration }
    requires located { AreLocated tally.configuration.frame (given_marks marks.old) tally.located
        entries.old }
    ensures marks { WantsMissing tally.configuration marks.old marks.new }
    ensures nothing { tally.missing ≡ 0 → tally.surplus ≡ 0 → result.agrees ≡ true }
    ensures restored { 0 < tally.missing + tally.surplus
        → RestoresShards tally.configuration (given_marks marks.old) tally.surplus
        chunks.old chunks.new result.agrees }
    ensures counts { DecodeCounts (rows_to_decode tally.configuration) steps.old steps.new }
    ensures located { AreLocated tally.configuration.frame (given_marks marks.old) result.located
        entries.new }
    ensures once { LocatesOnce tally.located result.located steps.old steps.new }
{
    let configuration = tally.configuration;
    if tally.missing == 0 && tally.surplus == 0 {
        marks.want_missing(configuration);
        return Found {
            agrees: true,
            located: tally.located,
        };
    }
    let found = find_words(engine, steps, chunks, marks, entries, tally);
    if found.agrees {
        move_restored_tails(steps, chunks, marks, configuration);
    }
    found
}

// Restores the words of the missing originals if some message agrees with all given shards. Afterwards the marks are
// those of restored originals.
#[tactic(auto, unfolding(crate::specs::values::ChunkCounts::chunk_count))]
fn find_words<E: Engine>(
    engine: &E,
    steps: &mut Steps,
    chunks: &mut [[u8; 64]],
    marks: &mut Marks,
    entries: &mut [GfElement],
    tally: Tally,
) -> Found
    requires whole { chunk_count
        (rows_to_decode tally.configuration) tally.configuration.shard_bytes ≤ length chunks.old }
    requires facts { CanBeRestored tally marks.old }
    requires entries { length entries.old ≡ rows_to_decode tally.configuration }
    requires located { AreLocated tally.configuration.frame (given_marks marks.old) tally.located
        entries.old }
    ensures marks { WantsMissing tally.configuration marks.old marks.new }
    ensures words { let n = row_len tally.configuration.shard_bytes in
        FindsWords tally.configuration (given_marks marks.old) tally.surplus
        (word_in chunks.old n) (word_in chunks.new n) result.agrees }
    ensures counts { CountsUpTo (find_steps tally.configuration) 1048576 65536 steps.old steps.new }
    ensures located { AreLocated tally.configuration.frame (given_marks marks.old) result.located
        entries.new }
    ensures once { LocatesOnce tally.located result.located steps.old steps.new }
{
    if let Some(found) = find_by_sums(engine, steps, chunks, marks, entries, tally) {
        return found;
    }
    let configuration = tally.configuration;
    let given = marks.given();
    let located = Some(given.len());
    make_locator_once(engine, steps, entries, given, tally);
    let len = row_len(configuration.shard_bytes);
    let mut rows = ShardsRefMut::new(configuration.frame.row_count(), len, chunks);
    let agrees = restore_rows(engine, steps, &mut rows, marks, entries, tally);
    Found { agrees, located }
}

// Restores the words of the missing originals by direct sums over k given shards, if the other given shards agree with
// these. Afterwards the marks are those of restored originals. Returns `None` if `are_sums_used` returns false, or if
// the engine has no logarithms. Then nothing has changed.
#[tactic(auto, unfolding(crate::specs::values::ChunkCounts::chunk_count))]
fn find_by_sums<E: Engine>(
    engine: &E,
    steps: &mut Steps,
    chunks: &mut [[u8; 64]],
    marks: &mut Marks,
    entries: &mut [GfElement],
    tally: Tally,
) -> Option<Found>
    requires whole { chunk_count
        (rows_to_decode tally.configuration) tally.configuration.shard_bytes ≤ length chunks.old }
    requires facts { CanBeRestored tally marks.old }
    requires entries { length entries.old ≡ rows_to_decode tally.configuration }
    requires located { AreLocated tally.configuration.frame (given_marks marks.old) tally.located
        entries.old }
    ensures none { IfNone result ((chunks.new ≡ chunks.old) × (marks.new ≡ marks.old)
        × (steps.new ≡ steps.old) × (entries.new ≡ entries.old)) }
    ensures marks { IfSome result (λ _. WantsMissing tally.configuration marks.old marks.new) }
    ensures words { let n = row_len tally.configuration.shard_bytes in
        IfSome result (λ found. FindsWords tally.configuration (given_marks marks.old)
        tally.surplus (word_in chunks.old n) (word_in chunks.new n) found.agrees) }
    ensures counts { IfSome result (λ _. CountsUpTo (find_steps tally.configuration) 1048576 65536
        steps.old steps.new) }
    ensures located { IfSome result (λ found. AreLocated tally.configuration.frame
        (given_marks marks.old) found.located entries.new) }
    ensures once { IfSome result (λ found.
        LocatesOnce tally.located found.located steps.old steps.new) }
{
    if !are_sums_used(tally) {
        return None;
    }
    let configuration = tally.configuration;
    let row_count = configuration.frame.row_count();
    let mut logs = [0; MOST_ROWS];
    let logs = &mut logs[..row_count];
    if !engine.logarithms(logs) {
        return None;
    }
    let mut base_rows = [0; MOST_ROWS];
    let base_rows = &mut base_rows[..configuration.original_count];
    let given = marks.given();
    let marked = &given[..list_base(base_rows, given)];
    make_locator_once(engine, steps, entries, marked, tally);
    let located = Some(marked.len());
    let base = SumBase {
        marks: marked,
        rows: base_rows,
        locator: entries,
        logs,
    };
    let agrees = sum_rows(engine, steps, chunks, given, &base, configuration);
    marks.want_missing(configuration);
    Some(Found { agrees, located })
}

// Moves the tails of the restored originals, and counts one row step for each of them.
fn move_restored_tails(
    steps: &mut Steps,
    chunks: &mut [[u8; 64]],
    marks: &Marks,
    configuration: Configuration,
)
    requires configured { IsConfigured configuration }
    requires marked { mark_count marks.now ≡ rows_to_decode configuration }
    requires whole { chunk_count (rows_to_decode configuration) configuration.shard_bytes
        ≤ length chunks.old }
    ensures moved { (i : ℕ) → i < configuration.original_count
        → let p = original_row configuration.frame i in
        is_marked (restored_marks marks.now) p ≡ true
        → shard_in_order chunks.new configuration.shard_bytes p
        ≡ shard_laid_out chunks.old configuration.shard_bytes p }
    ensures counts { CountsUpTo configuration.original_count 0 0 steps.old steps.new }
{
    for i in 0..configuration.original_count {
        let row = configuration.frame.original_row(i);
        if marks.is_restored(row) {
            steps.row_step();
            move_tail(chunks, row, configuration.shard_bytes);
        }
    }
}

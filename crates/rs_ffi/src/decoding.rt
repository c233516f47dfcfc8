//! The two calls that decode: one for shards in buffers, and one for shards anywhere in memory.
ghost use Rattle.std.specs.Prelude.{◌≡◌, ◌≢◌, ◌⊎◌, ◌*◌, All, Ok, Err, MatchResult, OnErr, drop, length, map};
ghost use Rattle.rs_field.specs.code.Configuration.{start_outcome};
ghost use Rattle.rs_field.specs.code.Counts.{default_rate};
ghost use Rattle.rs_field.specs.code.Decoder.{IsDecoder, NoneAgrees, enough_given};
ghost use Rattle.rs_field.specs.code.OneCall.{default_of};
ghost use Rattle.rs_field.specs.code.PieceStates.{HoldRestored};
ghost use Rattle.rs_field.specs.code.Frame.{decoder_rows};
ghost use Rattle.reed_solomon_simd.specs.Into.{DecodesInto};
ghost use Rattle.reed_solomon_simd.specs.Rooms.{loans_of};
ghost use Rattle.rs_ffi.specs.Buffers.{lost_indexes, marked_map, marked_state, shard_place};
ghost use Rattle.rs_ffi.specs.MarkedState.{state_in, rooms_in, besides_rooms};
ghost use Rattle.rs_ffi.specs.Answers.{DecodesBuffer, marked_number, WantsNoMemory, all_or_refused};
ghost use Rattle.rs_ffi.specs.Arrays.{items_of, DecodesArrays, KeepsRooms, bytes_in};

use crate::alone::check_alone;
use crate::buffers::check_length;
use crate::fault::Fault;
use crate::fault_places::placed_fault;
use crate::layouts::RsShard;
use crate::marked_buffers::{MarkedBuffers, indexes_of_lost};
use reed_solomon_simd::RoomError;
use reed_solomon_simd::ffi::{
    check_enough, check_rooms, received_shards, restore_in_place, restore_into,
};
use rs_field::bytes::are_bytes;
use rs_field::engine::Engine;
use rs_field::error::Error;
use rs_rate::rate::{DefaultRateCounts, check_decoder_rows};
use std::alloc::Global;

/// Restores the originals whose mark is 0, and writes each of them into its place in the buffer `originals`. `marks`
/// has one byte for each original, and then one byte for each recovery shard. A shard was received if its mark is not
/// 0.
///
/// # Errors
///
/// - [`Fault::Refused`] with [`Error::UnsupportedShardCount`] if the counts are not supported.
/// - [`Fault::WrongLength`] for `originals`, then for `recovery`, then for `marks`.
/// - If all marks of recovery shards are 0: [`Fault::Refused`] with [`Error::NotEnoughShards`] if an original is
///   missing.
/// - Otherwise, as [`Fault::Refused`] and in this order: [`Error::InvalidShardSize`]; [`Error::OutOfMemory`] if the
///   rows for the whole shards would take more than `usize::MAX` bytes, or if the list of the lost originals cannot be
///   allocated; [`Error::NotEnoughShards`]; [`Error::OutOfMemory`] if the work area cannot be allocated, or the vectors
///   for the missing originals if there are more shards than originals; [`Error::InconsistentShards`].
///
/// After an error the buffer is unchanged.
pub fn decode_buffer<E: Engine>(
    alloc: Global,
    engine: E,
    original_count: usize,
    recovery_count: usize,
    shard_bytes: usize,
    originals: &mut [u8],
    recovery: &[u8],
    marks: &[u8],
) -> Result<(), Fault>
    ensures answer { DecodesBuffer original_count recovery_count shard_bytes
        marks.now recovery.now originals.old originals.new result }
    ensures memory { WantsNoMemory (marked_number (drop original_count marks.now)) result }
{
    let counts = DefaultRateCounts::new(original_count, recovery_count)?;
    check_length(0, original_count, shard_bytes, originals.len())?;
    check_length(1, recovery_count, shard_bytes, recovery.len())?;
    check_length(2, original_count + recovery_count, 1, marks.len())?;
    let (original_marks, recovery_marks) = marks.split_at(original_count);
    if count_marked(recovery_marks) == 0 {
        return Ok(check_all_marked(original_marks)?);
    }
    check_decoder_rows(counts, shard_bytes)?;
    restore_marked(
        alloc,
        engine,
        counts,
        shard_bytes,
        (original_marks, recovery_marks),
        originals,
        recovery,
    )?;
    Ok(())
}

// Restores the originals whose mark is 0, and writes each of them into its place. The size is valid, and the rows for
// the whole shards take at most `usize::MAX` bytes. Fails with `OutOfMemory` if the list of the lost originals cannot
// be allocated, and then with the errors of `restore_buffers`.
fn restore_marked<E: Engine>(
    alloc: Global,
    engine: E,
    counts: DefaultRateCounts,
    size: usize,
    marks: (&[u8], &[u8]),
    originals: &mut [u8],
    recovery: &[u8],
) -> Result<(), Error>
    requires original_marks { length marks.0.now ≡ counts.original_count }
    requires recovery_marks { length marks.1.now ≡ counts.recovery_count }
    requires originals_whole { length originals.old ≡ counts.original_count * size }
    requires recovery_whole { length recovery.now ≡ counts.recovery_count * size }
    requires set_up { let c = default_of counts.original_count counts.recovery_count size in
        start_outcome (decoder_rows default_rate c.original_count c.recovery_count) c ≡ Ok tt }
    ensures answer { let s = marked_state counts.original_count counts.recovery_count size
        marks.entry.0.now originals.old marks.entry.1.now recovery.now in
        MatchResult (enough_given s)
        (λ _. MatchResult result
        (λ _. HoldRestored s
        (map (λ i. shard_place size originals.new i) (lost_indexes 0 marks.entry.0.now)))
        (λ e. NoneAgrees s e ⊎ (e ≡ Error.OutOfMemory))) (λ e. result ≡ Err e)
        ⊎ (result ≡ Err Error.OutOfMemory) }
    ensures marked { marked_map size marks.entry.0.now originals.new
        ≡ marked_map size marks.entry.0.now originals.old }
    ensures long { length originals.new ≡ length originals.old }
    ensures untouched { OnErr result (originals.new ≡ originals.old) }
{
    let lost = indexes_of_lost(alloc, marks.0)?;
    are_bytes(originals);
    are_bytes(recovery);
    let mut buffers = MarkedBuffers {
        counts,
        size,
        original_marks: marks.0,
        recovery_marks: marks.1,
        originals,
        recovery,
        lost: lost.as_slice(),
        recovery_received_count: count_marked(marks.1),
    };
    restore_buffers(alloc, engine, &mut buffers)
}

// Restores the originals whose mark is 0, and writes each of them into its place. Fails with `NotEnoughShards`, then
// with `OutOfMemory` if the work area or the vectors for the lost originals cannot be allocated, and then with
// `InconsistentShards`.
fn restore_buffers<E: Engine>(
    alloc: Global,
    engine: E,
    buffers: &mut MarkedBuffers<'_, '_>,
) -> Result<(), Error>
    requires set_up { IsDecoder default_rate (state_in buffers.old) }
    requires fit { All (λ room. length room ≡ buffers.old.size) (rooms_in buffers.old) }
    ensures answer { MatchResult (enough_given (state_in buffers.old))
        (λ _. MatchResult result (λ _. HoldRestored (state_in buffers.old) (rooms_in buffers.new))
        (λ e. NoneAgrees (state_in buffers.old) e ⊎ (e ≡ Error.OutOfMemory)))
        (λ e. result ≡ Err e) }
    ensures untouched { OnErr result (rooms_in buffers.new ≡ rooms_in buffers.old) }
    ensures others { besides_rooms buffers.new ≡ besides_rooms buffers.old }
    ensures loan { buffers.new.originals.ghost_name ≡ buffers.old.originals.ghost_name }
{
    check_enough(buffers)?;
    restore_in_place(alloc, engine, buffers)
}

/// Restores the originals that are not among the given shards, and writes them into rooms in order of their index.
/// There is one room for each of them.
///
/// # Errors
///
/// The errors of `restore_arrays`, as faults and in the same order. The fault of a shard or a room of another size says
/// its place. After an error the rooms are unchanged.
pub fn decode_arrays<E: Engine>(
    alloc: Global,
    engine: E,
    original_count: usize,
    recovery_count: usize,
    originals: &[RsShard<'_>],
    recovery: &[RsShard<'_>],
    restored: &mut [&mut [u8]],
) -> Result<(), Fault>
    ensures answer { DecodesArrays original_count recovery_count
        (items_of originals.now) (items_of recovery.now)
        (bytes_in restored.old) (bytes_in restored.new) result }
    ensures kept { KeepsRooms restored.old restored.new }
    ensures memory { WantsNoMemory (length recovery.now) result }
{
    let answer = restore_arrays(
        alloc,
        engine,
        original_count,
        recovery_count,
        originals,
        recovery,
        restored,
    );
    if let Err(error) = answer {
        return Err(placed_fault(error, originals, recovery, restored));
    }
    Ok(())
}

// Restores the originals that are not among the given shards, and writes them into rooms. Fails, in this order, with
// `UnsupportedShardCount`; if there is no recovery shard, with the errors of `check_alone`; otherwise with the errors
// of `received_shards` and then of `restore_into`. If no original is missing, it then fails with `WrongNumberOfRooms`
// if there is a room.
fn restore_arrays<E: Engine>(
    alloc: Global,
    engine: E,
    original_count: usize,
    recovery_count: usize,
    originals: &[RsShard<'_>],
    recovery: &[RsShard<'_>],
    restored: &mut [&mut [u8]],
) -> Result<(), RoomError>
    ensures answer { DecodesInto original_count recovery_count
        (items_of originals.now) (items_of recovery.now)
        (bytes_in restored.old) (bytes_in restored.new) result }
    ensures kept { loans_of restored.new ≡ loans_of restored.old }
    ensures memory { length recovery.now ≡ 0
        → result ≢ Err (RoomError.Refused Error.OutOfMemory) }
{
    let counts = DefaultRateCounts::new(original_count, recovery_count)?;
    if recovery.is_empty() {
        check_alone(original_count, originals)?;
        return check_rooms(0, 0, restored);
    }
    let lent_originals = originals.iter().map(|shard| (shard.index, shard.bytes));
    let lent_recovery = recovery.iter().map(|shard| (shard.index, shard.bytes));
    let Some(received) = received_shards(alloc, counts, lent_originals, lent_recovery)? else {
        return check_rooms(0, 0, restored);
    };
    restore_into(alloc, &received, engine, restored)
}

fn count_marked(marks: &[u8]) -> usize
    ensures { result ≡ marked_number marks.now }
{
    marks.iter().filter(|mark| **mark != 0).count()
}

// Checks that all originals are marked, for a decode in which no recovery shard is marked. Fails with `NotEnoughShards`
// if the mark of an original is 0.
fn check_all_marked(marks: &[u8]) -> Result<(), Error>
    ensures { result ≡ all_or_refused (length marks.now) (marked_number marks.now) }
{
    let original_received_count = count_marked(marks);
    if original_received_count < marks.len() {
        return Err(Error::NotEnoughShards {
            original_count: marks.len(),
            original_received_count,
            recovery_received_count: 0,
        });
    }
    Ok(())
}

//! The texts of faults.
ghost use Rattle.std.specs.Prelude.{◌≡◌};
ghost use Rattle.rs_field.specs.code.Texts.{text_of as refusal_text};
ghost use Rattle.rs_ffi.specs.FaultTexts.{text_of};
ghost use Rattle.rs_ffi.specs.Texts.{fault_with, text_with, WritesText};

use crate::fault::{Fault, RsFault};
use crate::writing::{write_one, write_three, write_two, write_words};
use reed_solomon_simd::ShardIndex;
use rs_field::error::Error;

// Writes the text of an error of the library into a buffer, as much of it as fits, and returns the length of the whole
// text.
fn write_refusal(error: Error, room: &mut [u8]) -> usize
    ensures { WritesText (refusal_text error) room.old room.new result }
{
    match error {
        Error::DifferentShardSize { shard_bytes, got } => write_two(
            room,
            ("different shard size: expected ", shard_bytes),
            (" bytes, got ", got),
            " bytes",
        ),
        Error::DuplicateOriginalShardIndex { index } => {
            write_one(room, ("duplicate original shard index: ", index), "")
        }
        Error::DuplicateRecoveryShardIndex { index } => {
            write_one(room, ("duplicate recovery shard index: ", index), "")
        }
        Error::InconsistentShards {
            original_received_count,
            recovery_received_count,
        } => write_two(
            room,
            ("inconsistent shards: ", original_received_count),
            (" original + ", recovery_received_count),
            " recovery agree with no message",
        ),
        Error::InvalidOriginalShardIndex {
            original_count,
            index,
        } => write_two(
            room,
            ("invalid original shard index: ", index),
            (" >= original_count ", original_count),
            "",
        ),
        Error::InvalidRecoveryShardIndex {
            recovery_count,
            index,
        } => write_two(
            room,
            ("invalid recovery shard index: ", index),
            (" >= recovery_count ", recovery_count),
            "",
        ),
        Error::InvalidShardSize { shard_bytes } => write_one(
            room,
            ("invalid shard size: ", shard_bytes),
            " bytes (must non-zero and multiple of 2)",
        ),
        Error::NotEnoughShards {
            original_count,
            original_received_count,
            recovery_received_count,
        } => write_three(
            room,
            ("not enough shards: ", original_received_count),
            (" original + ", recovery_received_count),
            (" recovery < ", original_count),
            " original_count",
        ),
        Error::TooFewOriginalShards {
            original_count,
            original_received_count,
        } => write_two(
            room,
            ("too few original shards: got ", original_received_count),
            (" shards while original_count is ", original_count),
            "",
        ),
        Error::TooManyOriginalShards { original_count } => write_one(
            room,
            (
                "too many original shards: got more than original_count (",
                original_count,
            ),
            ") shards",
        ),
        Error::UnsupportedShardCount {
            original_count,
            recovery_count,
        } => write_two(
            room,
            ("unsupported shard count: ", original_count),
            (" original shards with ", recovery_count),
            " recovery shards",
        ),
        Error::OutOfMemory => write_words(room, "out of memory"),
    }
}

// Writes the text of a fault, as much of it as fits, and returns the length of the whole text.
fn write_fault(fault: Fault, room: &mut [u8]) -> usize
    ensures { WritesText (text_of fault) room.old room.new result }
{
    match fault {
        Fault::Refused(error) => write_refusal(error, room),
        Fault::DifferentShardSize {
            shard_bytes,
            got,
            ..
        } => write_refusal(Error::DifferentShardSize { shard_bytes, got }, room),
        Fault::WrongLength { wanted, got, .. } => write_two(
            room,
            ("wrong length: expected ", wanted),
            (" bytes, got ", got),
            " bytes",
        ),
        Fault::WrongNumberOfRooms { wanted, got } => write_two(
            room,
            ("wrong number of rooms: expected ", wanted),
            (", got ", got),
            "",
        ),
        Fault::TablesNotMade => write_words(
            room,
            "tables not made: rs_tables_make has not filled them",
        ),
        Fault::WantedIndexTooLarge { wanted, count } => write_too_large(wanted, count, room),
        Fault::WantedTwice { wanted } => write_twice(wanted, room),
        Fault::WantedReceived { wanted } => write_received(wanted, room),
    }
}

// Writes the text of the fault of a wanted index that is too large, as much of it as fits, and returns the length of
// the whole text.
fn write_too_large(wanted: ShardIndex, count: usize, room: &mut [u8]) -> usize
    ensures { WritesText (text_of (Fault.WantedIndexTooLarge wanted count))
        room.old room.new result }
{
    let count = (", count ", count);
    match wanted {
        ShardIndex::Original(index) => {
            write_two(
                room,
                ("wanted index too large: original ", index),
                count,
                "",
            )
        }
        ShardIndex::Recovery(index) => {
            write_two(
                room,
                ("wanted index too large: recovery shard ", index),
                count,
                "",
            )
        }
    }
}

// Writes the text of the fault of a shard that is wanted twice, as much of it as fits, and returns the length of the
// whole text.
fn write_twice(wanted: ShardIndex, room: &mut [u8]) -> usize
    ensures { WritesText (text_of (Fault.WantedTwice wanted)) room.old room.new result }
{
    match wanted {
        ShardIndex::Original(index) => write_one(
            room,
            ("shard wanted twice: original ", index),
            "",
        ),
        ShardIndex::Recovery(index) => {
            write_one(room, ("shard wanted twice: recovery shard ", index), "")
        }
    }
}

// Writes the text of the fault of a wanted shard that was received, as much of it as fits, and returns the length of
// the whole text.
fn write_received(wanted: ShardIndex, room: &mut [u8]) -> usize
    ensures { WritesText (text_of (Fault.WantedReceived wanted)) room.old room.new result }
{
    match wanted {
        ShardIndex::Original(index) => {
            write_one(room, ("wanted shard was received: original ", index), "")
        }
        ShardIndex::Recovery(index) => {
            write_one(
                room,
                ("wanted shard was received: recovery shard ", index),
                "",
            )
        }
    }
}

/// Writes the text of the fault with these numbers into a buffer, as much of it as fits, and returns the length of the
/// whole text. If no fault has this number, the function writes nothing and returns 0.
pub fn write_text(fault: RsFault, room: &mut [u8]) -> usize
    ensures { WritesText (text_with (fault_with fault)) room.old room.new result }
{
    match fault.read() {
        Some(fault) => write_fault(fault, room),
        None => 0,
    }
}

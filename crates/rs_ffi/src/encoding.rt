//! The two calls that encode: one for shards in buffers, and one for shards anywhere in memory.
ghost use Rattle.std.specs.Prelude.{◌≡◌, ◌*◌, length, Ok, Err, OnOk, OnErr};
ghost use Rattle.rs_field.specs.code.Code.{AreRecovery};
ghost use Rattle.rs_field.specs.code.Configuration.{validation_outcome};
ghost use Rattle.rs_field.specs.code.OneCall.{default_of};
ghost use Rattle.rs_ffi.specs.Buffers.{shards_in_buffer};
ghost use Rattle.rs_ffi.specs.Answers.{EncodesBuffer};
ghost use Rattle.rs_ffi.specs.Arrays.{shards_of, EncodesArrays, KeepsRooms, bytes_in};

use crate::buffer_rooms::BufferRooms;
use crate::buffers::check_length;
use crate::fault::Fault;
use crate::fault_places::placed_fault;
use crate::layouts::BufferShards;
use reed_solomon_simd::ffi::encode_strips;
use reed_solomon_simd::{Error, encode_into};
use rs_field::bytes::are_bytes;
use rs_field::engine::Engine;
use rs_rate::rate::{DefaultRateCounts, check_encoder_rows};
use std::alloc::Global;

/// Encodes the originals in a buffer, and writes their recovery shards into the buffer `recovery`, one after the other.
///
/// # Errors
///
/// - [`Fault::Refused`] with [`Error::UnsupportedShardCount`] if the counts are not supported.
/// - [`Fault::WrongLength`] for `originals`, then for `recovery`.
/// - [`Fault::Refused`] with [`Error::InvalidShardSize`] if `shard_bytes` is zero or odd.
/// - [`Fault::Refused`] with [`Error::OutOfMemory`] if the rows for the whole shards would take more than `usize::MAX`
///   bytes, or if the work area cannot be allocated.
///
/// After an error the buffer is unchanged.
pub fn encode_buffer<E: Engine>(
    alloc: Global,
    engine: E,
    original_count: usize,
    recovery_count: usize,
    shard_bytes: usize,
    originals: &[u8],
    recovery: &mut [u8],
) -> Result<(), Fault>
    ensures { EncodesBuffer original_count recovery_count shard_bytes
        originals.now recovery.old recovery.new result }
{
    let counts = DefaultRateCounts::new(original_count, recovery_count)?;
    check_length(0, original_count, shard_bytes, originals.len())?;
    check_length(1, recovery_count, shard_bytes, recovery.len())?;
    check_encoder_rows(counts, shard_bytes)?;
    are_bytes(originals);
    write_recovery(alloc, engine, counts, shard_bytes, originals, recovery)?;
    Ok(())
}

/// Encodes the originals, and writes their recovery shards into rooms. There is one room for each recovery shard.
///
/// # Errors
///
/// The errors of [`encode_into`], as faults and in the same order: the counts, the originals, the number of rooms, the
/// length of a room, and the memory for the work area. The fault of an original or a room of another size says its
/// place. After an error the rooms are unchanged.
pub fn encode_arrays<E: Engine>(
    alloc: Global,
    engine: E,
    original_count: usize,
    recovery_count: usize,
    originals: &[&[u8]],
    recovery: &mut [&mut [u8]],
) -> Result<(), Fault>
    ensures answer { EncodesArrays original_count recovery_count
        (shards_of originals.now) (bytes_in recovery.old) (bytes_in recovery.new) result }
    ensures kept { KeepsRooms recovery.old recovery.new }
{
    let answer = encode_into(
        alloc,
        original_count,
        recovery_count,
        originals,
        recovery,
        engine,
    );
    if let Err(error) = answer {
        return Err(placed_fault(error, originals, &[], recovery));
    }
    Ok(())
}

// Writes the recovery shards of the originals in a buffer into another buffer, one after the other. Fails with
// `OutOfMemory` if the work area cannot be allocated.
fn write_recovery<E: Engine>(
    alloc: Global,
    engine: E,
    counts: DefaultRateCounts,
    shard_bytes: usize,
    originals: &[u8],
    recovery: &mut [u8],
) -> Result<(), Error>
    requires valid { validation_outcome
        (default_of counts.original_count counts.recovery_count shard_bytes) ≡ Ok tt }
    requires own { length originals.now ≡ counts.original_count * shard_bytes }
    requires whole { length recovery.old ≡ counts.recovery_count * shard_bytes }
    ensures coded { OnOk result
        (AreRecovery (default_of counts.original_count counts.recovery_count shard_bytes)
        (shards_in_buffer counts.original_count shard_bytes originals.now)
        (shards_in_buffer counts.recovery_count shard_bytes recovery.new)) }
    ensures whole { length recovery.new ≡ length recovery.old }
    ensures refused { OnErr result (result ≡ Err Error.OutOfMemory) }
    ensures untouched { OnErr result
        (shards_in_buffer counts.recovery_count shard_bytes recovery.new
        ≡ shards_in_buffer counts.recovery_count shard_bytes recovery.old) }
{
    let shards = BufferShards {
        count: counts.original_count,
        size: shard_bytes,
        bytes: originals,
    };
    let mut rooms = BufferRooms {
        count: counts.recovery_count,
        size: shard_bytes,
        bytes: recovery,
    };
    encode_strips(alloc, counts, shard_bytes, engine, &shards, &mut rooms)
}

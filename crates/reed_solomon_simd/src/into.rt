//! Functions that encode or decode in one call and write the result into memory of the caller.
ghost use Rattle.std.specs.Prelude.{◌≡◌, All, length, map, Ok, Err, OnOk, OnErr};
ghost use Rattle.rs_field.specs.code.Code.{AreRecovery};
ghost use Rattle.rs_field.specs.code.Configuration.{validation_outcome};
ghost use Rattle.rs_field.specs.code.OneCall.{default_of};
ghost use Rattle.reed_solomon_simd.specs.Into.{EncodesInto, DecodesInto};
ghost use Rattle.reed_solomon_simd.specs.Rooms.{shards_of, bytes_in, loans_of};

use crate::checked_originals::check_originals;
use crate::originals::LentShards;
use crate::receiving::received_shards;
use crate::restoring::restore_into;
use crate::rooms::{LentRooms, check_rooms};
use crate::strip_encoder::encode_strips;
use crate::{Error, RoomError};
use rs_field::engine::Engine;
use rs_rate::rate::DefaultRateCounts;
use std::alloc::Global;

/// Encodes the originals and writes the recovery shards into `recovery`, in order of their index.
///
/// `original[i]` is the original with index i, and `recovery[i]` is the memory for the recovery shard with index i.
/// Every original and every room (memory for one recovery shard) has the size of the first original, an even number of
/// bytes above zero. The call allocates a work area for at most 4096 bytes of each shard and nothing else. After an
/// error the rooms hold what they held before the call.
///
/// # Errors
///
/// - As [`RoomError::Refused`], in this order: [`Error::UnsupportedShardCount`]; [`Error::TooFewOriginalShards`] with 0
///   received shards if there is no original; [`Error::InvalidShardSize`]; [`Error::OutOfMemory`] if the rows for the
///   whole shards would take more than `usize::MAX` bytes; for each original in order,
///   [`Error::TooManyOriginalShards`] and [`Error::DifferentShardSize`]; [`Error::TooFewOriginalShards`].
/// - [`RoomError::WrongNumberOfRooms`] if `recovery` does not have `recovery_count` items.
/// - [`RoomError::WrongLength`] for the first item that does not have the size of the originals.
/// - [`Error::OutOfMemory`] as [`RoomError::Refused`] if the work area cannot be allocated.
///
/// The order is proved, except for the last line: the contract allows [`Error::OutOfMemory`] at any place after the
/// check of the size of the first original.
///
/// # Examples
///
/// ```
/// let original: [&[u8]; 3] = [&[2, 0], &[0, 0], &[4, 0]];
/// let (mut first, mut second) = ([0; 2], [0; 2]);
/// let mut recovery: Vec<&mut [u8]> = Vec::new(alloc);
/// recovery.push(&mut first)?;
/// recovery.push(&mut second)?;
/// encode_into(alloc, 3, 2, &original, &mut recovery, engine)?;
/// drop(recovery);
/// assert_eq!(rt; (first, second), ([3, 0], [5, 0]));
/// ```
pub fn encode_into<E: Engine>(
    alloc: Global,
    original_count: usize,
    recovery_count: usize,
    original: &[&[u8]],
    recovery: &mut [&mut [u8]],
    engine: E,
) -> Result<(), RoomError>
    ensures answer { EncodesInto original_count recovery_count (shards_of original.now)
        (bytes_in recovery.old) (bytes_in recovery.new) result }
    ensures kept { loans_of recovery.new ≡ loans_of recovery.old }
{
    let counts = DefaultRateCounts::new(original_count, recovery_count)?;
    let shard_bytes = check_originals(counts, original)?;
    check_rooms(recovery_count, shard_bytes, recovery)?;
    encode_lent(alloc, counts, shard_bytes, engine, original, recovery)?;
    Ok(())
}

// Encodes originals of `shard_bytes` bytes into rooms of the same size. Fails with `OutOfMemory` if the work area
// cannot be allocated.
fn encode_lent<E: Engine>(
    alloc: Global,
    counts: DefaultRateCounts,
    shard_bytes: usize,
    engine: E,
    originals: &[&[u8]],
    recovery: &mut [&mut [u8]],
) -> Result<(), Error>
    requires originals { length (shards_of originals.now) ≡ counts.original_count }
    requires number { length recovery.old ≡ counts.recovery_count }
    requires valid { validation_outcome
        (default_of counts.original_count counts.recovery_count shard_bytes) ≡ Ok tt }
    requires sized { All (λ shard. length shard ≡ shard_bytes) (shards_of originals.now) }
    requires fit { All (λ room. length room ≡ shard_bytes) (bytes_in recovery.old) }
    ensures coded { OnOk result
        (AreRecovery (default_of counts.original_count counts.recovery_count shard_bytes)
        (shards_of originals.now) (bytes_in recovery.new)) }
    ensures refused { OnErr result (result ≡ Err Error.OutOfMemory) }
    ensures untouched { OnErr result (bytes_in recovery.new ≡ bytes_in recovery.old) }
    ensures kept { loans_of recovery.new ≡ loans_of recovery.old }
{
    let shards = LentShards { shards: originals };
    let mut rooms = LentRooms { rooms: recovery };
    encode_strips(alloc, counts, shard_bytes, engine, &shards, &mut rooms)
}

/// Decodes the received shards, and writes the missing originals into `restored`, in order of their index.
///
/// `original` and `recovery` hold the received shards with their indexes. The index of an original is its place in the
/// order in which the originals were added to the encoder, counted from 0. Recovery shards have indexes of their own,
/// which also begin at 0. `restored` has a room for each missing original: memory that the original is written into.
/// All shards and rooms have the size of the first recovery shard.
///
/// The call allocates two lists of references to shards. If few originals are missing, it sums received shards, and
/// also allocates short lists of rows and logarithms. Otherwise it allocates a work area for at most 2048 bytes of each
/// shard, and for a middle number of missing originals such lists as well. If there are more shards than originals, it
/// also allocates memory for the missing originals, because a later strip may show that no message agrees with all
/// shards. It does so too if the rooms do not fit. After an error the rooms hold what they held before the call.
///
/// If there is no recovery shard, nothing can be restored. Then the call checks only the indexes of the originals, and
/// no size.
///
/// # Errors
///
/// The errors of [`decode`](crate::decode), as [`RoomError::Refused`], except for [`Error::OutOfMemory`] for the map,
/// because this call makes no map. Then:
///
/// - [`RoomError::WrongNumberOfRooms`] if there are not as many rooms as missing originals.
/// - [`RoomError::WrongLength`] for the first room that does not have the size of the shards.
///
/// # Examples
///
/// ```
/// let recovery: [(usize, &[u8]); 2] = [(0, &[2, 0]), (1, &[3, 0])];
/// let (mut first, mut second) = ([9; 2], [9; 2]);
/// let mut restored: Vec<&mut [u8]> = Vec::new(alloc);
/// restored.push(&mut first)?;
/// restored.push(&mut second)?;
/// decode_into(alloc, 2, 3, &[], &recovery, &mut restored, engine)?;
/// drop(restored);
/// assert_eq!(rt; (first, second), ([0, 0], [1, 0]));
/// ```
pub fn decode_into<E: Engine>(
    alloc: Global,
    original_count: usize,
    recovery_count: usize,
    original: &[(usize, &[u8])],
    recovery: &[(usize, &[u8])],
    restored: &mut [&mut [u8]],
    engine: E,
) -> Result<(), RoomError>
    ensures answer { DecodesInto original_count recovery_count
        (map (λ item. (item.0, item.1.now)) original.now)
        (map (λ item. (item.0, item.1.now)) recovery.now) (bytes_in restored.old)
        (bytes_in restored.new) result }
    ensures kept { loans_of restored.new ≡ loans_of restored.old }
{
    let counts = DefaultRateCounts::new(original_count, recovery_count)?;
    let lent_originals = original.iter().map(|item| *item);
    let lent_recovery = recovery.iter().map(|item| *item);
    let Some(received) = received_shards(alloc, counts, lent_originals, lent_recovery)? else {
        return check_rooms(0, 0, restored);
    };
    restore_into(alloc, &received, engine, restored)
}

//! Functions that reconstruct wanted shards in one call.
ghost use Rattle.std.specs.Prelude.{◌≡◌, ◌⊎◌, ◌+◌, All, false, Ok, Err, OnOk, OnErr, IfErr, length, map, MatchResult};
ghost use Rattle.std.specs.Result.{result_map_both};
ghost use Rattle.rs_field.specs.code.Counts.{default_rate};
ghost use Rattle.rs_field.specs.code.Decoder.{IsDecoder, enough_given, originals_given, recovery_given, NoneAgrees};
ghost use Rattle.rs_field.specs.code.OneCall.{collected_shards};
ghost use Rattle.rs_field.specs.code.Pieces.{room_length};
ghost use Rattle.reed_solomon_simd.specs.ReceivedState.{received_state};
ghost use Rattle.reed_solomon_simd.specs.Reconstructed.{AreReconstructed, CanBeRebuilt, OneReconstructs};
ghost use Rattle.reed_solomon_simd.specs.Reconstructed.{ReconstructsInto, ReconstructsReceived};
ghost use Rattle.reed_solomon_simd.specs.Rooms.{bytes_in, loans_of};

use crate::Error;
use crate::lent_originals::empty_vectors;
use crate::pieces::{Pieces, check_enough, surplus_count};
use crate::received_shards::ReceivedShards;
use crate::receiving::received_in_slices;
use crate::reconstruct_error::ReconstructError;
use crate::restoring::fill_rooms;
use crate::rooms::{LentRooms, Rooms, check_rooms};
use crate::separate_store::SeparateStore;
use crate::shard_index::ShardIndex;
use crate::strip_rebuilder::make_listed;
use crate::verifying::error_without_results;
use crate::wanted_shards::check_wanted;
use rs_field::engine::Engine;
use rs_rate::rate::DefaultRateCounts;
use std::alloc::Global;

/// Reconstructs the wanted shards of a message from received shards, and returns them in the order of `wanted`.
///
/// `original` and `recovery` hold the received shards with their indexes. The index of an original is its place in the
/// order in which the originals were added to the encoder, counted from 0. Recovery shards have indexes of their own,
/// which also begin at 0. All shards have the size of the first recovery shard, or of the first original if there is no
/// recovery shard. A shard that was received cannot be wanted.
///
/// The call works strip by strip, with at most 4096 bytes of each shard at a time. If few shards are wanted, it sums
/// received shards, each times a factor. Otherwise it decodes each strip, and if a recovery shard is wanted, it also
/// encodes the originals of the strip. It allocates two lists of references to shards, two lists of marks, the vectors,
/// and either lists of rows and of the factors' logarithms, or work areas for a strip of each shard.
///
/// # Errors
///
/// - The errors of [`verify`](crate::verify) up to [`Error::NotEnoughShards`], in the same order, as
///   [`ReconstructError::Refused`].
/// - [`Error::OutOfMemory`] if the marks of the wanted shards cannot be allocated.
/// - For each wanted shard in order: [`ReconstructError::WantedIndexTooLarge`] if its index is not below the number of
///   shards of its kind, [`ReconstructError::WantedTwice`], [`ReconstructError::WantedReceived`].
/// - [`Error::OutOfMemory`] if the work areas, or the lists for direct sums, cannot be allocated.
/// - [`Error::InconsistentShards`] if no message agrees with all received shards.
/// - [`Error::OutOfMemory`] if the vectors cannot be allocated.
///
/// The order is proved, with one exception: if the check of the size finds no error, the contract allows
/// [`Error::OutOfMemory`] instead of any other result.
///
/// # Examples
///
/// An original and a recovery shard are lost, and both come back:
///
/// ```
/// // ORIGINAL is [b"Three shards", b" of one size", b" are coded. "], and RECOVERY has its two recovery shards.
/// let original: [(usize, &[u8]); 2] = [(0, ORIGINAL[0]), (1, ORIGINAL[1])];
/// let recovery: [(usize, &[u8]); 1] = [(0, &RECOVERY[0])];
/// let wanted = [ShardIndex::Recovery(1), ShardIndex::Original(2)];
/// let made = reconstruct(alloc, 3, 2, &original, &recovery, &wanted, engine)?;
/// assert_eq!(rt; made.len(), 2);
/// assert_eq!(rt; made[0].as_slice(), RECOVERY[1].as_slice());
/// assert_eq!(rt; made[1].as_slice(), ORIGINAL[2]);
/// ```
pub fn reconstruct<E: Engine>(
    alloc: Global,
    original_count: usize,
    recovery_count: usize,
    original: &[(usize, &[u8])],
    recovery: &[(usize, &[u8])],
    wanted: &[ShardIndex],
    engine: E,
) -> Result<Vec<Vec<u8>>, ReconstructError>
    ensures { OneReconstructs original_count recovery_count
        (map (λ item. (item.0, item.1.now)) original.now)
        (map (λ item. (item.0, item.1.now)) recovery.now) wanted.now (λ _. Ok tt)
        (result_map_both (λ vectors. map (λ vector. vector.items) vectors.items) (λ e. e) result) }
{
    let counts = DefaultRateCounts::new(original_count, recovery_count)?;
    let received = received_in_slices(alloc, counts, original, recovery)?;
    check_enough(&received)?;
    check_wanted(alloc, &received, wanted)?;
    let vectors = rebuild_vectors(alloc, engine, &received, wanted)?;
    Ok(vectors)
}

/// Reconstructs the wanted shards of a message from received shards, and writes them into `rooms`, in the order of
/// `wanted`. Each room is memory for one shard.
///
/// The received shards are passed as in [`reconstruct`]. If there are more shards than originals, the call also
/// allocates memory for the wanted shards, because a later strip may show that no message agrees with all received
/// shards. After an error the rooms hold what they held before the call.
///
/// # Errors
///
/// The errors of [`reconstruct`]. Before [`Error::InconsistentShards`]:
///
/// - [`ReconstructError::WrongNumberOfRooms`] if there are not as many rooms as wanted shards.
/// - [`ReconstructError::WrongLength`] for the first room that does not have the size of the shards.
///
/// # Examples
///
/// ```
/// let (mut first, mut second) = ([9; 12], [9; 12]);
/// let mut rooms: Vec<&mut [u8]> = Vec::new(alloc);
/// rooms.push(&mut first)?;
/// rooms.push(&mut second)?;
/// reconstruct_into(
///     alloc, 3, 2, &original, &recovery, &wanted, &mut rooms, engine,
/// )?;
/// drop(rooms);
/// assert_eq!(rt; first, RECOVERY[1]);
/// assert_eq!(rt; second.as_slice(), ORIGINAL[2]);
/// ```
pub fn reconstruct_into<E: Engine>(
    alloc: Global,
    original_count: usize,
    recovery_count: usize,
    original: &[(usize, &[u8])],
    recovery: &[(usize, &[u8])],
    wanted: &[ShardIndex],
    rooms: &mut [&mut [u8]],
    engine: E,
) -> Result<(), ReconstructError>
    ensures answer { ReconstructsInto original_count recovery_count
        (map (λ item. (item.0, item.1.now)) original.now)
        (map (λ item. (item.0, item.1.now)) recovery.now) wanted.now
        (bytes_in rooms.old) (bytes_in rooms.new) result }
    ensures kept { loans_of rooms.new ≡ loans_of rooms.old }
{
    let counts = DefaultRateCounts::new(original_count, recovery_count)?;
    let received = received_in_slices(alloc, counts, original, recovery)?;
    reconstruct_received(alloc, &received, wanted, engine, rooms)
}

/// Writes the wanted shards of the message to which the received shards belong into rooms, in the order of `wanted`. If
/// there are more shards than originals, the wanted shards are reconstructed into vectors first, because a later strip
/// may show that no message agrees with all received shards.
///
/// # Errors
///
/// - [`ReconstructError::Refused`] with [`Error::NotEnoughShards`] if there are fewer shards than originals.
/// - For each wanted shard in order: [`ReconstructError::WantedIndexTooLarge`], [`ReconstructError::WantedTwice`],
///   [`ReconstructError::WantedReceived`].
/// - [`ReconstructError::WrongNumberOfRooms`] if there are not as many rooms as wanted shards.
/// - [`ReconstructError::WrongLength`] for the first room that does not have the size of the shards.
/// - [`ReconstructError::Refused`] with [`Error::InconsistentShards`] if no message agrees with all received shards.
///
/// The contract allows [`Error::OutOfMemory`] instead of any result. After an error the rooms hold what they held.
pub fn reconstruct_received<E: Engine>(
    alloc: Global,
    received: &ReceivedShards<'_>,
    wanted: &[ShardIndex],
    engine: E,
    rooms: &mut [&mut [u8]],
) -> Result<(), ReconstructError>
    ensures answer { ReconstructsReceived (received_state received.now) wanted.now
        (bytes_in rooms.old) (bytes_in rooms.new) result }
    ensures kept { loans_of rooms.new ≡ loans_of rooms.old }
{
    check_enough(received)?;
    check_wanted(alloc, received, wanted)?;
    check_rooms(wanted.len(), received.shard_bytes, rooms)?;
    if surplus_count(received) == 0 {
        rebuild_lent(alloc, engine, received, wanted, rooms)?;
        return Ok(());
    }
    let vectors = rebuild_vectors(alloc, engine, received, wanted)?;
    fill_rooms(vectors.as_slice(), received.shard_bytes, rooms);
    Ok(())
}

// Writes the wanted shards into rooms of their size, in order. As many shards as originals were received, so there is a
// message that agrees with them all. Fails with `OutOfMemory` if the work areas cannot be allocated. The rooms then
// hold what they held.
fn rebuild_lent<E: Engine, P: Pieces>(
    alloc: Global,
    engine: E,
    received: &P,
    wanted: &[ShardIndex],
    rooms: &mut [&mut [u8]],
) -> Result<(), Error>
    requires set_up { IsDecoder default_rate (P.received received.now) }
    requires enough { enough_given (P.received received.now) ≡ Ok tt }
    requires exact { originals_given (P.received received.now)
        + recovery_given (P.received received.now)
        ≡ (P.received received.now).configuration.original_count }
    requires can { All (CanBeRebuilt (P.received received.now)) wanted.now }
    requires number { length rooms.old ≡ length wanted.now }
    requires fit { All
        (λ room. length room ≡ (P.received received.now).configuration.shard_bytes)
        (bytes_in rooms.old) }
    ensures rebuilt { OnOk result
        (AreReconstructed (P.received received.now) wanted.now (bytes_in rooms.new)) }
    ensures refused { OnErr result (result ≡ Err Error.OutOfMemory) }
    ensures untouched { OnErr result (bytes_in rooms.new ≡ bytes_in rooms.old) }
    ensures kept { loans_of rooms.new ≡ loans_of rooms.old }
{
    let mut lent = LentRooms { rooms };
    rebuild_apart(alloc, &engine, received, wanted, &mut lent)
}

// Writes wanted shards into rooms that share no memory with the received shards, in order. Fails with `OutOfMemory`,
// and with `InconsistentShards` if no message agrees with all received shards.
fn rebuild_apart<E: Engine, P: Pieces, R: Rooms>(
    alloc: Global,
    engine: &E,
    received: &P,
    wanted: &[ShardIndex],
    rooms: &mut R,
) -> Result<(), Error>
    requires set_up { IsDecoder default_rate (P.received received.now) }
    requires enough { enough_given (P.received received.now) ≡ Ok tt }
    requires can { All (CanBeRebuilt (P.received received.now)) wanted.now }
    requires number { length (R.held rooms.old) ≡ length wanted.now }
    requires fit { All
        (λ room. length room
        ≡ room_length R.grows 0 (P.received received.now).configuration.shard_bytes)
        (R.held rooms.old) }
    ensures rebuilt { OnOk result
        (AreReconstructed (P.received received.now) wanted.now (R.held rooms.new)) }
    ensures refused { IfErr result
        (λ e. NoneAgrees (P.received received.now) e ⊎ (e ≡ Error.OutOfMemory)) }
    ensures untouched { R.grows ≡ false
        → IfErr result (λ e. e ≡ Error.OutOfMemory → R.held rooms.new ≡ R.held rooms.old) }
    ensures places { R.places rooms.new ≡ R.places rooms.old }
    ensures loan { R.loan rooms.new ≡ R.loan rooms.old }
{
    let mut store = SeparateStore {
        pieces: received,
        rooms,
    };
    make_listed(alloc, engine, wanted, &mut store)
}

// Returns the wanted shards as vectors, in order. Enough shards were received. Fails with `InconsistentShards` if no
// message agrees with all received shards, and with `OutOfMemory`.
fn rebuild_vectors<E: Engine>(
    alloc: Global,
    engine: E,
    received: &ReceivedShards<'_>,
    wanted: &[ShardIndex],
) -> Result<Vec<Vec<u8>>, Error>
    requires enough { enough_given (received_state received.now) ≡ Ok tt }
    requires can { All (CanBeRebuilt (received_state received.now)) wanted.now }
    ensures { MatchResult (collected_shards result)
        (AreReconstructed (received_state received.now) wanted.now)
        (λ e. NoneAgrees (received_state received.now) e ⊎ (e ≡ Error.OutOfMemory)) }
{
    let Ok(mut vectors) = empty_vectors(alloc, wanted.len(), received.shard_bytes) else {
        return Err(error_without_results(alloc, engine, received));
    };
    rebuild_apart(alloc, &engine, received, wanted, &mut vectors)?;
    Ok(vectors)
}

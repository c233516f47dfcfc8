//! Functions that restore the missing originals of received shards, as vectors or into memory of the caller.
ghost use Rattle.std.specs.Prelude.{◌≡◌, ◌⊎◌, ◌+◌, All, true, false, IfErr, Ok, Err, length, map};
ghost use Rattle.std.specs.Prelude.{MatchResult, OnOk, OnErr};
ghost use Rattle.rs_field.specs.code.Counts.{default_rate};
ghost use Rattle.rs_field.specs.code.Decoder.{IsDecoder, enough_given, originals_given};
ghost use Rattle.rs_field.specs.code.Decoder.{recovery_given, Restored, NoneAgrees};
ghost use Rattle.rs_field.specs.code.OneCall.{collected_shards, collected_map};
ghost use Rattle.rs_field.specs.code.Pieces.{ArePut, room_length};
ghost use Rattle.rs_field.specs.code.PieceStates.{HoldRestored};
ghost use Rattle.reed_solomon_simd.specs.Into.{RestoresInto};
ghost use Rattle.reed_solomon_simd.specs.ReceivedState.{received_state};
ghost use Rattle.reed_solomon_simd.specs.Rooms.{bytes_in, loans_of};

use crate::RoomError;
use crate::lent_originals::empty_vectors;
use crate::pieces::{Pieces, check_enough, missing_count, surplus_count};
use crate::received_shards::ReceivedShards;
use crate::rooms::{LentRooms, Rooms, check_rooms};
use crate::separate_store::SeparateStore;
use crate::store::Store;
use crate::strip_decoder::make_missing;
use crate::verifying::error_without_results;
use rs_field::engine::Engine;
use rs_field::error::Error;
use std::alloc::Global;
use std::collections::BTreeMap;

/// Returns the missing originals as vectors, in order of index. Enough shards were received.
///
/// # Errors
///
/// - [`Error::OutOfMemory`] if the work area cannot be allocated.
/// - [`Error::InconsistentShards`] if no message agrees with all received shards.
/// - [`Error::OutOfMemory`] if the vectors cannot be allocated.
pub fn restore_vectors<E: Engine, P: Pieces>(
    alloc: Global,
    engine: E,
    received: &P,
) -> Result<Vec<Vec<u8>>, Error>
    requires set_up { IsDecoder default_rate (P.received received.now) }
    requires enough { enough_given (P.received received.now) ≡ Ok tt }
    ensures { MatchResult (collected_shards result) (HoldRestored (P.received received.now))
        (λ e. NoneAgrees (P.received received.now) e ⊎ (e ≡ Error.OutOfMemory)) }
{
    let missing = missing_count(received);
    let Ok(mut vectors) = empty_vectors(alloc, missing, received.shard_bytes()) else {
        return Err(error_without_results(alloc, engine, received));
    };
    restore_apart(alloc, engine, received, &mut vectors)?;
    Ok(vectors)
}

// Writes the missing originals into rooms that share no memory with the received shards, in order of index. Fails with
// `OutOfMemory`, and with `InconsistentShards` if no message agrees with all received shards.
fn restore_apart<E: Engine, P: Pieces, R: Rooms>(
    alloc: Global,
    engine: E,
    received: &P,
    rooms: &mut R,
) -> Result<(), Error>
    requires set_up { IsDecoder default_rate (P.received received.now) }
    requires enough { enough_given (P.received received.now) ≡ Ok tt }
    requires number { length (R.held rooms.old) + originals_given (P.received received.now)
        ≡ (P.received received.now).configuration.original_count }
    requires fit { All
        (λ room. length room
        ≡ room_length R.grows 0 (P.received received.now).configuration.shard_bytes)
        (R.held rooms.old) }
    ensures restored { OnOk result (HoldRestored (P.received received.now) (R.held rooms.new)) }
    ensures refused { IfErr result
        (λ e. NoneAgrees (P.received received.now) e ⊎ (e ≡ Error.OutOfMemory)) }
    ensures untouched { R.grows ≡ false
        → IfErr result (λ e. e ≡ Error.OutOfMemory → R.held rooms.new ≡ R.held rooms.old) }
    ensures places { R.places rooms.new ≡ R.places rooms.old }
    ensures loan { R.loan rooms.new ≡ R.loan rooms.old }
{
    let mut store = SeparateStore {
        pieces: received,
        rooms,
    };
    make_missing(alloc, &engine, &mut store)
}

/// Writes the missing originals into rooms of their size, in order of index. As many shards as originals were received,
/// so there is a message that agrees with them all.
///
/// # Errors
///
/// [`Error::OutOfMemory`] if the work area cannot be allocated. The rooms then hold what they held.
pub fn restore_lent<E: Engine>(
    alloc: Global,
    received: &ReceivedShards<'_>,
    engine: E,
    rooms: &mut [&mut [u8]],
) -> Result<(), Error>
    requires enough { enough_given (received_state received.now) ≡ Ok tt }
    requires exact { originals_given (received_state received.now)
        + recovery_given (received_state received.now) ≡ received.now.counts.original_count }
    requires number { length rooms.old + originals_given (received_state received.now)
        ≡ received.now.counts.original_count }
    requires fit { All (λ room. length room ≡ received.now.shard_bytes) (bytes_in rooms.old) }
    ensures restored { OnOk result
        (HoldRestored (received_state received.now) (bytes_in rooms.new)) }
    ensures refused { OnErr result (result ≡ Err Error.OutOfMemory) }
    ensures untouched { OnErr result (bytes_in rooms.new ≡ bytes_in rooms.old) }
    ensures kept { loans_of rooms.new ≡ loans_of rooms.old }
{
    let mut lent = LentRooms { rooms };
    restore_apart(alloc, engine, received, &mut lent)
}

/// Writes the missing originals into rooms that are part of the store. Enough shards were received. If there are more
/// shards than originals, the originals are restored into vectors first, because a later strip may show that no message
/// agrees with all received shards.
///
/// # Errors
///
/// - [`Error::OutOfMemory`] if the work area cannot be allocated.
/// - [`Error::InconsistentShards`] if no message agrees with all received shards.
/// - [`Error::OutOfMemory`] if the vectors cannot be allocated.
///
/// After an error the rooms hold what they held.
pub fn restore_in_place<E: Engine, S: Store>(
    alloc: Global,
    engine: E,
    store: &mut S,
) -> Result<(), Error>
    requires set_up { IsDecoder default_rate (S.received store.old) }
    requires enough { enough_given (S.received store.old) ≡ Ok tt }
    requires number { length (S.held store.old) + originals_given (S.received store.old)
        ≡ (S.received store.old).configuration.original_count }
    requires fixed { S.grows ≡ false }
    requires fit { All
        (λ room. length room ≡ (S.received store.old).configuration.shard_bytes)
        (S.held store.old) }
    ensures restored { OnOk result (HoldRestored (S.received store.old) (S.held store.new)) }
    ensures refused { IfErr result
        (λ e. NoneAgrees (S.received store.old) e ⊎ (e ≡ Error.OutOfMemory)) }
    ensures untouched { OnErr result (S.held store.new ≡ S.held store.old) }
    ensures places { S.places store.new ≡ S.places store.old }
    ensures loan { S.loan store.new ≡ S.loan store.old }
{
    if surplus_count(&*store) == 0 {
        return make_missing(alloc, &engine, store);
    }
    let vectors = restore_vectors(alloc, engine, &*store)?;
    let shard_bytes = store.shard_bytes();
    put_all(vectors.as_slice(), shard_bytes, store)
}

/// Writes the missing originals into rooms of the caller, in order of index. If there are more shards than originals,
/// the originals are restored into vectors first, because a later strip may show that no message agrees with all
/// received shards.
///
/// # Errors
///
/// - [`RoomError::Refused`] with [`Error::NotEnoughShards`] if there are fewer shards than originals, then with
///   [`Error::OutOfMemory`] if the work area cannot be allocated, then with [`Error::InconsistentShards`] if no message
///   agrees with all received shards, and then with [`Error::OutOfMemory`] if the vectors cannot be allocated.
/// - [`RoomError::WrongNumberOfRooms`] if there are not as many rooms as missing originals.
/// - [`RoomError::WrongLength`] for the first room that does not have the size of the shards.
///
/// After an error the rooms hold what they held.
pub fn restore_into<E: Engine>(
    alloc: Global,
    received: &ReceivedShards<'_>,
    engine: E,
    rooms: &mut [&mut [u8]],
) -> Result<(), RoomError>
    ensures answer { RestoresInto (received_state received.now) (bytes_in rooms.old)
        (bytes_in rooms.new) result }
    ensures kept { loans_of rooms.new ≡ loans_of rooms.old }
{
    check_enough(received)?;
    if can_be_written(received, rooms) {
        restore_lent(alloc, received, engine, rooms)?;
        return Ok(());
    }
    restore_by_vectors(alloc, received, engine, rooms)
}

// Returns true only if the missing originals can be written into the rooms strip by strip: there are as many shards as
// originals, so they belong to a message, and each missing original has a room of its size.
fn can_be_written(received: &ReceivedShards<'_>, rooms: &[&mut [u8]]) -> bool
    requires { enough_given (received_state received.now) ≡ Ok tt }
    ensures exact { result ≡ true
        → originals_given (received_state received.now)
        + recovery_given (received_state received.now)
        ≡ received.now.counts.original_count }
    ensures number { result ≡ true
        → length rooms.now + originals_given (received_state received.now)
        ≡ received.now.counts.original_count }
    ensures fit { result ≡ true
        → All (λ room. length room ≡ received.now.shard_bytes) (bytes_in rooms.now) }
{
    surplus_count(received) == 0
        && check_rooms(missing_count(received), received.shard_bytes, rooms).is_ok()
}

// Restores all missing originals into vectors, and then copies them into the rooms.
fn restore_by_vectors<E: Engine>(
    alloc: Global,
    received: &ReceivedShards<'_>,
    engine: E,
    rooms: &mut [&mut [u8]],
) -> Result<(), RoomError>
    requires enough { enough_given (received_state received.now) ≡ Ok tt }
    ensures answer { RestoresInto (received_state received.now) (bytes_in rooms.old)
        (bytes_in rooms.new) result }
    ensures kept { loans_of rooms.new ≡ loans_of rooms.old }
{
    let missing = missing_count(received);
    let vectors = restore_vectors(alloc, engine, received)?;
    check_rooms(missing, received.shard_bytes, rooms)?;
    fill_rooms(vectors.as_slice(), received.shard_bytes, rooms);
    Ok(())
}

// Copies vectors into rooms of their size.
pub(crate) fn fill_rooms(vectors: &[Vec<u8>], shard_bytes: usize, rooms: &mut [&mut [u8]])
    requires number { length vectors.now ≡ length rooms.old }
    requires sized { All (λ vector. length vector.items ≡ shard_bytes) vectors.now }
    requires fit { All (λ room. length room ≡ shard_bytes) (bytes_in rooms.old) }
    ensures filled { bytes_in rooms.new ≡ map (λ vector. vector.items) vectors.now }
    ensures kept { loans_of rooms.new ≡ loans_of rooms.old }
{
    let mut lent = LentRooms { rooms };
    let _ = put_all(vectors, shard_bytes, &mut lent);
}

// Copies each vector into its room, from the first byte on.
fn put_all<R: Rooms>(vectors: &[Vec<u8>], shard_bytes: usize, rooms: &mut R) -> Result<(), Error>
    requires number { length vectors.now ≡ length (R.held rooms.old) }
    requires sized { All (λ vector. length vector.items ≡ shard_bytes) vectors.now }
    requires fit { All
        (λ room. length room ≡ room_length R.grows 0 shard_bytes) (R.held rooms.old) }
    ensures put { OnOk result
        (ArePut 0 shard_bytes (map (λ vector. vector.items) vectors.now)
        (R.held rooms.old) (R.held rooms.new)) }
    ensures refused { OnErr result ((R.grows ≡ true) × (result ≡ Err Error.OutOfMemory)) }
    ensures places { R.places rooms.new ≡ R.places rooms.old }
    ensures loan { R.loan rooms.new ≡ R.loan rooms.old }
{
    for index in 0..vectors.len() {
        rooms.put(index, 0, vectors[index].as_slice())?;
    }
    Ok(())
}

/// Returns a map of the restored originals, with their indexes as keys. `restored` holds the missing originals of
/// `received` in order of index.
///
/// # Errors
///
/// [`Error::OutOfMemory`] if the map cannot be allocated.
pub fn by_index(
    alloc: Global,
    received: &ReceivedShards<'_>,
    restored: Vec<Vec<u8>>,
) -> Result<BTreeMap<usize, Vec<u8>>, Error>
    requires { HoldRestored (received_state received.now)
        (map (λ vector. vector.items) restored.items) }
    ensures { MatchResult (collected_map result) (Restored (received_state received.now))
        (λ e. e ≡ Error.OutOfMemory) }
{
    let mut vectors = BTreeMap::new(alloc);
    let mut left = restored.into_iter();
    for index in 0..received.counts.original_count {
        if received.originals.shards[index].is_none() {
            if let Some(shard) = left.next() {
                vectors.insert(index, shard)?;
            }
        }
    }
    Ok(vectors)
}

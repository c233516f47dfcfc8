//! Round trips: originals are encoded, some shards are lost, and exactly the lost originals come back, each as it was.
ghost use Rattle.std.specs.Prelude.{◌≡◌, ◌⊎◌, ◌+◌, ◌<◌, ◌≤◌, ℕ, List, [], length, map, All, Ok, Err, IfOk, IfErr};
ghost use Rattle.std.specs.Prelude.{OnOk, OnErr};
ghost use Rattle.reed_solomon_simd.specs.Code.{AreRecovery};
ghost use Rattle.reed_solomon_simd.specs.Column.{Shard, AreShards};
ghost use Rattle.reed_solomon_simd.specs.Configuration.{validation_outcome};
ghost use Rattle.reed_solomon_simd.specs.Decoder.{DecoderState, originals_given, recovery_given};
ghost use Rattle.reed_solomon_simd.specs.DecoderObject.{state_of as decoder_state};
ghost use Rattle.reed_solomon_simd.specs.EncoderObject.{state_of as encoder_state};
ghost use Rattle.reed_solomon_simd.specs.Given.{Lists};
ghost use Rattle.reed_solomon_simd.specs.Giving.{Reaches};
ghost use Rattle.reed_solomon_simd.specs.OneCall.{collected_map, default_of, shards_in};
ghost use Rattle.reed_solomon_simd.specs.OneCall.{with_shards, with_originals, with_recoveries};
ghost use Rattle.reed_solomon_simd.specs.ResultView.{recovery_shards};
ghost use Rattle.reed_solomon_simd.specs.RoundTrip.{AreCoded, AreLeft, OneBringsBack, enough_left};
ghost use Rattle.reed_solomon_simd.specs.Reconstructed.{wanted_outcome};
ghost use Rattle.reed_solomon_simd.specs.Rooms.{bytes_in};
ghost use Rattle.reed_solomon_simd.specs.ShardNames.{shard_named};
ghost use Rattle.reed_solomon_simd.specs.Verified.{received_size, receiving_outcome};
ghost use Rattle.rs_examples.specs.Losing.{items_in, items_lent, changed_count, lost_at, left_of, left_below};
ghost use Rattle.rs_examples.specs.Losing.{FillsWithLost};

use crate::walking::restored_copies;
use reed_solomon_simd::engine::DefaultEngine;
use reed_solomon_simd::{
    EncoderResult, Error, ReconstructError, ReedSolomonDecoder, ReedSolomonEncoder, RoomError,
    ShardIndex, decode, decode_into, decode_slice, encode, reconstruct, reconstruct_into, verify,
};
use std::alloc::Global;
use std::collections::BTreeMap;

/// Encodes the originals in one call, drops the originals and the recovery shards with the indexes in `lost` and
/// `recovery_lost`, and decodes in another call. Returns exactly the lost originals, each as it was.
///
/// # Errors
///
/// - If the counts and the size are valid, all originals have this size, and at least as many shards are left as there
///   are originals: only [`Error::OutOfMemory`] if memory cannot be allocated.
/// - Otherwise: the errors of the calls that encode and decode.
pub fn round_trip_in_one_call(
    alloc: Global,
    originals: &[Vec<u8>],
    recovery_count: usize,
    lost: &[usize],
    recovery_lost: &[usize],
    engine: DefaultEngine<'_>,
) -> Result<BTreeMap<usize, Vec<u8>>, Error>
    ensures restored { IfOk result
        (λ restored. (i : ℕ)
        → shards_in restored i ≡ lost_at (map (λ shard. shard.items) originals.now) lost.now i) }
    ensures enough { (size : ℕ)
        → validation_outcome (default_of (length originals.now) recovery_count size) ≡ Ok tt
        → All (λ shard. length shard.items ≡ size) originals.now
        → length originals.now
        ≤ left_below (length originals.now) lost.now + left_below recovery_count recovery_lost.now
        → IfErr result (λ e. e ≡ Error.OutOfMemory) }
{
    let (k, r) = (originals.len(), recovery_count);
    let shards = originals.iter().map(|shard| shard.as_slice());
    let recovery = encode(alloc, k, r, shards, engine)?;

    let kept = originals
        .iter()
        .map(|shard| shard.as_slice())
        .enumerate()
        .filter(|item| !lost.contains(&item.0));
    let received = recovery
        .iter()
        .map(|shard| shard.as_slice())
        .enumerate()
        .filter(|item| !recovery_lost.contains(&item.0));
    decode(alloc, k, r, kept, received, engine)
}

/// Restores the lost originals of a message from the originals and the recovery shards that are left. If each shard has
/// its own index and no shard is there twice, a call that succeeds returns exactly the lost originals, each as it was.
///
/// # Errors
///
/// The errors of [`decode_slice`], in the same order.
pub fn restore_what_is_left(
    alloc: Global,
    original_count: usize,
    recovery_count: usize,
    kept: &[(usize, Vec<u8>)],
    received: &[(usize, Vec<u8>)],
    engine: DefaultEngine<'_>,
) -> Result<BTreeMap<usize, Vec<u8>>, Error>
    ensures { (originals recovery : List Shard)
        → AreCoded original_count recovery_count originals recovery
        → AreLeft originals (items_in kept.now) → AreLeft recovery (items_in received.now)
        → OneBringsBack originals (items_in kept.now)
        (items_in received.now) (collected_map result) }
{
    decode_slice(
        alloc,
        original_count,
        recovery_count,
        kept,
        received,
        engine,
    )
}

/// Restores the lost originals of a message into rooms, from the originals and the recovery shards that are left. If
/// each shard has its own index and no shard is there twice, a call that succeeds leaves exactly the lost originals in
/// the rooms, in order of their index, each as it was.
///
/// # Errors
///
/// The errors of [`decode_into`], in the same order. The rooms then hold what they held before the call.
pub fn restore_into_rooms(
    alloc: Global,
    original_count: usize,
    recovery_count: usize,
    kept: &[(usize, &[u8])],
    received: &[(usize, &[u8])],
    rooms: &mut [&mut [u8]],
    engine: DefaultEngine<'_>,
) -> Result<(), RoomError>
    ensures restored { (originals recovery : List Shard)
        → AreCoded original_count recovery_count originals recovery
        → AreLeft originals (items_lent kept.now) → AreLeft recovery (items_lent received.now)
        → OnOk result (FillsWithLost originals (items_lent kept.now) (bytes_in rooms.new)) }
    ensures untouched { OnErr result (bytes_in rooms.new ≡ bytes_in rooms.old) }
{
    decode_into(
        alloc,
        original_count,
        recovery_count,
        kept,
        received,
        rooms,
        engine,
    )
}

/// Verifies what is left of a message: `kept` are originals with their indexes, and `received` are recovery shards with
/// their indexes.
///
/// If each shard that is left has its own index and no shard is there twice, the call succeeds whenever enough shards
/// are left. If some shards were changed, but at most as many as there are shards beyond the number of originals, the
/// call never succeeds.
///
/// # Errors
///
/// The errors of [`verify`], in the same order.
pub fn verify_what_is_left(
    alloc: Global,
    original_count: usize,
    recovery_count: usize,
    kept: &[(usize, &[u8])],
    received: &[(usize, &[u8])],
    engine: DefaultEngine<'_>,
) -> Result<(), Error>
    ensures passes { (originals recovery : List Shard)
        → AreCoded original_count recovery_count originals recovery
        → AreLeft originals (items_lent kept.now) → AreLeft recovery (items_lent received.now)
        → (result ≡ enough_left original_count (items_lent kept.now) (items_lent received.now))
        ⊎ (result ≡ Err Error.OutOfMemory) }
    ensures notices { (s : DecoderState) (message all : List Shard)
        → receiving_outcome original_count recovery_count
        (received_size (items_lent kept.now) (items_lent received.now))
        (items_lent kept.now) (items_lent received.now) ≡ Ok s
        → AreShards original_count s.configuration.shard_bytes message
        → AreRecovery s.configuration message all → 0 < changed_count s message all
        → changed_count s message all + original_count ≤ originals_given s + recovery_given s
        → (result ≡ Err (Error.InconsistentShards (originals_given s) (recovery_given s)))
        ⊎ (result ≡ Err Error.OutOfMemory) }
{
    verify(
        alloc,
        original_count,
        recovery_count,
        kept,
        received,
        engine,
    )
}

/// Reconstructs wanted shards from what is left of a message: `kept` are originals with their indexes, and `received`
/// are recovery shards with their indexes.
///
/// If each shard that is left has its own index and no shard is there twice, a call that succeeds returns exactly the
/// wanted shards of the message, each as it was. If enough shards are left and the wanted shards are lost, the only
/// error is [`Error::OutOfMemory`].
///
/// # Errors
///
/// The errors of [`reconstruct`], in the same order.
pub fn reconstruct_what_is_left(
    alloc: Global,
    original_count: usize,
    recovery_count: usize,
    kept: &[(usize, &[u8])],
    received: &[(usize, &[u8])],
    wanted: &[ShardIndex],
    engine: DefaultEngine<'_>,
) -> Result<Vec<Vec<u8>>, ReconstructError>
    ensures restored { (originals recovery : List Shard)
        → AreCoded original_count recovery_count originals recovery
        → AreLeft originals (items_lent kept.now) → AreLeft recovery (items_lent received.now)
        → IfOk result (λ shards. map (λ shard. shard.items) shards.items
        ≡ map (shard_named originals recovery) wanted.now) }
    ensures enough { (originals recovery : List Shard) (s : DecoderState)
        → AreCoded original_count recovery_count originals recovery
        → AreLeft originals (items_lent kept.now) → AreLeft recovery (items_lent received.now)
        → receiving_outcome original_count recovery_count
        (received_size (items_lent kept.now) (items_lent received.now))
        (items_lent kept.now) (items_lent received.now) ≡ Ok s
        → wanted_outcome s [] wanted.now ≡ Ok tt
        → original_count ≤ length (items_lent kept.now) + length (items_lent received.now)
        → IfErr result (λ e. e ≡ ReconstructError.Refused Error.OutOfMemory) }
{
    reconstruct(
        alloc,
        original_count,
        recovery_count,
        kept,
        received,
        wanted,
        engine,
    )
}

/// Reconstructs wanted shards into rooms, from the originals and the recovery shards that are left of a message. If
/// each shard that is left has its own index and no shard is there twice, a call that succeeds leaves exactly the
/// wanted shards of the message in the rooms, in the order of `wanted`, each as it was.
///
/// # Errors
///
/// The errors of [`reconstruct_into`], in the same order. The rooms then hold what they held before the call.
pub fn reconstruct_into_rooms(
    alloc: Global,
    original_count: usize,
    recovery_count: usize,
    kept: &[(usize, &[u8])],
    received: &[(usize, &[u8])],
    wanted: &[ShardIndex],
    rooms: &mut [&mut [u8]],
    engine: DefaultEngine<'_>,
) -> Result<(), ReconstructError>
    ensures restored { (originals recovery : List Shard)
        → AreCoded original_count recovery_count originals recovery
        → AreLeft originals (items_lent kept.now) → AreLeft recovery (items_lent received.now)
        → OnOk result (bytes_in rooms.new ≡ map (shard_named originals recovery) wanted.now) }
    ensures untouched { OnErr result (bytes_in rooms.new ≡ bytes_in rooms.old) }
{
    reconstruct_into(
        alloc,
        original_count,
        recovery_count,
        kept,
        received,
        wanted,
        rooms,
        engine,
    )
}

/// Encodes the originals with a plain encoder, drops the originals and the recovery shards with the indexes in `lost`
/// and `recovery_lost`, and decodes with a plain decoder. Returns exactly the lost originals, each as it was, in order
/// of their index.
///
/// # Errors
///
/// - If the counts and the size are valid, all originals have this size, and at least as many shards are left as there
///   are originals: only [`Error::OutOfMemory`] if memory cannot be allocated.
/// - Otherwise: the errors of the calls that encode and decode.
pub fn round_trip_by_plain_objects(
    alloc: Global,
    originals: &[Vec<u8>],
    recovery_count: usize,
    shard_bytes: usize,
    lost: &[usize],
    recovery_lost: &[usize],
    engine: DefaultEngine<'_>,
) -> Result<Vec<(usize, Vec<u8>)>, Error>
    ensures restored { IfOk result
        (λ restored. Lists (lost_at (map (λ shard. shard.items) originals.now) lost.now)
        (map (λ item. (item.0, item.1.items)) restored.items)) }
    ensures enough { validation_outcome
        (default_of (length originals.now) recovery_count shard_bytes) ≡ Ok tt
        → All (λ shard. length shard.items ≡ shard_bytes) originals.now
        → length originals.now
        ≤ left_below (length originals.now) lost.now + left_below recovery_count recovery_lost.now
        → IfErr result (λ e. e ≡ Error.OutOfMemory) }
{
    let (k, r) = (originals.len(), recovery_count);
    let mut encoder = ReedSolomonEncoder::new(alloc, k, r, shard_bytes, engine)?;
    give_all(&mut encoder, originals)?;
    let recovery = encoder.encode()?;

    let mut decoder = ReedSolomonDecoder::new(alloc, k, r, shard_bytes, engine)?;
    give_kept(&mut decoder, originals, lost)?;
    give_received(&mut decoder, &recovery, recovery_lost)?;
    let restored = decoder.decode()?;
    restored_copies(alloc, &restored)
}

// Adds all originals to a plain encoder, in order.
fn give_all(encoder: &mut ReedSolomonEncoder<'_>, originals: &[Vec<u8>]) -> Result<(), Error>
    ensures { Reaches
        (with_shards (encoder_state encoder.old) (map (λ shard. shard.items) originals.now)) result
        (λ s. encoder_state encoder.new ≡ s) }
{
    for original in originals {
        encoder.add_original_shard(original)?;
    }
    Ok(())
}

// Adds the originals that are not lost to a plain decoder.
fn give_kept(
    decoder: &mut ReedSolomonDecoder<'_>,
    originals: &[Vec<u8>],
    lost: &[usize],
) -> Result<(), Error>
    ensures { Reaches
        (with_originals (decoder_state decoder.old)
        (left_of (map (λ shard. shard.items) originals.now) lost.now)) result
        (λ s. decoder_state decoder.new ≡ s) }
{
    for (index, original) in originals.iter().enumerate() {
        if lost.contains(&index) {
            continue;
        }
        decoder.add_original_shard(index, original)?;
    }
    Ok(())
}

// Adds the recovery shards that are not lost to a plain decoder.
fn give_received(
    decoder: &mut ReedSolomonDecoder<'_>,
    recovery: &EncoderResult<'_>,
    lost: &[usize],
) -> Result<(), Error>
    ensures { Reaches
        (with_recoveries (decoder_state decoder.old)
        (left_of (recovery_shards recovery.now) lost.now)) result
        (λ s. decoder_state decoder.new ≡ s) }
{
    for (index, shard) in recovery.recovery_iter().enumerate() {
        if lost.contains(&index) {
            continue;
        }
        decoder.add_recovery_shard(index, shard)?;
    }
    Ok(())
}

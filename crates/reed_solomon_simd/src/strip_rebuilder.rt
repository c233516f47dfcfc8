//! Reconstructing wanted shards strip by strip. Few shards are rebuilt by direct sums. Otherwise the received shards of
//! each strip are decoded. If a recovery shard is wanted, the originals are then encoded. The wanted pieces are copied
//! into the rooms.
ghost use Rattle.std.specs.Prelude.{◌≡◌, ℕ, ◌-◌, ◌%◌, ◌<◌, ◌≤◌, All, true, List, length, map, min, Ok, Some};
ghost use Rattle.std.specs.Prelude.{[], OnOk, IfOk, IfErr, IfSome, is_some, option_copied, unwrap_or};
ghost use Rattle.std.specs.List.{list_any};
ghost use Rattle.rs_field.specs.code.Code.{AreRecovery};
ghost use Rattle.rs_field.specs.code.Column.{Shard};
ghost use Rattle.rs_field.specs.code.Counts.{default_rate};
ghost use Rattle.rs_field.specs.code.Decoder.{IsDecoder, IsAgreeing, Restored};
ghost use Rattle.rs_field.specs.code.Configuration.{validation_outcome};
ghost use Rattle.rs_field.specs.code.OneCall.{default_of};
ghost use Rattle.rs_field.specs.code.Pieces.{IsStrip, ArePut, room_length};
ghost use Rattle.rs_field.specs.code.PieceStates.{state_of_pieces};
ghost use Rattle.rs_rate.specs.objects.StripView.{code_of, coded_shards};
ghost use Rattle.rs_rate.specs.objects.ResultView.{restored_originals};
ghost use Rattle.reed_solomon_simd.specs.Making.{CanMake, AreRooms, Makes};
ghost use Rattle.reed_solomon_simd.specs.Reconstructed.{lent_at};
ghost use Rattle.reed_solomon_simd.specs.Rounds.{IsReadyToEncode, lent_by, own_piece, own_message};
ghost use Rattle.reed_solomon_simd.specs.ShardNames.{is_recovery};

use crate::pieces::{Pieces, surplus_count};
use crate::rooms::Rooms;
use crate::shard_index::ShardIndex;
use crate::store::Store;
use crate::strip_bytes::DECODE_STRIP_BYTES;
use crate::strip_rounds::Rounds;
use crate::strip_summer::sum_listed;
use crate::strips::{Way, make_strips};
use rs_field::engine::{Engine, Steps};
use rs_field::error::Error;
use rs_rate::DecoderResult;
use rs_rate::rate::strip_encoder::StripEncoder;
use rs_rate::rate::strip_message::StripMessage;
use rs_rate::rate::strips::StripDecoder;
use rs_rate::rate::{DefaultRateCounts, are_sums_cheaper};
use std::alloc::Global;

/// Writes wanted shards into the rooms of a store, in order. Few of them are made by direct sums, and more by rounds.
///
/// # Errors
///
/// - [`Error::OutOfMemory`] if the work areas, or the lists for direct sums, cannot be allocated.
/// - For each strip in order: [`Error::InconsistentShards`] if no message agrees with all received shards, and then
///   [`Error::OutOfMemory`] if a room cannot grow. The rooms may then hold some strips.
pub fn make_listed<E: Engine, S: Store>(
    alloc: Global,
    engine: &E,
    wanted: &[ShardIndex],
    store: &mut S,
) -> Result<(), Error>
    requires can { CanMake (S.received store.old) wanted.now }
    requires rooms { AreRooms S.grows 0 (S.received store.old).configuration.shard_bytes
        (length wanted.now) (S.held store.old) }
    ensures made { Makes S.grows (S.received store.old) wanted.now (S.held store.old)
        (S.held store.new) result }
    ensures places { S.places store.new ≡ S.places store.old }
    ensures loan { S.loan store.new ≡ S.loan store.old }
{
    let counts = store.counts();
    let sums = wanted.len().saturating_add(surplus_count(&*store));
    if are_sums_cheaper(counts.frame, counts.original_count, sums) {
        return sum_listed(alloc, engine, wanted, store);
    }
    rebuild_by_rounds(alloc, engine, wanted, store)
}

// Writes wanted shards into the rooms of a store, in order, by a decode of each strip and an encode if a recovery shard
// is wanted. Fails as `make_listed` does.
fn rebuild_by_rounds<E: Engine, S: Store>(
    alloc: Global,
    engine: &E,
    wanted: &[ShardIndex],
    store: &mut S,
) -> Result<(), Error>
    requires can { CanMake (S.received store.old) wanted.now }
    requires rooms { AreRooms S.grows 0 (S.received store.old).configuration.shard_bytes
        (length wanted.now) (S.held store.old) }
    ensures made { Makes S.grows (S.received store.old) wanted.now (S.held store.old)
        (S.held store.new) result }
    ensures places { S.places store.new ≡ S.places store.old }
    ensures loan { S.loan store.new ≡ S.loan store.old }
{
    let counts = store.counts();
    let width = DECODE_STRIP_BYTES.min(store.shard_bytes());
    let decoder = StripDecoder::with_counts(alloc, counts, width, (), None)?;
    let encoder = encoder_if_wanted(alloc, counts, store.shard_bytes(), engine, wanted)?;
    let mut way = Rebuild {
        engine,
        wanted,
        rounds: Rounds::new(decoder),
        encoder,
    };
    make_strips(DECODE_STRIP_BYTES, &mut way, store)
}

// Makes an encoder for strips of shards of this size if a recovery shard is wanted. Fails with `OutOfMemory`.
fn encoder_if_wanted<E: Engine>(
    alloc: Global,
    counts: DefaultRateCounts,
    shard_bytes: usize,
    engine: &E,
    wanted: &[ShardIndex],
) -> Result<Option<StripEncoder>, Error>
    requires valid { validation_outcome (default_of counts.original_count counts.recovery_count
        (min 2048 shard_bytes)) ≡ Ok tt }
    ensures made { IfOk result (λ o. (list_any is_recovery wanted.now ≡ is_some o)
        × IfSome o (λ e. (code_of e ≡ default_of counts.original_count counts.recovery_count
        (min 2048 shard_bytes)) × (e.reads ≡ true → shard_bytes % 64 ≡ 0))) }
    ensures refused { IfErr result (λ e. e ≡ Error.OutOfMemory) }
{
    if !wants_recovery(wanted) {
        return Ok(None);
    }
    let encoder = StripEncoder::new(alloc, counts, shard_bytes, DECODE_STRIP_BYTES, engine)?;
    Ok(Some(encoder))
}

/// Rounds of a decoder, and of an encoder if a recovery shard is wanted. They make listed shards.
#[derive(Drop)]
struct Rebuild<'a, E: Engine> {
    engine: &'a E,
    wanted: &'a [ShardIndex],
    rounds: Rounds,
    encoder: Option<StripEncoder>,
}

impl<'a, E: Engine> Way for Rebuild<'a, E> {
    ghost use Rattle.std.specs.Prelude.{◌≡◌, IfSome, is_some};
    ghost use Rattle.std.specs.List.{list_any};
    ghost use Rattle.reed_solomon_simd.specs.Rounds.{IsReadyToDecode, IsReadyToEncode};
    ghost use Rattle.reed_solomon_simd.specs.ShardNames.{is_recovery};

    ghost wanted = { λ x _. x.wanted.now };

    ghost ready = { λ x s n. IsReadyToDecode x.rounds s n
        × (list_any is_recovery x.wanted.now ≡ is_some x.encoder)
        × IfSome x.encoder (λ e. IsReadyToEncode e s n) };

    fn strip<S: Store>(&mut self, start: usize, end: usize, store: &mut S) -> Result<(), Error> {
        let restored_count = self.rounds.decode(self.engine, &*store, start, end)?;
        let restored = self.rounds.restored(restored_count);
        let encoder = &mut self.encoder;
        encode_if_made(self.engine, encoder, &*store, &restored, start, end);
        put_wanted(&restored, encoder, self.wanted, start, end, store)
    }
}

// Encodes one strip of all originals, received or restored, if there is an encoder. The recovery pieces are then in the
// encoder.
fn encode_if_made<'a, E: Engine, P: Pieces>(
    engine: &E,
    encoder: &mut Option<StripEncoder>,
    received: &'a P,
    restored: &'a DecoderResult<'a>,
    start: usize,
    end: usize,
)
    requires set_up { IsDecoder default_rate (P.received received.now) }
    requires ready { IfSome encoder.old
        (λ e. IsReadyToEncode e (P.received received.now) (end - start)) }
    requires strip { IsStrip start end (P.received received.now).configuration.shard_bytes }
    requires some { start < end }
    requires restored { Restored (state_of_pieces start end (P.received received.now))
        (restored_originals restored.now) }
    ensures coded { IfSome encoder.new (λ e. (message : List Shard)
        → IsAgreeing (state_of_pieces start end (P.received received.now)) message
        → AreRecovery (state_of_pieces start end (P.received received.now)).configuration message
        (coded_shards e)) }
    ensures same { is_some encoder.new ≡ is_some encoder.old }
    ensures ready { IfSome encoder.new
        (λ e. IsReadyToEncode e (P.received received.now) (end - start)) }
{
    if let Some(encoder) = encoder {
        encode_restored(engine, encoder, received, restored, start, end);
    }
}

// Encodes one strip of all originals, received or restored. The recovery pieces are then in the encoder.
fn encode_restored<'a, E: Engine, P: Pieces>(
    engine: &E,
    encoder: &mut StripEncoder,
    received: &'a P,
    restored: &'a DecoderResult<'a>,
    start: usize,
    end: usize,
)
    requires set_up { IsDecoder default_rate (P.received received.now) }
    requires ready { IsReadyToEncode encoder.old (P.received received.now) (end - start) }
    requires strip { IsStrip start end (P.received received.now).configuration.shard_bytes }
    requires some { start < end }
    requires restored { Restored (state_of_pieces start end (P.received received.now))
        (restored_originals restored.now) }
    ensures coded { (message : List Shard)
        → IsAgreeing (state_of_pieces start end (P.received received.now)) message
        → AreRecovery (state_of_pieces start end (P.received received.now)).configuration message
        (coded_shards encoder.new) }
    ensures ready { IsReadyToEncode encoder.new (P.received received.now) (end - start) }
{
    let strip = RestoredStrip {
        received,
        restored,
        start,
        end,
    };
    encoder.encode(engine, &mut Steps::new(), end - start, &strip);
}

/// The pieces of the originals of a message in one strip. Each of them was received or restored.
#[derive(Drop)]
struct RestoredStrip<'a, P: Pieces> {
    received: &'a P,
    restored: &'a DecoderResult<'a>,
    start: usize,
    end: usize,
    ghost set_up: { IsDecoder default_rate (P.received received.now) },
    ghost order: { start ≤ end },
    ghost inside: { end ≤ (P.received received.now).configuration.shard_bytes },
}

impl<'a, P: Pieces> StripMessage for RestoredStrip<'a, P> {
    ghost shards = { λ x. own_message (state_of_pieces x.start x.end (P.received x.received.now))
        (restored_originals x.restored.now) };

    fn piece(&self, index: usize) -> &[u8] {
        message_piece(self.received, self.restored, index, self.start, self.end)
    }
}

fn message_piece<'a, P: Pieces>(
    received: &'a P,
    restored: &'a DecoderResult<'a>,
    index: usize,
    start: usize,
    end: usize,
) -> &'a [u8]
    requires set_up { IsDecoder default_rate (P.received received.now) }
    requires index { index < (P.received received.now).configuration.original_count }
    requires order { start ≤ end }
    requires inside { end ≤ (P.received received.now).configuration.shard_bytes }
    ensures { result.now
        ≡ unwrap_or (own_piece (state_of_pieces start end (P.received received.now))
        (restored_originals restored.now) index) [] }
{
    match received.piece(ShardIndex::Original(index), start, end) {
        Some(piece) => piece,
        None => restored.restored_original(index).unwrap_or(&[]),
    }
}

fn wants_recovery(wanted: &[ShardIndex]) -> bool
    ensures { result ≡ list_any is_recovery wanted.now }
{
    wanted.iter().any(|shard| shard.is_recovery())
}

// Writes the wanted pieces into the rooms, after the first `start` bytes.
fn put_wanted<'a, R: Rooms>(
    restored: &'a DecoderResult<'a>,
    encoder: &'a Option<StripEncoder>,
    wanted: &[ShardIndex],
    start: usize,
    end: usize,
    rooms: &mut R,
) -> Result<(), Error>
    requires order { start ≤ end }
    requires number { length (R.held rooms.old) ≡ length wanted.now }
    requires pieces { (made : List Shard)
        × (map (lent_at (restored_originals restored.now) (lent_by encoder.now)) wanted.now
        ≡ map (λ piece. Some piece) made) × All (λ piece. length piece ≡ end - start) made }
    requires fit { (size : ℕ) × (end ≤ size)
        × All (λ room. length room ≡ room_length R.grows start size) (R.held rooms.old) }
    ensures put { OnOk result ((made : List Shard)
        × (map (lent_at (restored_originals restored.now) (lent_by encoder.now)) wanted.now
        ≡ map (λ piece. Some piece) made)
        × ArePut start end made (R.held rooms.old) (R.held rooms.new)) }
    ensures refused { IfErr result (λ e. (R.grows ≡ true) × (e ≡ Error.OutOfMemory)) }
    ensures places { R.places rooms.new ≡ R.places rooms.old }
    ensures loan { R.loan rooms.new ≡ R.loan rooms.old }
{
    for room in 0..wanted.len() {
        if let Some(piece) = wanted_piece(restored, encoder, wanted[room]) {
            rooms.put(room, start, piece)?;
        }
    }
    Ok(())
}

fn wanted_piece<'a>(
    restored: &'a DecoderResult<'a>,
    encoder: &'a Option<StripEncoder>,
    wanted: ShardIndex,
) -> Option<&'a [u8]>
    ensures { option_copied result ≡ lent_at (restored_originals restored.now)
        (lent_by encoder.now) wanted }
{
    match wanted {
        ShardIndex::Original(index) => restored.restored_original(index),
        ShardIndex::Recovery(index) => match encoder {
            Some(encoder) => encoder.recovery(index),
            None => None,
        },
    }
}

//! Checking strip by strip that received shards belong to one message, if all originals were received: each strip is
//! encoded, and the recovery pieces are compared with the received ones. The work area has room for one strip, so it
//! stays in the cache.
ghost use Rattle.std.specs.Prelude.{◌≡◌, ◌↔◌, ◌-◌, ◌<◌, ◌≤◌, [], length, IsTrue, unwrap_or};
ghost use Rattle.rs_field.specs.code.Column.{shard_at};
ghost use Rattle.rs_field.specs.code.Counts.{default_rate};
ghost use Rattle.rs_field.specs.code.Decoder.{IsDecoder, originals_given, recovery_given, IsConsistent};
ghost use Rattle.rs_field.specs.code.Given.{AreAmong, nothing};
ghost use Rattle.rs_field.specs.code.Pieces.{IsStrip};
ghost use Rattle.rs_field.specs.code.PieceStates.{pieces_of, state_of_pieces};
ghost use Rattle.rs_rate.specs.objects.StripView.{coded_shards};
ghost use Rattle.reed_solomon_simd.specs.Making.{AreRooms, Makes};
ghost use Rattle.reed_solomon_simd.specs.Rounds.{IsReadyToEncode, own_piece, own_message};

use crate::pieces::{Pieces, inconsistent};
use crate::shard_index::ShardIndex;
use crate::store::Store;
use crate::strip_bytes::ENCODE_STRIP_BYTES;
use crate::strips::{Way, make_strips};
use rs_field::engine::{Engine, Steps};
use rs_field::error::Error;
use rs_rate::rate::strip_encoder::StripEncoder;
use rs_rate::rate::strip_message::StripMessage;
use std::alloc::Global;

/// Checks that some message agrees with all received shards. All originals and some recovery shards were received. The
/// store has no room.
///
/// # Errors
///
/// - [`Error::OutOfMemory`] if the work area cannot be allocated.
/// - [`Error::InconsistentShards`] if no message agrees with all received shards.
pub(crate) fn check_by_encoding<E: Engine, S: Store>(
    alloc: Global,
    engine: &E,
    store: &mut S,
) -> Result<(), Error>
    requires set_up { IsDecoder default_rate (S.received store.old) }
    requires all { originals_given (S.received store.old)
        ≡ (S.received store.old).configuration.original_count }
    requires some { 0 < recovery_given (S.received store.old) }
    requires rooms { AreRooms S.grows 0 (S.received store.old).configuration.shard_bytes 0
        (S.held store.old) }
    ensures { Makes S.grows (S.received store.old) [] (S.held store.old) (S.held store.new) result }
{
    let (counts, shard_bytes) = (store.counts(), store.shard_bytes());
    let encoder = StripEncoder::new(alloc, counts, shard_bytes, ENCODE_STRIP_BYTES, engine)?;
    let mut way = Compare { engine, encoder };
    make_strips(ENCODE_STRIP_BYTES, &mut way, store)
}

/// Rounds of an encoder, whose recovery pieces are compared with the received ones. They make no shard.
#[derive(Drop)]
struct Compare<'a, E: Engine> {
    engine: &'a E,
    encoder: StripEncoder,
}

impl<'a, E: Engine> Way for Compare<'a, E> {
    ghost use Rattle.std.specs.Prelude.{[]};
    ghost use Rattle.reed_solomon_simd.specs.Rounds.{IsReadyToCompare};

    ghost wanted = { λ _ _. [] };

    ghost ready = { λ x s n. IsReadyToCompare x.encoder s n };

    fn strip<S: Store>(&mut self, start: usize, end: usize, store: &mut S) -> Result<(), Error> {
        if !agree_in_strip(self.engine, &mut self.encoder, &*store, start, end) {
            return Err(inconsistent(&*store));
        }
        Ok(())
    }
}

// All originals are there, so the recovery shards are known: the strip is encoded and compared.
fn agree_in_strip<E: Engine, P: Pieces>(
    engine: &E,
    encoder: &mut StripEncoder,
    received: &P,
    start: usize,
    end: usize,
) -> bool
    requires set_up { IsDecoder default_rate (P.received received.now) }
    requires all { originals_given (P.received received.now)
        ≡ (P.received received.now).configuration.original_count }
    requires ready { IsReadyToEncode encoder.old (P.received received.now) (end - start) }
    requires strip { IsStrip start end (P.received received.now).configuration.shard_bytes }
    requires some { start < end }
    ensures answer { IsTrue result
        ↔ IsConsistent (state_of_pieces start end (P.received received.now)) }
    ensures ready { IsReadyToEncode encoder.new (P.received received.now) (end - start) }
{
    let strip = ReceivedStrip {
        received,
        start,
        end,
    };
    encoder.encode(engine, &mut Steps::new(), end - start, &strip);
    are_encoded(encoder, received, start, end)
}

/// The pieces of the originals of a message in one strip, if all originals were received.
#[derive(Drop)]
struct ReceivedStrip<'a, P: Pieces> {
    received: &'a P,
    start: usize,
    end: usize,
    ghost set_up: { IsDecoder default_rate (P.received received.now) },
    ghost all: { originals_given (P.received received.now)
        ≡ (P.received received.now).configuration.original_count },
    ghost order: { start ≤ end },
    ghost inside: { end ≤ (P.received received.now).configuration.shard_bytes },
}

impl<'a, P: Pieces> StripMessage for ReceivedStrip<'a, P> {
    ghost shards = { λ x.
        own_message (state_of_pieces x.start x.end (P.received x.received.now)) nothing };

    fn piece(&self, index: usize) -> &[u8] {
        received_piece(self.received, index, self.start, self.end)
    }
}

fn received_piece<P: Pieces>(received: &P, index: usize, start: usize, end: usize) -> &[u8]
    requires set_up { IsDecoder default_rate (P.received received.now) }
    requires index { index < (P.received received.now).configuration.original_count }
    requires order { start ≤ end }
    requires inside { end ≤ (P.received received.now).configuration.shard_bytes }
    ensures { result.now
        ≡ unwrap_or (own_piece (state_of_pieces start end (P.received received.now)) nothing index)
        [] }
{
    received
        .piece(ShardIndex::Original(index), start, end)
        .unwrap_or(&[])
}

fn are_encoded<P: Pieces>(encoder: &StripEncoder, received: &P, start: usize, end: usize) -> bool
    requires set_up { IsDecoder default_rate (P.received received.now) }
    requires number { length (coded_shards encoder.now)
        ≡ (P.received received.now).configuration.recovery_count }
    requires order { start ≤ end }
    requires inside { end ≤ (P.received received.now).configuration.shard_bytes }
    ensures { IsTrue result
        ↔ AreAmong (pieces_of start end (P.received received.now).recovery)
        (coded_shards encoder.now) }
{
    for index in 0..received.counts().recovery_count {
        if let Some(piece) = received.piece(ShardIndex::Recovery(index), start, end) {
            if !is_encoded(encoder, index, piece) {
                return false;
            }
        }
    }
    true
}

fn is_encoded(encoder: &StripEncoder, index: usize, piece: &[u8]) -> bool
    requires inside { index < length (coded_shards encoder.now) }
    ensures { IsTrue result ↔ (shard_at (coded_shards encoder.now) index ≡ piece.now) }
{
    match encoder.recovery(index) {
        Some(shard) => shard == piece,
        None => false,
    }
}

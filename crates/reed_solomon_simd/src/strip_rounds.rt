//! Rounds over the strips of received shards: a decoder has room for one strip. In all strips the same rows are erased,
//! so the first round makes the locator for all.
ghost use Rattle.std.specs.Prelude.{◌≡◌, ◌-◌, ◌<◌, ◌≤◌, length, Ok, IfOk, IfErr};
ghost use Rattle.rs_field.specs.code.Counts.{default_rate};
ghost use Rattle.rs_field.specs.code.Decoder.{IsDecoder, enough_given, Restored, NoneAgrees};
ghost use Rattle.rs_field.specs.code.Given.{nothing};
ghost use Rattle.rs_field.specs.code.Pieces.{IsStrip};
ghost use Rattle.rs_field.specs.code.PieceStates.{pieces_of, state_of_pieces};
ghost use Rattle.rs_rate.specs.rows.DecoderView.{decoder_state, restored_by_rows, restored_from};
ghost use Rattle.reed_solomon_simd.specs.Rounds.{IsReadyToDecode};

use crate::pieces::Pieces;
use crate::shard_index::ShardIndex;
use rs_field::engine::{Engine, Steps};
use rs_field::error::Error;
use rs_rate::DecoderResult;
use rs_rate::rate::split_rounds::lent_originals;
use rs_rate::rate::strips::StripDecoder;

/// Rounds of a decoder over the strips of received shards.
#[derive(Drop)]
pub(crate) struct Rounds {
    decoder: StripDecoder,
    // For which marks the decoder has a locator, or `None` if none was made yet.
    located: Option<usize>,
}

impl Rounds {
    ghost use Rattle.std.specs.Prelude.{◌≡◌, ◌-◌, ◌<◌, length, None, Ok, IfOk, IfErr};
    ghost use Rattle.rs_field.specs.code.Counts.{default_rate};
    ghost use Rattle.rs_field.specs.code.Decoder.{IsDecoder, enough_given, Restored, NoneAgrees};
    ghost use Rattle.rs_field.specs.code.Pieces.{IsStrip};
    ghost use Rattle.rs_field.specs.code.PieceStates.{state_of_pieces};
    ghost use Rattle.rs_rate.specs.objects.ResultView.{restored_originals};
    ghost use Rattle.rs_rate.specs.rows.DecoderView.{restored_by_rows, restored_from};
    ghost use Rattle.reed_solomon_simd.specs.Rounds.{IsReadyToDecode};

    /// Makes rounds of a decoder without shards.
    pub(crate) fn new(decoder: StripDecoder) -> Rounds
        ensures decoder { result.decoder ≡ decoder }
        ensures first { result.located ≡ None }
    {
        Rounds {
            decoder,
            located: None,
        }
    }

    /// Decodes one strip of the received shards, which are the same in each round. The restored pieces of the missing
    /// originals are then in the decoder. Returns their number.
    ///
    /// # Errors
    ///
    /// [`Error::InconsistentShards`] if no message agrees with the strip of all received shards.
    pub(crate) fn decode<E: Engine, P: Pieces>(
        &mut self,
        engine: &E,
        received: &P,
        start: usize,
        end: usize,
    ) -> Result<usize, Error>
        requires set_up { IsDecoder default_rate (P.received received.now) }
        requires ready { IsReadyToDecode self.old (P.received received.now) (end - start) }
        requires strip { IsStrip start end (P.received received.now).configuration.shard_bytes }
        requires some { start < end }
        requires enough { enough_given (P.received received.now) ≡ Ok tt }
        ensures restored { IfOk result (λ _.
            Restored (state_of_pieces start end (P.received received.now))
            (restored_by_rows self.new.decoder.rows)) }
        ensures counted { IfOk result
            (λ count. count ≡ length (restored_from self.new.decoder.rows 0)) }
        ensures refused { IfErr result
            (NoneAgrees (state_of_pieces start end (P.received received.now))) }
        ensures ready { IsReadyToDecode self.new (P.received received.now) (end - start) }
    {
        let decoder = &mut self.decoder;
        decoder.narrow(end - start);
        add_original_pieces(decoder, received, start, end);
        add_recovery_pieces(decoder, received, start, end);
        decoder.decode(engine, &mut Steps::new(), &mut self.located)
    }

    /// Lends the originals that the last round restored. `restored_count` is their number.
    pub(crate) fn restored(&self, restored_count: usize) -> DecoderResult<'_>
        requires { restored_count ≡ length (restored_from self.now.decoder.rows 0) }
        ensures { restored_originals result ≡ restored_by_rows self.now.decoder.rows }
    {
        lent_originals(&self.decoder, restored_count)
    }
}

// Adds the piece of each received original to a decoder that has no original.
fn add_original_pieces<P: Pieces>(
    decoder: &mut StripDecoder,
    received: &P,
    start: usize,
    end: usize,
)
    requires set_up { IsDecoder default_rate (P.received received.now) }
    requires none { (decoder_state default_rate decoder.old.rows).originals ≡ nothing }
    requires configured { (decoder_state default_rate decoder.old.rows).configuration
        ≡ (state_of_pieces start end (P.received received.now)).configuration }
    requires order { start ≤ end }
    requires inside { end ≤ (P.received received.now).configuration.shard_bytes }
    ensures added { decoder_state default_rate decoder.new.rows
        ≡ record (decoder_state default_rate decoder.old.rows) {
          originals = pieces_of start end (P.received received.now).originals;
        } }
    ensures locator { decoder.new.rows.memory.entries ≡ decoder.old.rows.memory.entries }
{
    for index in 0..received.counts().original_count {
        if let Some(piece) = received.piece(ShardIndex::Original(index), start, end) {
            decoder.take_original(index, piece);
        }
    }
}

// Adds the piece of each received recovery shard to a decoder that has no recovery shard.
fn add_recovery_pieces<P: Pieces>(
    decoder: &mut StripDecoder,
    received: &P,
    start: usize,
    end: usize,
)
    requires set_up { IsDecoder default_rate (P.received received.now) }
    requires none { (decoder_state default_rate decoder.old.rows).recovery ≡ nothing }
    requires configured { (decoder_state default_rate decoder.old.rows).configuration
        ≡ (state_of_pieces start end (P.received received.now)).configuration }
    requires order { start ≤ end }
    requires inside { end ≤ (P.received received.now).configuration.shard_bytes }
    ensures added { decoder_state default_rate decoder.new.rows
        ≡ record (decoder_state default_rate decoder.old.rows) {
          recovery = pieces_of start end (P.received received.now).recovery;
        } }
    ensures locator { decoder.new.rows.memory.entries ≡ decoder.old.rows.memory.entries }
{
    for index in 0..received.counts().recovery_count {
        if let Some(piece) = received.piece(ShardIndex::Recovery(index), start, end) {
            decoder.take_recovery(index, piece);
        }
    }
}

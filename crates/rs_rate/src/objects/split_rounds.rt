//! A round in two calls: the first call codes and ends the round, and the second call lends the result. The owner of an
//! object and of its `Steps` passes both to the first call, and only the object to the second.
ghost use Rattle.std.specs.Prelude.{◌≡◌, length, IfOk};
ghost use Rattle.std.specs.Result.{result_map_both};
ghost use Rattle.rs_field.specs.code.Bounds.{EncodeCountsAt, DecodeCountsAt};
ghost use Rattle.rs_field.specs.code.Decoder.{DecodeAnswers, after_decode};
ghost use Rattle.rs_field.specs.code.Encoder.{EncodeAnswers, after_encode};
ghost use Rattle.rs_rate.specs.rows.DecoderView.{restored_by_rows, restored_from};
ghost use Rattle.rs_rate.specs.rows.EncoderView.{lent_shards};
ghost use Rattle.rs_rate.specs.objects.ResultView.{recovery_shards, restored_originals};

use crate::objects::decoder_result::DecoderResult;
use crate::objects::encoder_result::EncoderResult;
use crate::objects::rate_object::RateObject;
use crate::objects::traits::{RateDecoder, RateEncoder};
use crate::passes::decoding::decode_rows;
use crate::passes::encoding::encode_rows;
use crate::rows::decoder_work::DecoderRows;
use crate::rows::encoder_work::EncoderRows;
use crate::values::rate_marker::RateMarker;
use rs_field::engine::{Engine, Steps};
use rs_field::error::Error;

/// The encoder of a rate.
pub type Encoder<E, C> = RateObject<E, C, EncoderRows>;

/// The decoder of a rate.
pub type Decoder<E, C> = RateObject<E, C, DecoderRows>;

/// Encodes the added originals and ends the round, as `RateEncoder::encode` does. The recovery shards are then in the
/// encoder.
///
/// # Errors
///
/// [`Error::TooFewOriginalShards`] if originals are missing.
pub fn encode_round<E: Engine, C: RateMarker>(
    encoder: &mut Encoder<E, C>,
    steps: &mut Steps,
) -> Result<(), Error>
    ensures answer { EncodeAnswers (⟦<Encoder<E, C> as RateEncoder<E>>⟧.state encoder.old)
        (result_map_both (λ _. lent_shards encoder.new.rows) (λ e. e) result) }
    ensures counts { let c =
        (⟦<Encoder<E, C> as RateEncoder<E>>⟧.state encoder.old).configuration in
        EncodeCountsAt C.rate c.original_count c.recovery_count steps.old steps.new }
    ensures state { ⟦<Encoder<E, C> as RateEncoder<E>>⟧.state encoder.new
        ≡ after_encode (⟦<Encoder<E, C> as RateEncoder<E>>⟧.state encoder.old) }
    ensures engine { ⟦<Encoder<E, C> as RateEncoder<E>>⟧.engine_of encoder.new
        ≡ ⟦<Encoder<E, C> as RateEncoder<E>>⟧.engine_of encoder.old }
    ensures room { ⟦<Encoder<E, C> as RateEncoder<E>>⟧.room encoder.new
        ≡ ⟦<Encoder<E, C> as RateEncoder<E>>⟧.room encoder.old }
{
    encoder.rows.check_all_given()?;
    encode_rows(&encoder.engine, steps, &mut encoder.rows);
    Ok(())
}

/// Lends the recovery shards that are in an encoder after a round. Before the first round, the encoder
/// holds no recovery shards: the call then lends whatever bytes its memory holds.
pub fn lent_recovery<E: Drop, C: RateMarker>(encoder: &Encoder<E, C>) -> EncoderResult<'_>
    ensures { recovery_shards result ≡ lent_shards encoder.now.rows }
{
    EncoderResult {
        rows: &encoder.rows,
    }
}

/// Restores the originals that were not added and ends the round, as `RateDecoder::decode` does. The restored originals
/// are then in the decoder. Returns their number.
///
/// # Errors
///
/// - [`Error::NotEnoughShards`] if fewer shards were added than there are originals. The decoder then keeps what was
///   added.
/// - [`Error::InconsistentShards`] if more shards were added than there are originals, and no message agrees with them
///   all. This error ends the round.
pub fn decode_round<E: Engine, C: RateMarker>(
    decoder: &mut Decoder<E, C>,
    steps: &mut Steps,
) -> Result<usize, Error>
    ensures answer { DecodeAnswers (⟦<Decoder<E, C> as RateDecoder<E>>⟧.state decoder.old)
        (result_map_both (λ _. restored_by_rows decoder.new.rows) (λ e. e) result) }
    ensures counted { IfOk result (λ count. count ≡ length (restored_from decoder.new.rows 0)) }
    ensures counts { let c =
        (⟦<Decoder<E, C> as RateDecoder<E>>⟧.state decoder.old).configuration in
        DecodeCountsAt C.rate c.original_count c.recovery_count steps.old steps.new }
    ensures state { ⟦<Decoder<E, C> as RateDecoder<E>>⟧.state decoder.new
        ≡ after_decode (⟦<Decoder<E, C> as RateDecoder<E>>⟧.state decoder.old) }
    ensures engine { ⟦<Decoder<E, C> as RateDecoder<E>>⟧.engine_of decoder.new
        ≡ ⟦<Decoder<E, C> as RateDecoder<E>>⟧.engine_of decoder.old }
    ensures room { ⟦<Decoder<E, C> as RateDecoder<E>>⟧.room decoder.new
        ≡ ⟦<Decoder<E, C> as RateDecoder<E>>⟧.room decoder.old }
{
    decoder.rows.check_enough_given()?;
    decode_rows(&decoder.engine, steps, &mut decoder.rows, &mut None)
}

/// Lends the originals that are in a decoder after a round that restored `restored_count` originals. Before the first
/// round, the decoder holds no restored originals.
pub fn lent_originals<E: Drop, C: RateMarker>(
    decoder: &Decoder<E, C>,
    restored_count: usize,
) -> DecoderResult<'_>
    requires { restored_count ≡ length (restored_from decoder.now.rows 0) }
    ensures { restored_originals result ≡ restored_by_rows decoder.now.rows }
{
    DecoderResult {
        rows: &decoder.rows,
        restored_count,
    }
}

//! Callers of the plain objects. The proofs of these functions use only the contracts of the objects.
ghost use Rattle.std.specs.Prelude.{◌≡◌, length, Ok, Err, MatchResult};
ghost use Rattle.reed_solomon_simd.specs.Configuration.{validation_outcome, FitsWithin};
ghost use Rattle.reed_solomon_simd.specs.Decoder.{fresh_decoder, enough_given, after_decode, IsConsistent, NoneAgrees};
ghost use Rattle.reed_solomon_simd.specs.DecoderObject.{state_of as decoder_state};
ghost use Rattle.reed_solomon_simd.specs.Encoder.{fresh_encoder};
ghost use Rattle.reed_solomon_simd.specs.EncoderObject.{state_of as encoder_state};
ghost use Rattle.reed_solomon_simd.specs.OneCall.{default_of};

use reed_solomon_simd::{Error, ReedSolomonDecoder, ReedSolomonEncoder};

/// Encodes with a plain encoder and forgets the result. This ends the round too, so the next `encode` finds no
/// originals.
///
/// # Errors
///
/// [`Error::TooFewOriginalShards`] with 0 received shards, always.
pub fn forget_a_round(encoder: &mut ReedSolomonEncoder<'_>) -> Result<(), Error>
    requires { length (encoder_state encoder.old).given
        ≡ (encoder_state encoder.old).configuration.original_count }
    ensures answer { result
        ≡ Err (Error.TooFewOriginalShards
        (encoder_state encoder.old).configuration.original_count 0) }
    ensures state { encoder_state encoder.new
        ≡ fresh_encoder (encoder_state encoder.old).configuration }
{
    std::mem::forget(encoder.encode()?);
    let _ = encoder.encode()?;
    Ok(())
}

/// Resets a plain encoder to another configuration, and then back to its own counts and a size that is not larger than
/// its own. The second `reset` never fails, so this function never fails. Its contract states this.
pub fn encoder_reset_and_back(
    encoder: &mut ReedSolomonEncoder<'_>,
    original_count: usize,
    recovery_count: usize,
    shard_bytes: usize,
    between: (usize, usize, usize),
) -> Result<(), Error>
    requires valid { validation_outcome (default_of original_count recovery_count shard_bytes)
        ≡ Ok tt }
    requires within { FitsWithin (encoder_state encoder.old).configuration
        (default_of original_count recovery_count shard_bytes) }
    ensures answer { result ≡ Ok tt }
    ensures state { encoder_state encoder.new
        ≡ fresh_encoder (default_of original_count recovery_count shard_bytes) }
{
    let _ = encoder.reset(between.0, between.1, between.2);
    encoder.reset(original_count, recovery_count, shard_bytes)
}

/// Resets a plain decoder to another configuration, and then back to its own counts and a size that is not larger than
/// its own. The second `reset` never fails, so this function never fails. Its contract states this.
pub fn decoder_reset_and_back(
    decoder: &mut ReedSolomonDecoder<'_>,
    original_count: usize,
    recovery_count: usize,
    shard_bytes: usize,
    between: (usize, usize, usize),
) -> Result<(), Error>
    requires valid { validation_outcome (default_of original_count recovery_count shard_bytes)
        ≡ Ok tt }
    requires within { FitsWithin (decoder_state decoder.old).configuration
        (default_of original_count recovery_count shard_bytes) }
    ensures answer { result ≡ Ok tt }
    ensures state { decoder_state decoder.new
        ≡ fresh_decoder (default_of original_count recovery_count shard_bytes) }
{
    let _ = decoder.reset(between.0, between.1, between.2);
    decoder.reset(original_count, recovery_count, shard_bytes)
}

/// Decodes with a plain decoder to which enough shards were added. This ends the round, whatever `decode` returns and
/// whatever happens to the result, so the next `decode` finds no shards.
///
/// # Errors
///
/// [`Error::NotEnoughShards`] with 0 received shards, always.
pub fn end_a_round(decoder: &mut ReedSolomonDecoder<'_>) -> Result<(), Error>
    requires { enough_given (decoder_state decoder.old) ≡ Ok tt }
    ensures answer { result
        ≡ Err (Error.NotEnoughShards (decoder_state decoder.old).configuration.original_count 0 0) }
    ensures state { decoder_state decoder.new
        ≡ fresh_decoder (decoder_state decoder.old).configuration }
{
    let _ = decode_only(decoder);
    decode_only(decoder)
}

// Decodes with a plain decoder, forgets the result, and returns whether the decode succeeded, or its error.
fn decode_only(decoder: &mut ReedSolomonDecoder<'_>) -> Result<(), Error>
    ensures answer { MatchResult (enough_given (decoder_state decoder.old))
        (λ _. MatchResult result (λ _. IsConsistent (decoder_state decoder.old))
        (NoneAgrees (decoder_state decoder.old))) (λ e. result ≡ Err e) }
    ensures state { decoder_state decoder.new ≡ after_decode (decoder_state decoder.old) }
{
    std::mem::forget(decoder.decode()?);
    Ok(())
}

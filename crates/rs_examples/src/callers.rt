//! Callers of encoders, decoders and rates. The proofs of these functions use only the contracts of the functions that
//! they call.
ghost use Rattle.std.specs.Prelude.{◌≡◌, ◌<◌, ◌+◌, ◌⊎◌, length, Ok, IfOk, IfErr, OnOk, OnErr, MatchResult, Err};
ghost use Rattle.reed_solomon_simd.specs.Counts.{default_rate};
ghost use Rattle.reed_solomon_simd.specs.Frame.{encoder_rows, decoder_rows};
ghost use Rattle.reed_solomon_simd.specs.Configuration.{configuration, validation_outcome, start_outcome, UpToMemory};
ghost use Rattle.reed_solomon_simd.specs.Outcome.{answer_of};
ghost use Rattle.reed_solomon_simd.specs.Encoder.{fresh_encoder};
ghost use Rattle.reed_solomon_simd.specs.Decoder.{fresh_decoder, originals_given};
ghost use Rattle.reed_solomon_simd.specs.Decoder.{recovery_given, enough_given, after_decode, IsConsistent, NoneAgrees};

use reed_solomon_simd::Error;
use reed_solomon_simd::engine::{Engine, Steps};
use reed_solomon_simd::rate::{
    DefaultRateCounts, DefaultRateDecoder, DefaultRateEncoder, Rate, RateDecoder, RateEncoder,
};
use std::alloc::Global;

/// Encodes twice. The first `encode` ends the round, so the second one finds no originals, whether the first result was
/// dropped or forgotten.
///
/// # Errors
///
/// [`Error::TooFewOriginalShards`] with 0 received shards, always.
pub fn encode_twice<E: Engine, X: RateEncoder<E> + Drop>(
    encoder: &mut X,
    steps: &mut Steps,
    forget: bool,
) -> Result<(), Error>
    requires { length (X.state encoder.old).given
        ≡ (X.state encoder.old).configuration.original_count }
    ensures answer { result
        ≡ Err (Error.TooFewOriginalShards (X.state encoder.old).configuration.original_count 0) }
    ensures state { X.state encoder.new ≡ fresh_encoder (X.state encoder.old).configuration }
    ensures engine { X.engine_of encoder.new ≡ X.engine_of encoder.old }
{
    let result = encoder.encode(steps)?;
    if forget {
        std::mem::forget(result);
    } else {
        drop(result);
    }
    let _ = encoder.encode(steps)?;
    Ok(())
}

/// Calls `encode` while originals are missing. It fails and changes nothing.
///
/// # Errors
///
/// [`Error::TooFewOriginalShards`], always.
pub fn encode_too_early<E: Engine, X: RateEncoder<E> + Drop>(
    encoder: &mut X,
    steps: &mut Steps,
) -> Result<(), Error>
    requires { length (X.state encoder.old).given
        < (X.state encoder.old).configuration.original_count }
    ensures answer { result
        ≡ Err (Error.TooFewOriginalShards (X.state encoder.old).configuration.original_count
        (length (X.state encoder.old).given)) }
    ensures state { X.state encoder.new ≡ X.state encoder.old }
    ensures engine { X.engine_of encoder.new ≡ X.engine_of encoder.old }
{
    drop(encoder.encode(steps)?);
    Ok(())
}

/// Resets a decoder of the default rate from any configuration to one of the high rate. After an error, the decoder is
/// as it was.
///
/// # Errors
///
/// [`Error::OutOfMemory`] if the rows cannot be allocated.
pub fn pass_to_high<E: Engine>(decoder: &mut DefaultRateDecoder<E>) -> Result<(), Error>
    ensures answer { UpToMemory
        (start_outcome (decoder_rows default_rate 3 2) (configuration default_rate 3 2 2)) result }
    ensures ok { OnOk result
        (⟦<DefaultRateDecoder<E> as RateDecoder<E>>⟧.state decoder.new
        ≡ fresh_decoder (configuration default_rate 3 2 2)) }
    ensures err { OnErr result
        (⟦<DefaultRateDecoder<E> as RateDecoder<E>>⟧.state decoder.new
        ≡ ⟦<DefaultRateDecoder<E> as RateDecoder<E>>⟧.state decoder.old) }
    ensures engine { ⟦<DefaultRateDecoder<E> as RateDecoder<E>>⟧.engine_of decoder.new
        ≡ ⟦<DefaultRateDecoder<E> as RateDecoder<E>>⟧.engine_of decoder.old }
{
    decoder.reset(3, 2, 2)
}

/// Makes an encoder and a decoder for two counts, which are checked only once.
///
/// # Errors
///
/// - [`Error::UnsupportedShardCount`] if the counts are not supported.
/// - [`Error::InvalidShardSize`] if `shard_bytes` is zero or odd.
/// - [`Error::OutOfMemory`] if the rows cannot be allocated, or if their bytes exceed `usize::MAX`.
pub fn both_sides<E: Engine>(
    alloc: Global,
    original_count: usize,
    recovery_count: usize,
    shard_bytes: usize,
    engine: E,
    other: E,
) -> Result<(DefaultRateEncoder<E>, DefaultRateDecoder<E>), Error>
    ensures refused { IfErr
        (validation_outcome (configuration default_rate original_count recovery_count shard_bytes))
        (λ e. result ≡ Err e) }
    ensures made { let c = configuration default_rate original_count recovery_count shard_bytes in
        IfOk result
        (λ sides. (⟦<DefaultRateEncoder<E> as RateEncoder<E>>⟧.state sides.0 ≡ fresh_encoder c)
        × (⟦<DefaultRateDecoder<E> as RateDecoder<E>>⟧.state sides.1 ≡ fresh_decoder c)) }
{
    let counts = DefaultRateCounts::new(original_count, recovery_count)?;
    let encoder = DefaultRateEncoder::with_counts(alloc, counts, shard_bytes, engine, None)?;
    let decoder = DefaultRateDecoder::with_counts(alloc, counts, shard_bytes, other, None)?;
    Ok((encoder, decoder))
}

/// Makes an encoder of any rate for 2 originals and 3 recovery shards of 2 bytes, and encodes without originals.
///
/// # Errors
///
/// - [`Error::OutOfMemory`] if the rows cannot be allocated.
/// - [`Error::TooFewOriginalShards`] otherwise.
pub fn encode_nothing<E: Engine, R: Rate<E>>(
    alloc: Global,
    engine: E,
    steps: &mut Steps,
) -> Result<(), Error>
    ensures { MatchResult (start_outcome (encoder_rows R.rate 2 3) (configuration R.rate 2 3 2))
        (λ _. (result ≡ Err Error.OutOfMemory) ⊎ (result ≡ Err (Error.TooFewOriginalShards 2 0)))
        (λ e. result ≡ Err e) }
{
    let mut encoder = R::encoder(alloc, 2, 3, 2, engine, None)?;
    let _ = encoder.encode(steps)?;
    Ok(())
}

/// Makes a decoder from the parts of another decoder of the same rate and configuration. The new decoder has the same
/// engine and no shards. Since nothing is allocated, the call never fails. Its contract states this.
pub fn make_again<E: Engine, R: Rate<E>>(
    alloc: Global,
    decoder: R::RateDecoder,
    original_count: usize,
    recovery_count: usize,
    shard_bytes: usize,
) -> Result<R::RateDecoder, Error>
    requires { (R.RateDecoder.state decoder).configuration
        ≡ configuration R.rate original_count recovery_count shard_bytes }
    ensures answer { answer_of result ≡ Ok tt }
    ensures made { IfOk result
        (λ x. (R.RateDecoder.state x
        ≡ fresh_decoder (configuration R.rate original_count recovery_count shard_bytes))
        × (R.RateDecoder.engine_of x ≡ R.RateDecoder.engine_of decoder)) }
{
    let (engine, work) = decoder.into_parts();
    R::decoder(
        alloc,
        original_count,
        recovery_count,
        shard_bytes,
        engine,
        Some(work),
    )
}

/// Resets an encoder to another configuration and back to its own. Its memory never shrinks, so the second `reset`
/// never fails. The contract states that this function never fails.
pub fn reset_and_back<E: Engine, X: RateEncoder<E>>(
    encoder: &mut X,
    original_count: usize,
    recovery_count: usize,
    shard_bytes: usize,
    between: (usize, usize, usize),
) -> Result<(), Error>
    requires { (X.state encoder.old).configuration
        ≡ configuration X.rate original_count recovery_count shard_bytes }
    ensures answer { result ≡ Ok tt }
    ensures state { X.state encoder.new
        ≡ fresh_encoder (configuration X.rate original_count recovery_count shard_bytes) }
{
    let _ = encoder.reset(between.0, between.1, between.2);
    encoder.reset(original_count, recovery_count, shard_bytes)
}

/// Decodes twice and returns both results. If there are enough shards but no message agrees with them, the first
/// `decode` fails with `InconsistentShards` and ends the round, so the second one finds no shards.
pub fn decode_inconsistent<E: Engine, X: RateDecoder<E> + Drop>(
    decoder: &mut X,
    steps: &mut Steps,
) -> (Result<(), Error>, Result<(), Error>)
    ensures first { enough_given (X.state decoder.old) ≡ Ok tt
        → (IsConsistent (X.state decoder.old) → ⊥)
        → result.0 ≡ Err (Error.InconsistentShards (originals_given (X.state decoder.old))
        (recovery_given (X.state decoder.old))) }
    ensures next { enough_given (X.state decoder.old) ≡ Ok tt
        → result.1
        ≡ Err (Error.NotEnoughShards (X.state decoder.old).configuration.original_count 0 0) }
    ensures state { X.state decoder.new ≡ after_decode (X.state decoder.old) }
    ensures engine { X.engine_of decoder.new ≡ X.engine_of decoder.old }
{
    let first = decode_just_enough(decoder, steps);
    let next = decode_just_enough(decoder, steps);
    (first, next)
}

/// Decodes with a decoder of any rate, and drops the result. If exactly as many shards were added as there are
/// originals, this never fails, whichever shards these are and whatever bytes they hold.
///
/// # Errors
///
/// - [`Error::NotEnoughShards`] if fewer shards than originals were added.
/// - [`Error::InconsistentShards`] if more shards than originals were added and no message agrees with them all.
pub fn decode_just_enough<E: Engine, X: RateDecoder<E> + Drop>(
    decoder: &mut X,
    steps: &mut Steps,
) -> Result<(), Error>
    ensures enough { originals_given (X.state decoder.old) + recovery_given (X.state decoder.old)
        ≡ (X.state decoder.old).configuration.original_count → result ≡ Ok tt }
    ensures answer { MatchResult (enough_given (X.state decoder.old))
        (λ _. MatchResult result (λ _. IsConsistent (X.state decoder.old))
        (NoneAgrees (X.state decoder.old))) (λ e. result ≡ Err e) }
    ensures state { X.state decoder.new ≡ after_decode (X.state decoder.old) }
    ensures engine { X.engine_of decoder.new ≡ X.engine_of decoder.old }
{
    drop(decoder.decode(steps)?);
    Ok(())
}

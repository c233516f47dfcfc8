//! A round trip at any rate, over any engine that meets the contract of `Engine`: exactly the lost originals come back.
ghost use Rattle.std.specs.Prelude.{◌≡◌, ◌+◌, ◌≤◌, length, map, All, Ok, IfOk, IfErr};
ghost use Rattle.reed_solomon_simd.specs.Configuration.{configuration, validation_outcome};
ghost use Rattle.reed_solomon_simd.specs.Given.{Lists};
ghost use Rattle.reed_solomon_simd.specs.Giving.{Reaches};
ghost use Rattle.reed_solomon_simd.specs.OneCall.{with_shards, with_originals, with_recoveries};
ghost use Rattle.reed_solomon_simd.specs.ResultView.{recovery_shards};
ghost use Rattle.rs_examples.specs.Losing.{lost_at, left_of, left_below};

use crate::adding::{add_originals, add_recovery, add_shards};
use crate::walking::restored_copies;
use reed_solomon_simd::engine::{Engine, Steps};
use reed_solomon_simd::rate::{Rate, RateDecoder, RateEncoder};
use reed_solomon_simd::{EncoderResult, Error};
use std::alloc::Global;

/// Encodes the originals with an encoder of a rate, drops the originals and the recovery shards with the indexes in
/// `lost` and `recovery_lost`, and decodes with a decoder of the rate. Returns exactly the lost originals, each as it
/// was, in order of their index.
///
/// # Errors
///
/// - If the counts and the size are valid, all originals have this size, and at least as many shards are left as there
///   are originals: only [`Error::OutOfMemory`] if memory cannot be allocated.
/// - Otherwise: the errors of the calls that encode and decode.
pub fn round_trip_at_a_rate<E: Engine + Copy, R: Rate<E>>(
    alloc: Global,
    originals: &[Vec<u8>],
    recovery_count: usize,
    shard_bytes: usize,
    lost: &[usize],
    recovery_lost: &[usize],
    engine: E,
    steps: &mut Steps,
) -> Result<Vec<(usize, Vec<u8>)>, Error>
    ensures restored { IfOk result
        (λ restored. Lists (lost_at (map (λ shard. shard.items) originals.now) lost.now)
        (map (λ item. (item.0, item.1.items)) restored.items)) }
    ensures enough { validation_outcome
        (configuration R.rate (length originals.now) recovery_count shard_bytes) ≡ Ok tt
        → All (λ shard. length shard.items ≡ shard_bytes) originals.now
        → length originals.now
        ≤ left_below (length originals.now) lost.now + left_below recovery_count recovery_lost.now
        → IfErr result (λ e. e ≡ Error.OutOfMemory) }
{
    let (k, r) = (originals.len(), recovery_count);
    let mut encoder = R::encoder(alloc, k, r, shard_bytes, engine, None)?;
    give_all(&mut encoder, originals)?;
    let recovery = encoder.encode(steps)?;

    let mut decoder = R::decoder(alloc, k, r, shard_bytes, engine, None)?;
    give_kept(&mut decoder, originals, lost)?;
    give_received(&mut decoder, &recovery, recovery_lost)?;
    let restored = decoder.decode(steps)?;
    restored_copies(alloc, &restored)
}

// Adds all originals to an encoder, in order.
fn give_all<E: Engine, X: RateEncoder<E>>(
    encoder: &mut X,
    originals: &[Vec<u8>],
) -> Result<(), Error>
    ensures { Reaches
        (with_shards (X.state encoder.old) (map (λ shard. shard.items) originals.now)) result
        (λ s. X.state encoder.new ≡ s) }
{
    let shards = originals.iter().map(|original| original.as_slice());
    add_shards(encoder, shards)
}

// Adds the originals that are not lost to a decoder.
fn give_kept<E: Engine, X: RateDecoder<E>>(
    decoder: &mut X,
    originals: &[Vec<u8>],
    lost: &[usize],
) -> Result<(), Error>
    ensures { Reaches
        (with_originals (X.state decoder.old)
        (left_of (map (λ shard. shard.items) originals.now) lost.now)) result
        (λ s. X.state decoder.new ≡ s) }
{
    let kept = originals
        .iter()
        .map(|original| original.as_slice())
        .enumerate()
        .filter(|item| !lost.contains(&item.0));
    add_originals(decoder, kept)
}

// Adds the recovery shards that are not lost to a decoder.
fn give_received<E: Engine, X: RateDecoder<E>>(
    decoder: &mut X,
    recovery: &EncoderResult<'_>,
    lost: &[usize],
) -> Result<(), Error>
    ensures { Reaches
        (with_recoveries (X.state decoder.old) (left_of (recovery_shards recovery.now) lost.now))
        result (λ s. X.state decoder.new ≡ s) }
{
    let received = recovery
        .recovery_iter()
        .enumerate()
        .filter(|item| !lost.contains(&item.0));
    add_recovery(decoder, received)
}

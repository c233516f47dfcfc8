//! The three levels of use: one-call functions, objects, and objects of a rate and an engine of the caller's choice.
//! Each function loses two originals of one message, restores them, and returns whether exactly the lost originals came
//! back. The documents quote these functions, and tests run them.
use reed_solomon_simd::engine::tables::Tables;
use reed_solomon_simd::engine::{DefaultEngine, EngineKind, Ssse3, Steps};
use reed_solomon_simd::rate::{DefaultRateDecoder, DefaultRateEncoder, RateDecoder, RateEncoder};
use reed_solomon_simd::{
    DecoderResult, EncoderResult, Error, ReedSolomonDecoder, ReedSolomonEncoder, decode_slice,
    encode_slice,
};
use std::alloc::Global;
use std::collections::BTreeMap;

const ORIGINAL: [&[u8]; 3] = [b"Three shards", b" of one size", b" are coded. "];

/// Encodes three originals, loses two of them and restores them, with the one-call functions over slices. Returns
/// whether exactly the lost originals came back.
///
/// # Errors
///
/// [`Error::OutOfMemory`] if memory cannot be allocated.
pub fn over_slices(alloc: Global) -> Result<bool, Error> {
    let tables = Tables::new(alloc)?;
    let engine = DefaultEngine::new(&tables, EngineKind::Ssse3);
    let recovery = encode_slice(alloc, 3, 2, &ORIGINAL, engine)?;

    // Originals 0 and 2 are lost. Any three shards are enough.
    let received: Vec<(usize, Vec<u8>)> = recovery.into_iter().enumerate().collect(alloc)?;
    let restored = decode_slice(alloc, 3, 2, &[(1, ORIGINAL[1])], &received, engine)?;

    Ok(are_in(&restored))
}

// Returns whether exactly originals 0 and 2 are in a map.
fn are_in(restored: &BTreeMap<usize, Vec<u8>>) -> bool {
    let first = restored.get(&0).map(|shard| shard.as_slice());
    let last = restored.get(&2).map(|shard| shard.as_slice());
    restored.len() == 2 && first == Some(ORIGINAL[0]) && last == Some(ORIGINAL[2])
}

/// Encodes three originals, loses two of them and restores them, with plain objects. Returns whether exactly the lost
/// originals came back.
///
/// # Errors
///
/// [`Error::OutOfMemory`] if memory cannot be allocated.
pub fn with_objects(alloc: Global) -> Result<bool, Error> {
    let tables = Tables::new(alloc)?;
    restores_with_objects(alloc, DefaultEngine::new(&tables, EngineKind::Ssse3))
}

// Encodes and restores with an engine, with plain objects.
fn restores_with_objects(alloc: Global, engine: DefaultEngine<'_>) -> Result<bool, Error> {
    let mut encoder = ReedSolomonEncoder::new(alloc, 3, 2, 12, engine)?;
    for shard in ORIGINAL {
        encoder.add_original_shard(shard)?;
    }
    let recovery = encoder.encode()?;

    let mut decoder = ReedSolomonDecoder::new(alloc, 3, 2, 12, engine)?;
    decoder.add_original_shard(1, ORIGINAL[1])?;
    for (index, shard) in recovery.recovery_iter().enumerate() {
        decoder.add_recovery_shard(index, shard)?;
    }
    let restored = decoder.decode()?;

    Ok(are_restored(&restored))
}

/// Encodes three originals, loses two of them and restores them, with objects of a rate and an engine. Returns whether
/// exactly the lost originals came back.
///
/// # Errors
///
/// [`Error::OutOfMemory`] if memory cannot be allocated.
pub fn with_a_rate_and_an_engine(alloc: Global) -> Result<bool, Error> {
    let tables = Tables::new(alloc)?;
    let engine = Ssse3::new(&tables);
    let mut steps = Steps::new();
    let mut encoder = DefaultRateEncoder::new(alloc, 3, 2, 12, engine, None)?;
    for shard in ORIGINAL {
        encoder.add_original_shard(shard)?;
    }
    let recovery = encoder.encode(&mut steps)?;
    restores_at_a_rate(alloc, &recovery, engine)
}

// Restores the lost originals from the recovery shards, with a decoder of the default rate.
fn restores_at_a_rate(
    alloc: Global,
    recovery: &EncoderResult<'_>,
    engine: Ssse3<'_>,
) -> Result<bool, Error> {
    let mut steps = Steps::new();
    let mut decoder = DefaultRateDecoder::new(alloc, 3, 2, 12, engine, None)?;
    decoder.add_original_shard(1, ORIGINAL[1])?;
    for (index, shard) in recovery.recovery_iter().enumerate() {
        decoder.add_recovery_shard(index, shard)?;
    }
    let restored = decoder.decode(&mut steps)?;

    Ok(are_restored(&restored))
}

// Returns whether exactly originals 0 and 2 are restored.
fn are_restored(restored: &DecoderResult<'_>) -> bool {
    let first = restored.restored_original(0) == Some(ORIGINAL[0]);
    let last = restored.restored_original(2) == Some(ORIGINAL[2]);
    restored.restored_original_iter().len() == 2 && first && last
}

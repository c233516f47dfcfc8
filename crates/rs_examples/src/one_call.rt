//! Callers of the one-call functions. Their contracts state what these functions return for shards in memory.
ghost use Rattle.std.specs.Prelude.{map, IfOk};
ghost use Rattle.reed_solomon_simd.specs.OneCall.{OneEncodeAnswers, OneDecodeAnswers, collected_shards, collected_map};
ghost use Rattle.reed_solomon_simd.specs.RoundTrip.{RestoresOnly};

use reed_solomon_simd::engine::DefaultEngine;
use reed_solomon_simd::{Error, decode_slice, encode, encode_slice};
use std::alloc::Global;
use std::collections::BTreeMap;

/// Returns the recovery shards of originals that are vectors.
///
/// # Errors
///
/// The errors of [`encode`], in the same order.
pub fn encode_vectors(
    alloc: Global,
    original_count: usize,
    recovery_count: usize,
    original: &[Vec<u8>],
    engine: DefaultEngine<'_>,
) -> Result<Vec<Vec<u8>>, Error>
    ensures { OneEncodeAnswers original_count recovery_count
        (map (λ shard. shard.items) original.now) (collected_shards result) }
{
    let shards = original.iter().map(|shard| shard.as_slice());
    encode(alloc, original_count, recovery_count, shards, engine)
}

/// Returns the recovery shards of originals that are arrays.
///
/// # Errors
///
/// The errors of [`encode_slice`], in the same order.
pub fn encode_arrays<const K: usize, const N: usize>(
    alloc: Global,
    recovery_count: usize,
    original: &[[u8; N]; K],
    engine: DefaultEngine<'_>,
) -> Result<Vec<Vec<u8>>, Error>
    ensures { OneEncodeAnswers K recovery_count original.now (collected_shards result) }
{
    encode_slice(alloc, K, recovery_count, original, engine)
}

/// Returns the missing originals of the only message to which the received shards belong. The received shards are
/// vectors with their indexes.
///
/// # Errors
///
/// The errors of [`decode_slice`], in the same order.
pub fn decode_vectors(
    alloc: Global,
    original_count: usize,
    recovery_count: usize,
    original: &[(usize, Vec<u8>)],
    recovery: &[(usize, Vec<u8>)],
    engine: DefaultEngine<'_>,
) -> Result<BTreeMap<usize, Vec<u8>>, Error>
    ensures restored { IfOk (collected_map result) (RestoresOnly original_count recovery_count
        (map (λ item. (item.0, item.1.items)) original.now)
        (map (λ item. (item.0, item.1.items)) recovery.now)) }
    ensures answer { OneDecodeAnswers original_count recovery_count
        (map (λ item. (item.0, item.1.items)) original.now)
        (map (λ item. (item.0, item.1.items)) recovery.now) (collected_map result) }
{
    decode_slice(
        alloc,
        original_count,
        recovery_count,
        original,
        recovery,
        engine,
    )
}

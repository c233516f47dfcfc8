//! Calls of `update_into`, `split`, `reconstruct`, `complete` and `join`, around an encode or a decode over slices.
use crate::lending::missing;
use crate::rooms::lend;
use crate::watch::Watch;
use anyhow::{Context, Result};
use reed_solomon_simd::engine::DefaultEngine;
use reed_solomon_simd::{
    ShardIndex, complete, decode_slice, encode_slice, join, reconstruct, split, update_into,
};
use std::alloc::Global;
use std::collections::BTreeMap;

/// Encodes the message in which the original in the middle consists of zeros, and updates the recovery shards with
/// `update_into`. Returns the recovery shards of these originals. Only the update is watched.
///
/// # Errors
///
/// If a call fails, or if memory for its arguments cannot be allocated.
pub fn encode_updated(
    alloc: Global,
    (k, r): (usize, usize),
    originals: &[&[u8]],
    engine: DefaultEngine<'_>,
) -> Result<Vec<Vec<u8>>> {
    let index = originals.len() / 2;
    let Some(original) = originals.get(index) else {
        return Ok(encode_slice(alloc, k, r, originals, engine)?);
    };
    let zeros = vec![in alloc; 0u8; original.len()]?;
    let mut before = Vec::new(alloc);
    for (place, shard) in originals.iter().enumerate() {
        let is_zero = place == index;
        before.push(if is_zero { zeros.as_slice() } else { *shard })?;
    }
    let mut recovery = encode_slice(alloc, k, r, &before, engine)?;
    let mut rooms = lend(alloc, &mut recovery)?;
    let watch = Watch::new(alloc);
    update_into(alloc, k, r, index, &zeros, original, &mut rooms, engine)?;
    drop(watch);
    drop(rooms);
    Ok(recovery)
}

/// Splits the message of these originals with `split`, and encodes the pieces with `encode_slice`. Only `split` is
/// watched.
///
/// # Errors
///
/// If a call fails, or if the message cannot be allocated.
pub fn encode_split(
    alloc: Global,
    (k, r): (usize, usize),
    originals: &[&[u8]],
    engine: DefaultEngine<'_>,
) -> Result<Vec<Vec<u8>>> {
    let message = originals.concat(alloc)?;
    let watch = Watch::new(alloc);
    let pieces = split(alloc, &message, k)?;
    drop(watch);
    Ok(encode_slice(alloc, k, r, &pieces, engine)?)
}

/// Reconstructs the missing originals with `reconstruct`.
///
/// # Errors
///
/// If the call fails, or if memory for its arguments cannot be allocated.
pub fn reconstruct_missing(
    alloc: Global,
    (k, r): (usize, usize),
    originals: &[(usize, &[u8])],
    recoveries: &[(usize, &[u8])],
    engine: DefaultEngine<'_>,
) -> Result<BTreeMap<usize, Vec<u8>>> {
    let missing = missing(alloc, k, originals)?;
    let names: Vec<ShardIndex> = missing
        .iter()
        .map(|index| ShardIndex::Original(*index))
        .collect(alloc)?;
    let watch = Watch::new(alloc);
    let shards = reconstruct(alloc, k, r, originals, recoveries, &names, engine)?;
    drop(watch);
    Ok(missing.into_iter().zip(shards).collect(alloc)?)
}

/// Decodes received shards with `decode_slice`, completes the originals with `complete`, and joins the message with
/// `join`. Returns the parts of the message that are the missing originals. Only `complete` and `join` are watched.
///
/// # Errors
///
/// If a call fails, if the message is too short, or if memory cannot be allocated.
pub fn decode_joined(
    alloc: Global,
    (k, r): (usize, usize),
    originals: &[(usize, &[u8])],
    recoveries: &[(usize, &[u8])],
    engine: DefaultEngine<'_>,
) -> Result<BTreeMap<usize, Vec<u8>>> {
    let restored = decode_slice(alloc, k, r, originals, recoveries, engine)?;
    let missing: Vec<usize> = restored.keys().copied().collect(alloc)?;
    let mut shards = originals.iter().chain(recoveries);
    let size = shards.next().map_or(0, |(_, shard)| shard.len());
    let watch = Watch::new(alloc);
    let completed = complete(alloc, k, originals, restored)?;
    let message = join(alloc, &completed, k.saturating_mul(size))?;
    drop(watch);
    let mut parts = BTreeMap::new(alloc);
    for index in missing {
        let start = index.saturating_mul(size);
        let part = message.get(start..start.saturating_add(size));
        let part = part.context("the message is too short")?;
        parts.insert(index, part.to_vec(alloc)?)?;
    }
    Ok(parts)
}

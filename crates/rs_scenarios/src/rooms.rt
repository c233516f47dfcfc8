//! Calls of the one-call functions that write into rooms, which are output buffers of the caller.
use crate::lending::{MOST_SHARDS, missing};
use crate::watch::Watch;
use anyhow::{Error, Result, ensure};
use reed_solomon_simd::engine::DefaultEngine;
use reed_solomon_simd::{ShardIndex, decode_into, encode_into, reconstruct_into};
use std::alloc::{AllocError, Global};
use std::collections::BTreeMap;

// The value of each byte of a room before a call.
const BEFORE: u8 = 9;

// Returns `count` rooms of the size of this shard, or of two bytes if there is no shard.
fn rooms_of(alloc: Global, count: usize, shard: Option<&[u8]>) -> Result<Vec<Vec<u8>>, AllocError> {
    let size = shard.map_or(2, |shard| shard.len());
    let mut rooms = Vec::new(alloc);
    for _ in 0..count {
        rooms.push(vec![in alloc; BEFORE; size]?)?;
    }
    Ok(rooms)
}

/// Returns references to rooms, as the calls take them.
///
/// # Errors
///
/// [`AllocError`] if memory cannot be allocated.
pub fn lend(alloc: Global, rooms: &mut [Vec<u8>]) -> Result<Vec<&mut [u8]>, AllocError> {
    let mut lent = Vec::new(alloc);
    for room in rooms {
        lent.push(room.as_mut_slice())?;
    }
    Ok(lent)
}

// Returns the result of a call. If the call failed and changed its rooms, the error says this instead.
fn outcome<E: Into<Error> + Drop>(answer: Result<(), E>, rooms: &[Vec<u8>]) -> Result<()> {
    let mut bytes = rooms.iter().flatten();
    ensure!(
        answer.is_ok() || bytes.all(|byte| *byte == BEFORE),
        "a call that failed has changed its rooms"
    );
    answer.map_err(|error| error.into())
}

/// Encodes originals with `encode_into`. Returns the rooms, which hold the recovery shards.
///
/// # Errors
///
/// Fails if the call fails, or if the rooms cannot be allocated. If the call changes its rooms and fails, the error
/// says this.
pub fn encode(
    alloc: Global,
    (k, r): (usize, usize),
    originals: &[&[u8]],
    engine: DefaultEngine<'_>,
) -> Result<Vec<Vec<u8>>> {
    let mut rooms = rooms_of(alloc, r.min(MOST_SHARDS), originals.first().copied())?;
    let mut lent = lend(alloc, &mut rooms)?;
    let watch = Watch::new(alloc);
    let answer = encode_into(alloc, k, r, originals, &mut lent, engine);
    drop(watch);
    drop(lent);
    outcome(answer, &rooms)?;
    Ok(rooms)
}

/// Decodes received shards with `decode_into`, or, if `is_named` is true, with `reconstruct_into` and the names of the
/// missing originals. Returns the rooms, which hold the missing originals, by the indexes of these originals.
///
/// # Errors
///
/// Fails if the call fails, or if the rooms cannot be allocated. If the call changes its rooms and fails, the error
/// says this.
pub fn decode(
    alloc: Global,
    (k, r): (usize, usize),
    originals: &[(usize, &[u8])],
    recoveries: &[(usize, &[u8])],
    engine: DefaultEngine<'_>,
    is_named: bool,
) -> Result<BTreeMap<usize, Vec<u8>>> {
    let missing = missing(alloc, k, originals)?;
    let names: Vec<ShardIndex> = missing
        .iter()
        .map(|index| ShardIndex::Original(*index))
        .collect(alloc)?;
    let first = recoveries.first().map(|(_, shard)| *shard);
    let mut rooms = rooms_of(alloc, missing.len(), first)?;
    let mut lent = lend(alloc, &mut rooms)?;
    let watch = Watch::new(alloc);
    let answer = if is_named {
        reconstruct_into(
            alloc, k, r, originals, recoveries, &names, &mut lent, engine,
        )
    } else {
        decode_into(alloc, k, r, originals, recoveries, &mut lent, engine).map_err(|e| e.into())
    };
    drop(watch);
    drop(lent);
    outcome(answer, &rooms)?;
    Ok(missing.into_iter().zip(rooms).collect(alloc)?)
}

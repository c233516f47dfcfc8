//! The shards that calls over slices take, and the indexes of the shards that are missing among them.
use crate::cases::Shard;
use std::alloc::{AllocError, Global};
use std::collections::BTreeSet;

/// The largest number of shards of a message. No counts of more shards are supported.
pub const MOST_SHARDS: usize = 65536;

/// Returns the shards without the places at which an iterator ends.
///
/// # Errors
///
/// [`AllocError`] if memory cannot be allocated.
pub fn lent(alloc: Global, places: &[Option<Shard>]) -> Result<Vec<&[u8]>, AllocError> {
    let mut shards = Vec::new(alloc);
    for (_, bytes) in places.iter().flatten() {
        shards.push(bytes.as_slice())?;
    }
    Ok(shards)
}

/// Returns the shards with their indexes, without the places at which an iterator ends.
///
/// # Errors
///
/// [`AllocError`] if memory cannot be allocated.
pub fn lent_items(
    alloc: Global,
    places: &[Option<Shard>],
) -> Result<Vec<(usize, &[u8])>, AllocError> {
    let mut items = Vec::new(alloc);
    for (index, bytes) in places.iter().flatten() {
        items.push((*index, bytes.as_slice()))?;
    }
    Ok(items)
}

/// Returns the indexes below `count` that none of these shards has, in order.
///
/// # Errors
///
/// [`AllocError`] if memory cannot be allocated.
pub fn missing(
    alloc: Global,
    count: usize,
    shards: &[(usize, &[u8])],
) -> Result<BTreeSet<usize>, AllocError> {
    let mut missing: BTreeSet<usize> = (0..count.min(MOST_SHARDS)).collect(alloc)?;
    for (index, _) in shards {
        missing.remove(index);
    }
    Ok(missing)
}

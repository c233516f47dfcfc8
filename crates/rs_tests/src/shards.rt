//! Messages, and the shards of a message that a decode is given.
use std::alloc::{AllocError, Global};

/// Returns `count` originals of `shard_bytes` bytes, whose bytes differ from shard to shard.
///
/// # Errors
///
/// [`AllocError`] if the originals cannot be allocated.
pub fn drawn(alloc: Global, count: usize, shard_bytes: usize) -> Result<Vec<Vec<u8>>, AllocError> {
    let mut state: u64 = 41;
    let mut shards = Vec::new(alloc);
    for _ in 0..count {
        let mut shard = Vec::with_capacity(alloc, shard_bytes)?;
        for _ in 0..shard_bytes {
            state = state
                .wrapping_mul(6_364_136_223_846_793_005)
                .wrapping_add(1_442_695_040_888_963_407);
            shard.push((state / 4_294_967_296 % 256) as u8)?;
        }
        shards.push(shard)?;
    }
    Ok(shards)
}

/// Returns the shards from index `first` on, with their indexes.
///
/// # Errors
///
/// [`AllocError`] if the list cannot be allocated.
pub fn from_index(
    alloc: Global,
    shards: &[Vec<u8>],
    first: usize,
) -> Result<Vec<(usize, &[u8])>, AllocError> {
    let mut items = Vec::new(alloc);
    for (index, shard) in shards.iter().enumerate().skip(first) {
        items.push((index, shard.as_slice()))?;
    }
    Ok(items)
}

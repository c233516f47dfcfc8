//! Messages that are made by a rule, and digests of shards.
use crate::cases::{Rule, Shard};
use rand_chacha::ChaCha8Rng;
use rand_core::{Rng, SeedableRng};
use sha2::{Digest, Sha256};
use std::alloc::{AllocError, Global};

/// Makes `count` originals of `shard_bytes` bytes by a rule. The originals of [`Rule::Points`] always have two bytes.
///
/// # Errors
///
/// [`AllocError`] if memory cannot be allocated.
pub fn message(
    alloc: Global,
    rule: &Rule,
    count: usize,
    shard_bytes: usize,
) -> Result<Vec<Shard>, AllocError> {
    let seed = match rule {
        Rule::Drawn(seed) => *seed,
        _ => 0,
    };
    let mut rng = ChaCha8Rng::from_seed([seed; 32]);
    let mut shards = Vec::new(alloc);
    for index in 0..count {
        let bytes = match rule {
            Rule::Counted => counted_bytes(alloc, index, shard_bytes)?,
            Rule::Drawn(_) => {
                let mut bytes = vec![in alloc; 0u8; shard_bytes]?;
                rng.fill_bytes(bytes.as_mut_slice());
                bytes
            }
            Rule::Points(from) => {
                let point = from.wrapping_add(index);
                vec![in alloc; (point % 256) as u8, (point / 256 % 256) as u8]?
            }
        };
        shards.push((index, bytes))?;
    }
    Ok(shards)
}

// Returns an original whose byte i is (7 i + 13 index + 5) mod 251.
fn counted_bytes(alloc: Global, index: usize, shard_bytes: usize) -> Result<Vec<u8>, AllocError> {
    let head = index.wrapping_mul(13).wrapping_add(5);
    let mut bytes = Vec::with_capacity(alloc, shard_bytes)?;
    for i in 0..shard_bytes {
        bytes.push((i.wrapping_mul(7).wrapping_add(head) % 251) as u8)?;
    }
    Ok(bytes)
}

/// Returns the SHA-256 digest of all shards, one after another, in hexadecimal digits.
///
/// # Errors
///
/// [`AllocError`] if memory cannot be allocated.
pub fn digest_of(alloc: Global, shards: &[Shard]) -> Result<String, AllocError> {
    let mut hasher = Sha256::new();
    for (_, bytes) in shards {
        hasher.update(bytes.as_slice());
    }
    hex::encode(alloc, hasher.finalize().as_slice())
}

//! A round trip in which `reconstruct` makes the lost originals again.
ghost use Rattle.std.specs.Prelude.{◌≡◌, ◌+◌, ◌≤◌, ℕ, length, map, All, Ok, IfOk, IfErr};
ghost use Rattle.std.specs.BTreeMap.{IsFromIterResult};
ghost use Rattle.std.specs.List.{zip};
ghost use Rattle.std.specs.Ordering.{nat_cmp};
ghost use Rattle.reed_solomon_simd.specs.Configuration.{validation_outcome};
ghost use Rattle.reed_solomon_simd.specs.OneCall.{default_of, shards_in};
ghost use Rattle.rs_examples.specs.Losing.{lost_at, left_of, left_below, ListsLost};

use reed_solomon_simd::engine::DefaultEngine;
use reed_solomon_simd::{Error, ReconstructError, ShardIndex, encode_slice, reconstruct};
use std::alloc::{AllocError, Global};
use std::collections::BTreeMap;

/// Encodes the originals, drops the originals and the recovery shards with the indexes in `lost` and `recovery_lost`,
/// and reconstructs the lost originals. Returns exactly the lost originals by their index, each as it was.
///
/// # Errors
///
/// - If the counts and the size are valid, all originals have this size, and at least as many shards are left as there
///   are originals: only [`Error::OutOfMemory`] if memory cannot be allocated.
/// - Otherwise: the errors of the calls that encode and reconstruct.
pub fn round_trip_by_reconstruct(
    alloc: Global,
    originals: &[Vec<u8>],
    recovery_count: usize,
    lost: &[usize],
    recovery_lost: &[usize],
    engine: DefaultEngine<'_>,
) -> Result<BTreeMap<usize, Vec<u8>>, ReconstructError>
    ensures restored { IfOk result
        (λ restored. (i : ℕ)
        → shards_in restored i ≡ lost_at (map (λ shard. shard.items) originals.now) lost.now i) }
    ensures enough { (size : ℕ)
        → validation_outcome (default_of (length originals.now) recovery_count size) ≡ Ok tt
        → All (λ shard. length shard.items ≡ size) originals.now
        → length originals.now
        ≤ left_below (length originals.now) lost.now + left_below recovery_count recovery_lost.now
        → IfErr result (λ e. e ≡ ReconstructError.Refused Error.OutOfMemory) }
{
    let (k, r) = (originals.len(), recovery_count);
    let recovery = encode_slice(alloc, k, r, originals, engine)?;

    let kept = left_shards(alloc, originals, lost)?;
    let received = left_shards(alloc, recovery.as_slice(), recovery_lost)?;
    let indexes = lost_indexes(alloc, k, lost)?;
    let wanted = names(alloc, indexes.as_slice())?;
    let shards = reconstruct(alloc, k, r, &kept, &received, &wanted, engine)?;
    let restored = by_index(alloc, indexes, shards)?;
    Ok(restored)
}

// Returns the shards that are not lost, with their indexes.
pub(crate) fn left_shards<'a>(
    alloc: Global,
    shards: &'a [Vec<u8>],
    lost: &[usize],
) -> Result<Vec<(usize, &'a [u8])>, AllocError>
    ensures { IfOk result (λ left. map (λ item. (item.0, item.1.now)) left.items
        ≡ left_of (map (λ shard. shard.items) shards.now) lost.now) }
{
    shards
        .iter()
        .map(|shard| shard.as_slice())
        .enumerate()
        .filter(|item| !lost.contains(&item.0))
        .collect(alloc)
}

// Returns the lost indexes below `count`, each once. `lost` can have an index twice, or one that no original has, and
// `reconstruct` accepts neither.
fn lost_indexes(alloc: Global, count: usize, lost: &[usize]) -> Result<Vec<usize>, AllocError>
    ensures { IfOk result (λ indexes. ListsLost count lost.now indexes.items) }
{
    let mut indexes = Vec::new(alloc);
    for index in 0..count {
        if lost.contains(&index) {
            indexes.push(index)?;
        }
    }
    Ok(indexes)
}

fn names(alloc: Global, indexes: &[usize]) -> Result<Vec<ShardIndex>, AllocError>
    ensures { IfOk result (λ names. names.items ≡ map (λ i. ShardIndex.Original i) indexes.now) }
{
    indexes
        .iter()
        .map(|index| ShardIndex::Original(*index))
        .collect(alloc)
}

fn by_index(
    alloc: Global,
    indexes: Vec<usize>,
    shards: Vec<Vec<u8>>,
) -> Result<BTreeMap<usize, Vec<u8>>, AllocError>
    ensures { IfOk result (IsFromIterResult nat_cmp (zip indexes.items shards.items)) }
{
    indexes.into_iter().zip(shards).collect(alloc)
}

//! Callers that iterate over results. Their proofs use only the contracts of the results.
ghost use Rattle.std.specs.Prelude.{◌≡◌, map, IfOk, IfErr};
ghost use Rattle.reed_solomon_simd.specs.Given.{Lists};
ghost use Rattle.reed_solomon_simd.specs.ResultView.{recovery_shards, restored_originals};

use reed_solomon_simd::{DecoderResult, EncoderResult, Error};
use std::alloc::Global;

/// Returns copies of the recovery shards of a result, in order of their index.
///
/// # Errors
///
/// [`Error::OutOfMemory`] if the copies cannot be allocated.
pub fn recovery_copies(alloc: Global, lent: &EncoderResult<'_>) -> Result<Vec<Vec<u8>>, Error>
    ensures copies { IfOk result
        (λ shards. map (λ shard. shard.items) shards.items ≡ recovery_shards lent.now) }
    ensures memory { IfErr result (λ e. e ≡ Error.OutOfMemory) }
{
    let mut shards = Vec::new(alloc);
    for shard in lent.recovery_iter() {
        shards.push(shard.to_vec(alloc)?)?;
    }
    Ok(shards)
}

/// Returns copies of the restored originals of a result, with their indexes, in order of their index.
///
/// # Errors
///
/// [`Error::OutOfMemory`] if the copies cannot be allocated.
pub fn restored_copies(
    alloc: Global,
    lent: &DecoderResult<'_>,
) -> Result<Vec<(usize, Vec<u8>)>, Error>
    ensures copies { IfOk result (λ originals.
        Lists (restored_originals lent.now)
        (map (λ item. (item.0, item.1.items)) originals.items)) }
    ensures memory { IfErr result (λ e. e ≡ Error.OutOfMemory) }
{
    let mut originals = Vec::new(alloc);
    for (index, shard) in lent.restored_original_iter() {
        originals.push((index, shard.to_vec(alloc)?))?;
    }
    Ok(originals)
}

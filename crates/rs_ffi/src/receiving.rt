//! The shards in arrays that a call received.
ghost use Rattle.std.specs.Prelude.{◌≡◌, ◌++◌};
ghost use Rattle.std.specs.Result.{result_map_both};
ghost use Rattle.reed_solomon_simd.specs.ReceivedState.{received_state};
ghost use Rattle.reed_solomon_simd.specs.Verified.{IsReceiving, first_size};
ghost use Rattle.rs_ffi.specs.Arrays.{items_of};

use crate::layouts::RsShard;
use reed_solomon_simd::ffi::{ReceivedShards, received_of_size};
use rs_field::error::Error;
use rs_rate::rate::DefaultRateCounts;
use std::alloc::Global;

/// Returns the received shards of two arrays. The shard size is that of the first recovery shard, or if there is none,
/// that of the first original.
///
/// # Errors
///
/// Those of [`received_of_size`].
pub fn received_in_arrays<'a>(
    alloc: Global,
    counts: DefaultRateCounts,
    originals: &[RsShard<'a>],
    recovery: &[RsShard<'a>],
) -> Result<ReceivedShards<'a>, Error>
    ensures { IsReceiving counts.original_count counts.recovery_count
        (items_of originals.now) (items_of recovery.now)
        (result_map_both received_state (λ e. e) result) }
{
    let shard_bytes = size_in_arrays(originals, recovery);
    let lent_originals = originals.iter().map(|shard| (shard.index, shard.bytes));
    let lent_recovery = recovery.iter().map(|shard| (shard.index, shard.bytes));
    received_of_size(alloc, counts, shard_bytes, lent_originals, lent_recovery)
}

// Returns the size of the first recovery shard, or of the first original if there is no recovery shard.
fn size_in_arrays(originals: &[RsShard<'_>], recovery: &[RsShard<'_>]) -> Option<usize>
    ensures { result ≡ first_size (items_of recovery.now ++ items_of originals.now) }
{
    if !recovery.is_empty() {
        return Some(recovery[0].bytes.len());
    }
    if !originals.is_empty() {
        return Some(originals[0].bytes.len());
    }
    None
}

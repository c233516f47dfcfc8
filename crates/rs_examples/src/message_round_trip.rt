//! Round trips of a message of any length: it is split and encoded, some shards are lost, and the message comes back.
ghost use Rattle.std.specs.Prelude.{◌≡◌, ◌+◌, ◌≤◌, ℕ, List, length, map, Ok, IfOk, IfErr};
ghost use Rattle.reed_solomon_simd.specs.Messages.{AreShardsOf};
ghost use Rattle.reed_solomon_simd.specs.OneCall.{counts_outcome, shards_in};
ghost use Rattle.rs_examples.specs.Losing.{left_below, lost_at};

use crate::reconstruct_round_trip::{left_shards, round_trip_by_reconstruct};
use crate::round_trip::round_trip_in_one_call;
use reed_solomon_simd::engine::DefaultEngine;
use reed_solomon_simd::{Error, ReconstructError, complete, join, split};
use std::alloc::Global;
use std::collections::BTreeMap;

/// Splits a message of any length into originals, encodes them, drops the originals and the recovery shards with the
/// indexes in `lost` and `recovery_lost`, decodes, and puts the message together again. Returns the message as it was.
///
/// # Errors
///
/// - If the counts are supported, and at least as many shards are left as there are originals: only
///   [`Error::OutOfMemory`] if memory cannot be allocated.
/// - Otherwise: the errors of the calls that split, encode and decode.
pub fn round_trip_of_a_message(
    alloc: Global,
    message: &[u8],
    original_count: usize,
    recovery_count: usize,
    lost: &[usize],
    recovery_lost: &[usize],
    engine: DefaultEngine<'_>,
) -> Result<Vec<u8>, Error>
    ensures same { IfOk result (λ back. back.items ≡ message.now) }
    ensures enough { counts_outcome original_count recovery_count ≡ Ok tt
        → original_count
        ≤ left_below original_count lost.now + left_below recovery_count recovery_lost.now
        → IfErr result (λ e. e ≡ Error.OutOfMemory) }
{
    let vectors = split(alloc, message, original_count)?;
    let originals = vectors.as_slice();
    let restored = round_trip_in_one_call(
        alloc,
        originals,
        recovery_count,
        lost,
        recovery_lost,
        engine,
    )?;
    put_together(alloc, originals, lost, restored, message.len())
}

/// Splits a message of any length into originals, encodes them, drops the originals and the recovery shards with the
/// indexes in `lost` and `recovery_lost`, reconstructs the lost originals, and puts the message together again. Returns
/// the message as it was.
///
/// # Errors
///
/// - If the counts are supported, and at least as many shards are left as there are originals: only
///   [`Error::OutOfMemory`] if memory cannot be allocated.
/// - Otherwise: the errors of the calls that split, encode and reconstruct.
pub fn reconstruction_of_a_message(
    alloc: Global,
    message: &[u8],
    original_count: usize,
    recovery_count: usize,
    lost: &[usize],
    recovery_lost: &[usize],
    engine: DefaultEngine<'_>,
) -> Result<Vec<u8>, ReconstructError>
    ensures same { IfOk result (λ back. back.items ≡ message.now) }
    ensures enough { counts_outcome original_count recovery_count ≡ Ok tt
        → original_count
        ≤ left_below original_count lost.now + left_below recovery_count recovery_lost.now
        → IfErr result (λ e. e ≡ ReconstructError.Refused Error.OutOfMemory) }
{
    let vectors = split(alloc, message, original_count)?;
    let originals = vectors.as_slice();
    let restored = round_trip_by_reconstruct(
        alloc,
        originals,
        recovery_count,
        lost,
        recovery_lost,
        engine,
    )?;
    let back = put_together(alloc, originals, lost, restored, message.len())?;
    Ok(back)
}

// Completes the originals that are not lost with the restored ones, and joins them to a message of `total` bytes.
fn put_together(
    alloc: Global,
    originals: &[Vec<u8>],
    lost: &[usize],
    restored: BTreeMap<usize, Vec<u8>>,
    total: usize,
) -> Result<Vec<u8>, Error>
    requires { (i : ℕ) → shards_in restored i
        ≡ lost_at (map (λ shard. shard.items) originals.now) lost.now i }
    ensures same { (message : List ℕ) → length message ≡ total
        → AreShardsOf (length originals.now) message (map (λ shard. shard.items) originals.now)
        → IfOk result (λ back. back.items ≡ message) }
    ensures refused { (message : List ℕ) → length message ≡ total
        → AreShardsOf (length originals.now) message (map (λ shard. shard.items) originals.now)
        → IfErr result (λ e. e ≡ Error.OutOfMemory) }
{
    let kept = left_shards(alloc, originals, lost)?;
    let all = complete(alloc, originals.len(), &kept, restored)?;
    join(alloc, &all, total)
}

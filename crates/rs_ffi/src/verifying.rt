//! The call that verifies received shards.
ghost use Rattle.rs_ffi.specs.Arrays.{items_of, VerifiesArrays};
ghost use Rattle.reed_solomon_simd.specs.Verified.{OneVerifies};

use crate::fault::Fault;
use crate::fault_places::placed_fault;
use crate::layouts::RsShard;
use crate::receiving::received_in_arrays;
use reed_solomon_simd::RoomError;
use reed_solomon_simd::ffi::{check_consistent, check_enough};
use rs_field::engine::Engine;
use rs_field::error::Error;
use rs_rate::rate::DefaultRateCounts;
use std::alloc::Global;

/// Checks that the received shards belong to one message.
///
/// # Errors
///
/// The errors of [`verify`](reed_solomon_simd::verify), as faults and in the same order. The fault of a shard of
/// another size says its place.
pub fn verify_arrays<E: Engine>(
    alloc: Global,
    engine: E,
    original_count: usize,
    recovery_count: usize,
    originals: &[RsShard<'_>],
    recovery: &[RsShard<'_>],
) -> Result<(), Fault>
    ensures { VerifiesArrays original_count recovery_count
        (items_of originals.now) (items_of recovery.now) result }
{
    let answer = verify_received(
        alloc,
        engine,
        original_count,
        recovery_count,
        originals,
        recovery,
    );
    if let Err(error) = answer {
        let refusal = RoomError::Refused(error);
        return Err(placed_fault(refusal, originals, recovery, &[]));
    }
    Ok(())
}

// Checks that the received shards belong to one message. Fails with the errors of `verify`.
fn verify_received<E: Engine>(
    alloc: Global,
    engine: E,
    original_count: usize,
    recovery_count: usize,
    originals: &[RsShard<'_>],
    recovery: &[RsShard<'_>],
) -> Result<(), Error>
    ensures { OneVerifies original_count recovery_count
        (items_of originals.now) (items_of recovery.now) result }
{
    let counts = DefaultRateCounts::new(original_count, recovery_count)?;
    let received = received_in_arrays(alloc, counts, originals, recovery)?;
    check_enough(&received)?;
    check_consistent(alloc, engine, &received)
}

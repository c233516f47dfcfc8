//! The call that updates recovery shards.
ghost use Rattle.rs_ffi.specs.Arrays.{bytes_in, UpdatesArrays, KeepsRooms};

use crate::fault::Fault;
use crate::fault_places::placed_fault;
use reed_solomon_simd::update_into;
use rs_field::engine::Engine;
use std::alloc::Global;

/// Updates recovery shards in rooms after one original has changed from `before` to `after`.
///
/// # Errors
///
/// The errors of [`update_into`], as faults and in the same order. If `after` has another size than `before`, the fault
/// has the place 1. The fault of a room of another size says its place. After an error the rooms are unchanged.
pub fn update_arrays<E: Engine>(
    alloc: Global,
    engine: E,
    original_count: usize,
    recovery_count: usize,
    index: usize,
    before: &[u8],
    after: &[u8],
    recovery: &mut [&mut [u8]],
) -> Result<(), Fault>
    ensures answer { UpdatesArrays original_count recovery_count index before.now after.now
        (bytes_in recovery.old) (bytes_in recovery.new) result }
    ensures kept { KeepsRooms recovery.old recovery.new }
{
    let answer = update_into(
        alloc,
        original_count,
        recovery_count,
        index,
        before,
        after,
        recovery,
        engine,
    );
    if let Err(error) = answer {
        return Err(placed_fault(error, &[before, after], &[], recovery));
    }
    Ok(())
}

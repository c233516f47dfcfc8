//! The call that reconstructs wanted shards.
ghost use Rattle.std.specs.Prelude.{◌≡◌, MatchResult};
ghost use Rattle.reed_solomon_simd.specs.Reconstructed.{ReconstructsInto};
ghost use Rattle.reed_solomon_simd.specs.Rooms.{loans_of};
ghost use Rattle.rs_ffi.specs.Arrays.{items_of, bytes_in, wanted_of, ReconstructsArrays, KeepsRooms};

use crate::fault::Fault;
use crate::fault_places::placed_reconstruct_fault;
use crate::layouts::{RsShard, RsWanted, named};
use crate::receiving::received_in_arrays;
use reed_solomon_simd::ffi::reconstruct_received;
use reed_solomon_simd::{ReconstructError, ShardIndex};
use rs_field::engine::Engine;
use rs_field::error::Error;
use rs_rate::rate::DefaultRateCounts;
use std::alloc::Global;

/// Reconstructs the wanted shards, and writes them into rooms, in the order of `wanted`.
///
/// # Errors
///
/// The errors of [`reconstruct_into`](reed_solomon_simd::reconstruct_into), as faults and in the same order. The fault
/// of a shard or a room of another size says its place. After an error the rooms are unchanged.
pub fn reconstruct_arrays<E: Engine>(
    alloc: Global,
    engine: E,
    original_count: usize,
    recovery_count: usize,
    originals: &[RsShard<'_>],
    recovery: &[RsShard<'_>],
    wanted: &[RsWanted],
    rooms: &mut [&mut [u8]],
) -> Result<(), Fault>
    ensures answer { ReconstructsArrays original_count recovery_count
        (items_of originals.now) (items_of recovery.now) (wanted_of wanted.now)
        (bytes_in rooms.old) (bytes_in rooms.new) result }
    ensures kept { KeepsRooms rooms.old rooms.new }
{
    let answer = reconstruct_wanted(
        alloc,
        engine,
        original_count,
        recovery_count,
        (originals, recovery),
        wanted,
        rooms,
    );
    if let Err(error) = answer {
        return Err(placed_reconstruct_fault(error, originals, recovery, rooms));
    }
    Ok(())
}

// Writes the wanted shards into rooms, in order. Fails with the errors of `reconstruct_into`.
fn reconstruct_wanted<E: Engine>(
    alloc: Global,
    engine: E,
    original_count: usize,
    recovery_count: usize,
    received: (&[RsShard<'_>], &[RsShard<'_>]),
    wanted: &[RsWanted],
    rooms: &mut [&mut [u8]],
) -> Result<(), ReconstructError>
    ensures answer { ReconstructsInto original_count recovery_count
        (items_of received.entry.0.now) (items_of received.entry.1.now) (wanted_of wanted.now)
        (bytes_in rooms.old) (bytes_in rooms.new) result }
    ensures kept { loans_of rooms.new ≡ loans_of rooms.old }
{
    let counts = DefaultRateCounts::new(original_count, recovery_count)?;
    let shards = received_in_arrays(alloc, counts, received.0, received.1)?;
    let names = names_of(alloc, wanted)?;
    reconstruct_received(alloc, &shards, names.as_slice(), engine, rooms)
}

fn names_of(alloc: Global, wanted: &[RsWanted]) -> Result<Vec<ShardIndex>, Error>
    ensures { MatchResult result (λ names. names.items ≡ wanted_of wanted.now)
        (λ e. e ≡ Error.OutOfMemory) }
{
    let mut names: Vec<ShardIndex> = Vec::with_capacity(alloc, wanted.len())?;
    for i in 0..wanted.len() {
        names.push(named(wanted[i].kind, wanted[i].index))?;
    }
    Ok(names)
}

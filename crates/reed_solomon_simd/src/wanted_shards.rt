//! Checks of the shards that a caller wants.
ghost use Rattle.std.specs.Prelude.{◌≡◌, ◌⊎◌, ◌<◌, [], ◌∷◌, false, true, None, is_some, if◌then◌else◌, nat_le, length};
ghost use Rattle.std.specs.Prelude.{List, Ok, Err, OnOk, All, slice_index_or, slice_set, replicate, MatchResult};
ghost use Rattle.reed_solomon_simd.specs.Received.{given_in};
ghost use Rattle.reed_solomon_simd.specs.ReceivedState.{received_state};
ghost use Rattle.reed_solomon_simd.specs.Reconstructed.{wanted_outcome, CanBeRebuilt};
ghost use Rattle.reed_solomon_simd.specs.WantedMarks.{AreMarked};

use crate::received_shards::ReceivedShards;
use crate::reconstruct_error::ReconstructError;
use crate::shard_index::ShardIndex;
use rs_field::error::Error;
use std::alloc::Global;

/// Checks the shards that are wanted, in order.
///
/// # Errors
///
/// - [`ReconstructError::Refused`] with [`Error::OutOfMemory`] if the marks of the shards cannot be allocated.
/// - For each wanted shard in order: [`ReconstructError::WantedIndexTooLarge`], [`ReconstructError::WantedTwice`],
///   [`ReconstructError::WantedReceived`].
pub fn check_wanted(
    alloc: Global,
    received: &ReceivedShards<'_>,
    wanted: &[ShardIndex],
) -> Result<(), ReconstructError>
    ensures answer { (result ≡ wanted_outcome (received_state received.now) [] wanted.now)
        ⊎ (result ≡ Err (ReconstructError.Refused Error.OutOfMemory)) }
    ensures can { OnOk result (All (CanBeRebuilt (received_state received.now)) wanted.now) }
{
    let mut originals = no_marks(alloc, received.counts.original_count)?;
    let mut recovery = no_marks(alloc, received.counts.recovery_count)?;
    mark_all(received, wanted, &mut originals, &mut recovery)
}

pub(crate) fn no_marks(alloc: Global, count: usize) -> Result<Vec<bool>, Error>
    ensures { MatchResult result (λ marks. marks.items ≡ replicate count false)
        (λ e. e ≡ Error.OutOfMemory) }
{
    let marks: Vec<bool> = vec![in alloc; false; count]?;
    Ok(marks)
}

// Marks shards as wanted, in order. Fails with the error of the first shard that cannot be wanted.
fn mark_all(
    received: &ReceivedShards<'_>,
    wanted: &[ShardIndex],
    originals: &mut [bool],
    recovery: &mut [bool],
) -> Result<(), ReconstructError>
    requires originals { length originals.old ≡ received.now.counts.original_count }
    requires recovery { length recovery.old ≡ received.now.counts.recovery_count }
    requires none { AreMarked [] originals.old recovery.old }
    ensures answer { result ≡ wanted_outcome (received_state received.now) [] wanted.now }
    ensures can { OnOk result (All (CanBeRebuilt (received_state received.now)) wanted.now) }
{
    for index in 0..wanted.len() {
        mark(received, wanted[index], originals, recovery)?;
    }
    Ok(())
}

// Marks a shard as wanted. Fails with `WantedIndexTooLarge`, then with `WantedTwice`, and then with `WantedReceived`.
fn mark(
    received: &ReceivedShards<'_>,
    wanted: ShardIndex,
    originals: &mut [bool],
    recovery: &mut [bool],
) -> Result<(), ReconstructError>
    requires originals { length originals.old ≡ received.now.counts.original_count }
    requires recovery { length recovery.old ≡ received.now.counts.recovery_count }
    ensures answer { (before : List ShardIndex) → AreMarked before originals.old recovery.old
        → result ≡ wanted_outcome (received_state received.now) before (wanted ∷ []) }
    ensures marked { (before : List ShardIndex) → AreMarked before originals.old recovery.old
        → OnOk result (AreMarked (wanted ∷ before) originals.new recovery.new) }
    ensures can { OnOk result (CanBeRebuilt (received_state received.now) wanted) }
{
    match wanted {
        ShardIndex::Original(index) => {
            let places = received.originals.shards.as_slice();
            mark_place(wanted, index, places, originals)
        }
        ShardIndex::Recovery(index) => {
            let places = received.recovery.shards.as_slice();
            mark_place(wanted, index, places, recovery)
        }
    }
}

// Marks the place of a shard. Fails as `mark` does.
fn mark_place(
    wanted: ShardIndex,
    index: usize,
    places: &[Option<&[u8]>],
    marks: &mut [bool],
) -> Result<(), ReconstructError>
    requires same { length places.now ≡ length marks.old }
    ensures answer { result
        ≡ (if nat_le (length marks.old) index
        then Err (ReconstructError.WantedIndexTooLarge wanted (length marks.old))
        else if slice_index_or marks.old index false then Err (ReconstructError.WantedTwice wanted)
        else if is_some (given_in places.now index)
        then Err (ReconstructError.WantedReceived wanted) else Ok tt) }
    ensures marked { OnOk result (marks.new ≡ slice_set marks.old index true) }
    ensures inside { OnOk result (index < length marks.old) }
    ensures free { OnOk result (given_in places.now index ≡ None) }
{
    if index >= marks.len() {
        return Err(ReconstructError::WantedIndexTooLarge {
            wanted,
            count: marks.len(),
        });
    }
    if marks[index] {
        return Err(ReconstructError::WantedTwice { wanted });
    }
    if places[index].is_some() {
        return Err(ReconstructError::WantedReceived { wanted });
    }
    marks[index] = true;
    Ok(())
}

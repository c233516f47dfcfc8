//! A message of which one original changes: an update of its recovery shards gives those that an encode would give.
ghost use Rattle.std.specs.Prelude.{◌≡◌, ℕ, ◌/◌, ◌<◌, length, slice_set, OnOk};
ghost use Rattle.rs_field.specs.code.Code.{AreRecovery};
ghost use Rattle.rs_field.specs.code.Column.{shard_at, column};
ghost use Rattle.rs_field.specs.code.OneCall.{default_of};
ghost use Rattle.reed_solomon_simd.specs.Rooms.{shards_of, bytes_in};

use reed_solomon_simd::engine::DefaultEngine;
use reed_solomon_simd::{RoomError, encode_into, update_into};
use rs_field::bytes::{are_bytes, slices_are_bytes};
use std::alloc::Global;

/// Encodes originals into rooms, and updates the rooms after the original with this index has changed to `new`. The
/// rooms then hold the recovery shards of the message in which `new` replaces this original.
///
/// # Errors
///
/// The errors of [`encode_into`], and then those of [`update_into`].
pub fn encode_and_update(
    alloc: Global,
    recovery_count: usize,
    original: &[&[u8]],
    index: usize,
    new: &[u8],
    recovery: &mut [&mut [u8]],
    engine: DefaultEngine<'_>,
) -> Result<(), RoomError>
    requires { index < length original.now }
    ensures { OnOk result (AreRecovery
        (default_of (length original.now) recovery_count
        (length (shard_at (shards_of original.now) index)))
        (slice_set (shards_of original.now) index new.now) (bytes_in recovery.new)) }
{
    slices_are_bytes(original);
    are_bytes(new);
    let count = original.len();
    encode_into(alloc, count, recovery_count, original, recovery, engine)?;
    let old = original[index];
    update_into(
        alloc,
        count,
        recovery_count,
        index,
        old,
        new,
        recovery,
        engine,
    )
}

/// Updates rooms after the original with this index has changed from `old` to `new`, as [`update_into`] does. Where a
/// word of the original did not change, the words of the rooms at the same position are as they were, whatever the
/// rooms held.
///
/// # Errors
///
/// The errors of [`update_into`], in the same order.
pub fn update_any_rooms(
    alloc: Global,
    original_count: usize,
    recovery_count: usize,
    index: usize,
    old: &[u8],
    new: &[u8],
    recovery: &mut [&mut [u8]],
    engine: DefaultEngine<'_>,
) -> Result<(), RoomError>
    ensures { OnOk result ((i j : ℕ) → i < recovery_count
        → j < length (shard_at (bytes_in recovery.old) i) / 2 → column j old.now ≡ column j new.now
        → column j (shard_at (bytes_in recovery.new) i)
        ≡ column j (shard_at (bytes_in recovery.old) i)) }
{
    update_into(
        alloc,
        original_count,
        recovery_count,
        index,
        old,
        new,
        recovery,
        engine,
    )
}

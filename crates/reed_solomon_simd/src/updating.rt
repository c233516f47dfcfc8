//! A function that updates recovery shards if one original changes.
ghost use Rattle.std.specs.Prelude.{◌≡◌, ◌+◌, ◌*◌, ◌/◌, ◌%◌, ℕ, ◌<◌, ◌≤◌, All, length, slice_index, bit_xor};
ghost use Rattle.rs_field.specs.code.Column.{shard_at, column};
ghost use Rattle.rs_field.specs.rows.Changed.{AreChanged};
ghost use Rattle.rs_field.specs.rows.Rows.{byte_symbol};
ghost use Rattle.reed_solomon_simd.specs.Rooms.{bytes_in, loans_of, rests};
ghost use Rattle.reed_solomon_simd.specs.Updated.{UpdatesInto, IsChanged, IsChangedStrip, AddsToStrip};
ghost use Rattle.reed_solomon_simd.specs.Updated.{change_outcome};

use crate::room_chunks::RoomChunks;
use crate::rooms::{check_rooms, rooms_are_bytes};
use crate::{Error, RoomError};
use rs_field::bytes::are_bytes;
use rs_field::engine::{Change, Engine, GfElement, Steps, change_rows};
use rs_rate::rate::DefaultRateCounts;
use rs_rate::rate::changes::{add_to_tail, change_factors};
use std::alloc::Global;

/// Updates recovery shards after one original has changed. The other originals are not needed.
///
/// `index` is the index of the original. `old` is the original before the change, and `new` is the original after it.
/// `recovery` has a room for each recovery shard, in order of index. Before the call, the rooms hold the recovery
/// shards of the message with `old`. After the call, they hold those of the message with `new`.
///
/// The call allocates a number for each recovery shard, and lists with an entry for each row of a decoder. It takes one
/// product for each word of each recovery shard. After an error the rooms hold what they held before the call.
///
/// # Errors
///
/// - As [`RoomError::Refused`], in this order: [`Error::UnsupportedShardCount`]; [`Error::InvalidShardSize`] if the
///   size of `old` is zero or odd; [`Error::InvalidOriginalShardIndex`]; [`Error::DifferentShardSize`] if `new` does
///   not have the size of `old`.
/// - [`RoomError::WrongNumberOfRooms`] if `recovery` does not have `recovery_count` items.
/// - [`RoomError::WrongLength`] for the first room that does not have the size of `old`.
/// - [`Error::OutOfMemory`] as [`RoomError::Refused`] if the factors cannot be allocated.
///
/// # Examples
///
/// Original 1 of three originals changes from `[0, 0]` to `[7, 1]`:
///
/// ```
/// let (mut first, mut second) = ([3, 0], [5, 0]);
/// let mut recovery: Vec<&mut [u8]> = Vec::new(alloc);
/// recovery.push(&mut first)?;
/// recovery.push(&mut second)?;
/// update_into(alloc, 3, 2, 1, &[0, 0], &[7, 1], &mut recovery, engine)?;
/// drop(recovery);
/// // The rooms hold the recovery shards of [2, 0], [7, 1] and [4, 0].
/// assert_eq!(rt; (first, second), ([198, 2], [199, 3]));
/// ```
pub fn update_into<E: Engine>(
    alloc: Global,
    original_count: usize,
    recovery_count: usize,
    index: usize,
    old: &[u8],
    new: &[u8],
    recovery: &mut [&mut [u8]],
    engine: E,
) -> Result<(), RoomError>
    ensures answer { UpdatesInto original_count recovery_count index old.now new.now
        (bytes_in recovery.old) (bytes_in recovery.new) result }
    ensures kept { loans_of recovery.new ≡ loans_of recovery.old }
{
    let counts = DefaultRateCounts::new(original_count, recovery_count)?;
    check_change(counts, index, old.len(), new.len())?;
    check_rooms(recovery_count, old.len(), recovery)?;
    let mut steps = Steps::new();
    let factors = change_factors(alloc, &engine, &mut steps, counts, index)?;
    add_to_all(&engine, &mut steps, recovery, old, new, factors.as_slice());
    Ok(())
}

// Checks the sizes and the index of a change. Fails with `InvalidShardSize`, then with `InvalidOriginalShardIndex`, and
// then with `DifferentShardSize`.
fn check_change(
    counts: DefaultRateCounts,
    index: usize,
    shard_bytes: usize,
    got: usize,
) -> Result<(), Error>
    ensures { result ≡ change_outcome counts.original_count counts.recovery_count
        index shard_bytes got }
{
    let original_count = counts.original_count;
    if shard_bytes == 0 || shard_bytes % 2 == 1 {
        return Err(Error::InvalidShardSize { shard_bytes });
    }
    if index >= original_count {
        return Err(Error::InvalidOriginalShardIndex {
            original_count,
            index,
        });
    }
    if got != shard_bytes {
        return Err(Error::DifferentShardSize { shard_bytes, got });
    }
    Ok(())
}

// Adds the change from `old` to `new` to each recovery shard, times the factor of the shard: to its whole chunks, and
// then to its tail. `factors` has the logarithms of the factors.
fn add_to_all<E: Engine>(
    engine: &E,
    steps: &mut Steps,
    recovery: &mut [&mut [u8]],
    old: &[u8],
    new: &[u8],
    factors: &[GfElement],
)
    requires number { length factors.now ≡ length recovery.old }
    requires some { 0 < length old.now }
    requires same { length new.now ≡ length old.now }
    requires even { length old.now % 2 ≡ 0 }
    requires fit { (i : ℕ) → i < length recovery.old
        → length (shard_at (bytes_in recovery.old) i) ≡ length old.now }
    requires small { (i : ℕ) → i < length recovery.old → slice_index factors.now i < 65535 }
    ensures number { length recovery.new ≡ length recovery.old }
    ensures kept { loans_of recovery.new ≡ loans_of recovery.old }
    ensures changed { (i : ℕ) → i < length recovery.old
        → IsChanged old.now new.now (slice_index factors.now i)
        (shard_at (bytes_in recovery.old) i) (shard_at (bytes_in recovery.new) i) }
{
    let end = old.len() / 64 * 64;
    if end > 0 {
        add_to_chunks(engine, steps, recovery, old, new, factors);
    }
    if end < old.len() {
        add_to_tails(engine, steps, recovery, old, new, factors);
    }
}

// Adds the whole chunks of the change from `old` to `new` to those of each recovery shard, times the factor of the
// shard.
fn add_to_chunks<E: Engine>(
    engine: &E,
    steps: &mut Steps,
    recovery: &mut [&mut [u8]],
    old: &[u8],
    new: &[u8],
    factors: &[GfElement],
)
    requires number { length factors.now ≡ length recovery.old }
    requires some { 64 ≤ length old.now }
    requires same { length new.now ≡ length old.now }
    requires fit { (i : ℕ) → i < length recovery.old
        → length (shard_at (bytes_in recovery.old) i) ≡ length old.now }
    requires small { (i : ℕ) → i < length recovery.old → slice_index factors.now i < 65535 }
    ensures number { length recovery.new ≡ length recovery.old }
    ensures kept { loans_of recovery.new ≡ loans_of recovery.old }
    ensures changed { (i : ℕ) → i < length recovery.old
        → IsChangedStrip 0 (length old.now / 64 * 64) old.now new.now (slice_index factors.now i)
        (shard_at (bytes_in recovery.old) i) (shard_at (bytes_in recovery.new) i) }
{
    let (old, _) = old.as_chunks::<64>();
    let (new, _) = new.as_chunks::<64>();
    change_chunks(engine, steps, recovery, Change { old, new }, factors);
    rooms_are_bytes(recovery);
}

// Adds a change of at least one chunk to the first chunks of each recovery shard, times the factor of the shard.
fn change_chunks<E: Engine>(
    engine: &E,
    steps: &mut Steps,
    recovery: &mut [&mut [u8]],
    change: Change<'_>,
    factors: &[GfElement],
)
    requires number { length factors.now ≡ length recovery.old }
    requires some { 0 < length change.old.now }
    requires room { All (λ room. length change.old.now * 64 ≤ length room) (bytes_in recovery.old) }
    ensures kept { loans_of recovery.new ≡ loans_of recovery.old }
    ensures rest { rests (length change.entry.old.now) recovery.new
        ≡ rests (length change.entry.old.now) recovery.old }
    ensures words { AreChanged change.entry factors.now
        (λ k s i. byte_symbol (shard_at (bytes_in recovery.old) i) k s)
        (λ k s i. byte_symbol (shard_at (bytes_in recovery.new) i) k s) }
{
    let count = change.old.len();
    let mut rooms = RoomChunks {
        rooms: recovery,
        count,
    };
    change_rows(engine, steps, &mut rooms, change, factors);
}

// Adds the tail of the change from `old` to `new` to the tail of each recovery shard, times the factor of the shard.
fn add_to_tails<E: Engine>(
    engine: &E,
    steps: &mut Steps,
    recovery: &mut [&mut [u8]],
    old: &[u8],
    new: &[u8],
    factors: &[GfElement],
)
    requires number { length factors.now ≡ length recovery.old }
    requires same { length new.now ≡ length old.now }
    requires even { length old.now % 2 ≡ 0 }
    requires fit { (i : ℕ) → i < length recovery.old
        → length (shard_at (bytes_in recovery.old) i) ≡ length old.now }
    requires small { (i : ℕ) → i < length recovery.old → slice_index factors.now i < 65535 }
    ensures number { length recovery.new ≡ length recovery.old }
    ensures kept { loans_of recovery.new ≡ loans_of recovery.old }
    ensures changed { (i : ℕ) → i < length recovery.old
        → IsChangedStrip (length old.now / 64 * 64) (length old.now) old.now new.now
        (slice_index factors.now i)
        (shard_at (bytes_in recovery.old) i) (shard_at (bytes_in recovery.new) i) }
{
    let end = old.len();
    let start = end / 64 * 64;
    let mut room = [0; 64];
    let change = &mut room[..end - start];
    put_change(change, &old[start..end], &new[start..end]);
    for i in 0..recovery.len() {
        add_to_rest(engine, steps, recovery[i], change, start, factors[i]);
    }
}

// Adds a change of less than a chunk to a recovery shard from byte `start` on, times a factor. `log_m` is the logarithm
// of the factor.
fn add_to_rest<E: Engine>(
    engine: &E,
    steps: &mut Steps,
    shard: &mut [u8],
    change: &[u8],
    start: usize,
    log_m: GfElement,
)
    requires inside { start + length change.now ≡ length shard.old }
    requires short { length change.now < 64 }
    requires even { length change.now % 2 ≡ 0 }
    requires factor { log_m < 65535 }
    ensures { AddsToStrip start (start + length change.now) change.now log_m shard.old shard.new }
{
    let end = start + change.len();
    add_to_tail(engine, steps, &mut shard[start..end], change, log_m);
    are_bytes(shard);
}

// Writes the XOR of two pieces, word by word, into a room of their size.
fn put_change(change: &mut [u8], old: &[u8], new: &[u8])
    requires old { length old.now ≡ length change.old }
    requires new { length new.now ≡ length change.old }
    ensures length { length change.new ≡ length change.old }
    ensures words { (j : ℕ) → j < length change.old / 2
        → column j change.new ≡ bit_xor (column j old.now) (column j new.now) }
{
    are_bytes(old);
    are_bytes(new);
    for i in 0..change.len() {
        change[i] = old[i] ^ new[i];
    }
}

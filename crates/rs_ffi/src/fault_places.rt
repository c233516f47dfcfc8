//! The places of shards and rooms in arrays, for faults that name them.
ghost use Rattle.std.specs.Prelude.{◌≡◌, ◌+◌, ◌^◌, ◌<◌, ◌≤◌, ◌++◌, length, map};
ghost use Rattle.rs_ffi.specs.Arrays.{bytes_in};
ghost use Rattle.rs_ffi.specs.Places.{place_of_other, placed, placed_reconstruct};

use crate::fault::Fault;
use crate::layouts::RsShard;
use reed_solomon_simd::{ReconstructError, RoomError};
use rs_field::error::Error;

/// An entry of an array: a shard, or a room for one.
pub trait Entry {
    ghost use Rattle.std.specs.Prelude.{◌≡◌, length};
    ghost use Rattle.rs_field.specs.code.Column.{Shard};

    /// The bytes of the entry.
    ghost bytes: { Self → Shard };

    /// Returns the number of bytes of the entry.
    fn byte_count(&self) -> usize
        ensures { result ≡ length (bytes self.now) };
}

impl Entry for &[u8] {
    ghost bytes = { λ shard. shard.now };

    fn byte_count(&self) -> usize {
        self.len()
    }
}

impl Entry for &mut [u8] {
    ghost bytes = { λ room. room.now };

    fn byte_count(&self) -> usize {
        self.len()
    }
}

impl Entry for RsShard<'_> {
    ghost bytes = { λ shard. shard.bytes.now };

    fn byte_count(&self) -> usize {
        self.bytes.len()
    }
}

/// Returns the fault of an error of a call over arrays. `first` and `second` are the arrays of shards, in the order in
/// which the call checks them. `rooms` is the array of rooms.
pub fn placed_fault<T: Entry>(
    error: RoomError,
    first: &[T],
    second: &[T],
    rooms: &[&mut [u8]],
) -> Fault
    requires few { length first.now + length second.now < 2 ^ 64 }
    ensures { result
        ≡ placed (map T.bytes first.now ++ map T.bytes second.now) (bytes_in rooms.now) error }
{
    match error {
        RoomError::Refused(Error::DifferentShardSize { shard_bytes, got }) => {
            Fault::DifferentShardSize {
                shard_bytes,
                got,
                place: find_in_both(first, second, shard_bytes),
            }
        }
        RoomError::Refused(refusal) => Fault::Refused(refusal),
        RoomError::WrongNumberOfRooms { wanted, got } => Fault::WrongNumberOfRooms { wanted, got },
        RoomError::WrongLength { wanted, got } => Fault::WrongLength {
            wanted,
            got,
            place: find_other(rooms, wanted),
        },
    }
}

/// Returns the fault of an error of a call that reconstructs wanted shards. `first` and `second` are the arrays of
/// received shards, in the order in which the call checks them. `rooms` is the array of rooms.
pub fn placed_reconstruct_fault<T: Entry>(
    error: ReconstructError,
    first: &[T],
    second: &[T],
    rooms: &[&mut [u8]],
) -> Fault
    requires few { length first.now + length second.now < 2 ^ 64 }
    ensures { result ≡ placed_reconstruct
        (map T.bytes first.now ++ map T.bytes second.now) (bytes_in rooms.now) error }
{
    let other = match error {
        ReconstructError::WantedIndexTooLarge { wanted, count } => {
            return Fault::WantedIndexTooLarge { wanted, count };
        }
        ReconstructError::WantedTwice { wanted } => return Fault::WantedTwice { wanted },
        ReconstructError::WantedReceived { wanted } => return Fault::WantedReceived { wanted },
        ReconstructError::Refused(refusal) => RoomError::Refused(refusal),
        ReconstructError::WrongNumberOfRooms { wanted, got } => {
            RoomError::WrongNumberOfRooms { wanted, got }
        }
        ReconstructError::WrongLength { wanted, got } => RoomError::WrongLength { wanted, got },
    };
    placed_fault(other, first, second, rooms)
}

// Returns the place of the first entry of two arrays that does not have this size. The places of the second array come
// after those of the first one.
fn find_in_both<T: Entry>(first: &[T], second: &[T], size: usize) -> usize
    requires few { length first.now + length second.now < 2 ^ 64 }
    ensures { result
        ≡ place_of_other size (map T.bytes first.now ++ map T.bytes second.now) }
{
    let place = find_other(first, size);
    if place < first.len() {
        return place;
    }
    place + find_other(second, size)
}

// Returns the place of the first entry that does not have this size, or the number of entries if all have it.
fn find_other<T: Entry>(entries: &[T], size: usize) -> usize
    ensures place { result ≡ place_of_other size (map T.bytes entries.now) }
    ensures inside { result ≤ length entries.now }
{
    for place in 0..entries.len() {
        if entries[place].byte_count() != size {
            return place;
        }
    }
    entries.len()
}

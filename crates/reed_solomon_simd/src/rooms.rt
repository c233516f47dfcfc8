//! Rooms: memory that shards are written into, strip by strip.
ghost use Rattle.std.specs.Prelude.{◌≡◌, ◌+◌, ◌<◌, ◌≤◌, ◌++◌, List, All, OnOk, length, take, drop};
ghost use Rattle.rs_field.specs.code.Column.{Shard};
ghost use Rattle.reed_solomon_simd.specs.Into.{rooms_fit};
ghost use Rattle.reed_solomon_simd.specs.Rooms.{bytes_in};

use crate::room_error::RoomError;
use rs_field::bytes::are_bytes;
use rs_field::error::Error;

/// Rooms for shards: each room is memory for one shard. A shard is written strip by strip, in order.
pub trait Rooms {
    ghost use Rattle.std.specs.Prelude.{◌≡◌, ◌≢◌, ℕ, Bool, true, List, [], ◌++◌, ◌<◌, ◌≤◌, ◌+◌, length, take, drop};
    ghost use Rattle.std.specs.Prelude.{Err, OnOk, OnErr, slice_index_or};
    ghost use Rattle.rs_field.specs.code.Column.{Shard};
    ghost use Rattle.rs_field.specs.code.Pieces.{room_length};

    /// The bytes that each room holds.
    ghost held: { Self → List Shard };

    /// Whether a room grows with each strip. Otherwise it is as long as its shard from the start.
    ghost grows: { Bool };

    /// The type of the places of rooms.
    ghost Places: { Type 0 };

    /// The places of the rooms in memory.
    ghost places: { Self → Places };

    /// The loan by which the rooms are held, or 0 if they are not lent.
    ghost loan: { Self → ℕ };

    /// Writes a strip into the room with this index, after the first `start` bytes.
    ///
    /// # Errors
    ///
    /// [`Error::OutOfMemory`] if the room cannot grow.
    fn put(&mut self, index: usize, start: usize, piece: &[u8]) -> Result<(), Error>
        requires room { index < length (held self.old) }
        requires fits { (size : ℕ) × (start + length piece.now ≤ size)
            × (length (slice_index_or (held self.old) index []) ≡ room_length grows start size) }
        ensures number { length (held self.new) ≡ length (held self.old) }
        ensures here { OnOk result (slice_index_or (held self.new) index []
            ≡ take start (slice_index_or (held self.old) index [])
            ++ (piece.now
            ++ drop (start + length piece.now) (slice_index_or (held self.old) index []))) }
        ensures others { (i : ℕ) → i ≢ index
            → slice_index_or (held self.new) i [] ≡ slice_index_or (held self.old) i [] }
        ensures refused { OnErr result ((grows ≡ true) × (result ≡ Err Error.OutOfMemory)) }
        ensures places { places self.new ≡ places self.old }
        ensures loan { loan self.new ≡ loan self.old };
}

/// Rooms that are vectors, and grow with each strip.
impl Rooms for Vec<Vec<u8>> {
    ghost use Rattle.std.specs.Prelude.{map, true, ⊤};

    ghost held = { λ rooms. map (λ room. room.items) rooms.items };

    ghost grows = { true };

    ghost Places = { ⊤ };

    ghost places = { λ _. tt };

    ghost loan = { λ _. 0 };

    fn put(&mut self, index: usize, start: usize, piece: &[u8]) -> Result<(), Error> {
        self[index].extend_from_slice(piece)?;
        Ok(())
    }
}

/// Rooms that are slices of the caller's memory. Each slice is as long as its shard.
#[derive(Drop)]
pub struct LentRooms<'a, 'b> {
    /// The slices, one for each shard.
    pub rooms: &'a mut [&'b mut [u8]],
}

impl<'a, 'b> Rooms for LentRooms<'a, 'b> {
    ghost use Rattle.std.specs.Prelude.{ℕ, false, List};
    ghost use Rattle.reed_solomon_simd.specs.Rooms.{bytes_in, loans_of};

    ghost held = { λ x. bytes_in x.rooms.now };

    ghost grows = { false };

    ghost Places = { List ((ℕ × ℕ) × ℕ) };

    ghost places = { λ x. loans_of x.rooms.now };

    ghost loan = { λ x. x.rooms.ghost_name };

    fn put(&mut self, index: usize, start: usize, piece: &[u8]) -> Result<(), Error> {
        put(self.rooms[index], start, piece);
        Ok(())
    }
}

// Writes a strip into a room, after the first `start` bytes.
fn put(room: &mut [u8], start: usize, piece: &[u8])
    requires { start + length piece.now ≤ length room.old }
    ensures { room.new
        ≡ take start room.old ++ (piece.now ++ drop (start + length piece.now) room.old) }
{
    let end = start + piece.len();
    room[start..end].copy_from_slice(piece);
}

/// Checks that there are `count` rooms of `shard_bytes` bytes each.
///
/// # Errors
///
/// - [`RoomError::WrongNumberOfRooms`] if there are more or fewer rooms.
/// - [`RoomError::WrongLength`] for the first room of another size.
pub fn check_rooms(count: usize, shard_bytes: usize, rooms: &[&mut [u8]]) -> Result<(), RoomError>
    ensures answer { (shards : List Shard) → length shards ≡ count
        → All (λ shard. length shard ≡ shard_bytes) shards
        → result ≡ rooms_fit shards (bytes_in rooms.now) }
    ensures number { OnOk result (length rooms.now ≡ count) }
    ensures fit { OnOk result (All (λ room. length room ≡ shard_bytes) (bytes_in rooms.now)) }
{
    if rooms.len() != count {
        return Err(RoomError::WrongNumberOfRooms {
            wanted: count,
            got: rooms.len(),
        });
    }
    for index in 0..rooms.len() {
        if rooms[index].len() != shard_bytes {
            return Err(RoomError::WrongLength {
                wanted: shard_bytes,
                got: rooms[index].len(),
            });
        }
    }
    Ok(())
}

/// Guarantees that every byte of each room is below 256.
pub(crate) fn rooms_are_bytes(rooms: &mut [&mut [u8]])
    ensures bytes { All (All (λ b. b < 256)) (bytes_in rooms.new) }
    ensures kept { rooms.new ≡ rooms.old }
{
    for i in 0..rooms.len() {
        room_is_bytes(rooms[i]);
    }
}

// Guarantees that every byte of a room is below 256.
fn room_is_bytes(room: &mut [u8])
    ensures bytes { All (λ b. b < 256) room.new }
    ensures same { room.new ≡ room.old }
{
    are_bytes(room);
}

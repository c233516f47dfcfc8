//! Rooms for shards that are the parts of a buffer, one after the other.
ghost use Rattle.std.specs.Prelude.{◌≡◌, ◌+◌, ◌*◌, ◌≤◌, ◌++◌, length, take, drop};

use reed_solomon_simd::Error;
use reed_solomon_simd::ffi::Rooms;

/// Rooms of one size, one after the other in a buffer.
#[derive(Drop)]
pub struct BufferRooms<'a> {
    /// The number of rooms.
    pub count: usize,
    /// The size of each room, in bytes.
    pub size: usize,
    /// The buffer.
    pub bytes: &'a mut [u8],
}

impl Rooms for BufferRooms<'_> {
    ghost use Rattle.std.specs.Prelude.{ℕ, false, length};
    ghost use Rattle.rs_ffi.specs.Buffers.{shards_in_buffer};

    ghost held = { λ x. shards_in_buffer x.count x.size x.bytes.now };

    ghost grows = { false };

    ghost Places = { ℕ × ℕ × ℕ };

    ghost places = { λ x. (x.count, x.size, length x.bytes.now) };

    ghost loan = { λ x. x.bytes.ghost_name };

    fn put(&mut self, index: usize, start: usize, piece: &[u8]) -> Result<(), Error> {
        if !piece.is_empty() {
            put(self.bytes, index, self.size, start, piece);
        }
        Ok(())
    }
}

/// Writes a piece of a shard into the place with this index of a buffer, after the first `start` bytes of the place.
/// Each place has `size` bytes.
pub fn put(buffer: &mut [u8], index: usize, size: usize, start: usize, piece: &[u8])
    requires { index * size + start + length piece.now ≤ length buffer.old }
    ensures { buffer.new ≡ take (index * size + start) buffer.old
        ++ (piece.now ++ drop (index * size + start + length piece.now) buffer.old) }
{
    let at = index * size + start;
    let end = at + piece.len();
    buffer[at..end].copy_from_slice(piece);
}

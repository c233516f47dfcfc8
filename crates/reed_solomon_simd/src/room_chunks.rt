//! The first chunks of rooms, which are changed in place.
ghost use Rattle.std.specs.Prelude.{◌≡◌, ◌≤◌, ◌<◌, ◌+◌, ◌*◌, ℕ, length};
ghost use Rattle.rs_field.specs.rows.Rows.{byte_symbol, symbol};

use rs_field::engine::ChangeRows;
use rs_field::engine::byte_chunks::{chunk_at, put_chunk};

/// The first chunks of rooms, as rows that are changed in place.
#[derive(Drop)]
pub(crate) struct RoomChunks<'a, 'b> {
    /// The rooms.
    pub(crate) rooms: &'a mut [&'b mut [u8]],
    /// The number of chunks of each room.
    pub(crate) count: usize,
}

impl<'a, 'b> ChangeRows for RoomChunks<'a, 'b> {
    ghost use Rattle.std.specs.Prelude.{ℕ, [], ◌+◌, ◌*◌, ◌<◌, ◌≤◌, length, slice_index_or};
    ghost use Rattle.rs_field.specs.code.Column.{shard_at};
    ghost use Rattle.rs_field.specs.rows.Rows.{byte_symbol};
    ghost use Rattle.reed_solomon_simd.specs.Rooms.{Kept, bytes_in, kept_of};

    ghost Kept = { Kept };

    ghost kept = { λ x. kept_of x.count x.rooms };

    ghost has = { λ kept i k. (i < length kept.1) × (k < kept.0.2)
        × (k * 64 + 64 ≤ (slice_index_or kept.2 i (0, [])).0) };

    ghost word = { λ x k s i. byte_symbol (shard_at (bytes_in x.rooms.now) i) k s };

    #[inline(always)]
    fn chunk(&mut self, row: usize, k: usize) -> [u8; 64] {
        chunk_of_room(self.rooms[row], k)
    }

    #[inline(always)]
    fn put_chunk(&mut self, row: usize, k: usize, chunk: &[u8; 64]) {
        put_chunk(self.rooms[row], k, chunk);
    }
}

#[inline(always)]
fn chunk_of_room(room: &mut [u8], k: usize) -> [u8; 64]
    requires { k * 64 + 64 ≤ length room.old }
    ensures value { (s : ℕ) → s < 32 → symbol result s ≡ byte_symbol room.old k s }
    ensures same { room.new ≡ room.old }
{
    chunk_at(room, k)
}

//! The originals of a message. An encode reads them piece by piece. A piece is a range of the bytes of a shard.
ghost use Rattle.std.specs.Prelude.{◌≡◌, ◌<◌, ◌≤◌, [], length, slice_index_or};
ghost use Rattle.std.specs.List.{between};
ghost use Rattle.reed_solomon_simd.specs.Rooms.{shards_of};

use crate::pieces::piece_of;

/// The originals of a message, in order.
pub trait Originals {
    ghost use Rattle.std.specs.Prelude.{◌≡◌, ◌<◌, ◌≤◌, List, [], length, slice_index_or};
    ghost use Rattle.std.specs.List.{between};
    ghost use Rattle.rs_field.specs.code.Column.{Shard};

    /// The bytes of each original.
    ghost shards: { Self → List Shard };

    /// Returns the bytes of an original from byte `start` up to, but not including, byte `end`.
    fn piece(&self, index: usize, start: usize, end: usize) -> &[u8]
        requires index { index < length (shards self.now) }
        requires order { start ≤ end }
        requires inside { end ≤ length (slice_index_or (shards self.now) index []) }
        ensures { result.now ≡ between start end (slice_index_or (shards self.now) index []) };
}

/// Originals that are slices of the caller's memory.
#[derive(Clone, Copy)]
pub struct LentShards<'a, 'b> {
    /// The slices, one for each original.
    pub shards: &'a [&'b [u8]],
}

impl<'a, 'b> Originals for LentShards<'a, 'b> {
    ghost shards = { λ x. shards_of x.shards.now };

    fn piece(&self, index: usize, start: usize, end: usize) -> &[u8] {
        piece_of(self.shards[index], start, end)
    }
}

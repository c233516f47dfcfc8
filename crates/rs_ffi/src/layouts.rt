//! The two ways in which shards lie in memory, one after the other in a buffer or anywhere, and their names.
ghost use Rattle.std.specs.Prelude.{◌≡◌, ◌*◌, length};
ghost use Rattle.rs_ffi.specs.Buffers.{shards_in_buffer};
ghost use Rattle.rs_ffi.specs.Faults.{named};

use reed_solomon_simd::ShardIndex;
use reed_solomon_simd::ffi::{Originals, piece_of};

/// The shards of a buffer, which lie one after the other.
#[derive(Clone, Copy)]
pub struct BufferShards<'a> {
    /// The number of shards.
    pub count: usize,
    /// The size of each shard, in bytes.
    pub size: usize,
    /// The bytes of the shards.
    pub bytes: &'a [u8],
    pub ghost whole: { length bytes.now ≡ count * size },
}

impl<'a> Originals for BufferShards<'a> {
    ghost shards = { λ x. shards_in_buffer x.count x.size x.bytes.now };

    fn piece(&self, index: usize, start: usize, end: usize) -> &[u8] {
        let at = index * self.size;
        piece_of(&self.bytes[at..at + self.size], start, end)
    }
}

/// A shard anywhere in memory, with its index. It is `struct rs_shard` of the header.
#[repr(C)]
#[derive(Clone, Copy, Debug, PartialEq, Eq, Hash)]
pub struct RsShard<'a> {
    /// The index of the shard. Originals and recovery shards have indexes of their own, which both begin at 0.
    pub index: usize,
    /// The bytes of the shard.
    pub bytes: &'a [u8],
}

/// The name of a wanted shard. It is `struct rs_wanted` of the header.
#[repr(C)]
#[derive(Clone, Copy, Debug, PartialEq, Eq, Hash)]
pub struct RsWanted {
    /// 0 for an original, and any other number for a recovery shard.
    pub kind: usize,
    /// The index of the shard among the shards of its kind.
    pub index: usize,
}

/// Returns the name of a shard with this index. The kind is 0 for an original, and any other number for a recovery
/// shard.
pub fn named(kind: usize, index: usize) -> ShardIndex
    ensures { result ≡ named kind index }
{
    if kind == 0 {
        return ShardIndex::Original(index);
    }
    ShardIndex::Recovery(index)
}

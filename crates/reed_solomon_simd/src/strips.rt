//! The loop over the strips of shards. A strip is the bytes of each shard from one byte up to another. The work for one
//! strip stays in the cache.
ghost use Rattle.std.specs.Prelude.{◌≡◌, ◌%◌, ◌<◌, length, min};
ghost use Rattle.reed_solomon_simd.specs.Making.{CanMake, AreRooms, Makes};

use crate::store::Store;
use rs_field::error::Error;

/// A way of making a strip of the wanted shards from a strip of the received shards.
pub trait Way {
    ghost use Rattle.std.specs.Prelude.{◌≡◌, ◌-◌, ◌<◌, ◌≤◌, ℕ, List, OnOk, length};
    ghost use Rattle.rs_field.specs.code.Decoder.{DecoderState};
    ghost use Rattle.rs_field.specs.code.Pieces.{IsStrip};
    ghost use Rattle.reed_solomon_simd.specs.declared.shard_index.ShardIndex.{ShardIndex};
    ghost use Rattle.reed_solomon_simd.specs.Making.{CanMake, AreRooms, MakesStrip};

    /// The names of the wanted shards of a message of which shards were received, in the order of the rooms.
    ghost wanted: { Self → DecoderState → List ShardIndex };

    /// States that strips of at most this number of bytes of the received shards can be made.
    ghost ready: { Self → DecoderState → ℕ → Type 0 };

    /// Makes the strip from byte `start` up to, but not including, byte `end` of each wanted shard, and writes it into
    /// the rooms of the store.
    ///
    /// # Errors
    ///
    /// [`Error::InconsistentShards`] if no message agrees with the strip of the received shards, and then
    /// [`Error::OutOfMemory`] if a room cannot grow.
    fn strip<S: Store>(&mut self, start: usize, end: usize, store: &mut S) -> Result<(), Error>
        requires ready { (n : ℕ) × (end - start ≤ n) × ready self.old (S.received store.old) n }
        requires can { CanMake (S.received store.old) (wanted self.old (S.received store.old)) }
        requires strip { IsStrip start end (S.received store.old).configuration.shard_bytes }
        requires some { start < end }
        requires rooms { AreRooms S.grows start (S.received store.old).configuration.shard_bytes
            (length (wanted self.old (S.received store.old))) (S.held store.old) }
        ensures made { MakesStrip S.grows (S.received store.old)
            (wanted self.old (S.received store.old)) start end (S.held store.old) (S.held store.new)
            result }
        ensures wanted { (s : DecoderState) → wanted self.new s ≡ wanted self.old s }
        ensures ready { OnOk result (ready self.new (S.received store.old) (end - start)) }
        ensures places { S.places store.new ≡ S.places store.old }
        ensures loan { S.loan store.new ≡ S.loan store.old };
}

/// Makes the wanted shards in strips of at most `most` bytes, and writes them into the rooms of the store.
///
/// # Errors
///
/// For each strip in order: [`Error::InconsistentShards`] if no message agrees with all received shards, and then
/// [`Error::OutOfMemory`] if a room cannot grow. The rooms may then hold some strips.
pub fn make_strips<W: Way, S: Store>(most: usize, way: &mut W, store: &mut S) -> Result<(), Error>
    requires chunks { most % 64 ≡ 0 }
    requires some { 0 < most }
    requires ready { W.ready way.old (S.received store.old)
        (min most (S.received store.old).configuration.shard_bytes) }
    requires can { CanMake (S.received store.old) (W.wanted way.old (S.received store.old)) }
    requires rooms { AreRooms S.grows 0 (S.received store.old).configuration.shard_bytes
        (length (W.wanted way.old (S.received store.old))) (S.held store.old) }
    ensures made { Makes S.grows (S.received store.old) (W.wanted way.old (S.received store.old))
        (S.held store.old) (S.held store.new) result }
    ensures places { S.places store.new ≡ S.places store.old }
    ensures loan { S.loan store.new ≡ S.loan store.old }
{
    let shard_bytes = store.shard_bytes();
    let width = most.min(shard_bytes);
    let mut start = 0;
    while start < shard_bytes {
        let end = start + width.min(shard_bytes - start);
        way.strip(start, end, store)?;
        start = end;
    }
    Ok(())
}

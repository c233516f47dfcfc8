//! Writes wanted shards, which are direct sums, into rooms. Up to four sums are made at a time, so that each piece of
//! the base is read once for all of them.
ghost use Rattle.std.specs.Prelude.{◌≡◌, ℕ, ◌*◌, ◌+◌, ◌-◌, ◌<◌, ◌≤◌, true, All, List, [], length};
ghost use Rattle.std.specs.Prelude.{min, slice_index, slice_index_or, OnOk, IfErr};
ghost use Rattle.rs_field.specs.code.Column.{Shard};
ghost use Rattle.rs_field.specs.code.Decoder.{IsConsistent};
ghost use Rattle.rs_field.specs.code.Pieces.{IsStrip, ArePut, room_length};
ghost use Rattle.rs_field.specs.code.PieceStates.{state_of_pieces};
ghost use Rattle.reed_solomon_simd.specs.Making.{CanMake, AreRooms, MakesStrip};
ghost use Rattle.reed_solomon_simd.specs.Reconstructed.{AreReconstructed};
ghost use Rattle.reed_solomon_simd.specs.StripSums.{HasSums, ArePutFrom, sum_stride, sum_at, chunks_of_sums};

use crate::pieces::{Pieces, inconsistent};
use crate::shard_index::ShardIndex;
use crate::store::Store;
use rs_field::engine::layout::row_len;
use rs_field::engine::{Engine, Steps, Writing};
use rs_field::error::Error;
use rs_rate::rate::base_sums::{BasePieces, BaseSums, write_base_sums};
use rs_rate::rate::sums::{finish_sums, summed_piece};
use std::ops::Range;

/// The most sums that are made at a time.
pub(crate) const MOST_SUMS: usize = 4;

/// Returns the number of chunks from the beginning of one sum of pieces to that of the next, for pieces of this size:
/// the least odd multiple of four that is enough. Some processors delay a load after a store whose address differs by a
/// multiple of 4096. At this distance, four sums never have chunks with the same index that far apart.
pub(crate) fn sum_stride(piece_len: usize) -> usize
    ensures { result ≡ sum_stride piece_len }
{
    (row_len(piece_len) + 3) / 8 * 8 + 4
}

/// Makes sums over pieces of a base. Their bytes are lent by [`sum_at`].
pub(crate) fn make_sums<E: Engine, B: BasePieces>(
    engine: &E,
    sums: &BaseSums<'_, '_, B>,
    x: &mut [[u8; 64]],
)
    requires { length x.old ≡ length sums.now.rows.now * sum_stride sums.now.piece_len }
    ensures { (d : ℕ) → d < length sums.now.rows.now
        → HasSums sums.now.base.now (B.word sums.now.pieces.now) sums.now.piece_len
        (slice_index sums.now.rows.now d) (sum_at x.new sums.now.piece_len d) }
{
    let stride = sum_stride(sums.piece_len);
    write_base_sums(
        engine,
        &mut Steps::new(),
        x,
        stride,
        sums,
        Writing::Replacing,
    );
    finish_sums(x, sums.rows.len(), stride, sums.piece_len);
}

/// Lends the bytes of the sum with this index.
pub(crate) fn sum_at(x: &[[u8; 64]], piece_len: usize, index: usize) -> &[u8]
    requires { (index + 1) * sum_stride piece_len ≤ length x.now }
    ensures { result.now ≡ sum_at x.now piece_len index }
{
    summed_piece(x, index * sum_stride(piece_len), piece_len)
}

/// Sums over a strip of received shards that are pieces of wanted shards.
pub(crate) trait StripSums {
    ghost use Rattle.std.specs.Prelude.{◌≡◌, ◌↔◌, ℕ, ◌*◌, ◌-◌, ◌<◌, ◌≤◌, All, IsTrue, length, slice_index_or};
    ghost use Rattle.rs_field.specs.code.Decoder.{DecoderState, IsConsistent};
    ghost use Rattle.rs_field.specs.code.PieceStates.{state_of_pieces};
    ghost use Rattle.reed_solomon_simd.specs.declared.shard_index.ShardIndex.{ShardIndex};
    ghost use Rattle.reed_solomon_simd.specs.declared.shard_index.ShardIndex.TheVariants.{Original};
    ghost use Rattle.reed_solomon_simd.specs.StripSums.{IsPieceOf, sum_stride, sum_at};

    /// States that the sums over the strip from one byte up to another can be made.
    ghost ready: { Self → DecoderState → ℕ → ℕ → Type 0 };

    /// States that the sums over the base give the piece of this shard.
    ghost can: { Self → DecoderState → ShardIndex → Type 0 };

    /// Returns whether some message agrees with the strip of all received shards. The sums are made in `x`.
    fn agree_in_strip<P: Pieces>(
        &self,
        received: &P,
        start: usize,
        end: usize,
        x: &mut [[u8; 64]],
    ) -> bool
        requires ready { ready self.now (P.received received.now) start end }
        requires room { length x.old ≡ sum_stride (end - start) }
        ensures { IsTrue result
            ↔ IsConsistent (state_of_pieces start end (P.received received.now)) };

    /// Makes the pieces of up to four wanted shards. Their bytes are lent by [`sum_at`].
    fn sum_pieces<P: Pieces>(
        &self,
        received: &P,
        wanted: &[ShardIndex],
        start: usize,
        end: usize,
        x: &mut [[u8; 64]],
    )
        requires ready { ready self.now (P.received received.now) start end }
        requires can { All (can self.now (P.received received.now)) wanted.now }
        requires few { length wanted.now ≤ 4 }
        requires room { length x.old ≡ length wanted.now * sum_stride (end - start) }
        ensures { (d : ℕ) → d < length wanted.now
            → IsPieceOf (P.received received.now) start end
            (slice_index_or wanted.now d (Original 0))
            (sum_at x.new (end - start) d) };
}

/// Makes a strip of the wanted shards, and writes it into the rooms of the store. The sums are made in `x`.
///
/// # Errors
///
/// [`Error::InconsistentShards`] if no message agrees with the strip of the received shards, and then
/// [`Error::OutOfMemory`] if a room cannot grow.
pub(crate) fn sum_strip<M: StripSums, S: Store>(
    sums: &M,
    wanted: &[ShardIndex],
    start: usize,
    end: usize,
    x: &mut [[u8; 64]],
    store: &mut S,
) -> Result<(), Error>
    requires ready { M.ready sums.now (S.received store.old) start end }
    requires memory { chunks_of_sums (length wanted.now) (end - start) ≤ length x.old }
    requires can { CanMake (S.received store.old) wanted.now }
    requires sums { All (M.can sums.now (S.received store.old)) wanted.now }
    requires strip { IsStrip start end (S.received store.old).configuration.shard_bytes }
    requires rooms { AreRooms S.grows start (S.received store.old).configuration.shard_bytes
        (length wanted.now) (S.held store.old) }
    ensures made { MakesStrip S.grows (S.received store.old) wanted.now start end
        (S.held store.old) (S.held store.new) result }
    ensures places { S.places store.new ≡ S.places store.old }
    ensures loan { S.loan store.new ≡ S.loan store.old }
{
    let len = sum_stride(end - start);
    if !sums.agree_in_strip(&*store, start, end, &mut x[..len]) {
        return Err(inconsistent(&*store));
    }
    put_sums(sums, wanted, start, end, x, store)
}

// Writes the piece of each wanted shard into its room, after the first `start` bytes. The sums are made in `x`. Fails
// with `OutOfMemory` if a room cannot grow.
fn put_sums<M: StripSums, S: Store>(
    sums: &M,
    wanted: &[ShardIndex],
    start: usize,
    end: usize,
    x: &mut [[u8; 64]],
    store: &mut S,
) -> Result<(), Error>
    requires ready { M.ready sums.now (S.received store.old) start end }
    requires memory { min 4 (length wanted.now) * sum_stride (end - start) ≤ length x.old }
    requires can { CanMake (S.received store.old) wanted.now }
    requires sums { All (M.can sums.now (S.received store.old)) wanted.now }
    requires strip { IsStrip start end (S.received store.old).configuration.shard_bytes }
    requires consistent { IsConsistent (state_of_pieces start end (S.received store.old)) }
    requires rooms { AreRooms S.grows start (S.received store.old).configuration.shard_bytes
        (length wanted.now) (S.held store.old) }
    ensures put { OnOk result ((made : List Shard)
        × AreReconstructed (state_of_pieces start end (S.received store.old)) wanted.now made
        × ArePut start end made (S.held store.old) (S.held store.new)) }
    ensures refused { IfErr result (λ e. (S.grows ≡ true) × (e ≡ Error.OutOfMemory)) }
    ensures places { S.places store.new ≡ S.places store.old }
    ensures loan { S.loan store.new ≡ S.loan store.old }
{
    let len = sum_stride(end - start);
    let mut at = 0;
    while at < wanted.len() {
        let next = wanted.len().min(at + MOST_SUMS);
        let group = &wanted[at..next];
        let made = &mut x[..group.len() * len];
        sums.sum_pieces(&*store, group, start, end, made);
        put_group(made, at..next, start, end - start, store)?;
        at = next;
    }
    Ok(())
}

// Writes sums that are pieces into the rooms with these indexes, after the first `start` bytes.
fn put_group<S: Store>(
    x: &[[u8; 64]],
    indexes: Range<usize>,
    start: usize,
    piece_len: usize,
    store: &mut S,
) -> Result<(), Error>
    requires order { indexes.start ≤ indexes.end }
    requires pieces { (indexes.end - indexes.start) * sum_stride piece_len ≤ length x.now }
    requires rooms { (size : ℕ) × (start + piece_len ≤ size)
        × ((i : ℕ) → indexes.start ≤ i → i < indexes.end
        → length (slice_index_or (S.held store.old) i []) ≡ room_length S.grows start size) }
    requires inside { indexes.end ≤ length (S.held store.old) }
    ensures number { length (S.held store.new) ≡ length (S.held store.old) }
    ensures put { OnOk result (ArePutFrom indexes.start indexes.end start piece_len
        (λ d. sum_at x.now piece_len d) (S.held store.old) (S.held store.new)) }
    ensures refused { IfErr result (λ e. (S.grows ≡ true) × (e ≡ Error.OutOfMemory)) }
    ensures places { S.places store.new ≡ S.places store.old }
    ensures loan { S.loan store.new ≡ S.loan store.old }
{
    for index in indexes.start..indexes.end {
        store.put(index, start, sum_at(x, piece_len, index - indexes.start))?;
    }
    Ok(())
}

//! Reconstructing few wanted shards strip by strip, by direct sums. As many received shards as there are originals are
//! the base. Each word of a wanted shard is the sum of the words of the base, each times a factor.
ghost use Rattle.std.specs.Prelude.{◌≡◌, ◌⊎◌, ◌↔◌, ℕ, ◌+◌, ◌-◌, ◌*◌, ◌%◌, ◌^◌, ◌<◌, ◌≤◌, false, All, length};
ghost use Rattle.std.specs.Prelude.{min};
ghost use Rattle.std.specs.Prelude.{Ok, Some, None, MatchOption, IsTrue, IfOk, IfErr};
ghost use Rattle.std.specs.Prelude.{option_copied, slice_index, slice_index_or};
ghost use Rattle.rs_field.specs.code.Counts.{default_rate};
ghost use Rattle.rs_field.specs.code.Decoder.{IsDecoder, enough_given};
ghost use Rattle.rs_field.specs.code.Decoder.{originals_given, recovery_given};
ghost use Rattle.rs_field.specs.code.Frame.{row_count};
ghost use Rattle.rs_field.specs.code.PieceStates.{state_of_pieces};
ghost use Rattle.rs_field.specs.rows.MarkedRows.{is_marked};
ghost use Rattle.reed_solomon_simd.specs.Base.{row_of, MarksReceived, CanSum, HasPiece};
ghost use Rattle.rs_field.specs.code.Frame.{frame_at};
ghost use Rattle.rs_field.specs.code.DirectLaws.{shard_in_row};
ghost use Rattle.reed_solomon_simd.specs.Base.{IsBaseSum, AgreesInRow, AreSumsReady, IsBase};
ghost use Rattle.reed_solomon_simd.specs.Making.{CanMake, AreRooms, Makes, MakesMissing, missing_names};
ghost use Rattle.reed_solomon_simd.specs.Reconstructed.{NamesMissing};
ghost use Rattle.reed_solomon_simd.specs.StripSums.{sum_stride, sum_at};
ghost use Rattle.reed_solomon_simd.specs.declared.shard_index.ShardIndex.TheVariants.{Original};

use crate::pieces::{Pieces, is_received, missing_count, surplus_count};
use crate::shard_index::ShardIndex;
use crate::store::Store;
use crate::strip_bytes::SUM_STRIP_BYTES;
use crate::strip_sums::{MOST_SUMS, StripSums, make_sums, sum_at, sum_stride, sum_strip};
use crate::strips::{Way, make_strips};
use crate::wanted_shards::no_marks;
use rs_field::engine::{Engine, Steps};
use rs_field::error::Error;
use rs_field::frame::Frame;
use rs_rate::rate::base_sums::{BasePieces, BaseSums};
use rs_rate::rate::sums::{SumBase, list_base, locate_base};
use std::alloc::Global;

// Returns a mark for each row: whether a shard was received in it. Fails with `OutOfMemory`.
fn received_marks<P: Pieces>(alloc: Global, received: &P) -> Result<Vec<bool>, Error>
    requires { IsDecoder default_rate (P.received received.now) }
    ensures marks { IfOk result (λ marks. MarksReceived (P.received received.now) marks.items) }
    ensures refused { IfErr result (λ e. e ≡ Error.OutOfMemory) }
{
    let row_count = received.counts().frame.row_count();
    let mut marks = no_marks(alloc, row_count)?;
    for row in 0..row_count {
        marks[row] = piece_in_row(received, row, 0, 0).is_some();
    }
    Ok(marks)
}

fn piece_in_row<P: Pieces>(received: &P, row: usize, start: usize, end: usize) -> Option<&[u8]>
    requires set_up { IsDecoder default_rate (P.received received.now) }
    requires order { start ≤ end }
    requires inside { end ≤ (P.received received.now).configuration.shard_bytes }
    ensures { option_copied result
        ≡ shard_in_row (state_of_pieces start end (P.received received.now)) row }
{
    let counts = received.counts();
    let frame = counts.frame;
    if let Some(index) = index_of(row, frame.originals_from, counts.original_count) {
        return received.piece(ShardIndex::Original(index), start, end);
    }
    if let Some(index) = index_of(row, frame.recovery_from, counts.recovery_count) {
        return received.piece(ShardIndex::Recovery(index), start, end);
    }
    None
}

fn index_of(row: usize, from: usize, count: usize) -> Option<usize>
    ensures { MatchOption result ((row < from) ⊎ (from + count ≤ row))
        (λ i. (i < count) × (row ≡ from + i)) }
{
    if from <= row && row - from < count {
        Some(row - from)
    } else {
        None
    }
}

/// Writes the missing originals into the rooms of a store, in order of index, by direct sums. Enough shards were
/// received.
///
/// # Errors
///
/// - [`Error::OutOfMemory`] if the lists for direct sums cannot be allocated.
/// - For each strip in order: [`Error::InconsistentShards`] if no message agrees with all received shards, and then
///   [`Error::OutOfMemory`] if a room cannot grow. The rooms may then hold some strips.
pub(crate) fn sum_missing<E: Engine, S: Store>(
    alloc: Global,
    engine: &E,
    store: &mut S,
) -> Result<(), Error>
    requires set_up { IsDecoder default_rate (S.received store.old) }
    requires enough { enough_given (S.received store.old) ≡ Ok tt }
    requires rooms { AreRooms S.grows 0 (S.received store.old).configuration.shard_bytes
        (length (missing_names (S.received store.old))) (S.held store.old) }
    ensures made { MakesMissing S.grows (S.received store.old) (S.held store.old) (S.held store.new)
        result }
    ensures places { S.places store.new ≡ S.places store.old }
    ensures loan { S.loan store.new ≡ S.loan store.old }
{
    let wanted = missing_originals(alloc, &*store)?;
    sum_listed(alloc, engine, wanted.as_slice(), store)
}

/// Returns the names of the missing originals, in order of index. Fails with `OutOfMemory`.
pub(crate) fn missing_originals<P: Pieces>(
    alloc: Global,
    received: &P,
) -> Result<Vec<ShardIndex>, Error>
    requires { IsDecoder default_rate (P.received received.now) }
    ensures made { IfOk result (λ wanted.
        NamesMissing (P.received received.now).configuration.original_count
        (P.received received.now) wanted.items) }
    ensures refused { IfErr result (λ e. e ≡ Error.OutOfMemory) }
{
    let mut missing = Vec::with_capacity(alloc, missing_count(received))?;
    for index in 0..received.counts().original_count {
        if !is_received(received, ShardIndex::Original(index)) {
            missing.push(ShardIndex::Original(index))?;
        }
    }
    Ok(missing)
}

/// Writes wanted shards into the rooms of a store, in order, by direct sums.
///
/// # Errors
///
/// - [`Error::OutOfMemory`] if the lists for direct sums cannot be allocated.
/// - For each strip in order: [`Error::InconsistentShards`] if no message agrees with all received shards, and then
///   [`Error::OutOfMemory`] if a room cannot grow. The rooms may then hold some strips.
pub(crate) fn sum_listed<'a, E: Engine, S: Store>(
    alloc: Global,
    engine: &'a E,
    wanted: &'a [ShardIndex],
    store: &mut S,
) -> Result<(), Error>
    requires can { CanMake (S.received store.old) wanted.now }
    requires rooms { AreRooms S.grows 0 (S.received store.old).configuration.shard_bytes
        (length wanted.now) (S.held store.old) }
    ensures made { Makes S.grows (S.received store.old) wanted.now (S.held store.old)
        (S.held store.new) result }
    ensures places { S.places store.new ≡ S.places store.old }
    ensures loan { S.loan store.new ≡ S.loan store.old }
{
    let counts = store.counts();
    let surplus = surplus_count(&*store);
    let received = received_marks(alloc, &*store)?;
    let mut rows = vec![in alloc; 0; counts.original_count]?;
    let end = list_base(&mut rows, &received);
    let marks = &received[..end];
    let factors = locate_base(alloc, engine, &mut Steps::new(), counts.frame, marks)?;
    let base = SumBase {
        marks,
        rows: &rows,
        locator: &factors.locator,
        logs: &factors.logs,
    };
    let sums = Sums {
        engine,
        base,
        surplus,
    };
    sum_strips(&sums, wanted, store)
}

// Writes wanted shards by direct sums, strip by strip, in memory on the stack. The array has room for all sums that are
// made at a time. A smaller array is used if it is enough: to clear the largest one would take longer than to add short
// shards.
fn sum_strips<'a, 'b, E: Engine, S: Store>(
    sums: &'a Sums<'a, 'b, E>,
    wanted: &'a [ShardIndex],
    store: &mut S,
) -> Result<(), Error>
    requires based { IsBase (S.received store.old) sums.now.base }
    requires surplus { originals_given (S.received store.old) + recovery_given (S.received store.old)
        ≡ (S.received store.old).configuration.original_count + sums.now.surplus }
    requires can { CanMake (S.received store.old) wanted.now }
    requires rooms { AreRooms S.grows 0 (S.received store.old).configuration.shard_bytes
        (length wanted.now) (S.held store.old) }
    ensures made { Makes S.grows (S.received store.old) wanted.now (S.held store.old)
        (S.held store.new) result }
    ensures places { S.places store.new ≡ S.places store.old }
    ensures loan { S.loan store.new ≡ S.loan store.old }
{
    let count = MOST_SUMS.min(wanted.len()).max(1);
    match count * sum_stride(SUM_STRIP_BYTES.min(store.shard_bytes())) {
        0..=4 => sum_in::<E, S, 4>(sums, wanted, store),
        5..=8 => sum_in::<E, S, 8>(sums, wanted, store),
        9..=16 => sum_in::<E, S, 16>(sums, wanted, store),
        17..=80 => sum_in::<E, S, 80>(sums, wanted, store),
        81..=136 => sum_in::<E, S, 136>(sums, wanted, store),
        _ => sum_in::<E, S, 272>(sums, wanted, store),
    }
}

// Writes wanted shards by direct sums, which are made in an array of N chunks on the stack.
#[inline(never)]
fn sum_in<'a, 'b, E: Engine, S: Store, const N: usize>(
    sums: &'a Sums<'a, 'b, E>,
    wanted: &'a [ShardIndex],
    store: &mut S,
) -> Result<(), Error>
    requires small { N ≤ 272 }
    requires ready { AreSumsReady sums.now.base sums.now.surplus (length wanted.now) N
        (S.received store.old) (min 4096 (S.received store.old).configuration.shard_bytes) }
    requires can { CanMake (S.received store.old) wanted.now }
    requires rooms { AreRooms S.grows 0 (S.received store.old).configuration.shard_bytes
        (length wanted.now) (S.held store.old) }
    ensures made { Makes S.grows (S.received store.old) wanted.now (S.held store.old)
        (S.held store.new) result }
    ensures places { S.places store.new ≡ S.places store.old }
    ensures loan { S.loan store.new ≡ S.loan store.old }
{
    let x = &mut [[0; 64]; N];
    make_strips(SUM_STRIP_BYTES, &mut SumsWay { sums, wanted, x }, store)
}

/// Direct sums over a base of the received shards.
#[derive(Drop)]
struct Sums<'a, 'b, E: Engine> {
    engine: &'a E,
    base: SumBase<'b>,
    /// The number of received shards that are not in the base.
    surplus: usize,
}

/// The way of making wanted shards by direct sums.
#[derive(Drop)]
struct SumsWay<'a, 'b, 'c, E: Engine> {
    sums: &'a Sums<'a, 'b, E>,
    wanted: &'a [ShardIndex],
    /// The chunks in which the sums are made.
    x: &'c mut [[u8; 64]],
}

impl<'a, 'b, 'c, E: Engine> Way for SumsWay<'a, 'b, 'c, E> {
    ghost use Rattle.reed_solomon_simd.specs.Base.{AreSumsReady};

    ghost wanted = { λ x _. x.wanted.now };

    ghost ready = { λ x s n.
        AreSumsReady x.sums.now.base x.sums.now.surplus (length x.wanted.now) (length x.x.now) s n };

    fn strip<S: Store>(&mut self, start: usize, end: usize, store: &mut S) -> Result<(), Error> {
        sum_strip(self.sums, self.wanted, start, end, &mut *self.x, store)
    }
}

impl<'a, 'b, E: Engine> StripSums for Sums<'a, 'b, E> {
    ghost use Rattle.reed_solomon_simd.specs.Base.{CanSum};
    ghost use Rattle.reed_solomon_simd.specs.Reconstructed.{CanBeRebuilt};

    ghost ready = { λ x s start end. CanSum s x.base x.surplus start end };

    ghost can = { λ _ s wanted. CanBeRebuilt s wanted };

    fn agree_in_strip<P: Pieces>(
        &self,
        received: &P,
        start: usize,
        end: usize,
        x: &mut [[u8; 64]],
    ) -> bool {
        if self.surplus == 0 {
            return true;
        }
        for row in self.base.marks.len()..self.base.locator.len() {
            if !self.agrees_in_row(received, row, start, end, x) {
                return false;
            }
        }
        true
    }

    fn sum_pieces<P: Pieces>(
        &self,
        received: &P,
        wanted: &[ShardIndex],
        start: usize,
        end: usize,
        x: &mut [[u8; 64]],
    ) {
        let mut rows = [0; MOST_SUMS];
        let rows = &mut rows[..wanted.len()];
        set_rows(rows, received.counts().frame, wanted);
        self.sum_rows(received, rows, start, end, x);
    }
}

impl<'a, 'b, E: Engine> Sums<'a, 'b, E> {
    // Returns whether the piece of the shard that was received in a row outside of the base, if there is one, is the
    // direct sum.
    fn agrees_in_row<P: Pieces>(
        &self,
        received: &P,
        row: usize,
        start: usize,
        end: usize,
        x: &mut [[u8; 64]],
    ) -> bool
        requires ready { CanSum (P.received received.now) self.now.base self.now.surplus start end }
        requires row { row < row_count (frame_at (P.received received.now).configuration) }
        requires outside { is_marked self.now.base.marks.now row ≡ false }
        requires room { length x.old ≡ sum_stride (end - start) }
        ensures { IsTrue result ↔ AgreesInRow self.now.base.marks.now
            (state_of_pieces start end (P.received received.now)) row }
    {
        let Some(piece) = piece_in_row(received, row, start, end) else {
            return true;
        };
        self.sum_rows(received, &[row], start, end, x);
        sum_at(x, end - start, 0) == piece
    }

    // Makes the direct sums over a strip of the base, for rows outside of the base.
    fn sum_rows<P: Pieces>(
        &self,
        received: &P,
        rows: &[usize],
        start: usize,
        end: usize,
        x: &mut [[u8; 64]],
    )
        requires ready { CanSum (P.received received.now) self.now.base self.now.surplus start end }
        requires inside { (d : ℕ) → d < length rows.now → slice_index rows.now d
            < row_count (frame_at (P.received received.now).configuration) }
        requires outside { (d : ℕ) → d < length rows.now
            → is_marked self.now.base.marks.now (slice_index rows.now d) ≡ false }
        requires room { length x.old ≡ length rows.now * sum_stride (end - start) }
        ensures { (d : ℕ) → d < length rows.now
            → IsBaseSum self.now.base.marks.now
            (state_of_pieces start end (P.received received.now)) (slice_index rows.now d)
            (sum_at x.new (end - start) d) }
    {
        let pieces = StripPieces {
            received,
            start,
            end,
        };
        let sums = BaseSums {
            base: &self.base,
            pieces: &pieces,
            piece_len: end - start,
            rows,
        };
        make_sums(self.engine, &sums, x);
    }
}

/// A strip of the received shards, of which those of a base are read.
#[derive(Drop)]
struct StripPieces<'a, P> {
    /// The received shards.
    received: &'a P,
    /// The first byte of the strip.
    start: usize,
    /// The byte after the last one of the strip.
    end: usize,
}

impl<'a, P: Pieces> BasePieces for StripPieces<'a, P> {
    ghost use Rattle.std.specs.Prelude.{◌-◌};
    ghost use Rattle.std.proofs.Props.{props};
    ghost use Rattle.std.proofs.Math.Bridge.{le_prop};
    ghost use Rattle.reed_solomon_simd.specs.Propositions.{Rate-set};
    ghost use Rattle.rs_field.specs.code.DirectLaws.{word_of, shard_in_row};
    ghost use Rattle.rs_field.specs.code.PieceStates.{state_of_pieces};
    ghost use Rattle.reed_solomon_simd.specs.Base.{HasPiece};

    ghost size = { λ x. x.end - x.start };

    ghost word = { λ x j row. word_of j (shard_in_row
        (state_of_pieces x.start x.end (P.received x.received.now)) row) };

    ghost has = { λ x row. HasPiece (P.received x.received.now) x.start x.end row };

    ghost has_is_prop = { λ x row. Prim.hlevel (le_prop, Rate-set, props) };

    fn piece(&self, row: usize) -> &[u8] {
        piece_of_strip(self.received, row, self.start, self.end)
    }
}

fn piece_of_strip<P: Pieces>(received: &P, row: usize, start: usize, end: usize) -> &[u8]
    requires { HasPiece (P.received received.now) start end row }
    ensures { shard_in_row (state_of_pieces start end (P.received received.now)) row
        ≡ Some result.now }
{
    piece_in_row(received, row, start, end).unwrap_or(&[])
}

// Sets each entry of `rows` to the row of the shard with its index in `wanted`.
pub(crate) fn set_rows(rows: &mut [usize], frame: Frame, wanted: &[ShardIndex])
    requires number { length rows.old ≡ length wanted.now }
    requires small { All (λ shard. row_of frame shard < 2 ^ 64) wanted.now }
    ensures { (d : ℕ) → d < length wanted.now
        → slice_index rows.new d ≡ row_of frame (slice_index_or wanted.now d (Original 0)) }
{
    for index in 0..wanted.len() {
        rows[index] = row_of(frame, wanted[index]);
    }
}

fn row_of(frame: Frame, shard: ShardIndex) -> usize
    requires { row_of frame shard < 2 ^ 64 }
    ensures { result ≡ row_of frame shard }
{
    match shard {
        ShardIndex::Original(index) => frame.original_row(index),
        ShardIndex::Recovery(index) => frame.recovery_row(index),
    }
}

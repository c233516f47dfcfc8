//! Making the missing originals of received shards, strip by strip, from syndromes. The received originals of a strip
//! are encoded, with zeros for the missing ones. The syndrome of a received recovery shard is its XOR with the encoded
//! one. The missing originals are direct sums over the syndromes alone: the base of these sums has all received
//! originals, but in their rows the received word and the encoded word are the same.
ghost use Rattle.std.specs.Prelude.{◌≡◌, ◌↔◌, ℕ, ◌-◌, ◌*◌, ◌<◌, ◌≤◌, true, false, length, vec_len, IsTrue};
ghost use Rattle.std.specs.Prelude.{IfOk, IfErr, replicate, slice_index, unwrap_or};
ghost use Rattle.rs_field.specs.code.Code.{AreRecovery};
ghost use Rattle.rs_field.specs.code.Column.{shard_at};
ghost use Rattle.rs_field.specs.code.Counts.{default_rate};
ghost use Rattle.rs_field.specs.code.Decoder.{IsDecoder, enough_given};
ghost use Rattle.rs_field.specs.code.Frame.{frame_at, row_count};
ghost use Rattle.rs_field.specs.code.Pieces.{IsStrip};
ghost use Rattle.rs_field.specs.code.PieceStates.{state_of_pieces};
ghost use Rattle.rs_field.specs.rows.MarkedRows.{is_marked};
ghost use Rattle.rs_rate.specs.objects.StripView.{code_of, coded_shards};
ghost use Rattle.reed_solomon_simd.specs.StripSums.{sum_stride, sum_at};
ghost use Rattle.reed_solomon_simd.specs.Making.{AreRooms, MakesMissing, missing_names};
ghost use Rattle.reed_solomon_simd.specs.Rounds.{IsReadyToEncode};
ghost use Rattle.reed_solomon_simd.specs.Syndromes.{zeroed, AreSyndromes, MarksRecovery, AddsOriginals, AgreesAt};
ghost use Rattle.reed_solomon_simd.specs.Syndromes.{CanSumSyndromes, IsSyndromeSum};

use crate::pieces::{Pieces, is_received, surplus_count};
use crate::shard_index::ShardIndex;
use crate::store::Store;
use crate::strip_bytes::{DECODE_STRIP_BYTES, SYNDROME_SUM_CHUNKS};
use crate::strip_summer::{missing_originals, set_rows};
use crate::strip_sums::{MOST_SUMS, StripSums, make_sums, sum_at, sum_strip};
use crate::strips::{Way, make_strips};
use crate::wanted_shards::no_marks;
use rs_field::engine::{Engine, Steps};
use rs_field::error::Error;
use rs_rate::rate::base_sums::{BasePieces, BaseSums};
use rs_rate::rate::strip_encoder::StripEncoder;
use rs_rate::rate::strip_message::StripMessage;
use rs_rate::rate::sums::{SumBase, list_base, locate_base};
use std::alloc::Global;

/// Writes the missing originals into the rooms of a store, in order of index, by sums of syndromes. Enough shards were
/// received. The function is not inlined: a decode that makes other sums would have its arrays on the stack, too.
///
/// # Errors
///
/// - [`Error::OutOfMemory`] if the work area or one of the lists cannot be allocated.
/// - For each strip in order: [`Error::InconsistentShards`] if no message agrees with all received shards, and then
///   [`Error::OutOfMemory`] if a room cannot grow. The rooms may then hold some strips.
#[inline(never)]
pub(crate) fn restore_by_syndromes<E: Engine, S: Store>(
    alloc: Global,
    engine: &E,
    store: &mut S,
) -> Result<(), Error>
    requires set_up { IsDecoder default_rate (S.received store.old) }
    requires enough { enough_given (S.received store.old) ≡ Ok tt }
    requires rooms { AreRooms S.grows 0 (S.received store.old).configuration.shard_bytes
        (length (missing_names (S.received store.old))) (S.held store.old) }
    ensures made { MakesMissing S.grows (S.received store.old) (S.held store.old) (S.held store.new)
        result }
    ensures places { S.places store.new ≡ S.places store.old }
    ensures loan { S.loan store.new ≡ S.loan store.old }
{
    let counts = store.counts();
    let wanted = missing_originals(alloc, &*store)?;
    let surplus = surplus_count(&*store);
    let shard_bytes = store.shard_bytes();
    let encoder = StripEncoder::new(alloc, counts, shard_bytes, DECODE_STRIP_BYTES, engine)?;
    let recovery = recovery_marks(alloc, &*store)?;
    let mut rows = vec![in alloc; 0; wanted.len()]?;
    let end = list_base(&mut rows, &recovery);
    let marks = &recovery[..end];
    let all = marks_with_originals(alloc, &*store, marks)?;
    let factors = locate_base(alloc, engine, &mut Steps::new(), counts.frame, &all)?;
    let base = SumBase {
        marks,
        rows: &rows,
        locator: &factors.locator,
        logs: &factors.logs,
    };
    let sums = Syndromes {
        engine,
        encoder,
        base,
        surplus,
    };
    let wanted = wanted.as_slice();
    let mut x = [[0; 64]; SYNDROME_SUM_CHUNKS];
    make_strips(
        DECODE_STRIP_BYTES,
        &mut SyndromesWay {
            sums,
            wanted,
            x: &mut x,
        },
        store,
    )
}

// Returns a mark for each row: whether a recovery shard was received in it. Fails with `OutOfMemory`.
fn recovery_marks<P: Pieces>(alloc: Global, received: &P) -> Result<Vec<bool>, Error>
    requires { IsDecoder default_rate (P.received received.now) }
    ensures marks { IfOk result (λ marks. MarksRecovery (P.received received.now) marks.items) }
    ensures refused { IfErr result (λ e. e ≡ Error.OutOfMemory) }
{
    let counts = received.counts();
    let mut marks = no_marks(alloc, counts.frame.row_count())?;
    for index in 0..counts.recovery_count {
        let is_there = is_received(received, ShardIndex::Recovery(index));
        marks[counts.frame.recovery_row(index)] = is_there;
    }
    Ok(marks)
}

// Returns a mark for each row: for the row of an original, whether the original was received, and for any other row,
// whether it is marked in `marks`. Fails with `OutOfMemory`.
fn marks_with_originals<P: Pieces>(
    alloc: Global,
    received: &P,
    marks: &[bool],
) -> Result<Vec<bool>, Error>
    requires set_up { IsDecoder default_rate (P.received received.now) }
    requires fit { length marks.now ≤ row_count (frame_at (P.received received.now).configuration) }
    ensures length { IfOk result (λ all. vec_len all
        ≡ row_count (frame_at (P.received received.now).configuration)) }
    ensures marks { IfOk result (λ all.
        AddsOriginals (P.received received.now) marks.now all.items) }
    ensures refused { IfErr result (λ e. e ≡ Error.OutOfMemory) }
{
    let counts = received.counts();
    let mut all = widened(alloc, marks, counts.frame.row_count())?;
    for index in 0..counts.original_count {
        let is_there = is_received(received, ShardIndex::Original(index));
        all[counts.frame.original_row(index)] = is_there;
    }
    Ok(all)
}

// Returns marks for `count` rows, of which the first ones are `marks`, and the others mark no row. Fails with
// `OutOfMemory`.
fn widened(alloc: Global, marks: &[bool], count: usize) -> Result<Vec<bool>, Error>
    requires { length marks.now ≤ count }
    ensures length { IfOk result (λ all. vec_len all ≡ count) }
    ensures same { IfOk result (λ all. (x : ℕ) → is_marked all.items x ≡ is_marked marks.now x) }
    ensures refused { IfErr result (λ e. e ≡ Error.OutOfMemory) }
{
    let mut all = no_marks(alloc, count)?;
    for row in 0..marks.len() {
        all[row] = marks[row];
    }
    Ok(all)
}

/// An encoder for the syndromes of a strip, and a base for their sums.
#[derive(Drop)]
struct Syndromes<'a, 'b, E: Engine> {
    engine: &'a E,
    encoder: StripEncoder,
    /// The recovery rows of the base. The factors are those of a base to which all received originals belong, too.
    base: SumBase<'b>,
    /// The number of received recovery shards that are not in the base.
    surplus: usize,
}

/// The way of making the missing originals by sums of syndromes.
#[derive(Drop)]
struct SyndromesWay<'a, 'b, 'c, E: Engine> {
    sums: Syndromes<'a, 'b, E>,
    /// The names of the missing originals.
    wanted: &'b [ShardIndex],
    /// The chunks in which the sums are made.
    x: &'c mut [[u8; 64]],
}

impl<'a, 'b, 'c, E: Engine> Way for SyndromesWay<'a, 'b, 'c, E> {
    ghost use Rattle.reed_solomon_simd.specs.Syndromes.{AreSyndromesReady};

    ghost wanted = { λ x _. x.wanted.now };

    ghost ready = { λ x s n. AreSyndromesReady x.sums.encoder x.sums.base x.wanted.now x.sums.surplus
        (length x.x.now) s n };

    fn strip<S: Store>(&mut self, start: usize, end: usize, store: &mut S) -> Result<(), Error> {
        make_syndromes(
            self.sums.engine,
            &mut self.sums.encoder,
            &*store,
            start,
            end,
        );
        sum_strip(&self.sums, self.wanted, start, end, &mut *self.x, store)
    }
}

impl<'a, 'b, E: Engine> StripSums for Syndromes<'a, 'b, E> {
    ghost use Rattle.reed_solomon_simd.specs.Reconstructed.{IsMissing};
    ghost use Rattle.reed_solomon_simd.specs.Syndromes.{CanSumSyndromes};

    ghost ready = { λ x s start end. CanSumSyndromes s x.base x.surplus x.encoder start end };

    ghost can = { λ _ s wanted. IsMissing s wanted };

    fn agree_in_strip<P: Pieces>(
        &self,
        received: &P,
        start: usize,
        end: usize,
        x: &mut [[u8; 64]],
    ) -> bool {
        if self.surplus == 0 {
            return true;
        }
        for index in 0..received.counts().recovery_count {
            if !self.agrees(received, index, start, end, x) {
                return false;
            }
        }
        true
    }

    fn sum_pieces<P: Pieces>(
        &self,
        received: &P,
        wanted: &[ShardIndex],
        start: usize,
        end: usize,
        x: &mut [[u8; 64]],
    ) {
        let mut rows = [0; MOST_SUMS];
        let rows = &mut rows[..wanted.len()];
        set_rows(rows, received.counts().frame, wanted);
        self.sum_rows(received, rows, start, end, x);
    }
}

// Makes the syndromes of a strip of the received shards. They are then in the encoder, at the indexes of the received
// recovery shards.
fn make_syndromes<E: Engine, P: Pieces>(
    engine: &E,
    encoder: &mut StripEncoder,
    received: &P,
    start: usize,
    end: usize,
)
    requires set_up { IsDecoder default_rate (P.received received.now) }
    requires ready { IsReadyToEncode encoder.old (P.received received.now) (end - start) }
    requires strip { IsStrip start end (P.received received.now).configuration.shard_bytes }
    requires some { start < end }
    requires few { end - start ≤ 2048 }
    ensures made { AreSyndromes (state_of_pieces start end (P.received received.now))
        (coded_shards encoder.new) }
    ensures code { code_of encoder.new
        ≡ (state_of_pieces start end (P.received received.now)).configuration }
    ensures reads { encoder.new.reads ≡ encoder.old.reads }
{
    let zeros = [0; DECODE_STRIP_BYTES];
    let strip = ZeroedStrip {
        received,
        zeros: &zeros[..end - start],
        start,
        end,
    };
    encoder.encode(engine, &mut Steps::new(), end - start, &strip);
    add_received(encoder, received, start, end);
}

/// One strip of the received originals of a message, with zeros for the missing ones.
#[derive(Drop)]
struct ZeroedStrip<'a, P: Pieces> {
    received: &'a P,
    /// As many zeros as a strip has bytes.
    zeros: &'a [u8],
    start: usize,
    end: usize,
    ghost set_up: { IsDecoder default_rate (P.received received.now) },
    ghost blank: { zeros.now ≡ replicate (end - start) 0 },
    ghost order: { start ≤ end },
    ghost inside: { end ≤ (P.received received.now).configuration.shard_bytes },
}

impl<'a, P: Pieces> StripMessage for ZeroedStrip<'a, P> {
    ghost shards = { λ x. zeroed (state_of_pieces x.start x.end (P.received x.received.now)) };

    fn piece(&self, index: usize) -> &[u8] {
        zeroed_piece(self.received, self.zeros, index, self.start, self.end)
    }
}

fn zeroed_piece<'a, P: Pieces>(
    received: &'a P,
    zeros: &'a [u8],
    index: usize,
    start: usize,
    end: usize,
) -> &'a [u8]
    requires set_up { IsDecoder default_rate (P.received received.now) }
    requires index { index < (P.received received.now).configuration.original_count }
    requires blank { zeros.now ≡ replicate (end - start) 0 }
    requires order { start ≤ end }
    requires inside { end ≤ (P.received received.now).configuration.shard_bytes }
    ensures { result.now
        ≡ unwrap_or ((state_of_pieces start end (P.received received.now)).originals index)
        (replicate (end - start) 0) }
{
    let piece = received.piece(ShardIndex::Original(index), start, end);
    piece.unwrap_or(zeros)
}

// Adds a strip of each received recovery shard to the encoded recovery shard with its index.
fn add_received<P: Pieces>(encoder: &mut StripEncoder, received: &P, start: usize, end: usize)
    requires set_up { IsDecoder default_rate (P.received received.now) }
    requires code { code_of encoder.old
        ≡ (state_of_pieces start end (P.received received.now)).configuration }
    requires strip { IsStrip start end (P.received received.now).configuration.shard_bytes }
    requires coded { AreRecovery
        (state_of_pieces start end (P.received received.now)).configuration
        (zeroed (state_of_pieces start end (P.received received.now)))
        (coded_shards encoder.old) }
    ensures made { AreSyndromes (state_of_pieces start end (P.received received.now))
        (coded_shards encoder.new) }
    ensures code { code_of encoder.new ≡ code_of encoder.old }
    ensures reads { encoder.new.reads ≡ encoder.old.reads }
{
    for index in 0..received.counts().recovery_count {
        if let Some(piece) = received.piece(ShardIndex::Recovery(index), start, end) {
            encoder.add_to_recovery(index, piece);
        }
    }
}

impl<'a, 'b, E: Engine> Syndromes<'a, 'b, E> {
    // Returns whether the syndrome of a received recovery shard outside of the base is the sum of those of the base.
    fn agrees<P: Pieces>(
        &self,
        received: &P,
        index: usize,
        start: usize,
        end: usize,
        x: &mut [[u8; 64]],
    ) -> bool
        requires ready { CanSumSyndromes (P.received received.now) self.now.base self.now.surplus
            self.now.encoder start end }
        requires index { index < (P.received received.now).configuration.recovery_count }
        requires room { length x.old ≡ sum_stride (end - start) }
        ensures { IsTrue result ↔ AgreesAt (state_of_pieces start end (P.received received.now))
            self.now.base (coded_shards self.now.encoder) index }
    {
        if received
            .piece(ShardIndex::Recovery(index), start, end)
            .is_none()
        {
            return true;
        }
        let row = received.counts().frame.recovery_row(index);
        if row < self.base.marks.len() {
            return true;
        }
        self.sum_rows(received, &[row], start, end, x);
        sum_at(x, end - start, 0) == syndrome_at(&self.encoder, index)
    }

    // Makes the sums of the syndromes of the base, for rows outside of the base.
    fn sum_rows<P: Pieces>(
        &self,
        received: &P,
        rows: &[usize],
        start: usize,
        end: usize,
        x: &mut [[u8; 64]],
    )
        requires ready { CanSumSyndromes (P.received received.now) self.now.base self.now.surplus
            self.now.encoder start end }
        requires inside { (d : ℕ) → d < length rows.now → slice_index rows.now d
            < row_count (frame_at (P.received received.now).configuration) }
        requires outside { (d : ℕ) → d < length rows.now
            → is_marked self.now.base.marks.now (slice_index rows.now d) ≡ false }
        requires room { length x.old ≡ length rows.now * sum_stride (end - start) }
        ensures { (d : ℕ) → d < length rows.now
            → IsSyndromeSum (state_of_pieces start end (P.received received.now))
            self.now.base (coded_shards self.now.encoder) (slice_index rows.now d)
            (sum_at x.new (end - start) d) }
    {
        let pieces = SyndromePieces {
            encoder: &self.encoder,
            recovery_from: received.counts().frame.recovery_from,
        };
        let sums = BaseSums {
            base: &self.base,
            pieces: &pieces,
            piece_len: end - start,
            rows,
        };
        make_sums(self.engine, &sums, x);
    }
}

/// The syndromes of a strip, by the rows of their recovery shards.
#[derive(Drop)]
struct SyndromePieces<'a> {
    /// The encoder in which the syndromes are.
    encoder: &'a StripEncoder,
    /// The row of the first recovery shard.
    recovery_from: usize,
}

impl<'a> BasePieces for SyndromePieces<'a> {
    ghost use Rattle.std.specs.Prelude.{◌-◌, ◌≤◌, ◌<◌, length};
    ghost use Rattle.std.proofs.Math.Bridge.{le_prop};
    ghost use Rattle.rs_field.specs.code.Column.{column, shard_at};
    ghost use Rattle.rs_rate.specs.objects.StripView.{coded_shards};

    ghost size = { λ x. x.encoder.now.configuration.shard_bytes };

    ghost word = { λ x j row.
        column j (shard_at (coded_shards x.encoder.now) (row - x.recovery_from)) };

    ghost has = { λ x row. (x.recovery_from ≤ row)
        × (row - x.recovery_from < length (coded_shards x.encoder.now)) };

    ghost has_is_prop = { λ x row. Prim.hlevel (le_prop) };

    fn piece(&self, row: usize) -> &[u8] {
        syndrome_at(self.encoder, row - self.recovery_from)
    }
}

fn syndrome_at(encoder: &StripEncoder, index: usize) -> &[u8]
    requires { index < length (coded_shards encoder.now) }
    ensures { result.now ≡ shard_at (coded_shards encoder.now) index }
{
    let syndrome = encoder.recovery(index);
    syndrome.unwrap_or(&[])
}

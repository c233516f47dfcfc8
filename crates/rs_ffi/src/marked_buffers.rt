//! The shards of a message in two buffers, with marks that say which shards were received.
ghost use Rattle.std.specs.Prelude.{◌≡◌, ◌++◌, ◌<◌, ◌≤◌, ◌-◌, ◌*◌, List, ℕ, MatchResult, length, option_copied};
ghost use Rattle.std.specs.List.{between};
ghost use Rattle.std.specs.Option.{option_map};
ghost use Rattle.rs_field.specs.code.Column.{Shard};
ghost use Rattle.rs_ffi.specs.Answers.{marked_number};
ghost use Rattle.rs_ffi.specs.Buffers.{lost_indexes, marked_map};

use crate::buffer_rooms::put;
use reed_solomon_simd::ffi::{Pieces, Rooms, Store, piece_of};
use reed_solomon_simd::{Error, ShardIndex};
use rs_rate::rate::DefaultRateCounts;
use std::alloc::Global;

/// Two buffers with a place for each shard. The shards whose mark is not 0 were received. The places of the other
/// originals are the rooms into which these originals are restored.
#[derive(Drop)]
pub struct MarkedBuffers<'a, 'b> {
    /// The counts of the message.
    pub counts: DefaultRateCounts,
    /// The size of a shard, in bytes.
    pub size: usize,
    /// A mark for each original.
    pub original_marks: &'a [u8],
    /// A mark for each recovery shard.
    pub recovery_marks: &'a [u8],
    /// The originals, one after the other.
    pub originals: &'b mut [u8],
    /// The recovery shards, one after the other.
    pub recovery: &'a [u8],
    /// The indexes of the originals whose mark is 0, in order.
    pub lost: &'a [usize],
    /// The number of marks of recovery shards that are not 0.
    pub recovery_received_count: usize,
    pub ghost originals_number: { length original_marks.now ≡ counts.original_count },
    pub ghost recovery_number: { length recovery_marks.now ≡ counts.recovery_count },
    pub ghost listed: { lost.now ≡ lost_indexes 0 original_marks.now },
    pub ghost counted: { recovery_received_count ≡ marked_number recovery_marks.now },
}

impl<'a, 'b> Pieces for MarkedBuffers<'a, 'b> {
    ghost use Rattle.rs_ffi.specs.MarkedState.{state_in};

    ghost received = { λ x. state_in x };

    fn counts(&self) -> DefaultRateCounts {
        self.counts
    }

    fn original_received_count(&self) -> usize {
        self.counts.original_count - self.lost.len()
    }

    fn recovery_received_count(&self) -> usize {
        self.recovery_received_count
    }

    fn shard_bytes(&self) -> usize {
        self.size
    }

    fn piece(&self, shard: ShardIndex, start: usize, end: usize) -> Option<&[u8]> {
        match shard {
            ShardIndex::Original(index) => marked_piece(
                self.original_marks,
                self.size,
                self.originals,
                index,
                start,
                end,
            ),
            ShardIndex::Recovery(index) => marked_piece(
                self.recovery_marks,
                self.size,
                self.recovery,
                index,
                start,
                end,
            ),
        }
    }
}

impl<'a, 'b> Rooms for MarkedBuffers<'a, 'b> {
    ghost use Rattle.std.specs.Prelude.{ℕ, List, false};
    ghost use Rattle.rs_field.specs.code.Decoder.{DecoderState};
    ghost use Rattle.rs_ffi.specs.MarkedState.{besides_rooms, rooms_in};

    ghost held = { λ x. rooms_in x };

    ghost grows = { false };

    ghost Places = { DecoderState × List ℕ × List ℕ × ℕ };

    ghost places = { λ x. besides_rooms x };

    ghost loan = { λ x. x.originals.ghost_name };

    fn put(&mut self, index: usize, start: usize, piece: &[u8]) -> Result<(), Error> {
        if !piece.is_empty() {
            let place = self.lost[index];
            put(self.originals, place, self.size, start, piece);
        }
        Ok(())
    }
}

impl<'a, 'b> Store for MarkedBuffers<'a, 'b> {
    ghost use Rattle.std.specs.Prelude.{ℕ, List};
    ghost use Rattle.std.proofs.Common.{ap};
    ghost use Rattle.rs_field.specs.code.Decoder.{DecoderState};

    ghost kept = { λ x y same. ap (λ (p : DecoderState × List ℕ × List ℕ × ℕ). p.0) same };
}

// Returns the bytes of a shard in a buffer from byte `start` up to, but not including, byte `end`, or `None` if the
// mark of the shard is 0.
fn marked_piece<'a>(
    marks: &[u8],
    size: usize,
    bytes: &'a [u8],
    index: usize,
    start: usize,
    end: usize,
) -> Option<&'a [u8]>
    requires index { index < length marks.now }
    requires order { start ≤ end }
    requires inside { end ≤ size }
    requires some { 0 < size }
    requires whole { (shard : Shard)
        → marked_map size marks.now bytes.now index ≡ Some shard → length shard ≡ size }
    ensures { option_copied result
        ≡ option_map (λ shard. between start end shard)
        (marked_map size marks.now bytes.now index) }
{
    if marks[index] == 0 {
        return None;
    }
    let at = index * size;
    Some(piece_of(&bytes[at..at + size], start, end))
}

/// Returns the indexes of the marks that are 0, in order.
///
/// # Errors
///
/// [`Error::OutOfMemory`] if the vector cannot be allocated.
pub fn indexes_of_lost(alloc: Global, marks: &[u8]) -> Result<Vec<usize>, Error>
    ensures { MatchResult result (λ lost. lost.items ≡ lost_indexes 0 marks.now)
        (λ e. e ≡ Error.OutOfMemory) }
{
    let mut lost = Vec::with_capacity(alloc, marks.len())?;
    for index in 0..marks.len() {
        if marks[index] == 0 {
            lost.push(index)?;
        }
    }
    Ok(lost)
}

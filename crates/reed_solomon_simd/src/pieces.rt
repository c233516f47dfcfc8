//! The shards that were received of a message. A decode reads them piece by piece. A piece is a range of the bytes of a
//! shard.
ghost use Rattle.std.specs.Prelude.{◌≡◌, ◌+◌, ◌<◌, ◌≤◌, ℕ, length, Ok, Some, option_copied};
ghost use Rattle.std.specs.List.{between};
ghost use Rattle.rs_field.specs.code.Column.{Shard};
ghost use Rattle.rs_field.specs.code.Counts.{default_rate};
ghost use Rattle.rs_field.specs.code.Decoder.{IsDecoder, enough_given, originals_given, recovery_given};
ghost use Rattle.rs_field.specs.code.PieceStates.{pieces_of};
ghost use Rattle.reed_solomon_simd.specs.Received.{given_in};
ghost use Rattle.reed_solomon_simd.specs.Reconstructed.{count_of, is_received};
ghost use Rattle.reed_solomon_simd.specs.ShardNames.{index_of};

use crate::received_shards::ReceivedShards;
use crate::shard_index::ShardIndex;
use rs_field::error::Error;
use rs_rate::rate::DefaultRateCounts;

/// Received shards of a message, with the counts and the size of the message.
pub trait Pieces {
    ghost use Rattle.std.specs.Prelude.{◌≡◌, ◌<◌, ◌≤◌, option_copied};
    ghost use Rattle.rs_field.specs.code.Counts.{default_rate};
    ghost use Rattle.rs_field.specs.code.Decoder.{DecoderState, IsDecoder, originals_given, recovery_given};
    ghost use Rattle.rs_field.specs.code.PieceStates.{state_of_pieces};
    ghost use Rattle.reed_solomon_simd.specs.Reconstructed.{count_of, given_at};
    ghost use Rattle.reed_solomon_simd.specs.ShardNames.{index_of};

    /// The state of a decoder to which all received shards were added.
    ghost received: { Self → DecoderState };

    /// Returns the counts.
    fn counts(&self) -> DefaultRateCounts
        ensures originals { result.original_count
            ≡ (received self.now).configuration.original_count }
        ensures recovery { result.recovery_count
            ≡ (received self.now).configuration.recovery_count };

    /// Returns how many originals were received.
    fn original_received_count(&self) -> usize
        ensures { result ≡ originals_given (received self.now) };

    /// Returns how many recovery shards were received.
    fn recovery_received_count(&self) -> usize
        ensures { result ≡ recovery_given (received self.now) };

    /// Returns the size of each shard in bytes.
    fn shard_bytes(&self) -> usize
        ensures { result ≡ (received self.now).configuration.shard_bytes };

    /// Returns the bytes of a shard from byte `start` up to, but not including, byte `end`, or `None` if it is missing.
    fn piece(&self, shard: ShardIndex, start: usize, end: usize) -> Option<&[u8]>
        requires set_up { IsDecoder default_rate (received self.now) }
        requires index { index_of shard < count_of (received self.now) shard }
        requires order { start ≤ end }
        requires inside { end ≤ (received self.now).configuration.shard_bytes }
        ensures { option_copied result
            ≡ given_at (state_of_pieces start end (received self.now)) shard };
}

/// Returns whether a shard was received.
pub fn is_received<P: Pieces>(received: &P, shard: ShardIndex) -> bool
    requires set_up { IsDecoder default_rate (P.received received.now) }
    requires index { index_of shard < count_of (P.received received.now) shard }
    ensures { result ≡ is_received (P.received received.now) shard }
{
    received.piece(shard, 0, 0).is_some()
}

/// Checks that at least as many shards as there are originals were received.
///
/// # Errors
///
/// [`Error::NotEnoughShards`] if fewer shards were received.
pub fn check_enough<P: Pieces>(received: &P) -> Result<(), Error>
    requires { IsDecoder default_rate (P.received received.now) }
    ensures { result ≡ enough_given (P.received received.now) }
{
    let original_count = received.counts().original_count;
    let original_received_count = received.original_received_count();
    let recovery_received_count = received.recovery_received_count();
    if original_received_count + recovery_received_count < original_count {
        return Err(Error::NotEnoughShards {
            original_count,
            original_received_count,
            recovery_received_count,
        });
    }
    Ok(())
}

/// Returns how many originals are missing.
pub fn missing_count<P: Pieces>(received: &P) -> usize
    ensures { result + originals_given (P.received received.now)
        ≡ (P.received received.now).configuration.original_count }
{
    received.counts().original_count - received.original_received_count()
}

/// Returns how many shards were received beyond the number of originals.
pub fn surplus_count<P: Pieces>(received: &P) -> usize
    requires set_up { IsDecoder default_rate (P.received received.now) }
    requires enough { enough_given (P.received received.now) ≡ Ok tt }
    ensures { originals_given (P.received received.now) + recovery_given (P.received received.now)
        ≡ (P.received received.now).configuration.original_count + result }
{
    let all = received.original_received_count() + received.recovery_received_count();
    all - received.counts().original_count
}

/// Returns the error of received shards with which no message agrees.
pub fn inconsistent<P: Pieces>(received: &P) -> Error
    ensures { result
        ≡ Error.InconsistentShards (originals_given (P.received received.now))
        (recovery_given (P.received received.now)) }
{
    Error::InconsistentShards {
        original_received_count: received.original_received_count(),
        recovery_received_count: received.recovery_received_count(),
    }
}

/// Received shards that are slices of the caller's memory.
impl<'a> Pieces for ReceivedShards<'a> {
    ghost use Rattle.reed_solomon_simd.specs.ReceivedState.{received_state};

    ghost received = { λ x. received_state x };

    fn counts(&self) -> DefaultRateCounts {
        self.counts
    }

    fn original_received_count(&self) -> usize {
        self.originals.number
    }

    fn recovery_received_count(&self) -> usize {
        self.recovery.number
    }

    fn shard_bytes(&self) -> usize {
        self.shard_bytes
    }

    fn piece(&self, shard: ShardIndex, start: usize, end: usize) -> Option<&[u8]> {
        match shard {
            ShardIndex::Original(index) => {
                piece_at(self.originals.shards.as_slice(), index, start, end)
            }
            ShardIndex::Recovery(index) => {
                piece_at(self.recovery.shards.as_slice(), index, start, end)
            }
        }
    }
}

fn piece_at<'a>(
    places: &[Option<&'a [u8]>],
    index: usize,
    start: usize,
    end: usize,
) -> Option<&'a [u8]>
    requires index { index < length places.now }
    requires order { start ≤ end }
    requires inside { (i : ℕ) (shard : Shard)
        → given_in places.now i ≡ Some shard → end ≤ length shard }
    ensures { option_copied result ≡ pieces_of start end (given_in places.now) index }
{
    let shard = places[index]?;
    Some(piece_of(shard, start, end))
}

/// Returns the bytes of a shard from byte `start` up to, but not including, byte `end`.
pub fn piece_of(shard: &[u8], start: usize, end: usize) -> &[u8]
    requires order { start ≤ end }
    requires inside { end ≤ length shard.now }
    ensures { result.now ≡ between start end shard.now }
{
    &shard[start..end]
}

//! Verification of received shards in one call: whether they belong to one message.
ghost use Rattle.std.specs.Prelude.{◌≡◌, ◌⊎◌, map, Ok, MatchResult};
ghost use Rattle.rs_field.specs.code.Counts.{default_rate};
ghost use Rattle.rs_field.specs.code.Decoder.{IsDecoder, enough_given, IsConsistent, NoneAgrees};
ghost use Rattle.reed_solomon_simd.specs.Verified.{OneVerifies};

use crate::Error;
use crate::pieces::{Pieces, check_enough, missing_count, surplus_count};
use crate::receiving::received_in_slices;
use crate::separate_store::SeparateStore;
use crate::strip_comparer::check_by_encoding;
use crate::strip_rebuilder::make_listed;
use rs_field::engine::Engine;
use rs_rate::rate::DefaultRateCounts;
use std::alloc::Global;

/// Checks that received shards belong to one message. It restores nothing.
///
/// `original` and `recovery` hold the received shards with their indexes. The index of an original is its place in the
/// order in which the originals were added to the encoder, counted from 0. Recovery shards have indexes of their own,
/// which also begin at 0. All shards have the size of the first recovery shard, or of the first original if there is no
/// recovery shard.
///
/// The call succeeds if and only if there is a message that agrees with every received shard. If exactly
/// `original_count` shards were received, there always is one, so the call cannot notice any damage. If t more shards
/// were received, and at least one but at most t of the received shards are damaged, the call fails with
/// [`Error::InconsistentShards`].
///
/// The call allocates two lists of references to shards. If there are not more shards than originals, it does nothing
/// else. If there are more and all originals were received, it encodes them and compares, with a work area for at most
/// 4096 bytes of each shard. Otherwise it does the work of a decode: if there are few more shards than originals, it
/// sums shards, and allocates short lists of rows and logarithms; if there are many more, it allocates a work area for
/// at most 2048 bytes of each shard.
///
/// # Errors
///
/// - [`Error::UnsupportedShardCount`] if the counts are not [supported](crate::ReedSolomonDecoder::supports).
/// - [`Error::NotEnoughShards`] if there is no shard.
/// - [`Error::InvalidShardSize`] if the size of the shards is zero or odd.
/// - [`Error::OutOfMemory`] if the rows for the whole shards would take more than `usize::MAX` bytes, or if the lists
///   of references cannot be allocated.
/// - For each original in order: [`Error::InvalidOriginalShardIndex`], [`Error::DuplicateOriginalShardIndex`],
///   [`Error::DifferentShardSize`].
/// - For each recovery shard in order: [`Error::InvalidRecoveryShardIndex`], [`Error::DuplicateRecoveryShardIndex`],
///   [`Error::DifferentShardSize`].
/// - [`Error::NotEnoughShards`] if there are fewer than `original_count` shards.
/// - [`Error::OutOfMemory`] if the work area cannot be allocated.
/// - [`Error::InconsistentShards`] if no message agrees with all received shards.
///
/// The order is proved, with one exception: if the check of the size finds no error, the contract allows
/// [`Error::OutOfMemory`] instead of any other result.
///
/// # Examples
///
/// Two originals and two recovery shards of three originals belong to one message. If a byte is changed, they do not:
///
/// ```
/// // ORIGINAL is [b"Three shards", b" of one size", b" are coded. "], and RECOVERY has its two recovery shards.
/// let original: [(usize, &[u8]); 2] = [(0, ORIGINAL[0]), (2, ORIGINAL[2])];
/// let recovery: [(usize, &[u8]); 2] = [(0, &RECOVERY[0]), (1, &RECOVERY[1])];
/// verify(alloc, 3, 2, &original, &recovery, engine)?;
/// let changed: [(usize, &[u8]); 2] = [(0, ORIGINAL[0]), (2, b" are coded! ")];
/// let refusal = Error::InconsistentShards {
///     original_received_count: 2,
///     recovery_received_count: 2,
/// };
/// let answer = verify(alloc, 3, 2, &changed, &recovery, engine);
/// assert_eq!(rt; answer, Err(refusal));
/// ```
pub fn verify<E: Engine>(
    alloc: Global,
    original_count: usize,
    recovery_count: usize,
    original: &[(usize, &[u8])],
    recovery: &[(usize, &[u8])],
    engine: E,
) -> Result<(), Error>
    ensures { OneVerifies original_count recovery_count
        (map (λ item. (item.0, item.1.now)) original.now)
        (map (λ item. (item.0, item.1.now)) recovery.now) result }
{
    let counts = DefaultRateCounts::new(original_count, recovery_count)?;
    let received = received_in_slices(alloc, counts, original, recovery)?;
    check_enough(&received)?;
    check_consistent(alloc, engine, &received)
}

/// Checks that some message agrees with all received shards. There are at least as many as originals.
///
/// # Errors
///
/// - [`Error::OutOfMemory`] if the work area cannot be allocated.
/// - [`Error::InconsistentShards`] if no message agrees with all received shards.
pub fn check_consistent<E: Engine, P: Pieces>(
    alloc: Global,
    engine: E,
    received: &P,
) -> Result<(), Error>
    requires set_up { IsDecoder default_rate (P.received received.now) }
    requires enough { enough_given (P.received received.now) ≡ Ok tt }
    ensures { MatchResult result (λ _. IsConsistent (P.received received.now))
        (λ e. NoneAgrees (P.received received.now) e ⊎ (e ≡ Error.OutOfMemory)) }
{
    if surplus_count(received) == 0 {
        return Ok(());
    }
    let mut rooms: Vec<Vec<u8>> = Vec::new(alloc);
    let mut store = SeparateStore {
        pieces: received,
        rooms: &mut rooms,
    };
    if missing_count(received) == 0 {
        return check_by_encoding(alloc, &engine, &mut store);
    }
    make_listed(alloc, &engine, &[], &mut store)
}

/// Returns the error of a call that cannot allocate its results: [`Error::InconsistentShards`] if no message agrees
/// with all received shards. Otherwise it returns [`Error::OutOfMemory`].
///
/// The check needs a work area. If it cannot be allocated, the error is [`Error::OutOfMemory`].
pub fn error_without_results<E: Engine, P: Pieces>(alloc: Global, engine: E, received: &P) -> Error
    requires set_up { IsDecoder default_rate (P.received received.now) }
    requires enough { enough_given (P.received received.now) ≡ Ok tt }
    ensures { NoneAgrees (P.received received.now) result ⊎ (result ≡ Error.OutOfMemory) }
{
    match check_consistent(alloc, engine, received) {
        Ok(()) => Error::OutOfMemory,
        Err(error) => error,
    }
}

//! Functions that encode or decode in one call, over iterators of shards.
ghost use Rattle.std.specs.Prelude.{◌≡◌, List, Err, IfOk, IfErr};
ghost use Rattle.std.specs.Iterator.{IsFinite};
ghost use Rattle.rs_field.specs.code.Column.{Shard};
ghost use Rattle.rs_field.specs.code.OneCall.{Items, Lends, LendsItems, counts_outcome};
ghost use Rattle.rs_field.specs.code.OneCall.{collected_shards, collected_map, OneEncodeAnswers};
ghost use Rattle.rs_field.specs.code.OneCall.{OneDecodeAnswers};
ghost use Rattle.rs_field.specs.code.RoundTrip.{AreCoded};
ghost use Rattle.rs_rate.specs.objects.Calls.{Calls, BeginsWith, BeginsWithItems};

use crate::lent_originals::LentOriginals;
use crate::pieces::check_enough;
use crate::receiving::received_shards;
use crate::restoring::{by_index, restore_vectors};
use rs_engines::engine_default::DefaultEngine;
use rs_field::error::Error;
use rs_rate::rate::DefaultRateCounts;
use std::alloc::Global;
use std::collections::BTreeMap;

/// Encodes the originals and returns the recovery shards, in order of their index.
///
/// `original` yields the originals in order; the first one has index 0. All have the size of the first original, an
/// even number of bytes above zero. After an error, and after the end of the iterator, `encode` does not call `next`
/// again.
///
/// # Errors
///
/// - [`Error::UnsupportedShardCount`] if the counts are not [supported](crate::ReedSolomonEncoder::supports).
/// - [`Error::TooFewOriginalShards`] with 0 received shards if `original` yields no shard.
/// - [`Error::InvalidShardSize`] if the size of the first original is zero or odd.
/// - [`Error::OutOfMemory`] if the rows for the whole shards would take more than `usize::MAX` bytes, or if the list of
///   references or the work area cannot be allocated. The work area holds at most 4096 bytes of each shard.
/// - For each original in order: [`Error::TooManyOriginalShards`], then [`Error::DifferentShardSize`].
/// - [`Error::TooFewOriginalShards`] if there are fewer than `original_count` originals.
/// - [`Error::OutOfMemory`] if the results cannot be allocated.
///
/// The order is proved, with one exception: if the check of the size of the first original finds no error, the contract
/// allows [`Error::OutOfMemory`] instead of any other result.
///
/// # Examples
///
/// One recovery shard of three originals is their XOR:
///
/// ```
/// let original: [&[u8]; 3] = [&[1, 2], &[4, 8], &[16, 32]];
/// let recovery = encode(alloc, 3, 1, original.into_iter(), engine)?;
/// assert_eq!(rt; recovery.len(), 1);
/// assert_eq!(rt; recovery[0].as_slice(), [21, 42].as_slice());
/// ```
pub fn encode<'a, I: Iterator<Item = &'a [u8]> + Drop>(
    alloc: Global,
    original_count: usize,
    recovery_count: usize,
    original: I,
    engine: DefaultEngine<'_>,
) -> Result<Vec<Vec<u8>>, Error>
    requires can { I.can_next original }
    requires ends { IsFinite (I.remaining original) }
    ensures counts { IfErr (counts_outcome original_count recovery_count) (λ e. result ≡ Err e) }
    ensures calls { (calls : Calls I.next_gives original)
        × ((items : List Shard) → BeginsWith items calls
        → OneEncodeAnswers original_count recovery_count items (collected_shards result)) }
    ensures answer { (items : List Shard) → Lends I.next_gives original items
        → OneEncodeAnswers original_count recovery_count items (collected_shards result) }
    ensures coded { (items : List Shard) → Lends I.next_gives original items
        → IfOk (collected_shards result) (AreCoded original_count recovery_count items) }
{
    let counts = DefaultRateCounts::new(original_count, recovery_count)?;
    let (originals, mut encoder) = LentOriginals::gather(alloc, counts, &engine, original)?;
    originals.check_all_given()?;
    originals.encode_vectors(alloc, &engine, &mut encoder)
}

/// Decodes the received shards and returns the missing originals, by their index.
///
/// `original` and `recovery` yield the received shards with their indexes. The index of an original is its place in the
/// order in which the originals were added to the encoder, counted from 0. Recovery shards have indexes of their own,
/// which also begin at 0. All shards have the size of the first recovery shard. After an error, `decode` calls neither
/// iterator again.
///
/// If `recovery` yields no shard, nothing can be restored. Then `decode` checks only the indexes of the originals, and
/// no size.
///
/// # Errors
///
/// If `recovery` yields a shard:
///
/// - [`Error::UnsupportedShardCount`] if the counts are not [supported](crate::ReedSolomonDecoder::supports).
/// - [`Error::InvalidShardSize`] if the size of the first recovery shard is zero or odd.
/// - [`Error::OutOfMemory`] if the rows for the whole shards would take more than `usize::MAX` bytes, or if the lists
///   of references cannot be allocated.
/// - For each original in order: [`Error::InvalidOriginalShardIndex`], [`Error::DuplicateOriginalShardIndex`],
///   [`Error::DifferentShardSize`].
/// - For each recovery shard in order: [`Error::InvalidRecoveryShardIndex`], [`Error::DuplicateRecoveryShardIndex`],
///   [`Error::DifferentShardSize`].
/// - [`Error::NotEnoughShards`] if there are fewer than `original_count` shards.
/// - [`Error::OutOfMemory`] if the work area cannot be allocated. It holds at most 2048 bytes of each shard.
/// - [`Error::InconsistentShards`] if there are more than `original_count` shards and no message agrees with them all.
/// - [`Error::OutOfMemory`] if the results cannot be allocated.
///
/// If `recovery` yields no shard:
///
/// - [`Error::UnsupportedShardCount`] if the counts are not [supported](crate::ReedSolomonDecoder::supports).
/// - [`Error::OutOfMemory`] if the marks of the indexes cannot be allocated.
/// - For each original in order: [`Error::InvalidOriginalShardIndex`], [`Error::DuplicateOriginalShardIndex`].
/// - [`Error::NotEnoughShards`] if originals are missing.
///
/// The order is proved, with one exception: if the check of the size of the first recovery shard finds no error, or if
/// `recovery` yields no shard and the check of the counts finds no error, the contract allows [`Error::OutOfMemory`]
/// instead of any other result.
///
/// # Examples
///
/// Two recovery shards restore two lost originals:
///
/// ```
/// let received: [(usize, &[u8]); 2] = [(0, &[2, 0]), (1, &[3, 0])];
/// let restored = decode(alloc, 2, 3, [].into_iter(), received.into_iter(), engine)?;
/// assert_eq!(rt; restored.get(&0).ok_or("none")?.as_slice(), [0, 0].as_slice());
/// assert_eq!(rt; restored.get(&1).ok_or("none")?.as_slice(), [1, 0].as_slice());
/// ```
pub fn decode<'a, O, R>(
    alloc: Global,
    original_count: usize,
    recovery_count: usize,
    original: O,
    recovery: R,
    engine: DefaultEngine<'_>,
) -> Result<BTreeMap<usize, Vec<u8>>, Error>
where
    O: Iterator<Item = (usize, &'a [u8])> + Drop,
    R: Iterator<Item = (usize, &'a [u8])> + Drop,
    requires can { O.can_next original }
    requires ends { IsFinite (O.remaining original) }
    requires can_recovery { R.can_next recovery }
    requires recovery_ends { IsFinite (R.remaining recovery) }
    ensures counts { IfErr (counts_outcome original_count recovery_count) (λ e. result ≡ Err e) }
    ensures calls { (calls : Calls O.next_gives original) × (further : Calls R.next_gives recovery)
        × ((originals recoveries : Items)
        → BeginsWithItems originals calls → BeginsWithItems recoveries further
        → OneDecodeAnswers original_count recovery_count originals recoveries
        (collected_map result)) }
    ensures answer { (originals recoveries : Items) → LendsItems O.next_gives original originals
        → LendsItems R.next_gives recovery recoveries
        → OneDecodeAnswers original_count recovery_count originals recoveries
        (collected_map result) }
{
    let counts = DefaultRateCounts::new(original_count, recovery_count)?;
    let Some(received) = received_shards(alloc, counts, original, recovery)? else {
        return Ok(BTreeMap::new(alloc));
    };
    check_enough(&received)?;
    let restored = restore_vectors(alloc, engine, &received)?;
    by_index(alloc, &received, restored)
}

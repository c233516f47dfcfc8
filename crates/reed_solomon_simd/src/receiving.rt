//! Functions that collect the shards that were received of a message.
ghost use Rattle.std.specs.Prelude.{◌≡◌, ◌++◌, map};
ghost use Rattle.std.specs.Iterator.{IsFinite};
ghost use Rattle.std.specs.Option.{option_map};
ghost use Rattle.std.specs.Result.{result_map_both};
ghost use Rattle.rs_field.specs.code.OneCall.{Items, with_originals, with_recoveries};
ghost use Rattle.rs_rate.specs.objects.Calls.{Calls, BeginsWithItems};
ghost use Rattle.rs_rate.specs.objects.Giving.{Reaches, IsDecoding};
ghost use Rattle.reed_solomon_simd.specs.ReceivedState.{received_state};
ghost use Rattle.reed_solomon_simd.specs.Verified.{IsReceiving, first_size, received_size};

use crate::received_shards::ReceivedShards;
use rs_field::error::Error;
use rs_rate::rate::DefaultRateCounts;
use rs_rate::rate::originals_alone::check_originals_alone;
use std::alloc::Global;

/// Returns the received shards, or `None` if `recovery` yields no shard and `original` yields every original. The shard
/// size is that of the first recovery shard.
///
/// # Errors
///
/// If `recovery` yields a shard:
///
/// - [`Error::InvalidShardSize`] if the size of the first recovery shard is zero or odd.
/// - [`Error::OutOfMemory`] if the rows for the whole shards would take more than `usize::MAX` bytes, or if the lists
///   of references cannot be allocated.
/// - For each original in order: [`Error::InvalidOriginalShardIndex`], [`Error::DuplicateOriginalShardIndex`],
///   [`Error::DifferentShardSize`].
/// - For each recovery shard in order: [`Error::InvalidRecoveryShardIndex`], [`Error::DuplicateRecoveryShardIndex`],
///   [`Error::DifferentShardSize`].
///
/// If `recovery` yields no shard: the errors of [`check_originals_alone`].
///
/// After an error, neither iterator is called again.
pub fn received_shards<'a, O, R>(
    alloc: Global,
    counts: DefaultRateCounts,
    original: O,
    mut recovery: R,
) -> Result<Option<ReceivedShards<'a>>, Error>
where
    O: Iterator<Item = (usize, &'a [u8])> + Drop,
    R: Iterator<Item = (usize, &'a [u8])> + Drop,
    requires can { O.can_next original }
    requires ends { IsFinite (O.remaining original) }
    requires can_recovery { R.can_next recovery }
    requires recovery_ends { IsFinite (R.remaining recovery) }
    ensures { (calls : Calls O.next_gives original) × (further : Calls R.next_gives recovery)
        × ((originals recoveries : Items)
        → BeginsWithItems originals calls → BeginsWithItems recoveries further
        → IsDecoding counts.original_count counts.recovery_count originals recoveries
        (result_map_both (λ o. option_map received_state o) (λ e. e) result)) }
{
    let Some((first_index, first_shard)) = recovery.next() else {
        check_originals_alone(alloc, counts.original_count, original)?;
        return Ok(None);
    };
    let mut received: ReceivedShards<'a> = ReceivedShards::new(alloc, counts, first_shard.len())?;
    add_originals(&mut received, original)?;
    received.add_recovery(first_index, first_shard)?;
    add_recovery(&mut received, recovery)?;
    Ok(Some(received))
}

/// Returns all received shards. The shard size is that of the first recovery shard, or if there is none, that of the
/// first original.
///
/// # Errors
///
/// - [`Error::NotEnoughShards`] if there is no shard.
/// - [`Error::InvalidShardSize`] if the shard size is zero or odd.
/// - [`Error::OutOfMemory`] if the rows for the whole shards would take more than `usize::MAX` bytes, or if the lists
///   of references cannot be allocated.
/// - For each original in order: [`Error::InvalidOriginalShardIndex`], [`Error::DuplicateOriginalShardIndex`],
///   [`Error::DifferentShardSize`].
/// - For each recovery shard in order: [`Error::InvalidRecoveryShardIndex`], [`Error::DuplicateRecoveryShardIndex`],
///   [`Error::DifferentShardSize`].
pub fn received_in_slices<'a>(
    alloc: Global,
    counts: DefaultRateCounts,
    original: &[(usize, &'a [u8])],
    recovery: &[(usize, &'a [u8])],
) -> Result<ReceivedShards<'a>, Error>
    ensures { IsReceiving counts.original_count counts.recovery_count
        (map (λ item. (item.0, item.1.now)) original.now)
        (map (λ item. (item.0, item.1.now)) recovery.now)
        (result_map_both received_state (λ e. e) result) }
{
    let shard_bytes = size_in_slices(original, recovery);
    let lent_originals = original.iter().map(|item| *item);
    let lent_recovery = recovery.iter().map(|item| *item);
    received_of_size(alloc, counts, shard_bytes, lent_originals, lent_recovery)
}

/// Returns all received shards. `shard_bytes` is the size of the first recovery shard, or if there is none, that of the
/// first original, or `None` if there is no shard.
///
/// # Errors
///
/// Those of [`received_in_slices`]. After an error, neither iterator is called again.
pub fn received_of_size<'a, O, R>(
    alloc: Global,
    counts: DefaultRateCounts,
    shard_bytes: Option<usize>,
    original: O,
    recovery: R,
) -> Result<ReceivedShards<'a>, Error>
where
    O: Iterator<Item = (usize, &'a [u8])> + Drop,
    R: Iterator<Item = (usize, &'a [u8])> + Drop,
    requires can { O.can_next original }
    requires ends { IsFinite (O.remaining original) }
    requires can_recovery { R.can_next recovery }
    requires recovery_ends { IsFinite (R.remaining recovery) }
    ensures { (calls : Calls O.next_gives original) × (further : Calls R.next_gives recovery)
        × ((originals recoveries : Items)
        → BeginsWithItems originals calls → BeginsWithItems recoveries further
        → shard_bytes ≡ received_size originals recoveries
        → IsReceiving counts.original_count counts.recovery_count originals recoveries
        (result_map_both received_state (λ e. e) result)) }
{
    let Some(shard_bytes) = shard_bytes else {
        return Err(Error::NotEnoughShards {
            original_count: counts.original_count,
            original_received_count: 0,
            recovery_received_count: 0,
        });
    };
    let mut received: ReceivedShards<'a> = ReceivedShards::new(alloc, counts, shard_bytes)?;
    add_originals(&mut received, original)?;
    add_recovery(&mut received, recovery)?;
    Ok(received)
}

// The first recovery shard says the size, as in `decode`. Without one, the first original does.
fn size_in_slices(original: &[(usize, &[u8])], recovery: &[(usize, &[u8])]) -> Option<usize>
    ensures { result ≡ first_size
        (map (λ item. (item.0, item.1.now)) recovery.now
        ++ map (λ item. (item.0, item.1.now)) original.now) }
{
    if !recovery.is_empty() {
        return Some(recovery[0].1.len());
    }
    if !original.is_empty() {
        return Some(original[0].1.len());
    }
    None
}

// Adds originals in order. Fails with the error of the first original that is not accepted.
fn add_originals<'a, I: Iterator<Item = (usize, &'a [u8])> + Drop>(
    received: &mut ReceivedShards<'a>,
    originals: I,
) -> Result<(), Error>
    requires can { I.can_next originals }
    requires ends { IsFinite (I.remaining originals) }
    ensures { (calls : Calls I.next_gives originals)
        × ((items : Items) → BeginsWithItems items calls
        → Reaches (with_originals (received_state received.old) items) result
        (λ s. received_state received.new ≡ s)) }
{
    for (index, shard) in originals {
        received.add_original(index, shard)?;
    }
    Ok(())
}

// Adds recovery shards in order. Fails with the error of the first recovery shard that is not accepted.
fn add_recovery<'a, I: Iterator<Item = (usize, &'a [u8])> + Drop>(
    received: &mut ReceivedShards<'a>,
    recovery: I,
) -> Result<(), Error>
    requires can { I.can_next recovery }
    requires ends { IsFinite (I.remaining recovery) }
    ensures { (calls : Calls I.next_gives recovery) × ((items : Items) → BeginsWithItems items calls
        → Reaches (with_recoveries (received_state received.old) items) result
        (λ s. received_state received.new ≡ s)) }
{
    for (index, shard) in recovery {
        received.add_recovery(index, shard)?;
    }
    Ok(())
}

//! Received and restored originals, put together in order of their index.
ghost use Rattle.std.specs.Prelude.{◌≡◌, ◌⊎◌, map, Ok, Err, MatchResult, OnOk};
ghost use Rattle.rs_field.specs.code.Given.{with_entry};
ghost use Rattle.rs_field.specs.code.OneCall.{one_by_one, shards_in, collected_shards};
ghost use Rattle.rs_field.specs.code.Outcome.{answer_of};
ghost use Rattle.rs_rate.specs.objects.Giving.{Reaches};
ghost use Rattle.reed_solomon_simd.specs.Messages.{enter_outcome, whole_outcome, HasInOrder};
ghost use Rattle.reed_solomon_simd.specs.Messages.{AreBelow, IsPast, Completes};

use rs_field::error::Error;
use std::alloc::Global;
use std::collections::BTreeMap;
use std::convert::AsSlice;

/// Puts received and restored originals together, and returns all originals in order of their index.
///
/// `received` has the received originals with their indexes. Each of them is a vector, an array or a slice of bytes.
/// `restored` has exactly the originals that are not in `received`, by their indexes. It is the map that
/// [`decode`](crate::decode) or [`decode_slice`](crate::decode_slice) returned for them, or a map of the originals that
/// [`reconstruct`](crate::reconstruct) returned. The call copies the received originals and moves the restored ones. It
/// does not check their sizes, but [`join`](crate::join) does.
///
/// # Errors
///
/// - [`Error::InvalidOriginalShardIndex`] if an index in `restored` is not below `original_count`.
/// - For each received original in order: [`Error::InvalidOriginalShardIndex`] if its index is not below
///   `original_count`, then [`Error::DuplicateOriginalShardIndex`] if its index is in `restored` or came before.
/// - [`Error::TooFewOriginalShards`] if an original is in neither of them. `original_received_count` is then the number
///   of originals in both.
/// - [`Error::OutOfMemory`] if memory cannot be allocated.
///
/// The order is proved, with one exception: if the check of the indexes in `restored` finds no error, the contract
/// allows [`Error::OutOfMemory`] instead of any other result.
///
/// # Examples
///
/// ```
/// // restored is the map with the items (0, b"ten ") and (2, b"s.\0\0").
/// let received: [(usize, &[u8]); 1] = [(1, b"byte")];
/// let originals = complete(alloc, 3, &received, restored)?;
/// let message = join(alloc, &originals, 10)?;
/// assert_eq!(rt; message.as_slice(), b"ten bytes.".as_slice());
/// ```
pub fn complete<O: AsSlice<u8>>(
    alloc: Global,
    original_count: usize,
    received: &[(usize, O)],
    restored: BTreeMap<usize, Vec<u8>>,
) -> Result<Vec<Vec<u8>>, Error>
    ensures { Completes original_count (map (λ item. (item.0, O.items item.1)) received.now)
        (shards_in restored) (collected_shards result) }
{
    check_below(original_count, &restored)?;
    let mut originals = restored;
    enter_all(alloc, original_count, received, &mut originals)?;
    in_order(alloc, original_count, originals)
}

// Checks that all indexes of a map are below `original_count`. Fails with `InvalidOriginalShardIndex`.
fn check_below(original_count: usize, restored: &BTreeMap<usize, Vec<u8>>) -> Result<(), Error>
    ensures { MatchResult result (λ _. AreBelow original_count (shards_in restored.now))
        (IsPast original_count (shards_in restored.now)) }
{
    if let Some((index, _)) = restored.last_key_value() {
        let index = *index;
        if index >= original_count {
            return Err(Error::InvalidOriginalShardIndex {
                original_count,
                index,
            });
        }
    }
    Ok(())
}

// Enters copies of received originals into a map, in order. Fails with the error of the first original that cannot be
// entered.
fn enter_all<O: AsSlice<u8>>(
    alloc: Global,
    original_count: usize,
    received: &[(usize, O)],
    originals: &mut BTreeMap<usize, Vec<u8>>,
) -> Result<(), Error>
    ensures { (result ≡ Err Error.OutOfMemory)
        ⊎ Reaches (one_by_one (enter_outcome original_count) (shards_in originals.old)
        (map (λ item. (item.0, O.items item.1)) received.now)) result
        (λ all. shards_in originals.new ≡ all) }
{
    for item in received {
        enter(alloc, original_count, item.0, item.1.as_slice(), originals)?;
    }
    Ok(())
}

// Enters a copy of an original into a map. Fails with `InvalidOriginalShardIndex`, then with
// `DuplicateOriginalShardIndex`, and then with `OutOfMemory` if the copy or the map cannot be allocated.
fn enter(
    alloc: Global,
    original_count: usize,
    index: usize,
    shard: &[u8],
    originals: &mut BTreeMap<usize, Vec<u8>>,
) -> Result<(), Error>
    ensures answer { (result ≡ Err Error.OutOfMemory)
        ⊎ (result
        ≡ answer_of (enter_outcome original_count (shards_in originals.old) (index, shard.now))) }
    ensures entered { OnOk result (shards_in originals.new
        ≡ with_entry (shards_in originals.old) index shard.now) }
{
    if index >= original_count {
        return Err(Error::InvalidOriginalShardIndex {
            original_count,
            index,
        });
    }
    if originals.contains_key(&index) {
        return Err(Error::DuplicateOriginalShardIndex { index });
    }
    originals.insert(index, shard.to_vec(alloc)?)?;
    Ok(())
}

// All keys of the map are below `original_count`, so an original is missing exactly if the list is too short.
fn in_order(
    alloc: Global,
    original_count: usize,
    mut originals: BTreeMap<usize, Vec<u8>>,
) -> Result<Vec<Vec<u8>>, Error>
    ensures { HasInOrder original_count (whole_outcome original_count (shards_in originals))
        (collected_shards result) }
{
    let mut shards = Vec::with_capacity(alloc, original_count)?;
    for index in 0..original_count {
        if let Some(shard) = originals.remove(&index) {
            shards.push(shard)?;
        }
    }
    let original_received_count = shards.len();
    if original_received_count < original_count {
        return Err(Error::TooFewOriginalShards {
            original_count,
            original_received_count,
        });
    }
    Ok(shards)
}

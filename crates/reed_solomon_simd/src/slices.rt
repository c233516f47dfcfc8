//! Functions that encode or decode in one call, over slices of shards.
ghost use Rattle.std.specs.Prelude.{map, IfOk};
ghost use Rattle.rs_field.specs.code.OneCall.{OneEncodeAnswers, OneDecodeAnswers, collected_shards, collected_map};
ghost use Rattle.rs_field.specs.code.RoundTrip.{AreCoded, RestoresOnly};

use crate::engine::DefaultEngine;
use crate::{Error, decode, encode};
use std::alloc::Global;
use std::collections::BTreeMap;
use std::convert::AsSlice;

/// Encodes originals in a slice, as [`encode`] does, and returns the recovery shards in order of their index. Each
/// original is a vector, an array or a slice of bytes. `original[i]` is the original with index i.
///
/// # Errors
///
/// The errors of [`encode`], in the same order.
///
/// # Examples
///
/// ```
/// // ORIGINAL is [b"Three shards", b" of one size", b" are coded. "].
/// let engine = DefaultEngine::new(&tables, EngineKind::Ssse3);
/// let recovery = encode_slice(alloc, 3, 2, &ORIGINAL, engine)?;
/// // The bytes of recovery[0] are 8B 6B 49 8D 2D 0E E3 62 FC E6 D5 C8.
/// // The bytes of recovery[1] are DF 0D 2F AD 07 23 9A 4E 8B 99 E5 FE.
/// ```
pub fn encode_slice<T: AsSlice<u8>>(
    alloc: Global,
    original_count: usize,
    recovery_count: usize,
    original: &[T],
    engine: DefaultEngine<'_>,
) -> Result<Vec<Vec<u8>>, Error>
    ensures coded { IfOk (collected_shards result)
        (AreCoded original_count recovery_count (map T.items original.now)) }
    ensures answer { OneEncodeAnswers original_count recovery_count (map T.items original.now)
        (collected_shards result) }
{
    let shards = original.iter().map(|shard| shard.as_slice());
    encode(alloc, original_count, recovery_count, shards, engine)
}

/// Decodes received shards in slices, as [`decode`] does, and returns the missing originals, by their index. Each item
/// of a slice is a pair of an index and a shard, and each shard is a vector, an array or a slice of bytes.
///
/// The index of an original is its place in the order in which the originals were added to the encoder, counted from 0.
/// Recovery shards have indexes of their own, which also begin at 0.
///
/// This call requires nothing of its caller, so its contract is a short form of the main theorem. The clause `restored`
/// states what a decode that succeeds returns, and the clause `answer` also states the errors in their order.
///
/// # Errors
///
/// The errors of [`decode`], in the same order.
///
/// # Examples
///
/// Originals 0 and 2 of three originals are lost. Original 1 and two recovery shards restore them:
///
/// ```
/// // ORIGINAL is [b"Three shards", b" of one size", b" are coded. "].
/// // recovery holds its two recovery shards.
/// let received: Vec<(usize, Vec<u8>)> = recovery.into_iter().enumerate().collect(alloc)?;
/// let restored = decode_slice(alloc, 3, 2, &[(1, ORIGINAL[1])], &received, engine)?;
/// // restored is a map of two items: 0 is mapped to b"Three shards", and 2 to b" are coded. ".
/// ```
pub fn decode_slice<O: AsSlice<u8>, R: AsSlice<u8>>(
    alloc: Global,
    original_count: usize,
    recovery_count: usize,
    original: &[(usize, O)],
    recovery: &[(usize, R)],
    engine: DefaultEngine<'_>,
) -> Result<BTreeMap<usize, Vec<u8>>, Error>
    ensures restored { IfOk (collected_map result) (RestoresOnly original_count recovery_count
        (map (λ item. (item.0, O.items item.1)) original.now)
        (map (λ item. (item.0, R.items item.1)) recovery.now)) }
    ensures answer { OneDecodeAnswers original_count recovery_count
        (map (λ item. (item.0, O.items item.1)) original.now)
        (map (λ item. (item.0, R.items item.1)) recovery.now) (collected_map result) }
{
    decode(
        alloc,
        original_count,
        recovery_count,
        original.iter().map(|item| (item.0, item.1.as_slice())),
        recovery.iter().map(|item| (item.0, item.1.as_slice())),
        engine,
    )
}

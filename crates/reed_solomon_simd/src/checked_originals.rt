//! Checks of originals. Those of a slice need no memory.
ghost use Rattle.std.specs.Prelude.{◌≡◌, ◌+◌, ◌≤◌, length, OnOk, Err, MatchResult};
ghost use Rattle.rs_field.specs.code.Column.{IsShard};
ghost use Rattle.rs_field.specs.code.Encoder.{EncoderState, with_shard};
ghost use Rattle.rs_field.specs.code.OneCall.{OneEncodeAnswers};
ghost use Rattle.rs_field.specs.code.Outcome.{answer_of};
ghost use Rattle.reed_solomon_simd.specs.Checked.{AreChecked};
ghost use Rattle.reed_solomon_simd.specs.Rooms.{shards_of};

use rs_field::bytes::are_bytes;
use rs_field::error::Error;
use rs_rate::rate::{DefaultRateCounts, check_encoder_rows};

/// Checks the originals of one message, and returns their size in bytes.
///
/// # Errors
///
/// - [`Error::TooFewOriginalShards`] with 0 received shards if there is no original.
/// - [`Error::InvalidShardSize`] if the size of the first original is zero or odd.
/// - [`Error::OutOfMemory`] if the rows for the whole shards would take more than `usize::MAX` bytes.
/// - For each original in order: [`Error::TooManyOriginalShards`], then [`Error::DifferentShardSize`].
/// - [`Error::TooFewOriginalShards`] if there are fewer originals than the counts say.
pub fn check_originals(counts: DefaultRateCounts, originals: &[&[u8]]) -> Result<usize, Error>
    ensures { MatchResult result
        (λ size. AreChecked counts.original_count counts.recovery_count size
        (shards_of originals.now))
        (λ e. OneEncodeAnswers counts.original_count counts.recovery_count
        (shards_of originals.now) (Err e)) }
{
    let original_count = counts.original_count;
    if originals.is_empty() {
        return Err(Error::TooFewOriginalShards {
            original_count,
            original_received_count: 0,
        });
    }
    let shard_bytes = originals[0].len();
    check_encoder_rows(counts, shard_bytes)?;
    for index in 0..originals.len() {
        check_original(original_count, shard_bytes, index, originals[index])?;
    }
    if originals.len() < original_count {
        return Err(Error::TooFewOriginalShards {
            original_count,
            original_received_count: originals.len(),
        });
    }
    Ok(shard_bytes)
}

// Checks the original with this index. Fails with `TooManyOriginalShards`, and then with `DifferentShardSize`.
pub(crate) fn check_original(
    original_count: usize,
    shard_bytes: usize,
    index: usize,
    shard: &[u8],
) -> Result<(), Error>
    ensures answer { (s : EncoderState)
        → s.configuration.original_count ≡ original_count
        → s.configuration.shard_bytes ≡ shard_bytes
        → length s.given ≡ index → result ≡ answer_of (with_shard s shard.now) }
    ensures shard { OnOk result (IsShard shard_bytes shard.now) }
    ensures few { OnOk result (index + 1 ≤ original_count) }
{
    are_bytes(shard);
    if index >= original_count {
        return Err(Error::TooManyOriginalShards { original_count });
    }
    if shard.len() != shard_bytes {
        return Err(Error::DifferentShardSize {
            shard_bytes,
            got: shard.len(),
        });
    }
    Ok(())
}

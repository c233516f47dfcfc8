//! The shards that were received of a message, as slices of the caller's memory.
ghost use Rattle.std.specs.Prelude.{◌≡◌, ◌<◌, ◌+◌, ◌==◌, IfOk, if◌then◌else◌, None};
ghost use Rattle.std.specs.Prelude.{Ok, Err, length, MatchResult, OnOk};
ghost use Rattle.rs_field.specs.code.Column.{IsShard};
ghost use Rattle.rs_field.specs.code.Configuration.{start_outcome};
ghost use Rattle.rs_field.specs.code.Counts.{default_rate};
ghost use Rattle.rs_field.specs.code.Decoder.{fresh_decoder, with_original, with_recovery};
ghost use Rattle.rs_field.specs.code.Given.{AreWithin, nothing, with_entry, count_below};
ghost use Rattle.rs_field.specs.code.OneCall.{default_of};
ghost use Rattle.rs_field.specs.code.Outcome.{answer_of, state_after};
ghost use Rattle.rs_field.specs.code.Frame.{decoder_rows};
ghost use Rattle.reed_solomon_simd.specs.Received.{given_in};

use rs_field::bytes::are_bytes;
use rs_field::error::Error;
use rs_rate::rate::{DefaultRateCounts, check_decoder_rows};
use std::alloc::Global;

/// Received shards of one kind: originals or recovery shards.
#[derive(Drop)]
pub struct ShardsByIndex<'a> {
    /// A place for each index, with the shard if it was received.
    pub(crate) shards: Vec<Option<&'a [u8]>>,
    /// The number of shards that were received.
    pub(crate) number: usize,
    pub ghost counted: { number ≡ count_below (length shards.items) (given_in shards.items) },
}

impl<'a> ShardsByIndex<'a> {
    // Makes `count` places with no shard, or fails with `OutOfMemory`.
    fn new(alloc: Global, count: usize) -> Result<ShardsByIndex<'a>, Error>
        ensures { MatchResult result
            (λ places. (length places.shards.items ≡ count)
            × (given_in places.shards.items ≡ nothing))
            (λ e. e ≡ Error.OutOfMemory) }
    {
        let shards: Vec<Option<&'a [u8]>> = vec![in alloc; None; count]?;
        Ok(ShardsByIndex { shards, number: 0 })
    }

    // Puts a shard into a place that has none.
    fn enter(&mut self, index: usize, shard: &'a [u8])
        requires inside { index < length self.old.shards.items }
        requires free { given_in self.old.shards.items index ≡ None }
        ensures entered { given_in self.new.shards.items
            ≡ with_entry (given_in self.old.shards.items) index shard.now }
        ensures length { length self.new.shards.items ≡ length self.old.shards.items }
    {
        self.shards[index] = Some(shard);
        self.number += 1;
    }
}

/// The shards that were received of one message, with the counts and the size of the message.
#[derive(Drop)]
pub struct ReceivedShards<'a> {
    /// The counts of the message.
    pub(crate) counts: DefaultRateCounts,
    /// The size of a shard, in bytes.
    pub(crate) shard_bytes: usize,
    /// The received originals.
    pub(crate) originals: ShardsByIndex<'a>,
    /// The received recovery shards.
    pub(crate) recovery: ShardsByIndex<'a>,
    pub ghost set_up: { let c =
        default_of counts.original_count counts.recovery_count shard_bytes in
        start_outcome (decoder_rows default_rate c.original_count c.recovery_count) c ≡ Ok tt },
    pub ghost original_places: { length originals.shards.items ≡ counts.original_count },
    pub ghost recovery_places: { length recovery.shards.items ≡ counts.recovery_count },
    pub ghost originals_within: { AreWithin counts.original_count shard_bytes
        (given_in originals.shards.items) },
    pub ghost recovery_within: { AreWithin counts.recovery_count shard_bytes
        (given_in recovery.shards.items) },
}

impl<'a> ReceivedShards<'a> {
    ghost use Rattle.std.specs.Prelude.{◌+◌, IfOk};
    ghost use Rattle.rs_field.specs.code.Configuration.{UpToMemory};
    ghost use Rattle.reed_solomon_simd.specs.ReceivedState.{received_state};

    // Makes an empty set of received shards for these counts and this size. Fails with `InvalidShardSize`, and then
    // with `OutOfMemory` if the rows for the whole shards would take more than `usize::MAX` bytes, or if the lists of
    // references cannot be allocated.
    pub(crate) fn new(
        alloc: Global,
        counts: DefaultRateCounts,
        shard_bytes: usize,
    ) -> Result<ReceivedShards<'a>, Error>
        ensures answer { let c =
            default_of counts.original_count counts.recovery_count shard_bytes in
            UpToMemory
            (start_outcome (decoder_rows default_rate c.original_count c.recovery_count) c)
            (answer_of result) }
        ensures made { IfOk result
            (λ x. received_state x
            ≡ fresh_decoder (default_of counts.original_count counts.recovery_count shard_bytes)) }
    {
        check_decoder_rows(counts, shard_bytes)?;
        Ok(ReceivedShards {
            counts,
            shard_bytes,
            originals: ShardsByIndex::new(alloc, counts.original_count)?,
            recovery: ShardsByIndex::new(alloc, counts.recovery_count)?,
        })
    }

    // Adds the original with this index. Fails with `InvalidOriginalShardIndex`, then with
    // `DuplicateOriginalShardIndex`, and then with `DifferentShardSize`.
    pub(crate) fn add_original(&mut self, index: usize, shard: &'a [u8]) -> Result<(), Error>
        ensures answer { result
            ≡ answer_of (with_original (received_state self.old) index shard.now) }
        ensures left { received_state self.new
            ≡ state_after (received_state self.old)
            (with_original (received_state self.old) index shard.now) }
    {
        let original_count = self.counts.original_count;
        if index >= original_count {
            return Err(Error::InvalidOriginalShardIndex {
                original_count,
                index,
            });
        }
        if self.originals.shards[index].is_some() {
            return Err(Error::DuplicateOriginalShardIndex { index });
        }
        check_size(self.shard_bytes, shard)?;
        self.originals.enter(index, shard);
        Ok(())
    }

    // Adds the recovery shard with this index. Fails with `InvalidRecoveryShardIndex`, then with
    // `DuplicateRecoveryShardIndex`, and then with `DifferentShardSize`.
    pub(crate) fn add_recovery(&mut self, index: usize, shard: &'a [u8]) -> Result<(), Error>
        ensures answer { result
            ≡ answer_of (with_recovery (received_state self.old) index shard.now) }
        ensures left { received_state self.new
            ≡ state_after (received_state self.old)
            (with_recovery (received_state self.old) index shard.now) }
    {
        let recovery_count = self.counts.recovery_count;
        if index >= recovery_count {
            return Err(Error::InvalidRecoveryShardIndex {
                recovery_count,
                index,
            });
        }
        if self.recovery.shards[index].is_some() {
            return Err(Error::DuplicateRecoveryShardIndex { index });
        }
        check_size(self.shard_bytes, shard)?;
        self.recovery.enter(index, shard);
        Ok(())
    }
}

// Fails with `DifferentShardSize` if the shard does not have `shard_bytes` bytes.
fn check_size(shard_bytes: usize, shard: &[u8]) -> Result<(), Error>
    ensures answer { result
        ≡ (if length shard.now == shard_bytes then Ok tt
        else Err (Error.DifferentShardSize shard_bytes (length shard.now))) }
    ensures shard { OnOk result (IsShard shard_bytes shard.now) }
{
    are_bytes(shard);
    if shard.len() == shard_bytes {
        Ok(())
    } else {
        Err(Error::DifferentShardSize {
            shard_bytes,
            got: shard.len(),
        })
    }
}

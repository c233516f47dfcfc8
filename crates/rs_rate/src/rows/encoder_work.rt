//! The work of an encoder, which is the memory that encoders pass on, and the rows of an encoder in this memory.
ghost use Rattle.std.specs.Prelude.{◌≡◌, ℕ, ◌*◌, ◌^◌, ◌<◌, ◌≤◌, length, vec_len, IfSome, MatchOption};
ghost use Rattle.std.specs.Vec.{vec_capacity};
ghost use Rattle.rs_field.specs.code.Column.{IsShard};
ghost use Rattle.rs_field.specs.code.Counts.{Rate};
ghost use Rattle.rs_field.specs.code.Outcome.{answer_of, state_after};
ghost use Rattle.rs_field.specs.code.Encoder.{fresh_encoder, with_shard, message_of};
ghost use Rattle.rs_rate.specs.values.Configured.{IsConfigured, rows_to_encode};
ghost use Rattle.rs_rate.specs.values.ChunkCounts.{chunk_count};
ghost use Rattle.rs_rate.specs.rows.ShardRows.{shard_laid_out, shard_in_order};

use crate::rows::memory::{make_room, set_chunks, vec_of};
use crate::rows::object_rows::ObjectRows;
use crate::rows::shard_rows::{insert_at, shard_at};
use crate::values::configuration::{Configuration, chunk_count};
use rs_field::bytes::are_bytes;
use rs_field::error::Error;
use std::alloc::Global;

/// The memory of an encoder. It can pass from one encoder to the next, which then allocates only what is missing.
#[derive(Drop)]
pub struct EncoderWork {
    /// The chunks that an encoder had, if there was one.
    pub(crate) chunks: Option<Vec<[u8; 64]>>,
}

/// The rows of an encoder.
#[derive(Drop)]
pub struct EncoderRows {
    /// The configuration for which the rows are set up.
    pub(crate) configuration: Configuration,
    /// The number of originals that were added in the current round.
    pub(crate) originals_given: usize,
    /// The chunks of the rows, row after row.
    pub(crate) chunks: Vec<[u8; 64]>,
    pub ghost configured: { IsConfigured configuration },
    pub ghost no_more: { originals_given ≤ configuration.original_count },
    pub ghost whole: { vec_len chunks
        ≡ chunk_count (rows_to_encode configuration) configuration.shard_bytes },
    pub ghost own_room: { chunk_count (rows_to_encode configuration) configuration.shard_bytes
        ≤ vec_capacity chunks },
    pub ghost sized: { chunk_count
        (rows_to_encode configuration) configuration.shard_bytes * 64 < 2 ^ 64 },
    pub ghost shards: { (i : ℕ) → i < originals_given
        → IsShard configuration.shard_bytes
        (shard_laid_out chunks.items configuration.shard_bytes i) },
}

impl EncoderWork {
    ghost use Rattle.rs_rate.specs.rows.EncoderView.{work_room};

    /// Makes a work that holds no memory.
    pub fn new() -> EncoderWork
        ensures { work_room result ≡ 0 }
    {
        EncoderWork { chunks: None }
    }
}

impl Default for EncoderWork {
    ghost use Rattle.rs_rate.specs.rows.EncoderView.{work_room};

    ghost is_default = { λ work. work_room work ≡ 0 };

    fn default() -> EncoderWork {
        EncoderWork::new()
    }
}

impl ObjectRows for EncoderRows {
    ghost use Rattle.std.proofs.Common.{le_refl, refl};
    ghost use Rattle.rs_field.specs.code.Encoder.{EncoderState};
    ghost use Rattle.rs_field.specs.code.Frame.{encoder_rows};
    ghost use Rattle.rs_rate.specs.rows.RowsLaws.{some_anyway};
    ghost use Rattle.rs_rate.specs.values.RowCounts.{encoder_rows_set_up, chunks_within};
    ghost use Rattle.rs_rate.specs.rows.EncoderView.{encoder_state, work_room};

    type Work = Option<EncoderWork>;

    ghost State = { EncoderState };

    ghost Room = { ℕ };

    ghost row_count = { encoder_rows };

    ghost configuration_of = { λ x. x.configuration };

    ghost state = { encoder_state };

    ghost fresh = { fresh_encoder };

    ghost room = { λ x. vec_capacity x.chunks };

    ghost has_room = { λ room n size. chunk_count n size ≤ room };

    ghost grows = { λ old new. old ≤ new };

    ghost grows_from = { λ work room. IfSome work (λ w. work_room w ≤ room) };

    ghost where_roomy = { λ work n size answer wanted. IfSome work
        (λ w. chunk_count n size ≤ work_room w → answer ≡ wanted) };

    fn new(
        alloc: Global,
        configuration: Configuration,
        work: Option<EncoderWork>,
    ) -> Result<EncoderRows, Error> {
        let count = chunk_count(configuration.encoder_rows(), configuration.shard_bytes)?;
        let mut chunks = match work {
            Some(work) => vec_of(alloc, work.chunks),
            None => Vec::new(alloc),
        };
        make_room(&mut chunks, count)?;
        set_chunks(&mut chunks, count);
        Ok(EncoderRows {
            configuration,
            originals_given: 0,
            chunks,
        })
    }

    fn reset(&mut self, configuration: Configuration) -> Result<(), Error> {
        let count = chunk_count(configuration.encoder_rows(), configuration.shard_bytes)?;
        make_room(&mut self.chunks, count)?;
        self.originals_given = 0;
        set_chunks(&mut self.chunks, count);
        self.configuration = configuration;
        Ok(())
    }

    ghost grows_from_itself = { le_refl };

    ghost equal_with_room = { λ work n size answer wanted same.
        some_anyway work _ (λ w roomy. same) };

    ghost rows_set_up = { encoder_rows_set_up };

    ghost own_room = { λ x size less.
        chunks_within _ _ size _ _ refl less x.sized x.own_room };
}

impl EncoderRows {
    ghost use Rattle.rs_rate.specs.rows.EncoderView.{encoder_state};

    // Adds the next original. Fails with `TooManyOriginalShards` if all originals were added, and then with
    // `DifferentShardSize` if the shard has another size.
    pub(crate) fn add_original_shard(&mut self, original_shard: &[u8]) -> Result<(), Error>
        ensures answer { (rate : Rate)
            → result ≡ answer_of (with_shard (encoder_state rate self.old) original_shard.now) }
        ensures left { (rate : Rate)
            → encoder_state rate self.new
            ≡ state_after (encoder_state rate self.old)
            (with_shard (encoder_state rate self.old) original_shard.now) }
        ensures configuration { self.new.configuration ≡ self.old.configuration }
        ensures room { vec_capacity self.new.chunks ≡ vec_capacity self.old.chunks }
    {
        if self.originals_given == self.configuration.original_count {
            return Err(Error::TooManyOriginalShards {
                original_count: self.configuration.original_count,
            });
        }
        if original_shard.len() != self.configuration.shard_bytes {
            return Err(Error::DifferentShardSize {
                shard_bytes: self.configuration.shard_bytes,
                got: original_shard.len(),
            });
        }
        self.take_original_shard(original_shard);
        Ok(())
    }

    // Takes the next original: copies it into its row. An original is missing, and the shard has the size.
    fn take_original_shard(&mut self, original_shard: &[u8])
        requires more { self.old.originals_given < self.old.configuration.original_count }
        requires size { length original_shard.now ≡ self.old.configuration.shard_bytes }
        ensures left { (rate : Rate)
            → encoder_state rate self.new
            ≡ state_after (encoder_state rate self.old)
            (with_shard (encoder_state rate self.old) original_shard.now) }
        ensures configuration { self.new.configuration ≡ self.old.configuration }
        ensures room { vec_capacity self.new.chunks ≡ vec_capacity self.old.chunks }
    {
        are_bytes(original_shard);
        // With the size from here, the compiler computes the length of a row once for all shards.
        let shard = &original_shard[..self.configuration.shard_bytes];
        insert_at(self.chunks.as_mut_slice(), shard, self.originals_given);
        self.originals_given += 1;
    }

    // Fails with `TooFewOriginalShards` if originals are missing.
    pub(crate) fn check_all_given(&self) -> Result<(), Error>
        ensures { (rate : Rate) → result ≡ answer_of (message_of (encoder_state rate self.now)) }
    {
        if self.originals_given < self.configuration.original_count {
            return Err(Error::TooFewOriginalShards {
                original_count: self.configuration.original_count,
                original_received_count: self.originals_given,
            });
        }
        Ok(())
    }

    pub(crate) fn recovery(&self, index: usize) -> Option<&[u8]>
        ensures { MatchOption result (self.now.configuration.recovery_count ≤ index)
            (λ shard. (index < self.now.configuration.recovery_count)
            × (shard.now
            ≡ shard_in_order self.now.chunks.items
            self.now.configuration.shard_bytes index)) }
    {
        if index >= self.configuration.recovery_count {
            return None;
        }
        Some(shard_at(
            self.chunks.as_slice(),
            self.configuration.shard_bytes,
            index,
        ))
    }
}

//! An encoder of the default rate without an engine, for the strips of shards. It uses the engine that is passed to
//! `new` and to `encode`, so an encoder and a decoder can share it.
ghost use Rattle.std.specs.Prelude.{◌≡◌, ◌≢◌, ℕ, ◌%◌, ◌<◌, ◌≤◌, true, All, Ok, length, vec_len, min};
ghost use Rattle.std.specs.Prelude.{IfOk, IfErr, MatchOption};
ghost use Rattle.rs_field.specs.code.Bounds.{EncodeCountsAt};
ghost use Rattle.rs_field.specs.code.Code.{AreRecovery};
ghost use Rattle.rs_field.specs.code.Column.{shard_at};
ghost use Rattle.rs_field.specs.code.Configuration.{configuration, validation_outcome};
ghost use Rattle.rs_field.specs.code.Counts.{default_rate, is_low};
ghost use Rattle.rs_rate.specs.passes.Reading.{CanRead, strip_rows};
ghost use Rattle.rs_rate.specs.rows.ShardRows.{IsByteSum};
ghost use Rattle.rs_rate.specs.values.ChunkCounts.{chunk_count};
ghost use Rattle.rs_rate.specs.values.Configured.{IsConfigured, rate_of};

use crate::passes::message_encoding::encode_message;
use crate::passes::read_encoding::{can_read, is_reading_faster, read_rows};
use crate::passes::strip_message::StripMessage;
use crate::rows::memory::{make_room, set_chunks};
use crate::rows::shard_rows::{add_at, shard_at};
use crate::values::configuration::{Configuration, chunk_count};
use crate::values::supported_counts::DefaultRateCounts;
use rs_field::engine::{Engine, Steps};
use rs_field::error::Error;
use std::alloc::Global;

/// An encoder of the default rate for the strips of shards, with the recovery shards of its last strip.
#[derive(Drop)]
pub struct StripEncoder {
    /// The counts and a size: that of the last strip, or before the first one, the largest that `new` allows.
    pub(crate) configuration: Configuration,
    /// Whether originals are read where they are.
    pub(crate) reads: bool,
    /// The chunks of the rows, row after row, and any further chunks.
    pub(crate) chunks: Vec<[u8; 64]>,
    pub ghost configured: { IsConfigured configuration },
    pub ghost alike: { let c = configuration in
        is_low (rate_of c) c.original_count c.recovery_count
        ≡ is_low default_rate c.original_count c.recovery_count },
    pub ghost can: { reads ≡ true → CanRead configuration },
    pub ghost room: { chunk_count (strip_rows reads configuration) configuration.shard_bytes
        ≤ vec_len chunks },
}

impl StripEncoder {
    ghost use Rattle.rs_rate.specs.objects.StripView.{code_of, coded_shards};

    /// Makes an encoder for strips of at most `strip_bytes` bytes of shards of this size. The smaller of these sizes is
    /// even and not zero. The encoder reads originals where they are if that is faster with this engine, and if no
    /// strip has a tail.
    ///
    /// # Errors
    ///
    /// [`Error::OutOfMemory`] if the rows cannot be allocated, or if their bytes exceed `usize::MAX`.
    pub fn new<E: Engine>(
        alloc: Global,
        counts: DefaultRateCounts,
        shard_bytes: usize,
        strip_bytes: usize,
        engine: &E,
    ) -> Result<StripEncoder, Error>
        requires valid { validation_outcome (configuration default_rate
            counts.original_count counts.recovery_count (min strip_bytes shard_bytes)) ≡ Ok tt }
        ensures made { IfOk result (λ x. code_of x ≡ configuration default_rate
            counts.original_count counts.recovery_count (min strip_bytes shard_bytes)) }
        ensures whole { IfOk result (λ x. x.reads ≡ true → shard_bytes % 64 ≡ 0) }
        ensures refused { IfErr result (λ e. e ≡ Error.OutOfMemory) }
    {
        let configuration = Configuration::new(counts, strip_bytes.min(shard_bytes))?;
        let is_faster = engine.reads_rows() && is_reading_faster(configuration);
        let reads = is_faster && shard_bytes % 64 == 0 && can_read(configuration);
        let rows = if reads {
            read_rows(configuration)
        } else {
            configuration.encoder_rows()
        };
        let count = chunk_count(rows, configuration.shard_bytes)?;
        let mut chunks = Vec::new(alloc);
        make_room(&mut chunks, count)?;
        set_chunks(&mut chunks, count);
        Ok(StripEncoder {
            configuration,
            reads,
            chunks,
        })
    }

    /// Encodes a strip of a message: `bytes` bytes of each original. The recovery shards are then in the encoder.
    /// `bytes` is even and not zero, and at most the size of the strip before or of [`new`](StripEncoder::new). If the
    /// encoder reads originals where they are, `bytes` is a multiple of 64.
    pub fn encode<E: Engine, M: StripMessage>(
        &mut self,
        engine: &E,
        steps: &mut Steps,
        bytes: usize,
        message: &M,
    )
        requires shorter { bytes ≤ (code_of self.old).shard_bytes }
        requires some { 0 < bytes }
        requires even { bytes % 2 ≡ 0 }
        requires whole { self.old.reads ≡ true → bytes % 64 ≡ 0 }
        requires number { length (M.shards message.now) ≡ (code_of self.old).original_count }
        requires sized { All (λ shard. length shard ≡ bytes) (M.shards message.now) }
        ensures coded { AreRecovery (code_of self.new) (M.shards message.now)
            (coded_shards self.new) }
        ensures code { let c = code_of self.old in code_of self.new
            ≡ configuration default_rate c.original_count c.recovery_count bytes }
        ensures reads { self.new.reads ≡ self.old.reads }
        ensures counts { let c = code_of self.old in
            EncodeCountsAt default_rate c.original_count c.recovery_count steps.old steps.new }
    {
        self.configuration.shard_bytes = bytes;
        let chunks = self.chunks.as_mut_slice();
        encode_message(
            engine,
            steps,
            chunks,
            self.configuration,
            self.reads,
            message,
        );
    }

    /// Returns the number of recovery shards.
    pub fn recovery_count(&self) -> usize
        ensures { result ≡ (code_of self.now).recovery_count }
    {
        self.configuration.recovery_count
    }

    /// Returns the recovery shard of the last strip with this index, or `None` if `index` is not below the number of
    /// recovery shards.
    pub fn recovery(&self, index: usize) -> Option<&[u8]>
        ensures { MatchOption result (length (coded_shards self.now) ≤ index)
            (λ shard. (index < length (coded_shards self.now))
            × (shard.now ≡ shard_at (coded_shards self.now) index)) }
    {
        if index >= self.configuration.recovery_count {
            return None;
        }
        let shard_bytes = self.configuration.shard_bytes;
        Some(shard_at(self.chunks.as_slice(), shard_bytes, index))
    }

    /// Adds a shard, byte by byte, to the recovery shard of the last strip with this index.
    pub fn add_to_recovery(&mut self, index: usize, shard: &[u8])
        requires index { index < length (coded_shards self.old) }
        requires sized { length shard.now ≡ (code_of self.old).shard_bytes }
        ensures sum { IsByteSum (shard_at (coded_shards self.old) index) shard.now
            (shard_at (coded_shards self.new) index) }
        ensures others { (i : ℕ) → i ≢ index
            → shard_at (coded_shards self.new) i ≡ shard_at (coded_shards self.old) i }
        ensures code { code_of self.new ≡ code_of self.old }
        ensures reads { self.new.reads ≡ self.old.reads }
    {
        add_at(self.chunks.as_mut_slice(), shard, index);
    }
}

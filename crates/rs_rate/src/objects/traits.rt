//! The traits of a rate, its encoder and its decoder.

use crate::objects::decoder_result::DecoderResult;
use crate::objects::encoder_result::EncoderResult;
use crate::rows::decoder_work::DecoderWork;
use crate::rows::encoder_work::EncoderWork;
use rs_field::engine::{Engine, Steps};
use rs_field::error::Error;
use std::alloc::Global;

/// A rate of the code over an engine: which counts it supports, and its encoders and decoders.
pub trait Rate<E: Engine>: Sized {
    ghost use Rattle.std.specs.Prelude.{◌≡◌, ◌≤◌, IfOk, IfSome};
    ghost use Rattle.rs_field.specs.code.Counts.{Rate as WhichRate, supports as supports_counts};
    ghost use Rattle.rs_field.specs.code.Frame.{encoder_rows, decoder_rows};
    ghost use Rattle.rs_field.specs.code.Outcome.{answer_of};
    ghost use Rattle.rs_field.specs.code.Configuration.{configuration, validation_outcome, start_outcome, UpToMemory};
    ghost use Rattle.rs_field.specs.code.Encoder.{fresh_encoder};
    ghost use Rattle.rs_field.specs.code.Decoder.{fresh_decoder};
    ghost use Rattle.rs_rate.specs.values.ChunkCounts.{chunk_count};
    ghost use Rattle.rs_rate.specs.rows.EncoderView.{work_room};
    ghost use Rattle.rs_rate.specs.rows.DecoderRoom.{HasRoom, Grows, work_room as decoder_work_room};

    /// The encoder of the rate.
    type RateEncoder: RateEncoder<E, Rate = Self> + Drop;

    /// The decoder of the rate.
    type RateDecoder: RateDecoder<E, Rate = Self> + Drop;

    /// The low, the high or the default rate.
    ghost rate: { WhichRate };

    /// Returns whether the rate supports `original_count` originals with `recovery_count` recovery shards.
    ///
    /// Every rate requires that k = `original_count` and r = `recovery_count` are at least 1. Each rate also has a
    /// condition in which p(n) is the least power of two that is not below n:
    ///
    /// | Rate | Condition |
    /// |---|---|
    /// | low | p(k) + r <= 65536 |
    /// | high | p(r) + k <= 65536 |
    /// | default | min(p(k), p(r)) + max(k, r) <= 65536 |
    ///
    /// For example, the high rate and the default rate support 61440 originals with 4096 recovery shards, but the low
    /// rate does not: p(61440) is 65536.
    fn supports(original_count: usize, recovery_count: usize) -> bool
        ensures { result ≡ supports_counts rate original_count recovery_count }
    {
        Self::RateEncoder::supports(original_count, recovery_count)
    }

    /// Checks two counts and a shard size of `shard_bytes` bytes, and allocates nothing.
    ///
    /// # Errors
    ///
    /// - [`Error::UnsupportedShardCount`] if the rate does not [support](Self::supports) the counts.
    /// - [`Error::InvalidShardSize`] if `shard_bytes` is zero or odd.
    fn validate(
        original_count: usize,
        recovery_count: usize,
        shard_bytes: usize,
    ) -> Result<(), Error>
        ensures { result
            ≡ validation_outcome (configuration rate original_count recovery_count shard_bytes) }
    {
        Self::RateEncoder::validate(original_count, recovery_count, shard_bytes)
    }

    /// Makes an encoder of the rate, as [`RateEncoder::new`] does.
    ///
    /// # Errors
    ///
    /// The errors of [`RateEncoder::new`].
    fn encoder(
        alloc: Global,
        original_count: usize,
        recovery_count: usize,
        shard_bytes: usize,
        engine: E,
        work: Option<EncoderWork>,
    ) -> Result<Self::RateEncoder, Error>
        ensures answer { let c = configuration rate original_count recovery_count shard_bytes in
            UpToMemory (start_outcome (encoder_rows rate original_count recovery_count) c)
            (answer_of result) }
        ensures made { let c = configuration rate original_count recovery_count shard_bytes in
            IfOk result (λ x. (Self.RateEncoder.state x ≡ fresh_encoder c)
            × (Self.RateEncoder.engine_of x ≡ engine)) }
        ensures grown { IfOk result (λ x.
            IfSome work (λ w. work_room w ≤ Self.RateEncoder.room x)) }
        ensures roomy { IfSome work (λ w.
            chunk_count (encoder_rows rate original_count recovery_count) shard_bytes ≤ work_room w
            → answer_of result ≡ start_outcome (encoder_rows rate original_count recovery_count)
            (configuration rate original_count recovery_count shard_bytes)) }
    {
        Self::RateEncoder::new(
            alloc,
            original_count,
            recovery_count,
            shard_bytes,
            engine,
            work,
        )
    }

    /// Makes a decoder of the rate, as [`RateDecoder::new`] does.
    ///
    /// # Errors
    ///
    /// The errors of [`RateDecoder::new`].
    fn decoder(
        alloc: Global,
        original_count: usize,
        recovery_count: usize,
        shard_bytes: usize,
        engine: E,
        work: Option<DecoderWork>,
    ) -> Result<Self::RateDecoder, Error>
        ensures answer { let c = configuration rate original_count recovery_count shard_bytes in
            UpToMemory (start_outcome (decoder_rows rate original_count recovery_count) c)
            (answer_of result) }
        ensures made { let c = configuration rate original_count recovery_count shard_bytes in
            IfOk result (λ x. (Self.RateDecoder.state x ≡ fresh_decoder c)
            × (Self.RateDecoder.engine_of x ≡ engine)) }
        ensures grown { IfOk result (λ x.
            IfSome work (λ w. Grows (decoder_work_room w) (Self.RateDecoder.room x))) }
        ensures roomy { IfSome work (λ w.
            HasRoom (decoder_work_room w) (decoder_rows rate original_count recovery_count)
            shard_bytes
            → answer_of result ≡ start_outcome (decoder_rows rate original_count recovery_count)
            (configuration rate original_count recovery_count shard_bytes)) }
    {
        Self::RateDecoder::new(
            alloc,
            original_count,
            recovery_count,
            shard_bytes,
            engine,
            work,
        )
    }

    /// States that an encoder of this rate has this rate.
    ghost encoder_rate: { Self.RateEncoder.rate ≡ rate };

    /// States that a decoder of this rate has this rate.
    ghost decoder_rate: { Self.RateDecoder.rate ≡ rate };
}

/// The encoder of a rate, over an engine.
///
/// A round is: add `original_count` originals in order, then call `encode`, which lends the recovery shards. The round
/// ends inside `encode`: the encoder then has the same configuration with nothing added, whether the result is dropped
/// or forgotten. The index of an original is its place in the order of adding, counted from 0. A call that fails
/// changes nothing. Only `new` and `reset` allocate.
pub trait RateEncoder<E: Engine>: Sized {
    ghost use Rattle.std.specs.Prelude.{◌≡◌, ◌≢◌, ◌≤◌, ℕ, Err, IfOk, IfSome, OnOk, OnErr};
    ghost use Rattle.std.specs.Borrow.{sem};
    ghost use Rattle.rs_field.specs.code.Bounds.{EncodeCountsAt};
    ghost use Rattle.rs_field.specs.code.Counts.{Rate as WhichRate, supports as supports_counts};
    ghost use Rattle.rs_field.specs.code.Frame.{encoder_rows};
    ghost use Rattle.rs_field.specs.code.Outcome.{answer_of, state_after};
    ghost use Rattle.rs_field.specs.code.Configuration.{configuration, validation_outcome};
    ghost use Rattle.rs_field.specs.code.Configuration.{start_outcome, UpToMemory, FitsWithin};
    ghost use Rattle.rs_field.specs.code.Encoder.{EncoderState, IsEncoder, fresh_encoder};
    ghost use Rattle.rs_field.specs.code.Encoder.{with_shard, EncodeAnswers, after_encode};
    ghost use Rattle.rs_rate.specs.values.ChunkCounts.{chunk_count};
    ghost use Rattle.rs_rate.specs.rows.EncoderView.{work_room};
    ghost use Rattle.rs_rate.specs.objects.ResultView.{answered_shards};
    ghost use Rattle.rs_rate.specs.objects.Loan.{AfterLoan};

    /// The rate.
    type Rate;

    /// The low, the high or the default rate.
    ghost rate: { WhichRate };

    /// The configuration of an encoder, and the originals that were added in the current round.
    ghost state: { Self → EncoderState };

    /// The engine of an encoder.
    ghost engine_of: { Self → E };

    /// The number of chunks for which an encoder has memory.
    ghost room: { Self → ℕ };

    /// Returns whether the rate supports `original_count` originals with `recovery_count` recovery shards.
    /// [`Rate::supports`] states which counts these are.
    fn supports(original_count: usize, recovery_count: usize) -> bool
        ensures { result ≡ supports_counts rate original_count recovery_count };

    /// Checks two counts and a shard size of `shard_bytes` bytes, and allocates nothing.
    ///
    /// # Errors
    ///
    /// - [`Error::UnsupportedShardCount`] if the rate does not [support](Self::supports) the counts.
    /// - [`Error::InvalidShardSize`] if `shard_bytes` is zero or odd.
    fn validate(
        original_count: usize,
        recovery_count: usize,
        shard_bytes: usize,
    ) -> Result<(), Error>
        ensures { result
            ≡ validation_outcome (configuration rate original_count recovery_count shard_bytes) };

    /// Makes an encoder with nothing added, for shards of `shard_bytes` bytes. If a `work` is passed, its memory is
    /// used.
    ///
    /// # Errors
    ///
    /// - [`Error::UnsupportedShardCount`] if the rate does not [support](Self::supports) the counts.
    /// - [`Error::InvalidShardSize`] if `shard_bytes` is zero or odd.
    /// - [`Error::OutOfMemory`] if the rows cannot be allocated, or if their bytes exceed `usize::MAX`.
    ///
    /// After an error the engine and the work are dropped.
    fn new(
        alloc: Global,
        original_count: usize,
        recovery_count: usize,
        shard_bytes: usize,
        engine: E,
        work: Option<EncoderWork>,
    ) -> Result<Self, Error>
        ensures answer { let c = configuration rate original_count recovery_count shard_bytes in
            UpToMemory (start_outcome (encoder_rows rate original_count recovery_count) c)
            (answer_of result) }
        ensures made { IfOk result (λ x.
            (state x ≡ fresh_encoder (configuration rate original_count recovery_count shard_bytes))
            × (engine_of x ≡ engine)) }
        ensures grown { IfOk result (λ x. IfSome work (λ w. work_room w ≤ room x)) }
        ensures roomy { IfSome work (λ w.
            chunk_count (encoder_rows rate original_count recovery_count) shard_bytes ≤ work_room w
            → answer_of result ≡ start_outcome (encoder_rows rate original_count recovery_count)
            (configuration rate original_count recovery_count shard_bytes)) };

    /// Sets the encoder up for other counts and another shard size, with nothing added.
    ///
    /// # Errors
    ///
    /// The errors of [`new`](Self::new), in the same order. After an error the configuration and the added shards are
    /// what they were. `reset` never fails with [`Error::OutOfMemory`] if the encoder already holds enough memory. That
    /// is the case if the counts are unchanged and the shard size is not larger, or if the encoder has been this large
    /// before.
    fn reset(
        &mut self,
        original_count: usize,
        recovery_count: usize,
        shard_bytes: usize,
    ) -> Result<(), Error>
        ensures answer { let c = configuration rate original_count recovery_count shard_bytes in
            UpToMemory (start_outcome (encoder_rows rate original_count recovery_count) c) result }
        ensures ok { OnOk result (state self.new
            ≡ fresh_encoder (configuration rate original_count recovery_count shard_bytes)) }
        ensures err { OnErr result (state self.new ≡ state self.old) }
        ensures roomy { chunk_count (encoder_rows rate original_count recovery_count) shard_bytes
            ≤ room self.old
            → result ≡ start_outcome (encoder_rows rate original_count recovery_count)
            (configuration rate original_count recovery_count shard_bytes) }
        ensures own { FitsWithin (state self.old).configuration
            (configuration rate original_count recovery_count shard_bytes)
            → result ≢ Err Error.OutOfMemory }
        ensures engine { engine_of self.new ≡ engine_of self.old }
        ensures grown { room self.old ≤ room self.new };

    /// Adds the next original. The first original has index 0, the second index 1, and so on.
    ///
    /// # Errors
    ///
    /// - [`Error::TooManyOriginalShards`] if all originals were added already.
    /// - [`Error::DifferentShardSize`] if the shard does not have the encoder's size.
    fn add_original_shard(&mut self, original_shard: &[u8]) -> Result<(), Error>
        ensures answer { result ≡ answer_of (with_shard (state self.old) original_shard.now) }
        ensures left { state self.new
            ≡ state_after (state self.old) (with_shard (state self.old) original_shard.now) }
        ensures engine { engine_of self.new ≡ engine_of self.old }
        ensures room { room self.new ≡ room self.old };

    /// Computes the recovery shards of the added originals, lends them, and ends the round. Recovery shards are
    /// numbered from 0.
    ///
    /// The method is the transform of Lin, Chung and Han, in the form of Leopard-RS. With c blocks of m rows, it counts
    /// at most `(c + 1) * (m/2 * log2 m) + 2 * c * m` row steps on `steps`, no pair sum and no product.
    ///
    /// # Errors
    ///
    /// [`Error::TooFewOriginalShards`] if originals are missing. The encoder then keeps what was added.
    fn encode(&mut self, steps: &mut Steps) -> Result<EncoderResult<'_>, Error>
        ensures answer { EncodeAnswers (state self.old) (answered_shards result) }
        ensures counts { let c = (state self.old).configuration in
            EncodeCountsAt rate c.original_count c.recovery_count steps.old steps.new }
        ensures* ends { sem 𝓛 (AfterLoan Self.row self.entry
            (λ now. (state now ≡ after_encode (state self.old))
            × (engine_of now ≡ engine_of self.old)
            × (room now ≡ room self.old))) };

    /// Returns the engine and the work. Another encoder can use the work, which has room for this encoder's
    /// configuration.
    fn into_parts(self) -> (E, EncoderWork)
        ensures engine { result.0 ≡ engine_of self }
        ensures room { work_room result.1 ≡ room self }
        ensures enough { let c = (state self).configuration in
            chunk_count (encoder_rows rate c.original_count c.recovery_count) c.shard_bytes
            ≤ work_room result.1 };

    /// An encoder's configuration is valid for its rate, and no more originals were added than it takes.
    ghost valid: { (x : Self) → IsEncoder rate (state x) };

    /// An encoder has room for its own rows.
    ghost own_room: { (x : Self) → let c = (state x).configuration in
        chunk_count (encoder_rows rate c.original_count c.recovery_count) c.shard_bytes ≤ room x };
}

/// The decoder of a rate, over an engine.
///
/// A round is: add shards by their index, in any order, until at least `original_count` are there; then call `decode`,
/// which lends the missing originals. The round ends inside `decode`: the decoder then has the same configuration with
/// nothing added, whether the result is dropped or forgotten. Originals are numbered from 0 in the order in which they
/// were encoded, and recovery shards are numbered from 0 on their own. A call that fails changes nothing, except for
/// [`Error::InconsistentShards`], which ends the round. Only `new` and `reset` allocate.
pub trait RateDecoder<E: Engine>: Sized {
    ghost use Rattle.std.specs.Prelude.{◌≡◌, ◌≢◌, ◌≤◌, ℕ, Err, IfOk, IfSome, OnOk, OnErr};
    ghost use Rattle.std.specs.Borrow.{sem};
    ghost use Rattle.rs_field.specs.code.Counts.{Rate as WhichRate, supports as supports_counts};
    ghost use Rattle.rs_field.specs.code.Frame.{decoder_rows};
    ghost use Rattle.rs_field.specs.code.Outcome.{answer_of, state_after};
    ghost use Rattle.rs_field.specs.code.Configuration.{configuration, validation_outcome};
    ghost use Rattle.rs_field.specs.code.Configuration.{start_outcome, UpToMemory, FitsWithin};
    ghost use Rattle.rs_field.specs.code.Bounds.{DecodeCountsAt};
    ghost use Rattle.rs_field.specs.code.Decoder.{DecoderState, IsDecoder, fresh_decoder};
    ghost use Rattle.rs_field.specs.code.Decoder.{with_original, with_recovery, DecodeAnswers};
    ghost use Rattle.rs_field.specs.code.Decoder.{after_decode};
    ghost use Rattle.rs_rate.specs.rows.DecoderRoom.{DecoderRoom, HasRoom, Grows, work_room};
    ghost use Rattle.rs_rate.specs.objects.ResultView.{answered_originals};
    ghost use Rattle.rs_rate.specs.objects.Loan.{AfterLoan};

    /// The rate.
    type Rate;

    /// The low, the high or the default rate.
    ghost rate: { WhichRate };

    /// The configuration of a decoder, and the shards that were added in the current round.
    ghost state: { Self → DecoderState };

    /// The engine of a decoder.
    ghost engine_of: { Self → E };

    /// The numbers of chunks, of rows and of locator entries for which a decoder has memory.
    ghost room: { Self → DecoderRoom };

    /// Returns whether the rate supports `original_count` originals with `recovery_count` recovery shards.
    /// [`Rate::supports`] states which counts these are.
    fn supports(original_count: usize, recovery_count: usize) -> bool
        ensures { result ≡ supports_counts rate original_count recovery_count };

    /// Checks two counts and a shard size of `shard_bytes` bytes, and allocates nothing.
    ///
    /// # Errors
    ///
    /// - [`Error::UnsupportedShardCount`] if the rate does not [support](Self::supports) the counts.
    /// - [`Error::InvalidShardSize`] if `shard_bytes` is zero or odd.
    fn validate(
        original_count: usize,
        recovery_count: usize,
        shard_bytes: usize,
    ) -> Result<(), Error>
        ensures { result
            ≡ validation_outcome (configuration rate original_count recovery_count shard_bytes) };

    /// Makes a decoder with nothing added, for shards of `shard_bytes` bytes. If a `work` is passed, its memory is
    /// used.
    ///
    /// # Errors
    ///
    /// - [`Error::UnsupportedShardCount`] if the rate does not [support](Self::supports) the counts.
    /// - [`Error::InvalidShardSize`] if `shard_bytes` is zero or odd.
    /// - [`Error::OutOfMemory`] if the rows cannot be allocated, or if their bytes exceed `usize::MAX`.
    ///
    /// After an error the engine and the work are dropped.
    fn new(
        alloc: Global,
        original_count: usize,
        recovery_count: usize,
        shard_bytes: usize,
        engine: E,
        work: Option<DecoderWork>,
    ) -> Result<Self, Error>
        ensures answer { let c = configuration rate original_count recovery_count shard_bytes in
            UpToMemory (start_outcome (decoder_rows rate original_count recovery_count) c)
            (answer_of result) }
        ensures made { IfOk result (λ x.
            (state x ≡ fresh_decoder (configuration rate original_count recovery_count shard_bytes))
            × (engine_of x ≡ engine)) }
        ensures grown { IfOk result (λ x. IfSome work (λ w. Grows (work_room w) (room x))) }
        ensures roomy { IfSome work (λ w.
            HasRoom (work_room w) (decoder_rows rate original_count recovery_count) shard_bytes
            → answer_of result ≡ start_outcome (decoder_rows rate original_count recovery_count)
            (configuration rate original_count recovery_count shard_bytes)) };

    /// Sets the decoder up for other counts and another shard size, with nothing added.
    ///
    /// # Errors
    ///
    /// The errors of [`new`](Self::new), in the same order. After an error the configuration and the added shards are
    /// what they were. `reset` never fails with [`Error::OutOfMemory`] if the decoder already holds enough memory. That
    /// is the case if the counts are unchanged and the shard size is not larger, or if the decoder has been this large
    /// before.
    fn reset(
        &mut self,
        original_count: usize,
        recovery_count: usize,
        shard_bytes: usize,
    ) -> Result<(), Error>
        ensures answer { let c = configuration rate original_count recovery_count shard_bytes in
            UpToMemory (start_outcome (decoder_rows rate original_count recovery_count) c) result }
        ensures ok { OnOk result (state self.new
            ≡ fresh_decoder (configuration rate original_count recovery_count shard_bytes)) }
        ensures err { OnErr result (state self.new ≡ state self.old) }
        ensures roomy { HasRoom (room self.old)
            (decoder_rows rate original_count recovery_count) shard_bytes
            → result ≡ start_outcome (decoder_rows rate original_count recovery_count)
            (configuration rate original_count recovery_count shard_bytes) }
        ensures own { FitsWithin (state self.old).configuration
            (configuration rate original_count recovery_count shard_bytes)
            → result ≢ Err Error.OutOfMemory }
        ensures engine { engine_of self.new ≡ engine_of self.old }
        ensures grown { Grows (room self.old) (room self.new) };

    /// Adds the original with this index: its place among the originals, counted from 0.
    ///
    /// # Errors
    ///
    /// - [`Error::InvalidOriginalShardIndex`] if `index` is not below `original_count`.
    /// - [`Error::DuplicateOriginalShardIndex`] if this original was added already.
    /// - [`Error::DifferentShardSize`] if the shard does not have the decoder's size.
    fn add_original_shard(&mut self, index: usize, original_shard: &[u8]) -> Result<(), Error>
        ensures answer { result
            ≡ answer_of (with_original (state self.old) index original_shard.now) }
        ensures left { state self.new
            ≡ state_after (state self.old)
            (with_original (state self.old) index original_shard.now) }
        ensures engine { engine_of self.new ≡ engine_of self.old }
        ensures room { room self.new ≡ room self.old };

    /// Adds the recovery shard with this index: its place among the recovery shards, counted from 0.
    ///
    /// # Errors
    ///
    /// - [`Error::InvalidRecoveryShardIndex`] if `index` is not below `recovery_count`.
    /// - [`Error::DuplicateRecoveryShardIndex`] if this recovery shard was added already.
    /// - [`Error::DifferentShardSize`] if the shard does not have the decoder's size.
    fn add_recovery_shard(&mut self, index: usize, recovery_shard: &[u8]) -> Result<(), Error>
        ensures answer { result
            ≡ answer_of (with_recovery (state self.old) index recovery_shard.now) }
        ensures left { state self.new
            ≡ state_after (state self.old)
            (with_recovery (state self.old) index recovery_shard.now) }
        ensures engine { engine_of self.new ≡ engine_of self.old }
        ensures room { room self.new ≡ room self.old };

    /// Restores the originals that were not added, lends them, and ends the round.
    ///
    /// The restored originals are those of the only message that agrees with all added shards. The method is the
    /// decoding of Lin, Chung and Han, in the form of Leopard-RS. Over W rows, it counts at most
    /// `3 * W / 2 * log2(W) + 4 * W` row steps on `steps`, and the pair sums and products of one locator.
    ///
    /// # Errors
    ///
    /// - [`Error::NotEnoughShards`] if fewer than `original_count` shards were added. The decoder then keeps what was
    ///   added.
    /// - [`Error::InconsistentShards`] if more than `original_count` shards were added and no message agrees with them
    ///   all. This error ends the round.
    fn decode(&mut self, steps: &mut Steps) -> Result<DecoderResult<'_>, Error>
        ensures answer { DecodeAnswers (state self.old) (answered_originals result) }
        ensures counts { let c = (state self.old).configuration in
            DecodeCountsAt rate c.original_count c.recovery_count steps.old steps.new }
        ensures* ends { sem 𝓛 (AfterLoan Self.row self.entry
            (λ now. (state now ≡ after_decode (state self.old))
            × (engine_of now ≡ engine_of self.old)
            × (room now ≡ room self.old))) };

    /// Returns the engine and the work. Another decoder can use the work, which has room for this decoder's
    /// configuration.
    fn into_parts(self) -> (E, DecoderWork)
        ensures engine { result.0 ≡ engine_of self }
        ensures room { work_room result.1 ≡ room self }
        ensures enough { let c = (state self).configuration in
            HasRoom (work_room result.1) (decoder_rows rate c.original_count c.recovery_count)
            c.shard_bytes };

    /// A decoder's configuration is valid for its rate, and the added shards fit it.
    ghost valid: { (x : Self) → IsDecoder rate (state x) };

    /// A decoder has room for its own rows.
    ghost own_room: { (x : Self) → let c = (state x).configuration in
        HasRoom (room x) (decoder_rows rate c.original_count c.recovery_count) c.shard_bytes };
}

//! The plain encoder: an encoder of the default rate, over an engine that is chosen by name.
ghost use Rattle.std.specs.Prelude.{◌≡◌, ◌≢◌, ◌≤◌, Err, IfOk, OnOk, OnErr};
ghost use Rattle.std.specs.Borrow.{sem};
ghost use Rattle.rs_field.specs.code.Configuration.{start_outcome, UpToMemory, FitsWithin};
ghost use Rattle.rs_field.specs.code.Counts.{default_rate, supports as supports_counts};
ghost use Rattle.rs_field.specs.code.Encoder.{fresh_encoder, with_shard, EncodeAnswers};
ghost use Rattle.rs_field.specs.code.OneCall.{default_of};
ghost use Rattle.rs_field.specs.code.Outcome.{answer_of, state_after};
ghost use Rattle.rs_field.specs.code.Frame.{encoder_rows};
ghost use Rattle.rs_rate.specs.objects.ResultView.{answered_shards};
ghost use Rattle.rs_rate.specs.values.ChunkCounts.{chunk_count};

use crate::engine::{DefaultEngine, Steps};
use crate::rate::{DefaultRateEncoder, RateEncoder};
use crate::{EncoderResult, Error};
use rs_rate::rate::split_rounds::{encode_round, lent_recovery};
use std::alloc::Global;

/// An encoder of the default rate, over an engine that is chosen by name. It codes any number of messages with the same
/// memory.
///
/// A round is: add `original_count` originals in order, then call `encode`, which lends the recovery shards. The index
/// of an original is its place in the order of adding, counted from 0. A call that fails changes nothing. Only `new`
/// and `reset` allocate.
///
/// A plain encoder is a [`DefaultRateEncoder`](crate::rate::DefaultRateEncoder) with a count of steps of its own.
///
/// # Examples
///
/// Three originals of 12 bytes get two recovery shards:
///
/// ```
/// // ORIGINAL is [b"Three shards", b" of one size", b" are coded. "].
/// let mut encoder = ReedSolomonEncoder::new(alloc, 3, 2, 12, engine)?;
/// for shard in ORIGINAL {
///     encoder.add_original_shard(shard)?;
/// }
/// let recovery = encoder.encode()?;
/// // The bytes of recovery.recovery(0) are 8B 6B 49 8D 2D 0E E3 62 FC E6 D5 C8.
/// // The bytes of recovery.recovery(1) are DF 0D 2F AD 07 23 9A 4E 8B 99 E5 FE.
/// ```
#[derive(Drop)]
pub struct ReedSolomonEncoder<'t> {
    encoder: DefaultRateEncoder<DefaultEngine<'t>>,
    steps: Steps,
}

impl<'t> ReedSolomonEncoder<'t> {
    ghost use Rattle.reed_solomon_simd.specs.EncoderObject.{state_of, engine_of, room_of, EndsEncode};

    /// Returns whether `original_count` originals with `recovery_count` recovery shards are supported.
    ///
    /// Both counts must be at least 1, and min(p(k), p(r)) + max(k, r) must be at most 65536. Here k is
    /// `original_count`, r is `recovery_count`, and p(n) is the least power of two that is not below n. All counts from
    /// 1 to 32768 meet this.
    ///
    /// # Examples
    ///
    /// ```
    /// // This is true for (32768, 32768), (60000, 4000) and (4096, 61440).
    /// // It is false for (0, 1), (1, 0), (60000, 5000) and (4096, 61441).
    /// ReedSolomonEncoder::supports(original_count, recovery_count)
    /// ```
    pub fn supports(original_count: usize, recovery_count: usize) -> bool
        ensures { result ≡ supports_counts default_rate original_count recovery_count }
    {
        DefaultRateEncoder::<DefaultEngine<'t>>::supports(original_count, recovery_count)
    }

    /// Makes an encoder for `original_count` originals, `recovery_count` recovery shards and shards of `shard_bytes`
    /// bytes, with nothing added.
    ///
    /// # Errors
    ///
    /// - [`Error::UnsupportedShardCount`] if the counts are not [supported](Self::supports).
    /// - [`Error::InvalidShardSize`] if `shard_bytes` is zero or odd.
    /// - [`Error::OutOfMemory`] if the rows cannot be allocated, or if their bytes exceed `usize::MAX`.
    ///
    /// # Examples
    ///
    /// An encoder for 3 originals and 2 recovery shards of 12 bytes, to which nothing was added yet:
    ///
    /// ```
    /// let mut encoder = ReedSolomonEncoder::new(alloc, 3, 2, 12, engine)?;
    /// let error = Error::TooFewOriginalShards {
    ///     original_count: 3,
    ///     original_received_count: 0,
    /// };
    /// assert_eq!(rt; encoder.encode().err(), Some(error));
    /// ```
    pub fn new(
        alloc: Global,
        original_count: usize,
        recovery_count: usize,
        shard_bytes: usize,
        engine: DefaultEngine<'t>,
    ) -> Result<ReedSolomonEncoder<'t>, Error>
        ensures answer { UpToMemory
            (start_outcome (encoder_rows default_rate original_count recovery_count)
            (default_of original_count recovery_count shard_bytes))
            (answer_of result) }
        ensures made { IfOk result (λ x.
            (state_of x ≡ fresh_encoder (default_of original_count recovery_count shard_bytes))
            × (engine_of x ≡ engine.entry)) }
    {
        let encoder = DefaultRateEncoder::new(
            alloc,
            original_count,
            recovery_count,
            shard_bytes,
            engine,
            None,
        )?;
        Ok(ReedSolomonEncoder {
            encoder,
            steps: Steps::new(),
        })
    }

    /// Sets the encoder up for other counts and another shard size, with nothing added.
    ///
    /// # Errors
    ///
    /// The errors of [`new`](Self::new), in the same order. After an error the configuration and the added shards are
    /// what they were. `reset` never fails with [`Error::OutOfMemory`] if the encoder already holds enough memory. That
    /// is the case if the counts are unchanged and the shard size is not larger, or if the encoder has been this large
    /// before.
    ///
    /// # Examples
    ///
    /// An encoder that was made for `original_count`, `recovery_count` and `shard_bytes` is reset to another
    /// configuration and back:
    ///
    /// ```
    /// let _ = encoder.reset(between.0, between.1, between.2);
    /// // This is Ok(()), also if the first reset failed.
    /// encoder.reset(original_count, recovery_count, shard_bytes)
    /// ```
    pub fn reset(
        &mut self,
        original_count: usize,
        recovery_count: usize,
        shard_bytes: usize,
    ) -> Result<(), Error>
        ensures answer { UpToMemory
            (start_outcome (encoder_rows default_rate original_count recovery_count)
            (default_of original_count recovery_count shard_bytes))
            result }
        ensures ok { OnOk result (state_of self.new
            ≡ fresh_encoder (default_of original_count recovery_count shard_bytes)) }
        ensures err { OnErr result (state_of self.new ≡ state_of self.old) }
        ensures roomy { chunk_count
            (encoder_rows default_rate original_count recovery_count) shard_bytes
            ≤ room_of self.old
            → result ≡ start_outcome (encoder_rows default_rate original_count recovery_count)
            (default_of original_count recovery_count shard_bytes) }
        ensures own { FitsWithin (state_of self.old).configuration
            (default_of original_count recovery_count shard_bytes)
            → result ≢ Err Error.OutOfMemory }
        ensures engine { engine_of self.new ≡ engine_of self.old }
        ensures grown { room_of self.old ≤ room_of self.new }
    {
        self.encoder
            .reset(original_count, recovery_count, shard_bytes)
    }

    /// Adds the next original. The first original has index 0, the second index 1, and so on.
    ///
    /// # Errors
    ///
    /// - [`Error::TooManyOriginalShards`] if all originals were added already.
    /// - [`Error::DifferentShardSize`] if the shard does not have the encoder's size.
    ///
    /// # Examples
    ///
    /// Three originals of 12 bytes:
    ///
    /// ```
    /// // ORIGINAL is [b"Three shards", b" of one size", b" are coded. "].
    /// for shard in ORIGINAL {
    ///     encoder.add_original_shard(shard)?;
    /// }
    /// let error = Error::TooManyOriginalShards { original_count: 3 };
    /// assert_eq!(rt; encoder.add_original_shard(ORIGINAL[0]), Err(error));
    /// ```
    pub fn add_original_shard(&mut self, original_shard: &[u8]) -> Result<(), Error>
        ensures answer { result ≡ answer_of (with_shard (state_of self.old) original_shard.now) }
        ensures left { state_of self.new
            ≡ state_after (state_of self.old) (with_shard (state_of self.old) original_shard.now) }
        ensures engine { engine_of self.new ≡ engine_of self.old }
        ensures room { room_of self.new ≡ room_of self.old }
    {
        self.encoder.add_original_shard(original_shard)
    }

    /// Computes the recovery shards of the added originals, lends them, and ends the round: the encoder then has the
    /// same configuration with nothing added, whether the result is dropped or forgotten. Recovery shards are numbered
    /// from 0.
    ///
    /// The method is the transform of Lin, Chung and Han, in the form of Leopard-RS.
    ///
    /// # Errors
    ///
    /// [`Error::TooFewOriginalShards`] if originals are missing. The encoder then keeps what was added.
    ///
    /// # Examples
    ///
    /// The recovery shard with index 0 is added to a decoder:
    ///
    /// ```
    /// match encoder.encode()?.recovery(0) {
    ///     // If the originals are [2, 0], [0, 0] and [4, 0] and there are two recovery shards, shard is [3, 0].
    ///     Some(shard) => decoder.add_recovery_shard(0, shard),
    ///     None => Ok(()),
    /// }
    /// ```
    pub fn encode(&mut self) -> Result<EncoderResult<'_>, Error>
        ensures answer { EncodeAnswers (state_of self.old) (answered_shards result) }
        ensures* ends { sem 𝓛 (EndsEncode self.entry self.old) }
    {
        encode_round(&mut self.encoder, &mut self.steps)?;
        Ok(lent_recovery(&self.encoder))
    }
}

//! The plain decoder: a decoder of the default rate, over an engine that is chosen by name.
ghost use Rattle.std.specs.Prelude.{◌≡◌, ◌≢◌, Err, IfOk, OnOk, OnErr};
ghost use Rattle.std.specs.Borrow.{sem};
ghost use Rattle.rs_field.specs.code.Configuration.{start_outcome, UpToMemory, FitsWithin};
ghost use Rattle.rs_field.specs.code.Counts.{default_rate, supports as supports_counts};
ghost use Rattle.rs_field.specs.code.Decoder.{fresh_decoder, with_original, with_recovery, DecodeAnswers};
ghost use Rattle.rs_field.specs.code.OneCall.{default_of};
ghost use Rattle.rs_field.specs.code.Outcome.{answer_of, state_after};
ghost use Rattle.rs_field.specs.code.Frame.{decoder_rows};
ghost use Rattle.rs_rate.specs.rows.DecoderRoom.{HasRoom, Grows};
ghost use Rattle.rs_rate.specs.objects.ResultView.{answered_originals};

use crate::engine::{DefaultEngine, Steps};
use crate::rate::{DefaultRateDecoder, RateDecoder};
use crate::{DecoderResult, Error};
use rs_rate::rate::split_rounds::{decode_round, lent_originals};
use std::alloc::Global;

/// A decoder of the default rate, over an engine that is chosen by name. It decodes any number of messages with the
/// same memory.
///
/// A round is: add shards by their index, in any order, until at least `original_count` are there; then call `decode`,
/// which lends the missing originals. Originals are numbered from 0 in the order in which they were encoded, and
/// recovery shards are numbered from 0 on their own. A call that fails changes nothing, except for
/// [`Error::InconsistentShards`], which ends the round. Only `new` and `reset` allocate.
///
/// A plain decoder is a [`DefaultRateDecoder`](crate::rate::DefaultRateDecoder) with a count of steps of its own.
///
/// # Examples
///
/// Originals 0 and 2 of three originals are lost. Original 1 and two recovery shards restore them:
///
/// ```
/// // ORIGINAL is [b"Three shards", b" of one size", b" are coded. "].
/// // recovery holds its two recovery shards.
/// let mut decoder = ReedSolomonDecoder::new(alloc, 3, 2, 12, engine)?;
/// decoder.add_original_shard(1, ORIGINAL[1])?;
/// for (index, shard) in recovery.recovery_iter().enumerate() {
///     decoder.add_recovery_shard(index, shard)?;
/// }
/// let restored = decoder.decode()?;
/// // restored.restored_original(0) is Some(b"Three shards").
/// // restored.restored_original(1) is None, because original 1 was not missing.
/// // restored.restored_original(2) is Some(b" are coded. ").
/// ```
#[derive(Drop)]
pub struct ReedSolomonDecoder<'t> {
    decoder: DefaultRateDecoder<DefaultEngine<'t>>,
    steps: Steps,
}

impl<'t> ReedSolomonDecoder<'t> {
    ghost use Rattle.reed_solomon_simd.specs.DecoderObject.{state_of, engine_of, room_of, EndsDecode};

    /// Returns whether `original_count` originals with `recovery_count` recovery shards are supported.
    ///
    /// Both counts must be at least 1, and min(p(k), p(r)) + max(k, r) must be at most 65536. Here k is
    /// `original_count`, r is `recovery_count`, and p(n) is the least power of two that is not below n. All counts from
    /// 1 to 32768 meet this.
    ///
    /// # Examples
    ///
    /// ```
    /// // This is true for (32768, 32768), (60000, 4000) and (4096, 61440).
    /// // It is false for (0, 1), (1, 0), (60000, 5000) and (4096, 61441).
    /// ReedSolomonDecoder::supports(original_count, recovery_count)
    /// ```
    pub fn supports(original_count: usize, recovery_count: usize) -> bool
        ensures { result ≡ supports_counts default_rate original_count recovery_count }
    {
        DefaultRateDecoder::<DefaultEngine<'t>>::supports(original_count, recovery_count)
    }

    /// Makes a decoder for `original_count` originals, `recovery_count` recovery shards and shards of `shard_bytes`
    /// bytes, with nothing added.
    ///
    /// # Errors
    ///
    /// - [`Error::UnsupportedShardCount`] if the counts are not [supported](Self::supports).
    /// - [`Error::InvalidShardSize`] if `shard_bytes` is zero or odd.
    /// - [`Error::OutOfMemory`] if the rows cannot be allocated, or if their bytes exceed `usize::MAX`.
    ///
    /// # Examples
    ///
    /// A decoder for 3 originals and 2 recovery shards of 12 bytes, to which nothing was added yet:
    ///
    /// ```
    /// let mut decoder = ReedSolomonDecoder::new(alloc, 3, 2, 12, engine)?;
    /// let error = Error::NotEnoughShards {
    ///     original_count: 3,
    ///     original_received_count: 0,
    ///     recovery_received_count: 0,
    /// };
    /// assert_eq!(rt; decoder.decode().err(), Some(error));
    /// ```
    pub fn new(
        alloc: Global,
        original_count: usize,
        recovery_count: usize,
        shard_bytes: usize,
        engine: DefaultEngine<'t>,
    ) -> Result<ReedSolomonDecoder<'t>, Error>
        ensures answer { UpToMemory
            (start_outcome (decoder_rows default_rate original_count recovery_count)
            (default_of original_count recovery_count shard_bytes))
            (answer_of result) }
        ensures made { IfOk result (λ x.
            (state_of x ≡ fresh_decoder (default_of original_count recovery_count shard_bytes))
            × (engine_of x ≡ engine.entry)) }
    {
        let decoder = DefaultRateDecoder::new(
            alloc,
            original_count,
            recovery_count,
            shard_bytes,
            engine,
            None,
        )?;
        Ok(ReedSolomonDecoder {
            decoder,
            steps: Steps::new(),
        })
    }

    /// Sets the decoder up for other counts and another shard size, with nothing added.
    ///
    /// # Errors
    ///
    /// The errors of [`new`](Self::new), in the same order. After an error the configuration and the added shards are
    /// what they were. `reset` never fails with [`Error::OutOfMemory`] if the decoder already holds enough memory. That
    /// is the case if the counts are unchanged and the shard size is not larger, or if the decoder has been this large
    /// before.
    ///
    /// # Examples
    ///
    /// The next message has 3 originals and 2 recovery shards of 2 bytes. Original 1 and both recovery shards restore
    /// the others:
    ///
    /// ```
    /// decoder.reset(3, 2, 2)?;
    /// decoder.add_original_shard(1, &[0, 0])?;
    /// decoder.add_recovery_shard(0, &[3, 0])?;
    /// decoder.add_recovery_shard(1, &[5, 0])?;
    /// let restored = decoder.decode()?;
    /// let (first, last) = ([2, 0], [4, 0]);
    /// assert_eq!(rt; restored.restored_original(0).ok_or("none")?, first.as_slice());
    /// assert_eq!(rt; restored.restored_original(2).ok_or("none")?, last.as_slice());
    /// ```
    pub fn reset(
        &mut self,
        original_count: usize,
        recovery_count: usize,
        shard_bytes: usize,
    ) -> Result<(), Error>
        ensures answer { UpToMemory
            (start_outcome (decoder_rows default_rate original_count recovery_count)
            (default_of original_count recovery_count shard_bytes))
            result }
        ensures ok { OnOk result (state_of self.new
            ≡ fresh_decoder (default_of original_count recovery_count shard_bytes)) }
        ensures err { OnErr result (state_of self.new ≡ state_of self.old) }
        ensures roomy { HasRoom (room_of self.old)
            (decoder_rows default_rate original_count recovery_count) shard_bytes
            → result ≡ start_outcome (decoder_rows default_rate original_count recovery_count)
            (default_of original_count recovery_count shard_bytes) }
        ensures own { FitsWithin (state_of self.old).configuration
            (default_of original_count recovery_count shard_bytes)
            → result ≢ Err Error.OutOfMemory }
        ensures engine { engine_of self.new ≡ engine_of self.old }
        ensures grown { Grows (room_of self.old) (room_of self.new) }
    {
        self.decoder
            .reset(original_count, recovery_count, shard_bytes)
    }

    /// Adds the original with this index: its place among the originals, counted from 0.
    ///
    /// # Errors
    ///
    /// - [`Error::InvalidOriginalShardIndex`] if `index` is not below `original_count`.
    /// - [`Error::DuplicateOriginalShardIndex`] if this original was added already.
    /// - [`Error::DifferentShardSize`] if the shard does not have the decoder's size.
    ///
    /// # Examples
    ///
    /// All originals are added, except for those whose indexes are in `lost`:
    ///
    /// ```
    /// // If there are 3 originals and lost is [0, 2], this adds original 1 only.
    /// for (index, original) in originals.iter().enumerate() {
    ///     if lost.contains(&index) {
    ///         continue;
    ///     }
    ///     decoder.add_original_shard(index, original)?;
    /// }
    /// ```
    pub fn add_original_shard(&mut self, index: usize, original_shard: &[u8]) -> Result<(), Error>
        ensures answer { result
            ≡ answer_of (with_original (state_of self.old) index original_shard.now) }
        ensures left { state_of self.new
            ≡ state_after (state_of self.old)
            (with_original (state_of self.old) index original_shard.now) }
        ensures engine { engine_of self.new ≡ engine_of self.old }
        ensures room { room_of self.new ≡ room_of self.old }
    {
        self.decoder.add_original_shard(index, original_shard)
    }

    /// Adds the recovery shard with this index: its place among the recovery shards, counted from 0.
    ///
    /// # Errors
    ///
    /// - [`Error::InvalidRecoveryShardIndex`] if `index` is not below `recovery_count`.
    /// - [`Error::DuplicateRecoveryShardIndex`] if this recovery shard was added already.
    /// - [`Error::DifferentShardSize`] if the shard does not have the decoder's size.
    ///
    /// # Examples
    ///
    /// All recovery shards that an encoder computed are added:
    ///
    /// ```
    /// // If recovery holds two recovery shards, they are added with the indexes 0 and 1.
    /// for (index, shard) in recovery.recovery_iter().enumerate() {
    ///     decoder.add_recovery_shard(index, shard)?;
    /// }
    /// ```
    pub fn add_recovery_shard(&mut self, index: usize, recovery_shard: &[u8]) -> Result<(), Error>
        ensures answer { result
            ≡ answer_of (with_recovery (state_of self.old) index recovery_shard.now) }
        ensures left { state_of self.new
            ≡ state_after (state_of self.old)
            (with_recovery (state_of self.old) index recovery_shard.now) }
        ensures engine { engine_of self.new ≡ engine_of self.old }
        ensures room { room_of self.new ≡ room_of self.old }
    {
        self.decoder.add_recovery_shard(index, recovery_shard)
    }

    /// Restores the originals that were not added, lends them, and ends the round: the decoder then has the same
    /// configuration with nothing added, whether the result is dropped or forgotten.
    ///
    /// The restored originals are those of the only message that agrees with all added shards. If all originals were
    /// added, the result is empty. The method is the decoding of Lin, Chung and Han, in the form of Leopard-RS.
    ///
    /// # Errors
    ///
    /// - [`Error::NotEnoughShards`] if fewer than `original_count` shards were added. The decoder then keeps what was
    ///   added.
    /// - [`Error::InconsistentShards`] if more than `original_count` shards were added and no message agrees with them
    ///   all. This error ends the round.
    ///
    /// # Examples
    ///
    /// If originals 0 and 2 of 3 originals are lost, the result lends exactly these:
    ///
    /// ```
    /// let restored = decoder.decode()?;
    /// // restored.restored_original_iter() yields (0, b"Three shards") and then (2, b" are coded. ").
    /// ```
    ///
    /// The value of the last line is true then:
    ///
    /// ```
    /// // ORIGINAL is [b"Three shards", b" of one size", b" are coded. "].
    /// let first = restored.restored_original(0) == Some(ORIGINAL[0]);
    /// let last = restored.restored_original(2) == Some(ORIGINAL[2]);
    /// restored.restored_original_iter().len() == 2 && first && last
    /// ```
    pub fn decode(&mut self) -> Result<DecoderResult<'_>, Error>
        ensures answer { DecodeAnswers (state_of self.old) (answered_originals result) }
        ensures* ends { sem 𝓛 (EndsDecode self.entry self.old) }
    {
        let restored_count = decode_round(&mut self.decoder, &mut self.steps)?;
        Ok(lent_originals(&self.decoder, restored_count))
    }
}

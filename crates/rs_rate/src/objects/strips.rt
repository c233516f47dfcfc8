//! Decoders without an engine, for the strips of shards. They use the engine that is passed to `decode`.
ghost use Rattle.std.specs.Prelude.{◌≡◌, ◌%◌, ◌<◌, ◌≤◌, Ok};
ghost use Rattle.rs_field.specs.code.Bounds.{DecodeCountsAt};
ghost use Rattle.rs_field.specs.code.Configuration.{Configuration as AsDefined, configuration};
ghost use Rattle.rs_field.specs.code.Decoder.{enough_given, fresh_decoder, Restored, NoneAgrees};
ghost use Rattle.rs_rate.specs.rows.DecoderView.{decoder_state, restored_by_rows};

use crate::objects::rate_object::RateObject;
use crate::passes::decoding::decode_rows;
use crate::rows::decoder_work::DecoderRows;
use crate::values::rate_marker::{DefaultRateMarker, RateMarker};
use rs_field::engine::{Engine, Steps};
use rs_field::error::Error;

/// A decoder of the default rate without an engine.
pub type StripDecoder = RateObject<(), DefaultRateMarker, DecoderRows>;

impl<C: RateMarker> RateObject<(), C, DecoderRows> {
    ghost use Rattle.std.specs.Prelude.{length, IfOk, MatchResult};
    ghost use Rattle.rs_field.specs.code.Decoder.{with_original, with_recovery};
    ghost use Rattle.rs_field.specs.code.Outcome.{answer_of, state_after};
    ghost use Rattle.rs_rate.specs.passes.Located.{AreLocated, IsLocated, LocatesOnce};
    ghost use Rattle.rs_rate.specs.rows.DecoderView.{restored_from};
    ghost use Rattle.rs_rate.specs.rows.Marks.{given_marks};

    /// Sets a decoder without shards up for shards of this size, which is not larger than its own. Its locator stays.
    #[inline(always)]
    pub fn narrow(&mut self, shard_bytes: usize)
        requires shorter { shard_bytes ≤ self.old.rows.configuration.shard_bytes }
        requires some { 0 < shard_bytes }
        requires even { shard_bytes % 2 ≡ 0 }
        ensures fresh { (c : AsDefined) → decoder_state C.rate self.old.rows ≡ fresh_decoder c
            → decoder_state C.rate self.new.rows
            ≡ fresh_decoder (configuration c.rate c.original_count c.recovery_count shard_bytes) }
        ensures locator { self.new.rows.memory.entries.items
            ≡ self.old.rows.memory.entries.items }
    {
        if shard_bytes < self.rows.configuration.shard_bytes {
            self.rows.narrow(shard_bytes);
        }
    }

    /// Adds an original, which `RateDecoder::add_original_shard` would accept.
    pub fn take_original(&mut self, index: usize, shard: &[u8])
        requires { answer_of (with_original (decoder_state C.rate self.old.rows) index shard.now)
            ≡ Ok tt }
        ensures left { decoder_state C.rate self.new.rows
            ≡ state_after (decoder_state C.rate self.old.rows)
            (with_original (decoder_state C.rate self.old.rows) index shard.now) }
        ensures locator { self.new.rows.memory.entries ≡ self.old.rows.memory.entries }
    {
        self.rows.take_original_shard(index, shard);
    }

    /// Adds a recovery shard, which `RateDecoder::add_recovery_shard` would accept.
    pub fn take_recovery(&mut self, index: usize, shard: &[u8])
        requires { answer_of (with_recovery (decoder_state C.rate self.old.rows) index shard.now)
            ≡ Ok tt }
        ensures left { decoder_state C.rate self.new.rows
            ≡ state_after (decoder_state C.rate self.old.rows)
            (with_recovery (decoder_state C.rate self.old.rows) index shard.now) }
        ensures locator { self.new.rows.memory.entries ≡ self.old.rows.memory.entries }
    {
        self.rows.take_recovery_shard(index, shard);
    }

    /// Restores the originals that were not added, and ends the round. The restored originals are then in the decoder.
    /// Returns their number. At least as many shards as originals were added.
    ///
    /// `located` says for which marks the decoder has a locator. Pass `None` in the first round. The call sets it: pass
    /// it unchanged to the next round with shards of the same indexes, which does not compute the locator again.
    ///
    /// # Errors
    ///
    /// [`Error::InconsistentShards`] if no message agrees with all shards.
    pub fn decode<E: Engine>(
        &mut self,
        engine: &E,
        steps: &mut Steps,
        located: &mut Option<usize>,
    ) -> Result<usize, Error>
        requires enough { enough_given (decoder_state C.rate self.old.rows) ≡ Ok tt }
        requires located { IsLocated self.old.rows located.old }
        ensures answer { MatchResult result
            (λ _. Restored (decoder_state C.rate self.old.rows) (restored_by_rows self.new.rows))
            (NoneAgrees (decoder_state C.rate self.old.rows)) }
        ensures counted { IfOk result (λ count. count ≡ length (restored_from self.new.rows 0)) }
        ensures counts { let c = (decoder_state C.rate self.old.rows).configuration in
            DecodeCountsAt C.rate c.original_count c.recovery_count steps.old steps.new }
        ensures state { decoder_state C.rate self.new.rows
            ≡ fresh_decoder (decoder_state C.rate self.old.rows).configuration }
        ensures located { AreLocated self.old.rows.configuration.frame
            (given_marks self.old.rows.memory.marks) located.new
            self.new.rows.memory.entries.items }
        ensures once { LocatesOnce located.old located.new steps.old steps.new }
    {
        decode_rows(engine, steps, &mut self.rows, located)
    }
}

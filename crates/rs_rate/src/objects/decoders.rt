//! The decoders of the rates.
ghost use Rattle.rs_rate.specs.rows.DecoderRoom.{memory_room};
ghost use Rattle.rs_rate.specs.rows.DecoderView.{decoder_state};

use crate::objects::decoder_result::DecoderResult;
use crate::objects::rates::RateOf;
use crate::objects::split_rounds::{Decoder, decode_round, lent_originals};
use crate::objects::traits::RateDecoder;
use crate::rows::decoder_work::DecoderWork;
use crate::values::configuration::Configuration;
use crate::values::rate_marker::{DefaultRateMarker, HighRateMarker, LowRateMarker, RateMarker};
use crate::values::supported_counts::SupportedCounts;
use rs_field::engine::{Engine, Steps};
use rs_field::error::Error;
use std::alloc::Global;

/// The decoder of the low rate.
pub type LowRateDecoder<E> = Decoder<E, LowRateMarker>;

/// The decoder of the high rate.
pub type HighRateDecoder<E> = Decoder<E, HighRateMarker>;

/// The decoder of the default rate.
pub type DefaultRateDecoder<E> = Decoder<E, DefaultRateMarker>;

impl<E: Engine, C: RateMarker> RateDecoder<E> for Decoder<E, C> {
    ghost use Rattle.rs_rate.specs.objects.ObjectLaws.{is_decoder, has_own_decoder_room};

    type Rate = RateOf<E, C>;

    ghost rate = { C.rate };

    ghost state = { λ x. decoder_state C.rate x.rows };

    ghost engine_of = { λ x. x.engine };

    ghost room = { λ x. memory_room x.rows.memory };

    fn supports(original_count: usize, recovery_count: usize) -> bool {
        C::choose(original_count, recovery_count).is_some()
    }

    fn validate(
        original_count: usize,
        recovery_count: usize,
        shard_bytes: usize,
    ) -> Result<(), Error> {
        Configuration::at::<C>(original_count, recovery_count, shard_bytes)?;
        Ok(())
    }

    fn new(
        alloc: Global,
        original_count: usize,
        recovery_count: usize,
        shard_bytes: usize,
        engine: E,
        work: Option<DecoderWork>,
    ) -> Result<Decoder<E, C>, Error> {
        let counts = SupportedCounts::<C>::new(original_count, recovery_count)?;
        Decoder::with_counts(alloc, counts, shard_bytes, engine, work)
    }

    fn reset(
        &mut self,
        original_count: usize,
        recovery_count: usize,
        shard_bytes: usize,
    ) -> Result<(), Error> {
        self.set_up_anew(original_count, recovery_count, shard_bytes)
    }

    fn add_original_shard(&mut self, index: usize, original_shard: &[u8]) -> Result<(), Error> {
        self.rows.add_original_shard(index, original_shard)
    }

    fn add_recovery_shard(&mut self, index: usize, recovery_shard: &[u8]) -> Result<(), Error> {
        self.rows.add_recovery_shard(index, recovery_shard)
    }

    fn decode(&mut self, steps: &mut Steps) -> Result<DecoderResult<'_>, Error> {
        let restored_count = decode_round(self, steps)?;
        Ok(lent_originals(self, restored_count))
    }

    fn into_parts(self) -> (E, DecoderWork) {
        (
            self.engine,
            DecoderWork {
                memory: Some(self.rows.memory),
            },
        )
    }

    ghost valid = { λ x. is_decoder C.rate x.rows x.set_up };

    ghost own_room = { λ x. has_own_decoder_room C.rate x.rows x.set_up };
}

//! The encoders of the rates.
ghost use Rattle.std.specs.Vec.{vec_capacity};
ghost use Rattle.rs_rate.specs.rows.EncoderView.{encoder_state};

use crate::objects::encoder_result::EncoderResult;
use crate::objects::rates::RateOf;
use crate::objects::split_rounds::{Encoder, encode_round, lent_recovery};
use crate::objects::traits::RateEncoder;
use crate::rows::encoder_work::EncoderWork;
use crate::values::configuration::Configuration;
use crate::values::rate_marker::{DefaultRateMarker, HighRateMarker, LowRateMarker, RateMarker};
use crate::values::supported_counts::SupportedCounts;
use rs_field::engine::{Engine, Steps};
use rs_field::error::Error;
use std::alloc::Global;

/// The encoder of the low rate.
pub type LowRateEncoder<E> = Encoder<E, LowRateMarker>;

/// The encoder of the high rate.
pub type HighRateEncoder<E> = Encoder<E, HighRateMarker>;

/// The encoder of the default rate.
pub type DefaultRateEncoder<E> = Encoder<E, DefaultRateMarker>;

impl<E: Engine, C: RateMarker> RateEncoder<E> for Encoder<E, C> {
    ghost use Rattle.rs_rate.specs.objects.ObjectLaws.{is_encoder, has_own_room};

    type Rate = RateOf<E, C>;

    ghost rate = { C.rate };

    ghost state = { λ x. encoder_state C.rate x.rows };

    ghost engine_of = { λ x. x.engine };

    ghost room = { λ x. vec_capacity x.rows.chunks };

    fn supports(original_count: usize, recovery_count: usize) -> bool {
        C::choose(original_count, recovery_count).is_some()
    }

    fn validate(
        original_count: usize,
        recovery_count: usize,
        shard_bytes: usize,
    ) -> Result<(), Error> {
        Configuration::at::<C>(original_count, recovery_count, shard_bytes)?;
        Ok(())
    }

    fn new(
        alloc: Global,
        original_count: usize,
        recovery_count: usize,
        shard_bytes: usize,
        engine: E,
        work: Option<EncoderWork>,
    ) -> Result<Encoder<E, C>, Error> {
        let counts = SupportedCounts::<C>::new(original_count, recovery_count)?;
        Encoder::with_counts(alloc, counts, shard_bytes, engine, work)
    }

    fn reset(
        &mut self,
        original_count: usize,
        recovery_count: usize,
        shard_bytes: usize,
    ) -> Result<(), Error> {
        self.set_up_anew(original_count, recovery_count, shard_bytes)
    }

    fn add_original_shard(&mut self, original_shard: &[u8]) -> Result<(), Error> {
        self.rows.add_original_shard(original_shard)
    }

    fn encode(&mut self, steps: &mut Steps) -> Result<EncoderResult<'_>, Error> {
        encode_round(self, steps)?;
        Ok(lent_recovery(self))
    }

    fn into_parts(self) -> (E, EncoderWork) {
        (
            self.engine,
            EncoderWork {
                chunks: Some(self.rows.chunks),
            },
        )
    }

    ghost valid = { λ x. is_encoder C.rate x.rows x.set_up };

    ghost own_room = { λ x. has_own_room C.rate x.rows x.set_up };
}

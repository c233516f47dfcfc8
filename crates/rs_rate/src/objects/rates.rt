//! The rates over an engine.

use crate::objects::split_rounds::{Decoder, Encoder};
use crate::objects::traits::Rate;
use crate::values::rate_marker::{DefaultRateMarker, HighRateMarker, LowRateMarker, RateMarker};
use rs_field::engine::Engine;
use std::marker::PhantomData;

/// The low rate over an engine. It is made for few originals.
pub type LowRate<E> = RateOf<E, LowRateMarker>;

/// The high rate over an engine. It is made for few recovery shards.
pub type HighRate<E> = RateOf<E, HighRateMarker>;

/// The default rate over an engine: for each pair of counts the low or the high rate.
pub type DefaultRate<E> = RateOf<E, DefaultRateMarker>;

/// The rate of a marker, over an engine.
#[derive(Drop)]
pub struct RateOf<E: Engine, C: RateMarker> {
    engine: PhantomData<E>,
    marker: PhantomData<C>,
}

impl<E: Engine, C: RateMarker + Drop> Rate<E> for RateOf<E, C> {
    ghost use Rattle.std.specs.Prelude.{refl};

    type RateEncoder = Encoder<E, C>;

    type RateDecoder = Decoder<E, C>;

    ghost rate = { C.rate };

    ghost encoder_rate = { refl };

    ghost decoder_rate = { refl };
}

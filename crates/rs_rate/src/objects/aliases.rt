//! Laws that state which rates the types have: each type has the rate that its name says. The laws are the contracts of
//! functions that do nothing.
ghost use Rattle.std.specs.Prelude.{◌≡◌};
ghost use Rattle.rs_field.specs.code.Counts.{low_rate, high_rate, default_rate};

use crate::objects::decoders::{DefaultRateDecoder, HighRateDecoder, LowRateDecoder};
use crate::objects::encoders::{DefaultRateEncoder, HighRateEncoder, LowRateEncoder};
use crate::objects::rates::{DefaultRate, HighRate, LowRate};
use crate::objects::traits::{Rate, RateDecoder, RateEncoder};
use rs_field::engine::Engine;

/// States that `LowRate`, its encoder and its decoder have the low rate.
pub fn low_names<E: Engine>()
    ensures rate { ⟦<LowRate<E> as Rate<E>>⟧.rate ≡ low_rate }
    ensures encoder { ⟦<LowRateEncoder<E> as RateEncoder<E>>⟧.rate ≡ low_rate }
    ensures decoder { ⟦<LowRateDecoder<E> as RateDecoder<E>>⟧.rate ≡ low_rate }
{}

/// States that `HighRate`, its encoder and its decoder have the high rate.
pub fn high_names<E: Engine>()
    ensures rate { ⟦<HighRate<E> as Rate<E>>⟧.rate ≡ high_rate }
    ensures encoder { ⟦<HighRateEncoder<E> as RateEncoder<E>>⟧.rate ≡ high_rate }
    ensures decoder { ⟦<HighRateDecoder<E> as RateDecoder<E>>⟧.rate ≡ high_rate }
{}

/// States that `DefaultRate`, its encoder and its decoder have the default rate.
pub fn default_names<E: Engine>()
    ensures rate { ⟦<DefaultRate<E> as Rate<E>>⟧.rate ≡ default_rate }
    ensures encoder { ⟦<DefaultRateEncoder<E> as RateEncoder<E>>⟧.rate ≡ default_rate }
    ensures decoder { ⟦<DefaultRateDecoder<E> as RateDecoder<E>>⟧.rate ≡ default_rate }
{}

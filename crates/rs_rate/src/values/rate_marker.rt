//! The three rates as types. A rate decides which counts it supports, and whether it is the low or the high rate for
//! them.
ghost use Rattle.std.specs.Prelude.{◌≡◌};
ghost use Rattle.rs_field.specs.code.Counts.{Rate as WhichRate, low_rate, high_rate, default_rate};
ghost use Rattle.rs_rate.specs.values.Configured.{frame_if};

use crate::values::frames::{default_frame, high_frame, low_frame};
use rs_field::frame::Frame;

/// A type that represents a rate. For each pair of counts that it supports, the rate is the low rate or the high rate.
pub trait RateMarker {
    /// The rate that the type represents.
    ghost rate: { WhichRate };

    /// Returns the frame for these counts, which says whether the rate is the low or the high rate for them. Returns
    /// `None` if the rate does not support the counts.
    fn choose(original_count: usize, recovery_count: usize) -> Option<Frame>
        ensures { result ≡ frame_if rate original_count recovery_count };
}

/// The marker of the low rate.
#[derive(Clone, Copy, Debug, PartialEq, Eq, Hash)]
pub struct LowRateMarker;

/// The marker of the high rate.
#[derive(Clone, Copy, Debug, PartialEq, Eq, Hash)]
pub struct HighRateMarker;

/// The marker of the default rate.
#[derive(Clone, Copy, Debug, PartialEq, Eq, Hash)]
pub struct DefaultRateMarker;

impl RateMarker for LowRateMarker {
    ghost rate = { low_rate };

    fn choose(original_count: usize, recovery_count: usize) -> Option<Frame> {
        low_frame(original_count, recovery_count)
    }
}

impl RateMarker for HighRateMarker {
    ghost rate = { high_rate };

    fn choose(original_count: usize, recovery_count: usize) -> Option<Frame> {
        high_frame(original_count, recovery_count)
    }
}

impl RateMarker for DefaultRateMarker {
    ghost rate = { default_rate };

    fn choose(original_count: usize, recovery_count: usize) -> Option<Frame> {
        default_frame(original_count, recovery_count)
    }
}

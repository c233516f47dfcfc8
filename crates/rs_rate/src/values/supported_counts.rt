//! Counts that a rate supports. They are checked once, at the start of a call.
ghost use Rattle.std.specs.Prelude.{◌≡◌, ⊤, true, false, MatchResult};
ghost use Rattle.rs_field.specs.code.Counts.{supports};
ghost use Rattle.rs_field.specs.code.Frame.{frame_of};

use crate::values::rate_marker::{DefaultRateMarker, HighRateMarker, LowRateMarker, RateMarker};
use rs_field::error::Error;
use rs_field::frame::Frame;
use std::alloc::AllocError;
use std::marker::PhantomData;

/// Two counts that the low rate supports.
pub type LowRateCounts = SupportedCounts<LowRateMarker>;

/// Two counts that the high rate supports.
pub type HighRateCounts = SupportedCounts<HighRateMarker>;

/// Two counts that the default rate supports.
pub type DefaultRateCounts = SupportedCounts<DefaultRateMarker>;

/// Two counts that a rate supports. They are checked once: encoders and decoders that are made by `with_counts` do not
/// check them again.
#[derive(Debug, PartialEq, Eq, Hash)]
pub struct SupportedCounts<C: RateMarker> {
    /// The number of originals.
    pub original_count: usize,
    /// The number of recovery shards.
    pub recovery_count: usize,
    /// The frame of the rate for these counts.
    pub frame: Frame,
    marker: PhantomData<C>,
    pub ghost supported: { supports C.rate original_count recovery_count ≡ true },
    pub ghost framed: { frame ≡ frame_of C.rate original_count recovery_count },
}

impl<C: RateMarker> SupportedCounts<C> {
    /// Checks that the rate supports `original_count` originals with `recovery_count` recovery shards.
    ///
    /// # Errors
    ///
    /// [`Error::UnsupportedShardCount`] if the rate does not [support](crate::rate::Rate::supports) the counts.
    #[inline(always)]
    pub fn new(original_count: usize, recovery_count: usize) -> Result<SupportedCounts<C>, Error>
        ensures { MatchResult result
            (λ c. (c.original_count ≡ original_count) × (c.recovery_count ≡ recovery_count))
            (λ e. (supports C.rate original_count recovery_count ≡ false)
            × (e ≡ Error.UnsupportedShardCount original_count recovery_count)) }
    {
        let Some(frame) = C::choose(original_count, recovery_count) else {
            return Err(Error::UnsupportedShardCount {
                original_count,
                recovery_count,
            });
        };
        Ok(SupportedCounts {
            original_count,
            recovery_count,
            frame,
            marker: PhantomData,
        })
    }
}

impl<C: RateMarker> Clone for SupportedCounts<C> {
    ghost is_clone = { λ counts cloned. cloned ≡ counts };

    ghost is_infallible = { λ _. ⊤ };

    fn clone(&self) -> Result<SupportedCounts<C>, AllocError> {
        Ok(*self)
    }
}

impl<C: RateMarker> Copy for SupportedCounts<C> {}

//! The configuration of an encoder or a decoder, which is validated once, and the numbers of rows that follow from it.
ghost use Rattle.std.specs.Prelude.{◌≡◌, ◌*◌, ◌^◌, ◌<◌, ◌≤◌, Err, MatchResult};
ghost use Rattle.rs_field.specs.code.Configuration.{configuration, validation_outcome, start_outcome};
ghost use Rattle.rs_field.specs.code.Frame.{encoder_rows, decoder_rows};
ghost use Rattle.rs_rate.specs.values.Configured.{IsConfigured, block_of, rows_to_encode};
ghost use Rattle.rs_rate.specs.values.SetUp.{IsMadeFor};
ghost use Rattle.rs_rate.specs.values.ChunkCounts.{chunk_count};

use crate::values::frames::next_multiple_of_power;
use crate::values::rate_marker::RateMarker;
use crate::values::supported_counts::SupportedCounts;
use rs_field::engine::layout::row_len;
use rs_field::error::Error;
use rs_field::frame::Frame;

/// The counts and the shard size of an encoder or a decoder, and the frame of the rate for these counts.
#[derive(Clone, Copy, Debug, PartialEq, Eq, Hash)]
pub struct Configuration {
    /// The number of originals.
    pub original_count: usize,
    /// The number of recovery shards.
    pub recovery_count: usize,
    /// The size of a shard, in bytes.
    pub shard_bytes: usize,
    /// The points of the shards, and the rows of a decoder.
    pub frame: Frame,
}

// The data on which a decode depends.
#[derive(Clone, Copy)]
pub(crate) struct Tally {
    // The configuration of the rows.
    pub(crate) configuration: Configuration,
    // The number of missing originals.
    pub(crate) missing: usize,
    // The number of shards that were added beyond the number of originals.
    pub(crate) surplus: usize,
    // `Some(n)` if the entries are the locator for which only rows among the first n marks count as given, and `None`
    // if no locator was made.
    pub(crate) located: Option<usize>,
}

impl Configuration {
    // The counts were checked when `counts` was made, so only the size is checked here.
    #[inline(always)]
    pub(crate) fn new<C: RateMarker>(
        counts: SupportedCounts<C>,
        shard_bytes: usize,
    ) -> Result<Configuration, Error>
        ensures { let asked =
            configuration C.rate counts.original_count counts.recovery_count shard_bytes in
            MatchResult result (IsMadeFor asked) (λ e. validation_outcome asked ≡ Err e) }
    {
        if shard_bytes == 0 || shard_bytes % 2 == 1 {
            return Err(Error::InvalidShardSize { shard_bytes });
        }
        Ok(Configuration {
            original_count: counts.original_count,
            recovery_count: counts.recovery_count,
            shard_bytes,
            frame: counts.frame,
        })
    }

    // Checks the counts first, and then the size: this is the order of errors of every object.
    #[inline(always)]
    pub(crate) fn at<C: RateMarker>(
        original_count: usize,
        recovery_count: usize,
        shard_bytes: usize,
    ) -> Result<Configuration, Error>
        ensures { let asked = configuration C.rate original_count recovery_count shard_bytes in
            MatchResult result (IsMadeFor asked) (λ e. validation_outcome asked ≡ Err e) }
    {
        let counts = SupportedCounts::<C>::new(original_count, recovery_count)?;
        Configuration::new(counts, shard_bytes)
    }

    // The shards that come first in the frame have one block, so the others begin where it ends.
    pub(crate) fn block_rows(self) -> usize
        ensures { result ≡ block_of self }
    {
        if self.frame.is_low {
            self.frame.recovery_from
        } else {
            self.frame.originals_from
        }
    }

    // At the low rate the originals fit into one block, and an encoder has rows for the blocks of recovery shards. At
    // the high rate it is the other way round.
    pub(crate) fn encoder_rows(self) -> usize
        requires { IsConfigured self }
        ensures { result ≡ rows_to_encode self }
    {
        let coded = if self.frame.is_low {
            self.recovery_count
        } else {
            self.original_count
        };
        next_multiple_of_power(coded, self.block_rows())
    }
}

/// Checks a shard size for an encoder of these counts, without allocating anything.
///
/// # Errors
///
/// - [`Error::InvalidShardSize`] if `shard_bytes` is zero or odd.
/// - [`Error::OutOfMemory`] if the bytes of an encoder's rows exceed `usize::MAX`.
pub fn check_encoder_rows<C: RateMarker>(
    counts: SupportedCounts<C>,
    shard_bytes: usize,
) -> Result<(), Error>
    ensures { let c =
        configuration C.rate counts.original_count counts.recovery_count shard_bytes in
        result ≡ start_outcome (encoder_rows C.rate c.original_count c.recovery_count) c }
{
    let rows = Configuration::new(counts, shard_bytes)?.encoder_rows();
    chunk_count(rows, shard_bytes)?;
    Ok(())
}

/// Checks a shard size for a decoder of these counts, without allocating anything.
///
/// # Errors
///
/// - [`Error::InvalidShardSize`] if `shard_bytes` is zero or odd.
/// - [`Error::OutOfMemory`] if the bytes of a decoder's rows exceed `usize::MAX`.
pub fn check_decoder_rows<C: RateMarker>(
    counts: SupportedCounts<C>,
    shard_bytes: usize,
) -> Result<(), Error>
    ensures { let c =
        configuration C.rate counts.original_count counts.recovery_count shard_bytes in
        result ≡ start_outcome (decoder_rows C.rate c.original_count c.recovery_count) c }
{
    let configuration = Configuration::new(counts, shard_bytes)?;
    chunk_count(configuration.frame.row_count(), shard_bytes)?;
    Ok(())
}

// Fails with `OutOfMemory` before anything is allocated: no allocator can give more bytes than a `usize` counts.
pub(crate) fn chunk_count(row_count: usize, shard_bytes: usize) -> Result<usize, Error>
    ensures { MatchResult result
        (λ n. (n ≡ chunk_count row_count shard_bytes) × (n * 64 < 2 ^ 64))
        (λ e. (e ≡ Error.OutOfMemory) × (2 ^ 64 ≤ chunk_count row_count shard_bytes * 64)) }
{
    let Some(chunks) = row_count.checked_mul(row_len(shard_bytes)) else {
        return Err(Error::OutOfMemory);
    };
    match chunks.checked_mul(64) {
        Some(_) => Ok(chunks),
        None => Err(Error::OutOfMemory),
    }
}

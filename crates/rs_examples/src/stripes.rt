//! A file that is encoded stripe by stripe, with one encoder. The documents quote these functions, and tests run them.
ghost use Rattle.std.specs.Prelude.{◌<◌};

use reed_solomon_simd::engine::DefaultEngine;
use reed_solomon_simd::{Error, ReedSolomonEncoder};
use std::alloc::Global;

/// The number of bytes of a shard in every stripe but a shorter last one.
pub const SHARD_BYTES: usize = 1024;

/// The number of bytes of a stripe: four originals.
pub const STRIPE_BYTES: usize = 4 * SHARD_BYTES;

/// Encodes a file stripe by stripe, with two recovery shards for each stripe of four originals. Returns the recovery
/// shards of all stripes, in order. The last stripe may be shorter: its shards are as long as it needs, and zeros fill
/// it up.
///
/// # Errors
///
/// [`Error::OutOfMemory`] if memory cannot be allocated.
pub fn encode_file(
    alloc: Global,
    file: &[u8],
    engine: DefaultEngine<'_>,
) -> Result<Vec<Vec<u8>>, Error> {
    let mut encoder = ReedSolomonEncoder::new(alloc, 4, 2, SHARD_BYTES, engine)?;
    let mut written = Vec::new(alloc);
    let (stripes, rest) = file.as_chunks::<STRIPE_BYTES>();
    for stripe in stripes {
        encode_stripe(alloc, &mut encoder, stripe, SHARD_BYTES, &mut written)?;
    }
    if !rest.is_empty() {
        let shard_bytes = 2 * rest.len().div_ceil(8);
        let mut stripe = [0; STRIPE_BYTES];
        stripe[..rest.len()].copy_from_slice(rest);
        let stripe = &stripe[..4 * shard_bytes];
        encoder.reset(4, 2, shard_bytes)?;
        encode_stripe(alloc, &mut encoder, stripe, shard_bytes, &mut written)?;
    }
    Ok(written)
}

/// Encodes one stripe, in one round of the encoder, and appends its recovery shards to `written`. `shard_bytes` is the
/// size of the encoder's shards.
///
/// # Errors
///
/// The errors of the encoder, and [`Error::OutOfMemory`] if a recovery shard cannot be copied.
pub fn encode_stripe(
    alloc: Global,
    encoder: &mut ReedSolomonEncoder<'_>,
    stripe: &[u8],
    shard_bytes: usize,
    written: &mut Vec<Vec<u8>>,
) -> Result<(), Error>
    requires { 0 < shard_bytes }
{
    for shard in stripe.chunks(shard_bytes) {
        encoder.add_original_shard(shard)?;
    }
    let recovery = encoder.encode()?;
    for shard in recovery.recovery_iter() {
        written.push(shard.to_vec(alloc)?)?;
    }
    Ok(())
}

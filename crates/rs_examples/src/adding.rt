//! Functions that add all shards of an iterator, one after another, to an encoder or a decoder of a rate.
ghost use Rattle.std.specs.Prelude.{◌≡◌, List};
ghost use Rattle.std.specs.Iterator.{IsFinite};
ghost use Rattle.reed_solomon_simd.specs.Calls.{Calls, BeginsWith, BeginsWithItems};
ghost use Rattle.reed_solomon_simd.specs.Column.{Shard};
ghost use Rattle.reed_solomon_simd.specs.Giving.{Reaches};
ghost use Rattle.reed_solomon_simd.specs.OneCall.{Items, with_shards, with_originals, with_recoveries};

use reed_solomon_simd::Error;
use reed_solomon_simd::engine::Engine;
use reed_solomon_simd::rate::{RateDecoder, RateEncoder};

/// Adds the originals that an iterator yields to an encoder, in order.
///
/// # Errors
///
/// The errors of [`RateEncoder::add_original_shard`], for the first original that the encoder does not accept. The
/// iterator is then not called again.
pub fn add_shards<'a, E: Engine, X: RateEncoder<E>, I: Iterator<Item = &'a [u8]> + Drop>(
    encoder: &mut X,
    shards: I,
) -> Result<(), Error>
    requires can { I.can_next shards }
    requires ends { IsFinite (I.remaining shards) }
    ensures { (calls : Calls I.next_gives shards) × ((items : List Shard) → BeginsWith items calls
        → Reaches (with_shards (X.state encoder.old) items) result (λ s. X.state encoder.new ≡ s)) }
{
    for shard in shards {
        encoder.add_original_shard(shard)?;
    }
    Ok(())
}

/// Adds the originals that an iterator yields, with their indexes, to a decoder, in order.
///
/// # Errors
///
/// The errors of [`RateDecoder::add_original_shard`], for the first original that the decoder does not accept. The
/// iterator is then not called again.
pub fn add_originals<
    'a,
    E: Engine,
    X: RateDecoder<E>,
    I: Iterator<Item = (usize, &'a [u8])> + Drop,
>(decoder: &mut X, originals: I) -> Result<(), Error>
    requires can { I.can_next originals }
    requires ends { IsFinite (I.remaining originals) }
    ensures { (calls : Calls I.next_gives originals)
        × ((items : Items) → BeginsWithItems items calls
        → Reaches (with_originals (X.state decoder.old) items) result
        (λ s. X.state decoder.new ≡ s)) }
{
    for (index, shard) in originals {
        decoder.add_original_shard(index, shard)?;
    }
    Ok(())
}

/// Adds the recovery shards that an iterator yields, with their indexes, to a decoder, in order.
///
/// # Errors
///
/// The errors of [`RateDecoder::add_recovery_shard`], for the first recovery shard that the decoder does not accept.
/// The iterator is then not called again.
pub fn add_recovery<'a, E: Engine, X: RateDecoder<E>, I: Iterator<Item = (usize, &'a [u8])> + Drop>(
    decoder: &mut X,
    recovery: I,
) -> Result<(), Error>
    requires can { I.can_next recovery }
    requires ends { IsFinite (I.remaining recovery) }
    ensures { (calls : Calls I.next_gives recovery) × ((items : Items) → BeginsWithItems items calls
        → Reaches (with_recoveries (X.state decoder.old) items) result
        (λ s. X.state decoder.new ≡ s)) }
{
    for (index, shard) in recovery {
        decoder.add_recovery_shard(index, shard)?;
    }
    Ok(())
}

//! The originals of one message, which are gathered as references, without copying their bytes.
ghost use Rattle.std.specs.Prelude.{◌≡◌, ◌≤◌, [], All, Ok, IfOk, IfErr, vec_len};
ghost use Rattle.std.specs.Vec.{vec_capacity};
ghost use Rattle.rs_field.specs.code.Column.{IsShard};
ghost use Rattle.rs_field.specs.code.Configuration.{start_outcome};
ghost use Rattle.rs_field.specs.code.Counts.{default_rate};
ghost use Rattle.rs_field.specs.code.OneCall.{default_of};
ghost use Rattle.rs_field.specs.code.Frame.{encoder_rows};
ghost use Rattle.reed_solomon_simd.specs.Rooms.{shards_of};

use crate::checked_originals::check_original;
use crate::originals::LentShards;
use crate::rooms::Rooms;
use crate::strip_bytes::ENCODE_STRIP_BYTES;
use crate::strip_encoder::encode_strips_with;
use rs_field::engine::Engine;
use rs_field::error::Error;
use rs_rate::rate::strip_encoder::StripEncoder;
use rs_rate::rate::{DefaultRateCounts, check_encoder_rows};
use std::alloc::Global;

/// The originals of one message, in order.
#[derive(Drop)]
pub struct LentOriginals<'a> {
    counts: DefaultRateCounts,
    shard_bytes: usize,
    shards: Vec<&'a [u8]>,
    pub ghost no_more: { vec_len shards ≤ counts.original_count },
    pub ghost room: { counts.original_count ≤ vec_capacity shards },
    pub ghost sized: { All (IsShard shard_bytes) (shards_of shards.items) },
    pub ghost set_up: { start_outcome
        (encoder_rows default_rate counts.original_count counts.recovery_count)
        (default_of counts.original_count counts.recovery_count shard_bytes)
        ≡ Ok tt },
}

impl<'a> LentOriginals<'a> {
    ghost use Rattle.std.specs.Prelude.{◌≡◌, ◌≤◌, List, All, IfOk, MatchResult, OnOk, OnErr, Err, false, length};
    ghost use Rattle.std.specs.Iterator.{IsFinite};
    ghost use Rattle.std.specs.Result.{result_map_both};
    ghost use Rattle.rs_field.specs.code.Code.{AreRecovery};
    ghost use Rattle.rs_field.specs.code.Column.{Shard};
    ghost use Rattle.rs_field.specs.code.Configuration.{UpToMemory};
    ghost use Rattle.rs_field.specs.code.Encoder.{fresh_encoder, with_shard, message_of};
    ghost use Rattle.rs_field.specs.code.OneCall.{with_shards, collected_shards};
    ghost use Rattle.rs_field.specs.code.Outcome.{answer_of, state_after};
    ghost use Rattle.rs_field.specs.code.Pieces.{room_length};
    ghost use Rattle.rs_rate.specs.objects.Calls.{Calls, BeginsWith};
    ghost use Rattle.rs_rate.specs.objects.Giving.{Reaches, IsEncoding};
    ghost use Rattle.reed_solomon_simd.specs.LentState.{lent_state, IsStripEncoder};

    // Makes a list without originals, for these counts and this size. Fails with `InvalidShardSize`, and then with
    // `OutOfMemory` if the rows for the whole shards would take more than `usize::MAX` bytes, or if the list cannot be
    // allocated.
    fn new(
        alloc: Global,
        counts: DefaultRateCounts,
        shard_bytes: usize,
    ) -> Result<LentOriginals<'a>, Error>
        ensures answer { let c =
            default_of counts.original_count counts.recovery_count shard_bytes in
            UpToMemory
            (start_outcome (encoder_rows default_rate c.original_count c.recovery_count) c)
            (answer_of result) }
        ensures counts { IfOk result (λ x. x.counts ≡ counts) }
        ensures made { IfOk result (λ x. lent_state x
            ≡ fresh_encoder (default_of counts.original_count counts.recovery_count shard_bytes)) }
    {
        check_encoder_rows(counts, shard_bytes)?;
        Ok(LentOriginals {
            counts,
            shard_bytes,
            shards: Vec::with_capacity(alloc, counts.original_count)?,
        })
    }

    /// Gathers all `original` shards for these counts, and makes an encoder for their strips, with this engine. The
    /// shard size is that of the first original.
    ///
    /// # Errors
    ///
    /// - [`Error::TooFewOriginalShards`] with 0 received shards if `original` yields no shard.
    /// - [`Error::InvalidShardSize`] if the size of the first original is zero or odd.
    /// - [`Error::OutOfMemory`] if the rows for the whole shards would take more than `usize::MAX` bytes, or if the
    ///   list of references or the work area of the encoder cannot be allocated.
    /// - For each original in order: [`Error::TooManyOriginalShards`], then [`Error::DifferentShardSize`]. The iterator
    ///   is then not called again.
    pub fn gather<E: Engine, I: Iterator<Item = &'a [u8]> + Drop>(
        alloc: Global,
        counts: DefaultRateCounts,
        engine: &E,
        mut original: I,
    ) -> Result<(LentOriginals<'a>, StripEncoder), Error>
        requires can { I.can_next original }
        requires ends { IsFinite (I.remaining original) }
        ensures gathered { (calls : Calls I.next_gives original)
            × ((items : List Shard) → BeginsWith items calls
            → IsEncoding counts.original_count counts.recovery_count items
            (result_map_both (λ x. lent_state x.0) (λ e. e) result)) }
        ensures counts { IfOk result (λ x. x.0.counts ≡ counts) }
        ensures encoder { IfOk result (λ x. IsStripEncoder x.0 x.1) }
    {
        let Some(first) = original.next() else {
            return Err(Error::TooFewOriginalShards {
                original_count: counts.original_count,
                original_received_count: 0,
            });
        };
        let mut originals: LentOriginals<'a> = LentOriginals::new(alloc, counts, first.len())?;
        let encoder = StripEncoder::new(alloc, counts, first.len(), ENCODE_STRIP_BYTES, engine)?;
        originals.add(first)?;
        originals.add_all(original)?;
        Ok((originals, encoder))
    }

    // Adds the next original. Fails with the errors of `check_original`.
    fn add(&mut self, shard: &'a [u8]) -> Result<(), Error>
        ensures answer { result ≡ answer_of (with_shard (lent_state self.old) shard.now) }
        ensures left { lent_state self.new
            ≡ state_after (lent_state self.old) (with_shard (lent_state self.old) shard.now) }
        ensures counts { self.new.counts ≡ self.old.counts }
        ensures size { self.new.shard_bytes ≡ self.old.shard_bytes }
    {
        let index = self.shards.len();
        check_original(self.counts.original_count, self.shard_bytes, index, shard)?;
        self.shards.push_reserved(shard);
        Ok(())
    }

    // Adds originals in order. Fails with the error of the first original that cannot be added.
    fn add_all<I: Iterator<Item = &'a [u8]> + Drop>(&mut self, originals: I) -> Result<(), Error>
        requires can { I.can_next originals }
        requires ends { IsFinite (I.remaining originals) }
        ensures reaches { (calls : Calls I.next_gives originals)
            × ((items : List Shard) → BeginsWith items calls
            → Reaches (with_shards (lent_state self.old) items) result
            (λ s. lent_state self.new ≡ s)) }
        ensures counts { self.new.counts ≡ self.old.counts }
        ensures size { self.new.shard_bytes ≡ self.old.shard_bytes }
    {
        for shard in originals {
            self.add(shard)?;
        }
        Ok(())
    }

    /// Checks that all originals were gathered.
    ///
    /// # Errors
    ///
    /// [`Error::TooFewOriginalShards`] if originals are missing.
    pub fn check_all_given(&self) -> Result<(), Error>
        ensures { result ≡ answer_of (message_of (lent_state self.now)) }
    {
        let original_count = self.counts.original_count;
        if self.shards.len() < original_count {
            return Err(Error::TooFewOriginalShards {
                original_count,
                original_received_count: self.shards.len(),
            });
        }
        Ok(())
    }

    /// Writes the recovery shards into rooms, with the encoder that [`LentOriginals::gather`] made.
    ///
    /// # Errors
    ///
    /// [`Error::OutOfMemory`] if a room cannot grow.
    pub fn encode<E: Engine, R: Rooms>(
        &self,
        engine: &E,
        encoder: &mut StripEncoder,
        rooms: &mut R,
    ) -> Result<(), Error>
        requires encoder { IsStripEncoder self.now encoder.old }
        requires all { answer_of (message_of (lent_state self.now)) ≡ Ok tt }
        requires number { length (R.held rooms.old) ≡ self.now.counts.recovery_count }
        requires fit { All (λ room. length room ≡ room_length R.grows 0 self.now.shard_bytes)
            (R.held rooms.old) }
        ensures coded { OnOk result (AreRecovery (lent_state self.now).configuration
            (lent_state self.now).given (R.held rooms.new)) }
        ensures refused { OnErr result (result ≡ Err Error.OutOfMemory) }
        ensures untouched { R.grows ≡ false → OnErr result (R.held rooms.new ≡ R.held rooms.old) }
        ensures places { R.places rooms.new ≡ R.places rooms.old }
        ensures loan { R.loan rooms.new ≡ R.loan rooms.old }
    {
        let shards = LentShards {
            shards: self.shards.as_slice(),
        };
        encode_strips_with(engine, encoder, self.shard_bytes, &shards, rooms)
    }

    /// Returns the recovery shards as vectors, with the encoder that [`LentOriginals::gather`] made.
    ///
    /// # Errors
    ///
    /// [`Error::OutOfMemory`] if the vectors cannot be allocated.
    pub fn encode_vectors<E: Engine>(
        &self,
        alloc: Global,
        engine: &E,
        encoder: &mut StripEncoder,
    ) -> Result<Vec<Vec<u8>>, Error>
        requires encoder { IsStripEncoder self.now encoder.old }
        requires all { answer_of (message_of (lent_state self.now)) ≡ Ok tt }
        ensures { MatchResult (collected_shards result)
            (λ recovery. AreRecovery (lent_state self.now).configuration (lent_state self.now).given
            recovery)
            (λ e. e ≡ Error.OutOfMemory) }
    {
        let mut vectors = empty_vectors(alloc, self.counts.recovery_count, self.shard_bytes)?;
        self.encode(engine, encoder, &mut vectors)?;
        Ok(vectors)
    }
}

// Each vector has memory for `bytes` bytes, so it does not grow later when its strips are put into it.
pub(crate) fn empty_vectors(
    alloc: Global,
    count: usize,
    bytes: usize,
) -> Result<Vec<Vec<u8>>, Error>
    ensures number { IfOk result (λ vectors. vec_len vectors ≡ count) }
    ensures empty { IfOk result (λ vectors. All (λ vector. vector.items ≡ []) vectors.items) }
    ensures refused { IfErr result (λ e. e ≡ Error.OutOfMemory) }
{
    let mut vectors = Vec::with_capacity(alloc, count)?;
    while vectors.len() < count {
        vectors.push(Vec::with_capacity(alloc, bytes)?)?;
    }
    Ok(vectors)
}

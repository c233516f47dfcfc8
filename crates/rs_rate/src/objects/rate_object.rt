//! The part that encoders and decoders share: an object holds an engine, and rows for two counts and a shard size.
ghost use Rattle.rs_rate.specs.values.SetUp.{IsSetUp};

use crate::rows::object_rows::ObjectRows;
use crate::values::configuration::Configuration;
use crate::values::rate_marker::RateMarker;
use crate::values::supported_counts::SupportedCounts;
use rs_field::error::Error;
use std::alloc::Global;
use std::marker::PhantomData;

/// An encoder or a decoder of a rate: it holds an engine, and rows that are set up for counts that the rate supports.
#[derive(Drop)]
pub struct RateObject<E: Drop, C: RateMarker, R: ObjectRows> {
    /// The engine.
    pub(crate) engine: E,
    /// The rows.
    pub(crate) rows: R,
    marker: PhantomData<C>,
    pub ghost set_up: { IsSetUp C.rate (R.configuration_of rows) },
}

impl<E: Drop, C: RateMarker, R: ObjectRows + Drop> RateObject<E, C, R> {
    ghost use Rattle.std.specs.Prelude.{◌≡◌, ◌≢◌, Err, IfOk, OnOk, OnErr};
    ghost use Rattle.rs_field.specs.code.Configuration.{configuration, start_outcome, UpToMemory, FitsWithin};
    ghost use Rattle.rs_field.specs.code.Outcome.{answer_of};
    ghost use Rattle.rs_rate.specs.values.Configured.{configuration_at};

    /// Makes an object with nothing added, for counts that its rate supports. If a `work` is passed, its memory is
    /// used.
    ///
    /// # Errors
    ///
    /// - [`Error::InvalidShardSize`] if `shard_bytes` is zero or odd.
    /// - [`Error::OutOfMemory`] if the rows cannot be allocated, or if their bytes exceed `usize::MAX`.
    #[inline(always)]
    pub fn with_counts(
        alloc: Global,
        counts: SupportedCounts<C>,
        shard_bytes: usize,
        engine: E,
        work: R::Work,
    ) -> Result<RateObject<E, C, R>, Error>
        ensures answer { let c =
            configuration C.rate counts.original_count counts.recovery_count shard_bytes in
            UpToMemory
            (start_outcome (R.row_count C.rate c.original_count c.recovery_count) c)
            (answer_of result) }
        ensures made { let c =
            configuration C.rate counts.original_count counts.recovery_count shard_bytes in
            IfOk result (λ x. (R.state C.rate x.rows ≡ R.fresh c) × (x.engine ≡ engine)) }
        ensures grown { IfOk result (λ x. R.grows_from work (R.room x.rows)) }
        ensures roomy { let c =
            configuration C.rate counts.original_count counts.recovery_count shard_bytes in
            R.where_roomy work (R.row_count C.rate c.original_count c.recovery_count) shard_bytes
            (answer_of result)
            (start_outcome (R.row_count C.rate c.original_count c.recovery_count) c) }
    {
        let configuration = Configuration::new(counts, shard_bytes)?;
        let rows = R::new(alloc, configuration, work)?;
        Ok(RateObject {
            engine,
            rows,
            marker: PhantomData,
        })
    }

    // Sets the object up for other counts and another size, with no shards. After an error its state is what it was.
    #[inline(always)]
    pub(crate) fn set_up_anew(
        &mut self,
        original_count: usize,
        recovery_count: usize,
        shard_bytes: usize,
    ) -> Result<(), Error>
        ensures answer { let c = configuration C.rate original_count recovery_count shard_bytes in
            UpToMemory (start_outcome (R.row_count C.rate original_count recovery_count) c) result }
        ensures ok { OnOk result
            (R.state C.rate self.new.rows
            ≡ R.fresh (configuration C.rate original_count recovery_count shard_bytes)) }
        ensures err { OnErr result (R.state C.rate self.new.rows ≡ R.state C.rate self.old.rows) }
        ensures roomy { R.has_room (R.room self.old.rows)
            (R.row_count C.rate original_count recovery_count) shard_bytes
            → result
            ≡ start_outcome (R.row_count C.rate original_count recovery_count)
            (configuration C.rate original_count recovery_count shard_bytes) }
        ensures own { FitsWithin (configuration_at C.rate (R.configuration_of self.old.rows))
            (configuration C.rate original_count recovery_count shard_bytes)
            → result ≢ Err Error.OutOfMemory }
        ensures engine { self.new.engine ≡ self.old.engine }
        ensures grown { R.grows (R.room self.old.rows) (R.room self.new.rows) }
    {
        let configuration = Configuration::at::<C>(original_count, recovery_count, shard_bytes)?;
        self.rows.reset(configuration)
    }
}

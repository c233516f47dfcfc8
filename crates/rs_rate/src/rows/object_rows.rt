//! What the rows of encoders and the rows of decoders have in common.
ghost use Rattle.rs_rate.specs.values.SetUp.{IsSetUp};

use crate::values::configuration::Configuration;
use rs_field::error::Error;
use std::alloc::Global;

/// The rows of an encoder or of a decoder.
pub trait ObjectRows: Sized {
    ghost use Rattle.std.specs.Prelude.{◌≡◌, ◌*◌, ◌^◌, ◌<◌, ◌≤◌, ℕ, IfOk, OnOk, OnErr};
    ghost use Rattle.rs_field.specs.code.Configuration.{Configuration as AsDefined, UpToMemory};
    ghost use Rattle.rs_field.specs.code.Counts.{Rate};
    ghost use Rattle.rs_field.specs.code.Outcome.{answer_of};
    ghost use Rattle.rs_rate.specs.declared.values.configuration.Configuration.{Configuration};
    ghost use Rattle.rs_rate.specs.values.Configured.{configuration_at, IsConfigured};
    ghost use Rattle.rs_rate.specs.values.SetUp.{Answer, rows_of, set_up_outcome};
    ghost use Rattle.rs_rate.specs.values.ChunkCounts.{chunk_count};

    /// The memory of an earlier object, if there is one.
    type Work: Drop;

    /// The states that rows can represent.
    ghost State: { Type 0 };

    /// How many rows of which size fit into the memory of an object.
    ghost Room: { Type 0 };

    /// The number of rows for a rate, a number of originals and a number of recovery shards.
    ghost row_count: { Rate → ℕ → ℕ → ℕ };

    /// The configuration for which rows are set up.
    ghost configuration_of: { Self → Configuration };

    /// The state that rows represent. The rate is a part of this state.
    ghost state: { Rate → Self → State };

    /// The state of a configuration before any shard was added.
    ghost fresh: { AsDefined → State };

    /// The room in the memory of the rows.
    ghost room: { Self → Room };

    /// States that a room is large enough for a number of rows and a shard size.
    ghost has_room: { Room → ℕ → ℕ → Type 0 };

    /// States that the second room is at least as large as the first room.
    ghost grows: { Room → Room → Type 0 };

    /// States that the room is at least as large as the room of the work, if there is a work.
    ghost grows_from: { Self.Work → Room → Type 0 };

    /// States that two results are equal if there is a work with room for a number of rows and a shard size.
    ghost where_roomy: { Self.Work → ℕ → ℕ → Answer → Answer → Type 0 };

    /// Makes rows with no shards. If there is a `work`, its memory is used.
    ///
    /// # Errors
    ///
    /// [`Error::OutOfMemory`] if the rows cannot be allocated, or if their bytes exceed `usize::MAX`.
    fn new(alloc: Global, configuration: Configuration, work: Self::Work) -> Result<Self, Error>
        requires { IsConfigured configuration }
        ensures configuration { IfOk result (λ x. configuration_of x ≡ configuration) }
        ensures state { IfOk result
            (λ x. (rate : Rate) → state rate x ≡ fresh (configuration_at rate configuration)) }
        ensures answer { UpToMemory (set_up_outcome row_count configuration) (answer_of result) }
        ensures grown { IfOk result (λ x. grows_from work (room x)) }
        ensures roomy { where_roomy work (rows_of row_count configuration) configuration.shard_bytes
            (answer_of result) (set_up_outcome row_count configuration) };

    /// Sets the rows up for another configuration, with no shards. All memory is allocated first, so after an error the
    /// configuration and the shards are what they were.
    ///
    /// # Errors
    ///
    /// [`Error::OutOfMemory`] if the rows cannot be allocated, or if their bytes exceed `usize::MAX`.
    fn reset(&mut self, configuration: Configuration) -> Result<(), Error>
        requires { IsConfigured configuration }
        ensures ok { OnOk result
            ((rate : Rate) → state rate self.new ≡ fresh (configuration_at rate configuration)) }
        ensures err { OnErr result ((rate : Rate) → state rate self.new ≡ state rate self.old) }
        ensures configuration { OnOk result (configuration_of self.new ≡ configuration) }
        ensures kept { OnErr result (configuration_of self.new ≡ configuration_of self.old) }
        ensures answer { UpToMemory (set_up_outcome row_count configuration) result }
        ensures grown { grows (room self.old) (room self.new) }
        ensures roomy { has_room (room self.old)
            (rows_of row_count configuration) configuration.shard_bytes
            → result ≡ set_up_outcome row_count configuration };

    /// Each room is at least as large as itself.
    ghost grows_from_itself: { (room : Room) → grows room room };

    /// If two results are always equal, they are equal if there is room.
    ghost equal_with_room: { (work : Self.Work) (n size : ℕ) (answer wanted : Answer)
        → answer ≡ wanted → where_roomy work n size answer wanted };

    /// Rows that are set up for a configuration have the number that the rate defines for the two counts.
    ghost rows_set_up: { (rate : Rate) (c : Configuration) → IsSetUp rate c
        → rows_of row_count c ≡ row_count rate c.original_count c.recovery_count };

    /// Rows have room for the same number of rows with the same or a smaller shard size.
    ghost own_room: { (x : Self) (size : ℕ) → size ≤ (configuration_of x).shard_bytes
        → let n = rows_of row_count (configuration_of x) in
        (chunk_count n size * 64 < 2 ^ 64) × has_room (room x) n size };
}

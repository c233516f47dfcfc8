//! The work of a decoder, which is the memory that decoders pass on, and the rows of a decoder in this memory.
ghost use Rattle.std.specs.Prelude.{◌≡◌, ℕ, ◌+◌, ◌%◌, ◌<◌, ◌≤◌, false, length, vec_len};
ghost use Rattle.std.specs.Prelude.{None, IfOk, IfErr, IfSome, OnOk, OnErr, IsOk, MatchOption, [], ◌∷◌, option_copied};
ghost use Rattle.std.specs.Vec.{vec_capacity};
ghost use Rattle.rs_field.specs.code.Column.{IsShard};
ghost use Rattle.rs_field.specs.code.Counts.{Rate};
ghost use Rattle.rs_field.specs.code.Outcome.{answer_of, state_after};
ghost use Rattle.rs_field.specs.code.Configuration.{UpToMemory};
ghost use Rattle.rs_field.specs.code.Decoder.{fresh_decoder, enough_given, with_original, with_recovery};
ghost use Rattle.rs_field.specs.code.Frame.{original_row, recovery_row};
ghost use Rattle.rs_field.specs.code.Given.{with_entry};
ghost use Rattle.rs_field.specs.rows.MarkedRows.{is_marked};
ghost use Rattle.rs_rate.specs.values.Configured.{configuration_at, IsConfigured, rows_to_decode};
ghost use Rattle.rs_rate.specs.rows.Entering.{given_rows, entry_outcome};
ghost use Rattle.rs_rate.specs.values.ChunkCounts.{memory_outcome, chunk_count};
ghost use Rattle.rs_rate.specs.rows.Marks.{given_marks, mark_count, mark_room, AreSameMarks, HoldGiven};
ghost use Rattle.rs_rate.specs.rows.DecoderRoom.{IsLaidOut};

use crate::rows::marks::Marks;
use crate::rows::memory::{make_room, set_chunks, set_length};
use crate::rows::object_rows::ObjectRows;
use crate::rows::shard_rows::{insert_at, shard_at};
use crate::values::configuration::{Configuration, Tally, chunk_count};
use rs_field::bytes::are_bytes;
use rs_field::engine::GfElement;
use rs_field::error::Error;
use std::alloc::Global;

/// The memory of a decoder. It can pass from one decoder to the next, which then allocates only what is missing.
#[derive(Drop)]
pub struct DecoderWork {
    /// The memory that a decoder had, if there was one.
    pub(crate) memory: Option<DecoderMemory>,
}

/// The memory of the rows of a decoder.
#[derive(Drop)]
pub struct DecoderMemory {
    /// The chunks of the rows, row after row.
    pub(crate) chunks: Vec<[u8; 64]>,
    /// A mark for each row.
    pub(crate) marks: Marks,
    /// The entries of the locator, one for each row.
    pub(crate) entries: Vec<GfElement>,
}

/// The rows of a decoder.
#[derive(Drop)]
pub struct DecoderRows {
    /// The configuration for which the rows are set up.
    pub(crate) configuration: Configuration,
    /// The number of originals that were added in the current round.
    pub(crate) originals_given: usize,
    /// The number of recovery shards that were added in the current round.
    pub(crate) recovery_given: usize,
    /// The chunks and marks of the rows, and the entries of the locator.
    pub(crate) memory: DecoderMemory,
    pub ghost configured: { IsConfigured configuration },
    pub ghost laid_out: { IsLaidOut configuration memory },
    pub ghost given: { HoldGiven configuration originals_given recovery_given
        (given_rows memory configuration.shard_bytes) },
}

impl DecoderWork {
    ghost use Rattle.rs_rate.specs.rows.DecoderRoom.{work_room};

    /// Makes a work that holds no memory.
    pub fn new() -> DecoderWork
        ensures { work_room result ≡ record { chunks = 0; rows = 0; entries = 0 } }
    {
        DecoderWork { memory: None }
    }
}

impl Default for DecoderWork {
    ghost use Rattle.rs_rate.specs.rows.DecoderRoom.{work_room};

    ghost is_default = { λ work. work_room work ≡ record { chunks = 0; rows = 0; entries = 0 } };

    fn default() -> DecoderWork {
        DecoderWork::new()
    }
}

impl DecoderMemory {
    ghost use Rattle.rs_rate.specs.rows.DecoderRoom.{HasRoom, Grows, memory_room, decoder_chunks, work_room, IsLaidOut};

    fn of(work: Option<DecoderWork>) -> Option<DecoderMemory>
        ensures { IfSome work (λ w. w.memory ≡ result) }
    {
        match work {
            Some(work) => work.memory,
            None => None,
        }
    }

    // Allocates memory that is laid out for a configuration, without given shards. The function is not inlined: if it
    // were, the compiler would treat the clearing as rarely executed and would not use `memset`. The chunks are
    // allocated last, because clearing them removes from the cache what other allocations read.
    #[inline(never)]
    fn new(alloc: Global, configuration: Configuration) -> Result<DecoderMemory, Error>
        requires { IsConfigured configuration }
        ensures laid_out { IfOk result (IsLaidOut configuration) }
        ensures empty { IfOk result (λ m. (p : ℕ) → is_marked (given_marks m.marks) p ≡ false) }
        ensures answer { UpToMemory (memory_outcome (decoder_chunks configuration))
            (answer_of result) }
    {
        let row_count = configuration.frame.row_count();
        let chunk_count = chunk_count(row_count, configuration.shard_bytes)?;
        let marks = Marks::new(alloc, row_count)?;
        let entries = vec![in alloc; 0; row_count]?;
        Ok(DecoderMemory {
            chunks: vec![in alloc; [0; 64]; chunk_count]?,
            marks,
            entries,
        })
    }

    // Uses the memory of the `work` if there is one, and allocates otherwise. No shard is given afterwards.
    #[inline(always)]
    fn laid_out(
        alloc: Global,
        configuration: Configuration,
        work: Option<DecoderWork>,
    ) -> Result<DecoderMemory, Error>
        requires { IsConfigured configuration }
        ensures laid_out { IfOk result (IsLaidOut configuration) }
        ensures empty { IfOk result (λ m. (p : ℕ) → is_marked (given_marks m.marks) p ≡ false) }
        ensures answer { UpToMemory (memory_outcome (decoder_chunks configuration))
            (answer_of result) }
        ensures grown { IfOk result (λ m. IfSome work (λ w. Grows (work_room w) (memory_room m))) }
        ensures roomy { IfSome work
            (λ w. HasRoom (work_room w) (rows_to_decode configuration) configuration.shard_bytes
            → answer_of result ≡ memory_outcome (decoder_chunks configuration)) }
    {
        match DecoderMemory::of(work) {
            Some(mut memory) => {
                memory.lay_out(configuration)?;
                Ok(memory)
            }
            None => DecoderMemory::new(alloc, configuration),
        }
    }

    // Makes room for a number of chunks and of rows. Nothing else changes.
    fn grow(&mut self, chunks: usize, rows: usize) -> Result<(), Error>
        ensures kept { (self.new.chunks.items ≡ self.old.chunks.items)
            × AreSameMarks self.old.marks self.new.marks
            × (self.new.entries.items ≡ self.old.entries.items) }
        ensures room { OnOk result
            ((chunks ≤ vec_capacity self.new.chunks) × (rows ≤ mark_room self.new.marks)
            × (rows ≤ vec_capacity self.new.entries)) }
        ensures grown { Grows (memory_room self.old) (memory_room self.new) }
        ensures memory { IfErr result (λ e. e ≡ Error.OutOfMemory) }
        ensures enough { chunks ≤ vec_capacity self.old.chunks → rows ≤ mark_room self.old.marks
            → rows ≤ vec_capacity self.old.entries → IsOk result }
    {
        make_room(&mut self.chunks, chunks)?;
        self.marks.make_room(rows)?;
        make_room(&mut self.entries, rows)
    }

    // Lays the memory out for a configuration, without given shards. All memory is allocated first. If there are as
    // many entries as before, they stay: the rounds of a `StripDecoder` share them.
    fn lay_out(&mut self, configuration: Configuration) -> Result<(), Error>
        requires { IsConfigured configuration }
        ensures laid_out { OnOk result (IsLaidOut configuration self.new) }
        ensures empty { OnOk result ((p : ℕ) → is_marked (given_marks self.new.marks) p ≡ false) }
        ensures kept { OnErr result
            ((self.new.chunks.items ≡ self.old.chunks.items)
            × AreSameMarks self.old.marks self.new.marks
            × (self.new.entries.items ≡ self.old.entries.items)) }
        ensures answer { UpToMemory (memory_outcome (decoder_chunks configuration)) result }
        ensures grown { Grows (memory_room self.old) (memory_room self.new) }
        ensures roomy { HasRoom
            (memory_room self.old) (rows_to_decode configuration) configuration.shard_bytes
            → result ≡ memory_outcome (decoder_chunks configuration) }
        ensures locator { vec_len self.old.entries ≡ rows_to_decode configuration
            → self.new.entries.items ≡ self.old.entries.items }
    {
        let rows = configuration.frame.row_count();
        let chunks = chunk_count(rows, configuration.shard_bytes)?;
        self.grow(chunks, rows)?;
        set_chunks(&mut self.chunks, chunks);
        self.marks.set_empty(rows);
        set_length(&mut self.entries, rows, 0);
        Ok(())
    }

    // Checks that a shard of `shard_bytes` bytes can be entered in row `row`. Fails with `repeated` if the row holds a
    // given shard, and then with `DifferentShardSize`.
    fn check_entry(
        &self,
        row: usize,
        shard_bytes: usize,
        shard: &[u8],
        repeated: Error,
    ) -> Result<(), Error>
        requires { row < mark_count self.now.marks }
        ensures answer { result
            ≡ answer_of (entry_outcome
            (given_rows self.now shard_bytes) row shard_bytes repeated shard.now) }
        ensures free { OnOk result (given_rows self.now shard_bytes row ≡ None) }
        ensures size { OnOk result (length shard.now ≡ shard_bytes) }
    {
        if self.marks.is_given(row) {
            return Err(repeated);
        }
        if shard.len() != shard_bytes {
            return Err(Error::DifferentShardSize {
                shard_bytes,
                got: shard.len(),
            });
        }
        Ok(())
    }

    // Enters a shard in row `row` of rows of its size: lays it into the row, and marks the row.
    fn enter(&mut self, row: usize, shard: &[u8])
        requires room { chunk_count (row + 1) (length shard.now) ≤ vec_len self.old.chunks }
        requires even { length shard.now % 2 ≡ 0 }
        requires marked { row < mark_count self.old.marks }
        ensures rows { given_rows self.new (length shard.now)
            ≡ with_entry (given_rows self.old (length shard.now)) row shard.now }
        ensures shard { IsShard (length shard.now) shard.now }
        ensures laid { (c : Configuration) → IsLaidOut c self.old → IsLaidOut c self.new }
        ensures grown { memory_room self.new ≡ memory_room self.old }
        ensures locator { self.new.entries ≡ self.old.entries }
    {
        are_bytes(shard);
        insert_at(self.chunks.as_mut_slice(), shard, row);
        self.marks.mark_given(row);
    }
}

impl ObjectRows for DecoderRows {
    ghost use Rattle.std.proofs.Common.{le_refl};
    ghost use Rattle.rs_field.specs.code.Decoder.{DecoderState};
    ghost use Rattle.rs_field.specs.code.Frame.{decoder_rows};
    ghost use Rattle.rs_rate.specs.rows.RowsLaws.{some_anyway, room_within};
    ghost use Rattle.rs_rate.specs.values.RowCounts.{decoder_rows_set_up};
    ghost use Rattle.rs_rate.specs.rows.DecoderRoom.{DecoderRoom, HasRoom, Grows, memory_room, work_room};
    ghost use Rattle.rs_rate.specs.rows.DecoderView.{decoder_state};

    type Work = Option<DecoderWork>;

    ghost State = { DecoderState };

    ghost Room = { DecoderRoom };

    ghost row_count = { decoder_rows };

    ghost configuration_of = { λ x. x.configuration };

    ghost state = { decoder_state };

    ghost fresh = { fresh_decoder };

    ghost room = { λ x. memory_room x.memory };

    ghost has_room = { HasRoom };

    ghost grows = { Grows };

    ghost grows_from = { λ work room. IfSome work (λ w. Grows (work_room w) room) };

    ghost where_roomy = { λ work n size answer wanted. IfSome work
        (λ w. HasRoom (work_room w) n size → answer ≡ wanted) };

    #[inline(always)]
    fn new(
        alloc: Global,
        configuration: Configuration,
        work: Option<DecoderWork>,
    ) -> Result<DecoderRows, Error> {
        let memory = DecoderMemory::laid_out(alloc, configuration, work)?;
        Ok(DecoderRows {
            configuration,
            originals_given: 0,
            recovery_given: 0,
            memory,
        })
    }

    #[inline(always)]
    fn reset(&mut self, configuration: Configuration) -> Result<(), Error> {
        self.memory.lay_out(configuration)?;
        self.configuration = configuration;
        self.originals_given = 0;
        self.recovery_given = 0;
        Ok(())
    }

    ghost grows_from_itself = { λ room. record {
      chunks = le_refl room.chunks;
      rows = le_refl room.rows;
      entries = le_refl room.entries;
    } };

    ghost equal_with_room = { λ work n size answer wanted same.
        some_anyway work _ (λ w roomy. same) };

    ghost rows_set_up = { decoder_rows_set_up };

    ghost own_room = { λ x size less.
        room_within _ _ size _ _ x.configured.rows less x.laid_out.sized x.laid_out.room };
}

impl DecoderRows {
    ghost use Rattle.rs_rate.specs.rows.DecoderRoom.{memory_room};
    ghost use Rattle.rs_rate.specs.rows.DecoderView.{decoder_state, restored_by_rows, restored_from};
    ghost use Rattle.rs_rate.specs.rows.Marks.{CanBeRestored};

    // Sets rows up for shards of this size, which is not larger than their own, without given shards. The entries of
    // the locator stay.
    pub(crate) fn narrow(&mut self, shard_bytes: usize)
        requires shorter { shard_bytes ≤ self.old.configuration.shard_bytes }
        requires some { 0 < shard_bytes }
        requires even { shard_bytes % 2 ≡ 0 }
        ensures state { (rate : Rate) → decoder_state rate self.new
            ≡ fresh_decoder (configuration_at rate
            (record self.old.configuration { shard_bytes = shard_bytes })) }
        ensures configuration { self.new.configuration
            ≡ record self.old.configuration { shard_bytes = shard_bytes } }
        ensures locator { self.new.memory.entries.items ≡ self.old.memory.entries.items }
    {
        let configuration = Configuration {
            shard_bytes,
            ..self.configuration
        };
        let _ = self.memory.lay_out(configuration);
        self.configuration = configuration;
        self.originals_given = 0;
        self.recovery_given = 0;
    }

    // Adds an original: copies it into its row and marks the row. Fails with `InvalidOriginalShardIndex`, then with
    // `DuplicateOriginalShardIndex`, then with `DifferentShardSize`.
    pub(crate) fn add_original_shard(&mut self, index: usize, shard: &[u8]) -> Result<(), Error>
        ensures answer { (rate : Rate)
            → result ≡ answer_of (with_original (decoder_state rate self.old) index shard.now) }
        ensures left { (rate : Rate) → decoder_state rate self.new
            ≡ state_after (decoder_state rate self.old)
            (with_original (decoder_state rate self.old) index shard.now) }
        ensures configuration { self.new.configuration ≡ self.old.configuration }
        ensures room { memory_room self.new.memory ≡ memory_room self.old.memory }
    {
        let original_count = self.configuration.original_count;
        if index >= original_count {
            return Err(Error::InvalidOriginalShardIndex {
                original_count,
                index,
            });
        }
        let row = self.configuration.frame.original_row(index);
        let repeated = Error::DuplicateOriginalShardIndex { index };
        self.memory
            .check_entry(row, self.configuration.shard_bytes, shard, repeated)?;
        self.take_original_shard(index, shard);
        Ok(())
    }

    // Takes an original: copies it into its row and marks the row. The index is valid, no shard has it yet, and the
    // shard has the size.
    pub(crate) fn take_original_shard(&mut self, index: usize, shard: &[u8])
        requires index { index < self.old.configuration.original_count }
        requires free { given_rows self.old.memory self.old.configuration.shard_bytes
            (original_row self.old.configuration.frame index) ≡ None }
        requires size { length shard.now ≡ self.old.configuration.shard_bytes }
        ensures left { (rate : Rate) → decoder_state rate self.new
            ≡ state_after (decoder_state rate self.old)
            (with_original (decoder_state rate self.old) index shard.now) }
        ensures configuration { self.new.configuration ≡ self.old.configuration }
        ensures room { memory_room self.new.memory ≡ memory_room self.old.memory }
        ensures locator { self.new.memory.entries ≡ self.old.memory.entries }
    {
        let row = self.configuration.frame.original_row(index);
        self.memory.enter(row, shard);
        self.originals_given += 1;
    }

    // Adds a recovery shard: copies it into its row and marks the row. Fails with `InvalidRecoveryShardIndex`, then
    // with `DuplicateRecoveryShardIndex`, then with `DifferentShardSize`.
    pub(crate) fn add_recovery_shard(&mut self, index: usize, shard: &[u8]) -> Result<(), Error>
        ensures answer { (rate : Rate)
            → result ≡ answer_of (with_recovery (decoder_state rate self.old) index shard.now) }
        ensures left { (rate : Rate) → decoder_state rate self.new
            ≡ state_after (decoder_state rate self.old)
            (with_recovery (decoder_state rate self.old) index shard.now) }
        ensures configuration { self.new.configuration ≡ self.old.configuration }
        ensures room { memory_room self.new.memory ≡ memory_room self.old.memory }
    {
        let recovery_count = self.configuration.recovery_count;
        if index >= recovery_count {
            return Err(Error::InvalidRecoveryShardIndex {
                recovery_count,
                index,
            });
        }
        let row = self.configuration.frame.recovery_row(index);
        let repeated = Error::DuplicateRecoveryShardIndex { index };
        self.memory
            .check_entry(row, self.configuration.shard_bytes, shard, repeated)?;
        self.take_recovery_shard(index, shard);
        Ok(())
    }

    // Takes a recovery shard: copies it into its row and marks the row. The index is valid, no shard has it yet, and
    // the shard has the size.
    pub(crate) fn take_recovery_shard(&mut self, index: usize, shard: &[u8])
        requires index { index < self.old.configuration.recovery_count }
        requires free { given_rows self.old.memory self.old.configuration.shard_bytes
            (recovery_row self.old.configuration.frame index) ≡ None }
        requires size { length shard.now ≡ self.old.configuration.shard_bytes }
        ensures left { (rate : Rate) → decoder_state rate self.new
            ≡ state_after (decoder_state rate self.old)
            (with_recovery (decoder_state rate self.old) index shard.now) }
        ensures configuration { self.new.configuration ≡ self.old.configuration }
        ensures room { memory_room self.new.memory ≡ memory_room self.old.memory }
        ensures locator { self.new.memory.entries ≡ self.old.memory.entries }
    {
        let row = self.configuration.frame.recovery_row(index);
        self.memory.enter(row, shard);
        self.recovery_given += 1;
    }

    // Counts the missing originals and the surplus shards. `located` says for which marks the entries are the locator.
    pub(crate) fn tally(&self, located: Option<usize>) -> Tally
        requires { self.now.configuration.original_count
            ≤ self.now.originals_given + self.now.recovery_given }
        ensures configuration { result.configuration ≡ self.now.configuration }
        ensures missing { self.now.originals_given + result.missing
            ≡ self.now.configuration.original_count }
        ensures surplus { self.now.originals_given + self.now.recovery_given
            ≡ self.now.configuration.original_count + result.surplus }
        ensures facts { CanBeRestored result self.now.memory.marks }
        ensures located { result.located ≡ located }
    {
        let given = self.originals_given + self.recovery_given;
        Tally {
            configuration: self.configuration,
            missing: self.configuration.original_count - self.originals_given,
            surplus: given - self.configuration.original_count,
            located,
        }
    }

    // Fails with `NotEnoughShards` if fewer shards were added than there are originals.
    pub(crate) fn check_enough_given(&self) -> Result<(), Error>
        ensures { (rate : Rate) → result ≡ enough_given (decoder_state rate self.now) }
    {
        if self.originals_given + self.recovery_given < self.configuration.original_count {
            return Err(Error::NotEnoughShards {
                original_count: self.configuration.original_count,
                original_received_count: self.originals_given,
                recovery_received_count: self.recovery_given,
            });
        }
        Ok(())
    }

    pub(crate) fn restored_original(&self, index: usize) -> Option<&[u8]>
        ensures { option_copied result ≡ restored_by_rows self.now index }
    {
        if index >= self.configuration.original_count {
            return None;
        }
        let row = self.configuration.frame.original_row(index);
        if !self.memory.marks.is_restored(row) {
            return None;
        }
        Some(shard_at(
            self.memory.chunks.as_slice(),
            self.configuration.shard_bytes,
            row,
        ))
    }

    pub(crate) fn next_restored(&self, from: usize) -> Option<(usize, &[u8])>
        ensures { MatchOption result (restored_from self.now from ≡ [])
            (λ item. (item.0 < self.now.configuration.original_count)
            × (restored_from self.now from
            ≡ (item.0, item.1.now) ∷ restored_from self.now (item.0 + 1))) }
    {
        for index in from..self.configuration.original_count {
            if let Some(shard) = self.restored_original(index) {
                return Some((index, shard));
            }
        }
        None
    }
}

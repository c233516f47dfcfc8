//! The marks of a decoder's rows. While shards are added, they say which rows hold given shards. After a decode they
//! say which rows hold restored originals.
ghost use Rattle.std.specs.Prelude.{◌≡◌, ◌≢◌, ℕ, ◌^◌, ◌<◌, ◌≤◌, ◌⊎◌, not, true, false, length, IfOk, IfErr, OnOk};
ghost use Rattle.rs_field.specs.rows.MarkedRows.{is_marked};
ghost use Rattle.rs_rate.specs.rows.Marks.{given_marks, restored_marks, mark_count, mark_room, AreSameMarks};
ghost use Rattle.rs_rate.specs.rows.Marks.{WantsMissing};
ghost use Rattle.rs_field.specs.code.Frame.{original_row};

use crate::rows::memory::{make_room, set_length};
use crate::values::configuration::Configuration;
use rs_field::error::Error;
use std::alloc::Global;

/// The shards whose rows are marked.
#[derive(Clone, Copy, Debug, PartialEq, Eq, Hash)]
pub enum MarkedShards {
    /// The given shards. The rows are marked in this way until a decode.
    Given,
    /// The originals that a decode restores.
    Restored,
}

/// A mark for each row of a decoder.
#[derive(Drop)]
pub struct Marks {
    // A mark for each row.
    rows: Vec<bool>,
    // The shards whose rows are marked.
    shards: MarkedShards,
}

impl Marks {
    pub(crate) fn new(alloc: Global, rows: usize) -> Result<Marks, Error>
        ensures empty { IfOk result (λ marks. (p : ℕ) → is_marked (given_marks marks) p ≡ false) }
        ensures length { IfOk result (λ marks. mark_count marks ≡ rows) }
        ensures room { IfOk result (λ marks. rows ≤ mark_room marks) }
        ensures refused { IfErr result (λ e. e ≡ Error.OutOfMemory) }
    {
        Ok(Marks {
            rows: vec![in alloc; false; rows]?,
            shards: MarkedShards::Given,
        })
    }

    // Makes room for the marks of `rows` rows, or fails with `OutOfMemory`. No mark changes.
    pub(crate) fn make_room(&mut self, rows: usize) -> Result<(), Error>
        ensures same { AreSameMarks self.old self.new }
        ensures room { OnOk result (rows ≤ mark_room self.new) }
        ensures more { mark_room self.old ≤ mark_room self.new }
        ensures refused { IfErr result
            (λ e. (e ≡ Error.OutOfMemory) × (mark_room self.old < rows)) }
    {
        make_room(&mut self.rows, rows)
    }

    // Sets the marks to those of `rows` rows without a given shard. There must be room for these marks.
    #[inline(always)]
    pub(crate) fn set_empty(&mut self, rows: usize)
        requires { rows ≤ mark_room self.old }
        ensures empty { (p : ℕ) → is_marked (given_marks self.new) p ≡ false }
        ensures length { mark_count self.new ≡ rows }
        ensures grown { mark_room self.old ≤ mark_room self.new }
    {
        self.rows.clear();
        set_length(&mut self.rows, rows, false);
        self.shards = MarkedShards::Given;
    }

    pub(crate) fn is_given(&self, row: usize) -> bool
        requires { row < mark_count self.now }
        ensures { result ≡ is_marked (given_marks self.now) row }
    {
        match self.shards {
            MarkedShards::Given => self.rows[row],
            MarkedShards::Restored => false,
        }
    }

    // The rows of missing originals are marked before they are restored, so such a row may not hold its original yet.
    pub(crate) fn is_restored(&self, row: usize) -> bool
        requires { row < mark_count self.now }
        ensures { result ≡ is_marked (restored_marks self.now) row }
    {
        match self.shards {
            MarkedShards::Given => false,
            MarkedShards::Restored => self.rows[row],
        }
    }

    pub(crate) fn given(&self) -> &[bool]
        requires { self.now.shards ≡ MarkedShards.Given }
        ensures marks { result.now ≡ given_marks self.now }
        ensures length { length result.now ≡ mark_count self.now }
    {
        self.rows.as_slice()
    }

    pub(crate) fn restored(&self) -> &[bool]
        requires { self.now.shards ≡ MarkedShards.Restored }
        ensures marks { result.now ≡ restored_marks self.now }
        ensures length { length result.now ≡ mark_count self.now }
    {
        self.rows.as_slice()
    }

    fn set(&mut self, row: usize, is: bool)
        requires { row < mark_count self.old }
        ensures here { is_marked self.new.rows.items row ≡ is }
        ensures others { (p : ℕ) → p ≢ row
            → is_marked self.new.rows.items p ≡ is_marked self.old.rows.items p }
        ensures shards { self.new.shards ≡ self.old.shards }
        ensures length { mark_count self.new ≡ mark_count self.old }
        ensures room { mark_room self.new ≡ mark_room self.old }
    {
        self.rows[row] = is;
    }

    // Makes the marks those of given shards. If they were those of restored originals, no row is marked afterwards.
    fn begin_given(&mut self)
        ensures shards { self.new.shards ≡ MarkedShards.Given }
        ensures same { (p : ℕ)
            → is_marked self.new.rows.items p ≡ is_marked (given_marks self.old) p }
        ensures length { mark_count self.new ≡ mark_count self.old }
        ensures room { mark_room self.new ≡ mark_room self.old }
    {
        if self.shards == MarkedShards::Restored {
            self.rows.as_mut_slice().fill(false);
            self.shards = MarkedShards::Given;
        }
    }

    // Marks row `row` as holding a given shard. The first given shard of a round clears the marks that the last round
    // left.
    pub(crate) fn mark_given(&mut self, row: usize)
        requires { row < mark_count self.old }
        ensures here { is_marked (given_marks self.new) row ≡ true }
        ensures others { (p : ℕ) → p ≢ row
            → is_marked (given_marks self.new) p ≡ is_marked (given_marks self.old) p }
        ensures length { mark_count self.new ≡ mark_count self.old }
        ensures room { mark_room self.new ≡ mark_room self.old }
    {
        self.begin_given();
        self.set(row, true);
    }

    fn is_missing(&self, configuration: Configuration, row: usize) -> bool
        requires marked { row < mark_count self.now }
        requires fits { original_row configuration.frame configuration.original_count < 2 ^ 64 }
        ensures missing { configuration.frame.originals_from ≤ row
            → row < original_row configuration.frame configuration.original_count
            → result ≡ not (is_marked (given_marks self.now) row) }
        ensures others { (row < configuration.frame.originals_from)
            ⊎ (original_row configuration.frame configuration.original_count ≤ row)
            → result ≡ false }
    {
        let end = configuration
            .frame
            .original_row(configuration.original_count);
        configuration.frame.originals_from <= row && row < end && !self.is_given(row)
    }

    // Makes the marks those of restored originals: exactly the rows of originals that were not given are marked.
    pub(crate) fn want_missing(&mut self, configuration: Configuration)
        requires { original_row configuration.frame configuration.original_count
            ≤ mark_count self.old }
        ensures { WantsMissing configuration self.old self.new }
    {
        for row in 0..self.rows.len() {
            let wanted = self.is_missing(configuration, row);
            self.set(row, wanted);
        }
        self.shards = MarkedShards::Restored;
    }
}

//! The engine, over tables in memory of the caller.
ghost use Rattle.std.specs.Prelude.{MatchOption};
ghost use Rattle.rs_ffi.specs.Tables.{AreStamped, AreTables};

use crate::lanes::BuildEngine;
use rs_ffi::made_tables::MadeTables;
use rs_ffi::tables::RsTables;

/// The engine of this build, over tables that a program in C lends.
pub type TableEngine<'t> = BuildEngine<MadeTables<'t>>;

/// Returns the engine over these tables. Returns `None` if the tables do not have the stamp that `rs_tables_make`
/// writes.
pub fn engine_over(tables: &RsTables) -> Option<TableEngine<'_>>
    requires stamped { AreStamped tables.now → AreTables tables.now }
    ensures { MatchOption result (¬ AreStamped tables.now) (λ _. AreStamped tables.now) }
{
    match MadeTables::of(tables) {
        Some(made) => Some(TableEngine::over(made)),
        None => None,
    }
}

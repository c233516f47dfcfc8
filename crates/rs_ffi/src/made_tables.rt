//! Tables that are filled, as an engine reads them.
ghost use Rattle.std.specs.Prelude.{MatchOption};
ghost use Rattle.rs_ffi.specs.Tables.{AreStamped, AreTables};

use crate::tables::{RsTables, STAMP, whole};
use rs_engines::shuffle_tables::{Products, ShuffleTables};
use rs_field::engine::GfElement;
use rs_field::engine::lent_tables::LentTables;

/// Tables that `rs_tables_make` has filled, and that a program in C lends.
#[derive(Clone, Copy)]
pub struct MadeTables<'t> {
    tables: &'t RsTables,
    ghost made: { AreTables tables.now },
}

impl<'t> MadeTables<'t> {
    /// Returns these tables if they have the stamp that `rs_tables_make` writes, and `None` if they do not.
    pub fn of(tables: &'t RsTables) -> Option<MadeTables<'t>>
        requires stamped { AreStamped tables.now → AreTables tables.now }
        ensures { MatchOption result (¬ AreStamped tables.now) (λ _. AreStamped tables.now) }
    {
        if tables.stamp != STAMP {
            return None;
        }
        Some(MadeTables { tables })
    }
}

impl ShuffleTables for MadeTables<'_> {
    #[inline(always)]
    fn transform_tables(&self) -> LentTables<'_> {
        LentTables {
            skew: &self.tables.skew,
            log_walsh: &self.tables.log_walsh,
        }
    }

    #[inline(always)]
    fn products(&self, log_m: GfElement) -> Products<'_> {
        Products::Held(whole(&self.tables.products[log_m as usize]))
    }
}

//! The tables that transforms and locators read, lent by the value that holds them.
ghost use Rattle.std.specs.Prelude.{◌≡◌, ◌^◌, ◌≤◌, ℕ};
ghost use Rattle.rs_field.specs.words.Tables.{IsLogWalsh, IsLogWalshBelow, AreLogWalshes, IsSkew};

use super::table_types::{LogWalsh, Skew};
use super::{GF_ORDER, GfElement};

/// The tables that transforms and locators read, lent.
#[derive(Clone, Copy)]
pub struct LentTables<'t> {
    /// The factors of the butterflies.
    pub skew: Skew<'t>,
    /// The transforms of the logarithms of the words below each power of two, one after the other.
    pub log_walsh: &'t [GfElement],
    pub ghost skew_entries: { IsSkew skew.now },
    pub ghost log_walsh_entries: { AreLogWalshes log_walsh.now },
}

impl<'t> LentTables<'t> {
    /// Returns the transform of all 65536 logarithms.
    #[inline(always)]
    pub fn log_walsh(self) -> LogWalsh<'t>
        ensures { IsLogWalsh result.now }
    {
        self.log_walsh_below(GF_ORDER)
    }

    /// Returns the transform of the logarithms of the words below `points`, each times 65536 / `points`. `points` is a
    /// power of two, at most 65536.
    #[inline(always)]
    pub fn log_walsh_below(self, points: usize) -> LogWalsh<'t>
        requires power { (d : ℕ) × (points ≡ 2 ^ d) }
        requires few { points ≤ 65536 }
        ensures { IsLogWalshBelow points result.now }
    {
        &self.log_walsh[points - 1..2 * points - 1]
    }
}

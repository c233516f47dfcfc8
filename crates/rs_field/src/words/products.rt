//! Products of words by the tables of powers and logarithms.
ghost use Rattle.std.specs.Prelude.{◌≡◌, ◌+◌, ◌-◌, ◌/◌, ◌%◌, ◌<◌};
ghost use Rattle.rs_field.specs.words.Field.{product, power};
ghost use Rattle.rs_field.specs.words.Tables.{IsExpLog};

use super::GfElement;
use super::table_types::{Exp, Log};

/// Returns `x` times the generator to the power `log_m`. 65535 is the factor one. The tables are those of an
/// [`ExpLog`].
pub fn mul(x: GfElement, log_m: GfElement, exp: Exp<'_>, log: Log<'_>) -> GfElement
    requires { IsExpLog exp.now log.now }
    ensures { result ≡ product x (power log_m) }
{
    if x == 0 {
        0
    } else {
        exp[add_mod(log[x as usize], log_m) as usize]
    }
}

/// Returns the sum modulo 65535, where 0 and 65535 both represent zero.
#[inline(always)]
pub fn add_mod(x: GfElement, y: GfElement) -> GfElement
    ensures { result % 65535 ≡ (x + y) % 65535 }
{
    let sum = x.wrapping_add(y);
    if sum < x { sum + 1 } else { sum }
}

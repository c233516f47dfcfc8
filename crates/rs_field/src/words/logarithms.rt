//! The logarithms of the first words, from the table of the factors of butterflies.
ghost use Rattle.std.specs.Prelude.{◌≡◌, ℕ, ◌+◌, ◌-◌, ◌%◌, ◌<◌, ◌≤◌, length, slice_index};
ghost use Rattle.rs_field.specs.words.Field.{log};
ghost use Rattle.rs_field.specs.words.Tables.{IsSkew};

use super::table_types::Skew;
use super::{GF_MODULUS, GfElement};

/// Sets each entry of `logs` to the logarithm of its index, except for entry 0, which stays. There are at most 65536
/// entries.
pub(crate) fn put_logarithms(logs: &mut [GfElement], skew: Skew<'_>)
    requires table { IsSkew skew.now }
    requires few { length logs.old ≤ 65536 }
    ensures { (z : ℕ) → 0 < z → z < length logs.old → slice_index logs.new z ≡ log z }
{
    for z in 1..logs.len() {
        logs[z] = next_logarithm(logs, z, skew);
    }
}

// Returns the logarithm of the word z, if `logs` has the logarithms of all smaller words. The table has the logarithms
// of the even words. The product of 2i and 2i + 1 is i, so the logarithm of the odd word 2i + 1 is a difference.
fn next_logarithm(logs: &[GfElement], z: usize, skew: Skew<'_>) -> GfElement
    requires table { IsSkew skew.now }
    requires some { 0 < z }
    requires few { z < 65536 }
    requires within { z ≤ length logs.now }
    requires smaller { (y : ℕ) → 0 < y → y < z → slice_index logs.now y ≡ log y }
    ensures { result ≡ log z }
{
    if z == 1 {
        0
    } else if z % 2 == 0 {
        skew[z]
    } else {
        difference(logs[z / 2], skew[z - 1])
    }
}

fn difference(x: GfElement, y: GfElement) -> GfElement
    requires { y ≤ 65535 }
    ensures { result ≡ (x + (65535 - y)) % 65535 }
{
    let sum = u32::from(x) + u32::from(GF_MODULUS - y);
    (sum % u32::from(GF_MODULUS)) as GfElement
}

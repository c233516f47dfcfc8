//! The locator of marked points, at all points or at the first ones.
ghost use Rattle.std.specs.Prelude.{◌≡◌, ℕ, ◌*◌, ◌%◌, ◌^◌, ◌<◌, ◌≤◌, length, slice_index};
ghost use Rattle.rs_field.specs.words.StepBounds.{CountsProducts, LocatorCounts, LocatorCountsBelow};
ghost use Rattle.rs_field.specs.words.Locator.{IsLocator, IsLocatorBelow};
ghost use Rattle.rs_field.specs.words.Tables.{IsLogWalsh, IsLogWalshBelow};

use super::fwht::{fwht, residue};
use super::tables::LogWalsh;
use super::{GfElement, Steps};

// Returns the product modulo 65535. 0 and 65535 both represent zero.
#[inline(always)]
fn counted_product(steps: &mut Steps, x: GfElement, y: GfElement) -> GfElement
    ensures product { result % 65535 ≡ x * y % 65535 }
    ensures counts { CountsProducts 1 steps.old steps.new }
{
    steps.product();
    residue(u32::from(x) * u32::from(y))
}

// Multiplies each entry by the factor at the same index.
fn products(steps: &mut Steps, entries: &mut [GfElement], factors: &[GfElement])
    requires { length entries.old ≡ length factors.now }
    ensures products { (i : ℕ) → i < length entries.old
        → slice_index entries.new i % 65535
        ≡ slice_index entries.old i * slice_index factors.now i % 65535 }
    ensures counts { CountsProducts (length entries.old) steps.old steps.new }
{
    for i in 0..entries.len() {
        entries[i] = counted_product(steps, entries[i], factors[i]);
    }
}

/// Computes the locator of the marked points, at all points at once: entry x becomes, modulo 65535, the sum over all
/// points y other than x of entry y times the logarithm of `x XOR y`.
///
/// There are 65536 entries, and those from `truncated_size` on are 0. `log_walsh` is the table of
/// [`get_log_walsh`](super::tables::get_log_walsh). Only the residue of a new entry is fixed: 0 and 65535 both
/// represent zero. If the old entries are 0 or 1, the new entry is the logarithm of the locator's value at a point
/// whose entry was 0, and of the value of its derivative at a point whose entry was 1.
///
/// The method is that of Lin, Chung and Han in the form of Leopard-RS: two Walsh-Hadamard transforms and the products
/// between them. It counts no row step, and at most 1048576 pair sums and 65536 products.
pub fn eval_poly(
    steps: &mut Steps,
    erasures: &mut [GfElement],
    truncated_size: usize,
    log_walsh: LogWalsh<'_>,
)
    requires size { length erasures.old ≡ 65536 }
    requires zeros { (y : ℕ) → truncated_size ≤ y → y < 65536 → slice_index erasures.old y ≡ 0 }
    requires table { IsLogWalsh log_walsh.now }
    ensures values { IsLocator (λ y. slice_index erasures.old y) (λ x. slice_index erasures.new x) }
    ensures counts { LocatorCounts steps.old steps.new }
{
    locate_marked(steps, erasures, truncated_size, log_walsh);
}

/// Computes the locator of marked points among the first ones, at these points. There are n points, as many as entries:
/// entry x becomes, modulo 65535, the sum over these points y other than x of entry y times the logarithm of `x XOR y`.
///
/// n is a power of two, at most 65536. `log_walsh` is the table of
/// [`get_log_walsh_below`](super::tables::get_log_walsh_below) for n. Only the residue of a new entry is fixed: 0 and
/// 65535 both represent zero. It counts no row step, and at most n * log2 n pair sums and n products.
pub fn locate(steps: &mut Steps, erasures: &mut [GfElement], log_walsh: LogWalsh<'_>)
    requires power { (d : ℕ) × (length erasures.old ≡ 2 ^ d) }
    requires few { length erasures.old ≤ 65536 }
    requires table { IsLogWalshBelow (length erasures.old) log_walsh.now }
    ensures values { IsLocatorBelow (length erasures.old) (λ y. slice_index erasures.old y)
        (λ x. slice_index erasures.new x) }
    ensures counts { LocatorCountsBelow (length erasures.old) steps.old steps.new }
{
    let count = erasures.len();
    locate_marked(steps, erasures, count, log_walsh);
}

// Computes the locator of points, none of which is marked from `truncated_size` on.
fn locate_marked(
    steps: &mut Steps,
    erasures: &mut [GfElement],
    truncated_size: usize,
    log_walsh: LogWalsh<'_>,
)
    requires power { (d : ℕ) × (length erasures.old ≡ 2 ^ d) }
    requires few { length erasures.old ≤ 65536 }
    requires zeros { (y : ℕ) → truncated_size ≤ y → y < length erasures.old
        → slice_index erasures.old y ≡ 0 }
    requires table { IsLogWalshBelow (length erasures.old) log_walsh.now }
    ensures values { IsLocatorBelow (length erasures.old) (λ y. slice_index erasures.old y)
        (λ x. slice_index erasures.new x) }
    ensures counts { LocatorCountsBelow (length erasures.old) steps.old steps.new }
{
    let count = erasures.len();
    fwht(steps, erasures, truncated_size);
    products(steps, erasures, log_walsh);
    fwht(steps, erasures, count);
}

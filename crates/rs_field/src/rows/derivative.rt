//! The derivative of a polynomial whose coefficients in the subspace basis are rows.
ghost use Rattle.std.specs.Prelude.{◌≡◌, ℕ, ◌+◌, ◌^◌, ◌<◌, ◌≤◌};
ghost use Rattle.rs_field.specs.rows.View.{word, Fits, SameExtent, SameRowsOutside};
ghost use Rattle.rs_field.specs.words.Derivative.{IsDerivativeAdded};
ghost use Rattle.rs_field.specs.words.StepBounds.{CountsRows, transform_steps};

use super::ShardsRefMut;
use super::sums::xor_within;
use crate::words::Steps;

/// Adds to a polynomial its derivative, where the rows are its coefficients in the subspace basis.
///
/// For each symbol, the rows become the coefficients of the sum of the polynomial and its derivative. The number of
/// rows is a power of two and at most 65536. Each subspace polynomial has derivative one, so the step is XORs of rows
/// alone, exactly `n / 2 * log2(n)` of them over n rows. The method is that of Lin, Chung and Han in the form of
/// Leopard-RS.
pub fn formal_derivative(steps: &mut Steps, data: &mut ShardsRefMut<'_>)
    requires fits { Fits «data».old }
    requires power { (d : ℕ) × («data».old.shard_count ≡ 2 ^ d) }
    requires words { «data».old.shard_count ≤ 65536 }
    ensures extent { SameExtent «data».old «data».new }
    ensures others { SameRowsOutside 0 «data».old.shard_count «data».old «data».new }
    ensures derivative { (k s : ℕ) → k < «data».old.shard_len_64 → s < 32
        → IsDerivativeAdded «data».old.shard_count (word «data».old k s) (word «data».new k s) }
    ensures counts { CountsRows (transform_steps «data».old.shard_count) steps.old steps.new }
{
    let size = data.len();
    derivative_within(steps, data, 0, size);
}

// Adds the derivative to the `size` rows from `pos` on, depth first. The rows of the second half are added to those of
// the first half before they change: at that time they are still coefficients of the polynomial itself.
fn derivative_within(steps: &mut Steps, data: &mut ShardsRefMut<'_>, pos: usize, size: usize)
    requires fits { Fits «data».old }
    requires power { (d : ℕ) × (size ≡ 2 ^ d) }
    requires words { size ≤ 65536 }
    requires within { pos + size ≤ «data».old.shard_count }
    ensures extent { SameExtent «data».old «data».new }
    ensures others { SameRowsOutside pos (pos + size) «data».old «data».new }
    ensures derivative { (k s : ℕ) → k < «data».old.shard_len_64 → s < 32
        → IsDerivativeAdded size (λ q. word «data».old k s (pos + q))
        (λ q. word «data».new k s (pos + q)) }
    ensures counts { CountsRows (transform_steps size) steps.old steps.new }
{
    if size > 1 {
        let half = size / 2;
        derivative_within(steps, data, pos, half);
        xor_within(steps, data, pos, pos + half, half);
        derivative_within(steps, data, pos + half, half);
    }
}

//! The table of products as words, which is made from the tables of powers and logarithms.
ghost use Rattle.std.specs.Prelude.{◌≡◌, ℕ, ◌*◌, ◌^◌, ◌≤◌, IfOk};
ghost use Rattle.rs_field.specs.words.Field.{product, power};
ghost use Rattle.rs_field.specs.words.Tables.{IsExpLog};
ghost use Rattle.rs_field.specs.words.Products.{IsNibbleList, IsNibbles, IsMul16};

use super::table_types::ExpLog;
use super::{GF_ORDER, GfElement, products};
use std::alloc::{AllocError, Global};

// Returns the sixteen sums of four products. Entry i is the sum of a if bit 0 of i is set, b if bit 1 is set, c if bit
// 2 is set, and d if bit 3 is set.
#[inline(always)]
fn nibble_sums(a: GfElement, b: GfElement, c: GfElement, d: GfElement) -> [GfElement; 16]
    ensures { (n f : ℕ) → a ≡ product (1 * 16 ^ n) f → b ≡ product (2 * 16 ^ n) f
        → c ≡ product (4 * 16 ^ n) f → d ≡ product (8 * 16 ^ n) f → IsNibbleList n f result }
{
    let ab = a ^ b;
    let cd = c ^ d;
    [
        0,
        a,
        b,
        ab,
        c,
        a ^ c,
        b ^ c,
        ab ^ c,
        d,
        a ^ d,
        b ^ d,
        ab ^ d,
        cd,
        a ^ cd,
        b ^ cd,
        ab ^ cd,
    ]
}

// Returns the products of the words 0 to 15, each times `place`. Four products come from the tables, and the others are
// sums of these four.
#[inline(always)]
fn nibble_list(place: GfElement, log_m: GfElement, t: &ExpLog) -> [GfElement; 16]
    requires tables { IsExpLog t.now.exp.items t.now.log.items }
    requires place { place ≤ 4096 }
    ensures { (n : ℕ) → place ≡ 16 ^ n → IsNibbleList n (power log_m) result }
{
    nibble_sums(
        products::mul(place, log_m, &t.exp, &t.log),
        products::mul(2 * place, log_m, &t.exp, &t.log),
        products::mul(4 * place, log_m, &t.exp, &t.log),
        products::mul(8 * place, log_m, &t.exp, &t.log),
    )
}

#[inline(always)]
fn nibbles_of(log_m: GfElement, t: &ExpLog) -> [[GfElement; 16]; 4]
    requires { IsExpLog t.now.exp.items t.now.log.items }
    ensures { IsNibbles (power log_m) result }
{
    [
        nibble_list(1, log_m, t),
        nibble_list(16, log_m, t),
        nibble_list(256, log_m, t),
        nibble_list(4096, log_m, t),
    ]
}

/// Makes the table of products as words from the tables of powers and logarithms. Each entry needs sixteen products;
/// the others are sums.
///
/// # Errors
///
/// [`AllocError`] if the table cannot be allocated.
pub fn mul16_table(alloc: Global, t: &ExpLog) -> Result<Vec<[[GfElement; 16]; 4]>, AllocError>
    requires { IsExpLog t.now.exp.items t.now.log.items }
    ensures { IfOk result (λ v. IsMul16 v.items) }
{
    let mut table = Vec::with_capacity(alloc, GF_ORDER)?;
    for m in 0..GF_ORDER {
        table.push(nibbles_of(m as u16, t))?;
    }
    Ok(table)
}

//! The powers of the generator, and the logarithms.
ghost use Rattle.std.specs.Prelude.{◌≡◌, ◌*◌, ◌<◌, IfOk, length, slice_index, ℕ};
ghost use Rattle.rs_field.specs.words.Field.{product, generator};
ghost use Rattle.rs_field.specs.words.Tables.{IsExpLog};

use super::table_types::ExpLog;
use super::{GF_BITS, GF_MODULUS, GF_ORDER, GfElement};
use std::alloc::{AllocError, Global};

// The products of the generator with the words 1, 2, 4, .., 0x8000.
const GENERATOR_PRODUCTS: [GfElement; GF_BITS] = [
    0x4690, 0xBB9F, 0x678C, 0x7D8C, 0x85D1, 0xF463, 0xB9B1, 0x7212, 0x954C, 0xEEFE, 0x33DA, 0xF92D,
    0x5499, 0xB887, 0x4F3F, 0xFDC5,
];

fn times_generator(z: GfElement) -> GfElement
    ensures { result ≡ product z generator }
{
    let mut out = 0;
    let mut rest = z;
    for entry in &GENERATOR_PRODUCTS {
        if rest % 2 == 1 {
            out ^= *entry;
        }
        rest /= 2;
    }
    out
}

fn low_products() -> [GfElement; 256]
    ensures { (i : ℕ) → i < 256 → slice_index result i ≡ product i generator }
{
    let mut products = [0; 256];
    for i in 0..256 {
        products[i] = times_generator(i as u16);
    }
    products
}

fn high_products() -> [GfElement; 256]
    ensures { (i : ℕ) → i < 256 → slice_index result i ≡ product (256 * i) generator }
{
    let mut products = [0; 256];
    for i in 0..256 {
        products[i] = times_generator(256 * (i as u16));
    }
    products
}

// Returns the product of a word and the generator, as the sum of the products of its two bytes.
#[inline(always)]
fn product_by_bytes(z: GfElement, low: &[GfElement; 256], high: &[GfElement; 256]) -> GfElement
    requires low { (i : ℕ) → i < 256 → slice_index low.now i ≡ product i generator }
    requires high { (i : ℕ) → i < 256 → slice_index high.now i ≡ product (256 * i) generator }
    ensures { result ≡ product z generator }
{
    low[(z & 255) as usize] ^ high[(z >> 8) as usize]
}

// Makes a table of n entries that all have one value.
fn filled(alloc: Global, value: GfElement, n: usize) -> Result<Vec<GfElement>, AllocError>
    ensures size { IfOk result (λ v. length v.items ≡ n) }
    ensures entries { IfOk result (λ v. (k : ℕ) → k < n → slice_index v.items k ≡ value) }
{
    Ok(vec![in alloc; value; n]?)
}

/// Makes the tables of powers and logarithms, in one loop over the powers of the generator.
///
/// # Errors
///
/// [`AllocError`] if one of the tables cannot be allocated.
pub fn exp_log_table(alloc: Global) -> Result<ExpLog, AllocError>
    ensures { IfOk result (λ t. IsExpLog t.exp.items t.log.items) }
{
    let low = low_products();
    let high = high_products();
    let mut exp = filled(alloc, 0, GF_ORDER)?;
    let mut log = filled(alloc, GF_MODULUS, GF_ORDER)?;
    let mut z = 1;
    for n in 0..GF_MODULUS {
        exp[n as usize] = z;
        log[z as usize] = n;
        z = product_by_bytes(z, &low, &high);
    }
    exp[GF_MODULUS as usize] = 1;
    Ok(ExpLog { exp, log })
}

//! The table of products as bytes, which is made from the table of products as words.
ghost use Rattle.std.specs.Prelude.{◌≡◌, ℕ, ◌+◌, ◌*◌, ◌/◌, ◌%◌, ◌^◌, ◌<◌, IfOk, bit_xor};
ghost use Rattle.rs_field.specs.words.Field.{product};
ghost use Rattle.rs_field.specs.words.Products.{byte_at, IsNibbleList, IsNibbles, IsNibbleBytes, IsMul16, IsMul128};

use super::table_types::{Mul16, Multiply128lutT};
use super::{GF_ORDER, GfElement};
use std::alloc::{AllocError, Global};

#[inline(always)]
fn joined(low: u64, high: u64) -> u128
    ensures { result ≡ low + 2 ^ 64 * high }
{
    u128::from(low) | (u128::from(high) << 64)
}

// Returns the number whose byte i is the XOR of a if bit 0 of i is set, b if bit 1 is set, c if bit 2 is set, and d if
// bit 3 is set. Each constant has a one in every byte whose index has the bit, so that one multiplication fills eight
// bytes.
#[inline(always)]
fn spread(a: u8, b: u8, c: u8, d: u8) -> u128
    ensures { (i : ℕ) → i < 16
        → byte_at result i
        ≡ bit_xor
        (bit_xor (bit_xor (i / 2 ^ 0 % 2 * a) (i / 2 ^ 1 % 2 * b)) (i / 2 ^ 2 % 2 * c))
        (i / 2 ^ 3 % 2 * d) }
{
    let first = 0x0100_0100_0100_0100 * u64::from(a);
    let second = 0x0101_0000_0101_0000 * u64::from(b);
    let third = 0x0101_0101_0000_0000 * u64::from(c);
    let fourth = 0x0101_0101_0101_0101 * u64::from(d);
    let low = first ^ second ^ third;
    joined(low, low ^ fourth)
}

// Returns the number that consists of the low bytes of the sixteen products of a list. It needs only four of the
// products, because the others are sums of these four.
#[inline(always)]
fn low_bytes(words: &[GfElement; 16]) -> u128
    ensures { (n f i : ℕ) → IsNibbleList n f words.now → i < 16
        → byte_at result i ≡ product (i * 16 ^ n) f % 256 }
{
    spread(
        (words[1] & 255) as u8,
        (words[2] & 255) as u8,
        (words[4] & 255) as u8,
        (words[8] & 255) as u8,
    )
}

// Returns the number that consists of the high bytes of the sixteen products of a list. It needs only four of the
// products, because the others are sums of these four.
#[inline(always)]
fn high_bytes(words: &[GfElement; 16]) -> u128
    ensures { (n f i : ℕ) → IsNibbleList n f words.now → i < 16
        → byte_at result i ≡ product (i * 16 ^ n) f / 256 }
{
    spread(
        (words[1] >> 8) as u8,
        (words[2] >> 8) as u8,
        (words[4] >> 8) as u8,
        (words[8] >> 8) as u8,
    )
}

#[inline(always)]
fn bytes_of(lists: &[[GfElement; 16]; 4]) -> Multiply128lutT
    ensures { (f : ℕ) → IsNibbles f lists.now → IsNibbleBytes f result }
{
    Multiply128lutT {
        lo: [
            low_bytes(&lists[0]),
            low_bytes(&lists[1]),
            low_bytes(&lists[2]),
            low_bytes(&lists[3]),
        ],
        hi: [
            high_bytes(&lists[0]),
            high_bytes(&lists[1]),
            high_bytes(&lists[2]),
            high_bytes(&lists[3]),
        ],
    }
}

/// Makes the table of products as bytes from the table of products as words.
///
/// # Errors
///
/// [`AllocError`] if the table cannot be allocated.
pub fn mul128_table(alloc: Global, mul16: Mul16<'_>) -> Result<Vec<Multiply128lutT>, AllocError>
    requires { IsMul16 mul16.now }
    ensures { IfOk result (λ v. IsMul128 v.items) }
{
    let mut table = Vec::with_capacity(alloc, GF_ORDER)?;
    for m in 0..GF_ORDER {
        table.push(bytes_of(&mul16[m]))?;
    }
    Ok(table)
}

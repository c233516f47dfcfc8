//! The tables of an engine, in memory of the caller.
ghost use Rattle.std.specs.Prelude.{◌≡◌, ℕ, ◌+◌, ◌*◌, ◌/◌, ◌%◌, ◌^◌, ◌<◌, length, OnOk, OnErr};
ghost use Rattle.rs_field.specs.words.Products.{IsNibbleBytes, IsMul128};
ghost use Rattle.rs_ffi.specs.Tables.{products_of, AreProducts, AreTables};

use rs_field::engine::tables::{Mul128, Multiply128lutT, Tables, get_mul128};
use rs_field::engine::{GF_ORDER, GfElement};
use rs_field::error::Error;
use std::alloc::Global;

/// The stamp of filled tables: the letters R and S, and the number of the layout of [`RsTables`]. The number changes if
/// the layout changes.
pub const STAMP: u32 = 0x5253_0001;

// Tables that consist of zeros do not have the stamp.
const _: () = prove!(STAMP != 0);

/// The number of words of 64 bits that the tables take. This is `RS_TABLE_WORDS` of the header, and `c/build` compares
/// the two numbers.
const TABLE_WORDS: usize = 1097728;

const _: () = prove!(size_of::<RsTables>() == 8 * TABLE_WORDS);

/// All tables that the engine reads, as plain arrays. The caller allocates them, `rs_tables_make` fills them, and all
/// other calls borrow them.
#[repr(C)]
#[derive(Clone, Copy)]
pub struct RsTables {
    /// Entry m holds the products with the generator to the power m, as bytes: the lower and the upper half of each
    /// number of a `Multiply128lutT`.
    pub products: [[u64; 16]; 65536],
    /// The factors of the butterflies.
    pub skew: [GfElement; 65535],
    /// The transforms of the logarithms of the words below each power of two, one after the other. Locators are
    /// computed from them.
    pub log_walsh: [GfElement; 131071],
    /// [`STAMP`] if the tables are filled. `rs_tables_make` writes it last.
    pub stamp: u32,
}

#[inline(always)]
fn low(number: u128) -> u64
    ensures { result ≡ number % 2 ^ 64 }
{
    (number & 0xFFFF_FFFF_FFFF_FFFF) as u64
}

#[inline(always)]
fn high(number: u128) -> u64
    ensures { result ≡ number / 2 ^ 64 }
{
    (number >> 64) as u64
}

// Returns the eight numbers of the products with one factor as halves, the lower half of each number first.
fn halves(products: &Multiply128lutT) -> [u64; 16]
    ensures { (f : ℕ) → IsNibbleBytes f products.now → IsNibbleBytes f (products_of result) }
{
    let [l0, l1, l2, l3] = products.lo;
    let [h0, h1, h2, h3] = products.hi;
    [
        low(l0),
        high(l0),
        low(l1),
        high(l1),
        low(l2),
        high(l2),
        low(l3),
        high(l3),
        low(h0),
        high(h0),
        low(h1),
        high(h1),
        low(h2),
        high(h2),
        low(h3),
        high(h3),
    ]
}

#[inline(always)]
fn joined(low: u64, high: u64) -> u128
    ensures { result ≡ low + 2 ^ 64 * high }
{
    u128::from(low) | (u128::from(high) << 64)
}

/// Returns the products with one factor, made of the halves of their numbers.
#[inline(always)]
pub fn whole(halves: &[u64; 16]) -> Multiply128lutT
    ensures { result ≡ products_of halves.now }
{
    Multiply128lutT {
        lo: [
            joined(halves[0], halves[1]),
            joined(halves[2], halves[3]),
            joined(halves[4], halves[5]),
            joined(halves[6], halves[7]),
        ],
        hi: [
            joined(halves[8], halves[9]),
            joined(halves[10], halves[11]),
            joined(halves[12], halves[13]),
            joined(halves[14], halves[15]),
        ],
    }
}

// Fills the table of products.
fn fill_products(table: &mut [[u64; 16]], mul128: Mul128<'_>)
    requires size { length table.old ≡ 65536 }
    requires products { IsMul128 mul128.now }
    ensures { AreProducts table.new }
{
    for m in 0..GF_ORDER {
        table[m] = halves(&mul128[m]);
    }
}

/// Fills the tables.
///
/// # Errors
///
/// [`Error::OutOfMemory`] if memory cannot be allocated. The tables are then unchanged.
pub fn fill(alloc: Global, tables: &mut RsTables) -> Result<(), Error>
    ensures made { OnOk result (AreTables tables.new) }
    ensures err { OnErr result ((result ≡ Err Error.OutOfMemory) × (tables.new ≡ tables.old)) }
{
    let made = Tables::new(alloc)?;
    let lent = made.lent();
    fill_products(&mut tables.products, get_mul128(&made));
    tables.skew.copy_from_slice(lent.skew);
    tables.log_walsh.copy_from_slice(lent.log_walsh);
    tables.stamp = STAMP;
    Ok(())
}

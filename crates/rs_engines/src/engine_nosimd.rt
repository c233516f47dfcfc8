//! The engine that looks up products by nibbles: four look-ups for each word, one word at a time.
//!
//! The table of a factor holds its products with the sixteen values of each nibble, as in Leopard-RS. The product of a
//! word is the sum of the products of its four nibbles.
ghost use Rattle.std.specs.Prelude.{◌≡◌, ℕ, ◌+◌, ◌*◌, ◌<◌, length, bit_xor};
ghost use Rattle.rs_field.specs.words.Field.{product};
ghost use Rattle.rs_field.specs.rows.Rows.{chunk, symbol};
ghost use Rattle.rs_field.specs.words.Products.{IsNibbles};

use rs_field::engine::kernel::Kernel;
use rs_field::engine::lent_tables::LentTables;
use rs_field::engine::symbols::{add_symbol, set_symbol};
use rs_field::engine::tables::{Tables, get_mul16};
use rs_field::engine::{GF_MODULUS, GfElement, utils};

/// The engine without vectors: it looks up products by nibbles. It borrows the tables and allocates nothing.
#[derive(Clone, Copy)]
pub struct NoSimd<'t> {
    tables: &'t Tables,
}

impl<'t> NoSimd<'t> {
    /// Makes the engine without vectors over these tables.
    ///
    /// # Examples
    ///
    /// The product of 4 and 2 is 11:
    ///
    /// ```
    /// let engine = NoSimd::new(&tables);
    /// let log_2 = get_exp_log(&tables).log[2];
    /// let mut row = [[0; 64]];
    /// row[0][0] = 4;
    /// engine.mul(&mut Steps::new(), &mut row, log_2);
    /// assert_eq!(rt; row[0][0], 11);
    /// ```
    pub fn new(tables: &'t Tables) -> NoSimd<'t>
        ensures { result.tables.now ≡ tables.now }
    {
        NoSimd { tables }
    }
}

#[inline(always)]
fn nibble_product(lists: &[[GfElement; 16]; 4], low: u8, high: u8) -> GfElement
    ensures { (f : ℕ) → IsNibbles f lists.now → result ≡ product (low + 256 * high) f }
{
    lists[0][(low & 15) as usize]
        ^ lists[1][(low >> 4) as usize]
        ^ lists[2][(high & 15) as usize]
        ^ lists[3][(high >> 4) as usize]
}

// Multiplies each symbol of a chunk by a factor, two symbols at a time.
#[inline(always)]
fn mul_chunk(c: &mut [u8; 64], lists: &[[GfElement; 16]; 4])
    ensures { (f s : ℕ) → IsNibbles f lists.now → s < 32
        → symbol c.new s ≡ product (symbol c.old s) f }
{
    for i in 0..16 {
        let s = 2 * i;
        let even = nibble_product(lists, c[s], c[s + 32]);
        let odd = nibble_product(lists, c[s + 1], c[s + 33]);
        set_symbol(c, s, even);
        set_symbol(c, s + 1, odd);
    }
}

// Adds to each symbol of x the product of the same symbol of y with a factor, two symbols at a time.
#[inline(always)]
fn mul_add_chunk(x: &mut [u8; 64], y: &[u8; 64], lists: &[[GfElement; 16]; 4])
    ensures { (f s : ℕ) → IsNibbles f lists.now → s < 32
        → symbol x.new s ≡ bit_xor (symbol x.old s) (product (symbol y.now s) f) }
{
    for i in 0..16 {
        let s = 2 * i;
        let even = nibble_product(lists, y[s], y[s + 32]);
        let odd = nibble_product(lists, y[s + 1], y[s + 33]);
        add_symbol(x, s, even);
        add_symbol(x, s + 1, odd);
    }
}

// Multiplies each symbol of each chunk by a factor.
fn mul_chunks(x: &mut [[u8; 64]], lists: &[[GfElement; 16]; 4])
    ensures { (f k s : ℕ) → IsNibbles f lists.now → k < length x.old → s < 32
        → symbol (chunk x.new k) s ≡ product (symbol (chunk x.old k) s) f }
{
    for k in 0..x.len() {
        mul_chunk(&mut x[k], lists);
    }
}

// Adds to each symbol of x the product of the same symbol of y with a factor.
fn mul_add_chunks(x: &mut [[u8; 64]], y: &[[u8; 64]], lists: &[[GfElement; 16]; 4])
    requires { length x.old ≡ length y.now }
    ensures { (f k s : ℕ) → IsNibbles f lists.now → k < length x.old → s < 32
        → symbol (chunk x.new k) s
        ≡ bit_xor (symbol (chunk x.old k) s) (product (symbol (chunk y.now k) s) f) }
{
    for k in 0..x.len() {
        mul_add_chunk(&mut x[k], &y[k], lists);
    }
}

impl Kernel for NoSimd<'_> {
    fn tables(&self) -> LentTables<'_> {
        self.tables.lent()
    }

    fn fft_butterfly(&self, x: &mut [[u8; 64]], y: &mut [[u8; 64]], log_m: GfElement) {
        self.mul_add_row(x, y, log_m);
        utils::xor(y, x);
    }

    fn ifft_butterfly(&self, x: &mut [[u8; 64]], y: &mut [[u8; 64]], log_m: GfElement) {
        utils::xor(y, x);
        self.mul_add_row(x, y, log_m);
    }

    fn mul_row(&self, x: &mut [[u8; 64]], log_m: GfElement) {
        mul_chunks(x, &get_mul16(self.tables)[log_m as usize]);
    }

    fn mul_add_row(&self, x: &mut [[u8; 64]], y: &[[u8; 64]], log_m: GfElement) {
        if log_m != GF_MODULUS {
            mul_add_chunks(x, y, &get_mul16(self.tables)[log_m as usize]);
        }
    }
}

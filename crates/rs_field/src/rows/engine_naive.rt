//! The plain engine: each product by the tables of powers and logarithms, symbol by symbol.
ghost use Rattle.std.specs.Prelude.{◌≡◌, ℕ, ◌<◌, length, bit_xor};
ghost use Rattle.rs_field.specs.words.Field.{product, power};
ghost use Rattle.rs_field.specs.words.Tables.{IsExpLog};
ghost use Rattle.rs_field.specs.rows.Rows.{chunk, symbol};

use super::kernel::Kernel;
use super::sums;
use super::symbols::{add_symbol, set_symbol, symbol_at};
use crate::words::lent_tables::LentTables;
use crate::words::tables::{self, Exp, Log, Tables, get_exp_log};
use crate::words::{GF_MODULUS, GfElement};

/// The plain engine, which computes each product with logarithms. It borrows the tables and allocates nothing.
#[derive(Clone, Copy)]
pub struct Naive<'t> {
    tables: &'t Tables,
}

impl<'t> Naive<'t> {
    /// Makes the plain engine over these tables.
    pub fn new(tables: &'t Tables) -> Naive<'t>
        ensures { result.tables.now ≡ tables.now }
    {
        Naive { tables }
    }
}

// Adds to each symbol of x the product of the same symbol of y with the factor.
fn mul_add_chunk(x: &mut [u8; 64], y: &[u8; 64], log_m: GfElement, exp: Exp<'_>, log: Log<'_>)
    requires { IsExpLog exp.now log.now }
    ensures { (s : ℕ) → s < 32
        → symbol x.new s ≡ bit_xor (symbol x.old s) (product (symbol y.now s) (power log_m)) }
{
    for s in 0..32 {
        let product = tables::mul(symbol_at(y, s), log_m, exp, log);
        add_symbol(x, s, product);
    }
}

// Multiplies each symbol of x by the factor.
fn mul_chunk(x: &mut [u8; 64], log_m: GfElement, exp: Exp<'_>, log: Log<'_>)
    requires { IsExpLog exp.now log.now }
    ensures { (s : ℕ) → s < 32 → symbol x.new s ≡ product (symbol x.old s) (power log_m) }
{
    for s in 0..32 {
        let product = tables::mul(symbol_at(x, s), log_m, exp, log);
        set_symbol(x, s, product);
    }
}

// Adds the product of each symbol of ys to that of xs.
fn mul_add(xs: &mut [[u8; 64]], ys: &[[u8; 64]], log_m: GfElement, exp: Exp<'_>, log: Log<'_>)
    requires tables { IsExpLog exp.now log.now }
    requires sizes { length xs.old ≡ length ys.now }
    ensures { (k s : ℕ) → k < length xs.old → s < 32
        → symbol (chunk xs.new k) s
        ≡ bit_xor (symbol (chunk xs.old k) s) (product (symbol (chunk ys.now k) s) (power log_m)) }
{
    for k in 0..xs.len() {
        mul_add_chunk(&mut xs[k], &ys[k], log_m, exp, log);
    }
}

impl Kernel for Naive<'_> {
    fn tables(&self) -> LentTables<'_> {
        self.tables.lent()
    }

    fn fft_butterfly(&self, x: &mut [[u8; 64]], y: &mut [[u8; 64]], log_m: GfElement) {
        self.mul_add_row(x, y, log_m);
        sums::xor(y, x);
    }

    fn ifft_butterfly(&self, x: &mut [[u8; 64]], y: &mut [[u8; 64]], log_m: GfElement) {
        sums::xor(y, x);
        self.mul_add_row(x, y, log_m);
    }

    fn mul_row(&self, x: &mut [[u8; 64]], log_m: GfElement) {
        let t = get_exp_log(self.tables);
        for k in 0..x.len() {
            mul_chunk(&mut x[k], log_m, &t.exp, &t.log);
        }
    }

    fn mul_add_row(&self, x: &mut [[u8; 64]], y: &[[u8; 64]], log_m: GfElement) {
        if log_m != GF_MODULUS {
            let t = get_exp_log(self.tables);
            mul_add(x, y, log_m, &t.exp, &t.log);
        }
    }
}

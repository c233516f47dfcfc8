//! Products, butterflies and two layers of butterflies of rows by shuffles, chunk by chunk.
ghost use Rattle.std.specs.Prelude.{◌≡◌, ℕ, ◌+◌, ◌*◌, ◌<◌, length, bit_xor};
ghost use Rattle.rs_field.specs.rows.Rows.{chunk, symbol};
ghost use Rattle.rs_field.specs.words.Tables.{times_factor};
ghost use Rattle.rs_field.specs.words.Field.{product};
ghost use Rattle.rs_field.specs.words.Products.{IsNibbleBytes};
ghost use Rattle.rs_field.specs.rows.Pairs.{at_two_added, at_two_symbols};
ghost use Rattle.rs_field.specs.rows.TwoLayers.{at_four_added, at_four_symbols};
ghost use Rattle.rs_field.specs.rows.Written.{held};
ghost use Rattle.rs_engines.specs.Factors.{log_of};

use crate::any_factor::AnyFactor;
use crate::butterflies::Butterflies;
use crate::byte_vector::ByteVector;
use crate::factors::{Factor, General, Small, ThreeFactors};
use crate::shuffle_chunks::{
    FourChunks, add_chunk, add_two_chunks, four_chunks, four_chunks_written, mul_chunk, two_chunks,
    two_chunks_written,
};
use crate::word_lanes::WriteWords;
use rs_field::engine::kernel::FourRows;
use rs_field::engine::tables::Multiply128lutT;

/// Multiplies each symbol of a row by a factor.
pub fn mul_chunks<V: ByteVector>(x: &mut [[u8; 64]], factor: &Multiply128lutT)
    ensures { (f k s : ℕ) → IsNibbleBytes f factor.now → k < length x.old → s < 32
        → symbol (chunk x.new k) s ≡ product (symbol (chunk x.old k) s) f }
{
    for k in 0..x.len() {
        mul_chunk::<V>(&mut x[k], factor);
    }
}

// Adds to each symbol of a row the product of the same symbol of another row with a factor of class F.
#[inline(always)]
fn add_chunks<V: ByteVector, F: Factor>(x: &mut [[u8; 64]], y: &[[u8; 64]], factor: F)
    requires { length x.old ≡ length y.now }
    ensures { (k s : ℕ) → k < length x.old → s < 32
        → symbol (chunk x.new k) s
        ≡ bit_xor (symbol (chunk x.old k) s)
        (times_factor (F.log factor) (symbol (chunk y.now k) s)) }
{
    for k in 0..x.len() {
        add_chunk::<V, F>(&mut x[k], &y[k], factor);
    }
}

/// Adds to each symbol of a row the products of the same symbol of two other rows, each with a factor of class F.
#[inline(always)]
pub fn add_chunk_pairs<V: ByteVector, F: Factor>(
    x: &mut [[u8; 64]],
    y0: &[[u8; 64]],
    y1: &[[u8; 64]],
    f0: F,
    f1: F,
)
    requires first { length x.old ≡ length y0.now }
    requires second { length x.old ≡ length y1.now }
    ensures { (k s : ℕ) → k < length x.old → s < 32
        → symbol (chunk x.new k) s
        ≡ bit_xor (bit_xor (symbol (chunk x.old k) s)
        (times_factor (F.log f0) (symbol (chunk y0.now k) s)))
        (times_factor (F.log f1) (symbol (chunk y1.now k) s)) }
{
    for k in 0..x.len() {
        add_two_chunks::<V, F>(&mut x[k], &y0[k], &y1[k], f0, f1);
    }
}

// Computes a butterfly on two rows, with a factor of class F.
#[inline(always)]
fn two_rows<V: ByteVector, D: Butterflies, F: Factor>(
    x0: &mut [[u8; 64]],
    x1: &mut [[u8; 64]],
    factor: F,
)
    requires { length x0.old ≡ length x1.old }
    ensures { (k s : ℕ) → k < length x0.old → s < 32
        → at_two_symbols s (D.two (F.log factor)) (chunk x0.old k) (chunk x1.old k)
        (chunk x0.new k) (chunk x1.new k) }
{
    for k in 0..x0.len() {
        two_chunks::<V, D, F>(&mut x0[k], &mut x1[k], factor);
    }
}

// Computes two layers of butterflies on four rows, with factors of the classes F02, F01 and F23.
fn four_rows<V: ByteVector, D: Butterflies, F02: Factor, F01: Factor, F23: Factor>(
    x0: &mut [[u8; 64]],
    x1: &mut [[u8; 64]],
    x2: &mut [[u8; 64]],
    x3: &mut [[u8; 64]],
    factors: ThreeFactors<F02, F01, F23>,
)
    requires one { length x0.old ≡ length x1.old }
    requires two { length x0.old ≡ length x2.old }
    requires three { length x0.old ≡ length x3.old }
    ensures { (k s : ℕ) → k < length x0.old → s < 32
        → at_four_symbols s
        (D.four (F02.log factors.f02) (F01.log factors.f01) (F23.log factors.f23))
        (chunk x0.old k) (chunk x1.old k) (chunk x2.old k) (chunk x3.old k)
        (chunk x0.new k) (chunk x1.new k) (chunk x2.new k) (chunk x3.new k) }
{
    for k in 0..x0.len() {
        four_chunks::<V, D, F02, F01, F23>(&mut x0[k], &mut x1[k], &mut x2[k], &mut x3[k], factors);
    }
}

// Writes to two rows what a butterfly, with a factor of class F, makes of two other rows.
#[inline(always)]
fn two_rows_written<V: ByteVector, D: Butterflies, W: WriteWords, F: Factor>(
    x0: &mut [[u8; 64]],
    x1: &mut [[u8; 64]],
    y0: &[[u8; 64]],
    y1: &[[u8; 64]],
    factor: F,
)
    requires one { length x0.old ≡ length x1.old }
    requires two { length x0.old ≡ length y0.now }
    requires three { length x0.old ≡ length y1.now }
    ensures { (k s : ℕ) → k < length x0.old → s < 32
        → at_two_added s (D.two (F.log factor)) (held W.writing)
        (chunk y0.now k) (chunk y1.now k)
        (chunk x0.old k) (chunk x1.old k) (chunk x0.new k) (chunk x1.new k) }
{
    for k in 0..x0.len() {
        two_chunks_written::<V, D, W, F>(&mut x0[k], &mut x1[k], &y0[k], &y1[k], factor);
    }
}

// Writes to four rows what two layers of butterflies, with factors of the classes F02, F01 and F23, make of four other
// rows.
fn four_rows_written<
    V: ByteVector,
    D: Butterflies,
    W: WriteWords,
    F02: Factor,
    F01: Factor,
    F23: Factor,
>(
    x0: &mut [[u8; 64]],
    x1: &mut [[u8; 64]],
    x2: &mut [[u8; 64]],
    x3: &mut [[u8; 64]],
    y: FourRows<'_>,
    factors: ThreeFactors<F02, F01, F23>,
)
    requires one { length x0.old ≡ length x1.old }
    requires two { length x0.old ≡ length x2.old }
    requires three { length x0.old ≡ length x3.old }
    requires first { length x0.old ≡ length y.row_0.now }
    requires second { length x0.old ≡ length y.row_1.now }
    requires third { length x0.old ≡ length y.row_2.now }
    requires fourth { length x0.old ≡ length y.row_3.now }
    ensures { (k s : ℕ) → k < length x0.old → s < 32
        → at_four_added s
        (D.four (F02.log factors.f02) (F01.log factors.f01) (F23.log factors.f23)) (held W.writing)
        (chunk y.entry.row_0.now k) (chunk y.entry.row_1.now k) (chunk y.entry.row_2.now k)
        (chunk y.entry.row_3.now k)
        (chunk x0.old k) (chunk x1.old k) (chunk x2.old k) (chunk x3.old k)
        (chunk x0.new k) (chunk x1.new k) (chunk x2.new k) (chunk x3.new k) }
{
    for k in 0..x0.len() {
        let y = FourChunks {
            chunk_0: &y.row_0[k],
            chunk_1: &y.row_1[k],
            chunk_2: &y.row_2[k],
            chunk_3: &y.row_3[k],
        };
        four_chunks_written::<V, D, W, F02, F01, F23>(
            &mut x0[k], &mut x1[k], &mut x2[k], &mut x3[k], y, factors,
        );
    }
}

// Returns a copy of the products of a factor. No chunk shares memory with the copy, so a loop over chunks can keep the
// products in registers.
#[inline(always)]
pub(crate) fn copied(products: &Multiply128lutT) -> Multiply128lutT
    ensures { result ≡ products.now }
{
    Multiply128lutT {
        lo: products.lo,
        hi: products.hi,
    }
}

/// Adds to each symbol of a row the product of the same symbol of another row with a factor. There is a loop over
/// chunks for each class of factors.
#[inline(always)]
pub fn add_row<V: ByteVector>(x: &mut [[u8; 64]], y: &[[u8; 64]], factor: AnyFactor<'_>)
    requires { length x.old ≡ length y.now }
    ensures { (k s : ℕ) → k < length x.old → s < 32
        → symbol (chunk x.new k) s
        ≡ bit_xor (symbol (chunk x.old k) s)
        (times_factor (log_of factor.entry) (symbol (chunk y.now k) s)) }
{
    match factor {
        AnyFactor::Zero(factor) => add_chunks::<V, _>(x, y, factor),
        AnyFactor::Small(Small { log_m, products }) => {
            let products = &copied(products);
            add_chunks::<V, _>(x, y, Small { log_m, products })
        }
        AnyFactor::General(General { log_m, products }) => {
            let products = &copied(products);
            add_chunks::<V, _>(x, y, General { log_m, products })
        }
    }
}

/// Computes a butterfly on two rows. There is a loop over chunks for each class of factors.
#[inline(always)]
pub fn one_layer<V: ByteVector, D: Butterflies>(
    x0: &mut [[u8; 64]],
    x1: &mut [[u8; 64]],
    factor: AnyFactor<'_>,
)
    requires { length x0.old ≡ length x1.old }
    ensures { (k s : ℕ) → k < length x0.old → s < 32
        → at_two_symbols s (D.two (log_of factor.entry)) (chunk x0.old k) (chunk x1.old k)
        (chunk x0.new k) (chunk x1.new k) }
{
    match factor {
        AnyFactor::Zero(factor) => two_rows::<V, D, _>(x0, x1, factor),
        AnyFactor::Small(Small { log_m, products }) => {
            let products = &copied(products);
            two_rows::<V, D, _>(x0, x1, Small { log_m, products })
        }
        AnyFactor::General(General { log_m, products }) => {
            let products = &copied(products);
            two_rows::<V, D, _>(x0, x1, General { log_m, products })
        }
    }
}

/// Computes two layers of butterflies on four rows. For the classes of factors that occur in transforms, there is a
/// loop over chunks for each combination of classes. For all other combinations, the code finds the class of a factor
/// again for each product.
#[inline(always)]
pub fn two_layers<V: ByteVector, D: Butterflies>(
    x0: &mut [[u8; 64]],
    x1: &mut [[u8; 64]],
    x2: &mut [[u8; 64]],
    x3: &mut [[u8; 64]],
    factors: ThreeFactors<AnyFactor<'_>, AnyFactor<'_>, AnyFactor<'_>>,
)
    requires one { length x0.old ≡ length x1.old }
    requires two { length x0.old ≡ length x2.old }
    requires three { length x0.old ≡ length x3.old }
    ensures { (k s : ℕ) → k < length x0.old → s < 32
        → at_four_symbols s
        (D.four (log_of factors.entry.f02) (log_of factors.entry.f01) (log_of factors.entry.f23))
        (chunk x0.old k) (chunk x1.old k) (chunk x2.old k) (chunk x3.old k)
        (chunk x0.new k) (chunk x1.new k) (chunk x2.new k) (chunk x3.new k) }
{
    match (factors.f02, factors.f01, factors.f23) {
        (AnyFactor::Zero(f02), AnyFactor::Zero(f01), AnyFactor::Small(f23)) => {
            let factors = ThreeFactors { f02, f01, f23 };
            four_rows::<V, D, _, _, _>(x0, x1, x2, x3, factors)
        }
        (AnyFactor::Small(f02), AnyFactor::Small(f01), AnyFactor::Small(f23)) => {
            let factors = ThreeFactors { f02, f01, f23 };
            four_rows::<V, D, _, _, _>(x0, x1, x2, x3, factors)
        }
        (AnyFactor::Small(f02), AnyFactor::General(f01), AnyFactor::General(f23)) => {
            let factors = ThreeFactors { f02, f01, f23 };
            four_rows::<V, D, _, _, _>(x0, x1, x2, x3, factors)
        }
        (AnyFactor::General(f02), AnyFactor::General(f01), AnyFactor::General(f23)) => {
            let factors = ThreeFactors { f02, f01, f23 };
            four_rows::<V, D, _, _, _>(x0, x1, x2, x3, factors)
        }
        _ => four_rows::<V, D, _, _, _>(x0, x1, x2, x3, factors),
    }
}

/// Writes what a butterfly makes of two rows to the two rows that lie end to end in `x`. There is a loop over chunks
/// for each class of factors.
#[inline(always)]
pub fn one_layer_written<V: ByteVector, D: Butterflies, W: WriteWords>(
    x: &mut [[u8; 64]],
    y0: &[[u8; 64]],
    y1: &[[u8; 64]],
    factor: AnyFactor<'_>,
)
    requires room { length x.old ≡ 2 * length y0.now }
    requires same { length y1.now ≡ length y0.now }
    ensures length { length x.new ≡ length x.old }
    ensures written { let n = length y0.now in (k s : ℕ) → k < n → s < 32
        → at_two_added s (D.two (log_of factor.entry)) (held W.writing)
        (chunk y0.now k) (chunk y1.now k)
        (chunk x.old k) (chunk x.old (n + k)) (chunk x.new k) (chunk x.new (n + k)) }
{
    let (x0, x1) = x.split_at_mut(y0.len());
    match factor {
        AnyFactor::Zero(factor) => two_rows_written::<V, D, W, _>(x0, x1, y0, y1, factor),
        AnyFactor::Small(Small { log_m, products }) => {
            let products = &copied(products);
            two_rows_written::<V, D, W, _>(x0, x1, y0, y1, Small { log_m, products })
        }
        AnyFactor::General(General { log_m, products }) => {
            let products = &copied(products);
            two_rows_written::<V, D, W, _>(x0, x1, y0, y1, General { log_m, products })
        }
    }
}

/// Writes what two layers of butterflies make of four rows to the four rows that lie end to end in `x`. There is a loop
/// over chunks for three small factors. For all other combinations, the code finds the class of a factor again for each
/// product.
#[inline(always)]
pub fn two_layers_written<V: ByteVector, D: Butterflies, W: WriteWords>(
    x: &mut [[u8; 64]],
    y: FourRows<'_>,
    factors: ThreeFactors<AnyFactor<'_>, AnyFactor<'_>, AnyFactor<'_>>,
)
    requires room { length x.old ≡ 4 * length y.row_0.now }
    requires one { length y.row_1.now ≡ length y.row_0.now }
    requires two { length y.row_2.now ≡ length y.row_0.now }
    requires three { length y.row_3.now ≡ length y.row_0.now }
    ensures length { length x.new ≡ length x.old }
    ensures written { let n = length y.entry.row_0.now in (k s : ℕ) → k < n → s < 32
        → at_four_added s
        (D.four (log_of factors.entry.f02) (log_of factors.entry.f01) (log_of factors.entry.f23))
        (held W.writing) (chunk y.entry.row_0.now k) (chunk y.entry.row_1.now k)
        (chunk y.entry.row_2.now k) (chunk y.entry.row_3.now k)
        (chunk x.old k) (chunk x.old (n + k)) (chunk x.old (2 * n + k)) (chunk x.old (3 * n + k))
        (chunk x.new k) (chunk x.new (n + k)) (chunk x.new (2 * n + k)) (chunk x.new (3 * n + k)) }
{
    let n = y.row_0.len();
    let (front, back) = x.split_at_mut(2 * n);
    let (x0, x1) = front.split_at_mut(n);
    let (x2, x3) = back.split_at_mut(n);
    match (factors.f02, factors.f01, factors.f23) {
        (AnyFactor::Small(f02), AnyFactor::Small(f01), AnyFactor::Small(f23)) => {
            let factors = ThreeFactors { f02, f01, f23 };
            four_rows_written::<V, D, W, _, _, _>(x0, x1, x2, x3, y, factors)
        }
        _ => four_rows_written::<V, D, W, _, _, _>(x0, x1, x2, x3, y, factors),
    }
}

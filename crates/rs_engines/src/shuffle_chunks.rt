//! Products, butterflies and two layers of butterflies of chunks by shuffles. The vectors hold the 32 symbols of a
//! chunk at once, or first one half of the symbols and then the other half.
ghost use Rattle.std.specs.Prelude.{◌≡◌, ℕ, ◌+◌, ◌<◌, ◌≤◌, ◌⊎◌, bit_xor};
ghost use Rattle.rs_field.specs.words.Tables.{times_factor};
ghost use Rattle.rs_field.specs.words.Field.{product};
ghost use Rattle.rs_field.specs.rows.Rows.{symbol};
ghost use Rattle.rs_field.specs.words.Products.{IsNibbleBytes};
ghost use Rattle.rs_field.specs.rows.Pairs.{at_two_added, at_two_symbols};
ghost use Rattle.rs_field.specs.rows.TwoLayers.{at_four_added, at_four_symbols};
ghost use Rattle.rs_field.specs.rows.Written.{held};

use crate::butterflies::Butterflies;
use crate::byte_vector::ByteVector;
use crate::factors::{Factor, ThreeFactors};
use crate::word_lanes::{WriteWords, put_words, times, words_at};
use rs_field::engine::tables::Multiply128lutT;

// Multiplies as many symbols of a chunk as a vector has lanes, from symbol `at` on.
#[inline(always)]
fn mul_lanes<V: ByteVector>(c: &mut [u8; 64], at: usize, factor: &Multiply128lutT)
    requires { at + V.LANES ≤ 32 }
    ensures products { (f i s : ℕ) → IsNibbleBytes f factor.now → i < V.LANES → s ≡ at + i
        → symbol c.new s ≡ product (symbol c.old s) f }
    ensures kept { (s : ℕ) → s < 32 → (s < at) ⊎ (at + V.LANES ≤ s)
        → symbol c.new s ≡ symbol c.old s }
{
    let words = words_at::<V>(c, at);
    put_words(times(words, factor), c, at);
}

/// Multiplies each symbol of a chunk by a factor.
#[inline(always)]
pub fn mul_chunk<V: ByteVector>(c: &mut [u8; 64], factor: &Multiply128lutT)
    ensures { (f s : ℕ) → IsNibbleBytes f factor.now → s < 32
        → symbol c.new s ≡ product (symbol c.old s) f }
{
    mul_lanes::<V>(c, 0, factor);
    if V::LANES < 32 {
        mul_lanes::<V>(c, 16, factor);
    }
}

// Adds to as many symbols of a chunk as a vector has lanes, from symbol `at` on, the products of the same symbols of
// another chunk with a factor.
#[inline(always)]
fn add_lanes<V: ByteVector, F: Factor>(x: &mut [u8; 64], y: &[u8; 64], at: usize, factor: F)
    requires { at + V.LANES ≤ 32 }
    ensures sums { (i s : ℕ) → i < V.LANES → s ≡ at + i
        → symbol x.new s ≡ bit_xor (symbol x.old s) (times_factor (F.log factor) (symbol y.now s)) }
    ensures kept { (s : ℕ) → s < 32 → (s < at) ⊎ (at + V.LANES ≤ s)
        → symbol x.new s ≡ symbol x.old s }
{
    let sum = factor.add_product(words_at::<V>(x, at), words_at::<V>(y, at));
    put_words(sum, x, at);
}

/// Adds to each symbol of a chunk the product of the same symbol of another chunk with a factor.
#[inline(always)]
pub fn add_chunk<V: ByteVector, F: Factor>(x: &mut [u8; 64], y: &[u8; 64], factor: F)
    ensures { (s : ℕ) → s < 32
        → symbol x.new s ≡ bit_xor (symbol x.old s) (times_factor (F.log factor) (symbol y.now s)) }
{
    add_lanes::<V, F>(x, y, 0, factor);
    if V::LANES < 32 {
        add_lanes::<V, F>(x, y, 16, factor);
    }
}

// Adds to as many symbols of a chunk as a vector has lanes, from symbol `at` on, the products of the same symbols of
// two other chunks, each with a factor of its own. Each symbol of `x` is loaded and stored once.
#[inline(always)]
fn add_two_lanes<V: ByteVector, F: Factor>(
    x: &mut [u8; 64],
    y0: &[u8; 64],
    y1: &[u8; 64],
    at: usize,
    f0: F,
    f1: F,
)
    requires { at + V.LANES ≤ 32 }
    ensures sums { (i s : ℕ) → i < V.LANES → s ≡ at + i
        → symbol x.new s
        ≡ bit_xor (bit_xor (symbol x.old s) (times_factor (F.log f0) (symbol y0.now s)))
        (times_factor (F.log f1) (symbol y1.now s)) }
    ensures kept { (s : ℕ) → s < 32 → (s < at) ⊎ (at + V.LANES ≤ s)
        → symbol x.new s ≡ symbol x.old s }
{
    let sum = f0.add_product(words_at::<V>(x, at), words_at::<V>(y0, at));
    put_words(f1.add_product(sum, words_at::<V>(y1, at)), x, at);
}

/// Adds to each symbol of a chunk the products of the same symbol of two other chunks, each with a factor of its own.
#[inline(always)]
pub fn add_two_chunks<V: ByteVector, F: Factor>(
    x: &mut [u8; 64],
    y0: &[u8; 64],
    y1: &[u8; 64],
    f0: F,
    f1: F,
)
    ensures { (s : ℕ) → s < 32
        → symbol x.new s
        ≡ bit_xor (bit_xor (symbol x.old s) (times_factor (F.log f0) (symbol y0.now s)))
        (times_factor (F.log f1) (symbol y1.now s)) }
{
    add_two_lanes::<V, F>(x, y0, y1, 0, f0, f1);
    if V::LANES < 32 {
        add_two_lanes::<V, F>(x, y0, y1, 16, f0, f1);
    }
}

// Computes a butterfly on as many symbols of two chunks as a vector has lanes, from symbol `at` on.
#[inline(always)]
fn lanes_of_two<V: ByteVector, D: Butterflies, F: Factor>(
    c0: &mut [u8; 64],
    c1: &mut [u8; 64],
    at: usize,
    factor: F,
)
    requires { at + V.LANES ≤ 32 }
    ensures butterfly { (i s : ℕ) → i < V.LANES → s ≡ at + i
        → at_two_symbols s (D.two (F.log factor)) c0.old c1.old c0.new c1.new }
    ensures kept_0 { (s : ℕ) → s < 32 → (s < at) ⊎ (at + V.LANES ≤ s)
        → symbol c0.new s ≡ symbol c0.old s }
    ensures kept_1 { (s : ℕ) → s < 32 → (s < at) ⊎ (at + V.LANES ≤ s)
        → symbol c1.new s ≡ symbol c1.old s }
{
    let x0 = words_at::<V>(c0, at);
    let x1 = words_at::<V>(c1, at);
    let (y0, y1) = D::of_two(x0, x1, factor);
    put_words(y0, c0, at);
    put_words(y1, c1, at);
}

/// Computes a butterfly on two chunks.
#[inline(always)]
pub fn two_chunks<V: ByteVector, D: Butterflies, F: Factor>(
    c0: &mut [u8; 64],
    c1: &mut [u8; 64],
    factor: F,
)
    ensures { (s : ℕ) → s < 32
        → at_two_symbols s (D.two (F.log factor)) c0.old c1.old c0.new c1.new }
{
    lanes_of_two::<V, D, F>(c0, c1, 0, factor);
    if V::LANES < 32 {
        lanes_of_two::<V, D, F>(c0, c1, 16, factor);
    }
}

// Computes two layers of butterflies on as many symbols of four chunks as a vector has lanes, from symbol `at` on. Each
// symbol is loaded and stored once.
#[inline(always)]
fn lanes_of_four<V: ByteVector, D: Butterflies, F02: Factor, F01: Factor, F23: Factor>(
    c0: &mut [u8; 64],
    c1: &mut [u8; 64],
    c2: &mut [u8; 64],
    c3: &mut [u8; 64],
    at: usize,
    factors: ThreeFactors<F02, F01, F23>,
)
    requires { at + V.LANES ≤ 32 }
    ensures layers { (i s : ℕ) → i < V.LANES → s ≡ at + i
        → at_four_symbols s
        (D.four (F02.log factors.f02) (F01.log factors.f01) (F23.log factors.f23))
        c0.old c1.old c2.old c3.old c0.new c1.new c2.new c3.new }
    ensures kept_0 { (s : ℕ) → s < 32 → (s < at) ⊎ (at + V.LANES ≤ s)
        → symbol c0.new s ≡ symbol c0.old s }
    ensures kept_1 { (s : ℕ) → s < 32 → (s < at) ⊎ (at + V.LANES ≤ s)
        → symbol c1.new s ≡ symbol c1.old s }
    ensures kept_2 { (s : ℕ) → s < 32 → (s < at) ⊎ (at + V.LANES ≤ s)
        → symbol c2.new s ≡ symbol c2.old s }
    ensures kept_3 { (s : ℕ) → s < 32 → (s < at) ⊎ (at + V.LANES ≤ s)
        → symbol c3.new s ≡ symbol c3.old s }
{
    let x0 = words_at::<V>(c0, at);
    let x1 = words_at::<V>(c1, at);
    let x2 = words_at::<V>(c2, at);
    let x3 = words_at::<V>(c3, at);
    let (y0, y1, y2, y3) = D::of_four(x0, x1, x2, x3, factors);
    put_words(y0, c0, at);
    put_words(y1, c1, at);
    put_words(y2, c2, at);
    put_words(y3, c3, at);
}

/// Computes two layers of butterflies on four chunks.
#[inline(always)]
pub fn four_chunks<V: ByteVector, D: Butterflies, F02: Factor, F01: Factor, F23: Factor>(
    c0: &mut [u8; 64],
    c1: &mut [u8; 64],
    c2: &mut [u8; 64],
    c3: &mut [u8; 64],
    factors: ThreeFactors<F02, F01, F23>,
)
    ensures { (s : ℕ) → s < 32
        → at_four_symbols s
        (D.four (F02.log factors.f02) (F01.log factors.f01) (F23.log factors.f23))
        c0.old c1.old c2.old c3.old c0.new c1.new c2.new c3.new }
{
    lanes_of_four::<V, D, F02, F01, F23>(c0, c1, c2, c3, 0, factors);
    if V::LANES < 32 {
        lanes_of_four::<V, D, F02, F01, F23>(c0, c1, c2, c3, 16, factors);
    }
}

// Writes to as many symbols of two chunks as a vector has lanes, from symbol `at` on, what a butterfly makes of two
// other chunks.
#[inline(always)]
fn lanes_of_two_written<V: ByteVector, D: Butterflies, W: WriteWords, F: Factor>(
    c0: &mut [u8; 64],
    c1: &mut [u8; 64],
    y0: &[u8; 64],
    y1: &[u8; 64],
    at: usize,
    factor: F,
)
    requires { at + V.LANES ≤ 32 }
    ensures written { (i s : ℕ) → i < V.LANES → s ≡ at + i
        → at_two_added s (D.two (F.log factor)) (held W.writing) y0.now y1.now
        c0.old c1.old c0.new c1.new }
    ensures kept_0 { (s : ℕ) → s < 32 → (s < at) ⊎ (at + V.LANES ≤ s)
        → symbol c0.new s ≡ symbol c0.old s }
    ensures kept_1 { (s : ℕ) → s < 32 → (s < at) ⊎ (at + V.LANES ≤ s)
        → symbol c1.new s ≡ symbol c1.old s }
{
    let x0 = words_at::<V>(y0, at);
    let x1 = words_at::<V>(y1, at);
    let (z0, z1) = D::of_two(x0, x1, factor);
    W::write_words(z0, c0, at);
    W::write_words(z1, c1, at);
}

/// Writes to two chunks what a butterfly makes of two other chunks.
#[inline(always)]
pub fn two_chunks_written<V: ByteVector, D: Butterflies, W: WriteWords, F: Factor>(
    c0: &mut [u8; 64],
    c1: &mut [u8; 64],
    y0: &[u8; 64],
    y1: &[u8; 64],
    factor: F,
)
    ensures { (s : ℕ) → s < 32
        → at_two_added s (D.two (F.log factor)) (held W.writing) y0.now y1.now
        c0.old c1.old c0.new c1.new }
{
    lanes_of_two_written::<V, D, W, F>(c0, c1, y0, y1, 0, factor);
    if V::LANES < 32 {
        lanes_of_two_written::<V, D, W, F>(c0, c1, y0, y1, 16, factor);
    }
}

/// Four chunks that are only read.
#[derive(Clone, Copy, Debug)]
pub struct FourChunks<'a> {
    /// The first chunk.
    pub chunk_0: &'a [u8; 64],
    /// The second chunk.
    pub chunk_1: &'a [u8; 64],
    /// The third chunk.
    pub chunk_2: &'a [u8; 64],
    /// The fourth chunk.
    pub chunk_3: &'a [u8; 64],
}

// Writes to as many symbols of four chunks as a vector has lanes, from symbol `at` on, what two layers of butterflies
// make of four other chunks.
#[inline(always)]
fn lanes_of_four_written<
    V: ByteVector,
    D: Butterflies,
    W: WriteWords,
    F02: Factor,
    F01: Factor,
    F23: Factor,
>(
    c0: &mut [u8; 64],
    c1: &mut [u8; 64],
    c2: &mut [u8; 64],
    c3: &mut [u8; 64],
    y: FourChunks<'_>,
    at: usize,
    factors: ThreeFactors<F02, F01, F23>,
)
    requires { at + V.LANES ≤ 32 }
    ensures written { (i s : ℕ) → i < V.LANES → s ≡ at + i
        → at_four_added s
        (D.four (F02.log factors.f02) (F01.log factors.f01) (F23.log factors.f23)) (held W.writing)
        y.entry.chunk_0.now y.entry.chunk_1.now y.entry.chunk_2.now y.entry.chunk_3.now
        c0.old c1.old c2.old c3.old c0.new c1.new c2.new c3.new }
    ensures kept_0 { (s : ℕ) → s < 32 → (s < at) ⊎ (at + V.LANES ≤ s)
        → symbol c0.new s ≡ symbol c0.old s }
    ensures kept_1 { (s : ℕ) → s < 32 → (s < at) ⊎ (at + V.LANES ≤ s)
        → symbol c1.new s ≡ symbol c1.old s }
    ensures kept_2 { (s : ℕ) → s < 32 → (s < at) ⊎ (at + V.LANES ≤ s)
        → symbol c2.new s ≡ symbol c2.old s }
    ensures kept_3 { (s : ℕ) → s < 32 → (s < at) ⊎ (at + V.LANES ≤ s)
        → symbol c3.new s ≡ symbol c3.old s }
{
    let x0 = words_at::<V>(y.chunk_0, at);
    let x1 = words_at::<V>(y.chunk_1, at);
    let x2 = words_at::<V>(y.chunk_2, at);
    let x3 = words_at::<V>(y.chunk_3, at);
    let (z0, z1, z2, z3) = D::of_four(x0, x1, x2, x3, factors);
    W::write_words(z0, c0, at);
    W::write_words(z1, c1, at);
    W::write_words(z2, c2, at);
    W::write_words(z3, c3, at);
}

/// Writes to four chunks what two layers of butterflies make of four other chunks.
#[inline(always)]
pub fn four_chunks_written<
    V: ByteVector,
    D: Butterflies,
    W: WriteWords,
    F02: Factor,
    F01: Factor,
    F23: Factor,
>(
    c0: &mut [u8; 64],
    c1: &mut [u8; 64],
    c2: &mut [u8; 64],
    c3: &mut [u8; 64],
    y: FourChunks<'_>,
    factors: ThreeFactors<F02, F01, F23>,
)
    ensures { (s : ℕ) → s < 32
        → at_four_added s
        (D.four (F02.log factors.f02) (F01.log factors.f01) (F23.log factors.f23)) (held W.writing)
        y.entry.chunk_0.now y.entry.chunk_1.now y.entry.chunk_2.now y.entry.chunk_3.now
        c0.old c1.old c2.old c3.old c0.new c1.new c2.new c3.new }
{
    lanes_of_four_written::<V, D, W, F02, F01, F23>(c0, c1, c2, c3, y, 0, factors);
    if V::LANES < 32 {
        lanes_of_four_written::<V, D, W, F02, F01, F23>(c0, c1, c2, c3, y, 16, factors);
    }
}

//! The factors of butterflies in classes: zero, factors whose products with low bytes have no high byte, and all other
//! factors. The class of a factor is known before a loop over chunks begins.
//!
//! A product takes eight look-ups. If the factor is below 256, its product with a low byte has no high byte, so two of
//! the eight look-ups would give zero, and only six are made. The high byte of its product with a high byte is then the
//! low byte of its product with the same byte as a low byte, so these six look-ups need four numbers of 16 bytes. The
//! numbers of two such factors fit the registers of a loop together.
ghost use Rattle.std.specs.Prelude.{◌≡◌, ◌≢◌, ℕ, ◌<◌, slice_index, bit_xor};
ghost use Rattle.rs_field.specs.words.Field.{power};
ghost use Rattle.rs_field.specs.words.Tables.{times_factor};
ghost use Rattle.rs_field.specs.words.Products.{IsNibbleBytes};
ghost use Rattle.rs_engines.specs.SmallNumbers.{of_four_numbers};
ghost use Rattle.rs_engines.specs.Lanes.{lane};

use crate::byte_vector::ByteVector;
use crate::word_lanes::{Words, add, times, times_small};
use rs_field::engine::GfElement;
use rs_field::engine::tables::Multiply128lutT;

/// The factor of a butterfly.
pub trait Factor: Copy + Drop {
    // The logarithm of a factor. 65535 represents the factor zero.
    ghost log: { Self → ℕ };

    /// Returns in each lane the sum of the word of x and the product of the word of y with this factor.
    fn add_product<V: ByteVector>(self, x: Words<V>, y: Words<V>) -> Words<V>
        ensures { (i : ℕ) → i < V.LANES
            → lane (V.bytes result.low) (V.bytes result.high) i
            ≡ bit_xor (lane (V.bytes x.low) (V.bytes x.high) i)
            (times_factor (log self) (lane (V.bytes y.low) (V.bytes y.high) i)) };
}

/// The factor zero.
#[derive(Clone, Copy)]
pub struct Zero;

impl Factor for Zero {
    ghost log = { λ factor. 65535 };

    #[inline(always)]
    fn add_product<V: ByteVector>(self, x: Words<V>, _y: Words<V>) -> Words<V> {
        x
    }
}

/// A factor that is not zero, and whose products with low bytes have no high byte.
#[derive(Clone, Copy)]
pub struct Small<'t> {
    /// The logarithm of the factor.
    pub log_m: GfElement,
    /// The products with the factor, as bytes.
    pub products: &'t Multiply128lutT,
    pub ghost nonzero: { log_m ≢ 65535 },
    pub ghost of_factor: { IsNibbleBytes (power log_m) products.now },
    pub ghost first: { slice_index products.now.hi 0 ≡ 0 },
    pub ghost second: { slice_index products.now.hi 1 ≡ 0 },
}

impl Factor for Small<'_> {
    ghost log = { λ factor. factor.log_m };

    #[inline(always)]
    fn add_product<V: ByteVector>(self, x: Words<V>, y: Words<V>) -> Words<V> {
        let products = self.products;
        add(
            x,
            times_small(y, &products.lo, products.hi[2], products.hi[3]),
        )
    }
}

/// A small factor whose six look-ups need four numbers. The products of the low and of the high nibble of a high byte
/// have the same bytes, one place up, as those of a low byte.
#[derive(Clone, Copy)]
pub struct Bytewise {
    /// The logarithm of the factor.
    pub log_m: GfElement,
    /// The low bytes of the products of the four nibbles of a word.
    pub numbers: [u128; 4],
    pub ghost nonzero: { log_m ≢ 65535 },
    pub ghost of_factor: { IsNibbleBytes (power log_m) (of_four_numbers numbers) },
}

impl Factor for Bytewise {
    ghost log = { λ factor. factor.log_m };

    #[inline(always)]
    fn add_product<V: ByteVector>(self, x: Words<V>, y: Words<V>) -> Words<V> {
        let low = self.numbers;
        add(x, times_small(y, &low, low[0], low[1]))
    }
}

/// A factor that is not zero, without any further condition.
#[derive(Clone, Copy)]
pub struct General<'t> {
    /// The logarithm of the factor.
    pub log_m: GfElement,
    /// The products with the factor, as bytes.
    pub products: &'t Multiply128lutT,
    pub ghost nonzero: { log_m ≢ 65535 },
    pub ghost of_factor: { IsNibbleBytes (power log_m) products.now },
}

impl Factor for General<'_> {
    ghost log = { λ factor. factor.log_m };

    #[inline(always)]
    fn add_product<V: ByteVector>(self, x: Words<V>, y: Words<V>) -> Words<V> {
        add(x, times(y, self.products))
    }
}

/// The three factors that two layers of butterflies on four rows use.
#[derive(Clone, Copy)]
pub struct ThreeFactors<F02, F01, F23> {
    /// The factor of the butterfly on rows 0 and 2 and of the butterfly on rows 1 and 3.
    pub f02: F02,
    /// The factor of the butterfly on rows 0 and 1.
    pub f01: F01,
    /// The factor of the butterfly on rows 2 and 3.
    pub f23: F23,
}

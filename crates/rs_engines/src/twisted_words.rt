//! Words in another basis of the field, in which a product with a factor below 256 takes four look-ups.
//!
//! The words below 256 are a field of their own, and each word is one of them plus another one times the word 256. A
//! factor below 256 multiplies both of these alike. The other one is the high byte of the word, and the first one is
//! its low byte plus a byte that depends on the high byte alone. So a word is changed from one basis into the other by
//! two look-ups, and the same two look-ups change it back.
ghost use Rattle.std.specs.Prelude.{◌≡◌, ◌≢◌, ℕ, ◌<◌, IfNone, IfSome, slice_index, bit_xor};
ghost use Rattle.rs_field.specs.words.Field.{power, product};
ghost use Rattle.rs_field.specs.words.Products.{IsNibbleBytes};
ghost use Rattle.rs_field.specs.words.Tables.{times_factor};
ghost use Rattle.rs_engines.specs.Lanes.{lane};
ghost use Rattle.rs_engines.specs.Twisted.{twisted, AreByteProducts};

use crate::byte_vector::ByteVector;
use crate::word_lanes::Words;
use rs_field::engine::tables::Multiply128lutT;
use rs_field::engine::{GF_MODULUS, GfElement};

/// The low bytes of the products of each value of a low nibble with the word 256.
const TWIST_OF_LOW_NIBBLES: u128 = 0x4545_8A8A_EEEE_2121_6464_ABAB_CFCF_0000;

/// The low bytes of the products of each value of a high nibble with the word 256.
const TWIST_OF_HIGH_NIBBLES: u128 = 0x2FA5_B238_0882_951F_30BA_AD27_179D_8A00;

/// Returns words in the other basis.
#[inline(always)]
pub fn twist<V: ByteVector>(words: Words<V>) -> Words<V>
    ensures { (i : ℕ) → i < V.LANES
        → lane (V.bytes result.low) (V.bytes result.high) i
        ≡ twisted (lane (V.bytes words.low) (V.bytes words.high) i) }
{
    let high = words.high;
    let change = high
        .at_low_nibbles(TWIST_OF_LOW_NIBBLES)
        .sum(high.at_high_nibbles(TWIST_OF_HIGH_NIBBLES));
    Words {
        low: words.low.sum(change),
        high,
    }
}

/// A factor that is not zero and whose products with bytes are bytes, for words in the other basis.
#[derive(Clone, Copy)]
pub struct ByteFactor {
    /// The logarithm of the factor.
    pub log_m: GfElement,
    /// The products of each value of a low nibble with the factor.
    pub low_nibbles: u128,
    /// The products of each value of a high nibble with the factor.
    pub high_nibbles: u128,
    pub ghost nonzero: { log_m ≢ 65535 },
    pub ghost products: { AreByteProducts (power log_m) low_nibbles high_nibbles },
}

impl ByteFactor {
    /// Returns the factor with the logarithm `log_m`, if its products with bytes are bytes. `products` holds the
    /// products with the generator to the power `log_m`.
    #[inline(always)]
    pub fn of(products: &Multiply128lutT, log_m: GfElement) -> Option<ByteFactor>
        requires { IsNibbleBytes (power log_m) products.now }
        ensures some { IfSome result (λ found. found.log_m ≡ log_m) }
        ensures none { IfNone result (log_m ≢ 65535 → slice_index products.now.hi 0 ≡ 0
            → slice_index products.now.hi 1 ≡ 0 → ⊥) }
    {
        if log_m == GF_MODULUS || products.hi[0] != 0 || products.hi[1] != 0 {
            return None;
        }
        Some(ByteFactor {
            log_m,
            low_nibbles: products.lo[0],
            high_nibbles: products.lo[1],
        })
    }

    // Returns the products of bytes with the factor.
    #[inline(always)]
    fn times<V: ByteVector>(self, bytes: V) -> V
        ensures small { (i : ℕ) → i < V.LANES → slice_index (V.bytes bytes) i < 256 }
        ensures products { (i : ℕ) → i < V.LANES
            → slice_index (V.bytes result) i
            ≡ product (slice_index (V.bytes bytes) i) (power self.log_m) }
    {
        bytes
            .at_low_nibbles(self.low_nibbles)
            .sum(bytes.at_high_nibbles(self.high_nibbles))
    }

    /// Returns in each lane the sum of the word of x and the product of the word of y with this factor. All words are
    /// in the other basis.
    #[inline(always)]
    pub fn add_product<V: ByteVector>(self, x: Words<V>, y: Words<V>) -> Words<V>
        ensures { (i : ℕ) → i < V.LANES
            → twisted (lane (V.bytes result.low) (V.bytes result.high) i)
            ≡ bit_xor (twisted (lane (V.bytes x.low) (V.bytes x.high) i))
            (times_factor self.log_m (twisted (lane (V.bytes y.low) (V.bytes y.high) i))) }
    {
        Words {
            low: x.low.sum(self.times(y.low)),
            high: x.high.sum(self.times(y.high)),
        }
    }
}

//! Words in the lanes of two vectors of bytes, and products of these words by look-ups of nibbles.
//!
//! The product of a word is the sum of the products of its four nibbles. A number of 16 bytes holds one byte of the
//! products of each value of a nibble, so a shuffle looks up this byte for all lanes at once.
ghost use Rattle.std.specs.Prelude.{◌≡◌, ℕ, ◌+◌, ◌/◌, ◌%◌, ◌<◌, ◌≤◌, ◌⊎◌, slice_index, bit_xor};
ghost use Rattle.rs_field.specs.declared.words.table_types.Multiply128lutT.{Multiply128lutT};
ghost use Rattle.rs_field.specs.words.Field.{product};
ghost use Rattle.rs_field.specs.declared.rows.reading.Writing.{Writing};
ghost use Rattle.rs_field.specs.rows.Rows.{symbol};
ghost use Rattle.rs_field.specs.rows.Written.{held};
ghost use Rattle.rs_field.specs.words.Products.{AreLowNibbles, AreHighNibbles, IsNibbleBytes};
ghost use Rattle.rs_engines.specs.SmallNumbers.{HasSmallNumbers};
ghost use Rattle.rs_engines.specs.Lanes.{lane};

use crate::byte_vector::ByteVector;
use rs_field::engine::tables::Multiply128lutT;

/// Words in lanes: lane i of the two vectors holds one word.
#[derive(Clone, Copy)]
pub struct Words<V: ByteVector> {
    /// The low byte of each word.
    pub low: V,
    /// The high byte of each word.
    pub high: V,
}

// Returns the low byte or the high byte of the product of each word. `numbers` hold this byte of the products of the
// four nibbles.
#[inline(always)]
fn product_bytes<V: ByteVector>(low: V, high: V, numbers: &[u128; 4]) -> V
    ensures small { (i : ℕ) → i < V.LANES → slice_index (V.bytes low) i < 256 }
    ensures low { (f i : ℕ) → AreLowNibbles f numbers.now → i < V.LANES
        → slice_index (V.bytes result) i ≡ product (lane (V.bytes low) (V.bytes high) i) f % 256 }
    ensures high { (f i : ℕ) → AreHighNibbles f numbers.now → i < V.LANES
        → slice_index (V.bytes result) i ≡ product (lane (V.bytes low) (V.bytes high) i) f / 256 }
{
    let first = low
        .at_low_nibbles(numbers[0])
        .sum(low.at_high_nibbles(numbers[1]));
    let second = high
        .at_low_nibbles(numbers[2])
        .sum(high.at_high_nibbles(numbers[3]));
    first.sum(second)
}

/// Returns the words of a chunk from symbol `at` on.
#[inline(always)]
pub fn words_at<V: ByteVector>(c: &[u8; 64], at: usize) -> Words<V>
    requires { at + V.LANES ≤ 32 }
    ensures { (i s : ℕ) → i < V.LANES → s ≡ at + i
        → lane (V.bytes result.low) (V.bytes result.high) i ≡ symbol c.now s }
{
    Words {
        low: V::load(c, at),
        high: V::load(c, at + 32),
    }
}

/// Writes words into a chunk, from symbol `at` on.
#[inline(always)]
pub fn put_words<V: ByteVector>(words: Words<V>, c: &mut [u8; 64], at: usize)
    requires { at + V.LANES ≤ 32 }
    ensures stored { (i s : ℕ) → i < V.LANES → s ≡ at + i
        → symbol c.new s ≡ lane (V.bytes words.low) (V.bytes words.high) i }
    ensures kept { (s : ℕ) → s < 32 → (s < at) ⊎ (at + V.LANES ≤ s)
        → symbol c.new s ≡ symbol c.old s }
{
    words.low.store(c, at);
    words.high.store(c, at + 32);
}

/// Returns the products of words with a factor.
#[inline(always)]
pub fn times<V: ByteVector>(words: Words<V>, factor: &Multiply128lutT) -> Words<V>
    ensures { (f i : ℕ) → IsNibbleBytes f factor.now → i < V.LANES
        → lane (V.bytes result.low) (V.bytes result.high) i
        ≡ product (lane (V.bytes words.low) (V.bytes words.high) i) f }
{
    Words {
        low: product_bytes(words.low, words.high, &factor.lo),
        high: product_bytes(words.low, words.high, &factor.hi),
    }
}

/// Returns the products of words with a factor whose products with low bytes have no high byte. This takes six look-ups
/// instead of eight: those of the low bytes in the four numbers `low`, and those of the high bytes in two numbers.
#[inline(always)]
pub fn times_small<V: ByteVector>(
    words: Words<V>,
    low: &[u128; 4],
    third: u128,
    fourth: u128,
) -> Words<V>
    ensures { (f i : ℕ) (factor : Multiply128lutT) → IsNibbleBytes f factor
        → HasSmallNumbers factor low.now third fourth → i < V.LANES
        → lane (V.bytes result.low) (V.bytes result.high) i
        ≡ product (lane (V.bytes words.low) (V.bytes words.high) i) f }
{
    Words {
        low: product_bytes(words.low, words.high, low),
        high: words
            .high
            .at_low_nibbles(third)
            .sum(words.high.at_high_nibbles(fourth)),
    }
}

/// Returns the sums of words.
#[inline(always)]
pub fn add<V: ByteVector>(x: Words<V>, y: Words<V>) -> Words<V>
    ensures { (i : ℕ) → i < V.LANES
        → lane (V.bytes result.low) (V.bytes result.high) i
        ≡ bit_xor (lane (V.bytes x.low) (V.bytes x.high) i)
        (lane (V.bytes y.low) (V.bytes y.high) i) }
{
    Words {
        low: x.low.sum(y.low),
        high: x.high.sum(y.high),
    }
}

/// How words are written to a chunk.
pub trait WriteWords {
    // How the words are written.
    ghost writing: { Writing };

    /// Writes words to the symbols of a chunk, from symbol `at` on.
    fn write_words<V: ByteVector>(words: Words<V>, c: &mut [u8; 64], at: usize)
        requires { at + V.LANES ≤ 32 }
        ensures written { (i s : ℕ) → i < V.LANES → s ≡ at + i
            → bit_xor (held writing (symbol c.old s)) (symbol c.new s)
            ≡ lane (V.bytes words.low) (V.bytes words.high) i }
        ensures kept { (s : ℕ) → s < 32 → (s < at) ⊎ (at + V.LANES ≤ s)
            → symbol c.new s ≡ symbol c.old s };
}

/// The words replace the symbols.
pub struct ReplaceWords;

impl WriteWords for ReplaceWords {
    ghost writing = { Writing.Replacing };

    #[inline(always)]
    fn write_words<V: ByteVector>(words: Words<V>, c: &mut [u8; 64], at: usize) {
        put_words(words, c, at);
    }
}

/// The words are added to the symbols.
pub struct AddWords;

impl WriteWords for AddWords {
    ghost writing = { Writing.Adding };

    #[inline(always)]
    fn write_words<V: ByteVector>(words: Words<V>, c: &mut [u8; 64], at: usize) {
        let sum = add(words_at(c, at), words);
        put_words(sum, c, at);
    }
}

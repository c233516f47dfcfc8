//! Chunks of words in the other basis.
ghost use Rattle.std.specs.Prelude.{◌≡◌, ℕ, ◌+◌, ◌<◌, ◌≤◌, ◌⊎◌, bit_xor};
ghost use Rattle.rs_field.specs.rows.Rows.{symbol};
ghost use Rattle.rs_field.specs.words.Tables.{times_factor};
ghost use Rattle.rs_engines.specs.Twisted.{twisted};

use crate::byte_vector::ByteVector;
use crate::twisted_words::{ByteFactor, twist};
use crate::word_lanes::{put_words, words_at};

// Changes as many symbols of a chunk as a vector has lanes, from symbol `at` on, into the other basis.
#[inline(always)]
fn twist_lanes<V: ByteVector>(c: &mut [u8; 64], at: usize)
    requires { at + V.LANES ≤ 32 }
    ensures twisted { (i s : ℕ) → i < V.LANES → s ≡ at + i
        → symbol c.new s ≡ twisted (symbol c.old s) }
    ensures kept { (s : ℕ) → s < 32 → (s < at) ⊎ (at + V.LANES ≤ s)
        → symbol c.new s ≡ symbol c.old s }
{
    let words = words_at::<V>(c, at);
    put_words(twist(words), c, at);
}

/// Changes the symbols of a chunk into the other basis.
#[inline(always)]
pub fn twist_chunk<V: ByteVector>(c: &mut [u8; 64])
    ensures twisted { (s : ℕ) → s < 32 → symbol c.new s ≡ twisted (symbol c.old s) }
    ensures back { (s : ℕ) → s < 32 → twisted (symbol c.new s) ≡ symbol c.old s }
{
    twist_lanes::<V>(c, 0);
    if V::LANES < 32 {
        twist_lanes::<V>(c, 16);
    }
}

// Adds to as many symbols of a chunk as a vector has lanes, from symbol `at` on, the products of the same symbols of
// another chunk with a factor. All symbols are in the other basis.
#[inline(always)]
fn add_twisted_lanes<V: ByteVector>(x: &mut [u8; 64], y: &[u8; 64], at: usize, factor: ByteFactor)
    requires { at + V.LANES ≤ 32 }
    ensures sums { (i s : ℕ) → i < V.LANES → s ≡ at + i
        → twisted (symbol x.new s)
        ≡ bit_xor (twisted (symbol x.old s))
        (times_factor factor.log_m (twisted (symbol y.now s))) }
    ensures kept { (s : ℕ) → s < 32 → (s < at) ⊎ (at + V.LANES ≤ s)
        → symbol x.new s ≡ symbol x.old s }
{
    let sum = factor.add_product(words_at::<V>(x, at), words_at::<V>(y, at));
    put_words(sum, x, at);
}

/// Adds to each symbol of a chunk the product of the same symbol of another chunk with a factor. All symbols are in the
/// other basis.
#[inline(always)]
pub fn add_twisted_chunk<V: ByteVector>(x: &mut [u8; 64], y: &[u8; 64], factor: ByteFactor)
    ensures { (s : ℕ) → s < 32
        → twisted (symbol x.new s)
        ≡ bit_xor (twisted (symbol x.old s))
        (times_factor factor.log_m (twisted (symbol y.now s))) }
{
    add_twisted_lanes::<V>(x, y, 0, factor);
    if V::LANES < 32 {
        add_twisted_lanes::<V>(x, y, 16, factor);
    }
}

//! The symbols of a chunk of 64 bytes: symbol s has its low byte at s and its high byte at s + 32.
ghost use Rattle.std.specs.Prelude.{◌≡◌, ℕ, ◌<◌, ◌≢◌, bit_xor};
ghost use Rattle.rs_field.specs.rows.Rows.{symbol};

use crate::words::GfElement;

/// Returns symbol `s` of a chunk, for s below 32.
#[inline(always)]
pub fn symbol_at(c: &[u8; 64], s: usize) -> GfElement
    requires { s < 32 }
    ensures { result ≡ symbol c.now s }
{
    u16::from(c[s]) | (u16::from(c[s + 32]) << 8)
}

/// Writes a word into symbol `s` of a chunk, for s below 32. The other symbols are unchanged.
#[inline(always)]
pub fn set_symbol(c: &mut [u8; 64], s: usize, word: GfElement)
    requires { s < 32 }
    ensures value { symbol c.new s ≡ word }
    ensures others { (k : ℕ) → k < 32 → k ≢ s → symbol c.new k ≡ symbol c.old k }
{
    c[s] = (word & 0xff) as u8;
    c[s + 32] = (word >> 8) as u8;
}

/// Adds a word to symbol `s` of a chunk, for s below 32. The other symbols are unchanged.
#[inline(always)]
pub fn add_symbol(c: &mut [u8; 64], s: usize, word: GfElement)
    requires { s < 32 }
    ensures sum { symbol c.new s ≡ bit_xor (symbol c.old s) word }
    ensures others { (k : ℕ) → k < 32 → k ≢ s → symbol c.new k ≡ symbol c.old k }
{
    c[s] ^= (word & 0xff) as u8;
    c[s + 32] ^= (word >> 8) as u8;
}

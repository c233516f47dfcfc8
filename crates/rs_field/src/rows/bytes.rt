//! Laws of bytes and symbols, as contracts of functions that do nothing when they run: a byte in memory is below 256,
//! and a symbol of a row is below 65536.
//!
//! Many laws of the code have the assumption that every byte of a shard is below 256. A caller that proves something
//! about shards in memory calls the function of this module that fits the type of its shards.
ghost use Rattle.std.specs.Prelude.{ℕ, ◌<◌, All, length, slice_index};
ghost use Rattle.rs_field.specs.rows.Rows.{chunk, symbol};
ghost use Rattle.rs_field.specs.rows.View.{word, Fits};

use super::ShardsRefMut;
use crate::words::GfElement;

/// Guarantees that every byte of a slice is below 256, and so is the value that is read at any index.
pub fn are_bytes(bytes: &[u8])
    ensures all { All (λ b. b < 256) bytes.now }
    ensures each { (j : ℕ) → slice_index bytes.now j < 256 }
{}

/// Guarantees that every byte of each vector is below 256.
pub fn vectors_are_bytes(shards: &[Vec<u8>])
    ensures { All (λ shard. All (λ b. b < 256) shard.items) shards.now }
{
    for shard in shards {
        are_bytes(shard);
    }
}

/// Guarantees that every byte of each slice is below 256.
pub fn slices_are_bytes(shards: &[&[u8]])
    ensures { All (λ shard. All (λ b. b < 256) shard.now) shards.now }
{
    for shard in shards {
        are_bytes(shard);
    }
}

/// Guarantees that every byte of each array is below 256.
pub fn arrays_are_bytes<const N: usize>(shards: &[[u8; N]])
    ensures { All (All (λ b. b < 256)) shards.now }
{
    for shard in shards {
        are_bytes(shard);
    }
}

/// Guarantees that every entry of a slice is below 65536, and so is the value that is read at any index.
pub fn are_words(entries: &[GfElement])
    ensures { (x : ℕ) → slice_index entries.now x < 65536 }
{}

/// Guarantees that every symbol of every row is below 65536.
pub fn row_symbols_are_words(rows: &ShardsRefMut<'_>)
    requires { Fits rows.now }
    ensures { (k s i : ℕ) → k < rows.now.shard_len_64 → s < 32 → i < rows.now.shard_count
        → word rows.now k s i < 65536 }
{
    symbols_are_words(rows.chunks);
}

// Guarantees that every symbol of every chunk is below 65536.
pub(crate) fn symbols_are_words(chunks: &[[u8; 64]])
    ensures { (k s : ℕ) → k < length chunks.now → s < 32 → symbol (chunk chunks.now k) s < 65536 }
{
    are_bytes(chunks.as_flattened());
}

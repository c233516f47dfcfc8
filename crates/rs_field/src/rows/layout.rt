//! How a shard lies in a row of chunks of 64 bytes.
//!
//! Symbol s of a chunk has its low byte at byte s and its high byte at byte s + 32. Whole chunks of a shard lie as they
//! are. A tail of L bytes lies in the last chunk: its first half from byte 0 on, its second half from byte 32 on. The
//! other bytes of the last chunk may have any value.
ghost use Rattle.std.specs.Prelude.{◌≡◌, ℕ, ◌+◌, ◌*◌, ◌%◌, ◌<◌, ◌≤◌, ◌↔◌, ◌⊎◌, length, slice_index, IsTrue, EachIndex};
ghost use Rattle.rs_field.specs.rows.Layout.{row_len, laid_out, in_order, LaysColumns, HasZeroColumns};
ghost use Rattle.rs_field.specs.rows.Rows.{chunk};

use std::simd::prelude::*;

/// Returns the number of chunks that a row of shards of `shard_bytes` bytes has.
pub fn row_len(shard_bytes: usize) -> usize
    ensures { result ≡ row_len shard_bytes }
{
    shard_bytes.div_ceil(64)
}

/// Lays a shard into its row.
pub fn insert(row: &mut [[u8; 64]], shard: &[u8])
    requires room { length row.old ≡ row_len (length shard.now) }
    requires even { length shard.now % 2 ≡ 0 }
    ensures { laid_out (length shard.now) (λ k. chunk row.new k) ≡ shard.now }
{
    let whole = shard.len() / 64;
    put_whole(row, shard, whole);
    let half = shard.len() % 64 / 2;
    if half > 0 {
        put_tail(&mut row[whole], &shard[whole * 64..], half);
    }
}

// Copies the whole chunks of a shard into the row as they are. A single chunk is copied by an assignment, because a
// copy whose length is not known to the compiler is a call.
fn put_whole(row: &mut [[u8; 64]], shard: &[u8], whole: usize)
    requires room { whole ≤ length row.old }
    requires within { whole * 64 ≤ length shard.now }
    ensures { (k b : ℕ) → k < whole → b < 64
        → slice_index (chunk row.new k) b ≡ slice_index shard.now (k * 64 + b) }
{
    let chunks = shard[..whole * 64].as_chunks().0;
    if whole == 1 {
        row[0] = chunks[0];
    } else {
        row[..whole].copy_from_slice(chunks);
    }
}

// Copies the first half of a tail to byte 0 of the chunk and its second half to byte 32. This function is not inlined:
// if it were, a loop over shards would compute the operands of these copies in advance, even if no shard has a tail.
#[inline(never)]
fn put_tail(chunk: &mut [u8; 64], tail: &[u8], half: usize)
    requires half { half ≤ 32 }
    requires length { length tail.now ≡ 2 * half }
    ensures low { (b : ℕ) → b < half → slice_index «chunk».new b ≡ slice_index tail.now b }
    ensures high { (b : ℕ) → b < half
        → slice_index «chunk».new (32 + b) ≡ slice_index tail.now (half + b) }
{
    if half < 16 {
        put_bytes(chunk, 0, &tail[..half]);
        put_bytes(chunk, 32, &tail[half..]);
    } else {
        put_long_tail(chunk, tail, half);
    }
}

// Copies the halves of a tail of at least 32 bytes into the chunk, by two moves of 32 bytes. Two moves of a constant
// length cost less than two copies of a length that the compiler does not know. The last 32 bytes of the tail are
// written first, so that they end where the second half has to end. Then the first 32 bytes are written to byte 0. They
// overwrite every byte before byte 32.
fn put_long_tail(chunk: &mut [u8; 64], tail: &[u8], half: usize)
    requires half { half ≤ 32 }
    requires long { 16 ≤ half }
    requires length { length tail.now ≡ 2 * half }
    ensures low { (b : ℕ) → b < half → slice_index «chunk».new b ≡ slice_index tail.now b }
    ensures high { (b : ℕ) → b < half
        → slice_index «chunk».new (32 + b) ≡ slice_index tail.now (half + b) }
{
    let first = load_32(&tail[..32]);
    let last = load_32(&tail[2 * half - 32..]);
    put_32(chunk, half, last);
    put_32(chunk, 0, first);
}

#[inline(always)]
fn load_32(bytes: &[u8]) -> u8x32
    requires { length bytes.now ≡ 32 }
    ensures { result ≡ bytes.now }
{
    u8x32::from_slice(bytes)
}

// Stores the bytes of a vector.
#[inline(always)]
fn store_32(v: u8x32, places: &mut [u8])
    requires { length places.old ≡ 32 }
    ensures { places.new ≡ v }
{
    v.copy_to_slice(places);
}

// Writes the bytes of a vector into a chunk, from byte `start` on.
#[inline(always)]
fn put_32(chunk: &mut [u8; 64], start: usize, v: u8x32)
    requires { start ≤ 32 }
    ensures here { (b : ℕ) → b < 32 → slice_index «chunk».new (start + b) ≡ slice_index v b }
    ensures others { (b : ℕ) → (b < start) ⊎ (start + 32 ≤ b)
        → slice_index «chunk».new b ≡ slice_index «chunk».old b }
{
    store_32(v, &mut chunk[start..start + 32]);
}

// Writes bytes into a chunk, from byte `start` on.
fn put_bytes(chunk: &mut [u8; 64], start: usize, bytes: &[u8])
    requires { start + length bytes.now ≤ 64 }
    ensures here { (b : ℕ) → b < length bytes.now
        → slice_index «chunk».new (start + b) ≡ slice_index bytes.now b }
    ensures before { (b : ℕ) → b < start → slice_index «chunk».new b ≡ slice_index «chunk».old b }
{
    chunk[start..start + bytes.len()].copy_from_slice(bytes);
}

/// Moves the second half of a row's tail to the end of its first half, so that the shard lies in the row's first bytes.
pub fn undo_last_chunk_encoding(row: &mut [[u8; 64]], shard_bytes: usize)
    requires room { length row.old ≡ row_len shard_bytes }
    requires even { shard_bytes % 2 ≡ 0 }
    ensures { in_order shard_bytes (λ k. chunk row.new k)
        ≡ laid_out shard_bytes (λ k. chunk row.old k) }
{
    let half = shard_bytes % 64 / 2;
    if half > 0 {
        // All 32 bytes are moved, because the bytes after the shard may have any value.
        let chunk = &mut row[shard_bytes / 64];
        let high = load_32(&chunk[32..]);
        put_32(chunk, half, high);
    }
}

/// Returns the shard of `shard_bytes` bytes that is in the first bytes of a row.
pub fn shard_of(row: &[[u8; 64]], shard_bytes: usize) -> &[u8]
    requires { length row.now ≡ row_len shard_bytes }
    ensures { result.now ≡ in_order shard_bytes (λ k. chunk row.now k) }
{
    let bytes = row.as_flattened();
    &bytes[..shard_bytes]
}

/// Returns whether a row is zero in each column that shards of `shard_bytes` bytes have. The bytes of the last chunk
/// that no shard of this size uses may have any value. The row has as many chunks as such shards need.
pub fn is_zero_row(row: &[[u8; 64]], shard_bytes: usize) -> bool
    requires { length row.now ≡ row_len shard_bytes }
    ensures { IsTrue result ↔ HasZeroColumns shard_bytes (λ k. chunk row.now k) }
{
    let bytes = row.as_flattened();
    let tail = shard_bytes / 64 * 64;
    let half = shard_bytes % 64 / 2;
    are_zero_bytes(&bytes[..tail + half])
        && (half == 0 || are_zero_bytes(&bytes[tail + 32..tail + 32 + half]))
}

// Returns whether all bytes are zero. The loop never ends early, so that the compiler can take many bytes at a time.
fn are_zero_bytes(bytes: &[u8]) -> bool
    ensures { IsTrue result ↔ EachIndex bytes.now (λ b. slice_index bytes.now b ≡ 0) }
{
    let mut bits = 0;
    for byte in bytes {
        bits |= *byte;
    }
    bits == 0
}

/// States that the columns of a shard that lies in a row are the row's symbols.
pub fn layout_laws()
    ensures { LaysColumns }
{}

//! Shards in rows of chunks: how a shard is written into a row, how its tail is moved, and how it is read.
ghost use Rattle.std.specs.Prelude.{◌≡◌, ◌≢◌, ℕ, ◌+◌, ◌*◌, ◌/◌, ◌%◌, ◌<◌, ◌≤◌, length, slice_index, bit_xor};
ghost use Rattle.rs_field.specs.code.Column.{IsShard};
ghost use Rattle.rs_field.specs.rows.Layout.{row_len, laid_out};
ghost use Rattle.rs_field.specs.rows.Rows.{chunk, SameOutside};
ghost use Rattle.rs_field.specs.words.StepBounds.{CountsRows};
ghost use Rattle.rs_rate.specs.values.ChunkCounts.{chunk_count};
ghost use Rattle.rs_rate.specs.rows.ShardRows.{shard_from, row_chunk, shard_laid_out, shard_in_order, IsByteSum};

use rs_field::bytes::are_bytes;
use rs_field::engine::Steps;
use rs_field::engine::layout::{insert, row_len, shard_of, undo_last_chunk_encoding};
use rs_field::engine::utils::xor;

// Writes a shard into row `index` of rows for shards of its size.
#[tactic(auto, using(crate::proofs::rows_lemmas::ShardRowsLemmas::row_end))]
pub(crate) fn insert_at(chunks: &mut [[u8; 64]], shard: &[u8], index: usize)
    requires room { chunk_count (index + 1) (length shard.now) ≤ length chunks.old }
    requires even { length shard.now % 2 ≡ 0 }
    ensures here { shard_laid_out chunks.new (length shard.now) index ≡ shard.now }
    ensures others { (i : ℕ) → i ≢ index
        → shard_laid_out chunks.new (length shard.now) i
        ≡ shard_laid_out chunks.old (length shard.now) i }
{
    let len = row_len(shard.len());
    let start = index * len;
    insert(&mut chunks[start..start + len], shard);
}

// The tail of the row must have been moved: only then do the bytes of the shard lie in order.
#[tactic(auto, using(crate::proofs::rows_lemmas::ShardRowsLemmas::row_end))]
pub(crate) fn shard_at(chunks: &[[u8; 64]], shard_bytes: usize, index: usize) -> &[u8]
    requires { chunk_count (index + 1) shard_bytes ≤ length chunks.now }
    ensures { result.now ≡ shard_in_order chunks.now shard_bytes index }
{
    let len = row_len(shard_bytes);
    let start = index * len;
    shard_of(&chunks[start..start + len], shard_bytes)
}

// Moves the tails of the first `count` rows, and counts one row step for each of them.
pub(crate) fn move_tails(
    steps: &mut Steps,
    chunks: &mut [[u8; 64]],
    count: usize,
    shard_bytes: usize,
)
    requires room { chunk_count count shard_bytes ≤ length chunks.old }
    requires even { shard_bytes % 2 ≡ 0 }
    ensures moved { (i : ℕ) → i < count
        → shard_in_order chunks.new shard_bytes i ≡ shard_laid_out chunks.old shard_bytes i }
    ensures counts { CountsRows count steps.old steps.new }
{
    for i in 0..count {
        steps.row_step();
        move_tail(chunks, i, shard_bytes);
    }
}

// Moves the tail of row `index`.
#[tactic(auto, using(crate::proofs::rows_lemmas::ShardRowsLemmas::row_end))]
pub(crate) fn move_tail(chunks: &mut [[u8; 64]], index: usize, shard_bytes: usize)
    requires room { chunk_count (index + 1) shard_bytes ≤ length chunks.old }
    requires even { shard_bytes % 2 ≡ 0 }
    ensures here { shard_in_order chunks.new shard_bytes index
        ≡ shard_laid_out chunks.old shard_bytes index }
    ensures others { (i k : ℕ) → i ≢ index → k < row_len shard_bytes
        → row_chunk chunks.new shard_bytes i k ≡ row_chunk chunks.old shard_bytes i k }
{
    move_tail_from(chunks, index * row_len(shard_bytes), shard_bytes);
}

// Moves the tail of the shard in the chunks from chunk `start` on.
pub(crate) fn move_tail_from(chunks: &mut [[u8; 64]], start: usize, shard_bytes: usize)
    requires room { start + row_len shard_bytes ≤ length chunks.old }
    requires even { shard_bytes % 2 ≡ 0 }
    ensures length { length chunks.new ≡ length chunks.old }
    ensures here { shard_from chunks.new start shard_bytes
        ≡ laid_out shard_bytes (λ k. chunk chunks.old (start + k)) }
    ensures others { SameOutside start (start + row_len shard_bytes) chunks.old chunks.new }
{
    let end = start + row_len(shard_bytes);
    undo_last_chunk_encoding(&mut chunks[start..end], shard_bytes);
}

// Proves that the shards in rows consist of bytes, before and after their tails are moved. When the program runs, the
// function does nothing.
pub(crate) fn rows_are_bytes(chunks: &[[u8; 64]], count: usize, shard_bytes: usize)
    requires room { chunk_count count shard_bytes ≤ length chunks.now }
    ensures laid_out { (i : ℕ) → i < count
        → IsShard shard_bytes (shard_laid_out chunks.now shard_bytes i) }
    ensures in_order { (i : ℕ) → i < count
        → IsShard shard_bytes (shard_in_order chunks.now shard_bytes i) }
{
    are_bytes(chunks.as_flattened());
}

// Proves that a shard from any chunk on consists of bytes. When the program runs, the function does nothing.
pub(crate) fn parts_are_bytes(chunks: &[[u8; 64]], shard_bytes: usize)
    ensures { (start : ℕ) → start + row_len shard_bytes ≤ length chunks.now
        → IsShard shard_bytes (shard_from chunks.now start shard_bytes) }
{
    are_bytes(chunks.as_flattened());
}

// Adds a shard, byte by byte, to the shard in row `index`, of which the tail has been moved.
#[tactic(auto, using(crate::proofs::rows_lemmas::ShardRowsLemmas::row_end))]
pub(crate) fn add_at(chunks: &mut [[u8; 64]], shard: &[u8], index: usize)
    requires room { chunk_count (index + 1) (length shard.now) ≤ length chunks.old }
    ensures here { IsByteSum (shard_in_order chunks.old (length shard.now) index) shard.now
        (shard_in_order chunks.new (length shard.now) index) }
    ensures others { (i : ℕ) → i ≢ index
        → shard_in_order chunks.new (length shard.now) i
        ≡ shard_in_order chunks.old (length shard.now) i }
{
    let len = row_len(shard.len());
    let start = index * len;
    add_bytes(&mut chunks[start..start + len], shard);
}

// Adds a shard, byte by byte, to the first bytes of a row.
fn add_bytes(row: &mut [[u8; 64]], shard: &[u8])
    requires { length row.old ≡ row_len (length shard.now) }
    ensures { (b : ℕ) → b < length shard.now
        → slice_index (chunk row.new (b / 64)) (b % 64)
        ≡ bit_xor (slice_index (chunk row.old (b / 64)) (b % 64)) (slice_index shard.now b) }
{
    let (whole, tail) = shard.as_chunks::<64>();
    let (chunks, last) = row.split_at_mut(whole.len());
    xor(chunks, whole);
    if !tail.is_empty() {
        xor(last, &[chunk_of(tail)]);
    }
}

fn chunk_of(bytes: &[u8]) -> [u8; 64]
    requires { length bytes.now ≤ 64 }
    ensures { (i : ℕ) → i < length bytes.now → slice_index result i ≡ slice_index bytes.now i }
{
    let mut chunk = [0; 64];
    chunk[..bytes.len()].copy_from_slice(bytes);
    chunk
}

//! Computes the digests of many blocks, which are added piece by piece.
ghost use Rattle.std.specs.Prelude.{◌≡◌, ◌≢◌, ℕ, ◌<◌, ◌++◌, slice_index_or, List, IfOk, OnOk, length, map, flat_map};
ghost use Rattle.rs_field.specs.code.Column.{Shard, shard_at};
ghost use Rattle.sha2.specs.Hashers.{Holds256};
ghost use Rattle.sha2.specs.Sha256.{sha256};
ghost use Rattle.sha2.specs.declared.Sha256.{Sha256 as Hasher};
ghost use Rattle.rs_volumes.specs.Hashing.{AreHashed, joined, emptied, empty_blocks};

use sha2::{Digest, Sha256};
use std::alloc::{AllocError, Global};

/// Returns new hashers for `count` blocks, which have taken no bytes.
///
/// # Errors
///
/// [`AllocError`] if memory cannot be allocated.
pub fn new_hashers(alloc: Global, count: usize) -> Result<Vec<Sha256>, AllocError>
    ensures { IfOk result (λ hashers. AreHashed hashers.items (empty_blocks count)) }
{
    let mut hashers = Vec::new(alloc);
    for _ in 0..count {
        hashers.push(Sha256::new())?;
    }
    Ok(hashers)
}

/// Adds the next piece of each block to the hasher of this block. Nothing is added for the blocks that `marks` marks.
/// If `marks` is too short, the other blocks are not marked.
pub fn absorb(hashers: &mut Vec<Sha256>, marks: &[bool], pieces: &[Vec<u8>])
    requires { length hashers.old.items ≡ length pieces.now }
    ensures hashed { (blocks : List Shard) → AreHashed hashers.old.items blocks
        → AreHashed hashers.new.items
        (joined blocks (emptied marks.now (map (λ piece. piece.items) pieces.now))) }
    ensures number { length hashers.new.items ≡ length hashers.old.items }
{
    for index in 0..pieces.len() {
        hashers[index].update(unmarked_piece(marks, pieces, index));
    }
}

fn unmarked_piece<'a>(marks: &[bool], pieces: &'a [Vec<u8>], index: usize) -> &'a [u8]
    requires { index < length pieces.now }
    ensures { result.now ≡ shard_at (emptied marks.now (map (λ piece. piece.items) pieces.now)) index }
{
    let piece = pieces[index].as_slice();
    if index >= marks.len() {
        return piece;
    }
    if marks[index] { &[] } else { piece }
}

/// Appends the digest of each block to `digests`. Then each hasher starts a new block.
///
/// # Errors
///
/// [`AllocError`] if memory cannot be allocated.
pub fn finish(hashers: &mut Vec<Sha256>, digests: &mut Vec<u8>) -> Result<(), AllocError>
    ensures { (blocks : List Shard) → AreHashed hashers.old.items blocks
        → OnOk result (digests.new.items ≡ digests.old.items ++ flat_map sha256 blocks) }
{
    for index in 0..hashers.len() {
        let digest = hashers[index].finalize_reset();
        digests.extend_from_slice(&digest)?;
    }
    Ok(())
}

/// Adds the next piece of the block `index` to its hasher.
pub fn absorb_one(hashers: &mut Vec<Sha256>, index: usize, piece: &[u8])
    requires { index < length hashers.old.items }
    ensures number { length hashers.new.items ≡ length hashers.old.items }
    ensures here { (d : Hasher) (bytes : Shard)
        → Holds256 (slice_index_or hashers.old.items index d) bytes
        → Holds256 (slice_index_or hashers.new.items index d) (bytes ++ piece.now) }
    ensures others { (i : ℕ) (d : Hasher) → i ≢ index
        → slice_index_or hashers.new.items i d ≡ slice_index_or hashers.old.items i d }
{
    hashers[index].update(piece);
}

/// Returns the digest of the block `index`. Then the hasher of this block starts a new block.
pub fn finish_one(hashers: &mut Vec<Sha256>, index: usize) -> [u8; 32]
    requires { index < length hashers.old.items }
    ensures number { length hashers.new.items ≡ length hashers.old.items }
    ensures digest { (d : Hasher) (bytes : Shard)
        → Holds256 (slice_index_or hashers.old.items index d) bytes → result ≡ sha256 bytes }
    ensures others { (i : ℕ) (d : Hasher) → i ≢ index
        → slice_index_or hashers.new.items i d ≡ slice_index_or hashers.old.items i d }
{
    hashers[index].finalize_reset()
}

//! The blocks of a set that may be used: those whose bytes had the right digest.
ghost use Rattle.std.specs.Prelude.{◌≡◌, ◌≢◌, ◌↔◌, ◌/◌, ◌<◌, ℕ, Some, None, IsTrue, IsFalse};
ghost use Rattle.std.specs.Prelude.{IfOk, length, slice_index_or};
ghost use Rattle.rs_volumes.specs.Computed.{digest_at};
ghost use Rattle.rs_volumes.specs.Found.{AreRight, HaveSameDigest, IsFound};

use crate::digest::is_digest;
use crate::hasher::ComputedDigest;
use std::alloc::{AllocError, Global};

/// The blocks of a set that were found, with the place of each. `P` is the type of a place.
///
/// Only [`FoundBlocks::note`] and [`FoundBlocks::note_equal`] note a block as found, and both compare digests. So each
/// block that was found has its digest: the bytes that were read have the SHA-256 that the description of the set says.
#[derive(Drop)]
pub struct FoundBlocks<P> {
    /// The digests of the blocks of the set, 32 bytes each.
    pub digests: Vec<u8>,
    /// The place of each block that was found. `None` means that the block was not found.
    pub places: Vec<Option<P>>,
    ghost right: { AreRight digests.items places.items },
}

impl<P: Copy> FoundBlocks<P> {
    /// Returns the blocks of a set with these digests, 32 bytes each. No block has been found. `count` is the number of
    /// blocks.
    ///
    /// # Errors
    ///
    /// [`AllocError`] if memory cannot be allocated.
    pub fn new(alloc: Global, digests: &[u8], count: usize) -> Result<FoundBlocks<P>, AllocError>
        ensures digests { IfOk result (λ found. found.digests.items ≡ digests.now) }
        ensures count { IfOk result (λ found. length found.places.items ≡ count) }
        ensures none { IfOk result (λ found. (i : ℕ) → IsFound found.places.items i → ⊥) }
    {
        let digests = Vec::from_slice(alloc, digests)?;
        let places = vec![in alloc; None; count]?;
        Ok(FoundBlocks { digests, places })
    }

    /// Returns whether a block was found.
    pub fn has(&self, index: usize) -> bool
        ensures { IsTrue result ↔ IsFound self.now.places.items index }
    {
        index < self.places.len() && self.places[index].is_some()
    }

    /// Notes that a block is at a place, if `own` is the digest of the block. `own` was computed from the bytes at this
    /// place. If the block was found before, its first place is kept. Returns whether `own` is the digest of the block.
    pub fn note(&mut self, index: usize, own: &ComputedDigest, place: P) -> bool
        ensures right { IsTrue result ↔ (index < length self.old.digests.items / 32)
            × (digest_at self.old.digests.items index ≡ own.now.bytes) }
        ensures noted { IsTrue result → index < length self.old.places.items
            → (IsFound self.old.places.items index → ⊥)
            → slice_index_or self.new.places.items index None ≡ Some place }
        ensures kept { IsFound self.old.places.items index → self.new ≡ self.old }
        ensures others { (i : ℕ) → i ≢ index → slice_index_or self.new.places.items i None
            ≡ slice_index_or self.old.places.items i None }
        ensures wrong { IsFalse result → self.new ≡ self.old }
        ensures count { length self.new.places.items ≡ length self.old.places.items }
        ensures digests { self.new.digests ≡ self.old.digests }
    {
        let is_right = is_digest(self.digests.as_slice(), index, &own.bytes);
        if is_right && index < self.places.len() && self.places[index].is_none() {
            self.places[index] = Some(place);
        }
        is_right
    }

    /// Notes that a block is at a place, if the block `other` was found and has the same digest. The bytes at this
    /// place are those of the block `other`. If the block `index` was found before, its first place is kept.
    pub fn note_equal(&mut self, index: usize, other: usize, place: P)
        ensures noted { IsFound self.old.places.items other
            → HaveSameDigest self.old.digests.items index other
            → index < length self.old.places.items → (IsFound self.old.places.items index → ⊥)
            → slice_index_or self.new.places.items index None ≡ Some place }
        ensures kept { IsFound self.old.places.items index → self.new ≡ self.old }
        ensures wrong { (IsFound self.old.places.items other
            × HaveSameDigest self.old.digests.items index other → ⊥) → self.new ≡ self.old }
        ensures others { (i : ℕ) → i ≢ index → slice_index_or self.new.places.items i None
            ≡ slice_index_or self.old.places.items i None }
        ensures count { length self.new.places.items ≡ length self.old.places.items }
        ensures digests { self.new.digests ≡ self.old.digests }
    {
        if !self.has(other) || index >= self.places.len() || self.places[index].is_some() {
            return;
        }
        if has_same_digest(self.digests.as_slice(), index, other) {
            self.places[index] = Some(place);
        }
    }
}

fn has_same_digest(digests: &[u8], one: usize, other: usize) -> bool
    ensures { IsTrue result ↔ HaveSameDigest digests.now one other }
{
    let count = digests.len() / 32;
    one < count
        && other < count
        && digests[32 * one..32 * one + 32] == digests[32 * other..32 * other + 32]
}

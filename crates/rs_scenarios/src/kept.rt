//! The values that a case keeps from one action to the next.
use crate::cases::{Left, Named, Object, Shard, Way};
use crate::watch::Watch;
use anyhow::{Result, ensure};
use reed_solomon_simd::rate::{DecoderWork, EncoderWork};
use reed_solomon_simd::{DecoderResult, EncoderResult};
use std::alloc::Global;
use std::mem;

/// The memory of objects that were taken apart.
#[derive(Drop)]
pub struct Works {
    /// The memory of an encoder.
    pub encoder: Option<EncoderWork>,
    /// The memory of a decoder.
    pub decoder: Option<DecoderWork>,
}

impl Works {
    /// No memory.
    pub const NONE: Works = Works {
        encoder: None,
        decoder: None,
    };
}

/// The message and the last results of a case.
#[derive(Drop)]
pub struct Kept {
    /// The allocator.
    pub alloc: Global,
    /// The way in which the case gets its objects.
    pub way: &'static Named<Way>,
    /// The memory of objects that were taken apart.
    pub works: Works,
    /// The originals of the message.
    pub message: Vec<Shard>,
    /// The recovery shards that the last encoding returned.
    pub recovery: Vec<Shard>,
    /// The originals that the last decoding restored.
    pub restored: Vec<Shard>,
    /// Whether results are forgotten, and not dropped.
    pub forgets: bool,
    /// The numbers of shards that the last call has not taken from its iterators.
    pub left: Left,
}

impl Kept {
    /// Returns an empty value for a case that is run in this way.
    pub fn new(alloc: Global, way: &'static Named<Way>) -> Kept {
        Kept {
            alloc,
            way,
            works: Works::NONE,
            message: Vec::new(alloc),
            recovery: Vec::new(alloc),
            restored: Vec::new(alloc),
            forgets: false,
            left: (0, 0),
        }
    }

    /// Returns the last result of the object: recovery shards of an encoder, and restored originals of a decoder.
    pub fn result(&self, object: Object) -> &[Shard] {
        match object {
            Object::Encoder => self.recovery.as_slice(),
            Object::Decoder => self.restored.as_slice(),
        }
    }

    /// Keeps the recovery shards of a result. The result is checked before the watch ends, and copied after that.
    ///
    /// # Errors
    ///
    /// If the result differs by index and by its iterator, or if memory cannot be allocated for the copies.
    pub fn keep_recovery(&mut self, lent: EncoderResult<'_>, watch: Watch) -> Result<()> {
        let agrees = recovery_agrees(&lent);
        drop(watch);
        self.recovery.clear();
        for (index, shard) in lent.recovery_iter().enumerate() {
            self.recovery.push((index, shard.to_vec(self.alloc)?))?;
        }
        if self.forgets {
            mem::forget(lent);
        }
        ensure!(agrees, "the result differs by index, walk and counts");
        Ok(())
    }

    /// Keeps the restored originals of a result. The result is checked before the watch ends, and copied after that.
    ///
    /// # Errors
    ///
    /// If the result differs by index and by its iterator, or if memory cannot be allocated for the copies.
    pub fn keep_restored(&mut self, lent: DecoderResult<'_>, watch: Watch) -> Result<()> {
        let agrees = restored_agrees(&lent);
        drop(watch);
        self.restored.clear();
        for (index, shard) in lent.restored_original_iter() {
            self.restored.push((index, shard.to_vec(self.alloc)?))?;
        }
        if self.forgets {
            mem::forget(lent);
        }
        ensure!(agrees, "the result differs by index, walk and counts");
        Ok(())
    }
}

// Returns whether the iterator of an encoder's result returns the recovery shards by their indexes, counts them, and
// stays at its end, and whether the result has no other shard.
fn recovery_agrees(lent: &EncoderResult<'_>) -> bool {
    let mut walk = lent.recovery_iter();
    let all = walk.len();
    for index in 0..all {
        let counts = has_left(&walk, all - index);
        let shard = walk.next();
        if !counts || shard.is_none() || shard != lent.recovery(index) {
            return false;
        }
    }
    let ends = has_left(&walk, 0) && walk.next().is_none() && walk.next().is_none();
    let others = [lent.recovery(all), lent.recovery(usize::MAX)];
    ends && has_left(&walk, 0) && others == [None, None]
}

// Returns whether the iterator of a decoder's result returns the restored originals by their indexes, counts them, and
// stays at its end, and whether the result has no other shard.
fn restored_agrees(lent: &DecoderResult<'_>) -> bool {
    let mut walk = lent.restored_original_iter();
    let all = walk.len();
    for walked in 0..all {
        let counts = has_left(&walk, all - walked);
        let (index, shard) = walk.next().unwrap_or((usize::MAX, &[]));
        if !counts || lent.restored_original(index) != Some(shard) {
            return false;
        }
    }
    let ends = has_left(&walk, 0) && walk.next().is_none() && walk.next().is_none();
    let restored = (0..65536).filter(|index| lent.restored_original(*index).is_some());
    ends && has_left(&walk, 0)
        && restored.count() == all
        && lent.restored_original(usize::MAX).is_none()
}

// Returns whether an iterator has `left` items left, by `len` and by `size_hint`.
fn has_left<I: ExactSizeIterator>(walk: &I, left: usize) -> bool {
    walk.len() == left && walk.size_hint() == (left, Some(left))
}

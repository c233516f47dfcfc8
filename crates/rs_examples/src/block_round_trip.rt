//! A round trip of blocks in memory: recovery blocks are created, blocks are lost, and the original blocks come back.
ghost use Rattle.std.specs.Prelude.{◌≡◌, ◌+◌, ◌<◌, ◌%◌, ◌^◌, ℕ, false, length, map, Ok, IfOk, IfErr};
ghost use Rattle.reed_solomon_simd.specs.Column.{shard_at};
ghost use Rattle.reed_solomon_simd.specs.Configuration.{validation_outcome};
ghost use Rattle.reed_solomon_simd.specs.OneCall.{default_of};
ghost use Rattle.rs_examples.specs.Blocks.{contents, EnoughLeft, SaysNoMemory, ListsLeft};
ghost use Rattle.rs_examples.specs.Losing.{is_lost};

use crate::blocks::Blocks;
use reed_solomon_simd::engine::DefaultEngine;
use rs_volumes::coding_error::CodingError;
use rs_volumes::creating::{Shape, create};
use rs_volumes::restoring::{Plan, restore};
use std::alloc::{AllocError, Global};

/// A block that is lost or damaged: its index, and the bytes that replace it. The recovery blocks have the indexes k to
/// k + r - 1.
pub type Damage = (usize, Vec<u8>);

/// Creates the recovery blocks of original blocks, damages blocks, and restores the original blocks from the blocks
/// that are left. If there are k original blocks of the block size, and at least k of the k + r blocks are left, a call
/// that succeeds returns exactly the original blocks, each as it was.
///
/// # Errors
///
/// - If there are k original blocks of the block size, at least k of the k + r blocks are left, and the counts and the
///   size of a block are valid: only errors of memory that could not be allocated.
/// - Otherwise: the errors of [`create`] and [`restore`].
pub fn round_trip_of_blocks(
    alloc: Global,
    shape: Shape,
    piece_bytes: usize,
    originals: &mut Blocks,
    damage: &[Damage],
    engine: DefaultEngine<'_>,
) -> Result<Blocks, CodingError>
    requires some { 0 < piece_bytes }
    requires chunks { piece_bytes % 64 ≡ 0 }
    ensures same { EnoughLeft shape (contents originals.old) (map (λ lost. lost.0) damage.now)
        → IfOk result (λ back. contents back ≡ contents originals.old) }
    ensures memory { EnoughLeft shape (contents originals.old) (map (λ lost. lost.0) damage.now)
        → validation_outcome
        (default_of shape.original_count shape.recovery_count shape.block_bytes) ≡ Ok tt
        → IfErr result SaysNoMemory }
{
    let (k, r) = (shape.original_count, shape.recovery_count);
    let Some(count) = k.checked_add(r) else {
        return Err(CodingError::Memory);
    };
    let mut stored = Blocks::empty(alloc, count)?;
    let digests = create(alloc, shape, piece_bytes, engine, originals, &mut stored)?;
    damage_blocks(&mut stored, damage)?;
    let lost: Vec<usize> = damage.iter().map(|block| block.0).collect(alloc)?;
    let own = left_numbers(alloc, 0, k, lost.as_slice())?;
    let recovery = left_numbers(alloc, k, r, lost.as_slice())?;
    let wanted = vec![in alloc; true; k]?;
    let plan = Plan {
        originals: own,
        recovery,
        wanted,
    };
    let mut back = Blocks::empty(alloc, k)?;
    restore(
        alloc,
        shape,
        piece_bytes,
        engine,
        &plan,
        &digests,
        &mut stored,
        &mut back,
    )?;
    Ok(back)
}

// Replaces the bytes of blocks. Fails if memory cannot be allocated.
fn damage_blocks(stored: &mut Blocks, damage: &[Damage]) -> Result<(), AllocError>
    ensures number { length stored.new.blocks.items ≡ length stored.old.blocks.items }
    ensures left { (i : ℕ) → is_lost (map (λ lost. lost.0) damage.now) i ≡ false
        → shard_at (contents stored.new) i ≡ shard_at (contents stored.old) i }
{
    for (index, bytes) in damage {
        if *index < stored.blocks.len() {
            stored.blocks[*index] = Vec::from_slice(stored.alloc, bytes.as_slice())?;
        }
    }
    Ok(())
}

// Returns the numbers below `count` of the blocks that are not lost. Block number n has the index `first` + n. `lost`
// are the indexes of the lost blocks.
fn left_numbers(
    alloc: Global,
    first: usize,
    count: usize,
    lost: &[usize],
) -> Result<Vec<usize>, AllocError>
    requires { first + count < 2 ^ 64 }
    ensures { IfOk result (λ numbers. ListsLeft first count lost.now numbers.items) }
{
    let mut numbers = Vec::new(alloc);
    for number in 0..count {
        let index = first + number;
        if !lost.contains(&index) {
            numbers.push(number)?;
        }
    }
    Ok(numbers)
}

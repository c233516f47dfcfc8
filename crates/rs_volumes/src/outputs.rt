//! Blocks that are written piece by piece: the number of bytes that were written of each block, and their digest.
ghost use Rattle.std.specs.Prelude.{◌≡◌, ◌≢◌, ℕ, ◌<◌, [], IfOk, IfErr, OnOk, length};
ghost use Rattle.rs_field.specs.code.Column.{Shard};
ghost use Rattle.rs_field.specs.code.Given.{Shards};
ghost use Rattle.rs_volumes.specs.Failing.{PuttingFails};
ghost use Rattle.rs_volumes.specs.Holding.{Adds, AreFor, AreHeld};

use crate::coding_error::CodingError;
use crate::hashing::{absorb_one, new_hashers};
use crate::pieces::BlockSink;
use sha2::Sha256;
use std::alloc::{AllocError, Global};

/// What was written of each block.
#[derive(Drop)]
pub struct Outputs {
    /// For each block, the number of bytes that were written.
    pub lengths: Vec<usize>,
    /// For each block, a hasher that took these bytes.
    pub hashers: Vec<Sha256>,
}

/// Returns the outputs of `count` blocks of which no byte was written.
///
/// # Errors
///
/// [`AllocError`] if memory cannot be allocated.
pub fn new_outputs(alloc: Global, count: usize) -> Result<Outputs, AllocError>
    ensures number { IfOk result (AreFor count) }
    ensures nothing { IfOk result (λ outputs. (now : Shards) → AreHeld outputs (λ i. []) now now) }
{
    Ok(Outputs {
        lengths: vec![in alloc; 0; count]?,
        hashers: new_hashers(alloc, count)?,
    })
}

/// Writes the next piece of a block, and adds the piece to the hasher of this block.
///
/// # Errors
///
/// - [`CodingError::Memory`] if the block would have more than `usize::MAX` bytes.
/// - [`CodingError::Write`] if the sink fails.
pub fn put_one<W: BlockSink>(
    index: usize,
    piece: &[u8],
    outputs: &mut Outputs,
    sink: &mut W,
) -> Result<(), CodingError>
    requires lengths { index < length outputs.old.lengths.items }
    requires hashers { index < length outputs.old.hashers.items }
    ensures number { (count : ℕ) → AreFor count outputs.old → AreFor count outputs.new }
    ensures held { OnOk result ((held : ℕ → Shard) (before : Shards)
        → AreHeld outputs.old held before (W.written sink.old)
        → (after : ℕ → Shard) × Adds index piece.now held after
        × AreHeld outputs.new after before (W.written sink.new)) }
    ensures fails { IfErr result (λ error. (held : ℕ → Shard) (before : Shards)
        → AreHeld outputs.old held before (W.written sink.old)
        → PuttingFails W.write_may_fail (λ i. i ≡ index) before error) }
    ensures others { (i : ℕ) → i ≢ index → W.written sink.new i ≡ W.written sink.old i }
{
    let start = outputs.lengths[index];
    let Some(end) = start.checked_add(piece.len()) else {
        return Err(CodingError::Memory);
    };
    outputs.lengths[index] = end;
    absorb_one(&mut outputs.hashers, index, piece);
    match sink.put(index, start, piece) {
        Ok(()) => Ok(()),
        Err(error) => Err(CodingError::Write(index, error)),
    }
}

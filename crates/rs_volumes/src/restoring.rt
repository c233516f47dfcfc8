//! Restores blocks of a set from any k of its blocks, piece by piece.
ghost use Rattle.std.specs.Prelude.{◌≡◌, ℕ, ◌+◌, ◌<◌, ◌≤◌, ◌%◌, ◌⊎◌, true, false, List, IfOk, IfErr, OnOk, length};
ghost use Rattle.std.specs.Prelude.{slice_index_or, All, Err, IfNone, IfSome};
ghost use Rattle.sha2.specs.Hashers.{Holds256};
ghost use Rattle.sha2.specs.declared.Sha256.{Sha256 as Hasher};
ghost use Rattle.rs_field.specs.code.Column.{Shard};
ghost use Rattle.rs_field.specs.code.Given.{Shards};
ghost use Rattle.rs_field.specs.code.OneCall.{shards_in};
ghost use Rattle.rs_volumes.specs.Failing.{PuttingFails};
ghost use Rattle.rs_volumes.specs.Found.{IsFound, NamesLost, NamesLostOf, ReadsRight};
ghost use Rattle.rs_volumes.specs.Holding.{AreFor, AreHeld};
ghost use Rattle.rs_volumes.specs.declared.coding_error.CodingError.{CodingError};
ghost use Rattle.rs_volumes.specs.Restoring.{AreOriginals, AreRead, AreRestored, HasDigest, ReadsSet, WritesAll};
ghost use Rattle.rs_volumes.specs.Restoring.{DigestFails, NumbersFail, RestoringFails, StripFails};
ghost use Rattle.rs_volumes.specs.Restoring.{Gets, PutsBack, items_of, bytes_of, piece_of};

use crate::coding_error::CodingError;
use crate::creating::Shape;
use crate::digest::is_digest;
use crate::found::FoundBlocks;
use crate::hashing::finish_one;
use crate::outputs::{Outputs, new_outputs, put_one};
use crate::pieces::{BlockSink, BlockSource};
use reed_solomon_simd::decode_slice;
use reed_solomon_simd::engine::DefaultEngine;
use sha2::Sha256;
use std::alloc::Global;
use std::collections::BTreeMap;

/// The blocks that a restore reads and writes.
#[derive(Drop)]
pub struct Plan {
    /// The original blocks that are read, by their indexes, each once.
    pub originals: Vec<usize>,
    /// The recovery blocks that are read, by their numbers from 0, each once.
    pub recovery: Vec<usize>,
    /// For each of the k original blocks, whether the block is requested. Only requested blocks are written.
    pub wanted: Vec<bool>,
}

// The pieces that were read, each with the number of its original block or recovery block.
#[derive(Drop)]
struct Pieces {
    originals: Vec<(usize, Vec<u8>)>,
    recovery: Vec<(usize, Vec<u8>)>,
}

/// Writes the requested original blocks into the sink. A requested block that is not read is restored from the blocks
/// that are read.
///
/// The function reads `piece_bytes` bytes of each block at a time. After the last piece, it compares the digest of each
/// requested block with the digest in `digests`.
///
/// # Errors
///
/// For each piece, in this order:
///
/// - [`CodingError::Missing`] if the index of a recovery block does not fit into a `usize`.
/// - [`CodingError::Read`] if the source fails.
/// - [`CodingError::Write`] if the sink fails for a requested block that is read.
/// - [`CodingError::Code`] if the plan has recovery blocks, and the code fails. For example, the plan has too few
///   blocks.
/// - [`CodingError::Write`] if the sink fails for a restored block.
///
/// After the last piece, [`CodingError::Digest`] for the first requested block whose written bytes do not have its
/// digest. The function also fails with this error if a requested block is neither read nor restored.
///
/// [`CodingError::Memory`] if memory cannot be allocated, before and between the pieces.
///
/// After an error, the sink may hold the beginnings of requested blocks. All other blocks are as they were.
pub fn restore<S: BlockSource, W: BlockSink>(
    alloc: Global,
    shape: Shape,
    piece_bytes: usize,
    engine: DefaultEngine<'_>,
    plan: &Plan,
    digests: &[u8],
    source: &mut S,
    sink: &mut W,
) -> Result<(), CodingError>
    requires some { 0 < piece_bytes }
    requires chunks { piece_bytes % 64 ≡ 0 }
    // For each requested block, there are bytes with its digest. If the sink is known to have held nothing of the
    // block, it holds these bytes.
    ensures digests { OnOk result
        (AreRestored plan.now.wanted.items digests.now (W.written sink.old)
        (W.written sink.new)) }
    // If the blocks that are read are blocks of a set, the blocks that are written are the originals of this set.
    ensures originals { WritesAll result → (originals recovery : List Shard)
        → ReadsSet shape plan.now (S.blocks source.old) originals recovery
        → AreOriginals plan.now originals (W.written sink.old) (W.written sink.new) }
    ensures fails { IfErr result (RestoringFails shape plan.now digests.now S.read_may_fail
        W.write_may_fail (S.blocks source.old) (W.written sink.old) (W.written sink.new)) }
    ensures others { (i : ℕ) → slice_index_or plan.now.wanted.items i false ≡ false
        → W.written sink.new i ≡ W.written sink.old i }
{
    let wanted = plan.wanted.as_slice();
    let mut outputs = new_outputs(alloc, wanted.len())?;
    let mut start = 0;
    while start < shape.block_bytes {
        let end = start + piece_bytes.min(shape.block_bytes - start);
        let pieces = read_all(alloc, shape, plan, start, end, source)?;
        restore_piece(alloc, shape, engine, wanted, &pieces, &mut outputs, sink)?;
        start = end;
    }
    compare(wanted, digests, &mut outputs.hashers)
}

/// Does what [`restore`] does, and uses a block only if its digest is right: each block of the plan must be in `found`.
///
/// # Errors
///
/// - [`CodingError::NotFound`] for the first original block of the plan that was not found, then for the first recovery
///   block. Then nothing was read or written.
/// - The errors of [`restore`]. If the error is [`CodingError::Missing`], nothing was read or written either.
pub fn restore_found<P: Copy, S: BlockSource, W: BlockSink>(
    alloc: Global,
    shape: Shape,
    piece_bytes: usize,
    engine: DefaultEngine<'_>,
    plan: &Plan,
    found: &FoundBlocks<P>,
    source: &mut S,
    sink: &mut W,
) -> Result<(), CodingError>
    requires some { 0 < piece_bytes }
    requires chunks { piece_bytes % 64 ≡ 0 }
    // The digest of each block that is read was computed from bytes, or a block was not found.
    ensures right { ((error : CodingError) × (result ≡ Err error)
        × NamesLostOf shape plan.now found.now.places.items error)
        ⊎ ReadsRight shape plan.now found.now.digests.items found.now.places.items }
    ensures digests { OnOk result
        (AreRestored plan.now.wanted.items found.now.digests.items (W.written sink.old)
        (W.written sink.new)) }
    ensures originals { WritesAll result → (originals recovery : List Shard)
        → ReadsSet shape plan.now (S.blocks source.old) originals recovery
        → AreOriginals plan.now originals (W.written sink.old) (W.written sink.new) }
    ensures fails { IfErr result (λ error. (NamesLostOf shape plan.now found.now.places.items error
        × (source.new ≡ source.old) × (sink.new ≡ sink.old))
        ⊎ RestoringFails shape plan.now found.now.digests.items S.read_may_fail W.write_may_fail
        (S.blocks source.old) (W.written sink.old) (W.written sink.new) error) }
    ensures others { (i : ℕ) → slice_index_or plan.now.wanted.items i false ≡ false
        → W.written sink.new i ≡ W.written sink.old i }
{
    if let Some(error) = first_lost(plan.originals.as_slice(), 0, found) {
        return Err(error);
    }
    if let Some(error) = first_lost(plan.recovery.as_slice(), shape.original_count, found) {
        return Err(error);
    }
    let digests = found.digests.as_slice();
    restore(
        alloc,
        shape,
        piece_bytes,
        engine,
        plan,
        digests,
        source,
        sink,
    )
}

// Returns the error for the first of these blocks that was not found, or `None` if all of them were. Block number n has
// the index `first` + n.
fn first_lost<P: Copy>(
    numbers: &[usize],
    first: usize,
    found: &FoundBlocks<P>,
) -> Option<CodingError>
    ensures all { IfNone result
        (All (λ n. IsFound found.now.places.items (first + n)) numbers.now) }
    ensures lost { IfSome result (NamesLost found.now.places.items first numbers.now) }
{
    for number in numbers {
        let Some(index) = first.checked_add(*number) else {
            return Some(CodingError::Missing(*number));
        };
        if !found.has(index) {
            return Some(CodingError::NotFound(index));
        }
    }
    None
}

fn read_all<S: BlockSource>(
    alloc: Global,
    shape: Shape,
    plan: &Plan,
    start: usize,
    end: usize,
    source: &mut S,
) -> Result<Pieces, CodingError>
    requires { start ≤ end }
    ensures originals { IfOk result (λ pieces. AreRead 0 plan.now.originals.items start end
        (S.blocks source.old) pieces.originals.items) }
    ensures recovery { IfOk result (λ pieces. AreRead shape.original_count plan.now.recovery.items
        start end (S.blocks source.old) pieces.recovery.items) }
    ensures fails { IfErr result (λ error.
        NumbersFail S.read_may_fail 0 plan.now.originals.items end (S.blocks source.old) error
        ⊎ NumbersFail S.read_may_fail shape.original_count plan.now.recovery.items end
        (S.blocks source.old) error) }
    ensures kept { OnOk result (S.blocks source.new ≡ S.blocks source.old) }
{
    Ok(Pieces {
        originals: read_pieces(alloc, plan.originals.as_slice(), 0, start, end, source)?,
        recovery: read_pieces(
            alloc,
            plan.recovery.as_slice(),
            shape.original_count,
            start,
            end,
            source,
        )?,
    })
}

fn read_pieces<S: BlockSource>(
    alloc: Global,
    numbers: &[usize],
    first: usize,
    start: usize,
    end: usize,
    source: &mut S,
) -> Result<Vec<(usize, Vec<u8>)>, CodingError>
    requires { start ≤ end }
    ensures read { IfOk result (λ pieces. AreRead first numbers.now start end (S.blocks source.old)
        pieces.items) }
    ensures fails { IfErr result (NumbersFail S.read_may_fail first numbers.now end
        (S.blocks source.old)) }
    ensures kept { OnOk result (S.blocks source.new ≡ S.blocks source.old) }
{
    let mut pieces = Vec::new(alloc);
    for number in numbers {
        let Some(index) = first.checked_add(*number) else {
            return Err(CodingError::Missing(*number));
        };
        match source.piece(index, start, end) {
            Ok(piece) => pieces.push((*number, piece))?,
            Err(error) => return Err(CodingError::Read(index, error)),
        }
    }
    Ok(pieces)
}

fn restore_piece<W: BlockSink>(
    alloc: Global,
    shape: Shape,
    engine: DefaultEngine<'_>,
    wanted: &[bool],
    pieces: &Pieces,
    outputs: &mut Outputs,
    sink: &mut W,
) -> Result<(), CodingError>
    requires { AreFor (length wanted.now) outputs.old }
    ensures number { AreFor (length wanted.now) outputs.new }
    ensures back { OnOk result ((held : ℕ → Shard) (before : Shards)
        → AreHeld outputs.old held before (W.written sink.old)
        → (after : ℕ → Shard) × AreHeld outputs.new after before (W.written sink.new)
        × PutsBack shape wanted.now (items_of pieces.now.originals.items)
        (items_of pieces.now.recovery.items) held after) }
    ensures fails { IfErr result (λ error. (held : ℕ → Shard) (before : Shards)
        → AreHeld outputs.old held before (W.written sink.old)
        → StripFails shape wanted.now (items_of pieces.now.originals.items)
        (items_of pieces.now.recovery.items) W.write_may_fail before error) }
    ensures others { (i : ℕ) → slice_index_or wanted.now i false ≡ false
        → W.written sink.new i ≡ W.written sink.old i }
{
    put_read(wanted, pieces.originals.as_slice(), outputs, sink)?;
    if pieces.recovery.is_empty() {
        return Ok(());
    }
    let restored = decode_slice(
        alloc,
        shape.original_count,
        shape.recovery_count,
        pieces.originals.as_slice(),
        pieces.recovery.as_slice(),
        engine,
    )?;
    put_restored(wanted, &restored, outputs, sink)
}

fn put_read<W: BlockSink>(
    wanted: &[bool],
    pieces: &[(usize, Vec<u8>)],
    outputs: &mut Outputs,
    sink: &mut W,
) -> Result<(), CodingError>
    requires { AreFor (length wanted.now) outputs.old }
    ensures number { AreFor (length wanted.now) outputs.new }
    ensures put { OnOk result ((held : ℕ → Shard) (before : Shards)
        → AreHeld outputs.old held before (W.written sink.old)
        → (after : ℕ → Shard) × AreHeld outputs.new after before (W.written sink.new)
        × Gets wanted.now (λ i. piece_of i (items_of pieces.now)) held after) }
    ensures fails { IfErr result (λ error. (held : ℕ → Shard) (before : Shards)
        → AreHeld outputs.old held before (W.written sink.old)
        → PuttingFails W.write_may_fail (λ i. slice_index_or wanted.now i false ≡ true) before
        error) }
    ensures others { (i : ℕ) → slice_index_or wanted.now i false ≡ false
        → W.written sink.new i ≡ W.written sink.old i }
{
    for (index, piece) in pieces {
        if *index < wanted.len() && wanted[*index] {
            put_one(*index, piece.as_slice(), outputs, sink)?;
        }
    }
    Ok(())
}

fn put_restored<W: BlockSink>(
    wanted: &[bool],
    restored: &BTreeMap<usize, Vec<u8>>,
    outputs: &mut Outputs,
    sink: &mut W,
) -> Result<(), CodingError>
    requires { AreFor (length wanted.now) outputs.old }
    ensures number { AreFor (length wanted.now) outputs.new }
    ensures put { OnOk result ((held : ℕ → Shard) (before : Shards)
        → AreHeld outputs.old held before (W.written sink.old)
        → (after : ℕ → Shard) × AreHeld outputs.new after before (W.written sink.new)
        × Gets wanted.now (λ i. bytes_of (shards_in restored.now i)) held after) }
    ensures fails { IfErr result (λ error. (held : ℕ → Shard) (before : Shards)
        → AreHeld outputs.old held before (W.written sink.old)
        → PuttingFails W.write_may_fail (λ i. slice_index_or wanted.now i false ≡ true) before
        error) }
    ensures others { (i : ℕ) → slice_index_or wanted.now i false ≡ false
        → W.written sink.new i ≡ W.written sink.old i }
{
    for (index, is_wanted) in wanted.iter().enumerate() {
        if *is_wanted {
            if let Some(piece) = restored.get(&index) {
                put_one(index, piece.as_slice(), outputs, sink)?;
            }
        }
    }
    Ok(())
}

fn compare(wanted: &[bool], digests: &[u8], hashers: &mut Vec<Sha256>) -> Result<(), CodingError>
    requires { length hashers.old.items ≡ length wanted.now }
    ensures digest { OnOk result ((i : ℕ) (d : Hasher) (bytes : Shard) → i < length wanted.now
        → slice_index_or wanted.now i false ≡ true
        → Holds256 (slice_index_or hashers.old.items i d) bytes
        → HasDigest digests.now i bytes) }
    ensures fails { IfErr result (DigestFails wanted.now digests.now hashers.old.items) }
{
    for (index, is_wanted) in wanted.iter().enumerate() {
        if *is_wanted {
            let own = finish_one(hashers, index);
            if !is_digest(digests, index, &own) {
                return Err(CodingError::Digest(index));
            }
        }
    }
    Ok(())
}

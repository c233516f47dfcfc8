//! Makes the recovery blocks of a set, and the digests of all its blocks, piece by piece.
ghost use Rattle.std.specs.Prelude.{◌≡◌, ℕ, ◌+◌, ◌-◌, ◌<◌, ◌≤◌, ◌%◌, ◌^◌, ◌++◌, ◌⊎◌, Some, IfOk, IfErr, OnOk, length};
ghost use Rattle.std.specs.Prelude.{map};
ghost use Rattle.rs_field.specs.code.Column.{Shard, shard_at};
ghost use Rattle.rs_volumes.specs.Creating.{ArePieces, CreatingFails, IsCreated, IsCreatedExcept, MakesPiece};
ghost use Rattle.rs_volumes.specs.Creating.{PieceFails};
ghost use Rattle.rs_volumes.specs.Failing.{ReadingFails, WritingFails};

use crate::coding_error::CodingError;
use crate::hashing::{absorb, finish, new_hashers};
use crate::pieces::{BlockSink, BlockSource};
use reed_solomon_simd::encode_slice;
use reed_solomon_simd::engine::DefaultEngine;
use sha2::Sha256;
use std::alloc::Global;

/// The numbers of blocks of a set, and the size of a block in bytes.
#[derive(Clone, Copy, Debug)]
pub struct Shape {
    /// The number of original blocks, k.
    pub original_count: usize,
    /// The number of recovery blocks, r.
    pub recovery_count: usize,
    /// The size of a block in bytes.
    pub block_bytes: usize,
}

/// How many bytes of each block are coded at a time, and which digests are not computed.
#[derive(Clone, Copy)]
pub struct Work<'a> {
    /// The number of bytes of each block that are coded at a time.
    pub piece_bytes: usize,
    /// For each original block, whether its digest is known. Such a digest is not computed. If the list is too short,
    /// the digests of the other blocks are computed.
    pub known: &'a [bool],
}

// One hasher for each original block and for each recovery block. Nothing is added to the hasher of an original block
// that is marked.
#[derive(Drop)]
struct Hashers<'a> {
    marks: &'a [bool],
    originals: Vec<Sha256>,
    recovery: Vec<Sha256>,
}

/// Reads all original blocks, and writes all original blocks and recovery blocks into the sink.
///
/// Returns the SHA-256 of each block, 32 bytes each: first the digests of the original blocks, then the digests of the
/// recovery blocks.
///
/// The function reads `piece_bytes` bytes of each original block at a time. The memory that it needs is about
/// (k + r) * `piece_bytes` bytes.
///
/// # Errors
///
/// For each piece, in this order:
///
/// - [`CodingError::Read`] if the source fails.
/// - [`CodingError::Code`] if the code does not support the numbers of blocks or their size, or cannot allocate memory.
/// - [`CodingError::Write`] if the sink fails.
///
/// [`CodingError::Memory`] if memory cannot be allocated, before, between and after the pieces.
///
/// After an error, the sink may hold the beginnings of blocks. The blocks with other indexes are as they were.
pub fn create<S: BlockSource, W: BlockSink>(
    alloc: Global,
    shape: Shape,
    piece_bytes: usize,
    engine: DefaultEngine<'_>,
    source: &mut S,
    sink: &mut W,
) -> Result<Vec<u8>, CodingError>
    requires some { 0 < piece_bytes }
    requires chunks { piece_bytes % 64 ≡ 0 }
    ensures created { IfOk result (λ digests. IsCreated shape (S.blocks source.old)
        (W.written sink.old) (W.written sink.new) digests.items) }
    ensures fails { IfErr result (CreatingFails shape S.read_may_fail W.write_may_fail
        (S.blocks source.old) (W.written sink.old)) }
    ensures others { (i : ℕ) → shape.original_count + shape.recovery_count ≤ i
        → W.written sink.new i ≡ W.written sink.old i }
{
    let work = Work {
        piece_bytes,
        known: &[],
    };
    create_except(alloc, shape, work, engine, source, sink)
}

/// Does what [`create`] does, but does not compute the digests of the original blocks that `work.known` marks. Instead
/// of each of these digests, the function returns the SHA-256 of no bytes. `work.piece_bytes` is the `piece_bytes` of
/// [`create`].
///
/// # Errors
///
/// Fails for a reason of [`create`].
pub fn create_except<S: BlockSource, W: BlockSink>(
    alloc: Global,
    shape: Shape,
    work: Work<'_>,
    engine: DefaultEngine<'_>,
    source: &mut S,
    sink: &mut W,
) -> Result<Vec<u8>, CodingError>
    requires some { 0 < work.piece_bytes }
    requires chunks { work.piece_bytes % 64 ≡ 0 }
    ensures created { IfOk result (λ digests. IsCreatedExcept work.entry.known.now shape
        (S.blocks source.old) (W.written sink.old) (W.written sink.new) digests.items) }
    ensures fails { IfErr result (CreatingFails shape S.read_may_fail W.write_may_fail
        (S.blocks source.old) (W.written sink.old)) }
    ensures others { (i : ℕ) → shape.original_count + shape.recovery_count ≤ i
        → W.written sink.new i ≡ W.written sink.old i }
{
    let piece_bytes = work.piece_bytes;
    let mut hashers = Hashers {
        marks: work.known,
        originals: new_hashers(alloc, shape.original_count)?,
        recovery: new_hashers(alloc, shape.recovery_count)?,
    };
    let mut start = 0;
    while start < shape.block_bytes {
        let end = start + piece_bytes.min(shape.block_bytes - start);
        create_piece(alloc, shape, start, end, engine, source, sink, &mut hashers)?;
        start = end;
    }
    let mut digests = Vec::new(alloc);
    finish(&mut hashers.originals, &mut digests)?;
    finish(&mut hashers.recovery, &mut digests)?;
    Ok(digests)
}

fn create_piece<S: BlockSource, W: BlockSink>(
    alloc: Global,
    shape: Shape,
    start: usize,
    end: usize,
    engine: DefaultEngine<'_>,
    source: &mut S,
    sink: &mut W,
    hashers: &mut Hashers<'_>,
) -> Result<(), CodingError>
    requires order { start < end }
    requires originals { length hashers.old.originals.items ≡ shape.original_count }
    requires recovery { length hashers.old.recovery.items ≡ shape.recovery_count }
    ensures marks { hashers.new.marks.now ≡ hashers.old.marks.now }
    ensures originals { length hashers.new.originals.items ≡ shape.original_count }
    ensures recovery { length hashers.new.recovery.items ≡ shape.recovery_count }
    ensures kept { OnOk result (S.blocks source.new ≡ S.blocks source.old) }
    ensures made { OnOk result (MakesPiece hashers.old.marks.now shape start end
        (S.blocks source.old) (W.written sink.old) (W.written sink.new) hashers.old.originals.items
        hashers.new.originals.items hashers.old.recovery.items hashers.new.recovery.items) }
    ensures fails { IfErr result (PieceFails shape S.read_may_fail W.write_may_fail start end
        (S.blocks source.old) (W.written sink.old)) }
    ensures others { (i : ℕ) → shape.original_count + shape.recovery_count ≤ i
        → W.written sink.new i ≡ W.written sink.old i }
{
    let pieces = read_pieces(alloc, shape.original_count, start, end, source)?;
    let made = encode_slice(
        alloc,
        shape.original_count,
        shape.recovery_count,
        pieces.as_slice(),
        engine,
    )?;
    absorb(&mut hashers.originals, hashers.marks, pieces.as_slice());
    absorb(&mut hashers.recovery, &[], made.as_slice());
    put_pieces(sink, 0, start, pieces.as_slice())?;
    put_pieces(sink, shape.original_count, start, made.as_slice())?;
    Ok(())
}

fn read_pieces<S: BlockSource>(
    alloc: Global,
    count: usize,
    start: usize,
    end: usize,
    source: &mut S,
) -> Result<Vec<Vec<u8>>, CodingError>
    requires { start ≤ end }
    ensures are { IfOk result (λ pieces. ArePieces count start end (S.blocks source.old)
        (map (λ piece. piece.items) pieces.items)) }
    ensures fails { IfErr result (ReadingFails S.read_may_fail count end (S.blocks source.old)) }
    ensures kept { OnOk result (S.blocks source.new ≡ S.blocks source.old) }
{
    let mut pieces = Vec::new(alloc);
    for index in 0..count {
        match source.piece(index, start, end) {
            Ok(piece) => pieces.push(piece)?,
            Err(error) => return Err(CodingError::Read(index, error)),
        }
    }
    Ok(pieces)
}

fn put_pieces<W: BlockSink>(
    sink: &mut W,
    first: usize,
    start: usize,
    pieces: &[Vec<u8>],
) -> Result<(), CodingError>
    requires { first + length pieces.now < 2 ^ 64 }
    ensures put { OnOk result ((i : ℕ) (block : Shard) → i < length pieces.now
        → W.written sink.old (first + i) ≡ Some block → start ≡ length block
        → W.written sink.new (first + i)
        ≡ Some (block ++ shard_at (map (λ piece. piece.items) pieces.now) i)) }
    ensures fails { IfErr result (WritingFails W.write_may_fail first (length pieces.now) start
        (W.written sink.old)) }
    ensures others { (i : ℕ) → (i < first) ⊎ (first + length pieces.now ≤ i)
        → W.written sink.new i ≡ W.written sink.old i }
{
    for (number, piece) in pieces.iter().enumerate() {
        let index = first + number;
        if let Err(error) = sink.put(index, start, piece.as_slice()) {
            return Err(CodingError::Write(index, error));
        }
    }
    Ok(())
}

//! A round trip of files in memory: the files are laid end to end as blocks, blocks are lost, and the files come back.
ghost use Rattle.std.specs.Prelude.{◌≡◌, ◌+◌, ◌<◌, ◌≤◌, ◌%◌, ◌^◌, ◌++◌, ◌∷◌, [], All, length, map, take, replicate};
ghost use Rattle.std.specs.Prelude.{slice_set, Ok, IsOk, IfOk, IfErr, OnOk};
ghost use Rattle.reed_solomon_simd.specs.Column.{shard_at};
ghost use Rattle.reed_solomon_simd.specs.Configuration.{validation_outcome};
ghost use Rattle.reed_solomon_simd.specs.OneCall.{default_of};
ghost use Rattle.rs_volumes.specs.declared.coding_error.CodingError.TheVariants.{Memory};
ghost use Rattle.rs_volumes.specs.Description.{set_of};
ghost use Rattle.rs_volumes.specs.Laid.{data_after, cut_blocks};
ghost use Rattle.rs_volumes.specs.Places.{places_in};
ghost use Rattle.rs_examples.specs.declared.file_round_trip.FilesError.TheVariants.{Places, Coding};
ghost use Rattle.rs_examples.specs.Blocks.{contents, SaysNoMemory};
ghost use Rattle.rs_examples.specs.Files.{bytes_of, AreCut, AreFilesLeft, AreWithin, LacksMemory};

use crate::block_round_trip::{Damage, round_trip_of_blocks};
use crate::blocks::Blocks;
use reed_solomon_simd::engine::DefaultEngine;
use rs_volumes::checking::{LIMIT, round_up, unit_of};
use rs_volumes::coding_error::CodingError;
use rs_volumes::creating::Shape;
use rs_volumes::description::Description;
use rs_volumes::fault::ReadError;
use rs_volumes::pieces::BlockSource;
use rs_volumes::placement::{Place, places_of};
use std::alloc::{AllocError, Global};

/// The reason why files did not come back.
#[derive(Debug, Drop)]
pub enum FilesError {
    /// The description has no places for its files, or memory could not be allocated for them.
    Places(ReadError),
    /// The blocks were not created or restored, or memory could not be allocated.
    Coding(CodingError),
}

impl From<ReadError> for FilesError {
    ghost from_gives = { λ cause error. error ≡ Places cause };

    fn from(error: ReadError) -> FilesError {
        FilesError::Places(error)
    }
}

impl From<CodingError> for FilesError {
    ghost from_gives = { λ cause error. error ≡ Coding cause };

    fn from(error: CodingError) -> FilesError {
        FilesError::Coding(error)
    }
}

impl From<AllocError> for FilesError {
    ghost from_gives = { λ _ error. error ≡ Coding Memory };

    fn from(_error: AllocError) -> FilesError {
        FilesError::Coding(CodingError::Memory)
    }
}

/// Lays the files of a set end to end as original blocks, creates the recovery blocks, damages blocks, restores the
/// original blocks from the blocks that are left, and cuts the files from them. `files` has the bytes of each entry of
/// the description. An entry that is a link or a folder has no bytes.
///
/// If the files have the lengths in the description, the description has as many original blocks as the data of the
/// files has, and at least k of the k + r blocks are left, a call that succeeds returns exactly the files, each as it
/// was.
///
/// # Errors
///
/// - If the conditions above are met, the set has places, and the counts and the size of a block are valid: only errors
///   of memory that could not be allocated.
/// - Otherwise: [`FilesError::Places`] if [`places_of`] fails, and [`FilesError::Coding`] if [`round_trip_of_blocks`]
///   fails or a place is not in the blocks.
pub fn round_trip_of_files(
    alloc: Global,
    description: &Description,
    piece_bytes: usize,
    files: &[Vec<u8>],
    damage: &[Damage],
    engine: DefaultEngine<'_>,
) -> Result<Vec<Vec<u8>>, FilesError>
    requires some { 0 < piece_bytes }
    requires chunks { piece_bytes % 64 ≡ 0 }
    ensures same { AreFilesLeft (set_of description.now) (bytes_of files.now)
        (map (λ lost. lost.0) damage.now)
        → IfOk result (λ back. bytes_of back.items ≡ bytes_of files.now) }
    ensures memory { AreFilesLeft (set_of description.now) (bytes_of files.now)
        (map (λ lost. lost.0) damage.now)
        → IsOk (places_in (set_of description.now))
        → validation_outcome (default_of description.now.original_count
        description.now.recovery_count description.now.block_bytes) ≡ Ok tt
        → IfErr result LacksMemory }
{
    let places = places_of(alloc, description)?;
    let shape = Shape {
        original_count: description.original_count as usize,
        recovery_count: description.recovery_count as usize,
        block_bytes: description.block_bytes as usize,
    };
    let row = lay(alloc, unit_of(description), files)?;
    let mut originals = cut(
        alloc,
        shape.block_bytes,
        shape.original_count,
        row.as_slice(),
    )?;
    let mut back = round_trip_of_blocks(alloc, shape, piece_bytes, &mut originals, damage, engine)?;
    let count = description.entries.len();
    let files = cut_files(alloc, count, places.as_slice(), &mut back)?;
    Ok(files)
}

// Lays files end to end. Each file begins at a multiple of `unit`.
fn lay(alloc: Global, unit: u64, files: &[Vec<u8>]) -> Result<Vec<u8>, CodingError>
    requires some { 0 < unit }
    requires fits { unit ≤ 2 ^ 62 }
    ensures laid { IfOk result (λ row. row.items ≡ data_after unit 0 (bytes_of files.now)) }
    ensures memory { IfErr result SaysNoMemory }
{
    let mut row = Vec::new(alloc);
    for file in files {
        append_file(&mut row, unit, file.as_slice())?;
    }
    Ok(row)
}

// Appends zeros up to the next multiple of `unit`, and then the bytes of a file. Appends nothing if the file has no
// bytes.
fn append_file(row: &mut Vec<u8>, unit: u64, file: &[u8]) -> Result<(), CodingError>
    requires some { 0 < unit }
    requires fits { unit ≤ 2 ^ 62 }
    ensures laid { OnOk result (row.new.items
        ≡ row.old.items ++ data_after unit (length row.old.items) (file.now ∷ [])) }
    ensures memory { IfErr result SaysNoMemory }
{
    if file.is_empty() {
        return Ok(());
    }
    let at = row.len() as u64;
    if at >= LIMIT {
        return Err(CodingError::Memory);
    }
    row.resize(round_up(unit, at) as usize, 0)?;
    row.extend_from_slice(file)?;
    Ok(())
}

// Cuts bytes into `count` blocks of `size` bytes. If there are too few bytes, zeros follow them.
fn cut(alloc: Global, size: usize, count: usize, row: &[u8]) -> Result<Blocks, AllocError>
    ensures { IfOk result (λ made. contents made ≡ cut_blocks size count row.now) }
{
    let mut blocks = Vec::new(alloc);
    let mut rest = row;
    for _ in 0..count {
        let (front, after) = rest.split_at(size.min(rest.len()));
        blocks.push(filled(alloc, size, front)?)?;
        rest = after;
    }
    Ok(Blocks { alloc, blocks })
}

// Returns a block of `size` bytes: these bytes, and zeros after them.
fn filled(alloc: Global, size: usize, front: &[u8]) -> Result<Vec<u8>, AllocError>
    requires { length front.now ≤ size }
    ensures { IfOk result (λ block. block.items ≡ take size (front.now ++ replicate size 0)) }
{
    let mut block = Vec::from_slice(alloc, front)?;
    block.resize(size, 0)?;
    Ok(block)
}

// Cuts files from blocks: each file has the bytes at its places, one place after another.
fn cut_files(
    alloc: Global,
    count: usize,
    places: &[Place],
    blocks: &mut Blocks,
) -> Result<Vec<Vec<u8>>, CodingError>
    requires fits { All (λ place. place.at + place.bytes < 2 ^ 64) places.now }
    requires inside { All (λ place. place.file < count) places.now }
    ensures are { AreWithin (contents blocks.old) places.now
        → IfOk result (λ files. AreCut count places.now (contents blocks.old) (bytes_of files.items)) }
    ensures memory { AreWithin (contents blocks.old) places.now → IfErr result SaysNoMemory }
{
    let mut files = Blocks::empty(alloc, count)?.blocks;
    for place in places {
        let until = place.at + place.bytes;
        match blocks.piece(place.block, place.at as usize, until as usize) {
            Ok(piece) => append_piece(&mut files, place.file, piece.as_slice())?,
            Err(error) => return Err(CodingError::Read(place.block, error)),
        }
    }
    Ok(files)
}

// Appends bytes to a file.
fn append_piece(files: &mut Vec<Vec<u8>>, file: usize, piece: &[u8]) -> Result<(), AllocError>
    requires { file < length files.old.items }
    ensures { OnOk result (bytes_of files.new.items
        ≡ slice_set (bytes_of files.old.items) file
        (shard_at (bytes_of files.old.items) file ++ piece.now)) }
{
    files[file].extend_from_slice(piece)
}

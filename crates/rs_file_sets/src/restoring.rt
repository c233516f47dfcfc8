//! Writes files that are restored from blocks.
ghost use Rattle.rs_field.specs.code.Given.{nothing};

use crate::cutting::{piece_bytes, shape_of};
use crate::scanning::Scan;
use crate::targets::Targets;
use reed_solomon_simd::engine::tables::Tables;
use reed_solomon_simd::engine::{DefaultEngine, EngineKind};
use rs_folders::failure::{Failure, Result};
use rs_folders::hashing::{CHUNK, add_bytes, add_zeros, hash_at};
use rs_folders::output::Part;
use rs_folders::progress::Progress;
use rs_folders::runs::{is_padded, places_in, places_of_piece, run_of};
use rs_folders::source::{FileBlocks, failure_of};
use rs_volumes::coding_error::CodingError;
use rs_volumes::description::Version;
use rs_volumes::digest::is_digest;
use rs_volumes::hasher::ByteHasher;
use rs_volumes::pieces::BlockSink;
use rs_volumes::placement::Place;
use rs_volumes::restoring::{Plan, restore_found};
use std::alloc::{AllocError, Global};
use std::io;
use std::io::{ErrorKind, Read, Seek, SeekFrom};
use std::rt::{Clock, Files};

/// A sink that writes blocks into the files that are restored.
#[derive(Drop)]
struct FileSink<'a, 'b, 'c, R: Files + Eprint> {
    /// The files that are restored.
    targets: &'a mut Targets<'b, R>,
    /// Where the original blocks lie in the files.
    places: &'c [Place],
    /// Whether the bytes of a block that are in no file must be zeros. Version 1 of the format does not require this.
    is_padded: bool,
    /// For each original block that was written, whether a byte outside of all files is not zero, although it must be.
    unpadded: Vec<bool>,
}

impl<'a, 'b, 'c, R: Files + Eprint> FileSink<'a, 'b, 'c, R> {
    fn give_up_unpadded(&mut self) {
        for place in self.places {
            if self.unpadded.get(place.block).copied().unwrap_or(false) {
                let reason = "bytes of its blocks that belong to no file are not zero";
                let error = io::Error::new(ErrorKind::InvalidData, reason);
                self.targets.give_up(place.file, error);
            }
        }
    }
}

impl<'a, 'b, 'c, R: Files + Eprint> BlockSink for FileSink<'a, 'b, 'c, R> {
    ghost written = { λ _. nothing };

    fn put(&mut self, index: usize, start: usize, piece: &[u8]) -> io::Result<()> {
        let start = start as u64;
        let places = places_in(self.places, index);
        if self.is_padded && !is_padded(places, start, piece) {
            if let Some(unpadded) = self.unpadded.get_mut(index) {
                *unpadded = true;
            }
        }
        for place in places_of_piece(places, start, piece.len()) {
            let Some(run) = run_of(place, start, piece.len()) else {
                continue;
            };
            let bytes = piece.get(run.from..run.to).unwrap_or(&[]);
            if let Err(error) = self.targets.write(run.file, run.offset, bytes) {
                self.targets.give_up(run.file, error);
            }
        }
        Ok(())
    }
}

// Returns the plan for requested original blocks. If all of them were found, only these are read. Otherwise, all
// original blocks that were found are read, and as many recovery blocks as original blocks are lost.
fn plan_for(alloc: Global, scan: &Scan, wanted: Vec<bool>) -> Result<Plan, AllocError> {
    let loses_wanted = loses(scan, &wanted);
    let count = if loses_wanted { scan.counts().lost } else { 0 };
    let (mut originals, mut recovery) = (Vec::new(alloc), Vec::new(alloc));
    for (index, origin) in scan.found.places.iter().enumerate() {
        if origin.is_none() {
            continue;
        }
        match wanted.get(index) {
            Some(is_wanted) if loses_wanted || *is_wanted => originals.push(index)?,
            None if recovery.len() < count => recovery.push(index.saturating_sub(wanted.len()))?,
            _ => {}
        }
    }
    Ok(Plan {
        originals,
        recovery,
        wanted,
    })
}

// Returns whether one of the requested blocks was not found.
fn loses(scan: &Scan, wanted: &[bool]) -> bool {
    for (index, is_wanted) in wanted.iter().enumerate() {
        if *is_wanted && !scan.found.has(index) {
            return true;
        }
    }
    false
}

// Returns marks of the original blocks that must be written: those with bytes of a file that has a part.
fn wanted_blocks<R: Files>(
    alloc: Global,
    scan: &Scan,
    parts: &[Option<Part<R>>],
) -> Result<Vec<bool>, AllocError> {
    let mut wanted = vec![in alloc; false; scan.description().original_count as usize]?;
    for place in &scan.places {
        if matches!(parts.get(place.file), Some(Some(_))) {
            if let Some(is_wanted) = wanted.get_mut(place.block) {
                *is_wanted = true;
            }
        }
    }
    Ok(wanted)
}

/// Writes the blocks of the files that have a part, and compares each block with its digest. The function gives up a
/// file if its bytes cannot be written, if its restored bytes are wrong, or if its blocks have other bytes than zeros
/// that are in no file. It still writes the other files.
///
/// `memory` is the number of bytes that the function may use, approximately. `shown` says whether to show progress.
///
/// # Errors
///
/// Fails if a block cannot be read or restored, or if memory cannot be allocated.
pub fn write_blocks<'a, R: Files + Clock + Eprint>(
    rt: &'a R,
    alloc: Global,
    scan: &'a Scan,
    targets: &mut Targets<'_, R>,
    memory: u64,
    shown: bool,
) -> Result<()> {
    let wanted = wanted_blocks(alloc, scan, targets.parts.as_slice())?;
    let plan = plan_for(alloc, scan, wanted)?;
    let mut sink = FileSink {
        targets,
        places: scan.places.as_slice(),
        is_padded: scan.description().version == Version::Second,
        unpadded: vec![in alloc; false; plan.wanted.len()]?,
    };
    let mut source = source_of(rt, alloc, scan, &plan, shown);
    if !restore_blocks(alloc, scan, &plan, memory, &mut source, &mut sink)? {
        give_up_wrong(rt, alloc, scan, sink.targets)?;
    }
    sink.give_up_unpadded();
    Ok(())
}

/// Restores the lost original blocks of a scan, and writes them into a sink. At least as many recovery blocks must have
/// been found. `memory` and `shown` are those of [`write_blocks`].
///
/// # Errors
///
/// Fails if a block cannot be read, restored or written, if a restored block does not have its digest, or if memory
/// cannot be allocated.
pub fn restore_lost<'a, R: Files + Clock + Eprint, W: BlockSink>(
    rt: &'a R,
    alloc: Global,
    scan: &'a Scan,
    sink: &mut W,
    memory: u64,
    shown: bool,
) -> Result<()> {
    let mut wanted = vec![in alloc; false; scan.description().original_count as usize]?;
    for block in scan.lost(alloc)? {
        if let Some(is_wanted) = wanted.get_mut(block) {
            *is_wanted = true;
        }
    }
    let plan = plan_for(alloc, scan, wanted)?;
    let mut source = source_of(rt, alloc, scan, &plan, shown);
    if restore_blocks(alloc, scan, &plan, memory, &mut source, sink)? {
        Ok(())
    } else {
        Err(Failure::of("a restored block does not have its digest"))
    }
}

// Returns the source of the blocks that a plan reads. The progress counts their bytes.
fn source_of<'a, R: Files + Clock + Eprint>(
    rt: &'a R,
    alloc: Global,
    scan: &'a Scan,
    plan: &Plan,
    shown: bool,
) -> FileBlocks<'a, R> {
    let blocks = (plan.originals.len() as u64).saturating_add(plan.recovery.len() as u64);
    let total = blocks.saturating_mul(scan.description().block_bytes);
    let holders = scan.holders(scan.found.places.as_slice());
    FileBlocks::new(rt, alloc, holders, Progress::new(rt, shown, total))
}

// Restores the blocks of a plan into a sink. Returns whether all restored blocks have their digests.
fn restore_blocks<R: Files + Clock + Eprint, W: BlockSink>(
    alloc: Global,
    scan: &Scan,
    plan: &Plan,
    memory: u64,
    source: &mut FileBlocks<'_, R>,
    sink: &mut W,
) -> Result<bool> {
    let tables = Tables::new(alloc)?;
    let engine = DefaultEngine::new(&tables, EngineKind::Ssse3);
    let shape = shape_of(scan.description());
    let piece = piece_bytes(&shape, memory);
    let found = &scan.found;
    let outcome = restore_found(alloc, shape, piece, engine, plan, found, source, sink);
    source.end();
    match outcome {
        Ok(()) => Ok(true),
        // The error names only the first block without its digest.
        Err(CodingError::Digest(_)) => Ok(false),
        Err(error) => Err(failure_of(alloc, source.path_of(&error), "", error)),
    }
}

// Compares each restored file with its own digest, and gives up the files that do not have it.
fn give_up_wrong<R: Files + Eprint>(
    rt: &R,
    alloc: Global,
    scan: &Scan,
    targets: &mut Targets<'_, R>,
) -> Result<(), AllocError> {
    let mut buffer = vec![in alloc; 0u8; CHUNK]?;
    for file in 0..targets.parts.len() {
        let checked = match targets.parts.get_mut(file) {
            Some(Some(part)) => check_bytes(rt, scan, file, part, &mut buffer),
            _ => Ok(()),
        };
        if let Err(error) = checked {
            targets.give_up(file, error);
        }
    }
    Ok(())
}

fn check_bytes<R: Files>(
    rt: &R,
    scan: &Scan,
    file: usize,
    part: &mut Part<R>,
    buffer: &mut [u8],
) -> io::Result<()> {
    let is_right = has_digests(part.open(rt)?, scan, file, buffer)?;
    part.close_again();
    if is_right {
        return Ok(());
    }
    let reason =
        "its restored bytes do not have their digest: a file changed while it was read, or the volume is wrong";
    Err(io::Error::new(ErrorKind::InvalidData, reason))
}

// Returns whether a restored file has the right bytes. A set of version 1 has no digests of files, so for such a set
// the digests of the blocks are compared.
fn has_digests<F: Read + Seek>(
    handle: &mut F,
    scan: &Scan,
    file: usize,
    buffer: &mut [u8],
) -> io::Result<bool> {
    let description = scan.description();
    if description.version == Version::Second {
        return match description.entries.get(file) {
            Some(entry) => Ok(hash_at(handle, 0, entry.size, buffer)?.bytes == entry.digest),
            None => Ok(false),
        };
    }
    let from = scan.places.partition_point(|place| place.file < file);
    for place in scan.places.iter().skip(from) {
        if place.file != file {
            break;
        }
        let mut hasher = ByteHasher::new();
        handle.seek(SeekFrom::Start(place.offset))?;
        add_bytes(&mut hasher, handle, place.bytes, buffer)?;
        let left = description.block_bytes.saturating_sub(place.bytes);
        add_zeros(&mut hasher, left);
        let own = hasher.finish().bytes;
        if !is_digest(description.digests.as_slice(), place.block, &own) {
            return Ok(false);
        }
    }
    Ok(true)
}

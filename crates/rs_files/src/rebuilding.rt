//! Writes damaged volumes again, from the blocks of their set.
ghost use Rattle.rs_field.specs.code.Given.{nothing};

use crate::creating::written;
use crate::log::Log;
use crate::settings::{Request, STATUS_DAMAGED, STATUS_WHOLE};
use reed_solomon_simd::engine::tables::Tables;
use reed_solomon_simd::engine::{DefaultEngine, EngineKind};
use rs_file_sets::cutting::{piece_bytes, shape_of};
use rs_file_sets::restoring::restore_lost;
use rs_file_sets::scanning::Scan;
use rs_folders::failure::{Failure, Result};
use rs_folders::names::Shown;
use rs_folders::output::Part;
use rs_folders::progress::Progress;
use rs_folders::source::{FileBlocks, Origin, failure_of};
use rs_volume_files::layout::Deal;
use rs_volume_files::volume_sink::{Volumes, numbered_part_of};
use rs_volumes::creating::create as create_blocks;
use rs_volumes::description::Version;
use rs_volumes::digest::digest_of;
use rs_volumes::pieces::BlockSink;
use std::alloc::{AllocError, Global};
use std::io;
use std::io::ErrorKind;
use std::rt::{Files, Runtime};

// Returns the paths of the damaged volumes whose numbers are known. The index of a path is the number of its volume. Of
// several damaged volumes with one number, the first one counts.
fn damaged_paths(alloc: Global, found: &Scan) -> Result<Vec<Option<&str>>, AllocError> {
    let set = found.description();
    let deal = Deal::of(set.original_count, set.recovery_count, set.volumes);
    let mut paths = vec![in alloc; None; deal.volumes as usize]?;
    for volume in &found.volumes {
        if let Some(number) = volume.damage.number {
            if let Some(path) = paths.get_mut(number as usize) {
                if path.is_none() && !volume.damage.is_none() {
                    *path = Some(volume.path.as_str());
                }
            }
        }
    }
    Ok(paths)
}

/// Returns whether [`rebuild`] writes a damaged volume of a scan again, if all files are whole.
pub fn can_rebuild(found: &Scan) -> bool {
    for volume in &found.volumes {
        if volume.damage.number.is_some() && !volume.damage.is_none() {
            return found.description().version == Version::Second;
        }
    }
    false
}

// The permission bits of the file into which lost blocks are restored: only the owner may read it.
const LOST_MODE: u32 = 0o600;

// A sink that writes the lost original blocks of a set into a file, one after another. `lost` are their indexes, in
// order.
#[derive(Drop)]
struct LostBlocks<'a, R: Files> {
    rt: &'a R,
    part: &'a mut Part<R>,
    lost: &'a [usize],
    block_bytes: u64,
}

impl<'a, R: Files> BlockSink for LostBlocks<'a, R> {
    ghost written = { λ _. nothing };

    fn put(&mut self, index: usize, start: usize, piece: &[u8]) -> io::Result<()> {
        match self.lost.binary_search(&index) {
            Ok(number) => {
                let offset = (number as u64).saturating_mul(self.block_bytes);
                let offset = offset.saturating_add(start as u64);
                self.part.write_at(self.rt, offset, piece)
            }
            Err(_) => Err(io::Error::from(ErrorKind::NotFound)),
        }
    }
}

/// Writes the damaged volumes of a scan again, and keeps each damaged one as `NAME.damaged`. If original blocks were
/// not found, the function first restores them into a file beside the first damaged volume, and removes this file in
/// the end. Nothing is written if too many blocks are lost, or if the volumes have version 1. Returns the exit status:
/// `STATUS_WHOLE` if all volumes are whole now, and otherwise `STATUS_DAMAGED`.
///
/// # Errors
///
/// Fails if a block cannot be read or restored, if a volume cannot be written or get its name, or if a block does not
/// have its digest. New volumes that have their final names are then kept, and all others are removed. The damaged
/// volumes that were not replaced have only their own names. Every step fails if memory cannot be allocated.
pub fn rebuild<R: Runtime>(
    rt: &R,
    alloc: Global,
    request: &Request,
    found: &mut Scan,
    log: &mut Log,
) -> Result<u8> {
    let counts = found.counts();
    let is_second = found.description().version == Version::Second;
    let path = match damaged_paths(alloc, found)?.iter().flatten().next() {
        Some(first) if is_second && counts.lost <= counts.recovery => {
            numbered_part_of(alloc, *first, 3)?
        }
        _ if found.has_whole_volumes() => return Ok(STATUS_WHOLE),
        _ => return Ok(STATUS_DAMAGED),
    };
    if counts.lost == 0 {
        let origins = Vec::from_slice(alloc, found.found.places.as_slice())?;
        return rebuild_from(rt, alloc, request, found, origins.as_slice(), log);
    }
    let size = (counts.lost as u64).saturating_mul(found.description().block_bytes);
    let mut part = Part::begin(rt, alloc, path.as_str(), path.clone()?, size, LOST_MODE)?;
    let outcome = rebuild_lost(rt, alloc, request, found, &mut part, log);
    part.remove(rt);
    outcome
}

// Restores the lost blocks into a file, one after another, and writes the volumes. The function appends the path of
// this file to the paths of the scan.
fn rebuild_lost<R: Runtime>(
    rt: &R,
    alloc: Global,
    request: &Request,
    found: &mut Scan,
    part: &mut Part<R>,
    log: &mut Log,
) -> Result<u8> {
    let (lost, block_bytes) = (found.lost(alloc)?, found.description().block_bytes);
    let (holder, path) = (found.paths.len(), part.path.clone()?);
    let mut sink = LostBlocks {
        rt,
        part,
        lost: lost.as_slice(),
        block_bytes,
    };
    let (memory, shown) = (request.memory, request.progress);
    restore_lost(rt, alloc, found, &mut sink, memory, shown)?;
    let mut origins = Vec::from_slice(alloc, found.found.places.as_slice())?;
    for (number, block) in lost.iter().enumerate() {
        if let Some(origin) = origins.get_mut(*block) {
            let offset = (number as u64).saturating_mul(block_bytes);
            *origin = Some(Origin::Volume { holder, offset });
        }
    }
    found.paths.push(path)?;
    rebuild_from(rt, alloc, request, found, origins.as_slice(), log)
}

// Writes the damaged volumes again, if all original blocks can be read. `origins` says where each of them is. Returns
// the exit status.
fn rebuild_from<R: Runtime>(
    rt: &R,
    alloc: Global,
    request: &Request,
    found: &Scan,
    origins: &[Option<Origin>],
    log: &mut Log,
) -> Result<u8> {
    let paths = damaged_paths(alloc, found)?;
    let description = written(alloc, found.description())?;
    if digest_of(description.as_slice()) != found.set.digest {
        return Err(Failure::of("the description of the set has another spelling"));
    }
    let mut volumes = Volumes::new(rt, alloc, found.description(), description.len() as u64);
    let mut kept = Vec::new(alloc);
    let mut outcome = begin(alloc, &paths, &mut volumes);
    if outcome.is_ok() {
        outcome = code(rt, alloc, request, found, origins, &mut volumes);
    }
    if outcome.is_ok() {
        outcome = volumes.describe(description.as_slice());
    }
    if outcome.is_ok() {
        outcome = volumes.replace(&mut kept);
    }
    volumes.remove();
    tell_written(rt, &paths, kept.as_slice(), log)?;
    outcome?;
    let mut damaged = 0usize;
    for volume in &found.volumes {
        damaged = damaged.saturating_add(usize::from(!volume.damage.is_none()));
    }
    if paths.iter().flatten().count() == damaged && found.unreadable.is_empty() {
        Ok(STATUS_WHOLE)
    } else {
        Ok(STATUS_DAMAGED)
    }
}

// `kept` has one path for each volume that was written, in the order of `paths`.
fn tell_written<R: Print>(
    rt: &R,
    paths: &[Option<&str>],
    kept: &[String],
    log: &mut Log,
) -> Result<()> {
    for (path, kept) in paths.iter().flatten().zip(kept) {
        log.add(
            "written",
            ("path", path.as_bytes()),
            Some(("kept", kept.as_bytes())),
        )?;
        if log.is_told {
            let (path, kept) = (Shown(*path), Shown(kept.as_str()));
            println!(rt; "written again: {path}")?;
            println!(rt; "kept: {kept}")?;
        }
    }
    Ok(())
}

fn begin<R: Runtime>(
    alloc: Global,
    paths: &[Option<&str>],
    volumes: &mut Volumes<'_, R>,
) -> Result<()> {
    for path in paths {
        match path {
            Some(path) => volumes.begin(*path, numbered_part_of(alloc, *path, 2)?)?,
            None => volumes.leave_out()?,
        }
    }
    Ok(())
}

// Codes all blocks, and writes them into the volumes. Fails if a block does not have its digest.
fn code<R: Runtime>(
    rt: &R,
    alloc: Global,
    request: &Request,
    found: &Scan,
    origins: &[Option<Origin>],
    volumes: &mut Volumes<'_, R>,
) -> Result<()> {
    let shape = shape_of(found.description());
    if shape.original_count > 0 {
        let blocks = shape.original_count as u64;
        let total = blocks.saturating_mul(found.description().block_bytes);
        let progress = Progress::new(rt, request.progress, total);
        let mut source = FileBlocks::new(rt, alloc, found.holders(origins), progress);
        let tables = Tables::new(alloc)?;
        let engine = DefaultEngine::new(&tables, EngineKind::Ssse3);
        let piece = piece_bytes(&shape, request.memory);
        let outcome = create_blocks(alloc, shape, piece, engine, &mut source, volumes);
        source.end();
        match outcome {
            Ok(digests) if digests.as_slice() == found.description().digests.as_slice() => {}
            Ok(_) => return Err(Failure::of("a block changed while it was read: try again")),
            Err(error) => {
                let (read, written) = (source.path_of(&error), volumes.path_of(&error));
                return Err(failure_of(alloc, read, written, error));
            }
        }
    }
    Ok(())
}

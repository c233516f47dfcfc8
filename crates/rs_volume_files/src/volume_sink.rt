//! New volumes, which are written block by block and get their names when they are whole.
ghost use Rattle.rs_field.specs.code.Given.{nothing};

use crate::layout::{Deal, Layout, first_line};
use crate::volume::is_volume;
use rs_folders::failure::{Failure, Result};
use rs_folders::folders::Folders;
use rs_folders::identity::exists;
use rs_folders::names::{PART as PART_ENDING, shortened};
use rs_folders::output::{Part, at_path, free_path};
use rs_folders::placing::{link_or_rename, settle};
use rs_volumes::coding_error::CodingError;
use rs_volumes::description::Description;
use rs_volumes::digest::digest_of;
use rs_volumes::part::{PART_BYTES, part_bytes, write_part};
use rs_volumes::pieces::BlockSink;
use rs_volumes::record::{BLOCK, PART, RECORD_HEAD_BYTES, RecordHead, write_record_head};
use std::alloc::{AllocError, Global};
use std::io;
use std::io::ErrorKind;
use std::ops::Range;
use std::rt::Files;

/// The permission bits of a volume, before the system takes away those of the user's mask.
const VOLUME_MODE: u32 = 0o666;

/// Checks that a volume may be written at a path: nothing exists there, or `force` is true and an old volume is there.
///
/// # Errors
///
/// If something exists at the path, fails if `force` is false, if the file there cannot be read, or if it is no volume.
/// Every step fails if memory cannot be allocated.
pub fn check_output<R: Files>(rt: &R, alloc: Global, path: &str, force: bool) -> Result<()> {
    if !exists(rt, path) {
        return Ok(());
    }
    if !force {
        return Err(Failure::at(alloc, path, "it exists: use --force to overwrite it"));
    }
    if is_volume(rt, alloc, path)? {
        Ok(())
    } else {
        Err(Failure::at(
            alloc,
            path,
            "this is no volume, so --force does not replace it: name another place with -o, or remove it first",
        ))
    }
}

/// Returns the path of a new volume while it is written. There is only one such path for each volume. So two runs of
/// the program never write one volume at once, and an unfinished volume of a killed run does not seem to belong to a
/// later run.
///
/// # Errors
///
/// [`AllocError`] if memory cannot be allocated.
pub fn part_of(alloc: Global, path: &str) -> Result<String, AllocError> {
    let front = shortened(path);
    format!(in alloc; "{front}.{PART_ENDING}")
}

/// Returns the path of an unfinished file that [`check_parts`] does not look for. `repair` uses the number 2 for a
/// damaged volume that it writes again, and the number 3 for restored blocks. These files say nothing about the other
/// volumes of the set.
///
/// # Errors
///
/// [`AllocError`] if memory cannot be allocated.
pub fn numbered_part_of(alloc: Global, path: &str, number: u32) -> Result<String, AllocError> {
    let front = shortened(path);
    format!(in alloc; "{front}.{PART_ENDING}{number}")
}

/// Checks that no other run of the program writes new volumes at these paths, and that no killed run has left parts of
/// them. The paths are those of all volumes of a command, in order.
///
/// New volumes are begun in order, get their names in order, and are removed in the other order. So as long as the
/// first one is a part, no old volume was replaced. If the first one is no part and another one is, all of them are
/// whole. The message names the part that must be removed first, or renamed first.
///
/// # Errors
///
/// Fails if there is a part. Then the message says what to do. Also fails if memory cannot be allocated.
pub fn check_parts<R: Files>(rt: &R, alloc: Global, paths: &[String]) -> Result<()> {
    let mut has_first = false;
    let mut left: Option<String> = None;
    for (number, path) in paths.iter().enumerate() {
        let part = part_of(alloc, path.as_str())?;
        if exists(rt, part.as_str()) {
            has_first = has_first || number == 0;
            if has_first || left.is_none() {
                left = Some(part);
            }
        }
    }
    let Some(left) = left else {
        return Ok(());
    };
    let reason = if !has_first {
        "another rs_files is giving new volumes their names, or was killed then. The new volumes are \
         whole: if none is at work, rename each NAME.rs_files.part to NAME"
    } else if paths.len() == 1 {
        "another rs_files is writing this volume, or was killed before it was whole: if none is at \
         work, delete this file and run the command again"
    } else {
        "another rs_files is writing new volumes, or was killed before they were whole. No old one was \
         replaced: if none is at work, delete all files NAME.rs_files.part of them, this one first"
    };
    Err(Failure::at(alloc, left.as_str(), reason))
}

/// The volumes that a command writes. This type is also a sink, which writes blocks into these volumes.
#[derive(Drop)]
pub struct Volumes<'a, R: Files + Eprint> {
    rt: &'a R,
    alloc: Global,
    // The unfinished file of each volume, which is open. `None` if the volume is not written.
    parts: Vec<Option<Part<R>>>,
    // How the blocks are dealt to the volumes.
    deal: Deal,
    block_bytes: u64,
    description_bytes: u64,
    // The number of bytes of all volumes that were written so far.
    written: u64,
    // The folders of the volumes.
    folders: Folders,
}

impl<'a, R: Files + Eprint> Volumes<'a, R> {
    /// Returns the volumes of a set, of which none is begun. The description will have `description_bytes` bytes.
    pub fn new(
        rt: &'a R,
        alloc: Global,
        set: &Description,
        description_bytes: u64,
    ) -> Volumes<'a, R> {
        Volumes {
            rt,
            alloc,
            parts: Vec::new(alloc),
            deal: Deal::of(set.original_count, set.recovery_count, set.volumes),
            block_bytes: set.block_bytes,
            description_bytes,
            written: 0,
            folders: Folders::new(alloc),
        }
    }

    fn layout(&self, number: u64) -> Layout {
        Layout {
            blocks: self.deal.blocks_in(number),
            block_bytes: self.block_bytes,
            description_bytes: self.description_bytes,
        }
    }

    /// Begins the next volume, and makes its folder. The volume is written at the path `part`, and gets the path `path`
    /// when it is whole.
    ///
    /// # Errors
    ///
    /// Fails if the folder cannot be made, for a reason of [`Part::begin`], or if memory cannot be allocated.
    pub fn begin(&mut self, path: &str, part: String) -> Result<()> {
        let (rt, alloc) = (self.rt, self.alloc);
        let size = self.layout(self.parts.len() as u64).size();
        self.folders.make_parent(rt, alloc, path)?;
        let part = Part::begin(rt, alloc, path, part, size, VOLUME_MODE)?;
        match self.parts.push(Some(part)) {
            Ok(()) => Ok(()),
            Err(failed) => {
                if let Some(part) = &failed.value {
                    part.remove(rt);
                }
                Err(Failure::from(failed))
            }
        }
    }

    /// Leaves out the next volume: `put` and [`Volumes::describe`] write nothing for it.
    ///
    /// # Errors
    ///
    /// Fails if memory cannot be allocated.
    pub fn leave_out(&mut self) -> Result<()> {
        Ok(self.parts.push(None)?)
    }

    /// Gives all volumes their final names. If `force` is true, old volumes with these names are replaced. All volumes
    /// of a command are in one folder.
    ///
    /// No old volume is replaced before all new volumes and their folder are synced, and all names are checked. The
    /// first volume is renamed and the folder is synced before the others are renamed. So [`check_parts`] is also right
    /// about the files that are left after a loss of power. If the first volume cannot be renamed, no other volume is
    /// renamed. If a later volume cannot be renamed, the others still get their names, so that as many volumes as
    /// possible belong together. If several of these cannot be renamed, the function prints why for all of them but the
    /// last one, and returns the last failure.
    ///
    /// # Errors
    ///
    /// In this order, fails:
    ///
    /// - for each volume, if it cannot be synced,
    /// - for each volume, for a reason of [`check_output`],
    /// - if a volume cannot be renamed.
    pub fn finish(&mut self, force: bool) -> Result<()> {
        self.sync()?;
        self.check(force)?;
        let first = self
            .parts
            .iter()
            .position(|part| part.is_some())
            .unwrap_or(0);
        let others = first.saturating_add(1)..self.parts.len();
        let has_others = !others.is_empty();
        if has_others {
            self.sync_folders();
        }
        self.rename(first)?;
        self.sync_folders();
        let outcome = self.rename_all(others);
        if has_others {
            self.sync_folders();
        }
        outcome
    }

    // Gives the volumes with these numbers their final names. After a failure, the function goes on with the next
    // volume. It prints all failures but the last one, which it returns.
    fn rename_all(&self, numbers: Range<usize>) -> Result<()> {
        let mut outcome: Result<()> = Ok(());
        for number in numbers {
            if let Err(failure) = self.rename(number) {
                if let Err(earlier) = outcome {
                    earlier.tell(self.rt);
                }
                outcome = Err(failure);
            }
        }
        outcome
    }

    /// Gives all volumes their final names. The damaged volumes with these names are kept as `NAME.damaged`. The
    /// function appends their new paths to `kept`, one for each volume that got its final name. It does not check the
    /// damaged volumes, because nothing of them is lost.
    ///
    /// # Errors
    ///
    /// Fails if a volume cannot be synced. Then, for each volume in turn, fails if the damaged one cannot be kept, or
    /// if the new one cannot be renamed. After such an error, this damaged volume and those after it have only their
    /// own names.
    pub fn replace(&mut self, kept: &mut Vec<String>) -> Result<()> {
        self.sync()?;
        let mut outcome = Ok(());
        for part in self.parts.iter().flatten() {
            if outcome.is_ok() {
                outcome = replace_one(self.rt, self.alloc, part, &mut self.folders, kept);
            }
        }
        self.folders.sync(self.rt);
        outcome
    }

    // Syncs the folders of the volumes, and the folders in which these were made.
    fn sync_folders(&mut self) {
        for part in self.parts.iter().flatten() {
            self.folders.note(self.rt, self.alloc, part.path.as_str());
        }
        self.folders.sync(self.rt);
    }

    fn sync(&mut self) -> Result<()> {
        for part in self.parts.iter_mut().flatten() {
            part.sync(self.rt, self.alloc)?;
        }
        Ok(())
    }

    // Checks all final names again, because something may have changed since the volumes were begun.
    fn check(&self, force: bool) -> Result<()> {
        for part in self.parts.iter().flatten() {
            check_output(self.rt, self.alloc, part.path.as_str(), force)?;
        }
        Ok(())
    }

    // Gives a volume its final name. Does nothing if the volume is not written.
    fn rename(&self, number: usize) -> Result<()> {
        match self.parts.get(number) {
            Some(Some(part)) => part.rename(self.rt, self.alloc),
            _ => Ok(()),
        }
    }

    /// Removes the unfinished files of all volumes, that of the first volume last: as long as this file exists,
    /// [`check_parts`] knows that the others need not be whole.
    pub fn remove(&self) {
        for part in self.parts.iter().rev().flatten() {
            part.remove(self.rt);
        }
    }

    /// Returns the path of the volume into which a block could not be written. The path is empty after another error.
    pub fn path_of(&self, error: &CodingError) -> &str {
        let CodingError::Write(index, _) = error else {
            return "";
        };
        let Some((volume, _)) = self.deal.record_of(*index as u64) else {
            return "";
        };
        match self.parts.get(volume as usize) {
            Some(Some(part)) => part.path.as_str(),
            _ => "",
        }
    }

    /// Writes everything but the blocks into all volumes: the line of text, the copies of the description, and the
    /// heads of the block records.
    ///
    /// # Errors
    ///
    /// Fails if the description does not have the length that was given to [`Volumes::new`]. Then, for each volume,
    /// fails if memory cannot be allocated, or if the volume cannot be written.
    pub fn describe(&mut self, description: &[u8]) -> Result<()> {
        if description.len() as u64 != self.description_bytes {
            return Err(Failure::of("the description has another length than expected"));
        }
        let set = digest_of(description);
        let line = first_line(self.alloc)?;
        let copy = copy_of(self.alloc, description, &set)?;
        for number in 0..self.parts.len() {
            let layout = self.layout(number as u64);
            self.write(number, 0, line.as_slice())?;
            for copy_number in 0..layout.copies() {
                self.write(number, layout.copy_at(copy_number), copy.as_slice())?;
            }
            self.write_heads(number, layout, &set)?;
        }
        Ok(())
    }

    /// Returns the number of bytes of all volumes that were not written yet.
    pub fn missing(&self) -> u64 {
        let mut total = 0u64;
        for part in self.parts.iter().flatten() {
            total = total.saturating_add(part.size);
        }
        total.saturating_sub(self.written)
    }

    fn write(&mut self, number: usize, offset: u64, bytes: &[u8]) -> Result<()> {
        match self.parts.get_mut(number) {
            Some(Some(part)) => {
                let written = part.write_at(self.rt, offset, bytes);
                at_path(self.alloc, part.path.as_str(), written)?;
                self.written = self.written.saturating_add(bytes.len() as u64);
                Ok(())
            }
            _ => Ok(()),
        }
    }

    fn write_heads(&mut self, number: usize, layout: Layout, set: &[u8; 32]) -> Result<()> {
        for record in 0..layout.blocks {
            let index = self.deal.block_of(number as u64, record);
            let head = RecordHead {
                kind: BLOCK,
                index: index.min(u64::from(u32::MAX)) as u32,
                body_bytes: layout.block_bytes,
                set: *set,
            };
            let head = write_record_head(self.alloc, &head)?;
            self.write(number, layout.record_at(record), head.as_slice())?;
        }
        Ok(())
    }
}

// Keeps the damaged volume that has the final name of a part, gives the part this name, and appends the path of the
// damaged volume to `kept`.
fn replace_one<R: Files + Eprint>(
    rt: &R,
    alloc: Global,
    part: &Part<R>,
    folders: &mut Folders,
    kept: &mut Vec<String>,
) -> Result<()> {
    let path = part.path.as_str();
    let damaged = free_path(rt, alloc, "", path, "damaged", None)?;
    at_path(alloc, path, link_or_rename(rt, path, damaged.as_str()))?;
    let named = part.rename(rt, alloc);
    if let Some(damaged) = settle(rt, alloc, path, named, Some(damaged), folders)? {
        kept.push(damaged)?;
    }
    Ok(())
}

// Returns a copy of a description: the records of all its parts, one after another.
fn copy_of(alloc: Global, description: &[u8], set: &[u8; 32]) -> Result<Vec<u8>, AllocError> {
    let total = description.len() as u64;
    let mut copy = Vec::new(alloc);
    for index in 0..u32::MAX {
        let start = u64::from(index).saturating_mul(PART_BYTES) as usize;
        let length = part_bytes(index, total) as usize;
        if length == 0 {
            break;
        }
        let bytes = description.get(start..).unwrap_or(&[]);
        let bytes = bytes.get(..length).unwrap_or(&[]);
        put_part(alloc, &mut copy, index, bytes, total, set)?;
    }
    Ok(copy)
}

// Appends the record of a part to a copy. `bytes` are the bytes of the description in this part, and `total` is the
// number of bytes of the whole description.
fn put_part(
    alloc: Global,
    copy: &mut Vec<u8>,
    index: u32,
    bytes: &[u8],
    total: u64,
    set: &[u8; 32],
) -> Result<(), AllocError> {
    let body = write_part(alloc, total, bytes)?;
    let head = RecordHead {
        kind: PART,
        index,
        body_bytes: body.len() as u64,
        set: *set,
    };
    copy.extend_from_slice(write_record_head(alloc, &head)?.as_slice())?;
    copy.extend_from_slice(body.as_slice())
}

impl<'a, R: Files + Eprint> BlockSink for Volumes<'a, R> {
    ghost written = { λ _. nothing };

    fn put(&mut self, index: usize, start: usize, piece: &[u8]) -> io::Result<()> {
        let Some((volume, record)) = self.deal.record_of(index as u64) else {
            return Ok(());
        };
        let offset = self
            .layout(volume)
            .record_at(record)
            .saturating_add(RECORD_HEAD_BYTES as u64)
            .saturating_add(start as u64);
        match self.parts.get_mut(volume as usize) {
            Some(Some(part)) => {
                part.write_at(self.rt, offset, piece)?;
                self.written = self.written.saturating_add(piece.len() as u64);
                Ok(())
            }
            Some(None) => Ok(()),
            None => Err(io::Error::from(ErrorKind::NotFound)),
        }
    }
}

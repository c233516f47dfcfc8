//! Looks for the blocks of a set in its files and in its volumes.
use crate::file_scan::scan_entries;
use rs_folders::failure::{Failure, Result};
use rs_folders::names::paths_of;
use rs_folders::progress::Progress;
use rs_folders::source::{Holders, Origin};
use rs_volume_files::assembly::Set;
use rs_volume_files::scanner::{Scanner, State};
use rs_volume_files::volume::{Volume, Volumes, open_sized};
use rs_volume_files::volume_scan::{Damage, VolumeScan};
use rs_volumes::description::{Description, Version};
use rs_volumes::found::FoundBlocks;
use rs_volumes::placement::{Place, places_of};
use std::alloc::{AllocError, Global};
use std::rt::{Clock, Files};

/// The entries and blocks of a set that were found.
#[derive(Drop)]
pub struct Scan {
    /// The set.
    pub set: Set,
    /// Where the original blocks lie in the files.
    pub places: Vec<Place>,
    /// The blocks that were found, with the place of each: first the original blocks, then the recovery blocks.
    pub found: FoundBlocks<Origin>,
    /// The state of each entry.
    pub states: Vec<State>,
    /// The paths of the entries, and then of the volumes. The path of an entry is empty if its name is not UTF-8, or if
    /// the files were not looked for.
    pub paths: Vec<String>,
    /// The volumes that can be read.
    pub volumes: Vec<ScannedVolume>,
    /// The paths of the volumes that cannot be read.
    pub unreadable: Vec<String>,
}

/// A volume that can be read.
#[derive(Drop)]
pub struct ScannedVolume {
    /// The path of the volume.
    pub path: String,
    /// What is damaged in the volume.
    pub damage: Damage,
}

/// Looks for all blocks of the set of `volumes`: in these volumes and, if `folder` is given, in the files of the set
/// below this folder. `shown` says whether to show progress.
///
/// A block that cannot be read counts as not found, and is not an error. The function prints a message for each file
/// and each volume with such blocks, and for each entry whose name belongs to something else.
///
/// # Errors
///
/// Fails if the block size is 0, if a volume cannot be opened again, or if memory cannot be allocated.
pub fn scan_opened<R: Files + Clock + Eprint>(
    rt: &R,
    alloc: Global,
    volumes: Volumes,
    shown: bool,
    folder: Option<&str>,
) -> Result<Scan> {
    let description = &volumes.set.description;
    if description.block_bytes == 0 {
        return Err(Failure::of("the blocks are empty"));
    }
    let total = bytes_to_read(rt, alloc, &volumes, folder.is_some())?;
    let mut scanner = Scanner::new(alloc, description, Progress::new(rt, shown, total))?;
    let places = places_of(alloc, description)?;
    let (mut paths, states) = scan_files(rt, alloc, description, &places, folder, &mut scanner)?;
    let Volumes {
        set,
        read,
        unreadable,
    } = volumes;
    let mut scan = VolumeScan {
        rt,
        alloc,
        set: &set,
        places: places.as_slice(),
        scanner: &mut scanner,
    };
    let volumes = scan_volumes(alloc, &mut scan, read, &mut paths)?;
    scanner.progress.end(rt);
    let Scanner { found, .. } = scanner;
    Ok(Scan {
        set,
        places,
        found,
        states,
        paths,
        volumes,
        unreadable,
    })
}

// Looks for blocks in the files of a set, and returns the path and the state of each entry. Without a folder, nothing
// is looked for: the paths are empty, and all entries are missing.
fn scan_files<R: Files + Clock + Eprint>(
    rt: &R,
    alloc: Global,
    description: &Description,
    places: &[Place],
    folder: Option<&str>,
    scanner: &mut Scanner,
) -> Result<(Vec<String>, Vec<State>)> {
    let entries = description.entries.as_slice();
    if let Some(folder) = folder {
        let paths = paths_of(alloc, folder, entries)?;
        let states = scan_entries(rt, alloc, description, &paths, places, scanner)?;
        return Ok((paths, states));
    }
    let mut paths = Vec::new(alloc);
    for _ in entries {
        paths.push(String::new(alloc))?;
    }
    Ok((paths, vec![in alloc; State::Missing; entries.len()]?))
}

// Returns how many bytes a scan reads at most. It reads files only if there is a folder in which they are looked for.
fn bytes_to_read<R: Files>(
    rt: &R,
    alloc: Global,
    volumes: &Volumes,
    has_folder: bool,
) -> Result<u64> {
    let description = &volumes.set.description;
    let mut total = 0u64;
    if has_folder {
        total = u64::from(description.original_count).saturating_mul(description.block_bytes);
    }
    for volume in &volumes.read {
        let (_, size) = open_sized(rt, alloc, volume.path.as_str())?;
        total = total.saturating_add(size);
    }
    Ok(total)
}

// Looks for blocks in the volumes, and appends the paths of the volumes to `paths`.
fn scan_volumes<R: Files + Clock + Eprint>(
    alloc: Global,
    scan: &mut VolumeScan<'_, R>,
    volumes: Vec<Volume>,
    paths: &mut Vec<String>,
) -> Result<Vec<ScannedVolume>> {
    let mut scanned = Vec::new(alloc);
    for Volume { path, form } in volumes {
        let damage = scan.scan(path.as_str(), form, paths.len())?;
        scan.scanner.tell_unread(scan.rt, path.as_str());
        paths.push(path.clone()?)?;
        scanned.push(ScannedVolume { path, damage })?;
    }
    Ok(scanned)
}

/// The numbers of blocks that a scan found and did not find.
#[derive(Clone, Copy)]
pub struct Counts {
    /// The number of original blocks that were not found.
    pub lost: usize,
    /// The number of recovery blocks that were found.
    pub recovery: usize,
    /// The number of recovery blocks of the set.
    pub recovery_count: usize,
}

impl Scan {
    /// Returns the description of the set.
    pub fn description(&self) -> &Description {
        &self.set.description
    }

    /// Returns the files and volumes from which blocks are read. `origins` says where each block is.
    pub fn holders<'a>(&'a self, origins: &'a [Option<Origin>]) -> Holders<'a> {
        Holders {
            paths: self.paths.as_slice(),
            follows: &[],
            places: self.places.as_slice(),
            origins,
        }
    }

    /// Returns the original blocks that were not found.
    ///
    /// # Errors
    ///
    /// [`AllocError`] if memory cannot be allocated.
    pub fn lost(&self, alloc: Global) -> Result<Vec<usize>, AllocError> {
        let (originals, _) = self.origins();
        let mut lost = Vec::new(alloc);
        for (block, origin) in originals.iter().enumerate() {
            if origin.is_none() {
                lost.push(block)?;
            }
        }
        Ok(lost)
    }

    // Returns where the original blocks and where the recovery blocks were found.
    fn origins(&self) -> (&[Option<Origin>], &[Option<Origin>]) {
        let places = self.found.places.as_slice();
        let k = (self.description().original_count as usize).min(places.len());
        places.split_at(k)
    }

    /// Counts the blocks that were found.
    pub fn counts(&self) -> Counts {
        let (originals, recovery) = self.origins();
        let mut counts = Counts {
            lost: originals.len(),
            recovery: 0,
            recovery_count: recovery.len(),
        };
        for (index, origin) in self.found.places.iter().enumerate() {
            if origin.is_none() {
                continue;
            }
            if index < originals.len() {
                counts.lost = counts.lost.saturating_sub(1);
            } else {
                counts.recovery = counts.recovery.saturating_add(1);
            }
        }
        counts
    }

    /// Returns for each entry whether it can be restored. A file can be restored if all its blocks were found, or if at
    /// least as many recovery blocks are left as blocks are lost. Other entries have no blocks.
    ///
    /// # Errors
    ///
    /// [`AllocError`] if memory cannot be allocated.
    pub fn restorable(&self, alloc: Global) -> Result<Vec<bool>, AllocError> {
        let mut restorable = vec![in alloc; true; self.states.len()]?;
        let counts = self.counts();
        if counts.lost <= counts.recovery {
            return Ok(restorable);
        }
        for place in &self.places {
            if !self.found.has(place.block) {
                if let Some(own) = restorable.get_mut(place.file) {
                    *own = false;
                }
            }
        }
        Ok(restorable)
    }

    /// Returns whether all volumes can be read and are whole.
    pub fn has_whole_volumes(&self) -> bool {
        for volume in &self.volumes {
            if !volume.damage.is_none() {
                return false;
            }
        }
        self.unreadable.is_empty()
    }

    /// Returns whether the volumes are those of `split`, and no entry of the set was found. A volume of version 1 does
    /// not say how it was made, so volumes of version 1 with original blocks count as those of `split`.
    pub fn is_spread(&self) -> bool {
        let description = self.description();
        if self.has_files() {
            return false;
        }
        if description.version == Version::Second {
            return description.volumes > 1;
        }
        let (originals, _) = self.origins();
        for origin in originals {
            if matches!(origin, Some(Origin::Volume { .. })) {
                return true;
            }
        }
        false
    }

    /// Returns whether one of the entries was found, whole or damaged.
    pub fn has_files(&self) -> bool {
        self.states.contains(&State::Whole) || self.states.contains(&State::Damaged)
    }
}

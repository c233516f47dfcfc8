//! The folders in which a command makes files. It makes these folders, syncs them, and removes the new ones that stay
//! empty.
use crate::failure::{Failure, Result, warn};
use crate::identity::exists;
use crate::names::{folder_to_open, parent_of};
use std::alloc::{AllocError, Global};
use std::fs::OpenFile;
use std::io::ErrorKind;
use std::rt::Files;
use std::{fs, io};

/// If the paths of changed folders have more than this number of bytes together, the folders are synced before further
/// ones are made. So the list takes little memory, also if many files are in deep folders.
const MOST_HELD: u64 = 1 << 24;

// New folders on one path.
#[derive(Drop)]
struct Made {
    // The path of the lowest one.
    path: String,
    // The number of new folders. The others are above the lowest one.
    count: usize,
}

/// The folders in which a command makes files.
///
/// Until a folder is synced, a loss of power can undo the new names in it. Each folder is synced only once, after all
/// files in it have their names, because a sync takes longer than all other work for a small file.
#[derive(Drop)]
pub struct Folders {
    // The folders in which something has got a name since they were synced.
    changed: Vec<String>,
    // The number of bytes of the paths in `changed`.
    held: u64,
    // The folders that did not exist before, in the order in which they were made.
    made: Vec<Made>,
    // The folders that could not be synced. A warning was printed for each of them.
    told: Vec<String>,
}

impl Folders {
    /// Returns a list without folders.
    pub fn new(alloc: Global) -> Folders {
        Folders {
            changed: Vec::new(alloc),
            held: 0,
            made: Vec::new(alloc),
            told: Vec::new(alloc),
        }
    }

    /// Notes that something has got its name at a path. If memory cannot be allocated, the function syncs its folder at
    /// once.
    pub fn note<R: Files + Eprint>(&mut self, rt: &R, alloc: Global, path: &str) {
        if self.add(alloc, path).is_err() {
            let _ = sync_folder(rt, folder_to_open(parent_of(path)));
        }
    }

    // Notes the folder of a path as changed.
    fn add(&mut self, alloc: Global, path: &str) -> Result<(), AllocError> {
        let folder = folder_to_open(parent_of(path));
        let is_last = self
            .changed
            .last()
            .is_some_and(|last| last.as_str() == folder);
        if !is_last {
            self.changed.push(String::from_str(alloc, folder)?)?;
            self.held = self.held.saturating_add(folder.len() as u64);
        }
        Ok(())
    }

    /// Makes the folder of a file, and the folders above it. A new folder is itself a new name in the folder above it,
    /// so this folder is noted, too.
    ///
    /// # Errors
    ///
    /// Fails if a folder cannot be made, or if memory cannot be allocated.
    pub fn make_parent<R: Files + Eprint>(
        &mut self,
        rt: &R,
        alloc: Global,
        path: &str,
    ) -> Result<()> {
        let folder = parent_of(path);
        if folder.is_empty() {
            return Ok(());
        }
        if self.held > MOST_HELD {
            self.sync(rt);
        }
        self.add_missing(rt, alloc, folder)?;
        match fs::create_dir_all(rt, folder) {
            Ok(()) => Ok(()),
            Err(error) => {
                let reason = format_args!("its folder cannot be made: {error}");
                Err(Failure::at(alloc, path, reason))
            }
        }
    }

    // Notes the folders that must be made for the folder at a path, and the folders above them as changed.
    fn add_missing<R: Files>(
        &mut self,
        rt: &R,
        alloc: Global,
        path: &str,
    ) -> Result<(), AllocError> {
        let mut folder = path;
        let mut count = 0usize;
        for _ in 0..path.len() {
            if folder.is_empty() || exists(rt, folder) {
                break;
            }
            self.add(alloc, folder)?;
            count = count.saturating_add(1);
            folder = parent_of(folder);
        }
        if count > 0 {
            let path = String::from_str(alloc, path)?;
            self.made.push(Made { path, count })?;
        }
        Ok(())
    }

    /// Syncs all changed folders, each of them once, and forgets that they changed.
    ///
    /// Some file systems cannot sync a folder. The files in it are whole and have their names nevertheless, so the
    /// function only prints a warning, once for each folder.
    pub fn sync<R: Files + Eprint>(&mut self, rt: &R) {
        // If the list cannot be sorted, a folder can be synced twice.
        let _ = self
            .changed
            .sort_by(|one, other| one.as_str().cmp(other.as_str()));
        let mut last = "";
        for folder in &self.changed {
            if folder.as_str() == last {
                continue;
            }
            last = folder.as_str();
            let is_told = self.told.iter().any(|told| told.as_str() == last);
            if !is_told && !sync_folder(rt, last) {
                if let Ok(folder) = folder.clone() {
                    let _ = self.told.push(folder);
                }
            }
        }
        self.changed.clear();
        self.held = 0;
    }

    /// Removes the new folders that are empty.
    pub fn remove_empty<R: Files>(&mut self, rt: &R) {
        // The last ones come first, so a folder is removed before the folder in which it is.
        for made in self.made.iter().rev() {
            remove_made(rt, made);
        }
    }
}

// Removes new folders on one path, the lowest one first.
fn remove_made<R: Files>(rt: &R, made: &Made) {
    let mut folder = made.path.as_str();
    for _ in 0..made.count {
        // This fails if the folder is not empty.
        let _ = fs::remove_dir(rt, folder);
        folder = parent_of(folder);
    }
}

// Syncs a folder. If this fails, prints a warning and returns false. A folder that does not exist any more is no error.
fn sync_folder<R: Files + Eprint>(rt: &R, folder: &str) -> bool {
    match sync_opened(rt, folder) {
        Err(error) if error.kind() != ErrorKind::NotFound => {
            let reason = format_args!("warning: this folder cannot be synced: {error}");
            warn(rt, folder, reason);
            false
        }
        _ => true,
    }
}

fn sync_opened<R: Files>(rt: &R, folder: &str) -> io::Result<()> {
    fs::open(rt, folder)?.sync_all()
}

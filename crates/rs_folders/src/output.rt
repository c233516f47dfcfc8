//! Unfinished files, which get their final names only when they are whole.
use crate::failure::{Failure, Result};
use crate::identity::{Identity, exists, identity_at, open_found, replaced};
use crate::names::{order_of, path_in, shortened};
use rs_volumes::description::{Description, Entry, Version};
use std::alloc::Global;
use std::fs::{Metadata, OpenFile, OpenOptions};
use std::io::{ErrorKind, Seek, SeekFrom, Write};
use std::os::unix::fs::{MetadataExt, OpenOptionsExt};
use std::rt::Files;
use std::{fs, io};

/// The reason of the failure if there is already an unfinished file for a path.
const AT_WORK: &str =
    "another rs_files is writing this file, or was killed while it wrote it: if none is at work, \
     delete this file and run the command again";

/// An unfinished file, which is called a *part*. Its name is `NAME.rs_files.part`, or `NAME.rs_files.part2` and so on.
/// A long name is cut in these names.
///
/// The file is written, synced and changed through the handle that made it. So if somebody puts another file or a
/// symbolic link in its place, this other file is not changed. Only a part that was closed is opened again by its path,
/// and only if the same file is there.
#[derive(Drop)]
pub struct Part<R: Files> {
    /// The path of the finished file.
    pub path: String,
    /// The number of bytes of the finished file.
    pub size: u64,
    // The path of the unfinished file.
    part: String,
    // The open file, or `None` while it is closed.
    handle: Option<R::File>,
    // The metadata of the file when `close` closed it. `None` if it stays open.
    closed: Option<Metadata>,
    // The permission bits with which the file was made.
    mode: u32,
}

/// Returns the path in `folder` of the first of the names `NAME.SUFFIX`, `NAME.SUFFIX2`, `NAME.SUFFIX3` and so on that
/// is not in use: nothing exists at its path, and no entry or folder of the set has this name. A long `name` is cut in
/// these names, because file systems limit the length of a name.
///
/// # Errors
///
/// Fails if memory cannot be allocated, or if each of these names is in use.
pub fn free_path<R: Files>(
    rt: &R,
    alloc: Global,
    folder: &str,
    name: &str,
    suffix: &str,
    set: Option<&Description>,
) -> Result<String> {
    let front = shortened(name);
    let mut free = format!(in alloc; "{front}.{suffix}")?;
    for number in 2..u32::MAX {
        let path = path_in(alloc, folder, free.as_str())?;
        let is_named = match set {
            Some(set) => is_in_set(alloc, set, free.as_str())?,
            None => false,
        };
        if !is_named && !exists(rt, path.as_str()) {
            return Ok(path);
        }
        free = format!(in alloc; "{front}.{suffix}{number}")?;
    }
    Err(Failure::at(alloc, free.as_str(), "it exists"))
}

// Returns whether an entry of the set has this name, or is in a folder with this name.
fn is_in_set(alloc: Global, set: &Description, name: &str) -> Result<bool> {
    let folder = format!(in alloc; "{name}/")?;
    let (name, folder) = (name.as_bytes(), folder.as_str().as_bytes());
    let entries = set.entries.as_slice();
    let order = |one: &[u8], other: &[u8]| match set.version {
        Version::First => one.cmp(other),
        Version::Second => order_of(one, other),
    };
    let same = entries.binary_search_by(|entry| order(entry.name.as_slice(), name));
    let below = entries.binary_search_by(|entry| order(front_of(entry, folder.len()), folder));
    Ok(same.is_ok() || below.is_ok())
}

// Returns the first `count` bytes of the name of an entry.
fn front_of(entry: &Entry, count: usize) -> &[u8] {
    let name = entry.name.as_slice();
    &name[..count.min(name.len())]
}

/// Returns the value of a call of the system.
///
/// # Errors
///
/// Fails if the call failed. The failure has the path.
pub fn at_path<T>(alloc: Global, path: &str, outcome: io::Result<T>) -> Result<T> {
    match outcome {
        Ok(value) => Ok(value),
        Err(error) => Err(Failure::at(alloc, path, error)),
    }
}

impl<R: Files> Part<R> {
    /// Begins a part of `size` bytes at the path `part`, in a folder that exists. `path` is the path of the finished
    /// file. The part gets the permission bits `mode`, without those that the mask of the user takes away. No file is
    /// replaced: a file at the path `part` can belong to another run of the program, or to the set.
    ///
    /// # Errors
    ///
    /// Fails if something exists at the path `part`, if the part cannot be made, or if memory cannot be allocated. No
    /// new file is left then.
    pub fn begin(
        rt: &R,
        alloc: Global,
        path: &str,
        part: String,
        size: u64,
        mode: u32,
    ) -> Result<Part<R>> {
        let path = String::from_str(alloc, path)?;
        let mut options = OpenOptions::new();
        options.read(true).write(true).create_new(true).mode(mode);
        let handle = match options.open(rt, part.as_str()) {
            Err(error) if error.kind() == ErrorKind::AlreadyExists => {
                return Err(Failure::at(alloc, part.as_str(), AT_WORK));
            }
            opened => at_path(alloc, path.as_str(), opened)?,
        };
        let sized = handle.set_len(size);
        let begun = Part {
            path,
            size,
            part,
            handle: Some(handle),
            closed: None,
            mode,
        };
        match sized {
            Ok(()) => Ok(begun),
            Err(error) => {
                begun.remove(rt);
                Err(Failure::at(alloc, begun.path.as_str(), error))
            }
        }
    }

    /// Removes the part, unless it has its final name. Another file in its place is not removed. It is no error if the
    /// part cannot be removed, because the command has already failed for another reason.
    pub fn remove(&self, rt: &R) {
        let part = self.part.as_str();
        if self.is_at(rt, part) {
            let _ = fs::remove_file(rt, part);
        }
    }

    // Returns whether the file is at a path. A symbolic link to the file does not count.
    fn is_at(&self, rt: &R, path: &str) -> bool {
        let Ok(found) = fs::symlink_metadata(rt, path) else {
            return false;
        };
        match (&self.handle, &self.closed) {
            (Some(handle), _) => match handle.metadata() {
                Ok(own) => Identity::of(&own) == Identity::of(&found),
                Err(_) => false,
            },
            (None, Some(closed)) => is_same(&found, closed, self.mode),
            (None, None) => false,
        }
    }

    /// Closes the file. From now on, [`Part::open`] opens it and [`Part::close_again`] closes it.
    ///
    /// # Errors
    ///
    /// Any error of the system. Then the file stays open.
    pub fn close(&mut self) -> io::Result<()> {
        if let Some(handle) = &self.handle {
            self.closed = Some(handle.metadata()?);
        }
        self.handle = None;
        Ok(())
    }

    /// Closes the file again, if [`Part::close`] has closed it before. Otherwise it stays open.
    pub fn close_again(&mut self) {
        if self.closed.is_some() {
            self.handle = None;
        }
    }

    /// Returns the handle of the file. If the file was closed, the function opens it again.
    ///
    /// # Errors
    ///
    /// Any error of the system. [`ErrorKind::InvalidInput`] if another file is at the path of the file.
    pub fn open(&mut self, rt: &R) -> io::Result<&mut R::File> {
        if self.handle.is_none() {
            let part = self.part.as_str();
            self.handle = Some(open_again(rt, part, &self.closed, self.mode)?);
        }
        match &mut self.handle {
            Some(handle) => Ok(handle),
            None => Err(replaced()),
        }
    }

    /// Writes bytes into the file, from byte `offset` on.
    ///
    /// # Errors
    ///
    /// Fails for a reason of [`Part::open`], or if the bytes cannot be written.
    pub fn write_at(&mut self, rt: &R, offset: u64, bytes: &[u8]) -> io::Result<()> {
        let handle = self.open(rt)?;
        handle.seek(SeekFrom::Start(offset))?;
        handle.write_all(bytes)
    }

    /// Syncs the file.
    ///
    /// # Errors
    ///
    /// Fails for a reason of [`Part::open`], or if the file cannot be synced.
    pub fn sync(&mut self, rt: &R, alloc: Global) -> Result<()> {
        let synced = match self.open(rt) {
            Ok(handle) => handle.sync_all(),
            Err(error) => Err(error),
        };
        at_path(alloc, self.path.as_str(), synced)
    }

    /// Renames the file to its final name. A file with this name is replaced, so the caller must check first whether
    /// this is allowed. Until the folder is synced, a loss of power can undo the new name.
    ///
    /// # Errors
    ///
    /// In this order, fails if:
    ///
    /// - another file is at the path of the part,
    /// - the part cannot be renamed,
    /// - another file has the final name afterwards.
    pub fn rename(&self, rt: &R, alloc: Global) -> Result<()> {
        let (part, path) = (self.part.as_str(), self.path.as_str());
        if !self.is_at(rt, part) {
            return Err(Failure::at(alloc, path, replaced()));
        }
        at_path(alloc, path, fs::rename(rt, part, path))?;
        if self.is_at(rt, path) {
            Ok(())
        } else {
            Err(Failure::at(alloc, path, replaced()))
        }
    }
}

// Opens a part that was closed. `mode` are the permission bits with which it was made, and `closed` is its metadata
// when it was closed.
fn open_again<R: Files>(
    rt: &R,
    part: &str,
    closed: &Option<Metadata>,
    mode: u32,
) -> io::Result<R::File> {
    let found = fs::symlink_metadata(rt, part)?;
    match closed {
        Some(closed) if is_same(&found, closed, mode) => {
            // A pipe that is opened to be read and written does not wait for another program.
            let mut options = OpenOptions::new();
            options.read(true).write(true);
            open_found(rt, &options, part, &found)
        }
        _ => Err(replaced()),
    }
}

// Returns whether `found` is the metadata of a part that was closed. `mode` are the permission bits with which the part
// was made, and `closed` is its metadata when it was closed.
//
// A file system that does not keep permission bits, such as FAT, can also give a file another number after it was
// closed. On such a file system, the number is not compared. There, everybody who may write into a folder may also
// write into each file in it, so nobody gains anything by putting another file at the path of the part.
fn is_same(found: &Metadata, closed: &Metadata, mode: u32) -> bool {
    let keeps_bits = closed.mode() & 0o777 == mode;
    (Identity::of(found) == Identity::of(closed) || !keeps_bits)
        && found.dev() == closed.dev()
        && found.mode() == closed.mode()
        && found.uid() == closed.uid()
        && found.nlink() == closed.nlink()
        && found.len() == closed.len()
}

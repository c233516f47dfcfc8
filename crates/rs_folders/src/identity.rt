//! Which file a path leads to, and opening of exactly this file.
use std::alloc::{AllocError, Global};
use std::fs::{Metadata, OpenFile, OpenOptions};
use std::io::ErrorKind;
use std::os::unix::fs::MetadataExt;
use std::rt::Files;
use std::{fs, io};

/// The device of a file, and the number of the file on this device. They identify the file while it is open.
#[derive(Clone, Copy, PartialEq, Eq, PartialOrd, Ord)]
pub struct Identity {
    device: u64,
    number: u64,
}

impl Identity {
    /// Returns the identity of the file with this metadata.
    pub fn of(metadata: &Metadata) -> Identity {
        Identity {
            device: metadata.dev(),
            number: metadata.ino(),
        }
    }
}

/// Returns whether something exists at a path.
pub fn exists<R: Files>(rt: &R, path: &str) -> bool {
    fs::symlink_metadata(rt, path).is_ok()
}

/// Returns the identity of a file. A symbolic link has the identity of the file to which it leads. Returns `None` if
/// there is no file, or if its metadata cannot be read.
pub fn identity_of<R: Files>(rt: &R, path: &str) -> Option<Identity> {
    fs::metadata(rt, path)
        .ok()
        .map(|metadata| Identity::of(&metadata))
}

/// Returns the identity of what is at a path, which may be a symbolic link. Returns `None` if there is nothing, or if
/// its metadata cannot be read.
pub fn identity_at<R: Files>(rt: &R, path: &str) -> Option<Identity> {
    fs::symlink_metadata(rt, path)
        .ok()
        .map(|metadata| Identity::of(&metadata))
}

/// Returns the identities of the files at these paths, in increasing order. Paths without a file are left out.
///
/// # Errors
///
/// [`AllocError`] if memory cannot be allocated.
pub fn identities<R: Files>(
    rt: &R,
    alloc: Global,
    paths: &[String],
) -> Result<Vec<Identity>, AllocError> {
    let mut found = Vec::new(alloc);
    for path in paths {
        if let Some(own) = identity_of(rt, path.as_str()) {
            found.push(own)?;
        }
    }
    found.sort()?;
    Ok(found)
}

/// Returns whether a path leads to one of the files with these identities, which must be in the order of
/// [`identities`].
pub fn is_one_of<R: Files>(rt: &R, path: &str, identities: &[Identity]) -> bool {
    if identities.is_empty() {
        return false;
    }
    identity_of(rt, path).is_some_and(|own| identities.binary_search(&own).is_ok())
}

/// Returns the error for a file that was found or made at a path, if another file is there now.
pub fn replaced() -> io::Error {
    io::Error::new(ErrorKind::InvalidInput, "another file was put in its place")
}

/// Opens a regular file to read it. `follows` says whether a symbolic link at the path is followed.
///
/// A pipe or a device is not opened: a program that opens a pipe waits until another one writes into it.
///
/// # Errors
///
/// Any error of the system. [`ErrorKind::InvalidInput`] if something else than a regular file is at the path, or if
/// another file is put there before this function has opened it.
pub fn open_regular<R: Files>(rt: &R, path: &str, follows: bool) -> io::Result<R::File> {
    let found = if follows {
        fs::metadata(rt, path)?
    } else {
        fs::symlink_metadata(rt, path)?
    };
    if !found.is_file() {
        return Err(io::Error::new(ErrorKind::InvalidInput, "this is no regular file"));
    }
    let mut options = OpenOptions::new();
    options.read(true);
    open_found(rt, &options, path, &found)
}

/// Opens a file. `found` is the metadata of what was found at its path.
///
/// # Errors
///
/// Any error of the system. [`ErrorKind::InvalidInput`] if the file that was opened is not the one that was found.
pub fn open_found<R: Files>(
    rt: &R,
    options: &OpenOptions,
    path: &str,
    found: &Metadata,
) -> io::Result<R::File> {
    let file = options.open(rt, path)?;
    if Identity::of(&file.metadata()?) == Identity::of(found) {
        Ok(file)
    } else {
        Err(replaced())
    }
}

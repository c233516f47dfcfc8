//! The state of one entry, without the blocks of its set.
use crate::file_scan::look;
use rs_folders::failure::Result;
use rs_folders::hashing::hash_path;
use rs_folders::names::{path_in, text_of};
use rs_folders::placing::leads_away;
use rs_volume_files::scanner::State;
use rs_volumes::description::{Entry, Kind, Version};
use std::alloc::Global;
use std::fs;
use std::fs::Metadata;
use std::os::unix::fs::MetadataExt;
use std::rt::Files;

/// Returns whether a file has the length and the time of an entry. Version 1 has no nanoseconds.
pub fn has_time(entry: &Entry, metadata: &Metadata, version: Version) -> bool {
    metadata.len() == entry.size && has_own_time(entry, metadata, version)
}

/// Returns whether a file has the time of an entry, whatever its length is. Version 1 has no nanoseconds.
pub fn has_own_time(entry: &Entry, metadata: &Metadata, version: Version) -> bool {
    let seconds = u64::from_le_bytes(metadata.mtime().to_le_bytes());
    let has_nanoseconds = match version {
        Version::First => true,
        Version::Second => metadata.mtime_nsec() == i64::from(entry.nanoseconds),
    };
    seconds == entry.seconds && has_nanoseconds
}

/// Returns the state of an entry without reading a file. The state depends only on the length and the time of a file,
/// the target of a symbolic link, and the existence of a folder.
pub fn state_by_time<R: Files>(
    rt: &R,
    alloc: Global,
    entry: &Entry,
    path: &str,
    version: Version,
) -> State {
    let has_its_time = match fs::metadata(rt, path) {
        Ok(found) => has_time(entry, &found, version),
        Err(_) => false,
    };
    match look(rt, alloc, entry, path) {
        Ok(State::Whole) if entry.kind == Kind::File && !has_its_time => State::Damaged,
        Ok(state) => state,
        Err(_) => State::Missing,
    }
}

/// Returns whether an entry of a set of version 2 is whole. A file is read and compared with its own digest. `buffer`
/// is memory for the bytes of the file.
pub fn is_whole<R: Files>(
    rt: &R,
    alloc: Global,
    entry: &Entry,
    path: &str,
    buffer: &mut [u8],
) -> bool {
    if !matches!(look(rt, alloc, entry, path), Ok(State::Whole)) {
        return false;
    }
    if entry.kind != Kind::File || entry.size == 0 {
        return true;
    }
    match hash_path(rt, path, true, entry.size, buffer) {
        Ok(own) => own == entry.digest,
        Err(_) => false,
    }
}

/// Returns whether an entry of a set of version 2 exists below a folder, under its name and with the right bytes. Then
/// a restore need not write it. A file does not count if its path, or a folder in its name, is a symbolic link.
/// `buffer` is memory for the bytes of the file.
///
/// # Errors
///
/// Fails if memory cannot be allocated.
pub fn is_there<R: Files>(
    rt: &R,
    alloc: Global,
    folder: &str,
    entry: &Entry,
    buffer: &mut [u8],
) -> Result<bool> {
    let Some(name) = text_of(entry.name.as_slice()) else {
        return Ok(false);
    };
    if leads_away(rt, alloc, folder, name)? {
        return Ok(false);
    }
    let path = path_in(alloc, folder, name)?;
    let is_link = match fs::symlink_metadata(rt, path.as_str()) {
        Ok(found) => found.is_symlink(),
        Err(_) => false,
    };
    let may_be = is_link == (entry.kind == Kind::Link);
    Ok(may_be && is_whole(rt, alloc, entry, path.as_str(), buffer))
}

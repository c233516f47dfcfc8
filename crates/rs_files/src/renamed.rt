//! The files and folders at the top of a set, and whether the folder of the set was renamed.
use crate::settings::Request;
use rs_file_sets::one_entry::has_time;
use rs_file_sets::scanning::Scan;
use rs_folders::identity::exists;
use rs_folders::names::{path_in, text_of};
use rs_volumes::description::{Description, Entry, Kind, Version};
use std::alloc::{AllocError, Global};
use std::fs;
use std::rt::Files;

// Returns the first part of a name, and the rest after the slash. The rest is empty if the entry is in no folder. Both
// are empty if the name is not UTF-8.
fn parts_of(entry: &Entry) -> (&str, &str) {
    let name = text_of(entry.name.as_slice()).unwrap_or("");
    name.split_once('/').unwrap_or((name, ""))
}

/// The first part of names of a set.
#[derive(Clone, Copy)]
pub struct Top<'a> {
    /// The first part.
    pub name: &'a str,
    /// Whether it is the name of a symbolic link.
    pub is_link: bool,
}

/// Returns the first parts of all names of a set, each once. Names that are not UTF-8 do not count.
///
/// # Errors
///
/// [`AllocError`] if memory cannot be allocated.
pub fn tops_of(alloc: Global, set: &Description) -> Result<Vec<Top<'_>>, AllocError> {
    let mut tops: Vec<Top<'_>> = Vec::new(alloc);
    for entry in &set.entries {
        let (name, rest) = parts_of(entry);
        let is_known = tops.last().is_some_and(|top| top.name == name);
        if !name.is_empty() && !is_known {
            let is_link = rest.is_empty() && entry.kind == Kind::Link;
            tops.push(Top { name, is_link })?;
        }
    }
    Ok(tops)
}

/// Whether the folder of a set was renamed, as far as the places of the files show it.
#[derive(Clone, Copy)]
pub enum Renamed {
    /// Nothing says that the folder was renamed.
    No,
    /// Perhaps the folder was renamed: nothing has its name any more, and a file of the set was found in another
    /// folder, with the same path below this folder.
    Perhaps,
    /// The folder after `--folder` is the renamed folder of the set: it has all files of the set, so no file is lost.
    Here,
}

/// Returns whether the folder of a set was renamed. `folder` is the folder in which the files were looked for, if there
/// is one. `moved` has the indexes of the entries that were found at other places.
///
/// # Errors
///
/// [`AllocError`] if memory cannot be allocated.
pub fn renaming_of<R: Files>(
    rt: &R,
    alloc: Global,
    request: &Request,
    folder: Option<&str>,
    scan: &Scan,
    moved: &[usize],
) -> Result<Renamed, AllocError> {
    let Some(folder) = folder else {
        return Ok(Renamed::No);
    };
    if scan.has_files() || scan.is_spread() || !keeps_rest(scan, moved) {
        return Ok(Renamed::No);
    }
    let tops = tops_of(alloc, scan.description())?;
    for top in &tops {
        let path = path_in(alloc, folder, top.name)?;
        if exists(rt, path.as_str()) {
            return Ok(Renamed::No);
        }
    }
    if request.folder.is_some() && tops.len() == 1 && has_all(rt, alloc, folder, scan, moved)? {
        return Ok(Renamed::Here);
    }
    Ok(Renamed::Perhaps)
}

// Returns whether one of the entries with the indexes `moved` was found in another folder, with the same path below
// this folder.
fn keeps_rest(scan: &Scan, moved: &[usize]) -> bool {
    for index in moved {
        let (entry, path) = (
            scan.description().entries.get(*index),
            scan.paths.get(*index),
        );
        let (Some(entry), Some(path)) = (entry, path) else {
            continue;
        };
        let (_, rest) = parts_of(entry);
        match path.as_str().strip_suffix(rest) {
            Some(front) if !rest.is_empty() && front.ends_with('/') => return true,
            _ => {}
        }
    }
    false
}

// Returns whether the set has at least two files with bytes, and all of them were found and are in `folder` as they
// were in the folder of the set. If the bytes of a file were found at another path, the file in `folder` counts if it
// has the length and the time of the entry.
fn has_all<R: Files>(
    rt: &R,
    alloc: Global,
    folder: &str,
    scan: &Scan,
    moved: &[usize],
) -> Result<bool, AllocError> {
    let mut is_found = vec![in alloc; false; scan.description().entries.len()]?;
    for index in moved {
        if let Some(own) = is_found.get_mut(*index) {
            *own = true;
        }
    }
    let mut count = 0u64;
    let entries = scan.description().entries.iter().zip(&scan.paths);
    for ((entry, path), is_found) in entries.zip(&is_found) {
        if entry.kind != Kind::File || entry.size == 0 {
            continue;
        }
        let (_, rest) = parts_of(entry);
        let here = path_in(alloc, folder, rest)?;
        let mut is_here = here.as_str() == path.as_str();
        if !is_here {
            if let Ok(found) = fs::metadata(rt, here.as_str()) {
                is_here = has_time(entry, &found, Version::Second);
            }
        }
        if !*is_found || !is_here {
            return Ok(false);
        }
        count = count.saturating_add(1);
    }
    Ok(count >= 2)
}

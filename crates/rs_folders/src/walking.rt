//! Finds the files, symbolic links and empty folders of a set.
use crate::counted::Counted;
use crate::failure::{Failure, Result, warn};
use crate::identity::{Identity, identities, identity_of, is_one_of};
use crate::leftovers::LEFT_PART;
use crate::names::{
    folder_to_open, is_part, last_of, order_of, parent_of, path_in, text_of, trimmed,
};
use crate::output::at_path;
use rs_volumes::checking::is_name;
use rs_volumes::description::{Entry, Kind};
use std::alloc::Global;
use std::fs;
use std::fs::Metadata;
use std::io::ErrorKind;
use std::os::unix::fs::{MetadataExt, PermissionsExt};
use std::rt::Files;

/// The entries of a set, and their folder.
#[derive(Drop)]
pub struct Found {
    /// The folder to which the names of the entries are relative.
    pub folder: String,
    /// The entries, in order of their names.
    pub entries: Vec<Entry>,
    /// For each entry, whether it is a file whose path is a symbolic link to it. Only a path that is named may be one.
    pub linked: Vec<bool>,
    /// The folders in which names were left out because they are not UTF-8, and the symbolic links that were left out
    /// because their targets are not UTF-8.
    pub unreadable: Vec<LeftOut>,
    /// Everything else that was left out.
    pub left_out: Vec<LeftOut>,
}

/// Something that was found and is not part of the set.
#[derive(Drop)]
pub struct LeftOut {
    /// The path at which it is.
    pub path: String,
    /// The reason why it is not part of the set.
    pub reason: String,
}

// An entry of the set that was found.
#[derive(Drop)]
struct FoundEntry {
    entry: Entry,
    // Whether the entry is a file whose path is a symbolic link to it.
    is_linked: bool,
}

// A file or folder that must still be visited.
#[derive(Drop)]
struct Waiting {
    path: String,
    // The name in the set. It is empty for the folder of the set.
    name: String,
    // Whether the user named this path.
    is_named: bool,
    // Whether a symbolic link at this path is followed.
    is_followed: bool,
}

// Returns the name of a path in the set. It is empty if the path ends in `.` or `..`: then the path is the folder of
// the set.
fn name_in_set(path: &str) -> &str {
    match last_of(path) {
        "" | "." | ".." => "",
        name => name,
    }
}

// Returns the folder to which the name of a path in the set is relative.
fn folder_of(path: &str) -> &str {
    if name_in_set(path).is_empty() {
        path
    } else {
        parent_of(path)
    }
}

/// Finds all regular files, symbolic links and empty folders at the paths and below them, in order of their names. If
/// one of the paths is itself a symbolic link, the function follows it, unless `kept` marks it: then the link is an
/// entry of the set. A path after the last mark has no mark.
///
/// The function leaves out:
///
/// - names that are not UTF-8, and symbolic links whose targets are not UTF-8, because the program cannot use them. It
///   prints a message for each folder with such names, and for each such link,
/// - below the paths, the old volumes at `outputs`, which new volumes replace,
/// - below the paths, unfinished files,
/// - pipes, sockets and devices.
///
/// # Errors
///
/// Fails if there is no path. Then, for each path in turn, fails if the path is not in the folder of the first path, if
/// the path is an old volume, if a file or folder cannot be read, or if a name is not allowed. At the end, fails if
/// nothing was found, or if an entry is given twice. Every step fails if memory cannot be allocated.
pub fn find<R: Files + Eprint + Alloc + Clone + Drop>(
    rt: &R,
    alloc: Global,
    paths: &[String],
    kept: &[bool],
    outputs: &[String],
) -> Result<Found> {
    let Some(first) = paths.first() else {
        return Err(Failure::of("no file is given"));
    };
    let folder = folder_of(trimmed(first.as_str()));
    let mut walk = FolderWalk::new(rt, alloc, outputs)?;
    for (index, path) in paths.iter().enumerate() {
        let is_followed = !kept.get(index).copied().unwrap_or(false);
        walk.add_path(folder, trimmed(path.as_str()), is_followed)?;
    }
    let FolderWalk {
        found,
        unreadable,
        left_out,
        ..
    } = walk;
    if found.is_empty() {
        return Err(Failure::at(alloc, first.as_str(), "there is nothing to protect"));
    }
    let (entries, linked) = in_order(alloc, found)?;
    Ok(Found {
        folder: String::from_str(alloc, folder_to_open(folder))?,
        entries,
        linked,
        unreadable,
        left_out,
    })
}

// Returns the entries that were found in order of their names, and marks of those whose paths are symbolic links. Fails
// if an entry is given twice.
fn in_order(alloc: Global, mut found: Vec<FoundEntry>) -> Result<(Vec<Entry>, Vec<bool>)> {
    found.sort_by(|one, other| order_of(one.entry.name.as_slice(), other.entry.name.as_slice()))?;
    check_apart(alloc, found.as_slice())?;
    let (mut entries, mut linked) = (Vec::new(alloc), Vec::new(alloc));
    for FoundEntry { entry, is_linked } in found {
        entries.push(entry)?;
        linked.push(is_linked)?;
    }
    Ok((entries, linked))
}

// Returns whether two paths lead to the same folder. Also returns true if the first path leads to no folder: a later
// step reports this.
fn is_same_folder<R: Files>(rt: &R, one: &str, other: &str) -> bool {
    if one == other {
        return true;
    }
    match identity_of(rt, folder_to_open(one)) {
        Some(own) => identity_of(rt, folder_to_open(other)) == Some(own),
        None => true,
    }
}

// Fails if an entry is given twice, or is below another one. The list must be in order of the names.
fn check_apart(alloc: Global, found: &[FoundEntry]) -> Result<()> {
    let mut previous: &[u8] = b"";
    for FoundEntry { entry, .. } in found {
        let name = entry.name.as_slice();
        let is_below = name.strip_prefix(previous).is_some_and(|rest| {
            !previous.is_empty() && (rest.is_empty() || rest.starts_with(b"/"))
        });
        if is_below {
            let name = text_of(previous).unwrap_or("");
            return Err(Failure::at(alloc, name, "this file is given twice"));
        }
        previous = name;
    }
    Ok(())
}

fn left_out(alloc: Global, path: &str, reason: &str) -> Result<LeftOut> {
    Ok(LeftOut {
        path: String::from_str(alloc, path)?,
        reason: String::from_str(alloc, reason)?,
    })
}

// A walk over files and folders.
#[derive(Drop)]
struct FolderWalk<'a, R: Files + Eprint + Alloc + Clone + Drop> {
    rt: &'a R,
    alloc: Global,
    // The old volumes, which are left out, in order.
    written: Vec<Identity>,
    // The files and folders that must still be visited.
    waiting: Vec<Waiting>,
    // The entries that were found.
    found: Vec<FoundEntry>,
    // The folders in which names were left out because they are not UTF-8, and the symbolic links that were left out
    // because their targets are not UTF-8.
    unreadable: Vec<LeftOut>,
    // Everything else that was left out.
    left_out: Vec<LeftOut>,
}

impl<'a, R: Files + Eprint + Alloc + Clone + Drop> FolderWalk<'a, R> {
    // Returns a walk that has visited nothing. `outputs` are the paths of the old volumes.
    fn new(rt: &'a R, alloc: Global, outputs: &[String]) -> Result<FolderWalk<'a, R>> {
        Ok(FolderWalk {
            rt,
            alloc,
            written: identities(rt, alloc, outputs)?,
            waiting: Vec::new(alloc),
            found: Vec::new(alloc),
            unreadable: Vec::new(alloc),
            left_out: Vec::new(alloc),
        })
    }

    // Adds the entries at a path and below it. Fails if the path is not in `folder`, or is that of an old volume.
    fn add_path(&mut self, folder: &str, path: &str, is_followed: bool) -> Result<()> {
        if !is_same_folder(self.rt, folder_of(path), folder) {
            let reason = "the files must be in one folder: give that folder, or the files in it";
            return Err(Failure::at(self.alloc, path, reason));
        }
        if is_one_of(self.rt, path, self.written.as_slice()) {
            let reason =
                "this is a volume that is written: name another place with -o, or another file";
            return Err(Failure::at(self.alloc, path, reason));
        }
        self.waiting.push(Waiting {
            path: String::from_str(self.alloc, path)?,
            name: String::from_str(self.alloc, name_in_set(path))?,
            is_named: true,
            is_followed,
        })?;
        for _ in 0..u64::MAX {
            match self.waiting.pop() {
                None => break,
                Some(next) => self.visit(&next)?,
            }
        }
        Ok(())
    }

    // Adds a file or a link, or lists a folder. Old volumes, pipes, sockets, devices and unfinished files are left out.
    // An unfinished file that the user named is not left out.
    fn visit(&mut self, next: &Waiting) -> Result<()> {
        let path = next.path.as_str();
        let found = at_path(self.alloc, path, fs::symlink_metadata(self.rt, path))?;
        let is_linked = next.is_followed && found.is_symlink();
        let metadata = if is_linked {
            at_path(self.alloc, path, fs::metadata(self.rt, path))?
        } else {
            found
        };
        if metadata.is_dir() {
            self.list(next, &metadata)
        } else if !next.is_named && is_part(last_of(path)) {
            self.leave_out(path, LEFT_PART)
        } else if metadata.is_symlink() {
            self.add_link(next, &metadata)
        } else if !metadata.is_file() {
            self.leave_out(path, "this is a pipe, a socket or a device")
        } else if is_one_of(self.rt, path, self.written.as_slice()) {
            self.leave_out(path, "this is a volume that is replaced")
        } else {
            let entry = self.entry(next, Kind::File, &metadata)?;
            self.add(path, entry, is_linked)
        }
    }

    fn leave_out(&mut self, path: &str, reason: &'static str) -> Result<()> {
        self.left_out.push(left_out(self.alloc, path, reason)?)?;
        Ok(())
    }

    // Leaves out what is not UTF-8, and prints a warning at once.
    fn leave_unread(&mut self, path: &str, reason: String) -> Result<()> {
        warn(self.rt, path, format_args!("{reason}"));
        self.unreadable
            .push(left_out(self.alloc, path, reason.as_str())?)?;
        Ok(())
    }

    // Returns an entry without its target and its digest.
    fn entry(&self, next: &Waiting, kind: Kind, metadata: &Metadata) -> Result<Entry> {
        let nanoseconds = u32::try_from(metadata.mtime_nsec()).unwrap_or(0);
        Ok(Entry {
            kind,
            mode: metadata.permissions().mode() & 0o7777,
            size: if kind == Kind::File {
                metadata.len()
            } else {
                0
            },
            seconds: u64::from_le_bytes(metadata.mtime().to_le_bytes()),
            nanoseconds: nanoseconds.min(999_999_999),
            name: Vec::from_slice(self.alloc, next.name.as_str().as_bytes())?,
            target: Vec::new(self.alloc),
            digest: [0; 32],
        })
    }

    // Adds an entry. Fails if its name is not allowed in a set.
    fn add(&mut self, path: &str, entry: Entry, is_linked: bool) -> Result<()> {
        if !is_name(entry.name.as_slice()) {
            let reason = "a file with this name cannot be part of a set";
            return Err(Failure::at(self.alloc, path, reason));
        }
        self.found.push(FoundEntry { entry, is_linked })?;
        Ok(())
    }

    // Adds a symbolic link, or leaves it out if its target is not UTF-8.
    fn add_link(&mut self, next: &Waiting, metadata: &Metadata) -> Result<()> {
        let path = next.path.as_str();
        let target = match fs::read_link(self.rt, path) {
            Err(error) if error.kind() == ErrorKind::InvalidFilename => {
                let reason = "the target of this symbolic link is not UTF-8: it is left out";
                return self.leave_unread(path, String::from_str(self.alloc, reason)?);
            }
            outcome => at_path(self.alloc, path, outcome)?.into_string(),
        };
        let mut entry = self.entry(next, Kind::Link, metadata)?;
        entry.target = Vec::from_slice(self.alloc, target.as_bytes())?;
        self.add(path, entry, false)
    }

    // Lists a folder. If it is empty, or no name in it is UTF-8, it is added as an empty folder, unless it is the
    // folder of the set.
    fn list(&mut self, folder: &Waiting, metadata: &Metadata) -> Result<()> {
        let path = folder_to_open(folder.path.as_str());
        let (mut count, mut left_out) = (0u64, 0u64);
        for entry in at_path(self.alloc, path, fs::read_dir(self.rt, path))? {
            match entry {
                Ok(entry) => {
                    count = count.saturating_add(1);
                    self.wait_for(folder, entry.file_name())?;
                }
                Err(error) if error.kind() == ErrorKind::InvalidFilename => {
                    left_out = left_out.saturating_add(1);
                }
                Err(error) => return Err(Failure::at(self.alloc, path, error)),
            }
        }
        if left_out > 0 {
            let names = Counted(left_out, "name");
            let reason = format!(in self.alloc;
                "{names} in this folder left out, because this is not UTF-8"
            )?;
            self.leave_unread(path, reason)?;
        }
        if count > 0 || folder.name.as_str().is_empty() {
            return Ok(());
        }
        let entry = self.entry(folder, Kind::Folder, metadata)?;
        self.add(path, entry, false)
    }

    fn wait_for(&mut self, folder: &Waiting, name: &str) -> Result<()> {
        self.waiting.push(Waiting {
            path: path_in(self.alloc, folder.path.as_str(), name)?,
            name: path_in(self.alloc, folder.name.as_str(), name)?,
            is_named: false,
            is_followed: false,
        })?;
        Ok(())
    }
}

//! Where restored entries may be written, and how they get their attributes and their final names.
use crate::failure::{Failure, Result, warn};
use crate::folders::Folders;
use crate::identity::{Identity, exists, identities, identity_at, is_one_of, open_found, replaced};
use crate::names::{Name, PART, path_in, text_of};
use crate::output::{Part, at_path, free_path};
use rs_volumes::description::{Description, Entry, Kind};
use std::alloc::Global;
use std::fs::{FileTimes, Metadata, OpenFile, OpenOptions, Permissions};
use std::io::ErrorKind;
use std::os::unix::fs::{PermissionsExt, symlink};
use std::rt::Files;
use std::time::{Duration, UNIX_EPOCH};
use std::{fs, io};

/// The permission bits that a restored file can get. The other bits would let a program run as the owner or the group
/// of the file, and these can be others after a restore.
const RESTORED_BITS: u32 = 0o777;

/// The permission bits of a file while it is restored: only its owner may read it and write to it.
const PART_MODE: u32 = 0o600;

/// Where restored entries are written.
#[derive(Clone, Copy)]
pub struct Goal<'a> {
    /// The folder below which the entries are written.
    pub folder: &'a str,
    /// Whether the files of the set were looked for in this folder. Then a damaged file is kept as `NAME.damaged`.
    pub in_place: bool,
    /// Whether files that exist are overwritten. This has no effect if `in_place` is true.
    pub force: bool,
    /// The description of the set.
    pub set: &'a Description,
}

// An entry that is restored, with its name and its path.
#[derive(Drop)]
struct Target<'a> {
    entry: &'a Entry,
    name: &'a str,
    // The path of the entry, below the folder of the goal.
    path: String,
}

/// A restore of entries below a folder.
#[derive(Drop)]
pub struct Placing<'a, R: Files + Eprint> {
    rt: &'a R,
    alloc: Global,
    goal: Goal<'a>,
    // The files and volumes that are read, in order. No restored file may replace one of them. The list is empty if no
    // file at all may be replaced.
    inputs: Vec<Identity>,
    // The folders in which entries are restored.
    folders: Folders,
}

impl<'a, R: Files + Eprint> Placing<'a, R> {
    /// Begins a restore. `read` are the paths of the files and volumes that are read.
    ///
    /// # Errors
    ///
    /// Fails if memory cannot be allocated.
    pub fn new(rt: &'a R, alloc: Global, goal: Goal<'a>, read: &[String]) -> Result<Self> {
        let may_replace = !goal.in_place && goal.force;
        let read = if may_replace { read } else { &[] };
        Ok(Placing {
            rt,
            alloc,
            goal,
            inputs: identities(rt, alloc, read)?,
            folders: Folders::new(alloc),
        })
    }

    /// Checks that a file may be written, and begins its part.
    ///
    /// # Errors
    ///
    /// Fails if the name of the file is not UTF-8, if the file may not be written, or if the part cannot be begun.
    pub fn begin_file(&mut self, entry: &Entry) -> Result<Part<R>> {
        let target = self.target(entry)?;
        self.check(&target)?;
        let path = target.path.as_str();
        self.folders.make_parent(self.rt, self.alloc, path)?;
        let part = self.free_path(&target, PART)?;
        Part::begin(self.rt, self.alloc, path, part, entry.size, PART_MODE)
    }

    /// Gives a restored file its permission bits, its time and its final name. Returns the path of the damaged file
    /// that was kept, if there was one.
    ///
    /// If the bits or the time cannot be set, the function only prints a warning: the contents of the file are right,
    /// and some file systems let nobody set them.
    ///
    /// # Errors
    ///
    /// Fails if the file cannot be opened again, synced or renamed, if it may not be written any more, or if the
    /// damaged file cannot be kept. The function then removes the restored file.
    pub fn finish_file(&mut self, mut part: Part<R>, entry: &Entry) -> Result<Option<String>> {
        let outcome = self.name_file(&mut part, entry);
        if outcome.is_err() {
            part.remove(self.rt);
        }
        outcome
    }

    /// Makes an empty folder with its permission bits and its time, or a symbolic link. Returns the path of the damaged
    /// file that was kept, if there was one.
    ///
    /// # Errors
    ///
    /// Fails if the name or the target of a link is not UTF-8, if the entry may not be written, if it cannot be made,
    /// or if the damaged file cannot be kept.
    pub fn make_other(&mut self, entry: &Entry) -> Result<Option<String>> {
        let target = self.target(entry)?;
        self.check(&target)?;
        self.folders
            .make_parent(self.rt, self.alloc, target.path.as_str())?;
        match entry.kind {
            Kind::Link => self.make_link(&target),
            _ => self.make_folder(&target),
        }
    }

    /// Syncs each folder with a new name.
    pub fn sync(&mut self) {
        self.folders.sync(self.rt);
    }

    /// Removes the new folders that are empty.
    pub fn remove_empty(&mut self) {
        self.folders.remove_empty(self.rt);
    }

    // Returns an entry with its path. Fails if its name is not UTF-8.
    fn target<'b>(&self, entry: &'b Entry) -> Result<Target<'b>> {
        let Some(name) = text_of(entry.name.as_slice()) else {
            let shown = format!(in self.alloc; "{}", Name(entry.name.as_slice()))?;
            let reason = "this name is not UTF-8: this program cannot restore it";
            return Err(Failure::at(self.alloc, shown.as_str(), reason));
        };
        Ok(Target {
            entry,
            name,
            path: path_in(self.alloc, self.goal.folder, name)?,
        })
    }

    fn free_path(&self, target: &Target<'_>, ending: &str) -> Result<String> {
        let Goal { folder, set, .. } = self.goal;
        free_path(self.rt, self.alloc, folder, target.name, ending, Some(set))
    }

    // Checks that an entry may be written: no folder of its name is a symbolic link, and what has its path may be
    // replaced.
    fn check(&self, target: &Target<'_>) -> Result<()> {
        let path = target.path.as_str();
        if leads_away(self.rt, self.alloc, self.goal.folder, target.name)? {
            let reason =
                "a folder of its path is a symbolic link: restore it into another folder with --to";
            return Err(Failure::at(self.alloc, path, reason));
        }
        let found = match fs::symlink_metadata(self.rt, path) {
            Ok(found) => found,
            Err(error) if error.kind() == ErrorKind::NotFound => return Ok(()),
            Err(error) => return Err(Failure::at(self.alloc, path, error)),
        };
        let is_input = is_one_of(self.rt, path, self.inputs.as_slice());
        match obstacle(self.goal, target.entry.kind, found.is_dir(), is_input) {
            Some(reason) => Err(Failure::at(self.alloc, path, reason)),
            None => Ok(()),
        }
    }

    // Sets the attributes of a part, and gives it its final name. Returns the path of the damaged file that was kept.
    fn name_file(&mut self, part: &mut Part<R>, entry: &Entry) -> Result<Option<String>> {
        let outcome = match part.open(self.rt) {
            Ok(handle) => Ok(attributes_set(handle, entry)),
            Err(error) => Err(error),
        };
        let attributes = at_path(self.alloc, part.path.as_str(), outcome)?;
        warn_unset(self.rt, part.path.as_str(), attributes);
        part.sync(self.rt, self.alloc)?;
        let target = self.target(entry)?;
        let kept = self.make_room(&target)?;
        let named = part.rename(self.rt, self.alloc);
        self.settle(&target, named, kept)
    }

    // Makes a symbolic link under the name of a part, and then renames it. Returns the path of the damaged file that
    // was kept.
    fn make_link(&mut self, target: &Target<'_>) -> Result<Option<String>> {
        let (rt, path) = (self.rt, target.path.as_str());
        let Some(text) = text_of(target.entry.target.as_slice()) else {
            let reason =
                "the target of this symbolic link is not UTF-8: this program cannot restore it";
            return Err(Failure::at(self.alloc, path, reason));
        };
        let part = self.free_path(target, PART)?;
        at_path(self.alloc, path, symlink(rt, text, part.as_str()))?;
        let own = identity_at(rt, part.as_str());
        let outcome = match self.make_room(target) {
            Ok(kept) => {
                let named = at_path(self.alloc, path, rename_link(rt, part.as_str(), path, own));
                self.settle(target, named, kept)
            }
            Err(failure) => Err(failure),
        };
        if outcome.is_err() && own.is_some() && identity_at(rt, part.as_str()) == own {
            let _ = fs::remove_file(rt, part.as_str());
        }
        outcome
    }

    // Makes an empty folder, and sets its attributes. Returns the path of the damaged file that was kept.
    fn make_folder(&mut self, target: &Target<'_>) -> Result<Option<String>> {
        let (rt, path) = (self.rt, target.path.as_str());
        let kept = self.make_room(target)?;
        let named = at_path(self.alloc, path, fs::create_dir_all(rt, path));
        let kept = self.settle(target, named, kept)?;
        let found = at_path(self.alloc, path, fs::symlink_metadata(rt, path))?;
        let attributes = at_path(self.alloc, path, folder_set(rt, path, &found, target.entry))?;
        warn_unset(rt, path, attributes);
        Ok(kept)
    }

    // Checks the path again, because something may have changed, and keeps a damaged file with this path. Returns the
    // path at which it was kept.
    fn make_room(&self, target: &Target<'_>) -> Result<Option<String>> {
        self.check(target)?;
        if self.goal.in_place {
            self.keep_damaged(target)
        } else {
            Ok(None)
        }
    }

    fn settle(
        &mut self,
        target: &Target<'_>,
        named: Result<()>,
        kept: Option<String>,
    ) -> Result<Option<String>> {
        let path = target.path.as_str();
        settle(self.rt, self.alloc, path, named, kept, &mut self.folders)
    }

    // Gives a damaged file the second name `NAME.damaged`, or `NAME.damaged2` and so on, and returns its path. Returns
    // `None` if nothing has the path of the entry, or if the entry is a folder and a folder is there.
    //
    // The file keeps its own name, too, until the restored file takes this name. So the next run finds the file, even
    // if this run is killed at any moment. On a file system without hard links, the file is renamed. It is also renamed
    // if the entry is a folder, because a folder cannot take the name of a file.
    fn keep_damaged(&self, target: &Target<'_>) -> Result<Option<String>> {
        let (rt, path) = (self.rt, target.path.as_str());
        let is_folder = target.entry.kind == Kind::Folder;
        if !exists(rt, path) || is_folder && is_real_folder(rt, path) {
            return Ok(None);
        }
        let kept = self.free_path(target, "damaged")?;
        let outcome = if is_folder {
            fs::rename(rt, path, kept.as_str())
        } else {
            link_or_rename(rt, path, kept.as_str())
        };
        at_path(self.alloc, path, outcome)?;
        Ok(Some(kept))
    }
}

// Returns why an entry of this kind may not replace what exists at its path, or `None` if it may. `is_folder` says
// whether a folder exists there, and `is_input` says whether a file exists there that is read.
fn obstacle(goal: Goal<'_>, kind: Kind, is_folder: bool, is_input: bool) -> Option<&'static str> {
    match kind {
        Kind::Folder if is_folder => return None,
        Kind::Folder if !goal.in_place => {
            return Some("this is no folder: remove it or give it another name");
        }
        Kind::Link if is_folder => {
            return Some(
                "a folder has the name of this symbolic link: remove it or give it another name",
            );
        }
        _ if is_folder => {
            return Some("a folder has the name of this file: remove it or give it another name");
        }
        _ => {}
    }
    if goal.in_place {
        None
    } else if !goal.force {
        Some("it exists: use --force to overwrite it")
    } else if is_input {
        Some("this file is read, so it is not overwritten: name another folder with --to")
    } else {
        None
    }
}

/// Returns whether a folder in a name is a symbolic link. The name is relative to `folder`, which may itself be a
/// symbolic link. The function looks at no path below one where nothing is found, so it takes no long time for a name
/// with many slashes.
///
/// # Errors
///
/// Fails if memory cannot be allocated.
pub fn leads_away<R: Files>(rt: &R, alloc: Global, folder: &str, name: &str) -> Result<bool> {
    for end in 0..name.len() {
        if let Some(front) = front_of(name, end) {
            match fs::symlink_metadata(rt, path_in(alloc, folder, front)?.as_str()) {
                Ok(found) if found.is_symlink() => return Ok(true),
                Ok(_) => {}
                Err(_) => break,
            }
        }
    }
    Ok(false)
}

// Returns the text of a name before the slash at the index `end`. Returns `None` if no slash is there.
fn front_of(name: &str, end: usize) -> Option<&str> {
    match name.split_at_checked(end) {
        Some((front, rest)) if rest.starts_with('/') => Some(front),
        _ => None,
    }
}

// The results of setting the permission bits and the time of an entry.
type Attributes = (io::Result<()>, io::Result<()>);

fn attributes_set<F: OpenFile>(handle: &F, entry: &Entry) -> Attributes {
    let mode = handle.set_permissions(Permissions::from_mode(entry.mode & RESTORED_BITS));
    (mode, set_time(handle, entry))
}

// Sets the time of an entry, unless it is before 1970.
fn set_time<F: OpenFile>(handle: &F, entry: &Entry) -> io::Result<()> {
    let seconds = i64::from_le_bytes(entry.seconds.to_le_bytes());
    if let Ok(seconds) = u64::try_from(seconds) {
        let nanoseconds = Duration::from_nanos(u64::from(entry.nanoseconds));
        let time = UNIX_EPOCH.checked_add(Duration::from_secs(seconds));
        if let Some(time) = time.and_then(|time| time.checked_add(nanoseconds)) {
            return handle.set_times(FileTimes::new().set_modified(time));
        }
    }
    Ok(())
}

fn warn_unset<R: Eprint>(rt: &R, path: &str, attributes: Attributes) {
    let named = [
        ("its permission bits", attributes.0),
        ("the time of its last change", attributes.1),
    ];
    for (what, outcome) in named {
        if let Err(error) = outcome {
            let reason = format_args!("warning: {what} cannot be set: {error}");
            warn(rt, path, reason);
        }
    }
}

// Renames a symbolic link. `own` is the identity that the link had when it was made. Fails if something else is at one
// of the paths.
fn rename_link<R: Files>(rt: &R, part: &str, path: &str, own: Option<Identity>) -> io::Result<()> {
    if own.is_none() || identity_at(rt, part) != own {
        return Err(replaced());
    }
    fs::rename(rt, part, path)?;
    if identity_at(rt, path) == own {
        Ok(())
    } else {
        Err(replaced())
    }
}

// Sets the attributes of a folder. `found` is the metadata of what was at the path before. Fails if something else is
// there now.
fn folder_set<R: Files>(
    rt: &R,
    path: &str,
    found: &Metadata,
    entry: &Entry,
) -> io::Result<Attributes> {
    let mut options = OpenOptions::new();
    options.read(true);
    let handle = open_found(rt, &options, path, found)?;
    Ok(attributes_set(&handle, entry))
}

/// Ends a restore of one file. `named` is the result of giving the file its final name `path`, and `kept` is the path
/// of the damaged file that had this name. If the file got its name, the function notes in `folders` that its folder
/// must be synced, and returns `kept`.
///
/// # Errors
///
/// Fails if the file did not get its name. The damaged file then gets back its own name, and loses the other one.
pub fn settle<R: Files + Eprint>(
    rt: &R,
    alloc: Global,
    path: &str,
    named: Result<()>,
    kept: Option<String>,
    folders: &mut Folders,
) -> Result<Option<String>> {
    match (named, kept) {
        (Ok(()), kept) => {
            folders.note(rt, alloc, path);
            Ok(kept)
        }
        (Err(failure), Some(kept)) => {
            take_back(rt, path, kept.as_str());
            Err(failure)
        }
        (Err(failure), None) => Err(failure),
    }
}

// Returns whether a folder is at a path. A symbolic link to a folder does not count.
fn is_real_folder<R: Files>(rt: &R, path: &str) -> bool {
    fs::symlink_metadata(rt, path).is_ok_and(|found| found.is_dir())
}

/// Gives the file at a path the second name `name`. If the file cannot have two names, it is renamed.
///
/// # Errors
///
/// Any error of the system.
pub fn link_or_rename<R: Files>(rt: &R, path: &str, name: &str) -> io::Result<()> {
    if fs::hard_link(rt, path, name).is_ok() {
        return Ok(());
    }
    fs::rename(rt, path, name)
}

// Gives a damaged file back its own name `path`, and removes its other name `kept`. If this fails, or if another file
// has the name `path` by now, prints where the damaged file is.
fn take_back<R: Files + Eprint>(rt: &R, path: &str, kept: &str) {
    let undone = match identity_at(rt, path) {
        Some(own) if identity_at(rt, kept) == Some(own) => fs::remove_file(rt, kept).is_ok(),
        Some(_) => false,
        None => fs::rename(rt, kept, path).is_ok(),
    };
    if !undone {
        warn(rt, kept, "the damaged file has this name");
    }
}

//! Looks for the blocks of the set of a request, in volumes and in folders.
use crate::log::{Log, is_shown, tell_more};
use crate::renamed::{Renamed, renaming_of, tops_of};
use crate::settings::Request;
use rs_file_sets::scanning::{Scan, scan_opened};
use rs_file_sets::searching::{Elsewhere, find_elsewhere};
use rs_folders::counted::Counted;
use rs_folders::failure::{Failure, Result};
use rs_folders::identity::{exists, identity_of};
use rs_folders::leftovers::tell_leftovers;
use rs_folders::names::{
    Name, Shown, folder_to_open, last_of, parent_of, path_in, paths_of, trimmed,
};
use rs_volume_files::scanner::State;
use rs_volume_files::volume::{Volumes, open_volumes};
use rs_volumes::description::{Description, Entry};
use std::alloc::{AllocError, Global};
use std::io::ErrorKind;
use std::rt::{Files, Runtime};
use std::{fs, io};

/// What was found of a set, and the entries that a request is about.
#[derive(Drop)]
pub struct Look {
    /// The entries and blocks that were found.
    pub scan: Scan,
    /// The folder in which the files were looked for. It is empty if they were looked for in no folder.
    pub folder: String,
    /// For each entry, whether the request is about it.
    pub chosen: Vec<bool>,
    /// For each entry, whether the request is about it and it is not whole.
    pub broken: Vec<bool>,
    /// Whether the request is about all entries.
    pub has_all: bool,
    /// Whether all entries that the request is about are whole.
    pub has_whole_files: bool,
    /// Whether the folder of the set was renamed.
    pub renamed: Renamed,
    // The files and blocks that were found in other files.
    elsewhere: Elsewhere,
}

/// Returns the folder of the files of a set: the folder after `--folder`, or else the folder of the first volume. If
/// this folder is itself a folder of the set, and no entry of the set is at its name in it, returns the folder above
/// it.
///
/// # Errors
///
/// Fails if neither a folder nor a volume is named, or if memory cannot be allocated.
pub fn folder_of<R: Files>(
    rt: &R,
    alloc: Global,
    request: &Request,
    set: &Description,
) -> Result<String> {
    let folder = match (&request.folder, request.paths.first()) {
        (Some(folder), _) => folder.as_str(),
        (None, Some(path)) => folder_to_open(parent_of(path.as_str())),
        (None, None) => return Err(Failure::of("no volume is given")),
    };
    let paths = paths_of(alloc, folder, set.entries.as_slice())?;
    let mut paths = paths.iter();
    if paths.any(|path| !path.is_empty() && exists(rt, path.as_str())) {
        return Ok(String::from_str(alloc, folder)?);
    }
    let own = identity_of(rt, folder);
    let path = trimmed(folder);
    for top in tops_of(alloc, set)? {
        let above = if last_of(path) == top.name {
            String::from_str(alloc, folder_to_open(parent_of(path)))?
        } else {
            path_in(alloc, folder, "..")?
        };
        let here = path_in(alloc, above.as_str(), top.name)?;
        if own.is_some() && identity_of(rt, here.as_str()) == own {
            return Ok(above);
        }
    }
    Ok(String::from_str(alloc, folder)?)
}

/// Returns the folder in which `verify`, `repair` and `restore` look for the files of a set, as [`folder_of`] does.
/// Returns `None` for volumes of `split` without `--folder`, because these volumes hold the files.
///
/// # Errors
///
/// Fails if neither a folder nor a volume is named, or if memory cannot be allocated.
pub fn folder_for<R: Files>(
    rt: &R,
    alloc: Global,
    request: &Request,
    set: &Description,
) -> Result<Option<String>> {
    if set.volumes > 1 && request.folder.is_none() {
        return Ok(None);
    }
    Ok(Some(folder_of(rt, alloc, request, set)?))
}

/// Opens the volumes of a request, and finds their set.
///
/// # Errors
///
/// Fails if a folder after `--folder` or `--search` does not exist. Then fails for a reason of [`open_volumes`].
pub fn open_request<R: Files + Eprint>(
    rt: &R,
    alloc: Global,
    request: &Request,
) -> Result<Volumes> {
    for folder in request.folder.iter().chain(request.search.iter()) {
        let folder = folder.as_str();
        match fs::metadata(rt, folder) {
            Ok(found) if found.is_dir() => {}
            Ok(_) => return Err(Failure::at(alloc, folder, "this is no folder")),
            Err(error) if error.kind() == ErrorKind::NotFound => {
                return Err(Failure::at(alloc, folder, "there is no such folder"));
            }
            Err(error) => return Err(Failure::at(alloc, folder, error)),
        }
    }
    open_volumes(rt, alloc, request.paths.as_slice(), request.memory)
}

/// Returns for each entry of a set whether a request is about it: its name, or the name of a folder above it, follows
/// `--only`, or there is no `--only`.
///
/// # Errors
///
/// Fails if nothing in the set has a name that follows `--only`, or if memory cannot be allocated.
pub fn chosen_of(alloc: Global, request: &Request, set: &Description) -> Result<Vec<bool>> {
    let mut chosen = vec![in alloc; request.only.is_empty(); set.entries.len()]?;
    for name in &request.only {
        let name = name.as_str().trim_end_matches('/');
        if !choose(&set.entries, name.as_bytes(), &mut chosen) {
            let reason = "this name is not in the set: info prints the names";
            return Err(Failure::at(alloc, name, reason));
        }
    }
    Ok(chosen)
}

// Marks the entry with this name, and those in the folder with this name. Returns whether any entry was marked.
fn choose(entries: &[Entry], name: &[u8], chosen: &mut [bool]) -> bool {
    let mut is_in_set = false;
    for (entry, is_chosen) in entries.iter().zip(chosen) {
        match entry.name.as_slice().strip_prefix(name) {
            Some(rest) if rest.is_empty() || rest.starts_with(b"/") => {
                *is_chosen = true;
                is_in_set = true;
            }
            _ => {}
        }
    }
    is_in_set
}

/// Looks for all blocks of a set: in its volumes, in its files below `folder`, if it is given, and, if blocks are lost,
/// in other files. `volumes` are the volumes of the request. The function prints a warning for each unfinished file.
///
/// # Errors
///
/// Fails for a reason of [`chosen_of`], [`scan_opened`] or [`find_elsewhere`].
pub fn look_for<R: Runtime>(
    rt: &R,
    alloc: Global,
    request: &Request,
    volumes: Volumes,
    folder: Option<&str>,
) -> Result<Look> {
    let chosen = chosen_of(alloc, request, &volumes.set.description)?;
    let mut scan = scan_opened(rt, alloc, volumes, request.progress, folder)?;
    tell_leftovers(rt, alloc, scan.paths.as_slice())?;
    let mut folders = Vec::new(alloc);
    if let Some(folder) = folder {
        folders.push(folder)?;
    }
    for folder in &request.search {
        folders.push(folder.as_str())?;
    }
    let (to, is_told) = (&request.to, !request.quiet);
    let mut elsewhere = find_elsewhere(rt, alloc, folders.as_slice(), to, &mut scan, is_told)?;
    // Entries are in order of their names, so this sorts the files by name.
    elsewhere.files.sort()?;
    let moved = elsewhere.files.as_slice();
    let renamed = renaming_of(rt, alloc, request, folder, &scan, moved)?;
    let broken = broken_of(alloc, &scan, &chosen)?;
    Ok(Look {
        folder: String::from_str(alloc, folder.unwrap_or(""))?,
        has_all: !chosen.contains(&false),
        has_whole_files: !broken.contains(&true),
        scan,
        chosen,
        broken,
        renamed,
        elsewhere,
    })
}

fn broken_of(alloc: Global, scan: &Scan, chosen: &[bool]) -> Result<Vec<bool>, AllocError> {
    let mut broken = Vec::new(alloc);
    for (state, is_chosen) in scan.states.iter().zip(chosen) {
        broken.push(*is_chosen && *state != State::Whole)?;
    }
    Ok(broken)
}

impl Look {
    // Returns the name of a file that was renamed or moved, and the path at which it is now. `number` is the index of
    // the file in `elsewhere.files`. Returns `None` if the request is not about the file.
    fn moved(&self, number: usize) -> Option<(&[u8], &str)> {
        let index = self.elsewhere.files.get(number).copied()?;
        if !self.chosen.get(index).copied()? {
            return None;
        }
        let entry = self.scan.description().entries.get(index)?;
        Some((entry.name.as_slice(), self.scan.paths.get(index)?.as_str()))
    }

    /// Notes in a log which files of the request were renamed or moved.
    ///
    /// # Errors
    ///
    /// [`AllocError`] if memory cannot be allocated.
    pub fn note_moved(&self, log: &mut Log) -> Result<(), AllocError> {
        for number in 0..self.elsewhere.files.len() {
            if let Some((name, path)) = self.moved(number) {
                log.add("moved", ("name", name), Some(("path", path.as_bytes())))?;
            }
        }
        Ok(())
    }

    /// Prints which files of the request were renamed or moved, and how many lost blocks were found elsewhere.
    ///
    /// # Errors
    ///
    /// Fails if a line cannot be printed.
    pub fn tell_moved<R: Print>(&self, rt: &R) -> io::Result<()> {
        let mut count = 0;
        for number in 0..self.elsewhere.files.len() {
            if let Some((name, path)) = self.moved(number) {
                if is_shown(&mut count) {
                    let (name, path) = (Name(name), Shown(path));
                    println!(rt; "moved: {name} is at {path}")?;
                }
            }
        }
        tell_more(rt, count, "")?;
        if !matches!(self.renamed, Renamed::No) {
            println!(rt;
                "if the folder of the set was renamed, give it its old name again. Or make the volume again with \
                 create NEW -o VOLUME --force, which compares the files under their new names with the old volume"
            )?;
        }
        if self.elsewhere.blocks > 0 {
            let blocks = Counted(self.elsewhere.blocks as u64, "lost block");
            println!(rt; "{blocks} found in other files or at other places")?;
        }
        Ok(())
    }
}

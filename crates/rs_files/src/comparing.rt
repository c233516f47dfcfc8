//! Compares files with an old volume before a new one replaces it. If the bytes of a file have changed, and the time of
//! its last change has not, the disk has probably damaged the file. Such a file is *rotten*, and is not protected.
use crate::log::Log;
use crate::settings::Request;
use rs_file_sets::one_entry::has_own_time;
use rs_file_sets::scanning::{Scan, scan_opened};
use rs_folders::failure::{Failure, Result, warn};
use rs_folders::hashing::{CHUNK, hash_path};
use rs_folders::identity::exists;
use rs_folders::names::{Name, order_of, paths_of};
use rs_folders::runs::places_in;
use rs_folders::source::Origin;
use rs_folders::walking::Found;
use rs_volume_files::scanner::State;
use rs_volume_files::volume::open_volumes;
use rs_volumes::description::{Description, Entry, Kind, Version};
use rs_volumes::placement::Place;
use serde_json::Value;
use std::alloc::{AllocError, Global};
use std::fs;
use std::ops::Range;
use std::rt::{Files, Runtime};

/// How an entry of an old set has changed.
#[derive(Clone, Copy)]
enum Change {
    /// The entry has not changed.
    None,
    /// The bytes of the file have changed, and the time of its last change has not. If the length has changed as well,
    /// the file is rotten only if its time is not a whole second: archives and builds give the same whole second to
    /// many files.
    Rotten,
    /// The bytes, the target or the kind of the entry have changed, and the entry is not rotten.
    Edited,
    /// Nothing has the name of the entry.
    Removed,
    /// Another file of the old set, which is rotten, was moved to the name of the entry.
    Replaced,
}

/// Digests of the present files and blocks that are known from old volumes, so that they need not be computed again.
#[derive(Drop)]
pub struct Known {
    /// The digest of each entry of the new set, or `None` if it is not known. The digests of entries after the end of
    /// this list are not known either.
    pub files: Vec<Option<[u8; 32]>>,
    /// The old set, if it was read.
    old: Option<Scan>,
}

impl Known {
    /// Returns the original blocks of a new set whose digests are known, because a block of the old set has the same
    /// bytes of the same files. `places` are the places of the new set. If `linked` marks a file, the digests of the
    /// blocks with its bytes are not known.
    ///
    /// # Errors
    ///
    /// [`AllocError`] if memory cannot be allocated.
    pub fn blocks(
        &self,
        alloc: Global,
        new: &Description,
        places: &[Place],
        linked: &[bool],
    ) -> Result<KnownBlocks, AllocError> {
        let mut known = KnownBlocks {
            marks: Vec::new(alloc),
            digests: Vec::new(alloc),
        };
        let Some(old) = &self.old else {
            return Ok(known);
        };
        if old.description().block_bytes != new.block_bytes {
            return Ok(known);
        }
        for block in 0..new.original_count as usize {
            let own = old_digest(old, new, places_in(places, block), linked);
            known.marks.push(own.is_some())?;
            known.digests.push(own.unwrap_or([0; 32]))?;
        }
        Ok(known)
    }
}

/// The original blocks of a new set whose digests are known from an old set.
#[derive(Drop)]
pub struct KnownBlocks {
    /// For each original block, whether its digest is known. If the list is empty, no digest is known.
    pub marks: Vec<bool>,
    // The digest of each original block, or 32 zeros if it is not known.
    digests: Vec<[u8; 32]>,
}

impl KnownBlocks {
    /// Copies the digests that are known into `digests`, which has the digests of all blocks, 32 bytes each.
    pub fn take_over(&self, digests: &mut Vec<u8>) {
        let pairs = digests.chunks_exact_mut(32).zip(self.digests.as_slice());
        for ((is, was), is_known) in pairs.zip(self.marks.as_slice()) {
            if *is_known {
                is.copy_from_slice(was);
            }
        }
    }
}

// Returns the digest of the old block that has the same bytes of the same files as a new block, and that was found in
// these files. `places` are the places of the new block. The two blocks have different indexes if the data before them
// became longer or shorter.
fn old_digest(
    old: &Scan,
    new: &Description,
    places: &[Place],
    linked: &[bool],
) -> Option<[u8; 32]> {
    let (set, old_places) = (old.description(), old.places.as_slice());
    let first = places.first()?;
    let file = index_in(set, new.entries.get(first.file)?.name.as_slice())?;
    let key = (file, first.offset);
    let from = old_places.partition_point(|place| (place.file, place.offset) < key);
    let block = old_places.get(from)?.block;
    let was = places_in(old_places, block);
    let is_whole = matches!(old.found.places.get(block), Some(Some(Origin::Files)));
    if is_whole && are_same_places(set, was, new, places, linked) {
        set.digests
            .as_slice()
            .as_chunks::<32>()
            .0
            .get(block)
            .copied()
    } else {
        None
    }
}

// `were` are the places of an old block, and `are` those of a new one.
fn are_same_places(
    old: &Description,
    were: &[Place],
    new: &Description,
    are: &[Place],
    linked: &[bool],
) -> bool {
    for (was, is) in were.iter().zip(are) {
        let (old, own) = (old.entries.get(was.file), new.entries.get(is.file));
        let (Some(old), Some(own)) = (old, own) else {
            return false;
        };
        let is_linked = linked.get(is.file).copied().unwrap_or(true);
        if old.name.as_slice() != own.name.as_slice()
            || is_linked
            || (was.offset, was.at, was.bytes) != (is.offset, is.at, is.bytes)
        {
            return false;
        }
    }
    were.len() == are.len()
}

fn changes_of<R: Files>(rt: &R, alloc: Global, old: &Scan) -> Result<Vec<Change>, AllocError> {
    let (set, mut changes) = (old.description(), Vec::new(alloc));
    let paths = old.paths.iter().zip(old.states.as_slice());
    for (entry, (path, state)) in set.entries.iter().zip(paths) {
        let path = path.as_str();
        let change = match state {
            State::Whole => Change::None,
            State::Damaged if entry.kind == Kind::File => match fs::metadata(rt, path) {
                Ok(found)
                    if has_own_time(entry, &found, set.version)
                        && (found.len() == entry.size || entry.nanoseconds > 0) => {
                    Change::Rotten
                }
                _ => Change::Edited,
            },
            State::Damaged => Change::Edited,
            State::Missing if exists(rt, path) => Change::Edited,
            State::Missing => Change::Removed,
        };
        changes.push(change)?;
    }
    Ok(changes)
}

fn is_accepted(request: &Request, name: &[u8]) -> bool {
    for accepted in &request.accept {
        if accepted.as_str().as_bytes() == name {
            return true;
        }
    }
    false
}

// Prints how the entries of an old set have changed. Returns the number of rotten files that were not accepted.
fn tell_changes<R: Print + Eprint>(
    rt: &R,
    request: &Request,
    old: &Description,
    changes: &[Change],
    log: &mut Log,
) -> Result<u64> {
    let mut rotten = 0u64;
    for (entry, change) in old.entries.iter().zip(changes) {
        let name = entry.name.as_slice();
        match change {
            Change::None | Change::Replaced => {}
            Change::Rotten if !is_accepted(request, name) => {
                let shown = Name(name);
                eprintln!(rt; "rs_files: rotten: {shown}")?;
                rotten = rotten.saturating_add(1);
                log.add("rotten", ("name", name), None)?;
            }
            Change::Rotten | Change::Edited => log.note(rt, "edited", name)?,
            Change::Removed => log.note(rt, "removed", name)?,
        }
    }
    Ok(rotten)
}

// Prints which files are new, and which moved files are rotten. `origins` is the result of `moved_rotten`. Returns the
// number of rotten files that were not accepted.
fn tell_new<R: Print + Eprint>(
    rt: &R,
    request: &Request,
    old: &Description,
    found: &Found,
    origins: &[Option<usize>],
    log: &mut Log,
) -> Result<u64> {
    let mut rotten = 0u64;
    for (entry, origin) in found.entries.iter().zip(origins) {
        let name = entry.name.as_slice();
        let was = match origin {
            Some(index) if !is_accepted(request, name) => old.entries.get(*index),
            _ => None,
        };
        if let Some(was) = was {
            let (shown, old) = (Name(name), Name(was.name.as_slice()));
            eprintln!(rt; "rs_files: rotten: {shown} (was {old})")?;
            log.add("rotten", ("name", name), Some(("was", was.name.as_slice())))?;
            rotten = rotten.saturating_add(1);
        } else if index_in(old, name).is_none() {
            log.note(rt, "new", name)?;
        }
    }
    Ok(rotten)
}

fn index_in(set: &Description, name: &[u8]) -> Option<usize> {
    let found = set
        .entries
        .as_slice()
        .binary_search_by(|entry| match set.version {
            Version::First => entry.name.as_slice().cmp(name),
            Version::Second => order_of(entry.name.as_slice(), name),
        });
    found.ok()
}

// Returns the digest of the file with the same name in the old set, if this file is whole and both have the same size.
// Version 1 has no digests of files.
fn digest_in(old: &Scan, entry: &Entry) -> Option<[u8; 32]> {
    let set = old.description();
    if set.version != Version::Second || entry.kind != Kind::File {
        return None;
    }
    let index = index_in(set, entry.name.as_slice())?;
    let other = set.entries.get(index)?;
    let is_whole = matches!(old.states.get(index), Some(State::Whole));
    if is_whole && other.kind == Kind::File && other.size == entry.size {
        Some(other.digest)
    } else {
        None
    }
}

// The length of a file, and the seconds and nanoseconds of the time of its last change.
type Stamp = (u64, u64, u32);

// Only files with bytes have a stamp.
fn stamp_of(entry: &Entry) -> Option<Stamp> {
    if entry.kind == Kind::File && entry.size > 0 {
        Some((entry.size, entry.seconds, entry.nanoseconds))
    } else {
        None
    }
}

// A file of an old set that can have been moved or copied.
#[derive(Clone, Copy)]
struct OldFile {
    stamp: Stamp,
    digest: [u8; 32],
    // The index of the file in the old set.
    index: usize,
    // Whether something still has the name of the file, or a file with the same bytes was found under another name.
    is_found: bool,
}

// Returns the files of an old set that can have been moved or copied, in order of stamps and digests. Many files can
// have the same whole second, for example those from one archive. So a file with such a time is in the result only if
// nothing has its name any more. Version 1 has no digests of files and no nanoseconds, so for it the result is empty.
fn old_files(
    alloc: Global,
    old: &Description,
    changes: &[Change],
) -> Result<Vec<OldFile>, AllocError> {
    let mut files = Vec::new(alloc);
    if old.version == Version::First {
        return Ok(files);
    }
    for (index, (entry, change)) in old.entries.iter().zip(changes).enumerate() {
        let is_gone = matches!(change, Change::Removed);
        if let (true, Some(stamp)) = (is_gone || entry.nanoseconds != 0, stamp_of(entry)) {
            files.push(OldFile {
                stamp,
                digest: entry.digest,
                index,
                is_found: !is_gone,
            })?;
        }
    }
    files.sort_by(|one, other| (one.stamp, one.digest).cmp(&(other.stamp, other.digest)))?;
    Ok(files)
}

// Returns the digests of all files of a set, in order.
fn digests_of(alloc: Global, set: &Description) -> Result<Vec<[u8; 32]>, AllocError> {
    let mut digests = Vec::new(alloc);
    for entry in &set.entries {
        if entry.kind == Kind::File {
            digests.push(entry.digest)?;
        }
    }
    digests.sort()?;
    Ok(digests)
}

// Finds the moved and copied files that are rotten: files with the length and the time of an old file whose bytes no
// file of the old set had. The old file can be there again, because it was restored. Returns for each entry of `found`
// the index of the old file from which the entry was moved, if the entry is rotten. Writes the digests of the files
// that the function reads into `known`.
fn moved_rotten<R: Files>(
    rt: &R,
    alloc: Global,
    old: &Description,
    changes: &[Change],
    found: &Found,
    known: &mut [Option<[u8; 32]>],
) -> Result<Vec<Option<usize>>> {
    let mut files = old_files(alloc, old, changes)?;
    let digests = digests_of(alloc, old)?;
    let paths = paths_of(alloc, found.folder.as_str(), found.entries.as_slice())?;
    let mut buffer = vec![in alloc; 0u8; CHUNK]?;
    let mut wrong = Vec::new(alloc);
    for (index, (entry, path)) in found.entries.iter().zip(paths.as_slice()).enumerate() {
        if !is_moved(old, entry, files.as_slice()) {
            continue;
        }
        let follows = found.linked.get(index).copied().unwrap_or(false);
        let own = hash_path(rt, path.as_str(), follows, entry.size, &mut buffer).ok();
        if let (Some(own), Some(place)) = (own, known.get_mut(index)) {
            *place = Some(own);
            mark_found(files.as_mut_slice(), entry, &own);
            if digests.binary_search(&own).is_err() {
                wrong.push(index)?;
            }
        }
    }
    let mut origins = vec![in alloc; None; found.entries.len()]?;
    for index in &wrong {
        if let (Some(entry), Some(origin)) = (found.entries.get(*index), origins.get_mut(*index)) {
            *origin = origin_of(old, files.as_slice(), entry);
        }
    }
    Ok(origins)
}

// Returns the index of the old file from which a rotten file was moved: the first old file with the same stamp that was
// not found. If all of them were found, returns the first one, or `None` in two cases: the time is a whole second, or
// `repair` kept the file, which then has the name of one of them with `.damaged` after it.
fn origin_of(old: &Description, files: &[OldFile], entry: &Entry) -> Option<usize> {
    let mut first = None;
    let mut is_left_out = entry.nanoseconds == 0;
    for file in with_stamp(files, entry) {
        if !file.is_found {
            return Some(file.index);
        }
        first = first.or(Some(file.index));
        let was = old.entries.get(file.index)?.name.as_slice();
        if let Some(rest) = entry.name.as_slice().strip_prefix(was) {
            is_left_out = is_left_out || rest.starts_with(b".damaged");
        }
    }
    if is_left_out { None } else { first }
}

// Marks the entries of an old set to whose names rotten files were moved that are not accepted. `origins` is the result
// of `moved_rotten`.
fn mark_replaced(
    request: &Request,
    old: &Description,
    found: &Found,
    origins: &[Option<usize>],
    changes: &mut [Change],
) {
    for (entry, origin) in found.entries.iter().zip(origins) {
        let name = entry.name.as_slice();
        if origin.is_none() || is_accepted(request, name) {
            continue;
        }
        if let Some(index) = index_in(old, name) {
            if let Some(change) = changes.get_mut(index) {
                *change = Change::Replaced;
            }
        }
    }
}

// Returns the range of the files whose stamps and digests are from `from` to `to`. `files` is in order of stamps and
// digests.
fn range_of(files: &[OldFile], from: (Stamp, [u8; 32]), to: (Stamp, [u8; 32])) -> Range<usize> {
    let start = files.partition_point(|file| (file.stamp, file.digest) < from);
    let end = files.partition_point(|file| (file.stamp, file.digest) <= to);
    start..end
}

fn with_stamp<'a>(files: &'a [OldFile], entry: &Entry) -> &'a [OldFile] {
    let Some(stamp) = stamp_of(entry) else {
        return &[];
    };
    let range = range_of(files, (stamp, [0; 32]), (stamp, [0xFF; 32]));
    files.get(range).unwrap_or(&[])
}

// Returns whether an entry can be an old file that was moved or copied: its stamp is that of an old file, but not that
// of the old entry with its name.
fn is_moved(old: &Description, entry: &Entry, files: &[OldFile]) -> bool {
    if with_stamp(files, entry).is_empty() {
        return false;
    }
    let Some(index) = index_in(old, entry.name.as_slice()) else {
        return true;
    };
    match old.entries.get(index) {
        Some(same) => stamp_of(same) != stamp_of(entry),
        None => true,
    }
}

// Marks the old files with the stamp of an entry and this digest as found.
fn mark_found(files: &mut [OldFile], entry: &Entry, digest: &[u8; 32]) {
    let Some(stamp) = stamp_of(entry) else {
        return;
    };
    let range = range_of(files, (stamp, *digest), (stamp, *digest));
    if let Some(same) = files.get_mut(range) {
        for file in same {
            file.is_found = true;
        }
    }
}

/// Checks that each name after `--accept` is the name of an entry.
///
/// # Errors
///
/// Fails with the first name that no entry has.
pub fn check_accepted(alloc: Global, request: &Request, found: &Found) -> Result<()> {
    for name in &request.accept {
        let bytes = name.as_str().as_bytes();
        let entries = found.entries.as_slice();
        let same = entries.binary_search_by(|entry| order_of(entry.name.as_slice(), bytes));
        if same.is_err() {
            let reason = "no file of the set has this name, which follows --accept";
            return Err(Failure::at(alloc, name.as_str(), reason));
        }
    }
    Ok(())
}

// Looks for the blocks of the old set in its volumes and files. Returns `None` if no old volume exists. If the old
// volumes cannot be used, the function prints the reason, and returns `None`, too. If an old volume exists, the
// member `compared` of the log says whether the old volumes can be used.
fn old_set<R: Runtime>(
    rt: &R,
    alloc: Global,
    request: &Request,
    outputs: &[String],
    found: &Found,
    log: &mut Log,
) -> Result<Option<Scan>> {
    let mut old = Vec::new(alloc);
    for path in outputs {
        if exists(rt, path.as_str()) {
            old.push(path.clone()?)?;
        }
    }
    let Some(first) = old.first() else {
        return Ok(None);
    };
    let (folder, shown) = (Some(found.folder.as_str()), request.progress);
    let scanned = match open_volumes(rt, alloc, old.as_slice(), request.memory) {
        Ok(volumes) => scan_opened(rt, alloc, volumes, shown, folder),
        Err(failure) => Err(failure),
    };
    log.set("compared", Value::Bool(scanned.is_ok()))?;
    match scanned {
        Ok(scan) => Ok(Some(scan)),
        Err(failure) => {
            let reason = format_args!("the files were not compared with this volume: {failure}");
            warn(rt, first.as_str(), reason);
            Ok(None)
        }
    }
}

/// Compares the files of a request with the old volumes at `outputs`, which new volumes replace, and prints what has
/// changed. Returns `None` if the new volumes must not be made, because a file is rotten and the request does not
/// accept this. A file that was moved can be rotten, too. Otherwise returns the digests that are known from the old
/// volumes.
///
/// If the old volumes cannot be used, nothing is compared, and the function prints the reason. The member `compared` of
/// the object of the log says whether the files were compared. If there is no old volume, there is no such member.
///
/// # Errors
///
/// Fails if a message cannot be printed, or if memory cannot be allocated.
pub fn may_replace<R: Runtime>(
    rt: &R,
    alloc: Global,
    request: &Request,
    outputs: &[String],
    found: &Found,
    log: &mut Log,
) -> Result<Option<Known>> {
    let mut files = Vec::new(alloc);
    let Some(old) = old_set(rt, alloc, request, outputs, found, log)? else {
        return Ok(Some(Known { files, old: None }));
    };
    // If the path of a file is a symbolic link, its digest counts as not known.
    for (entry, is_linked) in found.entries.iter().zip(found.linked.as_slice()) {
        files.push(if *is_linked {
            None
        } else {
            digest_in(&old, entry)
        })?;
    }
    let (set, mut changes) = (old.description(), changes_of(rt, alloc, &old)?);
    let moves = moved_rotten(rt, alloc, set, &changes, found, &mut files)?;
    mark_replaced(request, set, found, &moves, &mut changes);
    let rotten = tell_changes(rt, request, set, &changes, log)?;
    let moved = tell_new(rt, request, set, found, &moves, log)?;
    log.end_lists(rt)?;
    if rotten > 0 || moved > 0 {
        tell_rotten(rt, moved > 0)?;
        return Ok(None);
    }
    Ok(Some(Known {
        files,
        old: Some(old),
    }))
}

// `has_moved` says whether one of the files was moved.
fn tell_rotten<R: Eprint>(rt: &R, has_moved: bool) -> Result<()> {
    eprintln!(rt;
        "rs_files: the bytes of these files changed, but not their times: no new volume was made, and \
         the old one was kept. Restore each file with repair --only NAME, or accept it with --accept NAME"
    )?;
    if has_moved {
        eprintln!(rt;
            "rs_files: repair --only restores a file that was moved under its old name, the one \
             after `was`. Then delete the file with the new name, or move the restored one onto it"
        )?;
    }
    Ok(())
}

//! Opens volumes, and finds their set.
use crate::assembly::{Assembly, LARGEST_PART, Part, Set, read_part};
use crate::first;
use crate::first::Records;
use crate::layout::{LINE_BYTES, begins_volume};
use crate::records::{Record, Walk};
use rs_folders::failure::{Failure, Result};
use rs_folders::identity::open_regular;
use rs_folders::output::at_path;
use rs_folders::source::read_at;
use rs_volumes::first::{HEAD_BYTES, MAGIC};
use rs_volumes::record::PART;
use std::alloc::Global;
use std::fs;
use std::fs::OpenFile;
use std::io::{Read, Seek};
use std::rt::Files;

/// The largest number of sets that are tried for the volumes of a command.
const MOST_SETS: usize = 8;

/// How the blocks of a volume are found.
#[derive(Clone, Copy)]
pub enum Form {
    /// A volume of version 1, with the digest of its description.
    First([u8; 32], Records),
    /// A volume of version 2.
    Second,
}

/// A volume that can be read.
#[derive(Drop)]
pub struct Volume {
    /// The path of the volume.
    pub path: String,
    /// How the blocks of the volume are found.
    pub form: Form,
}

/// The volumes of one set.
#[derive(Drop)]
pub struct Volumes {
    /// The set.
    pub set: Set,
    /// The volumes that can be read.
    pub read: Vec<Volume>,
    /// The paths of the volumes that cannot be read.
    pub unreadable: Vec<String>,
}

/// Opens a regular file to read it, and returns it with its number of bytes. A symbolic link is followed.
///
/// # Errors
///
/// Fails if there is no regular file at the path, or if it cannot be opened.
pub fn open_sized<R: Files>(rt: &R, alloc: Global, path: &str) -> Result<(R::File, u64)> {
    let file = at_path(alloc, path, open_regular(rt, path, true))?;
    let size = at_path(alloc, path, file.metadata())?.len();
    Ok((file, size))
}

/// Reads the part of a description in a record. Returns `None` if the part cannot be read, or is damaged. `body` is
/// memory for the body of the record.
pub fn part_in<'a, F: Read + Seek + Drop>(
    walk: &mut Walk<F>,
    record: &Record,
    body: &'a mut Vec<u8>,
) -> Option<Part<'a>> {
    if record.head.body_bytes > LARGEST_PART || !walk.may_hash(record) {
        return None;
    }
    body.resize(record.head.body_bytes.min(LARGEST_PART) as usize, 0)
        .ok()?;
    read_at(&mut walk.file, record.at, body).ok()?;
    let part = read_part(record.head.index, body.as_slice())?;
    walk.pass(record);
    Some(part)
}

// Looks for the set of volumes.
#[derive(Drop)]
struct Finder {
    alloc: Global,
    // The number of bytes of memory that a description may take.
    memory: u64,
    // The first set whose description is whole, without those in `refused`.
    set: Option<Set>,
    // The digests of the sets to which not all volumes belong.
    refused: Vec<[u8; 32]>,
    // The parts of descriptions that were found so far.
    assembly: Assembly,
    // Why a description whose parts are all there cannot be used.
    fault: Option<Failure>,
    // Memory for the body of a part.
    body: Vec<u8>,
}

impl Finder {
    fn new(alloc: Global, memory: u64) -> Finder {
        Finder {
            alloc,
            memory,
            set: None,
            refused: Vec::new(alloc),
            assembly: Assembly::new(alloc, memory),
            fault: None,
            body: Vec::new(alloc),
        }
    }

    fn keep(&mut self, set: Set) {
        if self.set.is_none() && !self.is_refused(&set.digest) {
            self.set = Some(set);
        }
    }

    fn is_refused(&self, digest: &[u8; 32]) -> bool {
        self.refused.iter().any(|refused| *refused == *digest)
    }

    // Opens a volume, and looks for a whole description in it, unless the set is known. Fails if the file is no volume.
    fn open<R: Files>(&mut self, rt: &R, path: &str) -> Result<Form> {
        let (mut file, size) = open_sized(rt, self.alloc, path)?;
        if let Ok(volume) = first::open_front(&mut file, size, self.alloc, self.memory) {
            return Ok(self.keep_first(volume));
        }
        let mut walk = Walk::new(self.alloc, file, size)?;
        if self.has_records(&mut walk) {
            return Ok(Form::Second);
        }
        match first::open_damaged(&mut walk.file, size, self.alloc, self.memory) {
            Ok(volume) => Ok(self.keep_first(volume)),
            Err(fault) => Err(no_volume(self.alloc, path, &fault)),
        }
    }

    fn keep_first(&mut self, volume: first::FirstVolume) -> Form {
        let form = Form::First(volume.set.digest, volume.records);
        self.keep(volume.set);
        form
    }

    // Returns whether a file has a record. Also looks for a whole description in the records, unless the set is known.
    fn has_records<F: Read + Seek + Drop>(&mut self, walk: &mut Walk<F>) -> bool {
        let mut has_some = false;
        for _ in 0..u64::MAX {
            match walk.next() {
                Some(record) if self.set.is_none() => {
                    has_some = true;
                    self.add(walk, &record);
                }
                Some(_) => return true,
                None => break,
            }
        }
        has_some
    }

    // Adds the part of a description in a record to the assembly.
    fn add<F: Read + Seek + Drop>(&mut self, walk: &mut Walk<F>, record: &Record) {
        if record.head.kind != PART || self.is_refused(&record.head.set) {
            return;
        }
        if let Some(part) = part_in(walk, record, &mut self.body) {
            match self.assembly.add(&record.head.set, record.head.index, part) {
                Ok(Some(set)) => self.set = Some(set),
                Ok(None) => {}
                Err(fault) => self.fault = Some(fault),
            }
        }
    }

    // Returns the first set whose description is whole and to which all of these volumes belong. The first whole
    // description in a volume can be that of another set: if a file of the set is itself a volume, a damaged record can
    // expose the records in its body. Returns `None` if no description is whole.
    //
    // Fails if there is a whole description, but no such set. The failure is that of the first set.
    fn common_set<R: Files>(&mut self, rt: &R, volumes: &[Volume]) -> Result<Option<Set>> {
        let mut failure = None;
        for _ in 0..MOST_SETS {
            let Some(set) = self.next_set(rt, volumes) else {
                break;
            };
            match check_set(rt, self.alloc, &set, volumes) {
                Ok(()) => return Ok(Some(set)),
                Err(fault) => failure = Some(failure.unwrap_or(fault)),
            }
            self.refused.push(set.digest)?;
        }
        match failure {
            Some(failure) => Err(failure),
            None => Ok(None),
        }
    }

    // Returns the set that was found. If there is none, looks for one in these volumes.
    fn next_set<R: Files>(&mut self, rt: &R, volumes: &[Volume]) -> Option<Set> {
        for volume in volumes {
            if self.set.is_none() {
                let _ = self.open(rt, volume.path.as_str());
            }
        }
        self.set.take()
    }
}

fn no_volume(alloc: Global, path: &str, fault: &Failure) -> Failure {
    Failure::at(
        alloc,
        path,
        format_args!("this is no volume that can be read: {fault}"),
    )
}

/// Opens one volume, and returns its set and how its blocks are found. `memory` is the number of bytes of memory that
/// its description may take, approximately.
///
/// # Errors
///
/// Fails if the volume cannot be read, or if memory cannot be allocated.
pub fn open_volume<R: Files>(
    rt: &R,
    alloc: Global,
    path: &str,
    memory: u64,
) -> Result<(Set, Form)> {
    let mut finder = Finder::new(alloc, memory);
    let form = finder.open(rt, path)?;
    let Finder { set, fault, .. } = finder;
    match set {
        Some(set) => Ok((set, form)),
        None => Err(no_volume(alloc, path, &fault_of(fault))),
    }
}

fn fault_of(fault: Option<Failure>) -> Failure {
    fault.unwrap_or(Failure::of("each copy of its description is damaged"))
}

/// Opens volumes, and finds their set. This is the set of the first whole description, in the order of the volumes and
/// of their bytes, to whose set all volumes belong. For each volume that cannot be read, the function prints a message.
/// `memory` is the number of bytes of memory that descriptions may take, approximately.
///
/// # Errors
///
/// Fails if no volume can be read, if the volumes belong to different sets, if a message cannot be printed, or if
/// memory cannot be allocated.
pub fn open_volumes<R: Files + Eprint>(
    rt: &R,
    alloc: Global,
    paths: &[String],
    memory: u64,
) -> Result<Volumes> {
    let mut finder = Finder::new(alloc, memory);
    let mut read = Vec::new(alloc);
    let mut unreadable = Vec::new(alloc);
    for path in paths {
        let path = path.clone()?;
        match finder.open(rt, path.as_str()) {
            Ok(form) => read.push(Volume { path, form })?,
            Err(failure) => {
                eprintln!(rt; "rs_files: {failure}")?;
                unreadable.push(path)?;
            }
        }
    }
    match finder.common_set(rt, read.as_slice())? {
        Some(set) => Ok(Volumes {
            set,
            read,
            unreadable,
        }),
        None => {
            let Finder { fault, .. } = finder;
            Err(without_set(rt, alloc, read.as_slice(), fault))
        }
    }
}

// Fails for the first volume that does not belong to the set.
fn check_set<R: Files>(rt: &R, alloc: Global, set: &Set, volumes: &[Volume]) -> Result<()> {
    for volume in volumes {
        let belongs = match &volume.form {
            Form::First(digest, _) => *digest == set.digest,
            Form::Second => has_record_of(rt, alloc, set, volume.path.as_str())?,
        };
        if !belongs {
            let path = volume.path.as_str();
            let reason =
                "this volume belongs to another set: name the volumes of one set. If an older \
                          split has left it, delete it";
            return Err(Failure::at(alloc, path, reason));
        }
    }
    Ok(())
}

// Returns whether a volume of version 2 has a record of the set.
fn has_record_of<R: Files>(rt: &R, alloc: Global, set: &Set, path: &str) -> Result<bool> {
    let (file, size) = open_sized(rt, alloc, path)?;
    let mut walk = Walk::new(alloc, file, size)?;
    for _ in 0..u64::MAX {
        let Some(record) = walk.next() else {
            break;
        };
        if record.head.set == set.digest {
            return Ok(true);
        }
    }
    Ok(false)
}

// Prints for each volume why its description cannot be used, and returns the failure of the command.
fn without_set<R: Eprint>(
    rt: &R,
    alloc: Global,
    volumes: &[Volume],
    fault: Option<Failure>,
) -> Failure {
    let fault = fault_of(fault);
    for volume in volumes {
        no_volume(alloc, volume.path.as_str(), &fault).tell(rt);
    }
    Failure::of("no volume can be read")
}

/// Returns whether the file at a path counts as a volume, even as a damaged one. A regular file does if one of these is
/// true:
///
/// - It is empty. Nothing is lost with such a file.
/// - It begins with the line of text of a volume.
/// - At least half of its bytes are in records.
/// - Its first 8 bytes, or the first 8 of its last 64 bytes, are the magic number of version 1.
/// - Its description of version 1 can be read.
///
/// # Errors
///
/// Fails if the file cannot be opened or read, or if memory cannot be allocated.
pub fn is_volume<R: Files>(rt: &R, alloc: Global, path: &str) -> Result<bool> {
    // A pipe is not opened: a program that opens a pipe waits until another one writes into it.
    let metadata = at_path(alloc, path, fs::metadata(rt, path))?;
    if !metadata.is_file() {
        return Ok(false);
    }
    let (mut file, size) = open_sized(rt, alloc, path)?;
    let mut front = [0u8; LINE_BYTES];
    let count = size.min(LINE_BYTES as u64) as usize;
    at_path(alloc, path, read_at(&mut file, 0, &mut front[..count]))?;
    let mut back = [0u8; HEAD_BYTES];
    let count = size.min(HEAD_BYTES as u64) as usize;
    let start = size - count as u64;
    at_path(alloc, path, read_at(&mut file, start, &mut back[..count]))?;
    if size == 0 || begins_volume(&front) || front.starts_with(&MAGIC) || back.starts_with(&MAGIC) {
        return Ok(true);
    }
    let mut walk = Walk::new(alloc, file, size)?;
    Ok(has_records(&mut walk) || first::open_damaged(&mut walk.file, size, alloc, u64::MAX).is_ok())
}

// Returns whether at least half of the bytes of a file are in records.
fn has_records<F: Read + Seek + Drop>(walk: &mut Walk<F>) -> bool {
    for _ in 0..u64::MAX {
        if walk.next().is_none() {
            break;
        }
    }
    walk.gap <= walk.size / 2
}

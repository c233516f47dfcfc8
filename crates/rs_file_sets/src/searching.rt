//! Looks for lost files and blocks in other files: in files that were renamed or moved, and at any byte of a file.
use crate::rolling::{RollingSum, Sums};
use crate::scanning::Scan;
use rs_folders::failure::{Result, warn};
use rs_folders::hashing::{CHUNK, hash_at, hash_path};
use rs_folders::identity::{Identity, identity_of, open_regular};
use rs_folders::names::{Shown, folder_to_open, path_in};
use rs_folders::progress::Progress;
use rs_folders::runs::places_in;
use rs_folders::source::{FileBlocks, Origin, SECTOR, read_at, read_some};
use rs_volume_files::scanner::State;
use rs_volumes::description::Kind;
use rs_volumes::hasher::{ByteHasher, ComputedDigest};
use rs_volumes::pieces::BlockSource;
use std::alloc::{AllocError, Global};
use std::collections::BTreeMap;
use std::io::{Read, Seek};
use std::rt::Runtime;
use std::{fs, io};

/// The search at every byte leaves a file after it has hashed this many blocks in vain, unless [`TRIED_TIMES`] allows
/// more of them. Such a block has the sums of a lost block, but not its digest. Without a limit, somebody could make a
/// file whose search takes very long.
const TRIES: u64 = 1000;

/// The blocks that [`TRIES`] counts may in any case have this many times the bytes of the file.
const TRIED_TIMES: u64 = 8;

/// The search at every byte leaves a file after this many places that cannot be read. Each of them costs a read that
/// fails, and a disk that fails can take seconds for it.
const MOST_UNREAD: u64 = 1000;

/// The number of files from which on a search prints a message.
const MANY_FILES: usize = 10_000;

/// The number of bytes from which on a search at every byte prints a message.
const MANY_BYTES: u64 = 1 << 30;

/// The files and blocks that were found in other files or at other places.
#[derive(Drop)]
pub struct Elsewhere {
    /// The indexes of the entries that were renamed or moved.
    pub files: Vec<usize>,
    /// The number of lost blocks that were found at another place.
    pub blocks: usize,
}

// A file in which lost blocks may be.
#[derive(Drop)]
struct Candidate {
    path: String,
    identity: Identity,
    size: u64,
}

// A search for the lost blocks of a set.
#[derive(Drop)]
struct Search<'a, R: Runtime> {
    rt: &'a R,
    alloc: Global,
    scan: &'a mut Scan,
    buffer: Vec<u8>,
    // The files below the folders that are searched, in order of their sizes.
    candidates: Vec<Candidate>,
    // The indexes of the candidates that were hashed, by their digests.
    hashed: BTreeMap<[u8; 32], usize>,
    // For each size, the index of the first candidate of this size that was not tried. Those before it were.
    next: BTreeMap<u64, usize>,
    // Whether a long search is announced, and bytes are named that cannot be read.
    is_told: bool,
    found: Elsewhere,
}

/// Looks for the lost blocks of a set below the folders, and records in `scan` where they were found. `to` is the
/// folder into which files are restored, if there is one. Files below this folder are left out.
///
/// The function makes three searches, in this order:
///
/// - for files with the length and the digest of a file that is not whole,
/// - for blocks of the set with the digest of a lost block,
/// - if more blocks are lost than recovery blocks are left, for lost blocks at every byte of the files that are not
///   whole files of the set.
///
/// A block counts as found only if it has its digest. If `is_told` is true, the function prints a message before a long
/// search, and a warning for each file of which the search at every byte leaves out bytes that cannot be read.
///
/// # Errors
///
/// Fails if memory cannot be allocated. A file or folder that cannot be read is left out.
pub fn find_elsewhere<R: Runtime>(
    rt: &R,
    alloc: Global,
    folders: &[&str],
    to: &Option<String>,
    scan: &mut Scan,
    is_told: bool,
) -> Result<Elsewhere> {
    let mut search = Search {
        rt,
        alloc,
        scan,
        buffer: vec![in alloc; 0u8; CHUNK]?,
        candidates: Vec::new(alloc),
        hashed: BTreeMap::new(alloc),
        next: BTreeMap::new(alloc),
        is_told,
        found: Elsewhere {
            files: Vec::new(alloc),
            blocks: 0,
        },
    };
    let before = search.scan.lost(alloc)?.len();
    if before > 0 {
        search.collect(folders, to)?;
        if search.find_files()? {
            search.check_blocks()?;
        }
        search.find_equal_blocks()?;
        search.find_anywhere(folders)?;
    }
    let after = search.scan.lost(alloc)?.len();
    let Search { mut found, .. } = search;
    found.blocks = before.saturating_sub(after);
    Ok(found)
}

// A file of the set that is not whole: its size, its index and its digest.
type Sought = (u64, usize, [u8; 32]);

impl<'a, R: Runtime> Search<'a, R> {
    fn is_whole(&self, index: usize) -> bool {
        matches!(self.scan.states.get(index), Some(State::Whole))
    }

    // Returns the files and folders that are left out of the search, sorted. These are the whole files of the set, the
    // volumes, and the folder into which files are restored. Links and empty folders of the set are not left out: a
    // file can have been moved into such a folder, or to the place to which such a link leads.
    fn known(&self, to: &Option<String>) -> Result<Vec<Identity>, AllocError> {
        let mut known = Vec::new(self.alloc);
        if let Some(to) = to {
            if let Some(own) = identity_of(self.rt, to.as_str()) {
                known.push(own)?;
            }
        }
        for (index, path) in self.scan.paths.iter().enumerate() {
            let is_known = match self.scan.description().entries.get(index) {
                Some(entry) => entry.kind == Kind::File && self.is_whole(index),
                None => true,
            };
            if is_known {
                if let Ok(metadata) = fs::metadata(self.rt, path.as_str()) {
                    known.push(Identity::of(&metadata))?;
                }
            }
        }
        known.sort()?;
        Ok(known)
    }

    // Collects the candidates: all files below the folders that are not left out.
    fn collect(&mut self, folders: &[&str], to: &Option<String>) -> Result<()> {
        let known = self.known(to)?;
        let mut waiting = Vec::new(self.alloc);
        for folder in folders {
            waiting.push(String::from_str(self.alloc, *folder)?)?;
        }
        for _ in 0..u64::MAX {
            let Some(folder) = waiting.pop() else {
                break;
            };
            let before = self.candidates.len();
            self.list(folder.as_str(), known.as_slice(), &mut waiting)?;
            if before < MANY_FILES && self.candidates.len() >= MANY_FILES {
                self.tell_long(folders, "looking for lost files in many files")?;
            }
        }
        self.candidates
            .sort_by(|one, other| one.size.cmp(&other.size))?;
        Ok(())
    }

    fn tell_long(&self, folders: &[&str], what: &'static str) -> io::Result<()> {
        if self.is_told {
            for folder in folders {
                let folder = Shown(*folder);
                eprintln!(self.rt; "rs_files: {what} below {folder}: this takes a while")?;
            }
        }
        Ok(())
    }

    // Adds files to the candidates, and folders to `waiting`. Symbolic links are left out.
    fn list(
        &mut self,
        folder: &str,
        known: &[Identity],
        waiting: &mut Vec<String>,
    ) -> Result<(), AllocError> {
        let Ok(entries) = fs::read_dir(self.rt, folder_to_open(folder)) else {
            return Ok(());
        };
        for entry in entries {
            let Ok(entry) = entry else {
                continue;
            };
            let path = path_in(self.alloc, folder, entry.file_name())?;
            let Ok(metadata) = fs::symlink_metadata(self.rt, path.as_str()) else {
                continue;
            };
            let identity = Identity::of(&metadata);
            if known.binary_search(&identity).is_ok() {
                continue;
            }
            if metadata.is_dir() {
                waiting.push(path)?;
            } else if metadata.is_file() {
                self.candidates.push(Candidate {
                    path,
                    identity,
                    size: metadata.len(),
                })?;
            }
        }
        Ok(())
    }

    // Looks for each file that is not whole among the whole files of the set, and among the candidates with the same
    // length. If a file with its bytes is found, the path of the entry is changed to that of this file. Returns whether
    // any was found.
    fn find_files(&mut self) -> Result<bool> {
        let (whole, sought) = self.sorted_files()?;
        let mut has_found = false;
        for (number, (size, index, digest)) in sought.iter().enumerate() {
            let (index, size) = (*index, *size);
            let copy = whole.binary_search_by(|(own, _)| own.cmp(digest));
            let path = match copy {
                Ok(at) => self.path_of_copy(whole.get(at).copied())?,
                Err(_) => self.file_with(index, size, digest, is_alone(&sought, number))?,
            };
            if let (Some(path), Some(own)) = (path, self.scan.paths.get_mut(index)) {
                *own = path;
                has_found = true;
            }
        }
        Ok(has_found)
    }

    // Returns two lists of files of the set: the whole ones, as digests and indexes in order of the digests, and those
    // that are not whole, in order of their sizes. The second list has no files without bytes, and none of version 1,
    // which has no digests of files.
    fn sorted_files(&self) -> Result<(Vec<([u8; 32], usize)>, Vec<Sought>), AllocError> {
        let (mut whole, mut sought) = (Vec::new(self.alloc), Vec::new(self.alloc));
        for (index, entry) in self.scan.description().entries.iter().enumerate() {
            if entry.kind != Kind::File {
                continue;
            }
            if self.is_whole(index) {
                whole.push((entry.digest, index))?;
            } else if entry.size > 0 && entry.digest != [0; 32] {
                sought.push((entry.size, index, entry.digest))?;
            }
        }
        whole.sort()?;
        sought.sort()?;
        Ok((whole, sought))
    }

    fn path_of_copy(&self, copy: Option<([u8; 32], usize)>) -> Result<Option<String>, AllocError> {
        let Some((_, index)) = copy else {
            return Ok(None);
        };
        match self.scan.paths.get(index) {
            Some(path) => Ok(Some(path.clone()?)),
            None => Ok(None),
        }
    }

    // Returns the path of a candidate with this size and digest, and notes that the file `index` was moved. `is_alone`
    // says that no other file of this size is looked for.
    fn file_with(
        &mut self,
        index: usize,
        size: u64,
        digest: &[u8; 32],
        is_alone: bool,
    ) -> Result<Option<String>, AllocError> {
        if self.hashed.get(digest).is_none() {
            // The file with the name of the entry is known to have other bytes.
            let own = match self.scan.paths.get(index) {
                Some(path) if is_alone => identity_of(self.rt, path.as_str()),
                _ => None,
            };
            self.hash_until(size, digest, own)?;
        }
        let Some(at) = self.hashed.get(digest) else {
            return Ok(None);
        };
        match self.candidates.get(*at) {
            Some(candidate) => {
                self.found.files.push(index)?;
                Ok(Some(candidate.path.clone()?))
            }
            None => Ok(None),
        }
    }

    // Hashes the candidates of this size until one has the digest. No candidate is hashed twice, and the file `own` is
    // left out.
    fn hash_until(
        &mut self,
        size: u64,
        digest: &[u8; 32],
        own: Option<Identity>,
    ) -> Result<(), AllocError> {
        let candidates = self.candidates.as_slice();
        let first = candidates.partition_point(|candidate| candidate.size < size);
        let from = self.next.get(&size).copied().unwrap_or(first);
        let to = candidates.partition_point(|candidate| candidate.size <= size);
        for at in from..to {
            let Some(candidate) = self.candidates.get(at) else {
                break;
            };
            if own == Some(candidate.identity) {
                continue;
            }
            let path = candidate.path.as_str();
            let Ok(found) = hash_path(self.rt, path, false, size, &mut self.buffer) else {
                continue;
            };
            self.hashed.insert(found, at)?;
            self.next.insert(size, at.saturating_add(1))?;
            if found == *digest {
                return Ok(());
            }
        }
        self.next.insert(size, to)?;
        Ok(())
    }

    // Looks for the lost blocks in the files of the set again, after files were found at other paths.
    fn check_blocks(&mut self) -> Result<()> {
        let k = self.scan.description().original_count as usize;
        let in_files = vec![in self.alloc; Some(Origin::Files); k]?;
        for block in self.scan.lost(self.alloc)? {
            if let Some(own) = self.hash_block(block, in_files.as_slice()) {
                self.scan.found.note(block, &own, Origin::Files);
            }
        }
        Ok(())
    }

    // Returns `None` if the bytes of the block cannot be read.
    fn hash_block(&self, block: usize, origins: &[Option<Origin>]) -> Option<ComputedDigest> {
        let holders = self.scan.holders(origins);
        let size = self.scan.description().block_bytes;
        let progress = Progress::new(self.rt, false, 0);
        let mut source = FileBlocks::new(self.rt, self.alloc, holders, progress);
        let mut hasher = ByteHasher::new();
        let mut start = 0u64;
        for _ in 0..u64::MAX {
            let end = start.saturating_add(CHUNK as u64).min(size);
            if end <= start {
                break;
            }
            match source.piece(block, start as usize, end as usize) {
                Ok(piece) => hasher.update(piece.as_slice()),
                Err(_) => return None,
            }
            start = end;
        }
        Some(hasher.finish())
    }

    fn digest(&self, block: usize) -> &[u8] {
        let start = block.saturating_mul(32);
        let digests = self.scan.description().digests.as_slice();
        digests.get(start..start.saturating_add(32)).unwrap_or(&[])
    }

    // Returns where the bytes of a block lie, or `None` if they do not lie one after another in one file or volume.
    fn single_place(&self, block: usize) -> Option<Origin> {
        match self.scan.found.places.get(block).copied()?? {
            Origin::Files => match places_in(self.scan.places.as_slice(), block) {
                [place] if place.bytes == self.scan.description().block_bytes => {
                    Some(Origin::Volume {
                        holder: place.file,
                        offset: place.offset,
                    })
                }
                _ => None,
            },
            origin => Some(origin),
        }
    }

    // Looks for lost blocks whose digest another block has that was found: both blocks have the same bytes.
    fn find_equal_blocks(&mut self) -> Result<()> {
        let lost = self.scan.lost(self.alloc)?;
        if lost.is_empty() {
            return Ok(());
        }
        let scan = &*self.scan;
        let count = scan.found.places.len();
        let mut found = Vec::new(self.alloc);
        for block in 0..count {
            if let Some(origin) = self.single_place(block) {
                found.push((block, origin))?;
            }
        }
        found.sort_by(|one, other| self.digest(one.0).cmp(self.digest(other.0)))?;
        for block in lost {
            if let Some((other, origin)) = self.equal_block(found.as_slice(), block) {
                self.scan.found.note_equal(block, other, origin);
            }
        }
        Ok(())
    }

    // Returns a block of `found` that may have the same digest as the block `block`, with its place. `found` is in
    // order of the digests. `note_equal` compares the two digests.
    fn equal_block(&self, found: &[(usize, Origin)], block: usize) -> Option<(usize, Origin)> {
        let digest = self.digest(block);
        let at = found.partition_point(|(other, _)| self.digest(*other) < digest);
        found.get(at).copied()
    }

    // Looks for lost blocks at every byte of the candidates, unless enough recovery blocks are left.
    fn find_anywhere(&mut self, folders: &[&str]) -> Result<()> {
        let counts = self.scan.counts();
        if counts.lost <= counts.recovery {
            return Ok(());
        }
        let lost = self.scan.lost(self.alloc)?;
        let bytes = self.scan.description().sums.as_slice();
        let mut sums = Sums::of(self.alloc, bytes, lost.as_slice())?;
        if bytes.is_empty() {
            return Ok(());
        }
        if self.candidate_bytes() >= MANY_BYTES {
            self.tell_long(
                folders,
                "looking for lost blocks at every byte of the files",
            )?;
        }
        for index in 0..self.candidates.len() {
            self.find_in(index, &mut sums)?;
        }
        Ok(())
    }

    fn candidate_bytes(&self) -> u64 {
        let mut total = 0u64;
        for candidate in &self.candidates {
            total = total.saturating_add(candidate.size);
        }
        total
    }

    // Looks for lost blocks at every byte of a candidate that can be read.
    fn find_in(&mut self, index: usize, sums: &mut Sums) -> Result<()> {
        let Some(candidate) = self.candidates.get(index) else {
            return Ok(());
        };
        let (size, path) = (candidate.size, candidate.path.clone()?);
        let Ok(file) = open_regular(self.rt, path.as_str(), false) else {
            return Ok(());
        };
        let block_bytes = self.scan.description().block_bytes;
        let mut windows = Windows::new(self.alloc, file, size, block_bytes)?;
        let has_found = self.find_blocks(&mut windows, sums)?;
        if let Some(error) = windows.error.take() {
            if self.is_told {
                let reason =
                    "warning: lost blocks are not looked for in the bytes that cannot be read";
                warn(self.rt, path.as_str(), format_args!("{reason}: {error}"));
            }
        }
        if has_found {
            self.scan.paths.push(path)?;
        }
        Ok(())
    }

    // Looks for lost blocks at every byte of a file, and returns whether any was found. After a block was found, the
    // search goes on at the next byte, and not after the block: in data with many zeros, or if files are equal, blocks
    // can overlap. A block that was found is not looked for again, so a run of zeros is hashed once.
    fn find_blocks<F: Read + Seek + Drop>(
        &mut self,
        windows: &mut Windows<F>,
        sums: &mut Sums,
    ) -> Result<bool, AllocError> {
        let holder = self.scan.paths.len();
        let most = windows.size.saturating_mul(TRIED_TIMES) / windows.length.max(1);
        let mut tries = TRIES.max(most);
        let mut has_found = false;
        for _ in 0..u64::MAX {
            if tries == 0 || !windows.find(sums) {
                break;
            }
            let blocks = self.blocks_in(windows, sums, holder)?;
            if blocks.is_empty() {
                tries -= 1;
            } else {
                has_found = true;
                sums.take(self.alloc, &windows.sum, blocks.as_slice())?;
            }
            windows.pass();
        }
        Ok(has_found)
    }

    // Returns the lost blocks that have the bytes of the window, in increasing order, and notes where they are.
    // `holder` is the index that the file gets in the list of paths.
    fn blocks_in<F: Read + Seek + Drop>(
        &mut self,
        windows: &mut Windows<F>,
        sums: &Sums,
        holder: usize,
    ) -> Result<Vec<usize>, AllocError> {
        let mut blocks = Vec::new(self.alloc);
        let offset = windows.at;
        let size = self.scan.description().block_bytes;
        let Ok(own) = hash_at(&mut windows.file, offset, size, &mut self.buffer) else {
            return Ok(blocks);
        };
        for block in sums.blocks_of(&windows.sum) {
            if self
                .scan
                .found
                .note(*block, &own, Origin::Volume { holder, offset })
            {
                blocks.push(*block)?;
            }
        }
        Ok(blocks)
    }
}

// Returns whether no other file of `sought` has the size of the one at `at`. `sought` is in order of the sizes.
fn is_alone(sought: &[Sought], at: usize) -> bool {
    let size = sought.get(at).copied().unwrap_or((0, 0, [0; 32])).0;
    for other in [at.wrapping_sub(1), at.saturating_add(1)] {
        match sought.get(other) {
            Some((own, _, _)) if *own == size => return false,
            _ => {}
        }
    }
    true
}

// A window that moves over a file byte by byte. It has as many bytes as a block.
#[derive(Drop)]
struct Windows<F: Drop> {
    file: F,
    // The number of bytes of the file.
    size: u64,
    // The number of bytes of the window.
    length: u64,
    // The offset in bytes of the window in the file.
    at: u64,
    // The sums of the window, if `is_summed` is true. Otherwise they must be computed.
    sum: RollingSum,
    is_summed: bool,
    // The number of places that could not be read, and the first error.
    unread: u64,
    error: Option<io::Error>,
    // Memory for the bytes that leave the window, and for those that enter it.
    leaving: Vec<u8>,
    entering: Vec<u8>,
}

impl<F: Read + Seek + Drop> Windows<F> {
    fn new(alloc: Global, file: F, size: u64, length: u64) -> Result<Windows<F>, AllocError> {
        Ok(Windows {
            file,
            size,
            length,
            at: 0,
            sum: RollingSum::new(length),
            is_summed: false,
            unread: 0,
            error: None,
            leaving: vec![in alloc; 0u8; CHUNK]?,
            entering: vec![in alloc; 0u8; CHUNK]?,
        })
    }

    // Moves the window by one byte. At the end of the file, or if the file cannot be read, the window has no sums then.
    fn pass(&mut self) {
        if self.slide_one().is_err() {
            self.at = self.at.saturating_add(1);
            self.is_summed = false;
        }
    }

    fn slide_one(&mut self) -> io::Result<()> {
        let (mut first, mut next) = ([0u8; 1], [0u8; 1]);
        read_at(&mut self.file, self.at, &mut first)?;
        read_at(
            &mut self.file,
            self.at.saturating_add(self.length),
            &mut next,
        )?;
        self.sum.slide(first[0], next[0]);
        self.at = self.at.saturating_add(1);
        Ok(())
    }

    // Computes the sums of the window. If bytes of it cannot be read, moves the window after them, and returns false.
    fn add_up(&mut self) -> bool {
        self.sum = RollingSum::new(self.length);
        let end = self.at.saturating_add(self.length);
        let mut next = self.at;
        for _ in 0..u64::MAX {
            let count = end.saturating_sub(next).min(self.leaving.len() as u64) as usize;
            if count == 0 {
                break;
            }
            let (read, error) = read_some(&mut self.file, next, &mut self.leaving[..count]);
            if read == 0 {
                self.skip(next, error);
                return false;
            }
            self.sum.add(self.leaving.get(..read).unwrap_or(&[]));
            next = next.saturating_add(read as u64);
        }
        self.is_summed = true;
        true
    }

    // Moves the window after the sector with the byte `offset`, which could not be read. If there was no error, the
    // file ends there, and the window moves to the end.
    fn skip(&mut self, offset: u64, error: Option<io::Error>) {
        self.is_summed = false;
        self.at = match error {
            Some(_) => offset.saturating_add(SECTOR - offset % SECTOR),
            None => self.size,
        };
        self.unread = self.unread.saturating_add(1);
        if self.error.is_none() {
            self.error = error;
        }
    }

    // Moves the window to the next place at which a block with its sums is looked for. Returns false if there is none
    // before the end of the file, or if too many places cannot be read.
    fn find(&mut self, sums: &Sums) -> bool {
        for _ in 0..u64::MAX {
            let last = match self.size.checked_sub(self.length) {
                Some(last) if self.length > 0 && self.at <= last => last,
                _ => return false,
            };
            if self.unread >= MOST_UNREAD {
                return false;
            }
            if !self.is_summed && !self.add_up() {
                continue;
            }
            if sums.has(&self.sum) {
                return true;
            }
            let left = last.saturating_sub(self.at);
            if left == 0 {
                return false;
            }
            self.roll(sums, left);
        }
        false
    }

    // Moves the window by at most `left` bytes, until a block with its sums is looked for. Moves it after bytes that
    // cannot be read, if one of the next two reads gives none.
    fn roll(&mut self, sums: &Sums, left: u64) {
        let count = self.leaving.len().min(self.entering.len());
        let count = left.min(count as u64) as usize;
        let end = self.at.saturating_add(self.length);
        let (first, error) = read_some(&mut self.file, self.at, &mut self.leaving[..count]);
        if first == 0 {
            return self.skip(self.at, error);
        }
        let (next, error) = read_some(&mut self.file, end, &mut self.entering[..count]);
        if next == 0 {
            return self.skip(end, error);
        }
        let leaving = self.leaving.get(..first).unwrap_or(&[]);
        let entering = self.entering.get(..next).unwrap_or(&[]);
        let moved = sums.roll(&mut self.sum, leaving, entering);
        self.at = self.at.saturating_add(moved as u64);
    }
}

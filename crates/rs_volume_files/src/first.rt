//! Reads volumes of version 1.
use crate::assembly::{LARGEST_DESCRIPTION, Set, check_memory};
use rs_folders::failure::{Failure, Result};
use rs_folders::hashing::{CHUNK, hash_at};
use rs_folders::source::read_at;
use rs_volumes::digest::{digest_of, is_digest};
use rs_volumes::first::{HEAD_BYTES, Head, read_description, read_head};
use rs_volumes::hasher::ComputedDigest;
use std::alloc::Global;
use std::io;
use std::io::{Read, Seek};

/// The number of bytes of a record before its block: 4 for the index of the block, and 4 that are zero.
pub const RECORD_OPENING_BYTES: u64 = 8;

/// The number of bytes of a head.
const HEAD: u64 = HEAD_BYTES as u64;

/// The largest number of bytes that are hashed to put two damaged copies of a description together.
const MOST_HASHED: u64 = 1 << 28;

/// Two copies of a description are put together only if they differ in at most this many runs of bytes.
const MOST_RUNS: usize = 12;

/// The records of a volume of version 1.
#[derive(Clone, Copy)]
pub struct Records {
    /// The offset in bytes of the first record.
    pub at: u64,
    /// The number of records that are read. A head has no digest, so its number of records can be wrong. If a head has
    /// the number of records that fit exactly between the two copies of the description, it is this number. Otherwise,
    /// it is the number of records that fit into the volume after the first copy.
    pub count: u64,
    /// Whether both heads and both copies of the description are right, and the records fill the bytes between them.
    pub is_whole: bool,
}

/// A volume of version 1.
#[derive(Drop)]
pub struct FirstVolume {
    /// The set of the volume.
    pub set: Set,
    /// The records of the volume.
    pub records: Records,
}

// A file that may be a volume of version 1, and its number of bytes.
#[derive(Drop)]
struct Source<'a, F> {
    file: &'a mut F,
    size: u64,
    alloc: Global,
    // The number of bytes of memory that its description may take.
    memory: u64,
}

/// Reads a volume by its first head and the first copy of its description. `size` is the number of bytes of the file,
/// and `memory` the number of bytes of memory that the description may take.
///
/// # Errors
///
/// Fails if the head or the description breaks a rule, if the description does not have its digest or needs more
/// memory, or if the file cannot be read.
pub fn open_front<F: Read + Seek>(
    file: &mut F,
    size: u64,
    alloc: Global,
    memory: u64,
) -> Result<FirstVolume> {
    let mut source = Source {
        file,
        size,
        alloc,
        memory,
    };
    let head = source.head(0)?;
    let bytes = source.copy(head.description_bytes, 0)?;
    if digest_of(bytes.as_slice()) != head.digest {
        return Err(Failure::of("its description does not have its digest"));
    }
    source.volume(bytes.as_slice())
}

/// Reads a volume whose first head or whose first copy of the description is damaged. The function tries, in this
/// order:
///
/// - the first head and the last one, each with the last copy of the description, or with both copies put together,
/// - the two copies without a head, if they are equal.
///
/// `size` and `memory` are those of [`open_front`].
///
/// # Errors
///
/// Fails if no way gives a description, or if the file cannot be read.
pub fn open_damaged<F: Read + Seek>(
    file: &mut F,
    size: u64,
    alloc: Global,
    memory: u64,
) -> Result<FirstVolume> {
    let mut source = Source {
        file,
        size,
        alloc,
        memory,
    };
    for offset in [0, source.last()] {
        if let Ok(volume) = source.with_head(offset) {
            return Ok(volume);
        }
    }
    source.without_head()
}

impl<'a, F: Read + Seek> Source<'a, F> {
    // Returns the offset of the last head.
    fn last(&self) -> u64 {
        self.size.saturating_sub(HEAD)
    }

    fn bytes(&mut self, offset: u64, count: u64) -> Result<Vec<u8>> {
        if count > LARGEST_DESCRIPTION || count > self.size.saturating_sub(offset) {
            return Err(Failure::of("it is too short"));
        }
        check_memory(count, &[], self.memory)?;
        let mut bytes = vec![in self.alloc; 0u8; count as usize]?;
        read_at(self.file, offset, &mut bytes)?;
        Ok(bytes)
    }

    fn head(&mut self, offset: u64) -> Result<Head> {
        let bytes = self.bytes(offset, HEAD)?;
        match bytes.first_chunk::<HEAD_BYTES>() {
            Some(bytes) => Ok(read_head(bytes)?),
            None => Err(Failure::of("it is too short")),
        }
    }

    // Reads the copy of the description that belongs to the head at the offset `head`. The first copy follows its head,
    // and the last copy is before its head.
    fn copy(&mut self, total: u64, head: u64) -> Result<Vec<u8>> {
        let offset = if head == 0 {
            HEAD
        } else {
            head.saturating_sub(total)
        };
        self.bytes(offset, total)
    }

    fn volume(&mut self, bytes: &[u8]) -> Result<FirstVolume> {
        check_memory(bytes.len() as u64, bytes, self.memory)?;
        let description = read_description(self.alloc, bytes)?;
        let set = Set {
            description,
            digest: digest_of(bytes),
            description_bytes: bytes.len() as u64,
        };
        let records = self.records(&set);
        Ok(FirstVolume { set, records })
    }

    fn records(&mut self, set: &Set) -> Records {
        let record = set
            .description
            .block_bytes
            .saturating_add(RECORD_OPENING_BYTES);
        let at = HEAD.saturating_add(set.description_bytes);
        let rest = self.size.saturating_sub(at);
        let between = rest.saturating_sub(at);
        let fits = between % record.max(1) == 0;
        let count = between / record.max(1);
        let first = fits && self.has_head(0, set, count);
        let last = fits && self.has_head(self.last(), set, count);
        Records {
            at,
            count: if first || last {
                count
            } else {
                rest / record.max(1)
            },
            is_whole: first && last && self.has_copy(0, set) && self.has_copy(self.last(), set),
        }
    }

    fn has_head(&mut self, offset: u64, set: &Set, count: u64) -> bool {
        match self.head(offset) {
            Ok(head) => {
                head.digest == set.digest
                    && head.description_bytes == set.description_bytes
                    && head.record_count == count
            }
            Err(_) => false,
        }
    }

    // `head` is the offset of the head to which the copy belongs.
    fn has_copy(&mut self, head: u64, set: &Set) -> bool {
        let copy = self.copy(set.description_bytes, head);
        copy.is_ok_and(|bytes| digest_of(bytes.as_slice()) == set.digest)
    }

    // Reads the volume by the head at this offset. If the last copy of the description is damaged, both copies are put
    // together.
    fn with_head(&mut self, offset: u64) -> Result<FirstVolume> {
        let head = self.head(offset)?;
        let mut first = self.copy(head.description_bytes, 0)?;
        let mut last = self.copy(head.description_bytes, self.last())?;
        if digest_of(last.as_slice()) == head.digest {
            self.volume(last.as_slice())
        } else if combine(self.alloc, &mut first, &mut last, &head.digest)? {
            self.volume(first.as_slice())
        } else {
            Err(Failure::of("its description does not have its digest"))
        }
    }

    // Reads the volume without its heads. The description itself says how long it is. It is believed if its two copies
    // are equal and a block of the volume has its digest.
    fn without_head(&mut self) -> Result<FirstVolume> {
        let room = self.size.saturating_sub(HEAD).min(LARGEST_DESCRIPTION);
        let mut count = room.min(1 << 16);
        for _ in 0..64 {
            let bytes = self.bytes(HEAD, count)?;
            match length_of(bytes.as_slice()) {
                Some(total) if total <= room => {
                    let bytes = self.bytes(HEAD, total)?;
                    let last = self.copy(total, self.last())?;
                    if bytes.as_slice() != last.as_slice() {
                        break;
                    }
                    let volume = self.volume(bytes.as_slice())?;
                    return self.believed(volume);
                }
                None if count < room && begins_description(bytes.as_slice()) => {
                    count = count.saturating_mul(2).min(room);
                }
                _ => break,
            }
        }
        Err(Failure::of("it has neither a record nor a description that can be read"))
    }

    // Returns the volume, or fails if no block in it has the digest that the description says.
    fn believed(&mut self, volume: FirstVolume) -> Result<FirstVolume> {
        let mut buffer = vec![in self.alloc; 0u8; CHUNK]?;
        let block_bytes = volume.set.description.block_bytes;
        let digests = volume.set.description.digests.as_slice();
        for number in 0..volume.records.count {
            let at = record_at(&volume.records, block_bytes, number);
            if let Ok((index, own)) = block_in(self.file, at, block_bytes, &mut buffer) {
                if is_digest(digests, index, &own.bytes) {
                    return Ok(volume);
                }
            }
        }
        Err(Failure::of("its heads are damaged, and no block has the digest in its description"))
    }
}

/// Returns the offset in bytes of a record of a volume.
pub fn record_at(records: &Records, block_bytes: u64, number: u64) -> u64 {
    let record = block_bytes.saturating_add(RECORD_OPENING_BYTES);
    records.at.saturating_add(number.saturating_mul(record))
}

/// Returns the index in the record at an offset, and the digest of the bytes of its block.
///
/// # Errors
///
/// Any error of the system. [`io::ErrorKind::UnexpectedEof`] if the file ends before the block does.
pub fn block_in<F: Read + Seek>(
    file: &mut F,
    at: u64,
    block_bytes: u64,
    buffer: &mut [u8],
) -> io::Result<(usize, ComputedDigest)> {
    let mut bytes = [0u8; 4];
    read_at(file, at, &mut bytes)?;
    let index = u32::from_le_bytes(bytes) as usize;
    let own = hash_at(
        file,
        at.saturating_add(RECORD_OPENING_BYTES),
        block_bytes,
        buffer,
    )?;
    Ok((index, own))
}

// A description begins with the numbers of the code and of the digest, which are both 1.
fn begins_description(bytes: &[u8]) -> bool {
    bytes.starts_with(&[1, 0, 0, 0, 1, 0, 0, 0])
}

// Returns the number in the 4 bytes from `index` on, or `None` if there are fewer bytes.
fn number_at(bytes: &[u8], index: usize) -> Option<u64> {
    let bytes = bytes.get(index..)?.first_chunk::<4>()?;
    Some(u64::from(u32::from_le_bytes(*bytes)))
}

// Returns the number of bytes of the whole description, or `None` if the bytes end before the last file in it.
fn length_of(bytes: &[u8]) -> Option<u64> {
    let blocks = number_at(bytes, 16)?.saturating_add(number_at(bytes, 20)?);
    let mut at = 28usize;
    for _ in 0..number_at(bytes, 24)? {
        let name = bytes.get(at.saturating_add(20)..)?.first_chunk::<2>()?;
        at = at
            .saturating_add(22)
            .saturating_add(usize::from(u16::from_le_bytes(*name)));
    }
    Some((at as u64).saturating_add(blocks.saturating_mul(32)))
}

// Returns the runs of bytes in which two copies differ, each as the index of its first byte and the index after its
// last byte. Runs with at most 16 equal bytes between them count as one run.
fn differing(alloc: Global, first: &[u8], last: &[u8]) -> Result<Vec<(usize, usize)>> {
    let mut runs: Vec<(usize, usize)> = Vec::new(alloc);
    for (index, (one, other)) in first.iter().zip(last).enumerate() {
        if one == other {
            continue;
        }
        let end = index.saturating_add(1);
        let start = match runs.pop() {
            Some((start, before)) if index.saturating_sub(before) <= 16 => start,
            Some(run) => {
                runs.push(run)?;
                index
            }
            None => index,
        };
        runs.push((start, end))?;
    }
    Ok(runs)
}

// Exchanges runs of bytes in which the copies differ, until `first` has the digest. Returns whether it has the digest
// in the end. Copies that differ in too many runs are only compared with the digest as they are.
fn combine(
    alloc: Global,
    first: &mut Vec<u8>,
    last: &mut Vec<u8>,
    digest: &[u8; 32],
) -> Result<bool> {
    let runs = differing(alloc, first.as_slice(), last.as_slice())?;
    let tries = if runs.len() <= MOST_RUNS {
        1u64 << runs.len().min(MOST_RUNS)
    } else {
        1
    };
    let most = MOST_HASHED / (first.len() as u64).max(1);
    for turn in 1..=tries.min(most.max(1)) {
        if digest_of(first.as_slice()) == *digest {
            return Ok(true);
        }
        // Each turn exchanges one run, as in a Gray code. So after all turns, each choice of runs was tried once.
        if let Some((start, end)) = runs.get(turn.trailing_zeros() as usize).copied() {
            exchange(first, last, start, end);
        }
    }
    Ok(false)
}

fn exchange(first: &mut [u8], last: &mut [u8], start: usize, end: usize) {
    for index in start..end.max(start) {
        if let (Some(one), Some(other)) = (first.get_mut(index), last.get_mut(index)) {
            std::mem::swap(one, other);
        }
    }
}

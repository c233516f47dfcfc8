//! Puts descriptions together from their parts.
use rs_folders::failure::{Failure, Result};
use rs_volumes::description::Description;
use rs_volumes::digest::digest_of;
use rs_volumes::part::{PART_BYTES, PART_OPENING_BYTES};
use rs_volumes::{part, read_description};
use std::alloc::{AllocError, Global};
use std::collections::BTreeMap;

/// The largest description that is written or read, in bytes.
pub const LARGEST_DESCRIPTION: u64 = 1 << 30;

/// The number of bytes that a part takes in memory in addition to its own bytes, approximately.
const PART_MEMORY: u64 = 200;

/// The number of bytes of memory that descriptions may always take. The program needs about as much for everything
/// else.
const LEAST_MEMORY: u64 = 32 << 20;

// Returns the number in the 4 bytes from `offset` on, or 0 if there are fewer bytes.
fn number_at(bytes: &[u8], offset: usize) -> u64 {
    let number = bytes.get(offset..).unwrap_or(&[]).first_chunk::<4>();
    number.map_or(0, |number| u64::from(u32::from_le_bytes(*number)))
}

// Returns about how many bytes of memory a description of `total` bytes takes. `bytes` are its first bytes, which have
// the numbers of blocks and of entries at the same places in both versions. Each entry has at least 22 bytes, and each
// digest of a block has 32 bytes, so larger numbers are not believed.
fn memory_for(total: u64, bytes: &[u8]) -> u64 {
    let blocks = number_at(bytes, 16)
        .saturating_add(number_at(bytes, 20))
        .min(total / 32);
    let entries = number_at(bytes, 24).min(total / 22);
    total
        .saturating_mul(3)
        .saturating_add(blocks.saturating_mul(100))
        .saturating_add(entries.saturating_mul(400))
}

/// Checks that `memory` bytes of memory are enough for a description of `total` bytes that begins with `bytes`. 32 MiB
/// are always allowed.
///
/// # Errors
///
/// Fails if the memory is not enough. The message says how much memory would do.
pub fn check_memory(total: u64, bytes: &[u8], memory: u64) -> Result<()> {
    let needed = memory_for(total, bytes);
    if needed <= memory.max(LEAST_MEMORY) {
        return Ok(());
    }
    let needed = needed.div_ceil(1 << 20);
    Err(Failure::of(format_args!(
        "its description needs about {needed} MiB of memory: allow this with --memory {needed}M"
    )))
}

/// The description of the set of a command.
#[derive(Drop)]
pub struct Set {
    /// The description.
    pub description: Description,
    /// The SHA-256 of the description, which identifies the set.
    pub digest: [u8; 32],
    /// The number of bytes of the description.
    pub description_bytes: u64,
}

/// A part of a description.
#[derive(Clone, Copy)]
pub struct Part<'a> {
    /// The number of bytes of the description.
    pub total: u64,
    /// The bytes of the description that the part holds.
    pub bytes: &'a [u8],
}

/// Reads a part from the body of its record, which has the index `index`. Returns `None` if the body has a fault, or if
/// the description is larger than [`LARGEST_DESCRIPTION`].
pub fn read_part(index: u32, body: &[u8]) -> Option<Part<'_>> {
    let (total, bytes) = part::read_part(index, body).ok()?;
    if total > LARGEST_DESCRIPTION {
        return None;
    }
    Some(Part { total, bytes })
}

/// The number of bytes of the body of the largest part.
pub const LARGEST_PART: u64 = PART_BYTES + PART_OPENING_BYTES as u64;

// The parts of one description that were found, by their indexes.
#[derive(Drop)]
struct Parts {
    total: u64,
    found: BTreeMap<u32, Vec<u8>>,
}

impl Parts {
    // Returns the number of parts of the whole description.
    fn count(&self) -> u64 {
        self.total.div_ceil(PART_BYTES)
    }

    // Returns the bytes of all parts, one after another. Each part is dropped after its bytes were copied, to save
    // memory.
    fn joined(&mut self, alloc: Global) -> Result<Vec<u8>, AllocError> {
        let mut bytes = Vec::new(alloc);
        for index in 0..u32::MAX {
            match self.found.remove(&index) {
                Some(part) => bytes.extend_from_slice(part.as_slice())?,
                None => break,
            }
        }
        Ok(bytes)
    }
}

/// Parts of the descriptions of several sets. Together they take at most about 1 GiB of memory. Further parts are left
/// out.
#[derive(Drop)]
pub struct Assembly {
    alloc: Global,
    // The number of bytes of memory that a description may take.
    memory: u64,
    sets: BTreeMap<[u8; 32], Parts>,
    // The number of bytes that the parts take.
    held: u64,
}

impl Assembly {
    /// Returns an assembly without parts. `memory` is the number of bytes of memory that a description may take.
    pub fn new(alloc: Global, memory: u64) -> Assembly {
        Assembly {
            alloc,
            memory,
            sets: BTreeMap::new(alloc),
            held: 0,
        }
    }

    /// Adds a part of the description with the digest `set`. Returns the set if its description is whole now.
    ///
    /// # Errors
    ///
    /// Fails if the description needs more memory than is allowed, if memory cannot be allocated, or if the
    /// description is whole and breaks a rule.
    pub fn add(&mut self, set: &[u8; 32], index: u32, part: Part<'_>) -> Result<Option<Set>> {
        check_memory(part.total, &[], self.memory)?;
        let room = PART_MEMORY.saturating_add(part.bytes.len() as u64);
        if self.held.saturating_add(room) > LARGEST_DESCRIPTION + (LARGEST_DESCRIPTION >> 4) {
            return Ok(None);
        }
        let mut parts = match self.sets.remove(set) {
            Some(parts) => parts,
            None => Parts {
                total: part.total,
                found: BTreeMap::new(self.alloc),
            },
        };
        if parts.total == part.total && !parts.found.contains_key(&index) {
            let bytes = Vec::from_slice(self.alloc, part.bytes)?;
            parts.found.insert(index, bytes)?;
            self.held = self.held.saturating_add(room);
        }
        if (parts.found.len() as u64) < parts.count() {
            self.sets.insert(*set, parts)?;
            return Ok(None);
        }
        let freed = parts
            .count()
            .saturating_mul(PART_MEMORY)
            .saturating_add(parts.total);
        self.held = self.held.saturating_sub(freed);
        self.complete(set, &mut parts)
    }

    // Returns the set whose parts are all there, or `None` if the description does not have its digest.
    fn complete(&self, set: &[u8; 32], parts: &mut Parts) -> Result<Option<Set>> {
        let bytes = parts.joined(self.alloc)?;
        if digest_of(bytes.as_slice()) != *set {
            return Ok(None);
        }
        check_memory(parts.total, bytes.as_slice(), self.memory)?;
        match read_description(self.alloc, bytes.as_slice()) {
            Ok(description) => Ok(Some(Set {
                description,
                digest: *set,
                description_bytes: parts.total,
            })),
            Err(fault) => Err(Failure::of(format_args!("its description is wrong: {fault}"))),
        }
    }
}

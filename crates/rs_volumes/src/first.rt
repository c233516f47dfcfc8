//! Version 1 of the format of volumes, which is only read.
ghost use Rattle.std.specs.Prelude.{◌≡◌, ◌<◌, ◌^◌, ◌==◌, [], All, IfOk, OnOk, Ok};
ghost use Rattle.std.specs.Str.{is_utf8};
ghost use Rattle.rs_volumes.specs.Description.{FileSet, entry_of, entries_of, set_of};
ghost use Rattle.rs_volumes.specs.Heads.{VolumeHead, HeadFits, head_of, head_spelling, head_in};
ghost use Rattle.rs_volumes.specs.Data.{blocks_of, data_of};
ghost use Rattle.rs_volumes.specs.Reading.{Reads, Gives};
ghost use Rattle.rs_volumes.specs.First.{is_first_name, comes_before, first_entry_at, first_entries_at, digests_in};
ghost use Rattle.rs_volumes.specs.First.{first_description_in, blocks_in, exceeds, is_too_large};
ghost use Rattle.rs_volumes.specs.First.{files_outcome, first_outcome};
ghost use Rattle.rs_volumes.specs.First.{IsFirstSound, first_spelling, first_reading};

use crate::checking::{allows_block, allows_counts, block_count, is_name, round_up};
use crate::description::{Description, Entry, Kind, Version};
use crate::fault::{Fault, ReadError};
use crate::numbers::{digest_in, fixed_of, magic_of, name_of, u32_at, u64_at};
use crate::opening::opening_of;
use std::alloc::Global;

/// The number of bytes of the head of a volume of version 1.
pub const HEAD_BYTES: usize = 64;

/// The first bytes of a head.
pub const MAGIC: [u8; 8] = [0x89, 0x52, 0x53, 0x56, 0x0D, 0x0A, 0x1A, 0x0A];

/// A block of at most this size is allowed, even if it has more bytes than every file.
const SMALL_BLOCK: u64 = 1 << 26;

/// The head of a volume of version 1: 64 bytes, which are both the first and the last bytes of the volume.
#[derive(Clone, Copy)]
pub struct Head {
    /// The number of bytes of the description.
    pub description_bytes: u64,
    /// The number of block records between the two copies of the description.
    pub record_count: u64,
    /// The SHA-256 of the description.
    pub digest: [u8; 32],
}

#[tactic(auto, unfolding(crate::specs::Heads::head_in))]
fn head_from(bytes: &[u8; 64]) -> Result<Head, Fault>
    ensures { Reads head_of result (head_in bytes.now) }
{
    let rest = magic_of(&MAGIC, &bytes[..])?;
    let rest = fixed_of(1, Fault::Version, rest)?;
    let rest = fixed_of(0, Fault::Reserved, rest)?;
    let (description_bytes, rest) = u64_at(rest)?;
    let (record_count, rest) = u64_at(rest)?;
    Ok(Head {
        description_bytes,
        record_count,
        digest: digest_in(rest),
    })
}

/// Reads a head from its bytes.
///
/// # Errors
///
/// In this order: [`Fault::Magic`], [`Fault::Version`], [`Fault::Reserved`].
pub fn read_head(bytes: &[u8; 64]) -> Result<Head, Fault>
    // If the function succeeds, the bytes are the spelling of the result.
    ensures found { IfOk result (λ h. bytes.now ≡ head_spelling (head_of h)) }
    // If the bytes are the spelling of a head, the result is this head.
    ensures only { (h : VolumeHead) → HeadFits h → bytes.now ≡ head_spelling h
        → Reads head_of result (Ok h) }
    // For all bytes, the definition `head_in` states the result: the head, or the fault that is reported.
    ensures exact { Reads head_of result (head_in bytes.now) }
{
    head_from(bytes)
}

#[tactic(auto, unfolding(crate::specs::First::first_entry_at))]
fn entry_of(alloc: Global, bytes: &[u8]) -> Result<(Entry, &[u8]), ReadError>
    ensures { Gives (λ x. (entry_of x.0, x.1.now)) result (first_entry_at bytes.now) }
{
    let (size, rest) = u64_at(bytes)?;
    let (seconds, rest) = u64_at(rest)?;
    let (mode, rest) = u32_at(rest)?;
    let (name, rest) = name_of(rest)?;
    let entry = Entry {
        kind: Kind::File,
        mode,
        size,
        seconds,
        nanoseconds: 0,
        name: Vec::from_slice(alloc, name)?,
        target: Vec::new(alloc),
        digest: [0; 32],
    };
    Ok((entry, rest))
}

fn entries_of(alloc: Global, count: u32, bytes: &[u8]) -> Result<(Vec<Entry>, &[u8]), ReadError>
    ensures { Gives (λ x. (entries_of x.0.items, x.1.now)) result
        (first_entries_at count bytes.now) }
{
    let mut entries = Vec::new(alloc);
    let mut rest = bytes;
    for _ in 0..count {
        let (entry, after) = entry_of(alloc, rest)?;
        entries.push(entry)?;
        rest = after;
    }
    Ok((entries, rest))
}

#[tactic(auto, unfolding(crate::specs::First::digests_in))]
fn digests_of(alloc: Global, blocks: u64, bytes: &[u8]) -> Result<Vec<u8>, ReadError>
    requires { blocks < 2 ^ 34 }
    ensures { Gives (λ v. v.items) result (digests_in blocks bytes.now) }
{
    let wanted = 32 * blocks;
    let given = bytes.len() as u64;
    if given < wanted {
        return Err(ReadError::Fault(Fault::Short));
    }
    if given > wanted {
        return Err(ReadError::Fault(Fault::Trailing));
    }
    Ok(Vec::from_slice(alloc, bytes)?)
}

// The result may be unsound: `checked_of` checks it.
#[tactic(auto, unfolding(crate::specs::First::first_description_in))]
fn description_of(alloc: Global, bytes: &[u8]) -> Result<Description, ReadError>
    ensures { Gives set_of result (first_description_in bytes.now) }
{
    let (opening, rest) = opening_of(bytes)?;
    let (entries, rest) = entries_of(alloc, opening.entry_count, rest)?;
    let blocks = u64::from(opening.original_count) + u64::from(opening.recovery_count);
    let digests = digests_of(alloc, blocks, rest)?;
    Ok(Description {
        version: Version::First,
        block_bytes: opening.block_bytes,
        original_count: opening.original_count,
        recovery_count: opening.recovery_count,
        volumes: 0,
        fields: Vec::new(alloc),
        entries,
        digests,
        sums: Vec::new(alloc),
    })
}

fn is_text(bytes: &[u8]) -> bool
    ensures { result ≡ is_utf8 bytes.now }
{
    match std::str::from_utf8(bytes) {
        Ok(_) => true,
        Err(_) => false,
    }
}

// Version 1 allows the names of version 2 that are UTF-8.
#[tactic(auto, unfolding(crate::specs::First::is_first_name))]
fn is_first_name(name: &[u8]) -> bool
    ensures { result ≡ is_first_name name.now }
{
    is_name(name) && is_text(name)
}

// In version 1, `/` has its place among the other bytes. In version 2 it is the smallest one (`is_before`).
#[tactic(auto, using(crate::proofs::FirstLemmas::steps_in_order))]
fn comes_before(one: &[u8], other: &[u8]) -> bool
    ensures { result ≡ comes_before one.now other.now }
{
    for (index, byte) in one.iter().enumerate() {
        if index >= other.len() {
            return false;
        }
        if *byte != other[index] {
            return *byte < other[index];
        }
    }
    one.len() < other.len()
}

fn check_files(files: &[Entry]) -> Result<(), Fault>
    ensures answer { result ≡ files_outcome [] (entries_of files.now) }
    ensures sized { OnOk result (All (λ file. file.size < 2 ^ 62) files.now) }
{
    let mut previous: &[u8] = b"";
    for file in files {
        if file.size >= 1 << 62 {
            return Err(Fault::Length);
        }
        if !is_first_name(file.name.as_slice()) {
            return Err(Fault::Name);
        }
        if !comes_before(previous, file.name.as_slice()) {
            return Err(Fault::Order);
        }
        previous = file.name.as_slice();
    }
    Ok(())
}

// Returns whether the files have `count` blocks. The loop counts down, so no sum can overflow.
fn fills(block_bytes: u64, count: u64, files: &[Entry]) -> bool
    requires block { 0 < block_bytes }
    requires block_fits { block_bytes < 2 ^ 63 }
    requires sized { All (λ file. file.size < 2 ^ 62) files.now }
    ensures { result ≡ (blocks_in block_bytes (entries_of files.now) == count) }
{
    let mut left = count;
    for file in files {
        let blocks = block_count(block_bytes, file.size);
        if blocks > left {
            return false;
        }
        left -= blocks;
    }
    left == 0
}

fn exceeds(block_bytes: u64, files: &[Entry]) -> bool
    requires sized { All (λ file. file.size < 2 ^ 62) files.now }
    ensures { result ≡ exceeds block_bytes (entries_of files.now) }
{
    for file in files {
        if block_bytes <= round_up(4096, file.size) {
            return false;
        }
    }
    true
}

#[tactic(auto, unfolding(crate::specs::First::is_too_large))]
fn is_too_large(block_bytes: u64, files: &[Entry]) -> bool
    requires sized { All (λ file. file.size < 2 ^ 62) files.now }
    ensures { result ≡ is_too_large block_bytes (entries_of files.now) }
{
    block_bytes > SMALL_BLOCK && exceeds(block_bytes, files)
}

#[tactic(auto, unfolding(crate::specs::First::first_outcome))]
fn check(description: &Description) -> Result<(), Fault>
    ensures { result ≡ first_outcome (set_of description.now) }
{
    if !allows_block(description.block_bytes) {
        return Err(Fault::BlockSize);
    }
    if !allows_counts(description.original_count, description.recovery_count) {
        return Err(Fault::Counts);
    }
    let files = description.entries.as_slice();
    check_files(files)?;
    if is_too_large(description.block_bytes, files) {
        return Err(Fault::LargeBlock);
    }
    let count = u64::from(description.original_count);
    if !fills(description.block_bytes, count, files) {
        return Err(Fault::Blocks);
    }
    Ok(())
}

#[tactic(auto, unfolding(crate::specs::First::first_reading))]
fn checked_of(alloc: Global, bytes: &[u8]) -> Result<Description, ReadError>
    ensures { Gives set_of result (first_reading bytes.now) }
{
    let description = description_of(alloc, bytes)?;
    match check(&description) {
        Ok(()) => Ok(description),
        Err(fault) => Err(ReadError::Fault(fault)),
    }
}

/// Reads a description of version 1, and checks whether the description is sound. No byte may follow the description.
///
/// # Errors
///
/// - [`ReadError::Fault`] if the bytes are no description. The fields are read in the order of their bytes:
///   [`Fault::Code`] and [`Fault::Digest`] for the first two numbers, [`Fault::Short`] where the bytes end too early,
///   and [`Fault::Trailing`] if bytes follow the last digest.
/// - [`ReadError::Memory`] if memory cannot be allocated for a field.
/// - [`ReadError::Fault`] if the description is not sound. The order of these checks is: [`Fault::BlockSize`],
///   [`Fault::Counts`], then for each file [`Fault::Length`], [`Fault::Name`] and [`Fault::Order`], and at the end
///   [`Fault::LargeBlock`] and [`Fault::Blocks`].
///
/// # Examples
///
/// If the bytes are the numbers 1 and 1 of four bytes each, and nothing else, the function fails with [`Fault::Short`].
/// If the first number is 2, the function fails with [`Fault::Code`].
pub fn read_description(alloc: Global, bytes: &[u8]) -> Result<Description, ReadError>
    // If the function succeeds, the result is a sound set of version 1, and the bytes are the spelling of this set.
    ensures found { IfOk result
        (λ d. IsFirstSound (set_of d) × (bytes.now ≡ first_spelling (set_of d))) }
    // If the bytes are the spelling of a sound set, the result is this set, or memory cannot be allocated.
    ensures only { (s : FileSet) → IsFirstSound s → bytes.now ≡ first_spelling s
        → Gives set_of result (Ok s) }
    // If the function succeeds, there are as many original blocks as the data of the set has blocks.
    ensures counted { IfOk result
        (λ d. d.original_count ≡ blocks_of d.block_bytes (data_of (set_of d))) }
    // For all bytes, the definition `first_reading` states the result: the set, or the fault that is reported.
    ensures exact { Gives set_of result (first_reading bytes.now) }
{
    checked_of(alloc, bytes)
}

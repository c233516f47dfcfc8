//! Checks whether a description of version 2 is sound: whether its numbers fit each other, and its names are safe.
ghost use Rattle.std.specs.Prelude.{◌≡◌, ◌+◌, ◌↔◌, ◌<◌, ◌≤◌, ◌^◌, ◌==◌, true, [], All, IfSome, OnOk, IsTrue, length};
ghost use Rattle.std.specs.List.{flat_map};
ghost use Rattle.rs_volumes.specs.Description.{set_of, entry_of, entries_of, fields_of, field_spelling, HasShortNames};
ghost use Rattle.rs_volumes.specs.Data.{blocks_of, round_up, end_after, end_of, below_limit, unit_of};
ghost use Rattle.rs_volumes.specs.Names.{has_parts, NoneInside};
ghost use Rattle.rs_volumes.specs.Sound.{allows_counts, allows_block, allows_target, is_file, is_large, known_fields};
ghost use Rattle.rs_volumes.specs.Sound.{entry_outcome, entries_outcome, data_outcome, set_outcome};

use crate::description::{Description, Entry, Field, Kind, Version};
use crate::fault::Fault;
pub use crate::names::is_before;
use crate::names::{has_parts, is_folder_of};
use reed_solomon_simd::ReedSolomonEncoder;

/// The number of bytes at whose multiples the files of a set of version 2 begin in its data.
pub const UNIT: u64 = 64;

/// The data of a set has fewer bytes than this.
pub const LIMIT: u64 = 1 << 62;

/// Returns how many blocks of `block_bytes` bytes are needed for `size` bytes. A last block that is not full counts.
///
/// # Examples
///
/// With blocks of 4096 bytes, 0, 1, 4096 and 4097 bytes have 0, 1, 1 and 2 blocks.
#[tactic(auto, unfolding(crate::specs::Data::blocks_of))]
pub fn block_count(block_bytes: u64, size: u64) -> u64
    requires block { 0 < block_bytes }
    requires block_fits { block_bytes < 2 ^ 63 }
    requires size_fits { size < 2 ^ 63 }
    ensures { result ≡ blocks_of block_bytes size }
{
    (size + (block_bytes - 1)) / block_bytes
}

/// Returns whether a name is allowed in a description of version 2. An allowed name is relative, and has no zero byte.
/// No part of the name is empty, `.` or `..`.
///
/// # Examples
///
/// `photos/2026/a.jpg` is allowed. `/etc/passwd`, `../a`, `a//b` and an empty name are not.
pub fn is_name(name: &[u8]) -> bool
    ensures { result ≡ has_parts [] name.now }
{
    has_parts(name)
}

/// Returns whether the numbers of blocks are allowed: the code supports them, or both are 0.
///
/// # Examples
///
/// The pairs (2000, 200) and (0, 0) are allowed. The pairs (0, 5) and (60000, 60000) are not.
#[tactic(auto, unfolding(crate::specs::Sound::allows_counts))]
pub fn allows_counts(original_count: u32, recovery_count: u32) -> bool
    ensures { result ≡ allows_counts original_count recovery_count }
{
    ReedSolomonEncoder::supports(original_count as usize, recovery_count as usize)
        || (original_count == 0 && recovery_count == 0)
}

/// Returns whether the size of a block is allowed: it is even, above zero, and at most 2^40 bytes.
#[tactic(auto, unfolding(crate::specs::Sound::allows_block))]
pub fn allows_block(block_bytes: u64) -> bool
    ensures answer { result ≡ allows_block block_bytes }
    ensures some { result ≡ true → 0 < block_bytes }
    ensures few { result ≡ true → block_bytes ≤ 2 ^ 40 }
{
    block_bytes > 0 && block_bytes % 2 == 0 && block_bytes <= 1 << 40
}

/// Returns the smallest multiple of `unit` that is at least `at`.
///
/// # Examples
///
/// The smallest multiples of 64 that are at least 0, 1, 64 and 65 are 0, 64, 64 and 128.
#[tactic(auto, unfolding(crate::specs::Data::round_up))]
pub fn round_up(unit: u64, at: u64) -> u64
    requires some { 0 < unit }
    requires unit_fits { unit ≤ 2 ^ 62 }
    requires at_fits { at < 2 ^ 62 }
    ensures { result ≡ round_up unit at }
{
    block_count(unit, at) * unit
}

/// Returns the end in the data of a file with `size` bytes, if the file before it ends at `at`. Returns `None` if the
/// end is 2^62 or more.
#[tactic(auto, using(crate::proofs::DataLemmas::ends_of_files))]
pub fn end_after(unit: u64, at: u64, size: u64) -> Option<u64>
    requires some { 0 < unit }
    requires unit_fits { unit ≤ 2 ^ 62 }
    requires at_fits { at < 2 ^ 62 }
    ensures answer { result ≡ below_limit (end_after unit at size) }
    ensures few { IfSome result (λ end. end < 2 ^ 62) }
{
    if size == 0 {
        return Some(at);
    }
    let start = round_up(unit, at);
    if start >= LIMIT || size >= LIMIT - start {
        return None;
    }
    Some(start + size)
}

/// Returns the number of bytes of the data of entries, if each file begins at a multiple of `unit`. Returns `None` if
/// this number is 2^62 or more.
///
/// # Examples
///
/// With the unit 64, files of 1, 0 and 65 bytes have data of 129 bytes.
pub fn data_end(unit: u64, entries: &[Entry]) -> Option<u64>
    requires some { 0 < unit }
    requires unit_fits { unit ≤ 2 ^ 62 }
    ensures answer { result ≡ below_limit (end_of unit 0 (entries_of entries.now)) }
    ensures few { IfSome result (λ end. end < 2 ^ 62) }
{
    let mut end = 0;
    for entry in entries {
        end = end_after(unit, end, entry.size)?;
    }
    Some(end)
}

/// Returns the number of bytes at whose multiples the files of a set begin in its data.
#[tactic(auto, unfolding(crate::specs::Data::unit_of, crate::specs::Data::unit_in))]
pub fn unit_of(description: &Description) -> u64
    ensures answer { result ≡ unit_of (set_of description.now) }
    ensures some { 0 < description.now.block_bytes → 0 < result }
    ensures few { description.now.block_bytes ≤ 2 ^ 62 → result ≤ 2 ^ 62 }
{
    match description.version {
        Version::First => description.block_bytes,
        Version::Second => UNIT,
    }
}

#[tactic(auto, unfolding(crate::specs::Sound::is_file))]
fn is_file(kind: Kind) -> bool
    ensures { result ≡ is_file kind }
{
    match kind {
        Kind::File => true,
        Kind::Link => false,
        Kind::Folder => false,
    }
}

// The target of a link is a path, and no path has a zero byte.
#[tactic(auto, unfolding(crate::specs::Sound::allows_target))]
fn allows_target(kind: Kind, target: &[u8]) -> bool
    ensures { result ≡ allows_target kind target.now }
{
    match kind {
        Kind::Link => !target.is_empty() && !target.contains(&0),
        Kind::File => target.is_empty(),
        Kind::Folder => target.is_empty(),
    }
}

#[tactic(auto, unfolding(crate::specs::Sound::entry_outcome))]
fn check_entry(entry: &Entry) -> Result<(), Fault>
    ensures { result ≡ entry_outcome (entry_of entry.now) }
{
    let is_file = is_file(entry.kind);
    if entry.mode >= 4096 {
        return Err(Fault::Mode);
    }
    if entry.nanoseconds >= 1_000_000_000 {
        return Err(Fault::Nanoseconds);
    }
    if entry.size >= LIMIT {
        return Err(Fault::Length);
    }
    if !is_file && entry.size != 0 {
        return Err(Fault::Size);
    }
    if !allows_target(entry.kind, entry.target.as_slice()) {
        return Err(Fault::Target);
    }
    if !is_file && entry.digest != [0; 32] {
        return Err(Fault::FileDigest);
    }
    if !is_name(entry.name.as_slice()) {
        return Err(Fault::Name);
    }
    Ok(())
}

fn check_entries(entries: &[Entry]) -> Result<(), Fault>
    ensures { result ≡ entries_outcome [] (entries_of entries.now) }
{
    let mut previous: &[u8] = b"";
    for entry in entries {
        check_entry(entry)?;
        let name = entry.name.as_slice();
        if !is_before(previous, name) {
            return Err(Fault::Order);
        }
        if is_folder_of(previous, name) {
            return Err(Fault::Inside);
        }
        previous = name;
    }
    Ok(())
}

// A field whose kind is 2^31 or more must be known to the reader, and this program knows none.
fn has_known_fields(fields: &[Field]) -> bool
    ensures { result ≡ known_fields (fields_of fields.now) }
{
    for field in fields {
        if field.kind >= 1 << 31 {
            return false;
        }
    }
    true
}

#[tactic(auto, unfolding(crate::specs::Sound::is_large))]
fn is_large(block_bytes: u64, end: u64) -> bool
    requires { end < 2 ^ 62 }
    ensures { result ≡ is_large block_bytes end }
{
    block_bytes > 4096 && block_bytes > round_up(4096, end)
}

#[tactic(auto, using(crate::proofs::CheckLemmas::outcomes_of_data))]
fn check_data(block_bytes: u64, count: u64, entries: &[Entry]) -> Result<(), Fault>
    requires block { 0 < block_bytes }
    requires block_fits { block_bytes ≤ 2 ^ 40 }
    ensures { result ≡ data_outcome block_bytes count (entries_of entries.now) }
{
    let Some(end) = data_end(UNIT, entries) else {
        return Err(Fault::Length);
    };
    if is_large(block_bytes, end) {
        return Err(Fault::LargeBlock);
    }
    if block_count(block_bytes, end) != count {
        return Err(Fault::Blocks);
    }
    Ok(())
}

/// Checks whether a description of version 2 is sound. The function does not look at the digests and sums of the
/// blocks.
///
/// # Errors
///
/// In this order: [`Fault::BlockSize`], [`Fault::Counts`], [`Fault::Volumes`], [`Fault::Field`], then for each entry
/// [`Fault::Mode`], [`Fault::Nanoseconds`], [`Fault::Length`], [`Fault::Size`], [`Fault::Target`],
/// [`Fault::FileDigest`], [`Fault::Name`], [`Fault::Order`] and [`Fault::Inside`], and at the end [`Fault::Length`] for
/// the data of all files, [`Fault::LargeBlock`] and [`Fault::Blocks`].
#[tactic(auto, unfolding(crate::specs::Sound::set_outcome))]
pub fn check(description: &Description) -> Result<(), Fault>
    // The definition `set_outcome` states the result: success, or the fault that is reported.
    ensures exact { result ≡ set_outcome (set_of description.now) }
    // If the function succeeds, no name of an entry is a folder of another one.
    ensures apart { OnOk result (NoneInside (entries_of description.now.entries.items)) }
{
    if !allows_block(description.block_bytes) {
        return Err(Fault::BlockSize);
    }
    if !allows_counts(description.original_count, description.recovery_count) {
        return Err(Fault::Counts);
    }
    if description.volumes == 0 {
        return Err(Fault::Volumes);
    }
    if !has_known_fields(description.fields.as_slice()) {
        return Err(Fault::Field);
    }
    let entries = description.entries.as_slice();
    check_entries(entries)?;
    let count = u64::from(description.original_count);
    check_data(description.block_bytes, count, entries)
}

/// Returns whether a description can be written: it has fewer than 2^32 entries, the permission bits of each entry are
/// below 2^16, each name and each target is shorter than 2^16 bytes, and the fields have fewer than 2^32 bytes in all.
pub fn fits(description: &Description) -> bool
    ensures count { IsTrue result → length description.now.entries.items < 2 ^ 32 }
    ensures names { IsTrue result → All HasShortNames description.now.entries.items }
    ensures fields { IsTrue result
        → length (flat_map field_spelling (fields_of description.now.fields.items)) < 2 ^ 32 }
    ensures no_other { length description.now.entries.items < 2 ^ 32
        → All HasShortNames description.now.entries.items
        → length (flat_map field_spelling (fields_of description.now.fields.items)) < 2 ^ 32
        → IsTrue result }
{
    let entries = description.entries.as_slice();
    if entries.len() >= 1 << 32 {
        return false;
    }
    has_short_names(entries) && has_short_fields(description.fields.as_slice())
}

// A description has 16 bits for each of these three numbers.
fn has_short_names(entries: &[Entry]) -> bool
    ensures { IsTrue result ↔ All HasShortNames entries.now }
{
    for entry in entries {
        if entry.mode >= 1 << 16 || entry.name.len() >= 1 << 16 || entry.target.len() >= 1 << 16 {
            return false;
        }
    }
    true
}

// A description has 32 bits for this number. The loop counts down, so no sum can overflow.
fn has_short_fields(fields: &[Field]) -> bool
    ensures { IsTrue result ↔ (length (flat_map field_spelling (fields_of fields.now)) < 2 ^ 32) }
{
    let mut left = (1usize << 32) - 1;
    for field in fields {
        let len = field.bytes.len();
        if left < 8 || len > left - 8 {
            return false;
        }
        left -= 8 + len;
    }
    true
}

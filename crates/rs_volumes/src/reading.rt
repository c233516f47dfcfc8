//! Reads a description of version 2 from its bytes.
ghost use Rattle.std.specs.Prelude.{◌≡◌, IfOk, Ok, length};
ghost use Rattle.rs_volumes.specs.Description.{FileSet, entry_of, entries_of, field_of, fields_of, set_of, spelling};
ghost use Rattle.rs_volumes.specs.Data.{blocks_of, data_of};
ghost use Rattle.rs_volumes.specs.Reading.{Reads, Gives, kind_at, entry_at, entries_at, field_at, fields_in, fields_at};
ghost use Rattle.rs_volumes.specs.Reading.{tail_in, description_in};
ghost use Rattle.rs_volumes.specs.Sound.{IsSound, reading};

use crate::checking::check;
use crate::description::{Description, Entry, Field, Kind, Version};
use crate::fault::{Fault, ReadError};
use crate::numbers::{digest_at, name_of, taken_of, u16_at, u32_at, u64_at};
use crate::opening::opening_of;
use std::alloc::Global;

#[tactic(auto, unfolding(crate::specs::Reading::kind_at, crate::specs::Reading::kind_with))]
fn kind_of(bytes: &[u8]) -> Result<(Kind, &[u8]), Fault>
    ensures { Reads (λ x. (x.0, x.1.now)) result (kind_at bytes.now) }
{
    let (number, rest) = u16_at(bytes)?;
    match number {
        1 => Ok((Kind::File, rest)),
        2 => Ok((Kind::Link, rest)),
        3 => Ok((Kind::Folder, rest)),
        _ => Err(Fault::Kind),
    }
}

#[tactic(auto, unfolding(crate::specs::Reading::entry_at))]
fn entry_of(alloc: Global, bytes: &[u8]) -> Result<(Entry, &[u8]), ReadError>
    ensures { Gives (λ x. (entry_of x.0, x.1.now)) result (entry_at bytes.now) }
{
    let (kind, rest) = kind_of(bytes)?;
    let (mode, rest) = u16_at(rest)?;
    let (nanoseconds, rest) = u32_at(rest)?;
    let (size, rest) = u64_at(rest)?;
    let (seconds, rest) = u64_at(rest)?;
    let (name, rest) = name_of(rest)?;
    let (target, rest) = name_of(rest)?;
    let (digest, rest) = digest_at(rest)?;
    let entry = Entry {
        kind,
        mode: u32::from(mode),
        size,
        seconds,
        nanoseconds,
        name: Vec::from_slice(alloc, name)?,
        target: Vec::from_slice(alloc, target)?,
        digest,
    };
    Ok((entry, rest))
}

fn entries_of(alloc: Global, count: u32, bytes: &[u8]) -> Result<(Vec<Entry>, &[u8]), ReadError>
    ensures { Gives (λ x. (entries_of x.0.items, x.1.now)) result (entries_at count bytes.now) }
{
    let mut entries = Vec::new(alloc);
    let mut rest = bytes;
    for _ in 0..count {
        let (entry, after) = entry_of(alloc, rest)?;
        entries.push(entry)?;
        rest = after;
    }
    Ok((entries, rest))
}

#[tactic(auto, unfolding(crate::specs::Reading::field_at))]
fn field_of(alloc: Global, bytes: &[u8]) -> Result<(Field, &[u8]), ReadError>
    ensures { Gives (λ x. (field_of x.0, x.1.now)) result (field_at bytes.now) }
{
    let (kind, rest) = u32_at(bytes)?;
    let (len, rest) = u32_at(rest)?;
    let (bytes, rest) = taken_of(len as usize, rest)?;
    let bytes = Vec::from_slice(alloc, bytes)?;
    Ok((Field { kind, bytes }, rest))
}

fn fields_in(alloc: Global, bytes: &[u8]) -> Result<Vec<Field>, ReadError>
    ensures { Gives (λ v. fields_of v.items) result (fields_in (length bytes.now) bytes.now) }
{
    let mut fields = Vec::new(alloc);
    let mut rest = bytes;
    while !rest.is_empty() {
        let (field, after) = field_of(alloc, rest)?;
        fields.push(field)?;
        rest = after;
    }
    Ok(fields)
}

#[tactic(auto, unfolding(crate::specs::Reading::fields_at))]
fn fields_of(alloc: Global, bytes: &[u8]) -> Result<(Vec<Field>, &[u8]), ReadError>
    ensures { Gives (λ x. (fields_of x.0.items, x.1.now)) result (fields_at bytes.now) }
{
    let (len, rest) = u32_at(bytes)?;
    let (bytes, rest) = taken_of(len as usize, rest)?;
    Ok((fields_in(alloc, bytes)?, rest))
}

// The first list holds the digests of all blocks, and the second one the sums of the original blocks.
#[tactic(auto, unfolding(crate::specs::Reading::tail_in))]
fn tail_of(
    alloc: Global,
    original_count: u32,
    recovery_count: u32,
    bytes: &[u8],
) -> Result<(Vec<u8>, Vec<u8>), ReadError>
    ensures { Gives (λ x. (x.0.items, x.1.items)) result
        (tail_in original_count recovery_count bytes.now) }
{
    let digests = 32 * (u64::from(original_count) + u64::from(recovery_count));
    let wanted = digests + 8 * u64::from(original_count);
    let given = bytes.len() as u64;
    if given < wanted {
        return Err(ReadError::Fault(Fault::Short));
    }
    if given > wanted {
        return Err(ReadError::Fault(Fault::Trailing));
    }
    let (digests, sums) = bytes.split_at(digests as usize);
    Ok((
        Vec::from_slice(alloc, digests)?,
        Vec::from_slice(alloc, sums)?,
    ))
}

// The result may be unsound: `checked_of` checks it.
#[tactic(auto, unfolding(crate::specs::Reading::description_in))]
fn description_of(alloc: Global, bytes: &[u8]) -> Result<Description, ReadError>
    ensures { Gives set_of result (description_in bytes.now) }
{
    let (opening, rest) = opening_of(bytes)?;
    let (volumes, rest) = u32_at(rest)?;
    let (fields, rest) = fields_of(alloc, rest)?;
    let (entries, rest) = entries_of(alloc, opening.entry_count, rest)?;
    let (digests, sums) = tail_of(alloc, opening.original_count, opening.recovery_count, rest)?;
    Ok(Description {
        version: Version::Second,
        block_bytes: opening.block_bytes,
        original_count: opening.original_count,
        recovery_count: opening.recovery_count,
        volumes,
        fields,
        entries,
        digests,
        sums,
    })
}

#[tactic(auto, unfolding(crate::specs::Sound::reading))]
fn checked_of(alloc: Global, bytes: &[u8]) -> Result<Description, ReadError>
    ensures { Gives set_of result (reading bytes.now) }
{
    let description = description_of(alloc, bytes)?;
    match check(&description) {
        Ok(()) => Ok(description),
        Err(fault) => Err(ReadError::Fault(fault)),
    }
}

/// Reads a description of version 2, and checks whether the description is sound. No byte may follow the description.
///
/// # Errors
///
/// - [`ReadError::Fault`] if the bytes are no description. The fields are read in the order of their bytes:
///   [`Fault::Code`] and [`Fault::Digest`] for the first two numbers, [`Fault::Kind`] for the kind of an entry,
///   [`Fault::Short`] where the bytes end too early, and [`Fault::Trailing`] if bytes follow the last sum.
/// - [`ReadError::Memory`] if memory cannot be allocated for a field.
/// - [`ReadError::Fault`] if the description is not sound: the first fault that [`check`] finds.
///
/// # Examples
///
/// If the bytes are the numbers 1 and 1 of four bytes each, and nothing else, the function fails with [`Fault::Short`].
/// If the first number is 2, the function fails with [`Fault::Code`].
pub fn read_description(alloc: Global, bytes: &[u8]) -> Result<Description, ReadError>
    // If the function succeeds, the result is a sound set, and the bytes are the spelling of this set.
    ensures found { IfOk result (λ d. IsSound (set_of d) × (bytes.now ≡ spelling (set_of d))) }
    // If the bytes are the spelling of a sound set, the result is this set, or memory cannot be allocated.
    ensures only { (s : FileSet) → IsSound s → bytes.now ≡ spelling s → Gives set_of result (Ok s) }
    // If the function succeeds, there are as many original blocks as the data of the set has blocks.
    ensures counted { IfOk result
        (λ d. d.original_count ≡ blocks_of d.block_bytes (data_of (set_of d))) }
    // For all bytes, the definition `reading` states the result: the set, or the fault that is reported.
    ensures exact { Gives set_of result (reading bytes.now) }
{
    checked_of(alloc, bytes)
}

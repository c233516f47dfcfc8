//! The body of a record that holds a part of a description.
ghost use Rattle.std.specs.Prelude.{◌≡◌, IfOk, Ok};
ghost use Rattle.rs_volumes.specs.Reading.{Reads};
ghost use Rattle.rs_volumes.specs.Parts.{DescriptionPart, part, PartFits, length_at, part_spelling, rest_in, part_in};

use crate::digest::digest_of;
use crate::fault::Fault;
use crate::numbers::{digest_at, u64_at};
use std::alloc::{AllocError, Global};

/// The number of bytes of the description in each part but the last one, which can have fewer.
pub const PART_BYTES: u64 = 4096;

/// The number of bytes in the body of a part before the bytes of the description: 32 for a digest, and 8 for the number
/// of bytes of the description.
pub const PART_OPENING_BYTES: usize = 40;

/// Returns the number of bytes of the description in the part with this index. `total` is the number of bytes of the
/// whole description. If the result is 0, there is no part with this index.
///
/// # Examples
///
/// A description of 5000 bytes has 4096 bytes in part 0, 904 bytes in part 1 and none in part 2.
#[tactic(auto, unfolding(crate::specs::Parts::length_at))]
pub fn part_bytes(index: u32, total: u64) -> u64
    ensures { result ≡ length_at index total }
{
    let start = u64::from(index) * PART_BYTES;
    if total <= start {
        return 0;
    }
    if total - start < PART_BYTES {
        total - start
    } else {
        PART_BYTES
    }
}

/// Writes the body of a part. `bytes` are the bytes of the description in this part, and `total` is the number of bytes
/// of the whole description.
///
/// # Errors
///
/// [`AllocError`] if memory cannot be allocated.
pub fn write_part(alloc: Global, total: u64, bytes: &[u8]) -> Result<Vec<u8>, AllocError>
    ensures { IfOk result (λ v. v.items ≡ part_spelling (part total bytes.now)) }
{
    let mut rest = Vec::new(alloc);
    rest.extend_from_slice(&total.to_le_bytes())?;
    rest.extend_from_slice(bytes)?;
    let digest = digest_of(rest.as_slice());
    let mut out = Vec::new(alloc);
    out.extend_from_slice(&digest)?;
    out.extend_from_slice(rest.as_slice())?;
    Ok(out)
}

#[tactic(auto, unfolding(crate::specs::Parts::rest_in))]
fn rest_of(index: u32, rest: &[u8]) -> Result<(u64, &[u8]), Fault>
    ensures { Reads (λ x. part x.0 x.1.now) result (rest_in index rest.now) }
{
    let (total, bytes) = u64_at(rest)?;
    let given = bytes.len() as u64;
    let wanted = part_bytes(index, total);
    if given == 0 {
        return Err(Fault::Short);
    }
    if given < wanted {
        return Err(Fault::Short);
    }
    if given > wanted {
        return Err(Fault::Trailing);
    }
    Ok((total, bytes))
}

#[tactic(auto, unfolding(crate::specs::Parts::part_in))]
fn part_from(index: u32, body: &[u8]) -> Result<(u64, &[u8]), Fault>
    ensures { Reads (λ x. part x.0 x.1.now) result (part_in index body.now) }
{
    let (digest, rest) = digest_at(body)?;
    if digest != digest_of(rest) {
        return Err(Fault::Check);
    }
    rest_of(index, rest)
}

/// Reads the part of a description from the body of its record, which has the index `index`. Returns the number of
/// bytes of the whole description, and the bytes of the description in this part.
///
/// # Errors
///
/// In this order: [`Fault::Short`] if the body has fewer than 32 bytes, [`Fault::Check`] if its digest is not that of
/// the other bytes, [`Fault::Short`] if the part has fewer bytes than the index and the number of bytes of the
/// description say, or none, and [`Fault::Trailing`] if it has more.
pub fn read_part(index: u32, body: &[u8]) -> Result<(u64, &[u8]), Fault>
    // If the function succeeds, the body is the spelling of the result, which has the length that its numbers say.
    ensures found { IfOk result (λ x. PartFits index (part x.0 x.1.now)
        × (body.now ≡ part_spelling (part x.0 x.1.now))) }
    // If the body is the spelling of a part of the right length, the result is this part.
    ensures only { (p : DescriptionPart) → PartFits index p → body.now ≡ part_spelling p
        → Reads (λ x. part x.0 x.1.now) result (Ok p) }
    // For all bytes, the definition `part_in` states the result: the part, or the fault that is reported.
    ensures exact { Reads (λ x. part x.0 x.1.now) result (part_in index body.now) }
{
    part_from(index, body)
}

//! The head of a record in a volume of version 2: 64 bytes.
ghost use Rattle.std.specs.Prelude.{◌≡◌, ◌++◌, IfOk, OnOk, Ok, length};
ghost use Rattle.rs_volumes.specs.Reading.{Reads};
ghost use Rattle.rs_volumes.specs.Records.{Head, HeadFits, head_of, front_spelling, head_spelling, front_in};
ghost use Rattle.rs_volumes.specs.Records.{check_of, head_in};

use crate::digest::digest_of;
use crate::fault::Fault;
use crate::numbers::{digest_in, magic_of, u32_at, u64_at};
use std::alloc::{AllocError, Global};

/// The number of bytes of the head of a record.
pub const RECORD_HEAD_BYTES: usize = 64;

/// The first bytes of a record. They include line ends, so a transfer that changes line ends changes them, too.
pub const MAGIC: [u8; 8] = [0x89, 0x52, 0x53, 0x56, 0x32, 0x0D, 0x0A, 0x1A];

/// The kind of a record whose body is a block.
pub const BLOCK: u32 = 1;

/// The kind of a record whose body is a part of the description.
pub const PART: u32 = 2;

/// The head of a record.
#[derive(Clone, Copy)]
pub struct RecordHead {
    /// What the body is: [`BLOCK`], [`PART`], or something that this version does not know.
    pub kind: u32,
    /// The index of the block, or of the part of the description.
    pub index: u32,
    /// The number of bytes of the body.
    pub body_bytes: u64,
    /// The SHA-256 of the description of the set.
    pub set: [u8; 32],
}

#[tactic(auto, unfolding(crate::specs::Records::check_of))]
fn check_of(front: &[u8]) -> [u8; 8]
    ensures { result ≡ check_of front.now }
{
    let digest = digest_of(front);
    [
        digest[0], digest[1], digest[2], digest[3], digest[4], digest[5], digest[6], digest[7],
    ]
}

fn put_front(out: &mut Vec<u8>, head: &RecordHead) -> Result<(), AllocError>
    ensures { OnOk result (out.new.items ≡ out.old.items ++ front_spelling (head_of head.now)) }
{
    out.extend_from_slice(&MAGIC)?;
    out.extend_from_slice(&head.kind.to_le_bytes())?;
    out.extend_from_slice(&head.index.to_le_bytes())?;
    out.extend_from_slice(&head.body_bytes.to_le_bytes())?;
    out.extend_from_slice(&head.set)?;
    Ok(())
}

/// Writes the head of a record as 64 bytes.
///
/// # Errors
///
/// [`AllocError`] if memory cannot be allocated.
pub fn write_record_head(alloc: Global, head: &RecordHead) -> Result<Vec<u8>, AllocError>
    ensures { IfOk result (λ v. v.items ≡ head_spelling (head_of head.now)) }
{
    let mut out = Vec::new(alloc);
    put_front(&mut out, head)?;
    let check = check_of(out.as_slice());
    out.extend_from_slice(&check)?;
    Ok(out)
}

#[tactic(auto, unfolding(crate::specs::Records::front_in))]
fn front_of(bytes: &[u8]) -> Result<RecordHead, Fault>
    requires { length bytes.now ≡ 56 }
    ensures { Reads head_of result (front_in bytes.now) }
{
    let rest = magic_of(&MAGIC, bytes)?;
    let (kind, rest) = u32_at(rest)?;
    let (index, rest) = u32_at(rest)?;
    let (body_bytes, rest) = u64_at(rest)?;
    Ok(RecordHead {
        kind,
        index,
        body_bytes,
        set: digest_in(rest),
    })
}

#[tactic(auto, unfolding(crate::specs::Records::head_in))]
fn head_from(bytes: &[u8; 64]) -> Result<RecordHead, Fault>
    ensures { Reads head_of result (head_in bytes.now) }
{
    let (front, check) = bytes.split_at(56);
    let head = front_of(front)?;
    if check != check_of(front).as_slice() {
        return Err(Fault::Check);
    }
    Ok(head)
}

/// Reads the head of a record from its bytes.
///
/// # Errors
///
/// In this order: [`Fault::Magic`], [`Fault::Check`].
pub fn read_record_head(bytes: &[u8; 64]) -> Result<RecordHead, Fault>
    // If the function succeeds, the bytes are the spelling of the result.
    ensures found { IfOk result (λ h. bytes.now ≡ head_spelling (head_of h)) }
    // If the bytes are the spelling of a head, the result is this head.
    ensures only { (h : Head) → HeadFits h → bytes.now ≡ head_spelling h
        → Reads head_of result (Ok h) }
    // For all bytes, the definition `head_in` states the result: the head, or the fault that is reported.
    ensures exact { Reads head_of result (head_in bytes.now) }
{
    head_from(bytes)
}

//! The numbers with which a description begins, in both versions.
ghost use Rattle.std.specs.Prelude.{◌≡◌, ◌++◌, OnOk};
ghost use Rattle.rs_volumes.specs.Description.{opening_spelling};
ghost use Rattle.rs_volumes.specs.Reading.{Reads, opening_at};

use crate::fault::Fault;
use crate::numbers::{fixed_of, u32_at, u64_at};
use std::alloc::AllocError;

/// The numbers with which a description begins.
#[derive(Clone, Copy)]
pub struct Opening {
    /// The size of a block in bytes.
    pub block_bytes: u64,
    /// The number of original blocks, k.
    pub original_count: u32,
    /// The number of recovery blocks, r.
    pub recovery_count: u32,
    /// The number of entries.
    pub entry_count: u32,
}

/// Reads the numbers with which a description begins, and returns the numbers and the remaining bytes.
#[tactic(auto, unfolding(crate::specs::Reading::opening_at))]
pub fn opening_of(bytes: &[u8]) -> Result<(Opening, &[u8]), Fault>
    ensures { Reads (λ x. (x.0, x.1.now)) result (opening_at bytes.now) }
{
    let rest = fixed_of(1, Fault::Code, bytes)?;
    let rest = fixed_of(1, Fault::Digest, rest)?;
    let (block_bytes, rest) = u64_at(rest)?;
    let (original_count, rest) = u32_at(rest)?;
    let (recovery_count, rest) = u32_at(rest)?;
    let (entry_count, rest) = u32_at(rest)?;
    let opening = Opening {
        block_bytes,
        original_count,
        recovery_count,
        entry_count,
    };
    Ok((opening, rest))
}

/// Appends the numbers with which a description begins.
pub fn put_opening(out: &mut Vec<u8>, opening: &Opening) -> Result<(), AllocError>
    ensures { OnOk result (out.new.items ≡ out.old.items ++ opening_spelling opening.now) }
{
    out.extend_from_slice(&1u32.to_le_bytes())?;
    out.extend_from_slice(&1u32.to_le_bytes())?;
    out.extend_from_slice(&opening.block_bytes.to_le_bytes())?;
    out.extend_from_slice(&opening.original_count.to_le_bytes())?;
    out.extend_from_slice(&opening.recovery_count.to_le_bytes())?;
    out.extend_from_slice(&opening.entry_count.to_le_bytes())?;
    Ok(())
}

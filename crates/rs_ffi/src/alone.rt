//! The check of a decode without recovery shards: all originals must be among the given shards.
ghost use Rattle.std.specs.Prelude.{◌≡◌, ◌≢◌, ℕ, ◌≤◌, List, MatchResult};
ghost use Rattle.rs_field.specs.code.OneCall.{note_outcome, originals_alone};
ghost use Rattle.rs_ffi.specs.Arrays.{items_of};
ghost use Rattle.rs_ffi.specs.Alone.{AreNoted};

use crate::layouts::RsShard;
use rs_field::error::Error;

// A bit for each index below 65536.
type Bits = [u64; 1024];

/// Checks that all originals are given. The index of each given original is noted in order, and then their number is
/// compared with `original_count`. The call allocates nothing. It is not inlined, so that its bits are off the stack
/// before the decode begins.
///
/// # Errors
///
/// - For each original in order: [`Error::InvalidOriginalShardIndex`] if its index is not below `original_count`, then
///   [`Error::DuplicateOriginalShardIndex`] if its index was noted before.
/// - [`Error::NotEnoughShards`] if originals are missing.
#[inline(never)]
pub fn check_alone(original_count: usize, originals: &[RsShard<'_>]) -> Result<(), Error>
    requires { original_count ≤ 65536 }
    ensures answer { result ≡ originals_alone original_count (items_of originals.now) }
    ensures memory { result ≢ Err Error.OutOfMemory }
{
    let mut bits: Bits = [0; 1024];
    for shard in originals {
        note(&mut bits, original_count, shard.index)?;
    }
    let original_received_count = originals.len();
    if original_received_count < original_count {
        return Err(Error::NotEnoughShards {
            original_count,
            original_received_count,
            recovery_received_count: 0,
        });
    }
    Ok(())
}

// Notes that the original with this index is given. Fails with `InvalidOriginalShardIndex` if the index is not below
// `original_count`, and then with `DuplicateOriginalShardIndex` if it was noted before.
fn note(bits: &mut Bits, original_count: usize, index: usize) -> Result<(), Error>
    requires { original_count ≤ 65536 }
    ensures answer { (indexes : List ℕ) → AreNoted indexes bits.old
        → MatchResult (note_outcome original_count indexes index)
        (λ all. (result ≡ Ok tt) × AreNoted all bits.new) (λ e. result ≡ Err e) }
    ensures memory { result ≢ Err Error.OutOfMemory }
{
    if index >= original_count {
        return Err(Error::InvalidOriginalShardIndex {
            original_count,
            index,
        });
    }
    let (word, bit) = (index / 64, index % 64);
    if (bits[word] >> bit) & 1 == 1 {
        return Err(Error::DuplicateOriginalShardIndex { index });
    }
    bits[word] |= 1 << bit;
    Ok(())
}

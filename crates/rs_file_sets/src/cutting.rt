//! Chooses the block size of a set, its numbers of blocks, and the size of the pieces that are coded at a time.
ghost use Rattle.std.specs.Prelude.{◌≡◌, ◌<◌, ◌≤◌, ◌^◌, ◌%◌};

use rs_folders::failure::{Failure, Result};
use rs_volumes::checking::{allows_block, allows_counts};
use rs_volumes::creating::Shape;
use rs_volumes::description::Description;

/// The largest number of original blocks by default.
const BLOCKS: u64 = 2000;

/// The code supports fewer original blocks than this.
const MOST_BLOCKS: u64 = 65536;

/// The least number of recovery blocks of a percentage, unless the set has no blocks.
const LEAST_RECOVERY: u64 = 2;

/// The default size of a block is a multiple of this number of bytes.
const PAGE: u64 = 4096;

/// The number of pages of [`PAGE`] bytes in the largest block, which has 2^40 bytes.
const MOST_PAGES: u64 = 1 << 28;

/// The number of recovery blocks that a request asks for.
#[derive(Clone, Copy)]
pub enum Recovery {
    /// A percentage of the number of original blocks, but at least 2 blocks.
    Percent(u32),
    /// A number of blocks.
    Count(u32),
    /// As many blocks as are needed so that any `lose` of `volumes` volumes may be lost. The blocks are dealt to the
    /// volumes in turn.
    Spread {
        /// The number of volumes.
        volumes: u32,
        /// How many of them may be lost.
        lose: u32,
    },
}

/// The block size of a set and its numbers of blocks.
#[derive(Clone, Copy)]
pub struct Cut {
    /// The size of a block in bytes.
    pub block_bytes: u64,
    /// The number of original blocks, k.
    pub original_count: u32,
    /// The number of recovery blocks, r.
    pub recovery_count: u32,
}

// Cuts data into blocks of this size. Returns `None` if there are more than `wanted` blocks, or if the code does not
// support the numbers of blocks.
fn cut_into(data_bytes: u64, block_bytes: u64, wanted: u64, recovery: Recovery) -> Option<Cut> {
    if block_bytes == 0 || data_bytes.div_ceil(block_bytes) > wanted.min(MOST_BLOCKS) {
        return None;
    }
    let original_count = data_bytes.div_ceil(block_bytes).min(MOST_BLOCKS) as u32;
    let recovery_count = recovery_count(u64::from(original_count), recovery);
    if allows_counts(original_count, recovery_count) {
        Some(Cut {
            block_bytes,
            original_count,
            recovery_count,
        })
    } else {
        None
    }
}

// Cuts data into blocks of the smallest size that `cut_into` accepts among the multiples of 4096 bytes. The search
// halves the range in each step, because `cut_into` accepts each size that is larger than an accepted one. Returns
// `None` if blocks of 2^40 bytes are too small.
fn cut_small(data_bytes: u64, wanted: u64, recovery: Recovery) -> Option<Cut> {
    let mut low = 0u64;
    let mut high = MOST_PAGES;
    let mut cut = cut_into(data_bytes, high * PAGE, wanted, recovery)?;
    for _ in 0..64 {
        let gap = high.saturating_sub(low);
        if gap <= 1 {
            break;
        }
        let middle = low.saturating_add(gap / 2);
        match cut_into(data_bytes, middle.saturating_mul(PAGE), wanted, recovery) {
            Some(smaller) => {
                cut = smaller;
                high = middle;
            }
            None => low = middle,
        }
    }
    Some(cut)
}

/// Chooses the block size and the numbers of blocks of data with `data_bytes` bytes. If `block` is `None`, the block
/// size is the smallest multiple of 4096 bytes for which the data has at most 2000 blocks, and the code supports the
/// numbers of blocks. If `block` is larger than the data, the block size is that of the data, rounded up to a multiple
/// of 4096.
///
/// # Errors
///
/// In this order, fails if:
///
/// - the data has 2^62 bytes or more,
/// - the block size is odd, 0, or above 2^40,
/// - the data has more than 65536 blocks, or the code does not support the numbers of blocks. The message says which
///   block size would do, or why none would do.
pub fn cut_data(data_bytes: u64, block: Option<u64>, recovery: Recovery) -> Result<Cut> {
    if data_bytes >= 1 << 62 {
        return Err(Failure::of("the files have 2^62 bytes or more: no set can have such files"));
    }
    let Some(block) = block else {
        return match cut_small(data_bytes, BLOCKS, recovery) {
            Some(cut) => Ok(cut),
            None => Err(too_much(data_bytes, recovery)),
        };
    };
    if !allows_block(block) {
        return Err(Failure::of("a block must have an even number of bytes, from 2 to 2^40"));
    }
    // Data without bytes may have a block of 4096 bytes.
    let largest = data_bytes.div_ceil(PAGE).max(1).saturating_mul(PAGE);
    let block = block.min(largest);
    if let Some(cut) = cut_into(data_bytes, block, MOST_BLOCKS, recovery) {
        return Ok(cut);
    }
    match cut_small(data_bytes, MOST_BLOCKS, recovery) {
        Some(cut) => {
            let needed = cut.block_bytes;
            Err(Failure::of(format_args!(
                "blocks of {block} bytes are too small for these files and this many recovery blocks: \
                 use --block {needed} or a larger number"
            )))
        }
        None => Err(too_much(data_bytes, recovery)),
    }
}

// Returns why no block size will do.
fn too_much(data_bytes: u64, recovery: Recovery) -> Failure {
    if cut_small(data_bytes, MOST_BLOCKS, recovery).is_some() {
        return Failure::of(format_args!(
            "the files are too large for {BLOCKS} blocks, the largest number by default: use --block \
             1024G, or make several sets of fewer files"
        ));
    }
    if data_bytes.div_ceil(MOST_PAGES * PAGE) < MOST_BLOCKS {
        return Failure::of(
            "no block size allows this many recovery blocks: ask for fewer with -r, or make several sets \
             of fewer files",
        );
    }
    Failure::of(
        "the files have more than 65535 blocks, even with the largest blocks of 2^40 bytes: make \
         several sets of fewer files",
    )
}

// Returns the number of recovery blocks for this number of original blocks. A percentage gives at least 2 and at most
// 65536 recovery blocks. A set without blocks has no recovery blocks.
fn recovery_count(blocks: u64, recovery: Recovery) -> u32
    requires { blocks < 2 ^ 32 }
{
    if blocks == 0 {
        return 0;
    }
    match recovery {
        Recovery::Count(count) => count,
        Recovery::Percent(percent) => {
            let count = blocks * u64::from(percent) / 100;
            count.max(LEAST_RECOVERY).min(65536) as u32
        }
        Recovery::Spread { volumes, lose } => {
            // With this share, the volumes that are left hold at least as many blocks as there are original blocks, and
            // a lost volume holds at most one share.
            let left = u64::from(volumes.saturating_sub(lose)).max(1);
            let share = blocks.div_ceil(left);
            share.saturating_mul(u64::from(lose)).min(1 << 31) as u32
        }
    }
}

/// Returns the numbers of blocks of a set, and the size of a block.
pub fn shape_of(description: &Description) -> Shape {
    Shape {
        original_count: description.original_count as usize,
        recovery_count: description.recovery_count as usize,
        block_bytes: description.block_bytes as usize,
    }
}

/// Returns how many bytes of each block are coded at a time, so that the program needs about `memory` bytes.
///
/// The result is a multiple of 64, and at least 64 even if more memory than `memory` is needed.
pub fn piece_bytes(shape: &Shape, memory: u64) -> usize
    ensures some { 0 < result }
    ensures chunks { result % 64 ≡ 0 }
{
    let k = shape.original_count.min(65536) as u64;
    let r = shape.recovery_count.min(65536) as u64;
    let rows = k.max(r) + 2 * k.min(r);
    let fixed = 24_000_000 + 400 * (k + r) + 2 * rows * 4096;
    let left = memory.saturating_sub(fixed);
    let bytes = (left / (k + r + 1)).min((shape.block_bytes as u64).min(1 << 40) + 64);
    ((bytes / 64) * 64).max(64) as usize
}

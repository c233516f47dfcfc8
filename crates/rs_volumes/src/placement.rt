//! Where the bytes of the files lie in the original blocks.
ghost use Rattle.std.specs.Prelude.{◌≡◌, ◌+◌, ◌*◌, ◌<◌, ◌≤◌, ◌^◌, ◌++◌, All, OnOk, IfOk};
ghost use Rattle.rs_volumes.specs.Description.{entries_of, set_of};
ghost use Rattle.rs_volumes.specs.Data.{unit_of};
ghost use Rattle.rs_volumes.specs.Laid.{EachByteOnce, HoldFiles};
ghost use Rattle.rs_volumes.specs.Reading.{Gives};
ghost use Rattle.rs_volumes.specs.Places.{Cover, IsPlaced, Rises, place_in, file_places, places_in};

use crate::checking::{allows_block, block_count, end_after, unit_of};
use crate::description::Description;
use crate::fault::{Fault, ReadError};
use std::alloc::{AllocError, Global};

/// A run of bytes of a file that lies in an original block.
#[derive(Clone, Copy, Debug)]
pub struct Place {
    /// The index of the block.
    pub block: usize,
    /// The offset in bytes of the run in the block.
    pub at: u64,
    /// The index of the file among the entries of the description.
    pub file: usize,
    /// The offset in bytes of the run in the file.
    pub offset: u64,
    /// The number of bytes of the run. It is above zero.
    pub bytes: u64,
}

// A file in the data: its index, its first byte, and the byte after its last one.
#[derive(Clone, Copy)]
struct Extent {
    file: usize,
    start: u64,
    end: u64,
}

#[tactic(auto, unfolding(crate::specs::Places::place_in))]
fn place_in(block_bytes: u64, extent: &Extent, block: u64) -> Place
    requires fits { block * block_bytes + block_bytes < 2 ^ 64 }
    requires begins { extent.now.start < block * block_bytes + block_bytes }
    requires ends { block * block_bytes < extent.now.end }
    requires some { extent.now.start < extent.now.end }
    ensures { result ≡ place_in block_bytes extent.now.file extent.now.start extent.now.end block }
{
    let first = block * block_bytes;
    let from = extent.start.max(first);
    let until = extent.end.min(first + block_bytes);
    Place {
        block: block as usize,
        at: from - first,
        file: extent.file,
        offset: from - extent.start,
        bytes: until - from,
    }
}

fn push_places(places: &mut Vec<Place>, block_bytes: u64, extent: &Extent) -> Result<(), AllocError>
    requires block { 0 < block_bytes }
    requires block_fits { block_bytes ≤ 2 ^ 40 }
    requires some { extent.now.start < extent.now.end }
    requires end_fits { extent.now.end < 2 ^ 62 }
    ensures { OnOk result (places.new.items
        ≡ places.old.items ++ file_places block_bytes extent.now.file extent.now.start extent.now.end) }
{
    for block in extent.start / block_bytes..block_count(block_bytes, extent.end) {
        places.push(place_in(block_bytes, extent, block))?;
    }
    Ok(())
}

/// Returns the places of the bytes of the files of a set, in order of the data.
///
/// # Errors
///
/// - [`Fault::BlockSize`] if the size of a block is zero, odd, or above 2^40 bytes.
/// - [`Fault::Length`] if the data of the files has 2^62 bytes or more.
/// - [`ReadError::Memory`] if memory cannot be allocated.
///
/// # Examples
///
/// With blocks of 4096 bytes, let files have 4097 bytes and 10 bytes. In version 2 the places are the bytes 0 to 4095
/// of block 0 for the first file, byte 0 of block 1 for its last byte, and the bytes 64 to 73 of block 1 for the second
/// file.
pub fn places_of(alloc: Global, description: &Description) -> Result<Vec<Place>, ReadError>
    // The definition `places_in` states the result: the places, or the fault that is reported.
    ensures exact { Gives (λ v. v.items) result (places_in (set_of description.now)) }
    // The places cover each file exactly once, in order.
    ensures cover { IfOk result
        (λ places. Cover (entries_of description.now.entries.items) places.items) }
    // Each place lies in its file and in its block, and its position in the data is that of its bytes of the file.
    ensures placed { IfOk result (λ places. All (IsPlaced (set_of description.now)) places.items) }
    // The positions rise, and no place overlaps the next one.
    ensures rising { IfOk result (λ places. Rises description.now.block_bytes 0 places.items) }
    // Each byte of each file is at exactly one place.
    ensures once { IfOk result
        (λ places. EachByteOnce (entries_of description.now.entries.items) places.items) }
    // In the blocks of the files, which are laid end to end, the bytes at the places of a file are those of the file.
    ensures files { IfOk result (λ places. HoldFiles (set_of description.now) places.items) }
{
    let block_bytes = description.block_bytes;
    if !allows_block(block_bytes) {
        return Err(ReadError::Fault(Fault::BlockSize));
    }
    let unit = unit_of(description);
    let mut places = Vec::new(alloc);
    let mut at = 0;
    for (file, entry) in description.entries.as_slice().iter().enumerate() {
        let Some(end) = end_after(unit, at, entry.size) else {
            return Err(ReadError::Fault(Fault::Length));
        };
        if entry.size > 0 {
            let start = end - entry.size;
            push_places(&mut places, block_bytes, &Extent { file, start, end })?;
        }
        at = end;
    }
    Ok(places)
}

//! Where the records lie in a volume of version 2 that this program writes. A reader does not need this to find
//! records, but `verify` uses it to know how many records a whole volume has.
use rs_volumes::part::{PART_BYTES, PART_OPENING_BYTES};
use rs_volumes::record::RECORD_HEAD_BYTES;
use std::alloc::{AllocError, Global};

/// The number of bytes of the line of text with which a volume begins.
pub const LINE_BYTES: usize = 128;

/// The text of this line, without the blanks and the line end after it.
const LINE: &[u8] =
    b"Reed-Solomon volume of rs_files, format 2. FORMAT.md of rs_files describes it.";

/// Returns the line of text with which a volume begins.
///
/// # Errors
///
/// [`AllocError`] if memory cannot be allocated.
pub fn first_line(alloc: Global) -> Result<Vec<u8>, AllocError> {
    let mut line = Vec::from_slice(alloc, LINE)?;
    line.resize(LINE_BYTES - 1, b' ')?;
    line.push(b'\n')?;
    Ok(line)
}

/// Returns whether these bytes begin with the text of the first line of a volume of version 2.
pub fn begins_volume(bytes: &[u8]) -> bool {
    bytes.starts_with(LINE)
}

/// How blocks are dealt to volumes: the blocks from the index `first` on, in turn.
#[derive(Clone, Copy)]
pub struct Deal {
    /// The index of the first block that is dealt.
    pub first: u64,
    /// The number of blocks that are dealt.
    pub blocks: u64,
    /// The number of volumes.
    pub volumes: u64,
}

impl Deal {
    /// Returns how the blocks of a set are dealt. A single volume gets the recovery blocks, and several volumes get all
    /// blocks.
    pub fn of(original_count: u32, recovery_count: u32, volumes: u32) -> Deal {
        let (originals, recovery) = (u64::from(original_count), u64::from(recovery_count));
        let (first, blocks) = if volumes <= 1 {
            (originals, recovery)
        } else {
            (0, originals + recovery)
        };
        Deal {
            first,
            blocks,
            volumes: u64::from(volumes).max(1),
        }
    }

    /// Returns the number of blocks of the volume with this number.
    pub fn blocks_in(&self, volume: u64) -> u64 {
        let volumes = self.volumes.max(1);
        let more = u64::from(volume < self.blocks % volumes);
        (self.blocks / volumes).saturating_add(more)
    }

    /// Returns the number of the volume to which a block is dealt, and the number of its record among the block records
    /// of this volume. Returns `None` if no volume gets this block.
    pub fn record_of(&self, index: u64) -> Option<(u64, u64)> {
        let slot = index.checked_sub(self.first)?;
        if slot >= self.blocks {
            return None;
        }
        let volumes = self.volumes.max(1);
        Some((slot % volumes, slot / volumes))
    }

    /// Returns the index of the block that is dealt to this volume as its block record `record`.
    pub fn block_of(&self, volume: u64, record: u64) -> u64 {
        record
            .saturating_mul(self.volumes)
            .saturating_add(volume)
            .saturating_add(self.first)
    }
}

/// The places of the records of one volume.
#[derive(Clone, Copy)]
pub struct Layout {
    /// The number of block records.
    pub blocks: u64,
    /// The number of bytes of a block.
    pub block_bytes: u64,
    /// The number of bytes of the description.
    pub description_bytes: u64,
}

impl Layout {
    fn record_bytes(&self) -> u64 {
        self.block_bytes.saturating_add(RECORD_HEAD_BYTES as u64)
    }

    /// Returns the number of parts of the description.
    pub fn parts(&self) -> u64 {
        self.description_bytes.div_ceil(PART_BYTES)
    }

    /// Returns the number of bytes of a copy of the description: of the records of all its parts.
    pub fn copy_bytes(&self) -> u64 {
        let opening = RECORD_HEAD_BYTES as u64 + PART_OPENING_BYTES as u64;
        self.parts()
            .saturating_mul(opening)
            .saturating_add(self.description_bytes)
    }

    /// Returns the number of copies of the description in the volume: at least 5, and more if the volume has many
    /// blocks and all copies together take at most 1 % of the bytes of the block records. The number can be 3 or 4 if
    /// the description has more than 1 MiB, or if 5 copies take more than 64 KiB and more bytes than the block records.
    pub fn copies(&self) -> u64 {
        let (copy, records) = (
            self.copy_bytes().max(1),
            self.blocks.saturating_mul(self.record_bytes()),
        );
        let few = self.description_bytes > 1 << 20 || copy.saturating_mul(5) > records.max(1 << 16);
        let least = if few { 3 } else { 5 };
        let many = 3 + u64::from(self.blocks.max(1).ilog2());
        let fit = records / copy.saturating_mul(100);
        many.min(fit).max(least)
    }

    // Returns the number of block records before a copy. The copies are spread evenly: the first one is before all
    // block records, and the last one is after them.
    fn blocks_before(&self, copy: u64) -> u64 {
        copy.saturating_mul(self.blocks) / self.copies().saturating_sub(1).max(1)
    }

    // Returns the number of copies before the block record with this number.
    fn copies_before(&self, block: u64) -> u64 {
        let gaps = self.copies().saturating_sub(1);
        block
            .saturating_add(1)
            .saturating_mul(gaps)
            .div_ceil(self.blocks.max(1))
    }

    // Returns the offset in bytes after the line of text and these numbers of copies and block records.
    fn offset_after(&self, copies: u64, blocks: u64) -> u64 {
        (LINE_BYTES as u64)
            .saturating_add(copies.saturating_mul(self.copy_bytes()))
            .saturating_add(blocks.saturating_mul(self.record_bytes()))
    }

    /// Returns the offset in bytes of the copy of the description with this number.
    pub fn copy_at(&self, copy: u64) -> u64 {
        self.offset_after(copy, self.blocks_before(copy))
    }

    /// Returns the offset in bytes of the block record with this number.
    pub fn record_at(&self, block: u64) -> u64 {
        self.offset_after(self.copies_before(block), block)
    }

    /// Returns the number of bytes of the volume.
    pub fn size(&self) -> u64 {
        self.offset_after(self.copies(), self.blocks)
    }
}

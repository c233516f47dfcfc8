//! The sums of blocks, and sums of a window that moves over a file byte by byte.
ghost use Rattle.rs_field.specs.code.Given.{nothing};

use rs_folders::source::FileBlocks;
use rs_volumes::pieces::BlockSource;
use std::alloc::{AllocError, Global};
use std::collections::BTreeMap;
use std::io;
use std::rt::{Clock, Files};

/// The number of bytes of the filter of [`Sums`].
const FILTER_BYTES: usize = 1 << 17;

/// Two sums of a window of bytes, both modulo 2^32: the sum of the bytes, and the sum of each byte times the number of
/// bytes from this byte to the end of the window.
#[derive(Clone, Copy)]
pub struct RollingSum {
    plain: u32,
    weighted: u32,
    // The number of bytes of the window modulo 2^32.
    length: u32,
}

impl RollingSum {
    /// Returns the sums of no bytes, for a window that will have `length` bytes.
    pub fn new(length: u64) -> RollingSum {
        RollingSum {
            plain: 0,
            weighted: 0,
            length: (length & 0xFFFF_FFFF) as u32,
        }
    }

    /// Adds bytes at the end of the window.
    pub fn add(&mut self, bytes: &[u8]) {
        for byte in bytes {
            self.plain = self.plain.wrapping_add(u32::from(*byte));
            self.weighted = self.weighted.wrapping_add(self.plain);
        }
    }

    /// Moves the window by one byte: `first` leaves it, and `next` enters it.
    pub fn slide(&mut self, first: u8, next: u8) {
        let first = u32::from(first);
        self.plain = self.plain.wrapping_sub(first).wrapping_add(u32::from(next));
        self.weighted = self
            .weighted
            .wrapping_sub(self.length.wrapping_mul(first))
            .wrapping_add(self.plain);
    }

    /// Returns the two sums as the little-endian number that their 8 bytes in a description are.
    pub fn value(&self) -> u64 {
        u64::from(self.plain) | (u64::from(self.weighted) << 32)
    }
}

/// A source of original blocks that also computes their sums. The pieces of a block must be read in order.
#[derive(Drop)]
pub struct SummedBlocks<'a, R: Files + Clock + Eprint> {
    /// The source of the blocks.
    pub blocks: FileBlocks<'a, R>,
    // The sums of each block, as far as it was read.
    sums: Vec<RollingSum>,
}

impl<'a, R: Files + Clock + Eprint> SummedBlocks<'a, R> {
    /// Makes a source of `count` blocks.
    ///
    /// # Errors
    ///
    /// [`AllocError`] if memory cannot be allocated.
    pub fn new(
        alloc: Global,
        blocks: FileBlocks<'a, R>,
        count: usize,
    ) -> Result<SummedBlocks<'a, R>, AllocError> {
        let sums = vec![in alloc; RollingSum::new(0); count]?;
        Ok(SummedBlocks { blocks, sums })
    }

    /// Returns the sums of all blocks as they are in a description: for each block 4 bytes for the sum of its bytes,
    /// and 4 bytes for the sum of each byte times the number of bytes from this byte to the end of the block.
    ///
    /// # Errors
    ///
    /// [`AllocError`] if memory cannot be allocated.
    pub fn sums(&self, alloc: Global) -> Result<Vec<u8>, AllocError> {
        let mut bytes = Vec::new(alloc);
        for sum in &self.sums {
            bytes.extend_from_slice(&sum.value().to_le_bytes())?;
        }
        Ok(bytes)
    }
}

impl<'a, R: Files + Clock + Eprint> BlockSource for SummedBlocks<'a, R> {
    ghost blocks = { λ _. nothing };

    fn piece(&mut self, index: usize, start: usize, end: usize) -> io::Result<Vec<u8>> {
        let piece = self.blocks.piece(index, start, end)?;
        if let Some(sum) = self.sums.get_mut(index) {
            sum.add(piece.as_slice());
        }
        Ok(piece)
    }
}

/// The sums of blocks that are looked for.
#[derive(Drop)]
pub struct Sums {
    // The indexes of the blocks with the same sums, in increasing order, by these sums.
    blocks: BTreeMap<u64, Vec<usize>>,
    // A bit for each result of `bit_of`. If the bit of some sums is not set, no block has these sums.
    filter: Vec<u8>,
}

// Returns the number of the bit of the sums of a block in the filter.
fn bit_of(sum: u64) -> u32 {
    let plain = (sum & 0xFFFF_FFFF) as u32;
    let weighted = (sum >> 32) as u32;
    (weighted ^ plain.wrapping_mul(0x9E37_79B1)) >> 12
}

impl Sums {
    /// Returns the sums of the blocks with these indexes, which must be in increasing order. `bytes` are the sums of
    /// all original blocks as they are in the description.
    ///
    /// # Errors
    ///
    /// [`AllocError`] if memory cannot be allocated.
    pub fn of(alloc: Global, bytes: &[u8], blocks: &[usize]) -> Result<Sums, AllocError> {
        let mut sums = Sums {
            blocks: BTreeMap::new(alloc),
            filter: vec![in alloc; 0u8; FILTER_BYTES]?,
        };
        for block in blocks {
            let start = block.saturating_mul(8);
            let rest = bytes.get(start..).unwrap_or(&[]);
            if let Some(sum) = rest.first_chunk::<8>() {
                sums.add(alloc, u64::from_le_bytes(*sum), *block)?;
            }
        }
        Ok(sums)
    }

    fn add(&mut self, alloc: Global, sum: u64, block: usize) -> Result<(), AllocError> {
        let bit = bit_of(sum);
        if let Some(bits) = self.filter.get_mut((bit >> 3) as usize) {
            *bits |= 1 << (bit & 7);
        }
        let mut blocks = self.blocks.remove(&sum).unwrap_or(Vec::new(alloc));
        blocks.push(block)?;
        self.blocks.insert(sum, blocks)?;
        Ok(())
    }

    /// Returns whether a block with these sums is looked for.
    pub fn has(&self, sum: &RollingSum) -> bool {
        let bit = bit_of(sum.value());
        let bits = self.filter.get((bit >> 3) as usize).copied().unwrap_or(0);
        (bits >> (bit & 7)) & 1 == 1 && !self.blocks_of(sum).is_empty()
    }

    /// Returns the indexes of the blocks with these sums that are looked for, in increasing order.
    pub fn blocks_of(&self, sum: &RollingSum) -> &[usize] {
        match self.blocks.get(&sum.value()) {
            Some(blocks) => blocks.as_slice(),
            None => &[],
        }
    }

    /// Removes blocks with these sums that were found, because they need not be looked for again. Their indexes must be
    /// in increasing order.
    ///
    /// # Errors
    ///
    /// [`AllocError`] if memory cannot be allocated.
    pub fn take(
        &mut self,
        alloc: Global,
        sum: &RollingSum,
        found: &[usize],
    ) -> Result<(), AllocError> {
        let mut left = Vec::new(alloc);
        for block in self.blocks_of(sum) {
            if found.binary_search(block).is_err() {
                left.push(*block)?;
            }
        }
        if left.is_empty() {
            self.blocks.remove(&sum.value());
        } else {
            self.blocks.insert(sum.value(), left)?;
        }
        Ok(())
    }

    /// Moves a window over bytes until a block with its sum is looked for, or until the bytes end. `leaving` are the
    /// bytes that leave the window, and `entering` those that enter it. Returns by how many bytes the window moved.
    pub fn roll(&self, sum: &mut RollingSum, leaving: &[u8], entering: &[u8]) -> usize {
        for (moved, (first, next)) in leaving.iter().zip(entering).enumerate() {
            if self.has(sum) {
                return moved;
            }
            sum.slide(*first, *next);
        }
        leaving.len().min(entering.len())
    }
}

//! Blocks in memory, which are read and written piece by piece. Their contents are known.
ghost use Rattle.std.specs.Prelude.{◌≡◌, [], IfOk, replicate};
ghost use Rattle.rs_examples.specs.Blocks.{contents, blocks_in, read_lacks_memory, write_lacks_memory};

use rs_volumes::pieces::{BlockSink, BlockSource};
use std::alloc::{AllocError, Global};
use std::io;
use std::io::ErrorKind;

/// Blocks in memory, by their indexes.
#[derive(Drop)]
pub struct Blocks {
    /// The allocator for the pieces that are read.
    pub alloc: Global,
    /// The bytes of each block.
    pub blocks: Vec<Vec<u8>>,
}

impl Blocks {
    /// Returns `count` blocks without bytes.
    ///
    /// # Errors
    ///
    /// [`AllocError`] if memory cannot be allocated.
    pub fn empty(alloc: Global, count: usize) -> Result<Blocks, AllocError>
        ensures { IfOk result (λ made. contents made ≡ replicate count []) }
    {
        let mut blocks = Vec::new(alloc);
        for _ in 0..count {
            blocks.push(Vec::new(alloc))?;
        }
        Ok(Blocks { alloc, blocks })
    }
}

impl BlockSource for Blocks {
    ghost blocks = { λ own. blocks_in (contents own) };

    ghost read_may_fail = { read_lacks_memory };

    fn piece(&mut self, index: usize, start: usize, end: usize) -> io::Result<Vec<u8>> {
        if index >= self.blocks.len() || end > self.blocks[index].len() {
            return Err(io::Error::from(ErrorKind::NotFound));
        }
        Ok(Vec::from_slice(self.alloc, &self.blocks[index][start..end])?)
    }
}

impl BlockSink for Blocks {
    ghost written = { λ own. blocks_in (contents own) };

    ghost write_may_fail = { write_lacks_memory };

    fn put(&mut self, index: usize, start: usize, piece: &[u8]) -> io::Result<()> {
        if index >= self.blocks.len() || self.blocks[index].len() != start {
            return Err(io::Error::from(ErrorKind::InvalidInput));
        }
        self.blocks[index].extend_from_slice(piece)?;
        Ok(())
    }
}

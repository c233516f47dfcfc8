//! The blocks that a scan of the files and volumes of a set has found so far.
use rs_folders::counted::Counted;
use rs_folders::failure::warn;
use rs_folders::hashing::CHUNK;
use rs_folders::progress::Progress;
use rs_folders::source::Origin;
use rs_volumes::description::Description;
use rs_volumes::found::FoundBlocks;
use std::alloc::{AllocError, Global};
use std::io;
use std::io::ErrorKind;

/// The state of an entry of a set.
#[derive(Clone, Copy, PartialEq, Eq)]
pub enum State {
    /// The file has its length and its bytes, the link has its target, or the folder exists.
    Whole,
    /// Something has the name of the entry, but the entry is not whole.
    Damaged,
    /// Nothing has the name of the entry, something that cannot be replaced has it, or the file cannot be opened.
    Missing,
}

// Returns the number of blocks of a set.
fn blocks_of(description: &Description) -> usize {
    (u64::from(description.original_count) + u64::from(description.recovery_count)) as usize
}

/// The state of a scan, without the entries and the volumes.
#[derive(Drop)]
pub struct Scanner {
    /// The blocks that were found: first the original blocks, then the recovery blocks.
    pub found: FoundBlocks<Origin>,
    /// The memory into which files are read.
    pub buffer: Vec<u8>,
    /// The progress of the scan.
    pub progress: Progress,
    // The number of blocks of the present file or volume that cannot be read.
    unread: u64,
    // The first error of the present file or volume.
    error: Option<io::Error>,
}

impl Scanner {
    /// Returns a new scan, which has found no block.
    ///
    /// # Errors
    ///
    /// [`AllocError`] if memory cannot be allocated.
    pub fn new(
        alloc: Global,
        description: &Description,
        progress: Progress,
    ) -> Result<Scanner, AllocError> {
        Ok(Scanner {
            found: FoundBlocks::new(
                alloc,
                description.digests.as_slice(),
                blocks_of(description),
            )?,
            buffer: vec![in alloc; 0u8; CHUNK]?,
            progress,
            unread: 0,
            error: None,
        })
    }

    /// Returns the number of blocks of the set.
    pub fn block_count(&self) -> usize {
        self.found.places.len()
    }

    /// Notes that a block cannot be read. Nothing is noted if the file just ends before the block does.
    pub fn note_unread(&mut self, error: io::Error) {
        if error.kind() == ErrorKind::UnexpectedEof {
            return;
        }
        self.unread = self.unread.saturating_add(1);
        if self.error.is_none() {
            self.error = Some(error);
        }
    }

    /// Notes that bytes of a volume outside of its blocks cannot be read.
    pub fn note_error(&mut self, error: io::Error) {
        if self.error.is_none() {
            self.error = Some(error);
        }
    }

    /// Prints how many blocks of the file or the volume at a path cannot be read, and the first error, if there is one.
    /// After this, the scan goes on with another file or volume.
    pub fn tell_unread<R: Eprint>(&mut self, rt: &R, path: &str) {
        let blocks = Counted(self.unread, "block");
        match self.error.take() {
            Some(error) if self.unread > 0 => {
                self.tell(rt, path, format_args!("{blocks} cannot be read: {error}"));
            }
            Some(error) => self.tell(rt, path, format_args!("a part cannot be read: {error}")),
            None => {}
        }
        self.unread = 0;
    }

    /// Prints what is wrong at a path. Before that, the function ends the line that shows the progress.
    pub fn tell<R: Eprint, D: std::fmt::Display + Drop>(&self, rt: &R, path: &str, reason: D) {
        self.progress.end(rt);
        warn(rt, path, reason);
    }
}

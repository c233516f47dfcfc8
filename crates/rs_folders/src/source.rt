//! Blocks that are read from files and volumes.
ghost use Rattle.rs_field.specs.code.Given.{nothing};

use crate::failure::Failure;
use crate::identity::open_regular;
use crate::progress::Progress;
use crate::runs::{places_in, places_of_piece, run_of};
use rs_volumes::coding_error::CodingError;
use rs_volumes::pieces::BlockSource;
use rs_volumes::placement::Place;
use std::alloc::Global;
use std::io;
use std::io::{ErrorKind, Read, Seek, SeekFrom};
use std::rt::{Clock, Files};

/// The largest number of bytes that are skipped at a time if they cannot be read: the size of a sector.
pub const SECTOR: u64 = 4096;

/// Where a block was found.
#[derive(Clone, Copy)]
pub enum Origin {
    /// In the files of the set, at the places of the block.
    Files,
    /// In a volume or in another file, in which all bytes of the block follow one another.
    Volume {
        /// The index of the volume or file in a list of paths.
        holder: usize,
        /// The offset in bytes of the block in the volume or file.
        offset: u64,
    },
}

/// The files and volumes from which blocks are read.
#[derive(Clone, Copy)]
pub struct Holders<'a> {
    /// The paths of the entries of the set, then those of the volumes, and then those of other files.
    pub paths: &'a [String],
    /// For each path, whether a symbolic link there is followed. If the list is too short, the links at the other paths
    /// are followed.
    pub follows: &'a [bool],
    /// Where the original blocks lie in the files, in order of the data.
    pub places: &'a [Place],
    /// Where each block was found. `None` means that it was not found.
    pub origins: &'a [Option<Origin>],
}

impl<'a> Holders<'a> {
    /// Opens the file or volume with the index `holder` in the list of paths.
    ///
    /// # Errors
    ///
    /// Fails for a reason of [`open_regular`]. [`ErrorKind::NotFound`] if the list has no path with this index.
    pub fn open<R: Files>(&self, rt: &R, holder: usize) -> io::Result<R::File> {
        let follows = self.follows.get(holder).copied().unwrap_or(true);
        match self.paths.get(holder) {
            Some(path) => open_regular(rt, path.as_str(), follows),
            None => Err(io::Error::from(ErrorKind::NotFound)),
        }
    }

    /// Returns the index of the path of the file with a block. If the block lies in several files, returns the first
    /// one.
    fn holder_of(&self, block: usize) -> Option<usize> {
        match self.origins.get(block).copied()?? {
            Origin::Volume { holder, .. } => Some(holder),
            Origin::Files => Some(places_in(self.places, block).first()?.file),
        }
    }
}

/// A file that is open to be read.
#[derive(Drop)]
pub struct Opened<F: Drop> {
    /// The index of the file in the list of paths.
    pub holder: usize,
    /// The open file.
    pub file: F,
}

/// A source that reads blocks from files and volumes.
#[derive(Drop)]
pub struct FileBlocks<'a, R: Files + Clock + Eprint> {
    rt: &'a R,
    alloc: Global,
    holders: Holders<'a>,
    /// The file that was read last.
    opened: Option<Opened<R::File>>,
    /// The file or volume that could not be read.
    failed: Option<usize>,
    progress: Progress,
}

impl<'a, R: Files + Clock + Eprint> FileBlocks<'a, R> {
    /// Returns a source of blocks. The source counts every byte that it reads in `progress`.
    pub fn new(
        rt: &'a R,
        alloc: Global,
        holders: Holders<'a>,
        progress: Progress,
    ) -> FileBlocks<'a, R> {
        FileBlocks {
            rt,
            alloc,
            holders,
            opened: None,
            failed: None,
            progress,
        }
    }

    /// Ends the line that shows the progress.
    pub fn end(&self) {
        self.progress.end(self.rt);
    }

    /// Returns the path of the file from which a block could not be read. The path is empty after another error.
    pub fn path_of(&self, error: &CodingError) -> &str {
        let CodingError::Read(index, _) = error else {
            return "";
        };
        let holder = self.failed.or(self.holders.holder_of(*index));
        match self.holders.paths.get(holder.unwrap_or(usize::MAX)) {
            Some(path) => path.as_str(),
            None => "",
        }
    }

    // Reads a piece of a block. Bytes of `piece` that are in no file stay as they are.
    fn read(&mut self, index: usize, start: u64, piece: &mut [u8]) -> io::Result<()> {
        match self.holders.origins.get(index).copied() {
            Some(Some(Origin::Files)) => self.read_files(index, start, piece),
            Some(Some(Origin::Volume { holder, offset })) => {
                self.fill(holder, offset.saturating_add(start), piece)
            }
            _ => Err(io::Error::from(ErrorKind::NotFound)),
        }
    }

    fn read_files(&mut self, index: usize, start: u64, piece: &mut [u8]) -> io::Result<()> {
        let places = places_in(self.holders.places, index);
        for place in places_of_piece(places, start, piece.len()) {
            if let Some(run) = run_of(place, start, piece.len()) {
                if let Some(bytes) = piece.get_mut(run.from..run.to) {
                    self.fill(run.file, run.offset, bytes)?;
                }
            }
        }
        Ok(())
    }

    // Fills a piece from the file with the index `holder` in the list of paths. Notes the file if this fails.
    fn fill(&mut self, holder: usize, offset: u64, piece: &mut [u8]) -> io::Result<()> {
        let outcome = self.read_from(holder, offset, piece);
        if outcome.is_err() {
            self.failed = Some(holder);
        }
        outcome
    }

    fn read_from(&mut self, holder: usize, offset: u64, piece: &mut [u8]) -> io::Result<()> {
        if let Some(opened) = &mut self.opened {
            if opened.holder == holder {
                return read_at(&mut opened.file, offset, piece);
            }
        }
        let mut file = self.holders.open(self.rt, holder)?;
        let outcome = read_at(&mut file, offset, piece);
        self.opened = Some(Opened { holder, file });
        outcome
    }
}

impl<'a, R: Files + Clock + Eprint> BlockSource for FileBlocks<'a, R> {
    ghost blocks = { λ _. nothing };

    fn piece(&mut self, index: usize, start: usize, end: usize) -> io::Result<Vec<u8>> {
        let mut piece = vec![in self.alloc; 0u8; end - start]?;
        self.read(index, start as u64, &mut piece)?;
        self.progress.advance(self.rt, (end - start) as u64);
        Ok(piece)
    }
}

/// Fills `bytes` with the bytes of a file from byte `offset` of the file on.
///
/// # Errors
///
/// Any error of the system. [`ErrorKind::UnexpectedEof`] if the file has fewer bytes.
pub fn read_at<F: Read + Seek>(file: &mut F, offset: u64, bytes: &mut [u8]) -> io::Result<()> {
    file.seek(SeekFrom::Start(offset))?;
    file.read_exact(bytes)
}

/// Fills `bytes` with the bytes of a file from byte `offset` of the file on, until the file ends or a read fails.
/// Returns the number of bytes that were read before that, and the error.
pub fn read_some<F: Read + Seek>(
    file: &mut F,
    offset: u64,
    bytes: &mut [u8],
) -> (usize, Option<io::Error>) {
    if let Err(error) = file.seek(SeekFrom::Start(offset)) {
        return (0, Some(error));
    }
    let mut filled = 0usize;
    for _ in 0..u64::MAX {
        let left = bytes.get_mut(filled..).unwrap_or(&mut []);
        if left.is_empty() {
            break;
        }
        match file.read(left) {
            Ok(0) => break,
            Ok(count) => filled = filled.saturating_add(count),
            Err(error) if error.kind() == ErrorKind::Interrupted => {}
            Err(error) => return (filled, Some(error)),
        }
    }
    (filled, None)
}

/// Returns the failure for an error of coding. `read` is the path of the file that could not be read, and `written` the
/// path of the file that could not be written, or both are empty.
pub fn failure_of(alloc: Global, read: &str, written: &str, error: CodingError) -> Failure {
    if !read.is_empty() {
        Failure::at(alloc, read, error)
    } else if !written.is_empty() {
        Failure::at(alloc, written, error)
    } else {
        Failure::of(error)
    }
}

//! Looks for the blocks of a set in its files, and finds the states of its entries.
use rs_folders::failure::Result;
use rs_folders::hashing::{CHUNK, add_bytes, add_zeros, hash_path};
use rs_folders::identity::open_regular;
use rs_folders::names::{Name, text_of};
use rs_folders::runs::places_in;
use rs_folders::source::{Opened, Origin};
use rs_volume_files::scanner::{Scanner, State};
use rs_volumes::description::{Description, Entry, Kind};
use rs_volumes::hasher::{ByteHasher, ComputedDigest};
use rs_volumes::placement::Place;
use std::alloc::Global;
use std::io::{ErrorKind, Seek, SeekFrom};
use std::rt::{Clock, Files};
use std::{fs, io};

/// Looks for the blocks of a set in its files, and returns the state of each entry. `paths` are the paths of the
/// entries, and `places` are the places of the original blocks in the files.
///
/// # Errors
///
/// Fails if memory cannot be allocated.
pub fn scan_entries<'a, R: Files + Clock + Eprint>(
    rt: &'a R,
    alloc: Global,
    description: &'a Description,
    paths: &'a [String],
    places: &[Place],
    scanner: &'a mut Scanner,
) -> Result<Vec<State>> {
    let mut scan = EntryScan {
        rt,
        description,
        paths,
        states: Vec::new(alloc),
        suspects: vec![in alloc; false; paths.len()]?,
        opened: None,
        buffer: vec![in alloc; 0u8; CHUNK]?,
        scanner,
    };
    scan.look_at_all(alloc)?;
    for block in 0..description.original_count as usize {
        scan.scan_block(block, places_in(places, block));
    }
    scan.close();
    scan.check_suspects();
    let EntryScan { states, .. } = scan;
    Ok(states)
}

/// Returns the state of an entry as far as it can be known without reading a file. So a file with the right length
/// counts as whole.
///
/// # Errors
///
/// Fails if the entry is missing. If something else has the name of the entry, the error is not
/// [`ErrorKind::NotFound`].
pub fn look<R: Files>(rt: &R, alloc: Global, entry: &Entry, path: &str) -> io::Result<State> {
    let found = match entry.kind {
        Kind::File => fs::metadata(rt, path)?,
        Kind::Link | Kind::Folder => fs::symlink_metadata(rt, path)?,
    };
    let reason = match entry.kind {
        Kind::File if found.is_dir() => "a folder has the name of this file",
        Kind::File if !found.is_file() => "this is no regular file",
        Kind::Link if found.is_dir() => "a folder has the name of this symbolic link",
        _ => {
            let is_whole = match entry.kind {
                Kind::Folder => found.is_dir(),
                Kind::File => found.len() == entry.size,
                Kind::Link if found.is_symlink() => {
                    let target = rt.read_link(alloc, path)?.into_string();
                    target.as_bytes() == entry.target.as_slice()
                }
                Kind::Link => false,
            };
            return Ok(if is_whole {
                State::Whole
            } else {
                State::Damaged
            });
        }
    };
    Err(io::Error::new(ErrorKind::InvalidInput, reason))
}

// A scan of the entries of a set.
#[derive(Drop)]
struct EntryScan<'a, R: Files + Clock + Eprint> {
    rt: &'a R,
    description: &'a Description,
    // The path of each entry.
    paths: &'a [String],
    // The state of each entry, as far as it is known.
    states: Vec<State>,
    // For each entry, whether it has bytes in a block that is wrong or was not read.
    suspects: Vec<bool>,
    // The file that was read last.
    opened: Option<Opened<R::File>>,
    // The memory into which files are read.
    buffer: Vec<u8>,
    scanner: &'a mut Scanner,
}

impl<'a, R: Files + Clock + Eprint> EntryScan<'a, R> {
    // Sets the state of each entry without reading a file.
    fn look_at_all(&mut self, alloc: Global) -> Result<()> {
        let entries = self.description.entries.as_slice();
        for (index, entry) in entries.iter().enumerate() {
            let name = entry.name.as_slice();
            let state = if text_of(name).is_some() {
                let path = self.path(index);
                self.known(path, look(self.rt, alloc, entry, path))
            } else {
                let name = Name(name);
                self.scanner.progress.end(self.rt);
                let _ = eprintln!(self.rt;
                    "rs_files: {name}: this name is not UTF-8: this program cannot restore it"
                );
                State::Missing
            };
            self.states.push(state)?;
        }
        Ok(())
    }

    // Returns the state of an entry. After an error, the entry is missing, and the function prints the reason, unless
    // nothing has its name.
    fn known(&mut self, path: &str, outcome: io::Result<State>) -> State {
        match outcome {
            Ok(state) => state,
            Err(error) => {
                if error.kind() != ErrorKind::NotFound {
                    self.scanner.tell(self.rt, path, error);
                }
                State::Missing
            }
        }
    }

    fn path(&self, index: usize) -> &'a str {
        match self.paths.get(index) {
            Some(path) => path.as_str(),
            None => "",
        }
    }

    fn state(&self, index: usize) -> State {
        self.states.get(index).copied().unwrap_or(State::Missing)
    }

    fn set_state(&mut self, index: usize, state: State) {
        if let Some(own) = self.states.get_mut(index) {
            *own = state;
        }
    }

    fn scan_block(&mut self, block: usize, places: &[Place]) {
        let size = self.description.block_bytes;
        for place in places {
            if self.state(place.file) == State::Missing {
                self.scanner.progress.skip(size);
                return self.doubt(places);
            }
        }
        let own = self.hash_block(places, size);
        self.scanner.progress.advance(self.rt, size);
        let is_right = match own {
            Some(own) => self.scanner.found.note(block, &own, Origin::Files),
            None => false,
        };
        if !is_right {
            self.doubt(places);
        }
    }

    // Notes that a block is wrong or was not read. `places` are its places. If only one file has bytes in the block,
    // this file is damaged. Otherwise it is not known which of the files is damaged.
    fn doubt(&mut self, places: &[Place]) {
        if let [place] = places {
            if self.state(place.file) == State::Whole {
                self.set_state(place.file, State::Damaged);
            }
        }
        for place in places {
            if let Some(suspect) = self.suspects.get_mut(place.file) {
                *suspect = true;
            }
        }
    }

    // Returns the digest of a block, whose bytes outside of the files are zeros. Returns `None` if bytes of a file
    // cannot be read.
    fn hash_block(&mut self, places: &[Place], size: u64) -> Option<ComputedDigest> {
        let mut hasher = ByteHasher::new();
        let mut next = 0;
        for place in places {
            add_zeros(&mut hasher, place.at.saturating_sub(next));
            if let Err(error) = self.add_place(&mut hasher, place) {
                if self.state(place.file) == State::Whole {
                    self.set_state(place.file, State::Damaged);
                }
                self.scanner.note_unread(error);
                return None;
            }
            next = place.at.saturating_add(place.bytes);
        }
        add_zeros(&mut hasher, size.saturating_sub(next));
        Some(hasher.finish())
    }

    // Adds the bytes of a place to a hasher. If the file is not the one that was read last, the function opens it. A
    // file that cannot be opened is missing, and the function prints the reason.
    fn add_place(&mut self, hasher: &mut ByteHasher, place: &Place) -> io::Result<()> {
        let is_open = match &self.opened {
            Some(opened) => opened.holder == place.file,
            None => false,
        };
        if !is_open {
            self.close();
            let (holder, path) = (place.file, self.path(place.file));
            match open_regular(self.rt, path, true) {
                Ok(file) => self.opened = Some(Opened { holder, file }),
                Err(error) => {
                    let state = self.known(path, Err(error));
                    self.set_state(holder, state);
                }
            }
        }
        match &mut self.opened {
            Some(opened) => {
                opened.file.seek(SeekFrom::Start(place.offset))?;
                add_bytes(hasher, &mut opened.file, place.bytes, &mut self.buffer)
            }
            // The file could not be opened. The reason was printed above.
            None => Err(io::Error::from(ErrorKind::UnexpectedEof)),
        }
    }

    // Closes the open file, and prints how many of its blocks cannot be read.
    fn close(&mut self) {
        if let Some(opened) = self.opened.take() {
            let path = self.path(opened.holder);
            self.scanner.tell_unread(self.rt, path);
        }
    }

    // Reads each file again that seems whole and has bytes in a wrong block, and compares it with its own digest: the
    // wrong bytes can be those of another file. A file that cannot be read counts as damaged.
    fn check_suspects(&mut self) {
        let entries = self.description.entries.as_slice();
        for (index, entry) in entries.iter().enumerate() {
            let is_suspect = self.suspects.get(index).copied().unwrap_or(false);
            if !is_suspect || self.state(index) != State::Whole {
                continue;
            }
            let path = self.path(index);
            match hash_path(self.rt, path, true, entry.size, &mut self.buffer) {
                Ok(own) if own == entry.digest => {}
                _ => self.set_state(index, State::Damaged),
            }
        }
    }
}

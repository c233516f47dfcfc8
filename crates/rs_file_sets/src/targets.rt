//! The entries that a restore writes.
use rs_folders::failure::{Failure, Result};
use rs_folders::output::Part;
use rs_folders::placing::{Goal, Placing};
use rs_volumes::description::{Entry, Kind};
use std::alloc::Global;
use std::io;
use std::io::ErrorKind;
use std::rt::Files;

/// The number of parts that stay open. A process may open only a limited number of files, on most systems 1024. So the
/// other parts are closed, and opened again when they are needed.
const MOST_OPEN: usize = 100;

/// What a restore did with an entry.
#[derive(Drop)]
pub enum Outcome {
    /// The entry was not to be restored.
    Left,
    /// The entry was restored. If a damaged file had the name of the entry, it was kept at this path.
    Restored(Option<String>),
    /// The entry could not be restored, for this reason.
    Failed(Failure),
}

/// The files that a restore writes.
#[derive(Drop)]
pub struct Targets<'a, R: Files + Eprint> {
    /// For each entry of the set, the file that is being written, if there is one.
    pub parts: Vec<Option<Part<R>>>,
    /// What was done with each entry so far.
    pub outcomes: Vec<Outcome>,
    /// The number of bytes of the files that were given up because the disk is full.
    pub without_room: u64,
    rt: &'a R,
    alloc: Global,
    // The entries of the set.
    entries: &'a [Entry],
    // For each entry, whether it is to be restored.
    wanted: Vec<bool>,
    // The number of parts that stay open.
    open: usize,
    // The index of the file that was written last.
    last: usize,
    placing: Placing<'a, R>,
}

impl<'a, R: Files + Eprint> Targets<'a, R> {
    /// Begins a restore of the entries that `wanted` marks. `read` are the paths of the files and volumes that are
    /// read.
    ///
    /// # Errors
    ///
    /// Fails if memory cannot be allocated.
    pub fn new(
        rt: &'a R,
        alloc: Global,
        goal: Goal<'a>,
        wanted: Vec<bool>,
        read: &[String],
    ) -> Result<Targets<'a, R>> {
        Ok(Targets {
            parts: Vec::new(alloc),
            outcomes: Vec::new(alloc),
            without_room: 0,
            rt,
            alloc,
            entries: goal.set.entries.as_slice(),
            wanted,
            open: 0,
            last: 0,
            placing: Placing::new(rt, alloc, goal, read)?,
        })
    }

    /// Begins a part for each file that is to be restored. If a part cannot be begun, the outcome of its file is a
    /// failure.
    ///
    /// # Errors
    ///
    /// Fails if memory cannot be allocated.
    pub fn begin(&mut self) -> Result<()> {
        for (index, entry) in self.entries.iter().enumerate() {
            self.parts.push(None)?;
            self.outcomes.push(Outcome::Left)?;
            if entry.kind != Kind::File || !self.is_wanted(index) {
                continue;
            }
            match self.placing.begin_file(entry) {
                Ok(mut part) => {
                    if self.open < MOST_OPEN {
                        self.open += 1;
                    } else {
                        // A part that cannot be closed stays open.
                        let _ = part.close();
                    }
                    if let Some(slot) = self.parts.get_mut(index) {
                        *slot = Some(part);
                    }
                }
                Err(failure) => self.set_outcome(index, Outcome::Failed(failure)),
            }
        }
        Ok(())
    }

    fn is_wanted(&self, index: usize) -> bool {
        self.wanted.get(index).copied().unwrap_or(false)
    }

    fn set_outcome(&mut self, index: usize, outcome: Outcome) {
        if let Some(own) = self.outcomes.get_mut(index) {
            *own = outcome;
        }
    }

    /// Writes bytes into the part of a file, from byte `offset` on. `file` is the index of the file in the description.
    /// Nothing is written for a file without a part: it is not to be restored, or was given up.
    ///
    /// # Errors
    ///
    /// Fails for a reason of [`Part::write_at`].
    pub fn write(&mut self, file: usize, offset: u64, bytes: &[u8]) -> io::Result<()> {
        if file != self.last {
            if let Some(Some(part)) = self.parts.get_mut(self.last) {
                part.close_again();
            }
            self.last = file;
        }
        match self.parts.get_mut(file) {
            Some(Some(part)) => part.write_at(self.rt, offset, bytes),
            _ => Ok(()),
        }
    }

    /// Removes the part of a file that cannot be restored. The other files are still restored.
    pub fn give_up(&mut self, file: usize, error: io::Error) {
        let Some(slot) = self.parts.get_mut(file) else {
            return;
        };
        if let Some(part) = slot.take() {
            part.remove(self.rt);
            if error.kind() == ErrorKind::StorageFull {
                self.without_room = self.without_room.saturating_add(part.size);
            }
            let failure = Failure::at(self.alloc, part.path.as_str(), error);
            self.set_outcome(file, Outcome::Failed(failure));
        }
    }

    /// Gives the restored files their permission bits, times and final names, and then makes the empty folders and the
    /// symbolic links. So nothing is written through these links. At the end, each folder with a new name is synced.
    pub fn finish(&mut self) {
        for kind in [Kind::File, Kind::Folder, Kind::Link] {
            self.finish_kind(kind);
        }
        self.placing.sync();
    }

    fn finish_kind(&mut self, kind: Kind) {
        for (index, entry) in self.entries.iter().enumerate() {
            if entry.kind != kind || !self.is_wanted(index) {
                continue;
            }
            let part = match self.parts.get_mut(index) {
                Some(slot) => slot.take(),
                None => None,
            };
            let finished = match (kind, part) {
                (Kind::File, Some(part)) => self.placing.finish_file(part, entry),
                // The file was given up before. Its outcome has the reason.
                (Kind::File, None) => continue,
                _ => self.placing.make_other(entry),
            };
            let outcome = match finished {
                Ok(kept) => Outcome::Restored(kept),
                Err(failure) => Outcome::Failed(failure),
            };
            self.set_outcome(index, outcome);
        }
    }

    /// Removes all parts that are left, and the new folders that are empty.
    pub fn remove(&mut self) {
        for part in self.parts.iter().flatten() {
            part.remove(self.rt);
        }
        self.placing.remove_empty();
    }
}

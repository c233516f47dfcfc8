//! The states of the entries of a set, as they are printed.
use crate::json::entry_json;
use crate::log::{Log, is_shown, tell_more};
use rs_folders::failure::Result;
use rs_folders::names::{Name, Shown};
use rs_volume_files::scanner::State;
use rs_volumes::description::Entry;
use serde_json::{Value, put};
use std::alloc::Global;
use std::io;

/// The states of the entries that a request is about.
#[derive(Clone, Copy)]
pub struct Checked<'a> {
    /// All entries of the set.
    pub entries: &'a [Entry],
    /// The state of each entry.
    pub states: &'a [State],
    /// For each entry, whether the request is about it.
    pub chosen: &'a [bool],
    /// The words that are printed for the states whole, damaged and missing, in this order.
    pub words: [&'static str; 3],
}

impl<'a> Checked<'a> {
    fn word_of(&self, state: State) -> &'static str {
        let [whole, damaged, missing] = self.words;
        match state {
            State::Whole => whole,
            State::Damaged => damaged,
            State::Missing => missing,
        }
    }

    /// Prints the entries of the request that are not whole. If no entry of the set was found in `folder`, the function
    /// prints only this.
    ///
    /// # Errors
    ///
    /// Fails if the result cannot be printed.
    pub fn tell<R: Print>(&self, rt: &R, folder: &str) -> io::Result<()> {
        let has_some = self.states.contains(&State::Whole) || self.states.contains(&State::Damaged);
        if !self.entries.is_empty() && !has_some {
            return tell_nowhere(rt, folder);
        }
        let mut count = 0;
        let states = self.states.iter().zip(self.chosen);
        for (entry, (state, is_chosen)) in self.entries.iter().zip(states) {
            if *is_chosen && *state != State::Whole && is_shown(&mut count) {
                let word = self.word_of(*state);
                let name = Name(entry.name.as_slice());
                println!(rt; "{word}: {name}")?;
            }
        }
        tell_more(rt, count, "")
    }

    /// Ends a log, as [`Log::end`] does. With `--json`, the object gets the list `files` of the entries of the request,
    /// with their states. There can be many entries, so the function prints each of them as soon as its JSON is made.
    ///
    /// # Errors
    ///
    /// Fails if the object cannot be printed, or if memory cannot be allocated.
    pub fn end<R: Print>(&self, rt: &R, alloc: Global, log: Log, status: u8) -> Result<u8> {
        if log.is_kept {
            let object = log.text(status)?;
            let front = object.as_str().strip_suffix('}').unwrap_or("");
            print!(rt; "{front},\"files\":[")?;
            self.tell_json(rt, alloc)?;
            println!(rt; "]}}")?;
        }
        Ok(status)
    }

    // Prints JSON for the entries of the request, with commas between them.
    fn tell_json<R: Print>(&self, rt: &R, alloc: Global) -> io::Result<()> {
        let mut is_first = true;
        let states = self.states.iter().zip(self.chosen);
        for (entry, (state, is_chosen)) in self.entries.iter().zip(states) {
            if *is_chosen {
                let mut object = entry_json(alloc, entry)?;
                let word = Value::try_from_str(alloc, self.word_of(*state))?;
                put(&mut object, alloc, "state", word)?;
                let text = Value::Object(object).to_string(alloc)?;
                if !is_first {
                    print!(rt; ",")?;
                }
                print!(rt; "{text}")?;
                is_first = false;
            }
        }
        Ok(())
    }
}

/// Prints that no file of a set was found in a folder, and what to do.
///
/// # Errors
///
/// Fails if the line cannot be printed.
pub fn tell_nowhere<R: Print>(rt: &R, folder: &str) -> io::Result<()> {
    let folder = Shown(folder);
    println!(rt;
        "no file was found in {folder}: if the files are in another folder, name it with --folder"
    )
}

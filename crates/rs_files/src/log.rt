//! What a command did and found: lines for people, or one JSON object for programs.
use crate::json::text_in;
use crate::settings::Request;
use rs_folders::failure::Result;
use rs_folders::names::Name;
use serde_json::{Map, Value, put};
use std::alloc::{AllocError, Global};
use std::io;

/// The largest number of lines that are printed of one kind. If there are more, a last line says how many.
const MOST_LINES: usize = 20;

/// A log of what a command did and found. With `--json`, the log collects one object, which [`Log::end`] prints, and
/// prints nothing else on standard output. Otherwise, [`Log::note`] prints lines at once, unless `--quiet` is given.
#[derive(Drop)]
pub struct Log {
    /// Whether lines are printed, because neither `--quiet` nor `--json` is given.
    pub is_told: bool,
    /// Whether the JSON object is collected, because `--json` is given.
    pub is_kept: bool,
    alloc: Global,
    // The members of the object that are no lists.
    object: Map<String, Value>,
    // The lists of the object, each with its name.
    lists: Vec<(&'static str, Vec<Value>)>,
    // The names of lists, each with the number of its lines so far. This includes the lines that were left out.
    lines: Vec<(&'static str, usize)>,
}

impl Log {
    /// Returns a new log for a request. `lists` are the names of the lists of the JSON object, which have no items yet.
    ///
    /// # Errors
    ///
    /// [`AllocError`] if memory cannot be allocated.
    pub fn new(
        alloc: Global,
        request: &Request,
        lists: &[&'static str],
    ) -> Result<Log, AllocError> {
        let mut log = Log {
            is_told: !request.quiet && !request.json,
            is_kept: request.json,
            alloc,
            object: Map::new(alloc),
            lists: Vec::new(alloc),
            lines: Vec::new(alloc),
        };
        for name in lists {
            log.lists.push((*name, Vec::new(alloc)))?;
        }
        Ok(log)
    }

    /// Appends an object with one or two members to the list with the name `list`. `first` and `more` are the names and
    /// the texts of these members. Without `--json`, the function does nothing.
    ///
    /// # Errors
    ///
    /// [`AllocError`] if memory cannot be allocated.
    pub fn add(
        &mut self,
        list: &str,
        first: (&str, &[u8]),
        more: Option<(&str, &[u8])>,
    ) -> Result<(), AllocError> {
        if !self.is_kept {
            return Ok(());
        }
        let alloc = self.alloc;
        let mut object = Map::new(alloc);
        put(
            &mut object,
            alloc,
            first.0,
            Value::String(text_in(alloc, first.1)?),
        )?;
        if let Some((name, text)) = more {
            put(
                &mut object,
                alloc,
                name,
                Value::String(text_in(alloc, text)?),
            )?;
        }
        for (name, values) in &mut self.lists {
            if *name == list {
                values.push(Value::Object(object))?;
                break;
            }
        }
        Ok(())
    }

    /// Counts a line of a list. Returns whether the caller must print this line: lines are printed, and the line is one
    /// of the first [`MOST_LINES`] of the list.
    ///
    /// # Errors
    ///
    /// [`AllocError`] if memory cannot be allocated.
    pub fn shows(&mut self, list: &'static str) -> Result<bool, AllocError> {
        if !self.is_told {
            return Ok(false);
        }
        for (name, count) in &mut self.lines {
            if *name == list {
                return Ok(is_shown(count));
            }
        }
        self.lines.push((list, 1))?;
        Ok(true)
    }

    /// Prints for each list how many of its lines were left out, if there are any.
    ///
    /// # Errors
    ///
    /// Fails if a line cannot be printed.
    pub fn end_lists<R: Print>(&self, rt: &R) -> io::Result<()> {
        for (list, count) in &self.lines {
            tell_more(rt, *count, *list)?;
        }
        Ok(())
    }

    /// Notes an entry in the list with the name `list`. With `--json`, the function appends an object with the name of
    /// the entry to this list. Otherwise it prints a line with the names of the list and of the entry, if
    /// [`Log::shows`] returns true.
    ///
    /// # Errors
    ///
    /// Fails if the line cannot be printed, or if memory cannot be allocated.
    pub fn note<R: Print>(&mut self, rt: &R, list: &'static str, name: &[u8]) -> Result<()> {
        self.add(list, ("name", name), None)?;
        if self.shows(list)? {
            let name = Name(name);
            println!(rt; "{list}: {name}")?;
        }
        Ok(())
    }

    /// Sets a member of the object.
    ///
    /// # Errors
    ///
    /// [`AllocError`] if memory cannot be allocated.
    pub fn set(&mut self, name: &str, value: Value) -> Result<(), AllocError> {
        put(&mut self.object, self.alloc, name, value)
    }

    /// Prints the object if `--json` is given. The object gets the exit status as a further member. Returns the status.
    ///
    /// # Errors
    ///
    /// Fails if the object cannot be printed, or if memory cannot be allocated.
    pub fn end<R: Print>(self, rt: &R, status: u8) -> Result<u8> {
        if self.is_kept {
            let text = self.text(status)?;
            println!(rt; "{text}")?;
        }
        Ok(status)
    }

    /// Returns the text of the object, with the exit status as a further member.
    ///
    /// # Errors
    ///
    /// [`AllocError`] if memory cannot be allocated.
    pub fn text(mut self, status: u8) -> Result<String, AllocError> {
        self.set("status", Value::from(status))?;
        let Log {
            alloc,
            mut object,
            lists,
            ..
        } = self;
        for (name, values) in lists {
            put(&mut object, alloc, name, Value::Array(values))?;
        }
        Value::Object(object).to_string(alloc)
    }
}

/// Counts a line of one kind. Returns whether the line is one of the first [`MOST_LINES`], which are printed.
pub fn is_shown(count: &mut usize) -> bool {
    *count = count.saturating_add(1);
    *count <= MOST_LINES
}

/// Prints how many lines of one kind were left out, if there are any. `count` is the number of all lines of this kind,
/// and `kind` is a word for them, or empty.
///
/// # Errors
///
/// Fails if the line cannot be printed.
pub fn tell_more<R: Print>(rt: &R, count: usize, kind: &str) -> io::Result<()> {
    let more = count.saturating_sub(MOST_LINES);
    if more == 0 {
        return Ok(());
    }
    let gap = if kind.is_empty() { "" } else { " " };
    println!(rt; "and {more} more{gap}{kind}: --json lists all")
}

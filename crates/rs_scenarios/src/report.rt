//! The report of the cases of a file.
use crate::cases::{CaseFile, LevelName, Named, Step};
use crate::kept::Kept;
use std::alloc::AllocError;

/// The results of the cases of one file.
#[derive(Drop)]
pub struct Report {
    /// The name of the file.
    pub file: String,
    /// The lines of the report.
    pub text: String,
    /// The number of actions with another result than the expected one.
    pub differing: u64,
}

impl Report {
    /// Writes a line for an action whose result is not the expected one. The line has the file and the line of the
    /// action, the level and the way, the action, the text of its outcome, and the numbers of shards that the call has
    /// not taken, if there are such shards.
    ///
    /// # Errors
    ///
    /// [`AllocError`] if memory cannot be allocated.
    pub fn differ(
        &mut self,
        level: &Named<LevelName>,
        kept: &Kept,
        step: &Step,
        outcome: &str,
    ) -> Result<(), AllocError> {
        self.differing = self.differing.saturating_add(1);
        let (line, level, way) = (step.line, level.0, kept.way.0);
        write!(self.text, "{}:{line}, {level}, {way}: ", self.file)?;
        write!(self.text, "{}->{outcome}", step.text)?;
        if kept.left != (0, 0) {
            let (originals, recoveries) = kept.left;
            write!(self.text, ", {originals} and {recoveries} left")?;
        }
        self.text.push_str("\n")
    }

    /// Writes the line of an engine: how many cases each level has run, how many cases the file has, and the ways.
    /// Leaves out the levels that have run no case.
    ///
    /// # Errors
    ///
    /// [`AllocError`] if memory cannot be allocated.
    pub fn summarize(
        &mut self,
        file: &CaseFile,
        engine: &str,
        levels: &[Named<LevelName>],
    ) -> Result<(), AllocError> {
        write!(self.text, "{} with {engine}:", self.file)?;
        for level in levels {
            let count = file.cases.iter().filter(|case| case.is_by(level)).count();
            if count > 0 {
                write!(self.text, " {count} {},", level.0)?;
            }
        }
        write!(self.text, " of {} cases;", file.cases.len())?;
        self.write_ways(file)
    }

    // Writes the names of the ways of a file, and ends the line.
    fn write_ways(&mut self, file: &CaseFile) -> Result<(), AllocError> {
        for way in &file.ways {
            write!(self.text, " {}", way.0)?;
        }
        self.text.push_str("\n")
    }
}

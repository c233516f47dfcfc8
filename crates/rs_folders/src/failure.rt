//! The reasons why a command, or the restore of a file, fails.
use crate::names::Shown;
use std::alloc::Global;
use std::error::Error;
use std::fmt;
use std::fmt::{Display, InlineText};

/// The largest number of bytes of a reason. All reasons are shorter, because they consist of numbers and of texts of
/// the program and of the system, and have no paths or names.
const REASON_BYTES: usize = 240;

/// The reason why a command, or the restore of a file, fails. If the reason is about a file or a folder, its path is
/// stored too, whatever its length.
#[derive(Drop)]
pub struct Failure {
    path: Option<String>,
    reason: InlineText<{ REASON_BYTES }>,
}

/// The result of a step that can fail.
pub type Result<T, E = Failure> = std::result::Result<T, E>;

impl Failure {
    /// Returns a failure without a path.
    pub fn of<D: Display + Drop>(reason: D) -> Failure {
        Failure {
            path: None,
            reason: InlineText::of(reason),
        }
    }

    /// Returns a failure that is about a path. If memory for the path cannot be allocated, the failure has no path.
    pub fn at<D: Display + Drop>(alloc: Global, path: &str, reason: D) -> Failure {
        Failure {
            path: String::from_str(alloc, path).ok(),
            reason: InlineText::of(reason),
        }
    }

    /// Returns a failure with the same reason and another path. If memory for the path cannot be allocated, the failure
    /// has no path.
    pub fn moved_to(self, alloc: Global, path: &str) -> Failure {
        Failure {
            path: String::from_str(alloc, path).ok(),
            reason: self.reason,
        }
    }

    /// Prints the failure on standard error.
    pub fn tell<R: Eprint>(&self, rt: &R) {
        let _ = eprintln!(rt; "rs_files: {self}");
    }
}

/// Prints a path on standard error, and what is wrong there.
pub fn warn<R: Eprint, D: Display + Drop>(rt: &R, path: &str, reason: D) {
    let path = Shown(path);
    let _ = eprintln!(rt; "rs_files: {path}: {reason}");
}

impl<E: Error> From<E> for Failure {
    fn from(error: E) -> Failure {
        Failure::of(error)
    }
}

impl Display for Failure {
    fn fmt<W: fmt::Write>(&self, f: &mut fmt::Formatter<W>) -> fmt::Result {
        if let Some(path) = &self.path {
            write!(f, "{}: ", Shown(path.as_str()))?;
        }
        f.write_str(self.reason.as_str())
    }
}

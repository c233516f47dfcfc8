//! Unfinished files, which a run of the program is writing or has left.
use crate::failure::{Result, warn};
use crate::identity::exists;
use crate::names::{PART, shortened};
use std::alloc::Global;
use std::rt::Files;

/// The message about an unfinished file.
pub const LEFT_PART: &str =
    "an rs_files that was killed left this file, or another one is writing it: if none is at work, \
     delete it. Only unfinished volumes of split may be needed";

/// Prints a warning for each unfinished file that would have got one of these paths.
///
/// # Errors
///
/// Fails if memory cannot be allocated.
pub fn tell_leftovers<R: Files + Eprint>(rt: &R, alloc: Global, paths: &[String]) -> Result<()> {
    for path in paths {
        if !path.is_empty() {
            tell_leftovers_of(rt, alloc, paths, path.as_str())?;
        }
    }
    Ok(())
}

// Prints a warning for each unfinished file that would have got the path `path`. A file at one of the paths `paths` is
// left out, because it is a file of the set or a volume.
fn tell_leftovers_of<R: Files + Eprint>(
    rt: &R,
    alloc: Global,
    paths: &[String],
    path: &str,
) -> Result<()> {
    let front = shortened(path);
    let mut part = format!(in alloc; "{front}.{PART}")?;
    for number in 2..u32::MAX {
        let is_left = exists(rt, part.as_str());
        if !is_left && number > 3 {
            break;
        }
        if is_left && !paths.iter().any(|other| other.as_str() == part.as_str()) {
            warn(rt, part.as_str(), format_args!("warning: {LEFT_PART}"));
        }
        part = format!(in alloc; "{front}.{PART}{number}")?;
    }
    Ok(())
}

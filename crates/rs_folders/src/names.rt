//! Names of files, and the paths that are made from names.
use rs_volumes::checking::is_before;
use rs_volumes::description::Entry;
use std::alloc::{AllocError, Global};
use std::cmp::Ordering;
use std::fmt;
use std::fmt::Display;

/// The largest number of bytes of a name to which the program adds an ending. Longer names are cut. Most file systems
/// allow names of 255 bytes, and some only names of 143 bytes.
const FRONT_BYTES: usize = 120;

/// Returns the text of a name, or `None` if the name is not UTF-8. The program cannot use such a name as a path.
pub fn text_of(name: &[u8]) -> Option<&str> {
    std::str::from_utf8(name).ok()
}

/// Compares two names in the order of a set: the order of their bytes, where `/` counts as the smallest byte.
pub fn order_of(one: &[u8], other: &[u8]) -> Ordering {
    if one == other {
        Ordering::Equal
    } else if is_before(one, other) {
        Ordering::Less
    } else {
        Ordering::Greater
    }
}

/// The name of an entry as messages show it. A name that is not UTF-8 is shown with its bytes escaped, as `\xff`.
#[derive(Clone, Copy)]
pub struct Name<'a>(pub &'a [u8]);

impl<'a> Display for Name<'a> {
    fn fmt<W: fmt::Write>(&self, f: &mut fmt::Formatter<W>) -> fmt::Result {
        if let Some(text) = text_of(self.0) {
            return write!(f, "{}", Shown(text));
        }
        for byte in self.0 {
            match *byte {
                b' '..=b'~' => f.write_char(char::from(*byte))?,
                other => write!(f, "\\x{other:02x}")?,
            }
        }
        Ok(())
    }
}

/// A name or a path as messages show it: with control characters escaped, as `\n` or `\u{1b}`. So a name in a volume
/// from somebody else cannot control the terminal.
#[derive(Clone, Copy)]
pub struct Shown<'a>(pub &'a str);

impl<'a> Display for Shown<'a> {
    fn fmt<W: fmt::Write>(&self, f: &mut fmt::Formatter<W>) -> fmt::Result {
        let text = self.0;
        if !text.chars().any(|character| character.is_control()) {
            return f.write_str(text);
        }
        for character in text.chars() {
            if character.is_control() {
                write!(f, "{}", character.escape_debug())?;
            } else {
                f.write_char(character)?;
            }
        }
        Ok(())
    }
}

/// Returns the path of a name in a folder. If `folder` is empty, the path is the name.
///
/// # Errors
///
/// [`AllocError`] if memory cannot be allocated.
pub fn path_in(alloc: Global, folder: &str, name: &str) -> Result<String, AllocError> {
    if folder.is_empty() {
        return String::from_str(alloc, name);
    }
    if folder.ends_with('/') {
        return format!(in alloc; "{folder}{name}");
    }
    format!(in alloc; "{folder}/{name}")
}

/// Returns the folder of a path: the text before the last slash. The folder is empty if the path has no slash. It is
/// `/` if the only slash is at the beginning.
pub fn parent_of(path: &str) -> &str {
    match path.rsplit_once('/') {
        Some(("", _)) => "/",
        Some((folder, _)) => folder,
        None => "",
    }
}

/// Returns the last part of a path: the text after the last slash.
pub fn last_of(path: &str) -> &str {
    path.rsplit_once('/').map_or(path, |(_, name)| name)
}

/// The ending of the name of an unfinished file. No other program gives a file a name of this form. So if no run of
/// this program is at work, a killed run has left the file.
pub const PART: &str = "rs_files.part";

/// Returns whether a name is that of an unfinished file: `NAME.rs_files.part`, or `NAME.rs_files.part2` and so on.
pub fn is_part(name: &str) -> bool {
    match name.rsplit_once(PART) {
        Some((front, number)) => {
            front.len() > 1
                && front.ends_with('.')
                && number.bytes().all(|digit| digit.is_ascii_digit())
        }
        None => false,
    }
}

/// Returns a path to which an ending of up to 23 bytes can be added. If the last part of the path has more than 120
/// bytes, the function cuts it to at most 120 bytes.
pub fn shortened(path: &str) -> &str {
    let name = last_of(path);
    let cut = name
        .len()
        .saturating_sub(name.floor_char_boundary(FRONT_BYTES));
    let front = path.split_at_checked(path.len().saturating_sub(cut));
    front.map_or(path, |(front, _)| front)
}

/// Returns a path without the slashes at its end. A path that has only slashes is not changed.
pub fn trimmed(path: &str) -> &str {
    let front = path.trim_end_matches('/');
    if front.is_empty() { path } else { front }
}

/// Returns the path of the volume that `create` writes by default, without `.rsv`. This is the path of the only FILE,
/// without slashes at its end. Returns `None` if there is no FILE or more than one, or if the path of the FILE ends in
/// `.` or `..`, or has only slashes.
pub fn front_of_volume(paths: &[String]) -> Option<&str> {
    let [path] = paths else {
        return None;
    };
    let front = trimmed(path.as_str());
    match last_of(front) {
        "" | "." | ".." => None,
        _ => Some(front),
    }
}

/// Returns the folder to open: `.` if `folder` is empty, and `folder` otherwise.
pub fn folder_to_open(folder: &str) -> &str {
    if folder.is_empty() { "." } else { folder }
}

/// Returns the path of each entry of a set below `folder`. The path of an entry whose name is not UTF-8 is empty.
///
/// # Errors
///
/// [`AllocError`] if memory cannot be allocated.
pub fn paths_of(alloc: Global, folder: &str, entries: &[Entry]) -> Result<Vec<String>, AllocError> {
    let mut paths = Vec::new(alloc);
    for entry in entries {
        paths.push(match text_of(entry.name.as_slice()) {
            Some(name) => path_in(alloc, folder, name)?,
            None => String::new(alloc),
        })?;
    }
    Ok(paths)
}

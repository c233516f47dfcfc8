//! Parts of the JSON that is printed.
use rs_folders::failure::Result;
use rs_folders::names::{Name, text_of};
use rs_volumes::description::{Entry, Kind};
use serde_json::{Map, Value, put};
use std::alloc::{AllocError, Global};

/// Returns bytes as text. Bytes that are not UTF-8 are escaped, as `\xff`.
///
/// # Errors
///
/// [`AllocError`] if memory cannot be allocated.
pub fn text_in(alloc: Global, name: &[u8]) -> Result<String, AllocError> {
    match text_of(name) {
        Some(text) => String::from_str(alloc, text),
        None => format!(in alloc; "{}", Name(name)),
    }
}

/// Returns the word for the kind of an entry.
pub fn word_of(kind: Kind) -> &'static str {
    match kind {
        Kind::File => "file",
        Kind::Link => "link",
        Kind::Folder => "folder",
    }
}

/// Returns an object for an entry, with its name, its kind and its size, and with the target of a symbolic link.
///
/// # Errors
///
/// [`AllocError`] if memory cannot be allocated.
pub fn entry_json(alloc: Global, entry: &Entry) -> Result<Map<String, Value>, AllocError> {
    let mut object = Map::new(alloc);
    let name = Value::String(text_in(alloc, entry.name.as_slice())?);
    put(&mut object, alloc, "name", name)?;
    let kind = Value::try_from_str(alloc, word_of(entry.kind))?;
    put(&mut object, alloc, "kind", kind)?;
    put(&mut object, alloc, "size", Value::from(entry.size))?;
    if entry.kind == Kind::Link {
        let target = Value::String(text_in(alloc, entry.target.as_slice())?);
        put(&mut object, alloc, "target", target)?;
    }
    Ok(object)
}

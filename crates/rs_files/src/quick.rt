//! `verify --quick` and `verify --only`: checks of entries that need no blocks.
use crate::checked::Checked;
use crate::log::Log;
use crate::looking::chosen_of;
use crate::settings::{Request, STATUS_DAMAGED, STATUS_WHOLE};
use rs_file_sets::one_entry::{is_whole, state_by_time};
use rs_folders::counted::Kinds;
use rs_folders::failure::Result;
use rs_folders::hashing::CHUNK;
use rs_folders::leftovers::tell_leftovers;
use rs_folders::names::paths_of;
use rs_volume_files::scanner::State;
use rs_volumes::description::{Description, Version};
use serde_json::Value;
use std::alloc::Global;
use std::io;
use std::rt::Files;

/// Compares the sizes and the times of files, the targets of symbolic links, and empty folders with the entries of a
/// set, without reading any file. The result is about the entries of the request. The function prints a warning for
/// each unfinished file. Returns the exit status.
///
/// # Errors
///
/// Fails for a reason of [`chosen_of`], if the result cannot be printed, or if memory cannot be allocated.
pub fn verify_quick<R: Files + Print + Eprint>(
    rt: &R,
    alloc: Global,
    request: &Request,
    set: &Description,
    folder: &str,
) -> Result<u8> {
    let chosen = chosen_of(alloc, request, set)?;
    let mut paths = paths_of(alloc, folder, set.entries.as_slice())?;
    for volume in &request.paths {
        paths.push(volume.clone()?)?;
    }
    tell_leftovers(rt, alloc, paths.as_slice())?;
    let mut states = Vec::new(alloc);
    for (entry, path) in set.entries.iter().zip(paths.as_slice()) {
        states.push(state_by_time(rt, alloc, entry, path.as_str(), set.version))?;
    }
    let checked = Checked {
        entries: set.entries.as_slice(),
        states: states.as_slice(),
        chosen: chosen.as_slice(),
        words: ["unchanged", "changed", "missing"],
    };
    let (same, other) = counted(&checked);
    let status = if other.is_empty() {
        STATUS_WHOLE
    } else {
        STATUS_DAMAGED
    };
    let mut log = Log::new(alloc, request, &[])?;
    if log.is_kept {
        log.set("quick", Value::Bool(true))?;
    }
    if log.is_told {
        checked.tell(rt, folder)?;
        tell_quick(rt, same, other)?;
    }
    checked.end(rt, alloc, log, status)
}

// Counts the chosen entries that are whole, and the others.
fn counted(checked: &Checked<'_>) -> (Kinds, Kinds) {
    let (mut whole, mut other) = (Kinds::none(), Kinds::none());
    let states = checked.states.iter().zip(checked.chosen);
    for (entry, (state, is_chosen)) in checked.entries.iter().zip(states) {
        if *is_chosen {
            match state {
                State::Whole => whole.add(entry.kind),
                _ => other.add(entry.kind),
            }
        }
    }
    (whole, other)
}

fn tell_quick<R: Print>(rt: &R, same: Kinds, other: Kinds) -> io::Result<()> {
    if other.is_empty() {
        println!(rt; "unchanged by size and time: {same}")?;
    } else {
        println!(rt; "unchanged by size and time: {same}, changed or missing: {other}")?;
    }
    println!(rt;
        "nothing was read: wrong bytes in a file with the same size and time are not seen, nor is damage of volumes"
    )
}

/// Compares the files after `--only` with their own digests, and reads no other file and no block of a volume. If all
/// these entries are whole, the function prints this, and returns the exit status. Returns `None` and prints nothing if
/// one of them is not whole, if `--only` is not given, or if the set has version 1, which has no digests of files.
///
/// # Errors
///
/// Fails for a reason of [`chosen_of`], if the result cannot be printed, or if memory cannot be allocated.
pub fn verify_named<R: Files + Print>(
    rt: &R,
    alloc: Global,
    request: &Request,
    set: &Description,
    folder: &str,
) -> Result<Option<u8>> {
    let chosen = chosen_of(alloc, request, set)?;
    if request.only.is_empty() || set.version == Version::First {
        return Ok(None);
    }
    let paths = paths_of(alloc, folder, set.entries.as_slice())?;
    let mut buffer = vec![in alloc; 0u8; CHUNK]?;
    let named = set.entries.iter().zip(paths.as_slice());
    for ((entry, path), is_chosen) in named.zip(chosen.as_slice()) {
        if *is_chosen && !is_whole(rt, alloc, entry, path.as_str(), &mut buffer) {
            return Ok(None);
        }
    }
    let states = vec![in alloc; State::Whole; chosen.len()]?;
    let checked = Checked {
        entries: set.entries.as_slice(),
        states: states.as_slice(),
        chosen: chosen.as_slice(),
        words: ["whole", "damaged", "missing"],
    };
    let log = Log::new(alloc, request, &["moved", "volumes"])?;
    if log.is_told {
        let (whole, _) = counted(&checked);
        println!(rt; "whole: {whole}. The other files and the volumes were not compared")?;
    }
    Ok(Some(checked.end(rt, alloc, log, STATUS_WHOLE)?))
}

//! `verify`: looks for damage.
use crate::checked::Checked;
use crate::log::Log;
use crate::looking::{Look, folder_for, folder_of, look_for, open_request};
use crate::quick::{verify_named, verify_quick};
use crate::rebuilding::can_rebuild;
use crate::settings::{Request, STATUS_DAMAGED, STATUS_LOST, STATUS_WHOLE};
use rs_file_sets::scanning::{Counts, Scan};
use rs_folders::counted::Counted;
use rs_folders::failure::Result;
use rs_folders::names::Shown;
use rs_volumes::description::Version;
use serde_json::{Value, json};
use std::alloc::{AllocError, Global};
use std::io;
use std::rt::Runtime;

// Returns the exit status. It is `STATUS_WHOLE` if the entries of the request are whole, or volumes of `split` hold all
// original blocks. If the request is about all entries, all recovery blocks and all volumes must be whole, too.
fn status_of(alloc: Global, found: &Look) -> Result<u8, AllocError> {
    let (scan, counts) = (&found.scan, found.scan.counts());
    let are_held = counts.lost == 0 && scan.is_spread();
    let are_files_whole = found.has_whole_files || are_held;
    let is_more_whole = counts.recovery == counts.recovery_count && scan.has_whole_volumes();
    let mut is_lost = found.has_all && counts.lost > counts.recovery;
    if !found.has_all {
        let restorable = scan.restorable(alloc)?;
        for (can, is_broken) in restorable.iter().zip(found.broken.as_slice()) {
            is_lost = is_lost || (!*can && *is_broken);
        }
    }
    Ok(if is_lost {
        STATUS_LOST
    } else if are_files_whole && (is_more_whole || !found.has_all) {
        STATUS_WHOLE
    } else {
        STATUS_DAMAGED
    })
}

fn checked(found: &Look) -> Checked<'_> {
    Checked {
        entries: found.scan.description().entries.as_slice(),
        states: found.scan.states.as_slice(),
        chosen: found.chosen.as_slice(),
        words: ["whole", "damaged", "missing"],
    }
}

/// Prints which volumes are damaged, and how many of their blocks.
///
/// # Errors
///
/// Fails if the result cannot be printed.
pub fn tell_volumes<R: Print>(rt: &R, scan: &Scan) -> io::Result<()> {
    for volume in &scan.volumes {
        let path = Shown(volume.path.as_str());
        let damage = volume.damage;
        if damage.parts > 0 {
            let parts = Counted(damage.parts, "damaged or missing part");
            println!(rt; "{path}: the volume has {parts} of its description")?;
        }
        if damage.blocks > 0 {
            let blocks = Counted(damage.blocks, "damaged or missing block");
            println!(rt; "{path}: the volume has {blocks}")?;
        }
        if damage.has_more {
            println!(rt; "{path}: the volume is damaged outside of its blocks")?;
        }
    }
    Ok(())
}

// Prints the result for files in their folder, if they can be repaired or are whole.
fn tell_blocks<R: Print>(rt: &R, found: &Look, counts: Counts) -> io::Result<()> {
    let scan = &found.scan;
    let whole = counts.recovery;
    let damaged = counts.recovery_count.saturating_sub(whole);
    let recovery = Counted(counts.recovery_count as u64, "recovery block");
    let advice = match scan.description().version {
        Version::First => "make the volume again with update",
        Version::Second if can_rebuild(scan) => "repair writes damaged volumes again",
        Version::Second if scan.description().volumes > 1 => {
            "name all volumes, or make them again with split --force"
        }
        Version::Second => "make it again with update, or with create --force",
    };
    if !found.has_whole_files {
        let lost = Counted(counts.lost as u64, "lost block");
        println!(rt; "{lost}, and {whole} of {recovery} left: the files can be repaired")
    } else if !found.has_all {
        println!(rt; "the files after --only are whole")
    } else if damaged > 0 {
        println!(rt; "all files are whole, but {damaged} of {recovery} cannot be used: {advice}")
    } else if !scan.has_whole_volumes() {
        println!(rt;
            "all files and recovery blocks are whole, but a volume is damaged or cannot be read: {advice}"
        )
    } else {
        println!(rt; "all files and volumes are whole, with {recovery}")
    }
}

// Prints the result for volumes of `split`, if enough blocks are left.
fn tell_spread<R: Print>(rt: &R, scan: &Scan, counts: Counts) -> io::Result<()> {
    let k = scan.description().original_count;
    let (lost, left, r) = (counts.lost, counts.recovery, counts.recovery_count);
    let damaged = r.saturating_sub(left);
    if lost > 0 || damaged > 0 {
        let again = if can_rebuild(scan) {
            ", and repair writes damaged volumes again"
        } else {
            ""
        };
        println!(rt;
            "{lost} of {k} original blocks and {damaged} of {r} recovery blocks are not in these \
             volumes: restore can still make all files{again}"
        )
    } else if can_rebuild(scan) {
        println!(rt;
            "a volume is damaged, but all blocks are in these volumes: restore makes the files from them, and \
             repair writes damaged volumes again"
        )
    } else if !scan.has_whole_volumes() {
        println!(rt;
            "a volume is damaged or cannot be read, but all blocks are in these volumes: get the files \
             with restore, and make the volumes again with split"
        )
    } else {
        let blocks = Counted(u64::from(k), "original block");
        let recovery = Counted(r as u64, "recovery block");
        println!(rt;
            "all volumes are whole, with {blocks} and {recovery}: restore makes the files from them"
        )
    }
}

/// Prints on standard error that the files cannot be restored, and how many blocks are needed.
///
/// # Errors
///
/// Fails if the message cannot be printed.
pub fn tell_lost<R: Eprint>(rt: &R, counts: Counts) -> io::Result<()> {
    let lost = Counted(counts.lost as u64, "lost block");
    let recovery = Counted(counts.recovery as u64, "recovery block");
    let lacking = counts.lost.saturating_sub(counts.recovery);
    let lacking = Counted(lacking as u64, "more block");
    eprintln!(rt;
        "rs_files: {lost}, and {recovery} left: the files cannot be restored without {lacking}"
    )
}

/// Prints which files and volumes are damaged or missing, and what can be done, unless `--quiet` or `--json` is given.
/// If files cannot be restored, the function prints this on standard error, unless `--json` is given.
///
/// # Errors
///
/// Fails if the result cannot be printed.
pub fn report<R: Print + Eprint>(rt: &R, found: &Look, log: &Log, status: u8) -> io::Result<()> {
    let (scan, counts) = (&found.scan, found.scan.counts());
    if log.is_kept {
        return Ok(());
    }
    if log.is_told {
        // Nobody expects the files of volumes of `split` to be there.
        if !scan.is_spread() {
            checked(found).tell(rt, found.folder.as_str())?;
        }
        found.tell_moved(rt)?;
        if found.has_all {
            tell_volumes(rt, scan)?;
        }
    }
    if status == STATUS_LOST {
        tell_lost(rt, counts)
    } else if !log.is_told {
        Ok(())
    } else if scan.is_spread() {
        tell_spread(rt, scan, counts)
    } else {
        tell_blocks(rt, found, counts)
    }
}

/// Sets the members of a log that are numbers of blocks.
///
/// # Errors
///
/// [`AllocError`] if memory cannot be allocated.
pub fn add_counts(log: &mut Log, scan: &Scan) -> Result<(), AllocError> {
    let counts = scan.counts();
    log.set("lost_blocks", Value::from(counts.lost))?;
    log.set("recovery_blocks", Value::from(counts.recovery_count))?;
    log.set("whole_recovery_blocks", Value::from(counts.recovery))
}

// Returns JSON for the volumes that can be read.
fn volumes_json(alloc: Global, scan: &Scan) -> Result<Vec<Value>, AllocError> {
    let mut volumes = Vec::new(alloc);
    for volume in &scan.volumes {
        let damage = volume.damage;
        let object = json!(in alloc; {
            "name": &volume.path,
            "state": if damage.is_none() { "whole" } else { "damaged" },
            "damaged_blocks": damage.blocks,
            "damaged_parts": damage.parts
        })?;
        volumes.push(object)?;
    }
    Ok(volumes)
}

/// Runs `verify`: looks for damage in the files of a set and in its volumes. Volumes of `split` hold the files, so with
/// these no files are looked for unless `--folder` or `--quick` is given. Returns the exit status.
///
/// # Errors
///
/// In this order, fails if:
///
/// - no volume is named, or a folder of the request is not there,
/// - no volume can be read, or volumes belong to different sets,
/// - a name after `--only` is not in the set,
/// - the result cannot be printed.
///
/// Every step fails if memory cannot be allocated.
pub fn verify<R: Runtime>(rt: &R, alloc: Global, request: &Request) -> Result<u8> {
    let volumes = open_request(rt, alloc, request)?;
    let set = &volumes.set.description;
    if request.quick {
        let folder = folder_of(rt, alloc, request, set)?;
        return verify_quick(rt, alloc, request, set, folder.as_str());
    }
    let searched = folder_for(rt, alloc, request, set)?;
    if let Some(folder) = &searched {
        if let Some(status) = verify_named(rt, alloc, request, set, folder.as_str())? {
            return Ok(status);
        }
    }
    let found = look_for(rt, alloc, request, volumes, searched.as_deref())?;
    let mut log = Log::new(alloc, request, &["moved"])?;
    found.note_moved(&mut log)?;
    let status = status_of(alloc, &found)?;
    report(rt, &found, &log, status)?;
    if log.is_kept {
        add_counts(&mut log, &found.scan)?;
        let mut volumes = volumes_json(alloc, &found.scan)?;
        for path in &found.scan.unreadable {
            volumes.push(json!(in alloc; {"name": path, "state": "unreadable"})?)?;
        }
        log.set("volumes", Value::Array(volumes))?;
    }
    checked(&found).end(rt, alloc, log, status)
}

//! `repair` and `restore`: restore files in their folder, or into another one.
use crate::checked::tell_nowhere;
use crate::log::Log;
use crate::looking::{Look, folder_for, look_for, open_request};
use crate::rebuilding::rebuild;
use crate::renamed::Renamed;
use crate::settings::{Request, STATUS_FAILED, STATUS_LOST, STATUS_WHOLE};
use crate::verifying::{add_counts, report, tell_lost, tell_volumes};
use rs_file_sets::one_entry::is_there;
use rs_file_sets::restoring::write_blocks;
use rs_file_sets::scanning::scan_opened;
use rs_file_sets::targets::{Outcome, Targets};
use rs_folders::counted::{Counted, Kinds};
use rs_folders::failure::{Failure, Result};
use rs_folders::hashing::CHUNK;
use rs_folders::leftovers::tell_leftovers;
use rs_folders::names::{Name, Shown, paths_of};
use rs_folders::placing::Goal;
use rs_volume_files::volume::open_volumes;
use rs_volumes::description::Entry;
use std::alloc::{AllocError, Global};
use std::rt::Runtime;

/// The lists of the object that `repair` and `restore` print with `--json`.
const LISTS: [&str; 6] = ["restored", "existing", "failed", "lost", "moved", "written"];

// A restore of the entries of a request.
#[derive(Drop)]
struct Job<'a, R: Runtime> {
    rt: &'a R,
    alloc: Global,
    request: &'a Request,
    // What was found of the set.
    found: &'a Look,
    goal: Goal<'a>,
}

// Returns the job of a request. Files are restored into the folder after `--to`, or, without this option, into the
// folder in which they were looked for.
fn job_of<'a, R: Runtime>(
    rt: &'a R,
    alloc: Global,
    request: &'a Request,
    found: &'a Look,
) -> Job<'a, R> {
    let (folder, in_place) = match &request.to {
        Some(to) => (to.as_str(), false),
        None => (found.folder.as_str(), true),
    };
    let goal = Goal {
        folder,
        in_place,
        force: request.force,
        set: found.scan.description(),
    };
    Job {
        rt,
        alloc,
        request,
        found,
        goal,
    }
}

/// Runs `repair`: restores the damaged and missing files of a set in their folder, and writes damaged volumes again.
/// Volumes of `split` hold the files, so without `--folder` only these volumes are written again.
///
/// Returns the exit status. It is `STATUS_LOST` if not enough blocks are left for a file, and otherwise `STATUS_FAILED`
/// if a file could not be restored for another reason. All other files are restored. It is `STATUS_DAMAGED` if only a
/// damaged volume could not be written again.
///
/// # Errors
///
/// In this order, fails if:
///
/// - no volume is named, or a folder of the request is not there,
/// - no volume can be read, or volumes belong to different sets,
/// - `--only` is given for volumes of `split` without `--folder`, or a name after `--only` is not in the set,
/// - the folder after `--folder` is the folder of the set, and was renamed,
/// - a block that was found cannot be read or restored,
/// - the result cannot be printed,
/// - the damaged volumes cannot be written again, for a reason of [`rebuild`].
///
/// Every step fails if memory cannot be allocated.
pub fn repair<R: Runtime>(rt: &R, alloc: Global, request: &Request) -> Result<u8> {
    let volumes = open_request(rt, alloc, request)?;
    // This needs no search for blocks. A volume of version 1 does not say how it was made, so `mend_spread` checks it.
    if volumes.set.description.volumes > 1 {
        check_only(request)?;
    }
    let searched = folder_for(rt, alloc, request, &volumes.set.description)?;
    let found = look_for(rt, alloc, request, volumes, searched.as_deref())?;
    let mut log = Log::new(alloc, request, &LISTS)?;
    add_counts(&mut log, &found.scan)?;
    if request.folder.is_none() && found.scan.is_spread() {
        let status = mend_spread(rt, alloc, request, found, &mut log)?;
        return log.end(rt, status);
    }
    let job = job_of(rt, alloc, request, &found);
    let mut status = mend(&job, &mut log)?;
    if status == STATUS_WHOLE && request.only.is_empty() && !found.scan.has_whole_volumes() {
        let (paths, folder) = (request.paths.as_slice(), Some(found.folder.as_str()));
        // If the files were whole before, nothing is read.
        let mut scan = if found.has_whole_files {
            found.scan
        } else {
            let volumes = open_volumes(rt, alloc, paths, request.memory)?;
            scan_opened(rt, alloc, volumes, request.progress, folder)?
        };
        status = rebuild(rt, alloc, request, &mut scan, &mut log)?;
    }
    log.end(rt, status)
}

// Checks the options of a repair of volumes of `split`. Without the folder of the files, no file is restored, so none
// can be named.
fn check_only(request: &Request) -> Result<()> {
    if request.folder.is_none() && !request.only.is_empty() {
        return Err(Failure::of(
            "volumes of split hold the files: name the folder of the files with --folder, or use restore",
        ));
    }
    Ok(())
}

// Writes damaged volumes of `split` again. The blocks are in the volumes, so no file of the set is read or written.
fn mend_spread<R: Runtime>(
    rt: &R,
    alloc: Global,
    request: &Request,
    found: Look,
    log: &mut Log,
) -> Result<u8> {
    check_only(request)?;
    let counts = found.scan.counts();
    let status = if counts.lost > counts.recovery {
        STATUS_LOST
    } else {
        STATUS_WHOLE
    };
    report(rt, &found, log, status)?;
    if status == STATUS_LOST || found.scan.has_whole_volumes() {
        return Ok(status);
    }
    let mut scan = found.scan;
    rebuild(rt, alloc, request, &mut scan, log)
}

/// Runs `restore`: restores the files of a set into another folder. Files that are whole in the folder of the set are
/// not restored. With volumes of `split`, which hold the files, no files are looked for unless `--folder` is given: all
/// files are restored.
///
/// Returns the exit status. It is `STATUS_LOST` if not enough blocks are left for a file, and otherwise `STATUS_FAILED`
/// if a file could not be restored for another reason. All other files are restored.
///
/// # Errors
///
/// In this order, fails if:
///
/// - `--to` is not given,
/// - no volume is named, or a folder of the request is not there,
/// - no volume can be read, or volumes belong to different sets,
/// - a name after `--only` is not in the set,
/// - a block that was found cannot be read or restored,
/// - the result cannot be printed.
///
/// Every step fails if memory cannot be allocated.
pub fn restore<R: Runtime>(rt: &R, alloc: Global, request: &Request) -> Result<u8> {
    if request.to.is_none() {
        return Err(Failure::of("say where the files go, as --to FOLDER"));
    }
    let volumes = open_request(rt, alloc, request)?;
    let searched = folder_for(rt, alloc, request, &volumes.set.description)?;
    let found = look_for(rt, alloc, request, volumes, searched.as_deref())?;
    let mut log = Log::new(alloc, request, &LISTS)?;
    add_counts(&mut log, &found.scan)?;
    let job = job_of(rt, alloc, request, &found);
    // If the files were looked for in the same folder, `look_for` has named the unfinished files.
    if job.goal.folder != found.folder.as_str() {
        let paths = paths_of(alloc, job.goal.folder, job.goal.set.entries.as_slice())?;
        tell_leftovers(rt, alloc, paths.as_slice())?;
    }
    let status = mend(&job, &mut log)?;
    log.end(rt, status)
}

// Restores the entries of a job, and prints what was restored. Returns the exit status.
fn mend<R: Runtime>(job: &Job<'_, R>, log: &mut Log) -> Result<u8> {
    let (rt, found) = (job.rt, job.found);
    found.note_moved(log)?;
    let (mut wanted, lost) = divided(job.alloc, found)?;
    let existing = leave_existing(job, &mut wanted, log)?;
    let loses = lost.contains(&true);
    // If nothing of the set is in its folder, the folder is probably another one.
    let is_nowhere = loses && !found.scan.has_files() && !found.scan.is_spread();
    let is_left = !wanted.contains(&true) || is_nowhere && job.goal.in_place;
    if job.goal.in_place && found.has_all && matches!(found.renamed, Renamed::Here) {
        if log.is_told {
            found.tell_moved(rt)?;
        }
        let reason =
            "this is the folder of the set, and it was renamed: nothing was restored, because that would \
             copy all files into it";
        return Err(Failure::at(job.alloc, job.found.folder.as_str(), reason));
    }
    if is_left && !loses {
        tell_nothing(job, existing, log)?;
        return Ok(STATUS_WHOLE);
    }
    if log.is_told {
        if is_nowhere {
            tell_nowhere(rt, job.found.folder.as_str())?;
        }
        found.tell_moved(rt)?;
    }
    let all = if is_left {
        log.end_lists(rt)?;
        true
    } else {
        restore_entries(job, wanted, log)?
    };
    if loses {
        tell_beyond(rt, found, lost.as_slice(), is_nowhere && is_left, log)?;
        return Ok(STATUS_LOST);
    }
    Ok(if all { STATUS_WHOLE } else { STATUS_FAILED })
}

// Returns marks of the entries of the request that are not whole. The first list marks those that can be restored, and
// the second list marks those that cannot.
fn divided(alloc: Global, found: &Look) -> Result<(Vec<bool>, Vec<bool>), AllocError> {
    let restorable = found.scan.restorable(alloc)?;
    let mut wanted = Vec::new(alloc);
    let mut lost = Vec::new(alloc);
    for (can, is_broken) in restorable.iter().zip(found.broken.as_slice()) {
        wanted.push(*can && *is_broken)?;
        lost.push(!*can && *is_broken)?;
    }
    Ok((wanted, lost))
}

// Removes the marks of the entries that exist in the folder after `--to` with the right bytes. Returns whether there
// are any. With `--force`, all marked entries are written again.
fn leave_existing<R: Runtime>(
    job: &Job<'_, R>,
    wanted: &mut [bool],
    log: &mut Log,
) -> Result<bool> {
    let (rt, alloc, goal) = (job.rt, job.alloc, job.goal);
    let mut existing = false;
    if goal.in_place || goal.force {
        return Ok(existing);
    }
    let mut buffer = vec![in alloc; 0u8; CHUNK]?;
    for (entry, is_wanted) in goal.set.entries.iter().zip(wanted) {
        if *is_wanted && is_there(rt, alloc, goal.folder, entry, &mut buffer)? {
            *is_wanted = false;
            existing = true;
            log.note(rt, "existing", entry.name.as_slice())?;
        }
    }
    Ok(existing)
}

// `existing` says whether the entries are already where `restore` writes them.
fn tell_nothing<R: Runtime>(job: &Job<'_, R>, existing: bool, log: &Log) -> Result<()> {
    let (rt, to) = (job.rt, Shown(job.goal.folder));
    if existing {
        log.end_lists(rt)?;
    } else {
        report(rt, job.found, log, STATUS_WHOLE)?;
    }
    if log.is_told && existing {
        println!(rt; "nothing was written into {to}, because all files are there already")?;
    } else if log.is_told && !job.goal.in_place {
        println!(rt; "nothing was written into {to}, because nothing is damaged or missing")?;
    }
    Ok(())
}

// Prints which entries cannot be restored, and how many more blocks are needed. If `is_short` is true, the entries are
// not named.
fn tell_beyond<R: Print + Eprint>(
    rt: &R,
    found: &Look,
    lost: &[bool],
    is_short: bool,
    log: &mut Log,
) -> Result<()> {
    for (entry, is_lost) in found.scan.description().entries.iter().zip(lost) {
        if *is_lost {
            log.add("lost", ("name", entry.name.as_slice()), None)?;
            if !log.is_kept && !is_short {
                let name = Name(entry.name.as_slice());
                eprintln!(rt; "rs_files: cannot be restored: {name}")?;
            }
        }
    }
    if log.is_told {
        tell_volumes(rt, &found.scan)?;
    }
    if !log.is_kept {
        tell_lost(rt, found.scan.counts())?;
    }
    Ok(())
}

// Restores the entries that `wanted` marks. Returns whether all of them were restored. Unfinished files are removed.
fn restore_entries<R: Runtime>(job: &Job<'_, R>, wanted: Vec<bool>, log: &mut Log) -> Result<bool> {
    let (rt, scan) = (job.rt, &job.found.scan);
    let (memory, shown) = (job.request.memory, job.request.progress);
    let mut targets = Targets::new(rt, job.alloc, job.goal, wanted, scan.paths.as_slice())?;
    let mut restored = targets.begin();
    if restored.is_ok() {
        restored = write_blocks(rt, job.alloc, scan, &mut targets, memory, shown);
    }
    if restored.is_ok() {
        targets.finish();
    }
    targets.remove();
    let outcomes = targets.outcomes.as_slice();
    for outcome in outcomes {
        if let Outcome::Failed(failure) = outcome {
            failure.tell(rt);
        }
    }
    restored?;
    if targets.without_room > 0 {
        let bytes = Counted(targets.without_room, "byte");
        eprintln!(rt; "rs_files: the disk has no room for {bytes} of these files")?;
    }
    tell_outcomes(job, outcomes, log)
}

// Prints which entries were restored, and which ones were not. Returns whether all of them were restored.
fn tell_outcomes<R: Runtime>(
    job: &Job<'_, R>,
    outcomes: &[Outcome],
    log: &mut Log,
) -> Result<bool> {
    let rt = job.rt;
    let mut restored = Kinds::none();
    let (mut kept, mut failed) = (0u64, 0u64);
    for (entry, outcome) in job.goal.set.entries.iter().zip(outcomes) {
        match outcome {
            Outcome::Left => {}
            Outcome::Restored(path) => {
                restored.add(entry.kind);
                kept = kept.saturating_add(u64::from(path.is_some()));
                note_restored(rt, entry, path, log)?;
            }
            Outcome::Failed(failure) => {
                failed = failed.saturating_add(1);
                let reason = format!(in job.alloc; "{failure}")?;
                let reason = Some(("reason", reason.as_bytes()));
                log.add("failed", ("name", entry.name.as_slice()), reason)?;
            }
        }
    }
    log.end_lists(rt)?;
    if log.is_told && kept == 0 {
        println!(rt; "restored {restored}")?;
    } else if log.is_told {
        let damaged = Counted(kept, "damaged file");
        println!(rt; "restored {restored}, and kept {damaged} as NAME.damaged")?;
    }
    if failed > 0 {
        let failed = Counted(failed, "file");
        eprintln!(rt; "rs_files: {failed} could not be restored")?;
    }
    Ok(failed == 0)
}

fn note_restored<R: Print>(
    rt: &R,
    entry: &Entry,
    kept: &Option<String>,
    log: &mut Log,
) -> Result<()> {
    let name = entry.name.as_slice();
    let more = match kept {
        Some(path) => Some(("kept", path.as_bytes())),
        None => None,
    };
    log.add("restored", ("name", name), more)?;
    if log.shows("restored")? {
        let name = Name(name);
        println!(rt; "restored: {name}")?;
        if let Some(path) = kept {
            let path = Shown(path.as_str());
            println!(rt; "kept: {path}")?;
        }
    }
    Ok(())
}

//! `update`: makes a volume again after files were changed.
use crate::creating::{Task, make};
use crate::looking::{folder_of, open_request};
use crate::renamed::tops_of;
use crate::settings::{ONE_VOLUME, Request};
use rs_file_sets::cutting::{Recovery, cut_data};
use rs_file_sets::scanning::scan_opened;
use rs_folders::failure::{Failure, Result};
use rs_folders::identity::exists;
use rs_folders::names::path_in;
use rs_volume_files::volume::open_volumes;
use rs_volumes::checking::{UNIT, data_end};
use rs_volumes::description::{Description, Version};
use std::alloc::{AllocError, Global};
use std::rt::{Files, Runtime};

// Returns the paths of the entries and folders of a set that are directly in `folder` and exist, and marks of those
// that are symbolic links of the set.
fn paths_in<R: Files>(
    rt: &R,
    alloc: Global,
    folder: &str,
    set: &Description,
) -> Result<(Vec<String>, Vec<bool>), AllocError> {
    let mut paths = Vec::new(alloc);
    let mut links = Vec::new(alloc);
    for top in tops_of(alloc, set)? {
        let path = path_in(alloc, folder, top.name)?;
        if exists(rt, path.as_str()) {
            paths.push(path)?;
            links.push(top.is_link)?;
        }
    }
    Ok((paths, links))
}

// Returns the block size of a set, or `None` if it is the default for the old files. Volumes of version 1 were made
// with other defaults, so each block size of version 1 counts as a default.
fn block_of(set: &Description) -> Option<u64> {
    if set.version == Version::First || set.original_count == 0 {
        return None;
    }
    let data_bytes = data_end(UNIT, set.entries.as_slice())?;
    let default = cut_data(data_bytes, None, Recovery::Count(set.recovery_count));
    match default {
        Ok(cut) if cut.block_bytes == set.block_bytes => None,
        _ => Some(set.block_bytes),
    }
}

// Returns whether the volume of a request is one of several volumes of `split`. A volume of version 1 does not say how
// it was made, so the function reads its blocks: it is one of several if it has an original block, or if it is whole
// and does not have all recovery blocks.
fn is_of_split<R: Runtime>(
    rt: &R,
    alloc: Global,
    request: &Request,
    set: &Description,
) -> Result<bool> {
    if set.version == Version::Second {
        return Ok(set.volumes > 1);
    }
    let volumes = open_volumes(rt, alloc, request.paths.as_slice(), request.memory)?;
    let scan = scan_opened(rt, alloc, volumes, request.progress, None)?;
    let counts = scan.counts();
    Ok(scan.is_spread() || scan.has_whole_volumes() && counts.recovery < counts.recovery_count)
}

/// Runs `update`: makes the volume of a set again, with the files as they are now. Returns the exit status. It is
/// `STATUS_LOST` if a file is rotten and not accepted: then the old volume stays.
///
/// # Errors
///
/// In this order, fails if:
///
/// - not exactly one volume is named, the folder after `--folder` is not there, or the volume cannot be read,
/// - it is one of several volumes of `split`, or the blocks of a volume of version 1 cannot be read to find this out,
/// - nothing of the set is in its folder,
/// - the new volume cannot be made, for a reason of [`make`].
pub fn update<R: Runtime>(rt: &R, alloc: Global, request: &Request) -> Result<u8> {
    let [volume] = request.paths.as_slice() else {
        return Err(Failure::of(ONE_VOLUME));
    };
    let old = open_request(rt, alloc, request)?;
    let set = &old.set.description;
    if is_of_split(rt, alloc, request, set)? {
        let reason = "this is one of several volumes: make them again with split --force";
        return Err(Failure::at(alloc, volume.as_str(), reason));
    }
    let recovery = u64::from(set.recovery_count).saturating_mul(100);
    let share = recovery.div_ceil(u64::from(set.original_count).max(1));
    let share = Recovery::Percent(share.clamp(1, 10_000) as u32);
    let folder = folder_of(rt, alloc, request, set)?;
    let (paths, links) = paths_in(rt, alloc, folder.as_str(), set)?;
    if paths.is_empty() {
        let reason =
            "nothing of the set is in this folder: if its files are in another folder, name that with \
             --folder. If they were renamed, give them their old names, or use create NEW -o VOLUME --force, \
             which compares as update does";
        return Err(Failure::at(alloc, folder.as_str(), reason));
    }
    let outputs = [volume.clone()?];
    let task = Task {
        request,
        old_block: block_of(set),
        files: paths.as_slice(),
        kept: links.as_slice(),
        recovery: request.recovery.unwrap_or(share),
        outputs: &outputs,
    };
    make(rt, alloc, task)
}

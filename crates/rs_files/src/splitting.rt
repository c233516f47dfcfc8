//! `split`: spreads files over volumes.
use crate::creating::{Task, make};
use crate::settings::{MOST_VOLUMES, Request, STATUS_LOST};
use rs_file_sets::cutting::Recovery;
use rs_folders::failure::{Failure, Result, warn};
use rs_folders::identity::exists;
use rs_folders::names::path_in;
use rs_volume_files::volume_sink::check_parts;
use std::alloc::{AllocError, Global};
use std::rt::Runtime;

// Returns the paths of volumes in a folder.
fn outputs_in(alloc: Global, volumes: u32, folder: &str) -> Result<Vec<String>, AllocError> {
    let mut paths = Vec::new(alloc);
    for number in 0..volumes {
        let shown = u64::from(number) + 1;
        let name = format!(in alloc; "volume{shown:04}.rsv")?;
        paths.push(path_in(alloc, folder, name.as_str())?)?;
    }
    Ok(paths)
}

/// Runs `split`: spreads all blocks of files over volumes. Returns the exit status. The function prints a warning for
/// each volume of an earlier run that has a higher number than the new volumes.
///
/// # Errors
///
/// Fails if `-o` is not given. Then fails for a reason of [`check_parts`], for all numbers that a volume can have: an
/// earlier run can have written more volumes. Then fails for a reason of [`make`].
pub fn split<R: Runtime>(rt: &R, alloc: Global, request: &Request) -> Result<u8> {
    let Some(folder) = &request.output else {
        return Err(Failure::of("say where the volumes go, as -o FOLDER"));
    };
    let volumes = request.volumes;
    let lose = request.lose;
    let outputs = outputs_in(alloc, volumes, folder.as_str())?;
    let all = outputs_in(alloc, MOST_VOLUMES, folder.as_str())?;
    check_parts(rt, alloc, all.as_slice())?;
    let task = Task {
        request,
        old_block: None,
        files: request.paths.as_slice(),
        kept: &[],
        recovery: Recovery::Spread { volumes, lose },
        outputs: outputs.as_slice(),
    };
    let status = make(rt, alloc, task)?;
    if status == STATUS_LOST {
        return Ok(status);
    }
    // An earlier run wrote more volumes.
    for path in all.get(volumes as usize..).unwrap_or(&[]) {
        if exists(rt, path.as_str()) {
            let reason =
                "warning: an older split made this volume, and the new ones do not belong to it: delete it";
            warn(rt, path.as_str(), reason);
        }
    }
    Ok(status)
}

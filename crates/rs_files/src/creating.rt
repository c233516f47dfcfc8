//! `create`: makes a volume with the recovery blocks of files.
use crate::comparing::{Known, check_accepted, may_replace};
use crate::log::{Log, is_shown, tell_more};
use crate::settings::{
    MOST_VOLUMES, NO_OUTPUT, Request, STATUS_FAILED, STATUS_LOST, STATUS_WHOLE, VERSION,
};
use reed_solomon_simd::engine::tables::Tables;
use reed_solomon_simd::engine::{DefaultEngine, EngineKind};
use rs_file_sets::cutting::{Cut, Recovery, cut_data, piece_bytes, shape_of};
use rs_file_sets::one_entry::has_time;
use rs_file_sets::rolling::SummedBlocks;
use rs_folders::counted::{Counted, Kinds};
use rs_folders::failure::{Failure, Result};
use rs_folders::hashing::{CHUNK, add_bytes};
use rs_folders::identity::{identity_of, open_regular};
use rs_folders::names::{Name, Shown, folder_to_open, front_of_volume, parent_of, paths_of};
use rs_folders::output::at_path;
use rs_folders::progress::Progress;
use rs_folders::source::{FileBlocks, Holders, Origin, failure_of};
use rs_folders::walking::{Found, find};
use rs_volume_files::assembly::LARGEST_DESCRIPTION;
use rs_volume_files::volume_sink::{Volumes, check_output, check_parts, part_of};
use rs_volumes::checking::{UNIT, data_end, fits};
use rs_volumes::coding_error::CodingError;
use rs_volumes::creating::{Work, create_except};
use rs_volumes::description::{CREATOR, Description, Entry, Field, Kind, Version};
use rs_volumes::digest::digest_of;
use rs_volumes::hasher::ByteHasher;
use rs_volumes::placement::places_of;
use rs_volumes::write_description;
use serde_json::Value;
use std::alloc::{AllocError, Global};
use std::io::ErrorKind;
use std::rt::{Clock, Files, Runtime};
use std::{fs, io};

// Returns a description without the digests and the sums of the blocks, which are computed later.
fn description_of(
    alloc: Global,
    entries: Vec<Entry>,
    cut: Cut,
    volumes: u32,
) -> Result<Description, AllocError> {
    let creator = format!(in alloc; "rs_files {VERSION}")?;
    let mut fields = Vec::new(alloc);
    fields.push(Field {
        kind: CREATOR,
        bytes: Vec::from_slice(alloc, creator.as_bytes())?,
    })?;
    Ok(Description {
        version: Version::Second,
        block_bytes: cut.block_bytes,
        original_count: cut.original_count,
        recovery_count: cut.recovery_count,
        volumes,
        fields,
        entries,
        digests: Vec::new(alloc),
        sums: Vec::new(alloc),
    })
}

/// Returns the bytes of a description.
///
/// # Errors
///
/// Fails if there are 2^32 entries or more, if a name has 65536 bytes or more, or if memory cannot be allocated.
pub fn written(alloc: Global, description: &Description) -> Result<Vec<u8>> {
    if fits(description) {
        Ok(write_description(alloc, description)?)
    } else {
        Err(Failure::of("there are too many files, or a name is too long"))
    }
}

// The files of which volumes are made, and the description of their set.
#[derive(Drop)]
struct Making<'a, R: Files + Clock + Eprint> {
    rt: &'a R,
    alloc: Global,
    request: &'a Request,
    description: Description,
    // The path of each entry, and whether the path is a symbolic link to a file.
    paths: Vec<String>,
    linked: Vec<bool>,
    // What is known from old volumes.
    known: Known,
}

impl<'a, R: Files + Clock + Eprint> Making<'a, R> {
    // Returns the number of bytes of the description, with the digests and sums that are computed later. Fails if this
    // is more than 1 GiB, because the program does not read such a description.
    fn description_bytes(&self) -> Result<u64> {
        let originals = u64::from(self.description.original_count);
        let recovery = u64::from(self.description.recovery_count);
        let front = written(self.alloc, &self.description)?.len() as u64;
        let bytes = front
            .saturating_add(40 * originals)
            .saturating_add(32 * recovery);
        if bytes > LARGEST_DESCRIPTION {
            return Err(Failure::of(
                "the names of the files are too long for one description of at most 1 GiB: make \
                 several sets of fewer files",
            ));
        }
        Ok(bytes)
    }

    // Returns how many bytes are read: those of all blocks, and those of each file whose own digest is not known.
    fn bytes_to_read(&self) -> u64 {
        let blocks = u64::from(self.description.original_count);
        let mut total = blocks.saturating_mul(self.description.block_bytes);
        for (index, entry) in self.description.entries.iter().enumerate() {
            if self.known.files.get(index).copied().flatten().is_none() {
                total = total.saturating_add(entry.size);
            }
        }
        total
    }

    fn hash_files(&mut self, progress: &mut Progress) -> Result<()> {
        let mut buffer = vec![in self.alloc; 0u8; CHUNK]?;
        for index in 0..self.paths.len() {
            let own = self.hash_file(index, progress, &mut buffer)?;
            if let Some(entry) = self.description.entries.get_mut(index) {
                entry.digest = own;
            }
        }
        Ok(())
    }

    // Returns the digest of an entry: 32 zeros if the entry is no file. A file without bytes is not opened.
    fn hash_file(
        &self,
        index: usize,
        progress: &mut Progress,
        buffer: &mut [u8],
    ) -> Result<[u8; 32]> {
        let (Some(entry), Some(path)) = (self.description.entries.get(index), self.paths.get(index))
        else {
            return Ok([0; 32]);
        };
        if entry.kind != Kind::File {
            return Ok([0; 32]);
        }
        if entry.size == 0 {
            return Ok(digest_of(&[]));
        }
        // This digest was computed from the file after its length and its time were read. `check_unchanged` compares
        // the length and the time with these at the end.
        if let Some(known) = self.known.files.get(index).copied().flatten() {
            return Ok(known);
        }
        let follows = self.linked.get(index).copied().unwrap_or(false);
        let (alloc, path) = (self.alloc, path.as_str());
        let mut file = at_path(alloc, path, open_regular(self.rt, path, follows))?;
        let mut hasher = ByteHasher::new();
        let mut left = entry.size;
        for _ in 0..u64::MAX {
            let part = left.min(CHUNK as u64);
            if part == 0 {
                break;
            }
            at_path(alloc, path, add_bytes(&mut hasher, &mut file, part, buffer))?;
            progress.advance(self.rt, part);
            left = left.saturating_sub(part);
        }
        Ok(hasher.finish().bytes)
    }

    // Codes and writes the blocks, and sets the digests and sums of the description. Digests that are known from old
    // volumes are not computed again.
    fn code(&mut self, progress: Progress, sink: &mut Volumes<'_, R>) -> Result<()> {
        let shape = shape_of(&self.description);
        if shape.original_count == 0 {
            return Ok(());
        }
        let places = places_of(self.alloc, &self.description)?;
        let origins = vec![in self.alloc; Some(Origin::Files); shape.original_count]?;
        let holders = Holders {
            paths: self.paths.as_slice(),
            follows: self.linked.as_slice(),
            places: places.as_slice(),
            origins: origins.as_slice(),
        };
        let blocks = FileBlocks::new(self.rt, self.alloc, holders, progress);
        let mut source = SummedBlocks::new(self.alloc, blocks, shape.original_count)?;
        let tables = Tables::new(self.alloc)?;
        let engine = DefaultEngine::new(&tables, EngineKind::Ssse3);
        let linked = self.linked.as_slice();
        let known = self
            .known
            .blocks(self.alloc, &self.description, places.as_slice(), linked)?;
        let work = Work {
            piece_bytes: piece_bytes(&shape, self.request.memory),
            known: known.marks.as_slice(),
        };
        let outcome = create_except(self.alloc, shape, work, engine, &mut source, sink);
        source.blocks.end();
        match outcome {
            Ok(mut digests) => {
                known.take_over(&mut digests);
                self.description.digests = digests;
                self.description.sums = source.sums(self.alloc)?;
                Ok(())
            }
            Err(error) => Err(coding_failure(self.rt, self.alloc, &source.blocks, sink, error)),
        }
    }

    // Fails if the length or the time of a file has changed since the file was found.
    fn check_unchanged(&self) -> Result<()> {
        for (path, entry) in self.paths.iter().zip(self.description.entries.as_slice()) {
            if entry.kind != Kind::File {
                continue;
            }
            let path = path.as_str();
            let found = at_path(self.alloc, path, fs::metadata(self.rt, path))?;
            if !has_time(entry, &found, Version::Second) {
                let reason = "this file changed while it was read: try again";
                return Err(Failure::at(self.alloc, path, reason));
            }
        }
        Ok(())
    }

    fn write(&mut self, outputs: &[String], volumes: &mut Volumes<'_, R>) -> Result<()> {
        for output in outputs {
            let part = part_of(self.alloc, output.as_str())?;
            volumes.begin(output.as_str(), part)?;
        }
        let total = self.bytes_to_read();
        let mut progress = Progress::new(self.rt, self.request.progress, total);
        self.hash_files(&mut progress)?;
        self.code(progress, volumes)?;
        self.check_unchanged()?;
        let bytes = written(self.alloc, &self.description)?;
        // A volume whose description cannot be read again would be of no use.
        rs_volumes::read_description(self.alloc, bytes.as_slice())?;
        volumes.describe(bytes.as_slice())?;
        volumes.finish(self.request.force)
    }
}

// Returns the failure for an error of coding, with the path of the file that cannot be read, or of the volume that
// cannot be written. If the disk is full, prints how many bytes are missing.
fn coding_failure<R: Files + Clock + Eprint>(
    rt: &R,
    alloc: Global,
    blocks: &FileBlocks<'_, R>,
    sink: &Volumes<'_, R>,
    error: CodingError,
) -> Failure {
    tell_full(rt, sink, &error);
    let (read, written) = (blocks.path_of(&error), sink.path_of(&error));
    failure_of(alloc, read, written, error)
}

// If the disk is full, prints how many bytes of the volumes are not written.
fn tell_full<R: Files + Eprint>(rt: &R, sink: &Volumes<'_, R>, error: &CodingError) {
    match error {
        CodingError::Write(_, error) if error.kind() == ErrorKind::StorageFull => {
            let missing = Counted(sink.missing(), "byte");
            let _ = eprintln!(rt;
                "rs_files: the disk has no room for {missing} of the new volumes"
            );
        }
        _ => {}
    }
}

/// The volumes to make, and the files to make them of.
#[derive(Clone, Copy)]
pub struct Task<'a> {
    /// The request of the command line.
    pub request: &'a Request,
    /// The block size of the old set in bytes, if the user gave it with `--block`. The new set has the same block size,
    /// unless the request gives another one or the files have too many blocks of this size.
    pub old_block: Option<u64>,
    /// The paths of the files and folders.
    pub files: &'a [String],
    /// Marks of the paths that are symbolic links of the set, and are not followed.
    pub kept: &'a [bool],
    /// The number of recovery blocks.
    pub recovery: Recovery,
    /// The paths of the volumes. One volume gets the recovery blocks. Several volumes get all blocks, which are dealt
    /// to them in turn.
    pub outputs: &'a [String],
}

// What `create`, `split` or `update` made.
#[derive(Drop)]
struct Made {
    // The numbers of files, links and folders.
    entries: Kinds,
    // The block size and the numbers of blocks.
    cut: Cut,
    // The largest file: its size, and its name as messages show it.
    largest: (u64, String),
    // The folder of the files.
    folder: String,
    // The exit status. It is `STATUS_FAILED` if names that are not UTF-8 were left out, unless the request allows this.
    status: u8,
}

fn made_of(alloc: Global, task: Task<'_>, found: &Found) -> Result<Made> {
    let block = task.request.block_bytes;
    let data_bytes = data_end(UNIT, found.entries.as_slice()).unwrap_or(u64::MAX);
    let cut = match cut_data(data_bytes, task.old_block, task.recovery) {
        Ok(cut) if block.is_none() => cut,
        _ => cut_data(data_bytes, block, task.recovery)?,
    };
    let mut entries = Kinds::none();
    let mut largest: (u64, &[u8]) = (0, b"");
    for entry in &found.entries {
        entries.add(entry.kind);
        if entry.size > largest.0 {
            largest = (entry.size, entry.name.as_slice());
        }
    }
    Ok(Made {
        entries,
        cut,
        largest: (largest.0, format!(in alloc; "{}", Name(largest.1))?),
        folder: found.folder.clone()?,
        status: if found.unreadable.is_empty() || task.request.skip_names {
            STATUS_WHOLE
        } else {
            STATUS_FAILED
        },
    })
}

/// The lists of the object that `create`, `split` and `update` print with `--json`.
const LISTS: [&str; 6] = ["volumes", "left_out", "edited", "new", "removed", "rotten"];

/// Makes volumes, and prints what was made. Returns the exit status. If [`may_replace`] finds a rotten file, the status
/// is `STATUS_LOST`, and nothing is written.
///
/// # Errors
///
/// In this order, fails:
///
/// - for a reason of [`check_parts`],
/// - for each volume, for a reason of [`check_output`],
/// - for a reason of [`find`],
/// - for a reason of [`check_accepted`],
/// - for a reason of [`may_replace`],
/// - for a reason of [`cut_data`],
/// - if there are 2^32 entries or more, or a name has 65536 bytes or more,
/// - if the description is larger than 1 GiB,
/// - for each volume, for a reason of [`Volumes::begin`],
/// - if a file cannot be read, a block cannot be written into its volume, or the code fails,
/// - for each file, if its length or the time of its last change cannot be read, or has changed since it was found,
/// - if `read_description` does not accept the description,
/// - for a reason of [`Volumes::describe`],
/// - for a reason of [`Volumes::finish`],
/// - if the result cannot be printed.
///
/// Every step fails if memory cannot be allocated. If the function fails after a volume was begun, it removes all
/// volumes that do not have their final names.
pub fn make<R: Runtime>(rt: &R, alloc: Global, task: Task<'_>) -> Result<u8> {
    let mut log = Log::new(alloc, task.request, &LISTS)?;
    let Some(made) = make_volumes(rt, alloc, task, &mut log)? else {
        return log.end(rt, STATUS_LOST);
    };
    for output in task.outputs {
        log.add("volumes", ("path", output.as_bytes()), None)?;
    }
    log.set("files", Value::from(made.entries.files))?;
    log.set("links", Value::from(made.entries.links))?;
    log.set("folders", Value::from(made.entries.folders))?;
    log.set("block_bytes", Value::from(made.cut.block_bytes))?;
    log.set("original_blocks", Value::from(made.cut.original_count))?;
    log.set("recovery_blocks", Value::from(made.cut.recovery_count))?;
    if log.is_told {
        tell(rt, task, &made)?;
    }
    if made.status == STATUS_FAILED {
        eprintln!(rt;
            "rs_files: all else is protected. The status is 4 because of what was left out, and 0 with \
             --skip-names"
        )?;
    }
    log.end(rt, made.status)
}

// Returns `None` if old volumes must not be replaced, because a file is rotten.
fn make_volumes<R: Runtime>(
    rt: &R,
    alloc: Global,
    task: Task<'_>,
    log: &mut Log,
) -> Result<Option<Made>> {
    let request = task.request;
    check_parts(rt, alloc, task.outputs)?;
    for output in task.outputs {
        check_output(rt, alloc, output.as_str(), request.force)?;
    }
    let found = find(rt, alloc, task.files, task.kept, task.outputs)?;
    tell_left_out(rt, &found, log)?;
    check_accepted(alloc, request, &found)?;
    let Some(known) = may_replace(rt, alloc, request, task.outputs, &found, log)? else {
        return Ok(None);
    };
    let made = made_of(alloc, task, &found)?;
    let mut making = making_of(rt, alloc, task, found, made.cut, known)?;
    let mut volumes = Volumes::new(rt, alloc, &making.description, making.description_bytes()?);
    if let Err(failure) = making.write(task.outputs, &mut volumes) {
        volumes.remove();
        return Err(failure);
    }
    Ok(Some(made))
}

fn making_of<'a, R: Files + Clock + Eprint>(
    rt: &'a R,
    alloc: Global,
    task: Task<'a>,
    found: Found,
    cut: Cut,
    known: Known,
) -> Result<Making<'a, R>> {
    let Found {
        folder,
        entries,
        linked,
        ..
    } = found;
    let volumes = task.outputs.len().min(MOST_VOLUMES as usize) as u32;
    Ok(Making {
        rt,
        alloc,
        request: task.request,
        paths: paths_of(alloc, folder.as_str(), entries.as_slice())?,
        description: description_of(alloc, entries, cut, volumes)?,
        linked,
        known,
    })
}

// Notes in the log what was left out, and prints it, except for names that are not UTF-8: `find` has printed these.
fn tell_left_out<R: Print>(rt: &R, found: &Found, log: &mut Log) -> Result<()> {
    for left in found.unreadable.iter().chain(found.left_out.iter()) {
        let reason = Some(("reason", left.reason.as_bytes()));
        log.add("left_out", ("path", left.path.as_bytes()), reason)?;
    }
    let mut count = 0;
    for left in &found.left_out {
        if log.is_told && is_shown(&mut count) {
            let (path, reason) = (Shown(left.path.as_str()), left.reason.as_str());
            println!(rt; "left out: {path}: {reason}")?;
        }
    }
    Ok(tell_more(rt, count, "")?)
}

/// Runs `create`: makes the recovery blocks of files, and writes them into one volume. Returns the exit status.
///
/// # Errors
///
/// Fails if `-o` is not given and the files do not determine the name of the volume. Then fails for a reason of
/// [`make`].
pub fn create<R: Runtime>(rt: &R, alloc: Global, request: &Request) -> Result<u8> {
    let output = match (&request.output, front_of_volume(request.paths.as_slice())) {
        (Some(path), _) => path.clone()?,
        (None, Some(front)) => format!(in alloc; "{front}.rsv")?,
        (None, None) => return Err(Failure::of(NO_OUTPUT)),
    };
    let outputs = [output];
    let task = Task {
        request,
        old_block: None,
        files: request.paths.as_slice(),
        kept: &[],
        recovery: request.recovery.unwrap_or(Recovery::Percent(10)),
        outputs: &outputs,
    };
    make(rt, alloc, task)
}

// Returns whether the other commands do not find the files beside the volume at `output`. They find them if the volume
// is in the folder of the files, or directly in a folder that was protected.
fn is_elsewhere<R: Files>(rt: &R, task: Task<'_>, folder: &str, output: &str) -> bool {
    let own = identity_of(rt, folder_to_open(parent_of(output)));
    let mut files = task.files.iter();
    own != identity_of(rt, folder_to_open(folder))
        && !files.any(|path| identity_of(rt, path.as_str()) == own)
}

// Prints the numbers of entries and blocks. Warns if the largest file has more bytes than all recovery blocks together.
fn tell<R: Files + Print + Eprint>(rt: &R, task: Task<'_>, made: &Made) -> io::Result<()> {
    let (entries, cut) = (made.entries, made.cut);
    let [output] = task.outputs else {
        let (volumes, lose) = (task.outputs.len(), task.request.lose);
        return println!(rt; "{entries} in {volumes} volumes, of which {lose} may be lost");
    };
    let originals = Counted(u64::from(cut.original_count), "block");
    let recovery = Counted(u64::from(cut.recovery_count), "recovery block");
    let (bytes, path) = (cut.block_bytes, Shown(output.as_str()));
    println!(rt; "{path}: {entries} in {originals} of {bytes} bytes, {recovery}")?;
    if task.request.folder.is_none()
        && is_elsewhere(rt, task, made.folder.as_str(), output.as_str())
    {
        let folder = Shown(folder_to_open(made.folder.as_str()));
        println!(rt;
            "{path}: the files are in another folder, so the other commands need --folder {folder}"
        )?;
    }
    let most = bytes.saturating_mul(u64::from(cut.recovery_count));
    let (size, name) = (made.largest.0, made.largest.1.as_str());
    if size > most {
        eprintln!(rt;
            "rs_files: {name}: warning: this file has {size} bytes, and the recovery blocks can restore \
             {most}: if it is lost, it cannot be restored. Choose more with -r"
        )?;
    }
    Ok(())
}

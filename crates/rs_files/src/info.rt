//! `info`: shows what a volume describes.
use crate::json::{entry_json, text_in, word_of};
use crate::settings::{Request, STATUS_WHOLE};
use rs_folders::counted::Counted;
use rs_folders::failure::{Failure, Result};
use rs_folders::names::{Name, Shown};
use rs_volume_files::assembly::Set;
use rs_volume_files::records::Walk;
use rs_volume_files::volume::{Form, open_sized, open_volume};
use rs_volumes::description::{CREATOR, Description, Kind, Version};
use rs_volumes::record::BLOCK;
use serde_json::{Value, json, put};
use std::alloc::Global;
use std::io;
use std::io::ErrorKind;
use std::rt::Files;

fn creator_of(description: &Description) -> Option<&[u8]> {
    for field in &description.fields {
        if field.kind == CREATOR {
            return Some(field.bytes.as_slice());
        }
    }
    None
}

// There can be many entries, so the function prints each of them as soon as its JSON is made. `here` is the number of
// blocks in the volume.
fn tell_json<R: Print>(
    rt: &R,
    alloc: Global,
    description: &Description,
    here: u64,
) -> io::Result<()> {
    let mut object = json!(in alloc; {
        "format": match description.version {
            Version::First => 1u64,
            Version::Second => 2u64,
        },
        "block_bytes": description.block_bytes,
        "original_blocks": description.original_count,
        "recovery_blocks": description.recovery_count,
        "volumes": description.volumes,
        "blocks_here": here
    })?;
    if let (Some(creator), Some(members)) = (creator_of(description), object.as_object_mut()) {
        put(
            members,
            alloc,
            "creator",
            Value::String(text_in(alloc, creator)?),
        )?;
    }
    let object = object.to_string(alloc)?;
    let front = object.as_str().strip_suffix('}').unwrap_or("");
    print!(rt; "{front},\"files\":[")?;
    let mut separator = "";
    for entry in &description.entries {
        let text = Value::Object(entry_json(alloc, entry)?).to_string(alloc)?;
        print!(rt; "{separator}{text}")?;
        separator = ",";
    }
    println!(rt; "]}}")
}

fn tell<R: Print>(rt: &R, path: &str, description: &Description, here: u64) -> io::Result<()> {
    let block = description.block_bytes;
    let k = Counted(u64::from(description.original_count), "original block");
    let r = Counted(u64::from(description.recovery_count), "recovery block");
    let path = Shown(path);
    println!(rt; "{path}: {k} and {r} of {block} bytes, {here} of them here")?;
    if let Some(creator) = creator_of(description) {
        let creator = Name(creator);
        let volumes = Counted(u64::from(description.volumes), "volume");
        println!(rt; "{path}: made by {creator}, in {volumes}")?;
    }
    for entry in &description.entries {
        let (name, target) = (Name(entry.name.as_slice()), Name(entry.target.as_slice()));
        let (size, word) = (entry.size, word_of(entry.kind));
        match entry.kind {
            Kind::File => println!(rt; "{size:>14}  {name}")?,
            Kind::Link => println!(rt; "{word:>14}  {name} -> {target}")?,
            Kind::Folder => println!(rt; "{word:>14}  {name}")?,
        }
    }
    Ok(())
}

// Returns the number of blocks in a volume. The records are counted, because a damaged volume can have lost some.
fn blocks_in<R: Files>(rt: &R, alloc: Global, set: &Set, path: &str, form: Form) -> Result<u64> {
    if let Form::First(_, records) = form {
        return Ok(records.count);
    }
    let (file, size) = open_sized(rt, alloc, path)?;
    let mut walk = Walk::new(alloc, file, size)?;
    let mut count = 0u64;
    for _ in 0..u64::MAX {
        let Some(record) = walk.next() else {
            break;
        };
        if record.head.set == set.digest && record.head.kind == BLOCK {
            count = count.saturating_add(1);
        }
    }
    Ok(count)
}

/// Runs `info`: prints what each volume describes. Returns the exit status. It is no error if the program that reads
/// the output stops reading, as `head` does: the function then prints nothing more.
///
/// # Errors
///
/// Fails if there is no path. Then, for each volume, fails if the volume cannot be read or the result cannot be
/// printed.
pub fn info<R: Files + Print>(rt: &R, alloc: Global, request: &Request) -> Result<u8> {
    if request.paths.is_empty() {
        return Err(Failure::of("no volume is given"));
    }
    for path in &request.paths {
        let path = path.as_str();
        let (set, form) = open_volume(rt, alloc, path, request.memory)?;
        let here = blocks_in(rt, alloc, &set, path, form)?;
        let told = if request.json {
            tell_json(rt, alloc, &set.description, here)
        } else {
            tell(rt, path, &set.description, here)
        };
        match told {
            Err(error) if error.kind() == ErrorKind::BrokenPipe => break,
            told => told?,
        }
    }
    Ok(STATUS_WHOLE)
}

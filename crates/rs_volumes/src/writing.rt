//! Writes a description as bytes, in version 2.
ghost use Rattle.std.specs.Prelude.{◌≡◌, ◌<◌, ◌^◌, ◌++◌, length, All, OnOk, IfOk};
ghost use Rattle.std.specs.Int.{to_le_bytes};
ghost use Rattle.std.specs.List.{flat_map};
ghost use Rattle.rs_volumes.specs.Description.{entry_of, entries_of, field_of, fields_of, set_of, kind_number};
ghost use Rattle.rs_volumes.specs.Description.{entry_spelling, entry_numbers, name_spelling, field_spelling};
ghost use Rattle.rs_volumes.specs.Description.{fields_spelling, spelling, HasShortNames};

use crate::description::{Description, Entry, Field, Kind};
use crate::opening::{Opening, put_opening};
use std::alloc::{AllocError, Global};

#[tactic(auto, unfolding(crate::specs::Description::kind_number))]
fn number_of(kind: Kind) -> u16
    ensures { result ≡ kind_number kind }
{
    match kind {
        Kind::File => 1,
        Kind::Link => 2,
        Kind::Folder => 3,
    }
}

fn put_numbers(out: &mut Vec<u8>, entry: &Entry) -> Result<(), AllocError>
    requires { entry.now.mode < 2 ^ 16 }
    ensures { OnOk result (out.new.items ≡ out.old.items ++ entry_numbers (entry_of entry.now)) }
{
    out.extend_from_slice(&number_of(entry.kind).to_le_bytes())?;
    out.extend_from_slice(&(entry.mode as u16).to_le_bytes())?;
    out.extend_from_slice(&entry.nanoseconds.to_le_bytes())?;
    out.extend_from_slice(&entry.size.to_le_bytes())?;
    out.extend_from_slice(&entry.seconds.to_le_bytes())?;
    Ok(())
}

fn put_name(out: &mut Vec<u8>, name: &[u8]) -> Result<(), AllocError>
    requires { length name.now < 2 ^ 16 }
    ensures { OnOk result (out.new.items ≡ out.old.items ++ name_spelling name.now) }
{
    out.extend_from_slice(&(name.len() as u16).to_le_bytes())?;
    out.extend_from_slice(name)?;
    Ok(())
}

fn put_entry(out: &mut Vec<u8>, entry: &Entry) -> Result<(), AllocError>
    requires { HasShortNames entry.now }
    ensures { OnOk result (out.new.items ≡ out.old.items ++ entry_spelling (entry_of entry.now)) }
{
    put_numbers(out, entry)?;
    put_name(out, entry.name.as_slice())?;
    put_name(out, entry.target.as_slice())?;
    out.extend_from_slice(&entry.digest)?;
    Ok(())
}

fn put_entries(out: &mut Vec<u8>, entries: &[Entry]) -> Result<(), AllocError>
    requires { All HasShortNames entries.now }
    ensures { OnOk result (out.new.items
        ≡ out.old.items ++ flat_map entry_spelling (entries_of entries.now)) }
{
    for entry in entries {
        put_entry(out, entry)?;
    }
    Ok(())
}

fn put_field(out: &mut Vec<u8>, field: &Field) -> Result<(), AllocError>
    requires { length field.now.bytes.items < 2 ^ 32 }
    ensures { OnOk result (out.new.items ≡ out.old.items ++ field_spelling (field_of field.now)) }
{
    out.extend_from_slice(&field.kind.to_le_bytes())?;
    out.extend_from_slice(&(field.bytes.len() as u32).to_le_bytes())?;
    out.extend_from_slice(field.bytes.as_slice())?;
    Ok(())
}

fn bytes_of(alloc: Global, fields: &[Field]) -> Result<Vec<u8>, AllocError>
    requires { All (λ field. length field.bytes.items < 2 ^ 32) fields.now }
    ensures { IfOk result (λ v. v.items ≡ flat_map field_spelling (fields_of fields.now)) }
{
    let mut out = Vec::new(alloc);
    for field in fields {
        put_field(&mut out, field)?;
    }
    Ok(out)
}

fn put_fields(alloc: Global, out: &mut Vec<u8>, fields: &[Field]) -> Result<(), AllocError>
    requires each { All (λ field. length field.bytes.items < 2 ^ 32) fields.now }
    requires whole { length (flat_map field_spelling (fields_of fields.now)) < 2 ^ 32 }
    ensures { OnOk result (out.new.items
        ≡ out.old.items ++ fields_spelling (fields_of fields.now)) }
{
    let bytes = bytes_of(alloc, fields)?;
    out.extend_from_slice(&(bytes.len() as u32).to_le_bytes())?;
    out.extend_from_slice(bytes.as_slice())?;
    Ok(())
}

/// Writes a description as bytes, in version 2. Each description has one spelling.
///
/// # Errors
///
/// [`AllocError`] if memory cannot be allocated.
///
/// # Examples
///
/// A set of one file with a name of five bytes, one original block, one recovery block and no field has a description
/// of 173 bytes: 36 for the numbers at the beginning, 65 for the file, 32 for each of the two digests, and 8 for the
/// sums.
pub fn write_description(alloc: Global, description: &Description) -> Result<Vec<u8>, AllocError>
    requires count { length description.now.entries.items < 2 ^ 32 }
    requires names { All HasShortNames description.now.entries.items }
    requires fields { length (flat_map field_spelling (fields_of description.now.fields.items))
        < 2 ^ 32 }
    ensures { IfOk result (λ v. v.items ≡ spelling (set_of description.now)) }
{
    let mut out = Vec::new(alloc);
    let opening = Opening {
        block_bytes: description.block_bytes,
        original_count: description.original_count,
        recovery_count: description.recovery_count,
        entry_count: description.entries.len() as u32,
    };
    put_opening(&mut out, &opening)?;
    out.extend_from_slice(&description.volumes.to_le_bytes())?;
    put_fields(alloc, &mut out, description.fields.as_slice())?;
    put_entries(&mut out, description.entries.as_slice())?;
    out.extend_from_slice(description.digests.as_slice())?;
    out.extend_from_slice(description.sums.as_slice())?;
    Ok(out)
}

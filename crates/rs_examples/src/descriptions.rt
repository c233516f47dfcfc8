//! Descriptions that are written and read again.
ghost use Rattle.std.specs.Prelude.{◌<◌, ◌^◌, All, Ok, length};
ghost use Rattle.std.specs.List.{flat_map};
ghost use Rattle.rs_volumes.specs.Description.{HasShortNames, set_of, fields_of, field_spelling};
ghost use Rattle.rs_volumes.specs.Reading.{Gives};
ghost use Rattle.rs_volumes.specs.Sound.{IsSound};

use rs_volumes::description::Description;
use rs_volumes::fault::ReadError;
use rs_volumes::{read_description, write_description};
use std::alloc::Global;

/// Writes a description, and reads it from the bytes. If the description is sound, the result is the same description.
///
/// # Errors
///
/// - If the description is sound: only [`ReadError::Memory`].
/// - Otherwise: the errors of [`read_description`].
pub fn write_and_read(alloc: Global, description: &Description) -> Result<Description, ReadError>
    requires count { length description.now.entries.items < 2 ^ 32 }
    requires names { All HasShortNames description.now.entries.items }
    requires fields { length (flat_map field_spelling (fields_of description.now.fields.items))
        < 2 ^ 32 }
    ensures { IsSound (set_of description.now) → Gives set_of result (Ok (set_of description.now)) }
{
    let bytes = write_description(alloc, description)?;
    read_description(alloc, bytes.as_slice())
}

//! Whether a name is allowed, and the order of names.
ghost use Rattle.std.specs.Prelude.{◌≡◌, [], false};
ghost use Rattle.rs_volumes.specs.Names.{is_part, has_parts, rank, is_before, is_folder_of};

// Returns whether a part of a name is allowed: it is not empty, not `.` and not `..`. These three could lead out of the
// folder into which files are restored.
#[tactic(auto, unfolding(crate::specs::Names::is_part))]
fn is_part(part: &[u8]) -> bool
    ensures { result ≡ is_part part.now }
{
    !part.is_empty() && part != b".".as_slice() && part != b"..".as_slice()
}

/// Returns whether all parts of a name are allowed, and the name has no zero byte.
#[tactic(auto, using(crate::proofs::NameLemmas::steps_in_parts))]
pub fn has_parts(name: &[u8]) -> bool
    ensures { result ≡ has_parts [] name.now }
{
    let mut start = 0;
    for (end, byte) in name.iter().enumerate() {
        if *byte == 0 {
            return false;
        }
        if *byte == b'/' {
            if !is_part(&name[start..end]) {
                return false;
            }
            start = end + 1;
        }
    }
    is_part(&name[start..])
}

// Returns the place of a byte in the order of bytes. `/` is the smallest byte, so the names in a folder come directly
// after the name of the folder.
#[tactic(auto, unfolding(crate::specs::Names::rank))]
fn rank(byte: u8) -> u16
    ensures { result ≡ rank byte }
{
    if byte == b'/' { 0 } else { u16::from(byte) + 1 }
}

/// Returns whether the name `one` comes before the name `other`. In the order of bytes, `/` is the smallest one.
#[tactic(auto, using(crate::proofs::NameLemmas::steps_in_order))]
pub fn is_before(one: &[u8], other: &[u8]) -> bool
    ensures { result ≡ is_before one.now other.now }
{
    for (index, byte) in one.iter().enumerate() {
        if index >= other.len() {
            return false;
        }
        if *byte != other[index] {
            return rank(*byte) < rank(other[index]);
        }
    }
    one.len() < other.len()
}

/// Returns whether the name `one` is a folder of the name `other`, which then is `one`, `/`, and more.
#[tactic(auto, using(crate::proofs::NameLemmas::steps_in_folder))]
pub fn is_folder_of(one: &[u8], other: &[u8]) -> bool
    ensures { result ≡ is_folder_of one.now other.now }
{
    for (index, byte) in one.iter().enumerate() {
        if index >= other.len() || *byte != other[index] {
            return false;
        }
    }
    one.len() < other.len() && other[one.len()] == b'/'
}

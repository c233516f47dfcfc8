//! The reading of numbers on the command line.
ghost use Rattle.std.specs.Prelude.{◌≡◌};
ghost use Rattle.rs.specs.Number.{number_of};

/// Returns the number that a text of one or more ASCII decimal digits represents. Returns `None` for any other text,
/// and if the number is above `usize::MAX`.
pub fn number(text: &str) -> Option<usize>
    ensures { result ≡ number_of text.now }
{
    let bytes = text.as_bytes();
    // `parse` accepts a plus sign, but a sign is not a digit.
    if !bytes.is_empty() && bytes[0] == b'+' {
        return None;
    }
    text.parse::<usize>().ok()
}

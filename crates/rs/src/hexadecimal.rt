//! Functions that convert bytes into hexadecimal digits, and back.
ghost use Rattle.std.specs.Prelude.{◌≡◌, ◌∷◌, [], ◌++◌, IfOk, IfErr, MatchResult};
ghost use Rattle.std.specs.Option.{option_map};
ghost use Rattle.std.specs.String.{string_bytes};
ghost use Rattle.rs.specs.Hex.{bytes_of_hex, hex_of};

use hex::FromHexError;
use reed_solomon_simd::Error;
use std::alloc::Global;

/// Returns the bytes that a text of hexadecimal digits represents, or `None` if the text is not HEX: an even number of
/// hexadecimal digits of either case.
///
/// # Errors
///
/// [`Error::OutOfMemory`] if the bytes cannot be allocated.
pub fn word(alloc: Global, text: &str) -> Result<Option<Vec<u8>>, Error>
    ensures { MatchResult result (λ o. option_map (λ v. v.items) o ≡ bytes_of_hex text.now)
        (λ e. e ≡ Error.OutOfMemory) }
{
    match hex::decode(alloc, text) {
        Ok(bytes) => Ok(Some(bytes)),
        Err(e) => match e {
            FromHexError::OutOfMemory => Err(Error::OutOfMemory),
            _ => Ok(None),
        },
    }
}

/// Returns bytes as hexadecimal digits in lower case, followed by a line end.
///
/// # Errors
///
/// [`Error::OutOfMemory`] if the text cannot be allocated.
pub fn line(alloc: Global, bytes: &[u8]) -> Result<String, Error>
    ensures text { IfOk result (λ t. string_bytes t ≡ hex_of bytes.now ++ 10 ∷ []) }
    ensures refused { IfErr result (λ e. e ≡ Error.OutOfMemory) }
{
    let mut text = hex::encode(alloc, bytes)?;
    text.push_str("\n")?;
    Ok(text)
}

//! Functions that write texts to standard output and standard error.
ghost use Rattle.std.specs.Prelude.{◌≡◌, false, IsTrue, flat_map};
ghost use Rattle.std.specs.Io.KnownBytes.{Appends};
ghost use Rattle.std.specs.String.{string_bytes};
ghost use Rattle.rs.specs.Reported.{Writes, IsCutShort};

use crate::stream::Stream;
use std::io::Write;

/// Writes a text to its end, or until a write fails. Returns whether the whole text was written.
///
/// The function does the same as `write_all`. But the contract of `write_all` does not state what was written before a
/// failure.
pub fn write_text<W: Write>(stream: &mut Stream<W>, text: &str) -> bool
    ensures whole { IsTrue result
        → Appends (W.contents stream.old.writer) (W.contents stream.new.writer) text.now }
    ensures cut { result ≡ false → IsCutShort W.contents stream.old stream.new text.now }
    ensures written { Writes W.contents stream.old stream.new text.now }
{
    let bytes = text.as_bytes();
    let mut written = 0;
    for _ in 0..bytes.len() {
        if written == bytes.len() {
            return true;
        }
        let count = stream.write_some(&bytes[written..]);
        if count == 0 {
            return false;
        }
        written += count;
    }
    true
}

/// Writes texts one after another, to the end of the last text or until a write fails. Returns whether all texts were
/// written.
pub fn write_texts<W: Write>(stream: &mut Stream<W>, texts: &[String]) -> bool
    ensures whole { IsTrue result
        → Appends (W.contents stream.old.writer) (W.contents stream.new.writer)
        (flat_map string_bytes texts.now) }
    ensures cut { result ≡ false
        → IsCutShort W.contents stream.old stream.new (flat_map string_bytes texts.now) }
{
    for text in texts {
        if !write_text(stream, text.as_str()) {
            return false;
        }
    }
    true
}

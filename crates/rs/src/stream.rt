//! A writer that records whether a write to it has failed.
ghost use Rattle.std.specs.Prelude.{◌≡◌, ◌<◌, ◌≤◌, false, true, length, take};
ghost use Rattle.std.specs.Io.{WritesAtMost};
ghost use Rattle.std.specs.Io.KnownBytes.{Appends, WriteAppends};

use std::io;
use std::io::{ErrorKind, Write};

/// A writer, such as standard output, and a record of whether a write to it has failed.
///
/// The contracts of the standard library do not state whether a write to a writer has failed. The contracts of this
/// crate state it with this record: only [`Stream::write_some`] changes it.
#[derive(Drop)]
pub struct Stream<W: Write> {
    /// The writer.
    writer: W,
    /// Whether a write has failed.
    has_failed: bool,
}

impl<W: Write> Stream<W> {
    /// Returns a stream that writes to a writer. No write to the stream has failed yet.
    pub fn new(writer: W) -> Stream<W>
        ensures writer { result.writer ≡ writer }
        ensures record { result.has_failed ≡ false }
    {
        Stream {
            writer,
            has_failed: false,
        }
    }

    /// Writes a first part of these bytes, of which there is at least one, and returns its length. Returns 0 if the
    /// write fails: if the writer returns an error or takes none of the bytes. An interrupted write is repeated.
    pub(crate) fn write_some(&mut self, bytes: &[u8]) -> usize
        requires { 0 < length bytes.now }
        ensures within { result ≤ length bytes.now }
        ensures written { Appends (W.contents self.old.writer) (W.contents self.new.writer)
            (take result bytes.now) }
        ensures failed { result ≡ 0 → self.new.has_failed ≡ true }
        ensures record { 0 < result → self.new.has_failed ≡ self.old.has_failed }
    {
        match write_uninterrupted(&mut self.writer, bytes) {
            Ok(count) if count > 0 => count,
            _ => {
                self.has_failed = true;
                0
            }
        }
    }
}

// Makes one write, and repeats it as long as it is interrupted. Returns what the last write returned.
fn write_uninterrupted<W: Write>(writer: &mut W, bytes: &[u8]) -> io::Result<usize>
    ensures bound { WritesAtMost result bytes.now }
    ensures bytes { WriteAppends (W.contents writer.old) (W.contents writer.new) result bytes.now }
{
    for _ in 0..u64::MAX {
        match writer.write(bytes) {
            Err(e) if e.kind() == ErrorKind::Interrupted => {}
            answer => return answer,
        }
    }
    Err(io::Error::from(ErrorKind::Interrupted))
}

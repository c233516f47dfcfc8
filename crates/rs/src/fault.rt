//! The reasons why the program prints no lines, and their messages.
use crate::stream::Stream;
use crate::writing::write_text;
use reed_solomon_simd::Error;
use std::alloc::{AllocError, AllocFailed, Global};
use std::io::Write;

/// The reason why the program prints no lines for a command line.
#[derive(Drop)]
pub enum Fault {
    /// The words are not a valid command line.
    Usage,
    /// The command line is valid, but the counts or the shards are not, or memory could not be allocated. The value is
    /// the error.
    Refused(Error),
}

impl Fault {
    ghost use Rattle.std.specs.Prelude.{◌≡◌, IsTrue};
    ghost use Rattle.std.specs.Io.KnownBytes.{Appends};
    ghost use Rattle.rs.specs.Reported.{fault_message, status_of, IsReportedAs, Writes};

    /// Returns the exit status of the program for this fault: 2 for `Usage`, and 1 for every error.
    pub fn status(&self) -> u8
        ensures { result ≡ status_of self.now }
    {
        match self {
            Fault::Usage => 2,
            Fault::Refused(_) => 1,
        }
    }

    /// Writes the message of the fault to `err`, or the message of `OutOfMemory` if the text of an error cannot be
    /// allocated. Returns whether the whole message was written.
    pub fn report<X: Write>(&self, alloc: Global, err: &mut Stream<X>) -> bool
        ensures { (reported : Fault) × IsReportedAs self.now reported
            × Writes X.contents err.old err.new (fault_message reported)
            × (IsTrue result → Appends (X.contents err.old.writer) (X.contents err.new.writer)
            (fault_message reported)) }
    {
        match self {
            Fault::Usage => write_text(err, "usage\n"),
            Fault::Refused(refusal) => match format!(in alloc; "{refusal}\n") {
                Ok(text) => write_text(err, text.as_str()),
                Err(_) => write_text(err, "out of memory\n"),
            },
        }
    }
}

impl From<Error> for Fault {
    ghost use Rattle.std.specs.Prelude.{◌≡◌};
    ghost use Rattle.rs.specs.declared.fault.Fault.TheVariants.{Refused};

    ghost from_gives = { λ e fault. fault ≡ Refused e };

    fn from(e: Error) -> Fault {
        Fault::Refused(e)
    }
}

impl From<AllocError> for Fault {
    ghost use Rattle.std.specs.Prelude.{◌≡◌};
    ghost use Rattle.reed_solomon_simd.specs.declared.Error.TheVariants.{OutOfMemory};
    ghost use Rattle.rs.specs.declared.fault.Fault.TheVariants.{Refused};

    ghost from_gives = { λ _ fault. fault ≡ Refused OutOfMemory };

    fn from(_e: AllocError) -> Fault {
        Fault::Refused(Error::OutOfMemory)
    }
}

impl<T: Drop> From<AllocFailed<T>> for Fault {
    ghost use Rattle.std.specs.Prelude.{◌≡◌};
    ghost use Rattle.reed_solomon_simd.specs.declared.Error.TheVariants.{OutOfMemory};
    ghost use Rattle.rs.specs.declared.fault.Fault.TheVariants.{Refused};

    ghost from_gives = { λ _ fault. fault ≡ Refused OutOfMemory };

    fn from(_e: AllocFailed<T>) -> Fault {
        Fault::Refused(Error::OutOfMemory)
    }
}

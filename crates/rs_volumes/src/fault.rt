//! The faults of the bytes of a volume.
ghost use Rattle.std.specs.Prelude.{◌≡◌};
ghost use Rattle.rs_volumes.specs.declared.fault.ReadError.TheVariants.{Memory, Fault};

use std::alloc::{AllocError, AllocFailed};
use std::error::Error;
use std::fmt;

/// The fault of the bytes of a volume. If the bytes have several faults, this is the first one that the reader finds.
#[derive(Clone, Copy, Debug, PartialEq, Eq)]
pub enum Fault {
    /// The bytes do not begin with the magic number of a volume.
    Magic,
    /// The version of the head of a volume is not 1.
    Version,
    /// The check of the head of a record, or the digest of a part of a description, is not that of its bytes.
    Check,
    /// A number that must be zero is not.
    Reserved,
    /// The bytes end before the last field is complete. For a part of a description also: it has fewer bytes than its
    /// numbers say.
    Short,
    /// More bytes follow the last digest or the last sum. For a part of a description: it has more bytes than its
    /// numbers say.
    Trailing,
    /// The number of the code is not 1.
    Code,
    /// The number of the digest is not 1, which is the number of SHA-256.
    Digest,
    /// The block size is zero, odd, or above 2^40 bytes.
    BlockSize,
    /// The code does not support the numbers of blocks, and they are not both 0.
    Counts,
    /// The number of volumes is 0.
    Volumes,
    /// A field has a kind of 2^31 or more, which a reader must know, and this one does not.
    Field,
    /// An entry is neither a file nor a link nor a folder.
    Kind,
    /// The permission bits of an entry are 4096 or more.
    Mode,
    /// The nanoseconds of an entry are 10^9 or more.
    Nanoseconds,
    /// A file, or the data of all files, has 2^62 bytes or more.
    Length,
    /// A link or a folder has a length above 0.
    Size,
    /// The target of a link is empty or has a zero byte, or a file or a folder has a target.
    Target,
    /// A link or a folder has a digest that is not 32 zeros.
    FileDigest,
    /// A name is empty, is absolute, has a zero byte, or has an empty part or a part `.` or `..`. In version 1 also:
    /// the name is not UTF-8.
    Name,
    /// The names are not in strictly increasing order.
    Order,
    /// The name of an entry is a folder of the next name.
    Inside,
    /// A block has more than 4096 bytes, and more bytes than the data of the files, rounded up to a multiple of 4096.
    /// In version 1: a block has more than 2^26 bytes, and more bytes than the longest file, rounded up to a multiple
    /// of 4096.
    LargeBlock,
    /// The number of blocks of the files is not the number of original blocks in the description.
    Blocks,
}

impl fmt::Display for Fault {
    fn fmt<W: fmt::Write>(&self, f: &mut fmt::Formatter<W>) -> fmt::Result {
        let text = match self {
            Fault::Magic => "it does not begin as a volume does",
            Fault::Version => "its version is not 1: a newer program may read it",
            Fault::Check => "a record is damaged",
            Fault::Reserved => "a number that must be zero is not",
            Fault::Short => "it ends too early",
            Fault::Trailing => "bytes follow its description",
            Fault::Code => "it uses a code that this program does not know",
            Fault::Digest => "it uses a digest that this program does not know",
            Fault::BlockSize => "its block size is zero, odd or too large",
            Fault::Counts => "its numbers of blocks are not supported",
            Fault::Volumes => "its number of volumes is 0",
            Fault::Field => "it needs a newer program",
            Fault::Kind => "an entry is neither a file nor a link nor a folder",
            Fault::Mode => "the permission bits of an entry are too large",
            Fault::Nanoseconds => "the time of an entry is not allowed",
            Fault::Length => "a file is too long",
            Fault::Size => "a link or a folder has a length",
            Fault::Target => "the target of a link is not allowed",
            Fault::FileDigest => "a link or a folder has a digest",
            Fault::Name => "the name of an entry is not allowed",
            Fault::Order => "the names of its entries are not in order",
            Fault::Inside => "an entry that is no folder has entries in it",
            Fault::LargeBlock => "its blocks are larger than its files",
            Fault::Blocks => "the number of its blocks does not fit its files",
        };
        write!(f, "{text}")
    }
}

impl Error for Fault {}

/// The reason why a description was not read.
#[derive(Debug, Drop)]
pub enum ReadError {
    /// Memory could not be allocated.
    Memory,
    /// The bytes are no sound description.
    Fault(Fault),
}

impl fmt::Display for ReadError {
    fn fmt<W: fmt::Write>(&self, f: &mut fmt::Formatter<W>) -> fmt::Result {
        match self {
            ReadError::Memory => write!(f, "out of memory"),
            ReadError::Fault(fault) => write!(f, "{fault}"),
        }
    }
}

impl Error for ReadError {}

impl From<Fault> for ReadError {
    ghost from_gives = { λ fault e. e ≡ Fault fault };

    fn from(fault: Fault) -> ReadError {
        ReadError::Fault(fault)
    }
}

impl From<AllocError> for ReadError {
    ghost from_gives = { λ _ e. e ≡ Memory };

    fn from(_error: AllocError) -> ReadError {
        ReadError::Memory
    }
}

impl<T: Drop> From<AllocFailed<T>> for ReadError {
    ghost from_gives = { λ _ e. e ≡ Memory };

    fn from(_error: AllocFailed<T>) -> ReadError {
        ReadError::Memory
    }
}

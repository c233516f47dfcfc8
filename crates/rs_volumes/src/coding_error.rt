//! The errors of creating and restoring blocks.
ghost use Rattle.std.specs.Prelude.{◌≡◌};
ghost use Rattle.rs_volumes.specs.declared.coding_error.CodingError.TheVariants.{Memory, Code};

use std::alloc::{AllocError, AllocFailed};
use std::error::Error;
use std::{fmt, io};

/// The reason why blocks were not created or restored.
#[derive(Debug, Drop)]
pub enum CodingError {
    /// Memory could not be allocated outside of the code, or a block would have more than `usize::MAX` bytes. If the
    /// code itself cannot allocate memory, the error is [`CodingError::Code`].
    Memory,
    /// A piece of the block with this index could not be read.
    Read(usize, io::Error),
    /// A piece of the block with this index could not be written.
    Write(usize, io::Error),
    /// The code failed with this error.
    Code(reed_solomon_simd::Error),
    /// The recovery block with this number has an index that does not fit into a `usize`.
    Missing(usize),
    /// The block with this index was not found. Only [`restore_found`](crate::restoring::restore_found) fails with this
    /// error.
    NotFound(usize),
    /// The bytes that were written of the block with this index do not have the digest in the description.
    Digest(usize),
}

impl fmt::Display for CodingError {
    fn fmt<W: fmt::Write>(&self, f: &mut fmt::Formatter<W>) -> fmt::Result {
        match self {
            CodingError::Memory => write!(f, "out of memory"),
            CodingError::Read(index, error) => write!(f, "block {index} cannot be read: {error}"),
            CodingError::Write(index, error) => {
                write!(f, "block {index} cannot be written: {error}")
            }
            CodingError::Code(error) => write!(f, "{error}"),
            CodingError::Missing(number) => write!(
                f,
                "the index of recovery block {number} is too large"
            ),
            CodingError::NotFound(index) => write!(f, "block {index} was not found"),
            CodingError::Digest(index) => write!(
                f,
                "block {index} does not have its digest: a file changed while it was read"
            ),
        }
    }
}

impl Error for CodingError {}

impl From<AllocError> for CodingError {
    ghost from_gives = { λ _ error. error ≡ Memory };

    fn from(_error: AllocError) -> CodingError {
        CodingError::Memory
    }
}

impl<T: Drop> From<AllocFailed<T>> for CodingError {
    ghost from_gives = { λ _ error. error ≡ Memory };

    fn from(_error: AllocFailed<T>) -> CodingError {
        CodingError::Memory
    }
}

impl From<reed_solomon_simd::Error> for CodingError {
    ghost from_gives = { λ cause error. error ≡ Code cause };

    fn from(error: reed_solomon_simd::Error) -> CodingError {
        CodingError::Code(error)
    }
}

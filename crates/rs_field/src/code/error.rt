//! The errors of all calls.
use std::alloc::{AllocError, AllocFailed};
use std::fmt;

/// The reason why a call failed. All fields are counts, indexes, or sizes in bytes.
#[derive(Clone, Copy, Debug, PartialEq, Eq, Hash)]
pub enum Error {
    /// A shard has another size than the other shards.
    DifferentShardSize {
        /// The size of the other shards, in bytes.
        shard_bytes: usize,
        /// The size of this shard, in bytes.
        got: usize,
    },
    /// An original was added twice.
    DuplicateOriginalShardIndex {
        /// The index of the original.
        index: usize,
    },
    /// A recovery shard was added twice.
    DuplicateRecoveryShardIndex {
        /// The index of the recovery shard.
        index: usize,
    },
    /// More shards were given than there are originals, and they do not belong to one message.
    InconsistentShards {
        /// The number of originals that were given.
        original_received_count: usize,
        /// The number of recovery shards that were given.
        recovery_received_count: usize,
    },
    /// The index of an original is not below `original_count`.
    InvalidOriginalShardIndex {
        /// The number of originals of a message.
        original_count: usize,
        /// The index that was given.
        index: usize,
    },
    /// The index of a recovery shard is not below `recovery_count`.
    InvalidRecoveryShardIndex {
        /// The number of recovery shards of a message.
        recovery_count: usize,
        /// The index that was given.
        index: usize,
    },
    /// The size of a shard is zero or odd.
    InvalidShardSize {
        /// The size, in bytes.
        shard_bytes: usize,
    },
    /// Fewer shards were given than there are originals.
    NotEnoughShards {
        /// The number of originals of a message.
        original_count: usize,
        /// The number of originals that were given.
        original_received_count: usize,
        /// The number of recovery shards that were given.
        recovery_received_count: usize,
    },
    /// Fewer originals were given than a message has.
    TooFewOriginalShards {
        /// The number of originals of a message.
        original_count: usize,
        /// The number of originals that were given.
        original_received_count: usize,
    },
    /// An original was added after all originals of the message.
    TooManyOriginalShards {
        /// The number of originals of a message.
        original_count: usize,
    },
    /// The rate does not support these counts.
    UnsupportedShardCount {
        /// The number of originals.
        original_count: usize,
        /// The number of recovery shards.
        recovery_count: usize,
    },
    /// Memory could not be allocated, or the bytes of all rows exceed `usize::MAX`.
    ///
    /// Each call says for which memory this error can come, and at which place in its order of errors. The rows are
    /// those of whole shards. Their bytes are checked before anything is allocated for them, also by a call that codes
    /// strip by strip and allocates less. A `reset` that fails with this error leaves its object as it was.
    OutOfMemory,
}

impl fmt::Display for Error {
    ghost use Rattle.std.specs.Prelude.{Some};
    ghost use Rattle.rs_field.specs.code.Texts.{text_of};

    ghost output = { λ refusal. Some (text_of refusal) };

    fn fmt<W: fmt::Write>(&self, f: &mut fmt::Formatter<W>) -> fmt::Result {
        match self {
            Error::DifferentShardSize { shard_bytes, got } => write!(
                f,
                "different shard size: expected {shard_bytes} bytes, got {got} bytes"
            ),
            Error::DuplicateOriginalShardIndex { index } => {
                write!(f, "duplicate original shard index: {index}")
            }
            Error::DuplicateRecoveryShardIndex { index } => {
                write!(f, "duplicate recovery shard index: {index}")
            }
            Error::InconsistentShards {
                original_received_count,
                recovery_received_count,
            } => write!(
                f,
                "inconsistent shards: {original_received_count} original + {recovery_received_count} recovery \
                 agree with no message"
            ),
            Error::InvalidOriginalShardIndex {
                original_count,
                index,
            } => write!(
                f,
                "invalid original shard index: {index} >= original_count {original_count}"
            ),
            Error::InvalidRecoveryShardIndex {
                recovery_count,
                index,
            } => write!(
                f,
                "invalid recovery shard index: {index} >= recovery_count {recovery_count}"
            ),
            Error::InvalidShardSize { shard_bytes } => write!(
                f,
                "invalid shard size: {shard_bytes} bytes (must non-zero and multiple of 2)"
            ),
            Error::NotEnoughShards {
                original_count,
                original_received_count,
                recovery_received_count,
            } => write!(
                f,
                "not enough shards: {original_received_count} original + {recovery_received_count} recovery \
                 < {original_count} original_count"
            ),
            Error::TooFewOriginalShards {
                original_count,
                original_received_count,
            } => write!(
                f,
                "too few original shards: got {original_received_count} shards while original_count is {original_count}"
            ),
            Error::TooManyOriginalShards { original_count } => write!(
                f,
                "too many original shards: got more than original_count ({original_count}) shards"
            ),
            Error::UnsupportedShardCount {
                original_count,
                recovery_count,
            } => write!(
                f,
                "unsupported shard count: {original_count} original shards with {recovery_count} recovery shards"
            ),
            Error::OutOfMemory => write!(f, "out of memory"),
        }
    }
}

impl std::error::Error for Error {}

impl From<AllocError> for Error {
    ghost use Rattle.std.specs.Prelude.{◌≡◌};
    ghost use Rattle.rs_field.specs.declared.code.error.Error.TheVariants.{OutOfMemory};

    ghost from_gives = { λ _ e. e ≡ OutOfMemory };

    fn from(_e: AllocError) -> Error {
        Error::OutOfMemory
    }
}

impl<T: Drop> From<AllocFailed<T>> for Error {
    ghost use Rattle.std.specs.Prelude.{◌≡◌};
    ghost use Rattle.rs_field.specs.declared.code.error.Error.TheVariants.{OutOfMemory};

    ghost from_gives = { λ _ e. e ≡ OutOfMemory };

    fn from(_e: AllocFailed<T>) -> Error {
        Error::OutOfMemory
    }
}

//! The errors of calls that reconstruct wanted shards.
use crate::room_error::RoomError;
use crate::shard_index::ShardIndex;
use rs_field::error::Error;
use std::alloc::AllocError;
use std::fmt;

/// The reason why a call that reconstructs wanted shards failed.
#[derive(Clone, Copy, Debug, PartialEq, Eq, Hash)]
pub enum ReconstructError {
    /// The received shards cannot be decoded, or memory cannot be allocated.
    Refused(
        /// The reason.
        Error,
    ),
    /// The index of a wanted shard is not below the number of shards of its kind.
    WantedIndexTooLarge {
        /// The wanted shard.
        wanted: ShardIndex,
        /// The number of shards of its kind.
        count: usize,
    },
    /// A shard is wanted twice.
    WantedTwice {
        /// The wanted shard.
        wanted: ShardIndex,
    },
    /// A wanted shard was received.
    WantedReceived {
        /// The wanted shard.
        wanted: ShardIndex,
    },
    /// The number of rooms is not the number of wanted shards.
    WrongNumberOfRooms {
        /// The number of wanted shards.
        wanted: usize,
        /// The number of rooms.
        got: usize,
    },
    /// A room does not have the size of its shard.
    WrongLength {
        /// The size of the shard, in bytes.
        wanted: usize,
        /// The size of the room, in bytes.
        got: usize,
    },
}

impl fmt::Display for ReconstructError {
    ghost use Rattle.std.specs.Prelude.{Some};
    ghost use Rattle.reed_solomon_simd.specs.ReconstructTexts.{text_of_reconstruct_error};

    ghost output = { λ refusal. Some (text_of_reconstruct_error refusal) };

    fn fmt<W: fmt::Write>(&self, f: &mut fmt::Formatter<W>) -> fmt::Result {
        match self {
            ReconstructError::Refused(error) => write!(f, "{error}"),
            ReconstructError::WantedIndexTooLarge { wanted, count } => {
                write!(f, "wanted index too large: {wanted}, count {count}")
            }
            ReconstructError::WantedTwice { wanted } => write!(f, "shard wanted twice: {wanted}"),
            ReconstructError::WantedReceived { wanted } => {
                write!(f, "wanted shard was received: {wanted}")
            }
            ReconstructError::WrongNumberOfRooms { wanted, got } => {
                write!(f, "wrong number of rooms: expected {wanted}, got {got}")
            }
            ReconstructError::WrongLength { wanted, got } => {
                write!(f, "wrong length: expected {wanted} bytes, got {got} bytes")
            }
        }
    }
}

impl std::error::Error for ReconstructError {}

impl From<Error> for ReconstructError {
    ghost use Rattle.std.specs.Prelude.{◌≡◌};
    ghost use Rattle.reed_solomon_simd.specs.declared.reconstruct_error.ReconstructError.TheVariants.{Refused as refused};

    ghost from_gives = { λ error result. result ≡ refused error };

    fn from(error: Error) -> ReconstructError {
        ReconstructError::Refused(error)
    }
}

impl From<AllocError> for ReconstructError {
    ghost use Rattle.std.specs.Prelude.{◌≡◌};
    ghost use Rattle.rs_field.specs.declared.code.error.Error.TheVariants.{OutOfMemory};
    ghost use Rattle.reed_solomon_simd.specs.declared.reconstruct_error.ReconstructError.TheVariants.{Refused as refused};

    ghost from_gives = { λ _ result. result ≡ refused OutOfMemory };

    fn from(_error: AllocError) -> ReconstructError {
        ReconstructError::Refused(Error::OutOfMemory)
    }
}

impl From<RoomError> for ReconstructError {
    ghost use Rattle.std.specs.Prelude.{◌≡◌};
    ghost use Rattle.reed_solomon_simd.specs.Reconstructed.{of_rooms};

    ghost from_gives = { λ error result. result ≡ of_rooms error };

    fn from(error: RoomError) -> ReconstructError {
        match error {
            RoomError::Refused(error) => ReconstructError::Refused(error),
            RoomError::WrongNumberOfRooms { wanted, got } => {
                ReconstructError::WrongNumberOfRooms { wanted, got }
            }
            RoomError::WrongLength { wanted, got } => ReconstructError::WrongLength { wanted, got },
        }
    }
}

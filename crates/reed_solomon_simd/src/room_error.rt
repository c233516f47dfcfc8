//! The errors of calls that write into memory of the caller.
use rs_field::error::Error;
use std::fmt;

/// The reason why a call that writes into memory of the caller failed.
#[derive(Clone, Copy, Debug, PartialEq, Eq, Hash)]
pub enum RoomError {
    /// The shards cannot be encoded or decoded.
    Refused(
        /// The reason.
        Error,
    ),
    /// The number of rooms is not the number of shards to write.
    WrongNumberOfRooms {
        /// The number of shards to write.
        wanted: usize,
        /// The number of rooms.
        got: usize,
    },
    /// A room does not have the size of its shard.
    WrongLength {
        /// The size of the shard, in bytes.
        wanted: usize,
        /// The size of the room, in bytes.
        got: usize,
    },
}

impl fmt::Display for RoomError {
    ghost use Rattle.std.specs.Prelude.{Some};
    ghost use Rattle.reed_solomon_simd.specs.RoomTexts.{text_of_room_error};

    ghost output = { λ refusal. Some (text_of_room_error refusal) };

    fn fmt<W: fmt::Write>(&self, f: &mut fmt::Formatter<W>) -> fmt::Result {
        match self {
            RoomError::Refused(error) => write!(f, "{error}"),
            RoomError::WrongNumberOfRooms { wanted, got } => {
                write!(f, "wrong number of rooms: expected {wanted}, got {got}")
            }
            RoomError::WrongLength { wanted, got } => {
                write!(f, "wrong length: expected {wanted} bytes, got {got} bytes")
            }
        }
    }
}

impl std::error::Error for RoomError {}

impl From<Error> for RoomError {
    ghost use Rattle.std.specs.Prelude.{◌≡◌};
    ghost use Rattle.reed_solomon_simd.specs.declared.room_error.RoomError.TheVariants.{Refused as refused};

    ghost from_gives = { λ error result. result ≡ refused error };

    fn from(error: Error) -> RoomError {
        RoomError::Refused(error)
    }
}

//! Stores: the received shards of a message, with rooms for the shards that are made of them.
use crate::pieces::Pieces;
use crate::rooms::Rooms;

/// Received shards, and rooms for other shards. Writing into the rooms does not change the received shards.
pub trait Store: Pieces + Rooms {
    ghost use Rattle.std.specs.Prelude.{◌≡◌};

    /// Received shards depend only on the places of the rooms, and not on the bytes in the rooms.
    ghost kept: { (x y : Self) → Self.places x ≡ Self.places y
        → Self.received x ≡ Self.received y };
}

//! A store of received shards, and of rooms in other memory for the shards that are made of them.
use crate::pieces::Pieces;
use crate::rooms::Rooms;
use crate::shard_index::ShardIndex;
use crate::store::Store;
use rs_field::error::Error;
use rs_rate::rate::DefaultRateCounts;

/// Received shards, and rooms that share no memory with them.
#[derive(Drop)]
pub struct SeparateStore<'a, 'b, P, R> {
    /// The received shards.
    pub pieces: &'a P,
    /// The rooms for the shards that are made of the received ones.
    pub rooms: &'b mut R,
}

impl<'a, 'b, P: Pieces, R: Rooms> Pieces for SeparateStore<'a, 'b, P, R> {
    ghost received = { λ x. P.received x.pieces.now };

    fn counts(&self) -> DefaultRateCounts {
        self.pieces.counts()
    }

    fn original_received_count(&self) -> usize {
        self.pieces.original_received_count()
    }

    fn recovery_received_count(&self) -> usize {
        self.pieces.recovery_received_count()
    }

    fn shard_bytes(&self) -> usize {
        self.pieces.shard_bytes()
    }

    fn piece(&self, shard: ShardIndex, start: usize, end: usize) -> Option<&[u8]> {
        self.pieces.piece(shard, start, end)
    }
}

impl<'a, 'b, P: Pieces, R: Rooms> Rooms for SeparateStore<'a, 'b, P, R> {
    ghost use Rattle.std.specs.Prelude.{ℕ};
    ghost use Rattle.rs_field.specs.code.Decoder.{DecoderState};

    ghost held = { λ x. R.held x.rooms.now };

    ghost grows = { R.grows };

    ghost Places = { DecoderState × R.Places × ℕ };

    ghost places = { λ x. (P.received x.pieces.now, R.places x.rooms.now, R.loan x.rooms.now) };

    ghost loan = { λ x. x.rooms.ghost_name };

    fn put(&mut self, index: usize, start: usize, piece: &[u8]) -> Result<(), Error> {
        self.rooms.put(index, start, piece)
    }
}

impl<'a, 'b, P: Pieces, R: Rooms> Store for SeparateStore<'a, 'b, P, R> {
    ghost use Rattle.std.specs.Prelude.{ℕ};
    ghost use Rattle.std.proofs.Common.{ap};
    ghost use Rattle.rs_field.specs.code.Decoder.{DecoderState};

    ghost kept = { λ x y same. ap (λ (p : DecoderState × R.Places × ℕ). p.0) same };
}

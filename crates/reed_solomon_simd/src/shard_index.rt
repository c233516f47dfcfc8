//! Names of shards: a kind and an index.
use std::fmt;

/// The kind and the index of a shard of a message.
#[derive(Clone, Copy, Debug, PartialEq, Eq, Hash)]
pub enum ShardIndex {
    /// An original.
    Original(
        /// The place of the original in the order in which the originals were added to the encoder, counted from 0.
        usize,
    ),
    /// A recovery shard.
    Recovery(
        /// The index of the recovery shard, counted from 0.
        usize,
    ),
}

impl ShardIndex {
    ghost use Rattle.std.specs.Prelude.{◌≡◌};
    ghost use Rattle.reed_solomon_simd.specs.ShardNames.{is_recovery};

    pub(crate) fn is_recovery(&self) -> bool
        ensures { result ≡ is_recovery self.now }
    {
        match self {
            ShardIndex::Original(_) => false,
            ShardIndex::Recovery(_) => true,
        }
    }
}

impl fmt::Display for ShardIndex {
    ghost use Rattle.std.specs.Prelude.{Some};
    ghost use Rattle.reed_solomon_simd.specs.ReconstructTexts.{text_of_shard_index};

    ghost output = { λ shard. Some (text_of_shard_index shard) };

    fn fmt<W: fmt::Write>(&self, f: &mut fmt::Formatter<W>) -> fmt::Result {
        match self {
            ShardIndex::Original(index) => write!(f, "original {index}"),
            ShardIndex::Recovery(index) => write!(f, "recovery shard {index}"),
        }
    }
}

//! The originals of a message, wherever they are.

/// A piece of each original of a message, in one strip.
pub trait StripMessage {
    ghost use Rattle.std.specs.Prelude.{◌≡◌, ◌<◌, List, length};
    ghost use Rattle.rs_field.specs.code.Column.{Shard, shard_at};

    /// The piece of each original.
    ghost shards: { Self → List Shard };

    /// Returns the piece of an original.
    fn piece(&self, index: usize) -> &[u8]
        requires { index < length (shards self.now) }
        ensures { result.now ≡ shard_at (shards self.now) index };
}

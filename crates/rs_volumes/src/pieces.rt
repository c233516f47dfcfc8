//! Blocks that are read and written piece by piece.
ghost use Rattle.rs_field.specs.code.Given.{Shards};

use std::io;

/// Blocks that can be read piece by piece: the original blocks, with the indexes 0 to k - 1, and the recovery blocks,
/// with the indexes k to k + r - 1.
///
/// No contract can state which bytes a file returns. So in an implementation that reads files, the ghost member
/// `blocks` is the map without a block.
pub trait BlockSource {
    ghost use Rattle.std.specs.Prelude.{◌≡◌, ◌-◌, ◌≤◌, ℕ, Option, Some, IfOk, IfErr, length, ⊤};
    ghost use Rattle.std.specs.declared.io.Error.{Error};
    ghost use Rattle.std.specs.List.{between};
    ghost use Rattle.rs_field.specs.code.Column.{Shard};
    ghost use Rattle.rs_field.specs.code.Given.{Shards};

    /// The blocks that are known, by their indexes.
    ghost blocks: { Self → Shards };

    /// The errors with which a block may fail to be read up to byte `end`: `read_may_fail block end error`, where
    /// `block` is the block if it is known.
    ghost read_may_fail: { Option Shard → ℕ → Error → Type 0 } = { λ _ _ _. ⊤ };

    /// Reads a piece of the block `index`: its bytes from byte `start` up to, but not including, byte `end`.
    ///
    /// # Errors
    ///
    /// Any error of the system, if the piece cannot be read or memory cannot be allocated.
    fn piece(&mut self, index: usize, start: usize, end: usize) -> io::Result<Vec<u8>>
        requires { start ≤ end }
        ensures sized { IfOk result (λ piece. length piece.items ≡ end - start) }
        ensures bytes { IfOk result (λ piece. (block : Shard) → blocks self.old index ≡ Some block
            → piece.items ≡ between start end block) }
        ensures fails { IfErr result (λ error. read_may_fail (blocks self.old index) end error) }
        ensures kept { blocks self.new ≡ blocks self.old };
}

/// Blocks that can be written piece by piece, in order of their bytes. The indexes are those of [`BlockSource`].
pub trait BlockSink {
    ghost use Rattle.std.specs.Prelude.{◌≡◌, ◌≢◌, ◌++◌, ℕ, Option, Some, OnOk, IfErr, length, ⊤};
    ghost use Rattle.std.specs.declared.io.Error.{Error};
    ghost use Rattle.rs_field.specs.code.Column.{Shard};
    ghost use Rattle.rs_field.specs.code.Given.{Shards};

    /// The bytes of each block that were written, if they are known.
    ghost written: { Self → Shards };

    /// The errors with which a piece may fail to be written: `write_may_fail block start error`, where `block` is what
    /// was written of the block before, if it is known.
    ghost write_may_fail: { Option Shard → ℕ → Error → Type 0 } = { λ _ _ _. ⊤ };

    /// Writes a piece of the block `index`, which begins at byte `start` of the block. If `start` bytes of the block
    /// were written before, the piece follows them.
    ///
    /// # Errors
    ///
    /// Any error of the system. All other blocks are then as they were, as after a success.
    fn put(&mut self, index: usize, start: usize, piece: &[u8]) -> io::Result<()>
        ensures here { OnOk result ((before : Shard) → written self.old index ≡ Some before
            → start ≡ length before → written self.new index ≡ Some (before ++ piece.now)) }
        ensures fails { IfErr result (λ error. write_may_fail (written self.old index) start error) }
        ensures others { (i : ℕ) → i ≢ index → written self.new i ≡ written self.old i };
}

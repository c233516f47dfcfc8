//! The recovery shards of a round, lent from the encoder.
ghost use Rattle.std.specs.Prelude.{◌≡◌, length, Some, IfSome};
ghost use Rattle.std.specs.Iterator.{YieldsFirstRef, item_count, at_most, UpTo};
ghost use Rattle.std.specs.Iterator.SizeHint.{IsWithinCount};

use crate::rows::encoder_work::EncoderRows;
use std::iter::FusedIterator;
use std::marker::Model;

/// The recovery shards that `encode` computed. They are lent from the rows, without copying.
#[derive(Drop)]
pub struct EncoderResult<'a> {
    pub(crate) rows: &'a EncoderRows,
}

impl<'a> EncoderResult<'a> {
    ghost use Rattle.std.specs.Prelude.{◌≡◌, ◌^◌, ◌<◌, ◌≤◌, length, MatchOption};
    ghost use Rattle.rs_field.specs.code.Column.{shard_at};
    ghost use Rattle.rs_rate.specs.objects.ResultView.{recovery_shards};

    /// Returns the recovery shard with this index, or `None` if `index` is not below the number of recovery shards.
    ///
    /// Recovery shards have indexes of their own, which begin at 0: recovery shard 0 is not original 0.
    pub fn recovery(&self, index: usize) -> Option<&[u8]>
        ensures { MatchOption result (length (recovery_shards self.now) ≤ index)
            (λ shard. (index < length (recovery_shards self.now))
            × (shard.now ≡ shard_at (recovery_shards self.now) index)) }
    {
        self.rows.recovery(index)
    }

    /// Returns an iterator over the recovery shards, in order of index, from index 0 on. The iterator has an exact
    /// length.
    pub fn recovery_iter(&self) -> Recovery<'_>
        ensures shards { result ≡ recovery_shards self.now }
        ensures few { length (recovery_shards self.now) < 2 ^ 64 }
    {
        Recovery {
            rows: self.rows,
            next_index: 0,
        }
    }
}

/// An iterator over the recovery shards of a round, in order of index. Shards are lent from the rows.
#[derive(Drop)]
pub struct Recovery<'a> {
    rows: &'a EncoderRows,
    next_index: usize,
}

impl<'a> Model for Recovery<'a> {
    ghost use Rattle.std.specs.Prelude.{◌≤◌, List, drop};
    ghost use Rattle.rs_field.specs.code.Column.{Shard};
    ghost use Rattle.rs_rate.specs.rows.EncoderView.{lent_shards};

    ghost Value = { List Shard };

    ghost view = { λ x. drop x.next_index (lent_shards x.rows.now) };

    ghost invariant = { λ x. x.next_index ≤ x.rows.now.configuration.recovery_count };
}

impl<'a> Iterator for Recovery<'a> {
    type Item = &'a [u8];

    ghost next_gives = { YieldsFirstRef (λ shards. shards) };

    ghost remaining = { item_count (λ shards. shards) };

    fn next(&mut self) -> Option<&'a [u8]> {
        let shard = self.rows.recovery(self.next_index)?;
        self.next_index += 1;
        Some(shard)
    }

    fn size_hint(&self) -> (usize, Option<usize>)
        ensures lower { IsWithinCount result.0 (at_most (length self.now)) }
        ensures upper { IfSome result.1 (UpTo (at_most (length self.now))) }
        ensures exact { (result.0 ≡ length self.now) × (result.1 ≡ Some (length self.now)) }
    {
        let left = self.len();
        (left, Some(left))
    }
}

impl<'a> ExactSizeIterator for Recovery<'a> {
    fn len(&self) -> usize {
        self.rows.configuration.recovery_count - self.next_index
    }
}

impl<'a> FusedIterator for Recovery<'a> {}

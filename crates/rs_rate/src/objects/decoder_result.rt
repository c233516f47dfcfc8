//! The restored originals of a round, lent from the decoder.
ghost use Rattle.std.specs.Prelude.{◌≡◌, length, Some, IfSome};
ghost use Rattle.std.specs.Iterator.{YieldsFirstBy, item_count, at_most, UpTo};
ghost use Rattle.std.specs.Iterator.SizeHint.{IsWithinCount};
ghost use Rattle.rs_rate.specs.rows.DecoderView.{restored_from};

use crate::rows::decoder_work::DecoderRows;
use std::iter::FusedIterator;
use std::marker::Model;

/// The originals that `decode` restored. They are lent from the rows, without copying.
#[derive(Drop)]
pub struct DecoderResult<'a> {
    pub(crate) rows: &'a DecoderRows,
    pub(crate) restored_count: usize,
    pub ghost counted: { restored_count ≡ length (restored_from rows.now 0) },
}

impl<'a> DecoderResult<'a> {
    ghost use Rattle.std.specs.Prelude.{◌^◌, ◌<◌, option_copied};
    ghost use Rattle.rs_field.specs.code.Given.{Lists};
    ghost use Rattle.rs_rate.specs.objects.ResultView.{restored_originals};

    /// Returns the restored original with this index. Returns `None` if this original was added to the decoder, or if
    /// `index` is not below the number of originals.
    ///
    /// The index of an original is its place in the order in which the originals were added to the encoder, counted
    /// from 0.
    pub fn restored_original(&self, index: usize) -> Option<&[u8]>
        ensures { option_copied result ≡ restored_originals self.now index }
    {
        self.rows.restored_original(index)
    }

    /// Returns an iterator over the restored originals with their indexes, in order of index. The iterator has an exact
    /// length.
    pub fn restored_original_iter(&self) -> RestoredOriginal<'_>
        ensures listed { Lists (restored_originals self.now) result }
        ensures few { length result < 2 ^ 64 }
    {
        RestoredOriginal {
            rows: self.rows,
            next_index: 0,
            left: self.restored_count,
        }
    }
}

/// An iterator over the restored originals of a round, with their indexes, in order of index. Shards are lent from the
/// rows.
#[derive(Drop)]
pub struct RestoredOriginal<'a> {
    rows: &'a DecoderRows,
    next_index: usize,
    left: usize,
}

impl<'a> Model for RestoredOriginal<'a> {
    ghost use Rattle.std.specs.Prelude.{◌≡◌, ℕ, List, length};
    ghost use Rattle.rs_field.specs.code.Column.{Shard};
    ghost use Rattle.rs_rate.specs.rows.DecoderView.{restored_from};

    ghost Value = { List (ℕ × Shard) };

    ghost view = { λ x. restored_from x.rows.now x.next_index };

    ghost invariant = { λ x. x.left ≡ length (restored_from x.rows.now x.next_index) };
}

impl<'a> Iterator for RestoredOriginal<'a> {
    type Item = (usize, &'a [u8]);

    ghost next_gives = { YieldsFirstBy (λ item. (item.0, item.1.now)) (λ items. items) };

    ghost remaining = { item_count (λ items. items) };

    fn next(&mut self) -> Option<(usize, &'a [u8])> {
        let rows = self.rows;
        let (index, shard) = rows.next_restored(self.next_index)?;
        self.next_index = index + 1;
        self.left -= 1;
        Some((index, shard))
    }

    fn size_hint(&self) -> (usize, Option<usize>)
        ensures lower { IsWithinCount result.0 (at_most (length self.now)) }
        ensures upper { IfSome result.1 (UpTo (at_most (length self.now))) }
        ensures exact { (result.0 ≡ length self.now) × (result.1 ≡ Some (length self.now)) }
    {
        (self.left, Some(self.left))
    }
}

impl<'a> ExactSizeIterator for RestoredOriginal<'a> {
    fn len(&self) -> usize {
        self.left
    }
}

impl<'a> FusedIterator for RestoredOriginal<'a> {}

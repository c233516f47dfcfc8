//! The check that all originals were added, for a decode without recovery shards.
ghost use Rattle.std.specs.Prelude.{◌≡◌, ◌⊎◌, if◌then◌else◌, ℕ, nat_le, true, false, List, length, count_by};
ghost use Rattle.std.specs.Prelude.{slice_index_or, slice_set, Err, Ok, OnOk};
ghost use Rattle.std.specs.Iterator.{IsFinite};
ghost use Rattle.rs_field.specs.code.OneCall.{Items, one_by_one, note_outcome, originals_alone};
ghost use Rattle.rs_rate.specs.objects.Calls.{Calls, BeginsWithItems};
ghost use Rattle.rs_rate.specs.objects.Giving.{Reaches, AreNoted};

use rs_field::error::Error;
use std::alloc::Global;

/// Checks that an iterator yields all originals. The index of each original is noted in order.
///
/// # Errors
///
/// - [`Error::OutOfMemory`] if the marks of the indexes cannot be allocated.
/// - For each original in order: [`Error::InvalidOriginalShardIndex`] if its index is not below `original_count`, then
///   [`Error::DuplicateOriginalShardIndex`] if its index was noted before.
/// - [`Error::NotEnoughShards`] if originals are missing.
pub fn check_originals_alone<'a, I: Iterator<Item = (usize, &'a [u8])> + Drop>(
    alloc: Global,
    original_count: usize,
    originals: I,
) -> Result<(), Error>
    requires can { I.can_next originals }
    requires ends { IsFinite (I.remaining originals) }
    ensures { (calls : Calls I.next_gives originals)
        × ((items : Items) → BeginsWithItems items calls
        → (result ≡ originals_alone original_count items) ⊎ (result ≡ Err Error.OutOfMemory)) }
{
    let mut given = vec![in alloc; false; original_count]?;
    note_all(&mut given, originals)?;
    let original_received_count = count_noted(&given);
    if original_received_count < original_count {
        return Err(Error::NotEnoughShards {
            original_count,
            original_received_count,
            recovery_received_count: 0,
        });
    }
    Ok(())
}

// Notes the indexes of originals in order, up to the first error.
fn note_all<'a, I: Iterator<Item = (usize, &'a [u8])> + Drop>(
    given: &mut [bool],
    originals: I,
) -> Result<(), Error>
    requires can { I.can_next originals }
    requires ends { IsFinite (I.remaining originals) }
    ensures { (indexes : List ℕ) → AreNoted indexes given.old
        → (calls : Calls I.next_gives originals) × ((items : Items) → BeginsWithItems items calls
        → Reaches
        (one_by_one (λ so_far item. note_outcome (length given.old) so_far item.0) indexes items)
        result (λ all. AreNoted all given.new)) }
{
    for (index, _) in originals {
        note(given, index)?;
    }
    Ok(())
}

// Notes that the original with this index was added. Fails with `InvalidOriginalShardIndex` if the index is too large,
// and then with `DuplicateOriginalShardIndex` if it was noted before.
fn note(given: &mut [bool], index: usize) -> Result<(), Error>
    ensures answer { result ≡ (if nat_le (length given.old) index
        then Err (Error.InvalidOriginalShardIndex (length given.old) index)
        else if slice_index_or given.old index false
        then Err (Error.DuplicateOriginalShardIndex index) else Ok tt) }
    ensures noted { OnOk result (given.new ≡ slice_set given.old index true) }
{
    if index >= given.len() {
        return Err(Error::InvalidOriginalShardIndex {
            original_count: given.len(),
            index,
        });
    }
    if given[index] {
        return Err(Error::DuplicateOriginalShardIndex { index });
    }
    given[index] = true;
    Ok(())
}

fn count_noted(given: &[bool]) -> usize
    ensures { result ≡ count_by (λ is_noted. is_noted) given.now }
{
    given.iter().filter(|is_noted| **is_noted).count()
}

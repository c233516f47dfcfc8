//! Changes of rows by shuffles. The change is computed once for up to four rows.
ghost use Rattle.std.specs.Prelude.{◌≡◌, ℕ, ◌<◌, ◌≤◌, IfNone, IfSome, length};
ghost use Rattle.rs_field.specs.rows.Changed.{AreChanged, AreChangedFrom};

use crate::basis::FieldBasis;
use crate::byte_vector::ByteVector;
use crate::factors::Bytewise;
use crate::group_sums::{FEW_CHUNKS, add_to_group, add_to_one};
use crate::row_factors::{FactorsOfFour, FactorsOfThree, FactorsOfTwo, OneRow, SmallFactors};
use crate::shuffle_tables::ShuffleTables;
use rs_field::engine::{Change, ChangeRows, GfElement};

/// Adds a change to each row, times a factor of its own. `logs` has the logarithm of each factor.
pub fn change_all<V: ByteVector, T: ShuffleTables, R: ChangeRows>(
    tables: &T,
    rows: &mut R,
    change: Change<'_>,
    logs: &[GfElement],
)
    requires has { (i k : ℕ) → i < length logs.now → k < length change.old.now
        → R.has (R.kept rows.old) i k }
    ensures changed { AreChanged change.entry logs.now (R.word rows.old) (R.word rows.new) }
    ensures kept { R.kept rows.new ≡ R.kept rows.old }
{
    let mut at = 0;
    while at < logs.len() {
        at = change_next::<V, T, R>(tables, rows, at, change, logs);
    }
}

// Adds a change to the next rows from row `at` on: to four, three or two rows if their factors need only four numbers,
// or else to one. Returns the index of the row after these rows.
#[inline(always)]
fn change_next<V: ByteVector, T: ShuffleTables, R: ChangeRows>(
    tables: &T,
    rows: &mut R,
    at: usize,
    change: Change<'_>,
    logs: &[GfElement],
) -> usize
    requires some { at < length logs.now }
    requires has { (i k : ℕ) → i < length logs.now → k < length change.old.now
        → R.has (R.kept rows.old) i k }
    ensures next { at < result }
    ensures inside { result ≤ length logs.now }
    ensures changed { AreChangedFrom change.entry logs.now at result
        (R.word rows.old) (R.word rows.new) }
    ensures kept { R.kept rows.new ≡ R.kept rows.old }
{
    if change.old.len() > FEW_CHUNKS {
        if let Some(next) = change_group::<V, T, R, FactorsOfFour<OneRow<Bytewise>>>(
            tables, rows, at, change, logs,
        ) {
            return next;
        }
        if let Some(next) = change_group::<V, T, R, FactorsOfThree<OneRow<Bytewise>>>(
            tables, rows, at, change, logs,
        ) {
            return next;
        }
        if let Some(next) = change_group::<V, T, R, FactorsOfTwo<OneRow<Bytewise>>>(
            tables, rows, at, change, logs,
        ) {
            return next;
        }
    }
    add_to_one::<V, T, R, _>(tables, rows, at, change, logs[at]);
    at + 1
}

// Adds a change to a group of rows from row `at` on, if there are as many rows and their factors are small enough.
// Returns the index of the row after these rows. Or changes nothing.
#[inline(always)]
fn change_group<V: ByteVector, T: ShuffleTables, R: ChangeRows, G: SmallFactors<FieldBasis>>(
    tables: &T,
    rows: &mut R,
    at: usize,
    change: Change<'_>,
    logs: &[GfElement],
) -> Option<usize>
    requires has { (i k : ℕ) → i < length logs.now → k < length change.old.now
        → R.has (R.kept rows.old) i k }
    ensures next { IfSome result (λ next. (at < next) × (next ≤ length logs.now)) }
    ensures changed { IfSome result (λ next. AreChangedFrom change.entry logs.now at next
        (R.word rows.old) (R.word rows.new)) }
    ensures unchanged { IfNone result (rows.new ≡ rows.old) }
    ensures kept { R.kept rows.new ≡ R.kept rows.old }
{
    let (group, next) = G::of(tables, &logs, at)?;
    add_to_group::<V, FieldBasis, R, G, _>(rows, at, change, group);
    Some(next)
}

//! Pairs of rows that are added to one row, chunk by chunk.
ghost use Rattle.std.specs.Prelude.{◌≡◌, ◌≢◌, ◌⊎◌, ℕ, ◌+◌, ◌^◌, ◌<◌, ◌≤◌, IfSome, length, bit_xor};
ghost use Rattle.rs_field.specs.rows.Rows.{chunk, symbol};
ghost use Rattle.rs_field.specs.words.Tables.{times_factor};
ghost use Rattle.rs_engines.specs.Factors.{log_of};

use crate::any_factor::{AnyFactor, bytewise, factor_of};
use crate::byte_vector::ByteVector;
use crate::factors::Bytewise;
use crate::group_sums::FEW_CHUNKS;
use crate::shuffle_tables::ShuffleTables;
use crate::whole_rows::WholeRows;
use rs_field::engine::GfElement;

/// A row that is added, times a factor.
#[derive(Clone, Copy)]
pub struct Term<'a> {
    /// The row.
    pub row: &'a [[u8; 64]],
    /// The logarithm of the factor. 65535 represents the factor zero.
    pub log_m: GfElement,
}

/// Adds two terms to row `at`. Both have the same number of chunks. If both factors need only four numbers, there is
/// one loop over chunks for both, unless there are few chunks. The classes of both factors are found out before the
/// first addition, so that a processor fetches the products of both at the same time.
#[inline(always)]
pub fn add_pair<V: ByteVector, T: ShuffleTables, R: WholeRows>(
    tables: &T,
    rows: &mut R,
    at: usize,
    first: Term<'_>,
    second: Term<'_>,
)
    requires same { length second.row.now ≡ length first.row.now }
    requires has { (k : ℕ) → k < length first.row.now → R.has (R.kept rows.old) at k }
    ensures sums { (k s : ℕ) → k < length first.entry.row.now → s < 32
        → R.word rows.new k s at
        ≡ bit_xor (bit_xor (R.word rows.old k s at)
        (times_factor first.entry.log_m (symbol (chunk first.entry.row.now k) s)))
        (times_factor second.entry.log_m (symbol (chunk second.entry.row.now k) s)) }
    ensures others { (k s i : ℕ) → s < 32 → (length first.entry.row.now ≤ k) ⊎ (i ≢ at)
        → R.word rows.new k s i ≡ R.word rows.old k s i }
    ensures kept { R.kept rows.new ≡ R.kept rows.old }
{
    let p0 = tables.products(first.log_m);
    let p1 = tables.products(second.log_m);
    let f0 = factor_of(p0.lend(), first.log_m);
    let f1 = factor_of(p1.lend(), second.log_m);
    if first.row.len() > FEW_CHUNKS {
        if let Some((f0, f1)) = both_bytewise(f0, f1) {
            rows.add_bytewise_pair::<V>(at, first.row, second.row, (f0, f1));
            return;
        }
    }
    rows.add_times::<V>(at, first.row, f0);
    rows.add_times::<V>(at, second.row, f1);
}

// Returns both factors if each needs only four numbers.
#[inline(always)]
fn both_bytewise(f0: AnyFactor<'_>, f1: AnyFactor<'_>) -> Option<(Bytewise, Bytewise)>
    ensures { IfSome result (λ found. (found.0.log_m ≡ log_of f0.entry)
        × (found.1.log_m ≡ log_of f1.entry)) }
{
    match (bytewise(f0), bytewise(f1)) {
        (Some(f0), Some(f1)) => Some((f0, f1)),
        _ => None,
    }
}

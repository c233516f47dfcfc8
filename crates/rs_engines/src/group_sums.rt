//! Rows that are added to groups of rows, chunk by chunk.
ghost use Rattle.std.specs.Prelude.{◌≡◌, ◌⊎◌, ℕ, ◌+◌, ◌^◌, ◌<◌, ◌≤◌, length, slice_index, bit_xor};
ghost use Rattle.rs_field.specs.words.Tables.{times_factor};

use crate::any_factor::{AnyFactor, factor_of};
use crate::basis::{Basis, FieldBasis};
use crate::byte_vector::ByteVector;
use crate::factors::{General, Small};
use crate::read_chunks::ReadChunks;
use crate::row_factors::{OneRow, RowFactors};
use crate::shuffle_rows::copied;
use crate::shuffle_tables::ShuffleTables;
use rs_field::engine::{ChangeRows, GfElement};

/// Rows of at most this many chunks are added to one row after the other. To find out whether their factors are small
/// would take longer than to add.
pub const FEW_CHUNKS: usize = 8;

/// Adds a row to the rows from row `at` on, times the factors of a group.
#[inline(always)]
pub fn add_to_group<V: ByteVector, W: Basis, R: ChangeRows, G: RowFactors<W>, Y: ReadChunks<W>>(
    rows: &mut R,
    at: usize,
    added: Y,
    group: G,
)
    requires has { (d k : ℕ) → d < length (G.logs group) → k < Y.chunk_count added
        → R.has (R.kept rows.old) (at + d) k }
    requires few { at + length (G.logs group) < 2 ^ 64 }
    ensures sums { (k s d : ℕ) → k < Y.chunk_count added → s < 32 → d < length (G.logs group)
        → W.value (R.word rows.new k s (at + d))
        ≡ bit_xor (W.value (R.word rows.old k s (at + d)))
        (times_factor (slice_index (G.logs group) d) (Y.word added k s)) }
    ensures others { (k s i : ℕ) → s < 32 → (i < at) ⊎ (at + length (G.logs group) ≤ i)
        → R.word rows.new k s i ≡ R.word rows.old k s i }
    ensures past { (k s i : ℕ) → Y.chunk_count added ≤ k → s < 32
        → R.word rows.new k s i ≡ R.word rows.old k s i }
    ensures kept { R.kept rows.new ≡ R.kept rows.old }
{
    for k in 0..added.count() {
        group.add::<V, R>(rows, at, k, &added.chunk(k));
    }
}

/// Adds a row to row `at`, times a factor of any class.
#[inline(always)]
pub fn add_to_one<V: ByteVector, T: ShuffleTables, R: ChangeRows, Y: ReadChunks<FieldBasis>>(
    tables: &T,
    rows: &mut R,
    at: usize,
    added: Y,
    log_m: GfElement,
)
    requires has { (k : ℕ) → k < Y.chunk_count added → R.has (R.kept rows.old) at k }
    requires few { at + 1 < 2 ^ 64 }
    ensures sums { (k s : ℕ) → k < Y.chunk_count added → s < 32
        → R.word rows.new k s at
        ≡ bit_xor (R.word rows.old k s at) (times_factor log_m (Y.word added k s)) }
    ensures others { (k s i : ℕ) → s < 32 → (i < at) ⊎ (at + 1 ≤ i)
        → R.word rows.new k s i ≡ R.word rows.old k s i }
    ensures past { (k s i : ℕ) → Y.chunk_count added ≤ k → s < 32
        → R.word rows.new k s i ≡ R.word rows.old k s i }
    ensures kept { R.kept rows.new ≡ R.kept rows.old }
{
    let products = tables.products(log_m);
    match factor_of(products.lend(), log_m) {
        AnyFactor::Zero(factor) => {
            add_to_group::<V, FieldBasis, R, _, Y>(rows, at, added, OneRow { factor });
        }
        AnyFactor::Small(Small { log_m, products }) => {
            let products = &copied(products);
            let factor = Small { log_m, products };
            add_to_group::<V, FieldBasis, R, _, Y>(rows, at, added, OneRow { factor });
        }
        AnyFactor::General(General { log_m, products }) => {
            let products = &copied(products);
            let factor = General { log_m, products };
            add_to_group::<V, FieldBasis, R, _, Y>(rows, at, added, OneRow { factor });
        }
    }
}

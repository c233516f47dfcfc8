//! Rows whose words are changed into the other basis in place.
ghost use Rattle.std.specs.Prelude.{◌≡◌, ◌≢◌, ◌⊎◌, ℕ, ◌<◌, ◌≤◌};
ghost use Rattle.rs_field.specs.rows.Written.{held};
ghost use Rattle.rs_engines.specs.Twisted.{twisted};

use crate::byte_vector::ByteVector;
use crate::twisted_chunks::twist_chunk;
use rs_field::engine::{ChangeRows, Writing};

/// Changes the first `len` chunks of each row from row `from` up to, but not including, row `to` into the other basis.
pub fn twist_rows<V: ByteVector, R: ChangeRows>(rows: &mut R, from: usize, to: usize, len: usize)
    requires order { from ≤ to }
    requires has { (i k : ℕ) → from ≤ i → i < to → k < len → R.has (R.kept rows.old) i k }
    ensures twisted { (k s i : ℕ) → k < len → s < 32 → from ≤ i → i < to
        → R.word rows.new k s i ≡ twisted (R.word rows.old k s i) }
    ensures back { (k s i : ℕ) → k < len → s < 32 → from ≤ i → i < to
        → twisted (R.word rows.new k s i) ≡ R.word rows.old k s i }
    ensures others { (k s i : ℕ) → s < 32 → (len ≤ k) ⊎ ((i < from) ⊎ (to ≤ i))
        → R.word rows.new k s i ≡ R.word rows.old k s i }
    ensures kept { R.kept rows.new ≡ R.kept rows.old }
{
    for row in from..to {
        twist_row::<V, R>(rows, row, len);
    }
}

// Changes the first `len` chunks of a row into the other basis.
fn twist_row<V: ByteVector, R: ChangeRows>(rows: &mut R, row: usize, len: usize)
    requires { (k : ℕ) → k < len → R.has (R.kept rows.old) row k }
    ensures twisted { (k s : ℕ) → k < len → s < 32
        → R.word rows.new k s row ≡ twisted (R.word rows.old k s row) }
    ensures back { (k s : ℕ) → k < len → s < 32
        → twisted (R.word rows.new k s row) ≡ R.word rows.old k s row }
    ensures others { (k s i : ℕ) → s < 32 → (len ≤ k) ⊎ (i ≢ row)
        → R.word rows.new k s i ≡ R.word rows.old k s i }
    ensures kept { R.kept rows.new ≡ R.kept rows.old }
{
    for k in 0..len {
        let mut chunk = rows.chunk(row, k);
        twist_chunk::<V>(&mut chunk);
        rows.put_chunk(row, k, &chunk);
    }
}

/// Clears the first `len` chunks of a row if it is to be replaced.
pub fn prepare_row<R: ChangeRows>(rows: &mut R, row: usize, len: usize, writing: Writing)
    requires { (k : ℕ) → k < len → R.has (R.kept rows.old) row k }
    ensures held { (k s : ℕ) → k < len → s < 32
        → R.word rows.new k s row ≡ held writing (R.word rows.old k s row) }
    ensures others { (k s i : ℕ) → s < 32 → (len ≤ k) ⊎ (i ≢ row)
        → R.word rows.new k s i ≡ R.word rows.old k s i }
    ensures kept { R.kept rows.new ≡ R.kept rows.old }
{
    match writing {
        Writing::Replacing => clear_row(rows, row, len),
        Writing::Adding => {}
    }
}

// Clears the first `len` chunks of a row.
fn clear_row<R: ChangeRows>(rows: &mut R, row: usize, len: usize)
    requires { (k : ℕ) → k < len → R.has (R.kept rows.old) row k }
    ensures cleared { (k s : ℕ) → k < len → s < 32 → R.word rows.new k s row ≡ 0 }
    ensures others { (k s i : ℕ) → s < 32 → (len ≤ k) ⊎ (i ≢ row)
        → R.word rows.new k s i ≡ R.word rows.old k s i }
    ensures kept { R.kept rows.new ≡ R.kept rows.old }
{
    for k in 0..len {
        rows.put_chunk(row, k, &[0; 64]);
    }
}

/// Changes the first `len` chunks of each row from row `from` up to, but not including, row `to` into the other basis,
/// or clears them if the rows are to be replaced.
pub fn prepare_twisted_rows<V: ByteVector, R: ChangeRows>(
    rows: &mut R,
    from: usize,
    to: usize,
    len: usize,
    writing: Writing,
)
    requires order { from ≤ to }
    requires has { (i k : ℕ) → from ≤ i → i < to → k < len → R.has (R.kept rows.old) i k }
    ensures held { (k s i : ℕ) → k < len → s < 32 → from ≤ i → i < to
        → twisted (R.word rows.new k s i) ≡ held writing (R.word rows.old k s i) }
    ensures others { (k s i : ℕ) → s < 32 → (len ≤ k) ⊎ ((i < from) ⊎ (to ≤ i))
        → R.word rows.new k s i ≡ R.word rows.old k s i }
    ensures kept { R.kept rows.new ≡ R.kept rows.old }
{
    match writing {
        Writing::Replacing => clear_rows(rows, from, to, len),
        Writing::Adding => twist_rows::<V, R>(rows, from, to, len),
    }
}

/// Clears the first `len` chunks of each row from row `from` up to, but not including, row `to`.
pub fn clear_rows<R: ChangeRows>(rows: &mut R, from: usize, to: usize, len: usize)
    requires order { from ≤ to }
    requires has { (i k : ℕ) → from ≤ i → i < to → k < len → R.has (R.kept rows.old) i k }
    ensures cleared { (k s i : ℕ) → k < len → s < 32 → from ≤ i → i < to
        → R.word rows.new k s i ≡ 0 }
    ensures others { (k s i : ℕ) → s < 32 → (len ≤ k) ⊎ ((i < from) ⊎ (to ≤ i))
        → R.word rows.new k s i ≡ R.word rows.old k s i }
    ensures kept { R.kept rows.new ≡ R.kept rows.old }
{
    for row in from..to {
        clear_row(rows, row, len);
    }
}

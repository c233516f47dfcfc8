//! Rows that are changed in place, wherever they lie.
ghost use Rattle.std.specs.Prelude.{◌≡◌, ℕ, ◌<◌, length};

use super::sums::xor_chunk;

/// The change of a row: what it was, and what it is now. Both have the same number of chunks.
#[derive(Clone, Copy, Debug)]
pub struct Change<'a> {
    /// The row before the change.
    pub old: &'a [[u8; 64]],
    /// The row after the change.
    pub new: &'a [[u8; 64]],
    pub ghost same: { length new.now ≡ length old.now },
}

impl Change<'_> {
    ghost use Rattle.rs_field.specs.rows.Changed.{change_word};
    ghost use Rattle.rs_field.specs.rows.Rows.{symbol};

    /// Returns the sum of chunk `k` before the change and after it.
    #[inline(always)]
    pub fn chunk(&self, k: usize) -> [u8; 64]
        requires { k < length self.now.old.now }
        ensures { (s : ℕ) → s < 32 → symbol result s ≡ change_word self.now k s }
    {
        let mut chunk = self.old[k];
        xor_chunk(&mut chunk, &self.new[k]);
        chunk
    }
}

/// Rows whose chunks are changed in place.
pub trait ChangeRows {
    ghost use Rattle.std.specs.Prelude.{◌≡◌, ◌≢◌, ◌⊎◌, ℕ, ◌<◌};
    ghost use Rattle.rs_field.specs.rows.Rows.{symbol};

    /// The type of what no change of a chunk touches.
    ghost Kept: { Type 0 };

    /// What no change of a chunk touches: the shape of the rows, and what lies beside them.
    ghost kept: { Self → Kept };

    /// States that row i has chunk k, for i and k in this order.
    ghost has: { Kept → ℕ → ℕ → Type 0 };

    /// Symbol s of chunk k of row i, for k, s and i in this order.
    ghost word: { Self → ℕ → ℕ → ℕ → ℕ };

    /// Returns chunk `k` of a row. Nothing changes.
    fn chunk(&mut self, row: usize, k: usize) -> [u8; 64]
        requires { has (kept self.old) row k }
        ensures value { (s : ℕ) → s < 32 → symbol result s ≡ word self.old k s row }
        ensures same { self.new ≡ self.old };

    /// Replaces chunk `k` of a row.
    fn put_chunk(&mut self, row: usize, k: usize, chunk: &[u8; 64])
        requires { has (kept self.old) row k }
        ensures here { (s : ℕ) → s < 32 → word self.new k s row ≡ symbol chunk.now s }
        ensures others { (j s i : ℕ) → s < 32 → (j ≢ k) ⊎ (i ≢ row)
            → word self.new j s i ≡ word self.old j s i }
        ensures kept { kept self.new ≡ kept self.old };
}

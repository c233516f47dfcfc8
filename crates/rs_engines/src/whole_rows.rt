//! Rows to which whole rows are added at once.
ghost use Rattle.std.specs.Prelude.{◌≡◌, ℕ};

use crate::any_factor::AnyFactor;
use crate::byte_vector::ByteVector;
use crate::factors::Bytewise;
use crate::shuffle_rows::{add_chunk_pairs, add_row};
use crate::strided_rows::StridedRows;
use rs_field::engine::ChangeRows;

/// Rows to which whole rows are added at once. A loop over the chunks of one row holds the place of this row in
/// registers.
pub trait WholeRows: ChangeRows {
    ghost use Rattle.std.specs.Prelude.{◌≡◌, ◌≢◌, ◌⊎◌, ℕ, ◌<◌, ◌≤◌, length, bit_xor};
    ghost use Rattle.rs_field.specs.rows.Rows.{chunk, symbol};
    ghost use Rattle.rs_field.specs.words.Tables.{times_factor};
    ghost use Rattle.rs_engines.specs.Factors.{log_of};

    /// Adds a row to row `at`, times a factor of any class.
    fn add_times<V: ByteVector>(&mut self, at: usize, added: &[[u8; 64]], factor: AnyFactor<'_>)
        requires { (k : ℕ) → k < length added.now → Self.has (Self.kept self.old) at k }
        ensures sums { (k s : ℕ) → k < length added.now → s < 32
            → Self.word self.new k s at
            ≡ bit_xor (Self.word self.old k s at)
            (times_factor (log_of factor.entry) (symbol (chunk added.now k) s)) }
        ensures others { (k s i : ℕ) → s < 32 → (length added.now ≤ k) ⊎ (i ≢ at)
            → Self.word self.new k s i ≡ Self.word self.old k s i }
        ensures kept { Self.kept self.new ≡ Self.kept self.old };

    /// Adds two rows of the same number of chunks to row `at`, each times a factor that needs only four numbers. There
    /// is one loop over chunks for both.
    fn add_bytewise_pair<V: ByteVector>(
        &mut self,
        at: usize,
        first: &[[u8; 64]],
        second: &[[u8; 64]],
        factors: (Bytewise, Bytewise),
    )
        requires same { length second.now ≡ length first.now }
        requires has { (k : ℕ) → k < length first.now → Self.has (Self.kept self.old) at k }
        ensures sums { (k s : ℕ) → k < length first.now → s < 32
            → Self.word self.new k s at
            ≡ bit_xor (bit_xor (Self.word self.old k s at)
            (times_factor factors.0.log_m (symbol (chunk first.now k) s)))
            (times_factor factors.1.log_m (symbol (chunk second.now k) s)) }
        ensures others { (k s i : ℕ) → s < 32 → (length first.now ≤ k) ⊎ (i ≢ at)
            → Self.word self.new k s i ≡ Self.word self.old k s i }
        ensures kept { Self.kept self.new ≡ Self.kept self.old };
}

impl<'a> WholeRows for StridedRows<'a> {
    #[inline(always)]
    fn add_times<V: ByteVector>(&mut self, at: usize, added: &[[u8; 64]], factor: AnyFactor<'_>) {
        if added.is_empty() {
            return;
        }
        let start = at * self.stride;
        add_row::<V>(&mut self.chunks[start..start + added.len()], added, factor);
    }

    #[inline(always)]
    fn add_bytewise_pair<V: ByteVector>(
        &mut self,
        at: usize,
        first: &[[u8; 64]],
        second: &[[u8; 64]],
        factors: (Bytewise, Bytewise),
    ) {
        if first.is_empty() {
            return;
        }
        let start = at * self.stride;
        let row = &mut self.chunks[start..start + first.len()];
        add_chunk_pairs::<V, Bytewise>(row, first, second, factors.0, factors.1);
    }
}

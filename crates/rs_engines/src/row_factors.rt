//! The factors of rows that follow one another. Each adds a chunk, times itself, to its row.
ghost use Rattle.std.specs.Prelude.{◌≡◌, ◌≢◌, ◌⊎◌, ℕ, ◌+◌, ◌^◌, ◌<◌, ◌≤◌, List, IfSome, length, slice_index, bit_xor};
ghost use Rattle.rs_field.specs.rows.Rows.{symbol};
ghost use Rattle.rs_field.specs.words.Tables.{times_factor};

use crate::any_factor::{bytewise, factor_of};
use crate::basis::{Basis, FieldBasis, TwistedBasis};
use crate::byte_vector::ByteVector;
use crate::factors::{Bytewise, Factor};
use crate::shuffle_chunks::add_chunk;
use crate::shuffle_tables::ShuffleTables;
use crate::twisted_chunks::add_twisted_chunk;
use crate::twisted_words::ByteFactor;
use rs_field::engine::{ChangeRows, GfElement};

/// The logarithms of factors, one for each of some rows.
pub trait RowLogs {
    // The number of rows.
    ghost row_count: { Self → ℕ };

    // The logarithm of the factor for a row. 65535 represents the factor zero.
    ghost log: { Self → ℕ → ℕ };

    /// Returns the number of rows.
    fn count(&self) -> usize
        ensures { result ≡ row_count self.now };

    /// Returns the logarithm of the factor for a row.
    fn factor(&self, row: usize) -> GfElement
        requires { row < row_count self.now }
        ensures { result ≡ log self.now row };
}

impl RowLogs for &[GfElement] {
    ghost row_count = { λ x. length x.now };

    ghost log = { λ x row. slice_index x.now row };

    #[inline(always)]
    fn count(&self) -> usize {
        self.len()
    }

    #[inline(always)]
    fn factor(&self, row: usize) -> GfElement {
        self[row]
    }
}

/// The factors of rows that follow one another, for words in the basis `W`.
pub trait RowFactors<W: Basis>: Copy + Drop {
    // The logarithm of the factor for each row. 65535 represents the factor zero.
    ghost logs: { Self → List ℕ };

    /// Adds a chunk to chunk `k` of each row from row `at` on, times the factor for the row. Returns the index of the
    /// row after these rows.
    fn add<V: ByteVector, R: ChangeRows>(
        self,
        rows: &mut R,
        at: usize,
        k: usize,
        chunk: &[u8; 64],
    ) -> usize
        requires has { (d : ℕ) → d < length (logs self) → R.has (R.kept rows.old) (at + d) k }
        requires few { at + length (logs self) < 2 ^ 64 }
        ensures sums { (d s : ℕ) → d < length (logs self) → s < 32
            → W.value (R.word rows.new k s (at + d))
            ≡ bit_xor (W.value (R.word rows.old k s (at + d)))
            (times_factor (slice_index (logs self) d) (W.value (symbol chunk.now s))) }
        ensures others { (j s i : ℕ) → s < 32
            → (j ≢ k) ⊎ ((i < at) ⊎ (at + length (logs self) ≤ i))
            → R.word rows.new j s i ≡ R.word rows.old j s i }
        ensures kept { R.kept rows.new ≡ R.kept rows.old }
        ensures next { result ≡ at + length (logs self) };
}

/// Factors of a group of rows, all of them small.
pub trait SmallFactors<W: Basis>: RowFactors<W> {
    // The number of rows.
    ghost size: { ℕ };

    /// Returns the factors for the rows from row `at` on, if there are as many rows and each factor is small enough,
    /// and the index of the row after these rows.
    fn of<T: ShuffleTables, L: RowLogs>(tables: &T, logs: &L, at: usize) -> Option<(Self, usize)>
        requires { L.row_count logs.now < 2 ^ 64 }
        ensures next { IfSome result (λ found. (at < found.1) × (found.1 ≤ L.row_count logs.now)
            × (found.1 ≡ at + size) × (length (Self.logs found.0) ≡ size)) }
        ensures logs { IfSome result (λ found. (d : ℕ) → d < size
            → slice_index (Self.logs found.0) d ≡ L.log logs.now (at + d)) };
}

/// The factor of one row.
#[derive(Clone, Copy)]
pub struct OneRow<F: Factor> {
    /// The factor.
    pub factor: F,
}

impl<F: Factor> RowFactors<FieldBasis> for OneRow<F> {
    ghost use Rattle.std.specs.Prelude.{[], ◌∷◌};

    ghost logs = { λ x. F.log x.factor ∷ [] };

    #[inline(always)]
    fn add<V: ByteVector, R: ChangeRows>(
        self,
        rows: &mut R,
        at: usize,
        k: usize,
        chunk: &[u8; 64],
    ) -> usize {
        let mut sum = rows.chunk(at, k);
        add_chunk::<V, F>(&mut sum, chunk, self.factor);
        rows.put_chunk(at, k, &sum);
        at + 1
    }
}

impl SmallFactors<FieldBasis> for OneRow<Bytewise> {
    ghost size = { 1 };

    #[inline(always)]
    fn of<T: ShuffleTables, L: RowLogs>(tables: &T, logs: &L, at: usize) -> Option<(Self, usize)> {
        if at >= logs.count() {
            return None;
        }
        let log_m = logs.factor(at);
        let products = tables.products(log_m);
        let factor = bytewise(factor_of(products.lend(), log_m))?;
        Some((OneRow { factor }, at + 1))
    }
}

/// The factor of one row whose words are in the other basis.
#[derive(Clone, Copy)]
pub struct OneTwistedRow {
    /// The factor.
    pub factor: ByteFactor,
}

impl RowFactors<TwistedBasis> for OneTwistedRow {
    ghost use Rattle.std.specs.Prelude.{[], ◌∷◌};

    ghost logs = { λ x. x.factor.log_m ∷ [] };

    #[inline(always)]
    fn add<V: ByteVector, R: ChangeRows>(
        self,
        rows: &mut R,
        at: usize,
        k: usize,
        chunk: &[u8; 64],
    ) -> usize {
        let mut sum = rows.chunk(at, k);
        add_twisted_chunk::<V>(&mut sum, chunk, self.factor);
        rows.put_chunk(at, k, &sum);
        at + 1
    }
}

impl SmallFactors<TwistedBasis> for OneTwistedRow {
    ghost size = { 1 };

    #[inline(always)]
    fn of<T: ShuffleTables, L: RowLogs>(tables: &T, logs: &L, at: usize) -> Option<(Self, usize)> {
        if at >= logs.count() {
            return None;
        }
        let log_m = logs.factor(at);
        let products = tables.products(log_m);
        let factor = ByteFactor::of(products.lend(), log_m)?;
        Some((OneTwistedRow { factor }, at + 1))
    }
}

/// The factors of some rows, and then those of further rows.
#[derive(Clone, Copy)]
pub struct TwoGroups<A, B> {
    /// The factors of the rows that come first.
    pub first: A,
    /// The factors of the rows after them.
    pub second: B,
}

impl<W: Basis, A: RowFactors<W>, B: RowFactors<W>> RowFactors<W> for TwoGroups<A, B> {
    ghost use Rattle.std.specs.Prelude.{◌++◌};

    ghost logs = { λ x. A.logs x.first ++ B.logs x.second };

    #[inline(always)]
    fn add<V: ByteVector, R: ChangeRows>(
        self,
        rows: &mut R,
        at: usize,
        k: usize,
        chunk: &[u8; 64],
    ) -> usize {
        let next = self.first.add::<V, R>(rows, at, k, chunk);
        self.second.add::<V, R>(rows, next, k, chunk)
    }
}

impl<W: Basis, A: SmallFactors<W>, B: SmallFactors<W>> SmallFactors<W> for TwoGroups<A, B> {
    ghost use Rattle.std.specs.Prelude.{◌+◌};

    ghost size = { A.size + B.size };

    #[inline(always)]
    fn of<T: ShuffleTables, L: RowLogs>(tables: &T, logs: &L, at: usize) -> Option<(Self, usize)> {
        let (first, next) = A::of(tables, logs, at)?;
        let (second, end) = B::of(tables, logs, next)?;
        Some((TwoGroups { first, second }, end))
    }
}

/// Factors of two rows that follow one another.
pub type FactorsOfTwo<F> = TwoGroups<F, F>;

/// Factors of three rows that follow one another.
pub type FactorsOfThree<F> = TwoGroups<TwoGroups<F, F>, F>;

/// Factors of four rows that follow one another.
pub type FactorsOfFour<F> = TwoGroups<TwoGroups<F, F>, TwoGroups<F, F>>;

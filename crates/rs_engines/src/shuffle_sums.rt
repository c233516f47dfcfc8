//! Sums of rows by shuffles. A row that is added is read once for up to four sums.
ghost use Rattle.std.specs.Prelude.{◌≡◌, ◌≢◌, ◌⊎◌, ℕ, ◌+◌, ◌*◌, ◌^◌, ◌<◌, ◌≤◌, IfNone, IfSome, length, bit_xor};
ghost use Rattle.rs_field.specs.rows.Rows.{chunk, symbol};
ghost use Rattle.rs_field.specs.words.Tables.{times_factor};
ghost use Rattle.rs_engines.specs.StridedRows.{strided_word};
ghost use Rattle.rs_engines.specs.Sums.{AreSumsFrom};

use crate::any_factor::factor_of;
use crate::basis::{FieldBasis, TwistedBasis};
use crate::byte_vector::ByteVector;
use crate::factors::Bytewise;
use crate::group_sums::FEW_CHUNKS;
use crate::pair_sums::{Term, add_pair};
use crate::row_factors::{
    FactorsOfFour, FactorsOfThree, FactorsOfTwo, OneRow, OneTwistedRow, RowLogs, SmallFactors,
};
use crate::shuffle_tables::ShuffleTables;
use crate::strided_rows::StridedRows;
use crate::sum_bases::SumBasis;
use crate::twisted_rows::prepare_row;
use crate::whole_rows::WholeRows;
use rs_field::engine::{AddedRows, GfElement, Writing};

/// Writes the sums of `added` to the rows that lie `stride` chunks apart in `x`.
pub fn sum_strided<V: ByteVector, T: ShuffleTables, A: AddedRows>(
    tables: &T,
    x: &mut [[u8; 64]],
    stride: usize,
    added: &A,
    writing: Writing,
)
    requires room { length x.old ≡ A.sum_count added.now * stride }
    requires fit { A.row_len added.now ≤ stride }
    ensures length { length x.new ≡ length x.old }
    ensures sums { AreSumsFrom writing (A.row_count added.now) (A.row_len added.now)
        (A.log added.now) (A.word added.now) 0 (A.sum_count added.now)
        (strided_word x.old stride) (strided_word x.new stride) }
{
    let mut rows = StridedRows { chunks: x, stride };
    sum_all::<V, T, StridedRows<'_>, A>(tables, &mut rows, added, writing);
}

// Writes the sums of `added` to rows, from row 0 on.
fn sum_all<V: ByteVector, T: ShuffleTables, R: WholeRows, A: AddedRows>(
    tables: &T,
    rows: &mut R,
    added: &A,
    writing: Writing,
)
    requires has { (d k : ℕ) → d < A.sum_count added.now → k < A.row_len added.now
        → R.has (R.kept rows.old) d k }
    ensures sums { AreSumsFrom writing (A.row_count added.now) (A.row_len added.now)
        (A.log added.now) (A.word added.now) 0 (A.sum_count added.now)
        (R.word rows.old) (R.word rows.new) }
    ensures kept { R.kept rows.new ≡ R.kept rows.old }
{
    let mut at = 0;
    while at < added.sums() {
        at = sum_next::<V, T, R, A>(tables, rows, added, at, writing);
    }
}

// Writes the next sums to the rows from row `at` on. Returns the index of the row after these rows.
fn sum_next<V: ByteVector, T: ShuffleTables, R: WholeRows, A: AddedRows>(
    tables: &T,
    rows: &mut R,
    added: &A,
    at: usize,
    writing: Writing,
) -> usize
    requires within { at < A.sum_count added.now }
    requires has { (d k : ℕ) → d < A.sum_count added.now → k < A.row_len added.now
        → R.has (R.kept rows.old) d k }
    requires few { A.sum_count added.now < 2 ^ 64 }
    ensures next { at < result }
    ensures inside { result ≤ A.sum_count added.now }
    ensures sums { AreSumsFrom writing (A.row_count added.now) (A.row_len added.now)
        (A.log added.now) (A.word added.now) at result (R.word rows.old) (R.word rows.new) }
    ensures kept { R.kept rows.new ≡ R.kept rows.old }
{
    let end = added.sums();
    if end - at == 1 && (added.len() > FEW_CHUNKS || added.count() > FAR_ROWS) {
        sum_one::<V, T, R, A>(tables, rows, added, at, writing);
        return end;
    }
    if added.len() > FEW_CHUNKS && added.count() > 0 {
        if let Some(next) = sum_small::<V, T, R, A>(tables, rows, added, at, writing) {
            return next;
        }
    }
    sum_apart::<V, T, R, A>(tables, rows, added, at, end, writing);
    end
}

/// The products with the factors of more rows do not stay in the processor's first caches. Then it pays to add two rows
/// at a time even if they have few chunks, because the products for both are fetched at the same time.
const FAR_ROWS: usize = 256;

/// If fewer rows are added, the words of sums stay in the basis of the field: to change their words and those of the
/// rows would take longer than the other basis saves.
const MANY_ROWS: usize = 6;

// Writes the sums to up to four rows from row `at` on, if there are at least two and the factors of the first added row
// for them are small. Returns the index of the row after these rows. Or changes nothing.
fn sum_small<V: ByteVector, T: ShuffleTables, R: WholeRows, A: AddedRows>(
    tables: &T,
    rows: &mut R,
    added: &A,
    at: usize,
    writing: Writing,
) -> Option<usize>
    requires has { (d k : ℕ) → d < A.sum_count added.now → k < A.row_len added.now
        → R.has (R.kept rows.old) d k }
    requires few { A.sum_count added.now < 2 ^ 64 }
    requires some { 0 < A.row_count added.now }
    ensures next { IfSome result (λ next. (at < next) × (next ≤ A.sum_count added.now)) }
    ensures sums { IfSome result (λ next. AreSumsFrom writing (A.row_count added.now)
        (A.row_len added.now) (A.log added.now) (A.word added.now) at next
        (R.word rows.old) (R.word rows.new)) }
    ensures unchanged { IfNone result (rows.new ≡ rows.old) }
    ensures kept { R.kept rows.new ≡ R.kept rows.old }
{
    if added.count() < MANY_ROWS {
        return sum_group::<V, T, R, A, FieldBasis, FactorsOfTwo<OneRow<Bytewise>>>(
            tables, rows, added, at, writing,
        );
    }
    if let Some(next) = sum_group::<V, T, R, A, TwistedBasis, FactorsOfFour<OneTwistedRow>>(
        tables, rows, added, at, writing,
    ) {
        return Some(next);
    }
    if let Some(next) = sum_group::<V, T, R, A, TwistedBasis, FactorsOfThree<OneTwistedRow>>(
        tables, rows, added, at, writing,
    ) {
        return Some(next);
    }
    sum_group::<V, T, R, A, TwistedBasis, FactorsOfTwo<OneTwistedRow>>(
        tables, rows, added, at, writing,
    )
}

/// The logarithms of the factors of one of the added rows, one for each sum.
#[derive(Drop)]
struct SumLogs<'a, A: AddedRows> {
    /// The rows.
    added: &'a A,
    /// The index of the row.
    index: usize,
    ghost inside: { index < A.row_count added.now },
}

impl<'a, A: AddedRows> RowLogs for SumLogs<'a, A> {
    ghost row_count = { λ x. A.sum_count x.added.now };

    ghost log = { λ x d. A.log x.added.now x.index d };

    #[inline(always)]
    fn count(&self) -> usize {
        self.added.sums()
    }

    #[inline(always)]
    fn factor(&self, row: usize) -> GfElement {
        self.added.factor(self.index, row)
    }
}

// Writes the sums to a group of rows from row `at` on, if there are as many rows and the factors of row 0 of `added`
// are small enough. Returns the index of the row after these rows. Or changes nothing.
fn sum_group<
    V: ByteVector,
    T: ShuffleTables,
    R: WholeRows,
    A: AddedRows,
    W: SumBasis,
    G: SmallFactors<W>,
>(tables: &T, rows: &mut R, added: &A, at: usize, writing: Writing) -> Option<usize>
    requires has { (d k : ℕ) → d < A.sum_count added.now → k < A.row_len added.now
        → R.has (R.kept rows.old) d k }
    requires few { A.sum_count added.now < 2 ^ 64 }
    requires some { 0 < A.row_count added.now }
    ensures next { IfSome result (λ next. (at < next) × (next ≤ A.sum_count added.now)
        × (next ≡ at + G.size)) }
    ensures sums { IfSome result (λ next. AreSumsFrom writing (A.row_count added.now)
        (A.row_len added.now) (A.log added.now) (A.word added.now) at next
        (R.word rows.old) (R.word rows.new)) }
    ensures unchanged { IfNone result (rows.new ≡ rows.old) }
    ensures kept { R.kept rows.new ≡ R.kept rows.old }
{
    let (_, next) = G::of(tables, &SumLogs { added, index: 0 }, at)?;
    sum_rows::<V, T, R, A, W, G>(tables, rows, added, at, next, writing);
    Some(next)
}

// Writes the sums to the rows from row `at` up to, but not including, row `next`. They are made in the basis `W`.
fn sum_rows<
    V: ByteVector,
    T: ShuffleTables,
    R: WholeRows,
    A: AddedRows,
    W: SumBasis,
    G: SmallFactors<W>,
>(tables: &T, rows: &mut R, added: &A, at: usize, next: usize, writing: Writing)
    requires size { next ≡ at + G.size }
    requires inside { next ≤ A.sum_count added.now }
    requires few { A.sum_count added.now < 2 ^ 64 }
    requires has { (d k : ℕ) → d < A.sum_count added.now → k < A.row_len added.now
        → R.has (R.kept rows.old) d k }
    ensures sums { AreSumsFrom writing (A.row_count added.now) (A.row_len added.now)
        (A.log added.now) (A.word added.now) at next (R.word rows.old) (R.word rows.new) }
    ensures kept { R.kept rows.new ≡ R.kept rows.old }
{
    let len = added.len();
    W::prepare::<V, R>(rows, at, next, len, writing);
    for index in 0..added.count() {
        let logs = SumLogs { added, index };
        add_row::<V, T, R, A, W, G>(tables, rows, logs, at, next);
    }
    W::leave::<V, R>(rows, at, next, len);
}

// Adds a row to the rows from row `at` up to, but not including, row `next`, times the factors for these rows. The
// words of these rows are in the basis `W`.
#[inline(always)]
fn add_row<
    V: ByteVector,
    T: ShuffleTables,
    R: WholeRows,
    A: AddedRows,
    W: SumBasis,
    G: SmallFactors<W>,
>(tables: &T, rows: &mut R, logs: SumLogs<'_, A>, at: usize, next: usize)
    requires size { next ≡ at + G.size }
    requires inside { next ≤ A.sum_count logs.added.now }
    requires few { A.sum_count logs.added.now < 2 ^ 64 }
    requires has { (d k : ℕ) → d < A.sum_count logs.added.now → k < A.row_len logs.added.now
        → R.has (R.kept rows.old) d k }
    ensures sums { (k s d : ℕ) → k < A.row_len logs.entry.added.now → s < 32 → at ≤ d → d < next
        → W.value (R.word rows.new k s d)
        ≡ bit_xor (W.value (R.word rows.old k s d))
        (times_factor (A.log logs.entry.added.now logs.entry.index d)
        (A.word logs.entry.added.now k s logs.entry.index)) }
    ensures others { (k s d : ℕ) → s < 32
        → (A.row_len logs.entry.added.now ≤ k) ⊎ ((d < at) ⊎ (next ≤ d))
        → R.word rows.new k s d ≡ R.word rows.old k s d }
    ensures kept { R.kept rows.new ≡ R.kept rows.old }
{
    let row = logs.added.row(logs.index);
    match G::of(tables, &logs, at) {
        Some((group, _)) => W::add::<V, R, G>(rows, at, row, group),
        None => add_large::<V, T, R, A, W>(tables, rows, logs, at, next),
    }
}

// Adds a row to the rows from row `at` up to, but not including, row `next`, times factors of any class. The words of
// these rows leave the basis `W` before it, and enter it again after it. The function is not inlined: with small
// factors it is never called, and it would be in the code of each group.
#[inline(never)]
fn add_large<V: ByteVector, T: ShuffleTables, R: WholeRows, A: AddedRows, W: SumBasis>(
    tables: &T,
    rows: &mut R,
    logs: SumLogs<'_, A>,
    at: usize,
    next: usize,
)
    requires order { at ≤ next }
    requires inside { next ≤ A.sum_count logs.added.now }
    requires has { (d k : ℕ) → d < A.sum_count logs.added.now → k < A.row_len logs.added.now
        → R.has (R.kept rows.old) d k }
    ensures sums { (k s d : ℕ) → k < A.row_len logs.entry.added.now → s < 32 → at ≤ d → d < next
        → W.value (R.word rows.new k s d)
        ≡ bit_xor (W.value (R.word rows.old k s d))
        (times_factor (A.log logs.entry.added.now logs.entry.index d)
        (A.word logs.entry.added.now k s logs.entry.index)) }
    ensures others { (k s d : ℕ) → s < 32
        → (A.row_len logs.entry.added.now ≤ k) ⊎ ((d < at) ⊎ (next ≤ d))
        → R.word rows.new k s d ≡ R.word rows.old k s d }
    ensures kept { R.kept rows.new ≡ R.kept rows.old }
{
    let len = logs.added.len();
    W::leave::<V, R>(rows, at, next, len);
    add_plain::<V, T, R, A>(tables, rows, logs, at, next);
    W::enter::<V, R>(rows, at, next, len);
}

// Adds a row to the rows from row `at` up to, but not including, row `next`, times factors of any class, to two of
// these rows at a time.
#[inline(always)]
fn add_plain<V: ByteVector, T: ShuffleTables, R: WholeRows, A: AddedRows>(
    tables: &T,
    rows: &mut R,
    logs: SumLogs<'_, A>,
    at: usize,
    next: usize,
)
    requires order { at ≤ next }
    requires inside { next ≤ A.sum_count logs.added.now }
    requires has { (d k : ℕ) → d < A.sum_count logs.added.now → k < A.row_len logs.added.now
        → R.has (R.kept rows.old) d k }
    ensures sums { (k s d : ℕ) → k < A.row_len logs.entry.added.now → s < 32 → at ≤ d → d < next
        → R.word rows.new k s d
        ≡ bit_xor (R.word rows.old k s d)
        (times_factor (A.log logs.entry.added.now logs.entry.index d)
        (A.word logs.entry.added.now k s logs.entry.index)) }
    ensures others { (k s d : ℕ) → s < 32
        → (A.row_len logs.entry.added.now ≤ k) ⊎ ((d < at) ⊎ (next ≤ d))
        → R.word rows.new k s d ≡ R.word rows.old k s d }
    ensures kept { R.kept rows.new ≡ R.kept rows.old }
{
    let row = logs.added.row(logs.index);
    let count = next - at;
    for pair in 0..count / 2 {
        let d = at + 2 * pair;
        let factors = (logs.factor(d), logs.factor(d + 1));
        add_to_two::<V, T, R>(tables, rows, d, row, factors);
    }
    if count % 2 == 1 {
        let last = next - 1;
        add_to_one::<V, T, R>(tables, rows, last, row, logs.factor(last));
    }
}

// Writes the sums to the rows from row `at` up to, but not including, row `end`. Each added row is added to one of them
// after the other.
fn sum_apart<V: ByteVector, T: ShuffleTables, R: WholeRows, A: AddedRows>(
    tables: &T,
    rows: &mut R,
    added: &A,
    at: usize,
    end: usize,
    writing: Writing,
)
    requires order { at ≤ end }
    requires inside { end ≤ A.sum_count added.now }
    requires has { (d k : ℕ) → d < A.sum_count added.now → k < A.row_len added.now
        → R.has (R.kept rows.old) d k }
    ensures sums { AreSumsFrom writing (A.row_count added.now) (A.row_len added.now)
        (A.log added.now) (A.word added.now) at end (R.word rows.old) (R.word rows.new) }
    ensures kept { R.kept rows.new ≡ R.kept rows.old }
{
    FieldBasis::prepare::<V, R>(rows, at, end, added.len(), writing);
    for index in 0..added.count() {
        add_plain::<V, T, R, A>(tables, rows, SumLogs { added, index }, at, end);
    }
}

// Adds a row to row `at`, times the factor with a logarithm.
#[inline(always)]
fn add_to_one<V: ByteVector, T: ShuffleTables, R: WholeRows>(
    tables: &T,
    rows: &mut R,
    at: usize,
    added: &[[u8; 64]],
    log_m: GfElement,
)
    requires { (k : ℕ) → k < length added.now → R.has (R.kept rows.old) at k }
    ensures sums { (k s : ℕ) → k < length added.now → s < 32
        → R.word rows.new k s at
        ≡ bit_xor (R.word rows.old k s at) (times_factor log_m (symbol (chunk added.now k) s)) }
    ensures others { (k s i : ℕ) → s < 32 → (length added.now ≤ k) ⊎ (i ≢ at)
        → R.word rows.new k s i ≡ R.word rows.old k s i }
    ensures kept { R.kept rows.new ≡ R.kept rows.old }
{
    let products = tables.products(log_m);
    rows.add_times::<V>(at, added, factor_of(products.lend(), log_m));
}

// Adds a row to row `at` and to the row after it, times the factors with two logarithms. Unless there are few chunks,
// the classes of both factors are found out before the first addition, so that a processor fetches the products of both
// at the same time.
#[inline(always)]
fn add_to_two<V: ByteVector, T: ShuffleTables, R: WholeRows>(
    tables: &T,
    rows: &mut R,
    at: usize,
    added: &[[u8; 64]],
    logs: (GfElement, GfElement),
)
    requires has { (d k : ℕ) → d < 2 → k < length added.now → R.has (R.kept rows.old) (at + d) k }
    requires few { at + 1 < 2 ^ 64 }
    ensures first { (k s : ℕ) → k < length added.now → s < 32
        → R.word rows.new k s at
        ≡ bit_xor (R.word rows.old k s at) (times_factor logs.0 (symbol (chunk added.now k) s)) }
    ensures second { (k s : ℕ) → k < length added.now → s < 32
        → R.word rows.new k s (at + 1)
        ≡ bit_xor (R.word rows.old k s (at + 1)) (times_factor logs.1 (symbol (chunk added.now k) s)) }
    ensures others { (k s i : ℕ) → s < 32 → (length added.now ≤ k) ⊎ ((i < at) ⊎ (at + 2 ≤ i))
        → R.word rows.new k s i ≡ R.word rows.old k s i }
    ensures kept { R.kept rows.new ≡ R.kept rows.old }
{
    let (log_0, log_1) = logs;
    if added.len() <= FEW_CHUNKS {
        add_to_one::<V, T, R>(tables, rows, at, added, log_0);
        add_to_one::<V, T, R>(tables, rows, at + 1, added, log_1);
        return;
    }
    let p0 = tables.products(log_0);
    let p1 = tables.products(log_1);
    let f0 = factor_of(p0.lend(), log_0);
    let f1 = factor_of(p1.lend(), log_1);
    rows.add_times::<V>(at, added, f0);
    rows.add_times::<V>(at + 1, added, f1);
}

// Writes the sum to row `at`, two rows at a time.
fn sum_one<V: ByteVector, T: ShuffleTables, R: WholeRows, A: AddedRows>(
    tables: &T,
    rows: &mut R,
    added: &A,
    at: usize,
    writing: Writing,
)
    requires within { at < A.sum_count added.now }
    requires has { (d k : ℕ) → d < A.sum_count added.now → k < A.row_len added.now
        → R.has (R.kept rows.old) d k }
    requires few { A.sum_count added.now < 2 ^ 64 }
    ensures sums { AreSumsFrom writing (A.row_count added.now) (A.row_len added.now)
        (A.log added.now) (A.word added.now) at (at + 1) (R.word rows.old) (R.word rows.new) }
    ensures kept { R.kept rows.new ≡ R.kept rows.old }
{
    prepare_row(rows, at, added.len(), writing);
    let count = added.count();
    for pair in 0..count / 2 {
        let index = 2 * pair;
        let first = term_at(added, index, at);
        let second = term_at(added, index + 1, at);
        add_pair::<V, T, R>(tables, rows, at, first, second);
    }
    if count % 2 == 1 {
        let last = count - 1;
        add_to_one::<V, T, R>(tables, rows, at, added.row(last), added.factor(last, at));
    }
}

// Returns a row with its factor for sum `at`.
#[inline(always)]
fn term_at<A: AddedRows>(added: &A, index: usize, at: usize) -> Term<'_>
    requires row { index < A.row_count added.now }
    requires within { at < A.sum_count added.now }
    ensures length { length result.row.now ≡ A.row_len added.now }
    ensures words { (k s : ℕ) → k < A.row_len added.now → s < 32
        → symbol (chunk result.row.now k) s ≡ A.word added.now k s index }
    ensures factor { result.log_m ≡ A.log added.now index at }
{
    Term {
        row: added.row(index),
        log_m: added.factor(index, at),
    }
}

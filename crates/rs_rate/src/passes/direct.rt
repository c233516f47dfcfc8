//! The decoding of a round by direct sums: each word of a missing original is the sum of the words of k given shards,
//! the base, each times a factor. If the given shards belong to one message, each word of a given shard outside the
//! base is such a sum too, and the decoder checks this. If there are few such shards and few missing originals, this
//! takes less time than transforms, unless the shards are very short.
ghost use Rattle.std.specs.Prelude.{◌≡◌, ℕ, ◌+◌, ◌*◌, ◌/◌, ◌%◌, ◌<◌, ◌≤◌, ◌↔◌, not, true, false, length};
ghost use Rattle.std.specs.Prelude.{bit_xor, IsTrue};
ghost use Rattle.rs_field.specs.code.Frame.{original_row, row_count};
ghost use Rattle.rs_field.specs.rows.MarkedRows.{is_marked};
ghost use Rattle.rs_field.specs.rows.Layout.{row_len};
ghost use Rattle.rs_field.specs.rows.Rows.{SameOutside, word_in};
ghost use Rattle.rs_field.specs.words.StepBounds.{CountsUpTo};
ghost use Rattle.rs_rate.specs.passes.BaseSum.{base_sum, AreFirstOf, word_beside};
ghost use Rattle.rs_rate.specs.values.Configured.{IsConfigured, rows_to_decode};
ghost use Rattle.rs_rate.specs.passes.Decoding.{SumsWords, sum_steps, find_steps};
ghost use Rattle.rs_rate.specs.passes.Sums.{sum_word};
ghost use Rattle.rs_rate.specs.rows.Marks.{how_many};
ghost use Rattle.rs_rate.specs.values.SumCosts.{AreSumsCheaper};

use crate::passes::base_sums::{BasePieces, BaseSums, write_base_sums};
use crate::passes::sums::SumBase;
use crate::rows::shard_rows::shard_at;
use crate::values::configuration::{Configuration, Tally};
use crate::values::frames::are_sums_cheaper;
use rs_field::engine::layout::{is_zero_row, row_len};
use rs_field::engine::utils::clear;
use rs_field::engine::{Engine, Steps, Writing};

/// The most rows of a decoder that uses direct sums. As many logarithms and as many rows of the base are kept on the
/// stack.
pub(crate) const MOST_ROWS: usize = 2048;

// Returns whether direct sums are used: the decoder has few rows, and the sums are cheaper than transforms and within
// their steps. There is one sum for each missing original and one for each surplus shard.
pub(crate) fn are_sums_used(tally: Tally) -> bool
    requires configured { IsConfigured tally.configuration }
    requires few { tally.missing ≤ 65536 }
    requires few_surplus { tally.surplus ≤ 65536 }
    ensures { IsTrue result ↔ (rows_to_decode tally.configuration ≤ 2048)
        × AreSumsCheaper tally.configuration.frame tally.configuration.original_count
        (tally.missing + tally.surplus)
        × (sum_steps tally.configuration (tally.missing + tally.surplus)
        ≤ find_steps tally.configuration) }
{
    let configuration = tally.configuration;
    let sums = tally.missing + tally.surplus;
    configuration.frame.row_count() <= MOST_ROWS
        && are_sums_cheaper(configuration.frame, configuration.original_count, sums)
        && are_sums_within_steps(configuration, sums)
}

// Returns whether this number of sums is within the steps of transforms, also with an engine that takes three row steps
// to add a multiple of a row.
fn are_sums_within_steps(configuration: Configuration, sums: usize) -> bool
    requires configured { IsConfigured configuration }
    requires few { sums ≤ 131072 }
    ensures { IsTrue result ↔ (sum_steps configuration sums ≤ find_steps configuration) }
{
    let frame = configuration.frame;
    let twice = 2 * sums * (1 + 3 * configuration.original_count);
    twice <= 3 * frame.row_count() * (frame.exponent + 2)
}

// Returns whether the given rows outside the base are equal to their direct sums over the base. If they are, sets the
// rows of the missing originals to their direct sums. Rows of the base do not change. The base is the first given rows.
pub(crate) fn sum_rows<E: Engine>(
    engine: &E,
    steps: &mut Steps,
    chunks: &mut [[u8; 64]],
    given: &[bool],
    base: &SumBase<'_>,
    configuration: Configuration,
) -> bool
    requires configured { IsConfigured configuration }
    requires rows { rows_to_decode configuration * row_len configuration.shard_bytes
        ≤ length chunks.old }
    requires marked { length given.now ≡ rows_to_decode configuration }
    requires first { AreFirstOf given.now base.now }
    requires located { length base.now.locator.now ≡ rows_to_decode configuration }
    ensures words { let n = row_len configuration.shard_bytes in
        SumsWords configuration given.now base.now.marks.now
        base.now.locator.now (word_in chunks.old n) (word_in chunks.new n) result }
    ensures counts { (surplus : ℕ)
        → length base.now.rows.now + surplus
        ≡ how_many (rows_to_decode configuration) (is_marked given.now)
        → CountsUpTo ((how_many configuration.original_count
        (λ i. not (is_marked given.now (original_row configuration.frame i))) + surplus)
        * (1 + 3 * length base.now.rows.now)) 0 0 steps.old steps.new }
{
    let agrees = are_equal_to_sums(
        engine,
        steps,
        chunks,
        given,
        base,
        configuration.shard_bytes,
    );
    if agrees {
        sum_missing(engine, steps, chunks, given, base, configuration);
    }
    agrees
}

// For each given row outside the base, adds the direct sum over the base to the row. Stops at the first row that is not
// zero after the addition. Returns whether all these rows are zero, so that each of them was equal to its sum.
fn are_equal_to_sums<E: Engine>(
    engine: &E,
    steps: &mut Steps,
    chunks: &mut [[u8; 64]],
    given: &[bool],
    base: &SumBase<'_>,
    shard_bytes: usize,
) -> bool
    requires rows { length given.now * row_len shard_bytes ≤ length chunks.old }
    requires even { shard_bytes % 2 ≡ 0 }
    requires first { AreFirstOf given.now base.now }
    requires located { length base.now.locator.now ≡ length given.now }
    ensures kept { (k s p : ℕ) → k < row_len shard_bytes → is_marked base.now.marks.now p ≡ true
        → word_in chunks.new (row_len shard_bytes) k s p
        ≡ word_in chunks.old (row_len shard_bytes) k s p }
    ensures equal { let words = word_in chunks.old (row_len shard_bytes) in
        ((p j : ℕ) → p < length given.now → is_marked given.now p ≡ true
        → is_marked base.now.marks.now p ≡ false → j < shard_bytes / 2
        → words (j / 32) (j % 32) p ≡ base_sum base.now (words (j / 32) (j % 32)) p)
        ↔ (result ≡ true) }
    ensures counts { (surplus : ℕ)
        → length base.now.rows.now + surplus
        ≡ how_many (length given.now) (is_marked given.now)
        → CountsUpTo (surplus * (1 + 3 * length base.now.rows.now)) 0 0 steps.old steps.new }
{
    for y in base.marks.len()..given.len() {
        if given[y] && !is_equal_to_sum(engine, steps, chunks, base, y, shard_bytes) {
            return false;
        }
    }
    true
}

// Adds the direct sum over the base to row y, which is not in the base. Returns whether the row is zero after the
// addition. It is zero exactly if it was equal to its sum. The check counts one row step.
fn is_equal_to_sum<E: Engine>(
    engine: &E,
    steps: &mut Steps,
    chunks: &mut [[u8; 64]],
    base: &SumBase<'_>,
    y: usize,
    shard_bytes: usize,
) -> bool
    requires rows { length base.now.locator.now * row_len shard_bytes ≤ length chunks.old }
    requires even { shard_bytes % 2 ≡ 0 }
    requires within { y < length base.now.locator.now }
    requires outside { is_marked base.now.marks.now y ≡ false }
    ensures others { let n = row_len shard_bytes in
        SameOutside (y * n) (y * n + n) chunks.old chunks.new }
    ensures equal { let words = word_in chunks.old (row_len shard_bytes) in
        ((j : ℕ) → j < shard_bytes / 2
        → words (j / 32) (j % 32) y ≡ base_sum base.now (words (j / 32) (j % 32)) y)
        ↔ (result ≡ true) }
    ensures counts { CountsUpTo (1 + 3 * length base.now.rows.now) 0 0 steps.old steps.new }
{
    let len = row_len(shard_bytes);
    add_sum(engine, steps, chunks, len, base, y);
    steps.row_step();
    is_zero_row(&chunks[y * len..y * len + len], shard_bytes)
}

// Sets the rows of the missing originals to direct sums over the base.
fn sum_missing<E: Engine>(
    engine: &E,
    steps: &mut Steps,
    chunks: &mut [[u8; 64]],
    given: &[bool],
    base: &SumBase<'_>,
    configuration: Configuration,
)
    requires configured { IsConfigured configuration }
    requires rows { rows_to_decode configuration * row_len configuration.shard_bytes
        ≤ length chunks.old }
    requires marked { length given.now ≡ rows_to_decode configuration }
    requires first { AreFirstOf given.now base.now }
    requires located { length base.now.locator.now ≡ rows_to_decode configuration }
    ensures words { let n = row_len configuration.shard_bytes in
        (k s i : ℕ) → k < n → s < 32 → i < configuration.original_count
        → is_marked given.now (original_row configuration.frame i) ≡ false
        → word_in chunks.new n k s (original_row configuration.frame i)
        ≡ base_sum base.now (word_in chunks.old n k s) (original_row configuration.frame i) }
    ensures counts { CountsUpTo (how_many configuration.original_count
        (λ i. not (is_marked given.now (original_row configuration.frame i)))
        * (1 + 3 * length base.now.rows.now)) 0 0 steps.old steps.new }
{
    let len = row_len(configuration.shard_bytes);
    for i in 0..configuration.original_count {
        let y = configuration.frame.original_row(i);
        if !given[y] {
            set_to_sum(engine, steps, chunks, len, base, y);
        }
    }
}

// Sets row y, which is not in the base, to the direct sum over the base. The rows have `len` chunks.
fn set_to_sum<E: Engine>(
    engine: &E,
    steps: &mut Steps,
    chunks: &mut [[u8; 64]],
    len: usize,
    base: &SumBase<'_>,
    y: usize,
)
    requires rows { length base.now.locator.now * len ≤ length chunks.old }
    requires within { y < length base.now.locator.now }
    requires outside { is_marked base.now.marks.now y ≡ false }
    ensures sums { (k s : ℕ) → k < len → s < 32
        → word_in chunks.new len k s y ≡ base_sum base.now (word_in chunks.old len k s) y }
    ensures others { SameOutside (y * len) (y * len + len) chunks.old chunks.new }
    ensures counts { CountsUpTo (1 + 3 * length base.now.rows.now) 0 0 steps.old steps.new }
{
    clear(&mut chunks[y * len..y * len + len]);
    steps.row_step();
    add_sum(engine, steps, chunks, len, base, y);
}

// Adds the direct sum over the base to row y, which is not in the base. The rows have `len` chunks.
fn add_sum<E: Engine>(
    engine: &E,
    steps: &mut Steps,
    chunks: &mut [[u8; 64]],
    len: usize,
    base: &SumBase<'_>,
    y: usize,
)
    requires rows { length base.now.locator.now * len ≤ length chunks.old }
    requires within { y < length base.now.locator.now }
    requires outside { is_marked base.now.marks.now y ≡ false }
    ensures sums { (k s : ℕ) → k < len → s < 32
        → word_in chunks.new len k s y
        ≡ bit_xor (word_in chunks.old len k s y)
        (base_sum base.now (word_in chunks.old len k s) y) }
    ensures others { SameOutside (y * len) (y * len + len) chunks.old chunks.new }
    ensures counts { CountsUpTo (3 * length base.now.rows.now) 0 0 steps.old steps.new }
{
    let (before, rest) = chunks.split_at_mut(y * len);
    let (sum, after) = rest.split_at_mut(len);
    add_beside(engine, steps, sum, base, (&*before, &*after), y);
}

// Adds the direct sum over the base to row y, which is not in the base. `others` are the rows before it and those after
// it. This is a function of its own because the checker follows the two loans into a struct only from arguments.
fn add_beside<E: Engine>(
    engine: &E,
    steps: &mut Steps,
    sum: &mut [[u8; 64]],
    base: &SumBase<'_>,
    others: (&[[u8; 64]], &[[u8; 64]]),
    y: usize,
)
    requires before { length others.0.now ≡ y * length sum.old }
    requires after { length base.now.locator.now * length sum.old
        ≤ y * length sum.old + length sum.old + length others.1.now }
    requires within { y < length base.now.locator.now }
    requires outside { is_marked base.now.marks.now y ≡ false }
    ensures words { (j : ℕ) → j < 64 * length sum.old / 2
        → sum_word sum.new j
        ≡ bit_xor (sum_word sum.old j) (base_sum base.now (λ p. word_beside others.entry.0.now
        others.entry.1.now y (length sum.old) (j / 32) (j % 32) p) y) }
    ensures counts { CountsUpTo (3 * length base.now.rows.now) 0 0 steps.old steps.new }
{
    let (before, after) = others;
    let pieces = RowsBeside {
        before,
        after,
        row: y,
        len: sum.len(),
    };
    let sums = BaseSums {
        base,
        pieces: &pieces,
        piece_len: 64 * sum.len(),
        rows: &[y],
    };
    write_base_sums(engine, steps, sum, pieces.len, &sums, Writing::Adding);
}

/// All rows of a list of rows except for one, which is written while these are read.
#[derive(Drop)]
struct RowsBeside<'a> {
    /// The chunks of the rows before the row that is left out.
    before: &'a [[u8; 64]],
    /// The chunks of the rows after it.
    after: &'a [[u8; 64]],
    /// The index of the row that is left out.
    row: usize,
    /// The number of chunks of each row.
    len: usize,
}

impl BasePieces for RowsBeside<'_> {
    ghost use Rattle.std.specs.Prelude.{◌*◌, ◌/◌, ◌%◌};
    ghost use Rattle.std.proofs.Math.Bridge.{le_prop};
    ghost use Rattle.rs_rate.specs.passes.BaseSum.{word_beside, IsRowBeside};

    ghost size = { λ x. 64 * x.len };

    ghost word = { λ x j p. word_beside x.before.now x.after.now x.row x.len (j / 32) (j % 32) p };

    ghost has = { λ x p. IsRowBeside x.before.now x.after.now x.row x.len p };

    ghost has_is_prop = { λ x row. Prim.hlevel (le_prop) };

    fn piece(&self, row: usize) -> &[u8] {
        if row < self.row {
            shard_at(self.before, 64 * self.len, row)
        } else {
            shard_at(self.after, 64 * self.len, row - self.row - 1)
        }
    }
}

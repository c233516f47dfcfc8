//! The direct sums over pieces of the shards of a base, for some rows outside of the base.
ghost use Rattle.std.specs.Prelude.{◌≡◌, ℕ, ◌+◌, ◌*◌, ◌/◌, ◌%◌, ◌<◌, ◌≤◌, true, false, length, slice_index, bit_xor};
ghost use Rattle.rs_field.specs.code.Column.{column};
ghost use Rattle.rs_field.specs.rows.AddedRows.{clear_steps};
ghost use Rattle.rs_field.specs.rows.Layout.{row_len};
ghost use Rattle.rs_field.specs.rows.MarkedRows.{is_marked};
ghost use Rattle.rs_field.specs.rows.Rows.{chunk, symbol, word_in, SameOutside};
ghost use Rattle.rs_field.specs.rows.Written.{held};
ghost use Rattle.rs_field.specs.words.StepBounds.{CountsUpTo};
ghost use Rattle.rs_rate.specs.passes.BaseSum.{base_sum};

use crate::passes::sums::{SumBase, add_tail_times};
use rs_field::engine::utils::prepare;
use rs_field::engine::{AddedRows, Engine, GfElement, ReadRows, Steps, Writing, write_sums};

/// Pieces of the shards of a base, all of one even size.
pub trait BasePieces {
    ghost use Rattle.std.specs.Prelude.{◌≡◌, ℕ, ◌/◌, ◌<◌, length};
    ghost use Rattle.rs_field.specs.code.Column.{column};

    /// The size of each piece in bytes.
    ghost size: { Self → ℕ };

    /// Word j of the piece of the shard in a row.
    ghost word: { Self → ℕ → ℕ → ℕ };

    /// States that there is a piece for a row.
    ghost has: { Self → ℕ → Type 0 };

    /// There is at most one proof of this.
    ghost has_is_prop: { (x : Self) (row : ℕ) → IsProp (has x row) };

    /// Returns the piece of the shard in a row.
    fn piece(&self, row: usize) -> &[u8]
        requires { has self.now row }
        ensures length { length result.now ≡ size self.now }
        ensures words { (j : ℕ) → j < size self.now / 2
            → column j result.now ≡ word self.now j row };
}

/// The direct sums over pieces of the shards of a base, for some rows outside of the base.
#[derive(Drop)]
pub struct BaseSums<'a, 'b, P: BasePieces> {
    /// The base.
    pub base: &'a SumBase<'b>,
    /// The pieces of the shards of the base.
    pub pieces: &'a P,
    /// The size of each piece in bytes.
    pub piece_len: usize,
    /// The rows outside of the base.
    pub rows: &'a [usize],
    pub ghost size: { P.size pieces.now ≡ piece_len },
    pub ghost even: { piece_len % 2 ≡ 0 },
    pub ghost there: { (x : ℕ) → x < length base.now.locator.now
        → is_marked base.now.marks.now x ≡ true → P.has pieces.now x } by { Prim.hlevel P.has_is_prop },
    pub ghost outside: { (d : ℕ) → d < length rows.now
        → is_marked base.now.marks.now (slice_index rows.now d) ≡ false },
    pub ghost within: { (d : ℕ) → d < length rows.now
        → slice_index rows.now d < length base.now.locator.now },
}

impl<'a, 'b, P: BasePieces> BaseSums<'a, 'b, P> {
    fn piece(&self, index: usize) -> &[u8]
        requires { index < length self.now.base.now.rows.now }
        ensures length { length result.now ≡ self.now.piece_len }
        ensures words { (j : ℕ) → j < self.now.piece_len / 2
            → column j result.now
            ≡ P.word self.now.pieces.now j (slice_index self.now.base.now.rows.now index) }
    {
        self.pieces.piece(usize::from(self.base.rows[index]))
    }

    // Returns the tail of the piece of the entry `index` of the base, which is less than a chunk.
    fn tail(&self, index: usize) -> &[u8]
        requires { index < length self.now.base.now.rows.now }
        ensures length { length result.now ≡ self.now.piece_len % 64 }
        ensures words { (j : ℕ) → j < self.now.piece_len % 64 / 2
            → column j result.now
            ≡ P.word self.now.pieces.now (32 * (self.now.piece_len / 64) + j)
            (slice_index self.now.base.now.rows.now index) }
    {
        let (_, tail) = self.piece(index).as_chunks::<64>();
        tail
    }
}

impl<'a, 'b, P: BasePieces> ReadRows for BaseSums<'a, 'b, P> {
    ghost use Rattle.std.specs.Prelude.{◌+◌, ◌*◌, ◌/◌, length, slice_index};

    ghost row_count = { λ x. length x.base.now.rows.now };

    ghost row_len = { λ x. x.piece_len / 64 };

    ghost word = { λ x k s i. P.word x.pieces.now (32 * k + s) (slice_index x.base.now.rows.now i) };

    fn count(&self) -> usize {
        self.base.rows.len()
    }

    fn row(&self, index: usize) -> &[[u8; 64]] {
        let (whole, _) = self.piece(index).as_chunks::<64>();
        whole
    }
}

impl<'a, 'b, P: BasePieces> AddedRows for BaseSums<'a, 'b, P> {
    ghost use Rattle.std.specs.Prelude.{length, slice_index};
    ghost use Rattle.rs_field.specs.words.DirectSum.{direct_factor};

    ghost sum_count = { λ x. length x.rows.now };

    ghost log = { λ x i d. direct_factor (λ z. slice_index x.base.now.locator.now z)
        (slice_index x.base.now.rows.now i) (slice_index x.rows.now d) };

    fn len(&self) -> usize {
        self.piece_len / 64
    }

    fn sums(&self) -> usize {
        self.rows.len()
    }

    fn factor(&self, row: usize, sum: usize) -> GfElement {
        self.base.factor(row, self.rows[sum])
    }
}

/// Writes the sums to rows of `x`. Each row has one chunk of 64 bytes for every 64 bytes of a piece, and one for the
/// rest. The first row begins at the first chunk of `x`, and each of the others begins `stride` chunks after the one
/// before it. The sums replace what the rows hold or are added to it, as `writing` says.
pub fn write_base_sums<E: Engine, P: BasePieces>(
    engine: &E,
    steps: &mut Steps,
    x: &mut [[u8; 64]],
    stride: usize,
    sums: &BaseSums<'_, '_, P>,
    writing: Writing,
)
    requires room { length x.old ≡ length sums.now.rows.now * stride }
    requires fit { row_len sums.now.piece_len ≤ stride }
    ensures length { length x.new ≡ length x.old }
    ensures words { (d j : ℕ) → d < length sums.now.rows.now → j < sums.now.piece_len / 2
        → word_in x.new stride (j / 32) (j % 32) d
        ≡ bit_xor (held writing (word_in x.old stride (j / 32) (j % 32) d))
        (base_sum sums.now.base.now (P.word sums.now.pieces.now j) (slice_index sums.now.rows.now d)) }
    ensures counts { sums.now.piece_len % 64 ≡ 0
        → CountsUpTo (length sums.now.rows.now
        * (clear_steps writing + 3 * length sums.now.base.now.rows.now)) 0 0 steps.old steps.new }
{
    write_sums(engine, steps, x, stride, sums, writing);
    if sums.piece_len % 64 > 0 {
        write_tails(engine, steps, x, stride, sums, writing);
    }
}

// Writes the sums of the tails of pieces to the last chunk of each row. The rows begin `stride` chunks apart.
fn write_tails<E: Engine, P: BasePieces>(
    engine: &E,
    steps: &mut Steps,
    x: &mut [[u8; 64]],
    stride: usize,
    sums: &BaseSums<'_, '_, P>,
    writing: Writing,
)
    requires room { length x.old ≡ length sums.now.rows.now * stride }
    requires fit { sums.now.piece_len / 64 < stride }
    requires tail { 0 < sums.now.piece_len % 64 }
    ensures length { length x.new ≡ length x.old }
    ensures words { let n = sums.now.piece_len / 64 in
        (d j : ℕ) → d < length sums.now.rows.now → j < sums.now.piece_len % 64 / 2
        → word_in x.new stride n j d
        ≡ bit_xor (held writing (word_in x.old stride n j d))
        (base_sum sums.now.base.now (P.word sums.now.pieces.now (32 * n + j))
        (slice_index sums.now.rows.now d)) }
    ensures rest { (d k : ℕ) → d < length sums.now.rows.now → k < sums.now.piece_len / 64
        → chunk x.new (d * stride + k) ≡ chunk x.old (d * stride + k) }
{
    for index in 0..sums.rows.len() {
        let last = index * stride + sums.piece_len / 64;
        write_tail_at(engine, steps, x, last, TailSum { sums, index }, writing);
    }
}

/// The sum of the tails of pieces, for one of the rows.
#[derive(Drop)]
struct TailSum<'a, 'b, 'c, P: BasePieces> {
    /// The sums.
    sums: &'a BaseSums<'b, 'c, P>,
    /// The index of the row among the rows of the sums.
    index: usize,
    ghost inside: { index < length sums.now.rows.now },
    ghost tail: { 0 < sums.now.piece_len % 64 },
}

// Writes the sum of the tails of pieces to chunk `at`.
fn write_tail_at<E: Engine, P: BasePieces>(
    engine: &E,
    steps: &mut Steps,
    x: &mut [[u8; 64]],
    at: usize,
    sum: TailSum<'_, '_, '_, P>,
    writing: Writing,
)
    requires { at < length x.old }
    ensures words { (j : ℕ) → j < sum.entry.sums.now.piece_len % 64 / 2
        → symbol (chunk x.new at) j
        ≡ bit_xor (held writing (symbol (chunk x.old at) j))
        (base_sum sum.entry.sums.now.base.now
        (P.word sum.entry.sums.now.pieces.now (32 * (sum.entry.sums.now.piece_len / 64) + j))
        (slice_index sum.entry.sums.now.rows.now sum.entry.index)) }
    ensures others { SameOutside at (at + 1) x.old x.new }
{
    write_tail(engine, steps, &mut x[at..at + 1], sum, writing);
}

// Writes the sum of the tails of pieces to the only chunk of a row.
fn write_tail<E: Engine, P: BasePieces>(
    engine: &E,
    steps: &mut Steps,
    row: &mut [[u8; 64]],
    sum: TailSum<'_, '_, '_, P>,
    writing: Writing,
)
    requires { length row.old ≡ 1 }
    ensures { (j : ℕ) → j < sum.entry.sums.now.piece_len % 64 / 2
        → symbol (chunk row.new 0) j
        ≡ bit_xor (held writing (symbol (chunk row.old 0) j))
        (base_sum sum.entry.sums.now.base.now
        (P.word sum.entry.sums.now.pieces.now (32 * (sum.entry.sums.now.piece_len / 64) + j))
        (slice_index sum.entry.sums.now.rows.now sum.entry.index)) }
{
    prepare(steps, row, writing);
    for index in 0..sum.sums.base.rows.len() {
        let factor = sum.sums.factor(index, sum.index);
        add_tail_times(engine, steps, row, sum.sums.tail(index), factor);
    }
}

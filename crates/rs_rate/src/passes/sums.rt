//! Direct sums over a base: k received shards determine each other shard of their message. Each of its words is the sum
//! of their words, each times a factor.
//!
//! The factors come from Lagrange's formula for the polynomial of a column times the locator of the erased rows. The
//! points of the rows are all words below a power of two, so the formula needs no weights. At an erased row, the
//! derivative of this product is the missing word times the derivative of the locator.
ghost use Rattle.std.specs.Prelude.{◌≡◌, ◌≢◌, ℕ, ◌+◌, ◌*◌, ◌/◌, ◌%◌, ◌<◌, ◌≤◌, false, length};
ghost use Rattle.std.specs.Prelude.{slice_index, take, bit_xor, IfOk, IfErr};
ghost use Rattle.rs_field.specs.code.Column.{IsShard, column};
ghost use Rattle.rs_field.specs.code.Frame.{row_count};
ghost use Rattle.rs_field.specs.rows.Layout.{row_len};
ghost use Rattle.rs_field.specs.rows.MarkedRows.{is_marked};
ghost use Rattle.rs_field.specs.rows.Rows.{word_in};
ghost use Rattle.rs_field.specs.words.DirectSum.{direct_factor};
ghost use Rattle.rs_field.specs.words.Field.{product, power, log};
ghost use Rattle.rs_rate.specs.passes.Decoding.{IsLocatorOf};
ghost use Rattle.rs_rate.specs.rows.Marks.{how_many};
ghost use Rattle.rs_rate.specs.rows.ShardRows.{shard_from};
ghost use Rattle.rs_rate.specs.passes.Sums.{ListsMarked, MakeFactors, sum_word};

use crate::passes::locators::make_locator;
use crate::rows::shard_rows::{insert_at, move_tail_from, parts_are_bytes};
use rs_field::engine::layout::{row_len, shard_of};
use rs_field::engine::{Engine, GF_MODULUS, GfElement, Steps};
use rs_field::error::Error;
use rs_field::frame::Frame;
use std::alloc::Global;

/// The base of direct sums: given shards, by their rows, and what the factors of their words are made of.
#[derive(Drop)]
pub struct SumBase<'a> {
    /// For each row up to the last one of the base, whether its shard is in the base.
    pub marks: &'a [bool],
    /// The rows of the base, from the lowest one on.
    pub rows: &'a [GfElement],
    /// The locator of the rows outside of the base, at each row. Rows whose words are known to be zero in each sum may
    /// be missing in `marks` and `rows`, and count as rows of the base here.
    pub locator: &'a [GfElement],
    /// The logarithm of each word except for the word 0, modulo 65535.
    pub logs: &'a [GfElement],
    pub ghost listed: { ListsMarked marks.now (length locator.now) rows.now },
    pub ghost made: { MakeFactors locator.now logs.now },
}

impl SumBase<'_> {
    /// Returns the logarithm, below 65535, of the factor that a word of the entry `index` of the base has in the word
    /// of row y, which is not in the base.
    pub fn factor(&self, index: usize, y: usize) -> GfElement
        requires listed { index < length self.now.rows.now }
        requires outside { is_marked self.now.marks.now y ≡ false }
        requires within { y < length self.now.locator.now }
        ensures { result
            ≡ direct_factor (λ z. slice_index self.now.locator.now z)
            (slice_index self.now.rows.now index) y }
    {
        factor_of(self.locator, self.logs, usize::from(self.rows[index]), y)
    }
}

// Returns the logarithm of the factor that a word of row x has in the word of row y, of the locator of the rows outside
// of a base and of the logarithms of words.
pub(crate) fn factor_of(locator: &[GfElement], logs: &[GfElement], x: usize, y: usize) -> GfElement
    requires made { MakeFactors locator.now logs.now }
    requires apart { x ≢ y }
    requires first { x < length locator.now }
    requires second { y < length locator.now }
    ensures { result ≡ direct_factor (λ z. slice_index locator.now z) x y }
{
    let sum = u32::from(locator[x])
        + u32::from(GF_MODULUS - logs[x ^ y])
        + u32::from(GF_MODULUS - locator[y]);
    (sum % u32::from(GF_MODULUS)) as GfElement
}

/// What the factors of a base are made of.
#[derive(Drop)]
pub struct BaseFactors {
    /// The locator of the rows outside of the base, at each row.
    pub locator: Vec<GfElement>,
    /// The logarithm of each word except for the word 0, modulo 65535.
    pub logs: Vec<GfElement>,
    pub ghost made: { MakeFactors locator.items logs.items },
}

/// Computes what the factors of a base are made of. `marks` has the marks of the rows of the base, and no row after
/// them is in the base.
///
/// # Errors
///
/// [`Error::OutOfMemory`] if the locator or the logarithms cannot be allocated.
pub fn locate_base<E: Engine>(
    alloc: Global,
    engine: &E,
    steps: &mut Steps,
    frame: Frame,
    marks: &[bool],
) -> Result<BaseFactors, Error>
    requires { frame.exponent ≤ 16 }
    ensures located { IfOk result
        (λ factors. IsLocatorOf frame marks.now factors.locator.items) }
    ensures refused { IfErr result (λ e. e ≡ Error.OutOfMemory) }
{
    let mut locator = vec![in alloc; 0; frame.row_count()]?;
    let mut logs = vec![in alloc; 0; frame.row_count()]?;
    make_locator(engine, steps, &mut locator, marks, frame);
    set_logarithms(engine, steps, &mut logs, frame);
    Ok(BaseFactors { locator, logs })
}

// Sets each entry except for entry 0 to the logarithm of its index, modulo 65535. If the engine has no logarithms, they
// are located.
fn set_logarithms<E: Engine>(engine: &E, steps: &mut Steps, logs: &mut [GfElement], frame: Frame)
    requires few { frame.exponent ≤ 16 }
    requires count { length logs.old ≡ row_count frame }
    ensures { (z : ℕ) → 0 < z → z < length logs.old → slice_index logs.new z % 65535 ≡ log z }
{
    if !engine.logarithms(logs) {
        logs.fill(0);
        locate_zero(engine, steps, logs, frame);
    }
}

/// Lists the rows of a base in `rows`, from the lowest one on: the first given rows, as many as `rows` has entries.
/// Returns the row after the last one of the base.
pub fn list_base(rows: &mut [GfElement], given: &[bool]) -> usize
    requires few { length given.now ≤ 65536 }
    requires enough { length rows.old ≤ how_many (length given.now) (is_marked given.now) }
    ensures end { result ≤ length given.now }
    ensures counted { how_many result (is_marked given.now) ≡ length rows.old }
    ensures listed { ListsMarked (take result given.now) (length given.now) rows.new }
{
    let mut count = 0;
    for row in 0..given.len() {
        if count == rows.len() {
            return row;
        }
        if given[row] {
            rows[count] = row as GfElement;
            count += 1;
        }
    }
    given.len()
}

// Sets each entry except for entry 0 to the logarithm of its index, modulo 65535: the locator of point 0 at the other
// points. All entries are 0 before.
pub(crate) fn locate_zero<E: Engine>(
    engine: &E,
    steps: &mut Steps,
    logs: &mut [GfElement],
    frame: Frame,
)
    requires few { frame.exponent ≤ 16 }
    requires count { length logs.old ≡ row_count frame }
    requires zeros { (z : ℕ) → slice_index logs.old z ≡ 0 }
    ensures { (z : ℕ) → 0 < z → z < length logs.old → slice_index logs.new z % 65535 ≡ log z }
{
    logs[0] = 1;
    engine.locate(steps, logs);
}

// Adds the tail of a piece, which is less than a chunk, times a factor, to the chunk of its words in a sum.
pub(crate) fn add_tail_times<E: Engine>(
    engine: &E,
    steps: &mut Steps,
    sum: &mut [[u8; 64]],
    tail: &[u8],
    log_m: GfElement,
)
    requires room { length sum.old ≡ 1 }
    requires some { 0 < length tail.now }
    requires short { length tail.now < 64 }
    requires even { length tail.now % 2 ≡ 0 }
    requires factor { log_m < 65535 }
    ensures words { (j : ℕ) → j < length tail.now / 2
        → sum_word sum.new j
        ≡ bit_xor (sum_word sum.old j) (product (column j tail.now) (power log_m)) }
{
    let mut chunk = [[0; 64]];
    insert_at(&mut chunk, tail, 0);
    engine.mul_add(steps, sum, &chunk, log_m);
}

/// Puts the bytes of `count` sums of pieces in order. The first sum begins at the first chunk of `x`, and each of the
/// others begins `stride` chunks after the one before it. Then [`summed_piece`] lends them.
pub fn finish_sums(x: &mut [[u8; 64]], count: usize, stride: usize, piece_len: usize)
    requires room { count * stride ≤ length x.old }
    requires fit { row_len piece_len ≤ stride }
    requires even { piece_len % 2 ≡ 0 }
    ensures length { length x.new ≡ length x.old }
    ensures words { (d j : ℕ) → d < count → j < piece_len / 2
        → column j (shard_from x.new (d * stride) piece_len)
        ≡ word_in x.old stride (j / 32) (j % 32) d }
    ensures bytes { (d : ℕ) → d < count
        → IsShard piece_len (shard_from x.new (d * stride) piece_len) }
{
    for index in 0..count {
        move_tail_from(x, index * stride, piece_len);
    }
    parts_are_bytes(x, piece_len);
}

/// Lends the bytes of the sum that begins at chunk `start`, of sums of pieces that were finished by [`finish_sums`].
pub fn summed_piece(x: &[[u8; 64]], start: usize, piece_len: usize) -> &[u8]
    requires { start + row_len piece_len ≤ length x.now }
    ensures { result.now ≡ shard_from x.now start piece_len }
{
    shard_of(&x[start..start + row_len(piece_len)], piece_len)
}

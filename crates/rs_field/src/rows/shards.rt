//! Rows of chunks of 64 bytes, lent from one slice.
ghost use Rattle.std.specs.Prelude.{◌≡◌, ◌+◌, ◌-◌, ◌*◌, ◌<◌, ◌≤◌, ◌↔◌, length, take, drop, IsTrue};
ghost use Rattle.std.specs.Borrow.{sem};
ghost use Rattle.rs_field.specs.rows.View.{row_at, Fits, SameExtent, SameRowsOutside, AreZero, HasRows, IsListOf};
ghost use Rattle.rs_field.specs.rows.Lending.{LendsAll, LendsRun, LendsRow, LendsParts};
ghost use Rattle.rs_field.specs.rows.Lending.{LendsTwoRows, LendsFourRows, LendsHalves};

use std::cell::UnsafeCell;
use std::ops::Range;

/// A list of rows of equal length, over one lent slice. Each row is a list of chunks of 64 bytes.
#[derive(Drop)]
pub struct ShardsRefMut<'a> {
    /// The number of rows.
    pub(crate) shard_count: usize,
    /// The number of chunks of each row.
    pub(crate) shard_len_64: usize,
    /// The chunks of all rows, row after row, and then any further chunks of the lent slice.
    pub(crate) chunks: &'a mut [[u8; 64]],
    // The marker takes no bytes. Because of the marker, the checker can see from the loan of a row how writing to the
    // row changes the list of rows.
    marker: UnsafeCell<()>,
}

impl<'a> ShardsRefMut<'a> {
    /// Makes a list of `shard_count` rows of `shard_len_64` chunks each, over the first `shard_count * shard_len_64`
    /// chunks of `data`. Further chunks stay as they are.
    pub fn new(
        shard_count: usize,
        shard_len_64: usize,
        data: &'a mut [[u8; 64]],
    ) -> ShardsRefMut<'a>
        requires { shard_count * shard_len_64 ≤ length «data».old }
        ensures name { result.chunks.ghost_name ≡ «data».entry.ghost_name }
        ensures chunks { result.chunks.now ≡ «data».old }
        ensures count { result.shard_count ≡ shard_count }
        ensures len_64 { result.shard_len_64 ≡ shard_len_64 }
    {
        ShardsRefMut {
            shard_count,
            shard_len_64,
            chunks: data,
            marker: UnsafeCell::new(()),
        }
    }

    /// Returns the number of rows.
    pub fn len(&self) -> usize
        ensures { result ≡ self.now.shard_count }
    {
        self.shard_count
    }

    /// Returns whether there is no row.
    pub fn is_empty(&self) -> bool
        ensures { IsTrue result ↔ (self.now.shard_count ≡ 0) }
    {
        self.len() == 0
    }

    /// Lends rows `pos` and `pos + dist` for writing. What is written to them is in the list afterwards, and every
    /// other row is unchanged. `dist` is not 0, and both rows are in the list.
    pub fn dist2_mut(&mut self, pos: usize, dist: usize) -> (&mut [[u8; 64]], &mut [[u8; 64]])
        requires fits { Fits self.old }
        requires apart { 0 < dist }
        requires within { pos + dist < self.old.shard_count }
        ensures* lends { sem 𝓛 (LendsTwoRows self.entry pos (pos + dist) result) }
        ensures first { result.0.now ≡ row_at self.old pos }
        ensures second { result.1.now ≡ row_at self.old (pos + dist) }
    {
        let len = self.shard_len_64;
        let a = pos * len;
        let b = (pos + dist) * len;
        two_runs(self.all(), a, len, b, len)
    }

    /// Lends rows `pos`, `pos + dist`, `pos + 2 * dist` and `pos + 3 * dist` for writing. What is written to them is in
    /// the list afterwards, and every other row is unchanged. `dist` is not 0, and the four rows are in the list.
    pub fn dist4_mut(
        &mut self,
        pos: usize,
        dist: usize,
    ) -> (
        &mut [[u8; 64]],
        &mut [[u8; 64]],
        &mut [[u8; 64]],
        &mut [[u8; 64]],
    )
        requires fits { Fits self.old }
        requires apart { 0 < dist }
        requires within { pos + 3 * dist < self.old.shard_count }
        ensures* lends { sem 𝓛
            (LendsFourRows self.entry pos (pos + dist) (pos + 2 * dist) (pos + 3 * dist) result) }
        ensures first { result.0.now ≡ row_at self.old pos }
        ensures second { result.1.now ≡ row_at self.old (pos + dist) }
        ensures third { result.2.now ≡ row_at self.old (pos + 2 * dist) }
        ensures fourth { result.3.now ≡ row_at self.old (pos + 3 * dist) }
    {
        let len = self.shard_len_64;
        let a = pos * len;
        let b = (pos + 2 * dist) * len;
        let far = dist * len;
        // A span begins with one of the lent rows and ends with the next one.
        let span = far + len;
        let spans = two_runs(self.all(), a, span, b, span);
        let front = two_runs(spans.0, 0, len, far, len);
        let back = two_runs(spans.1, 0, len, far, len);
        (front.0, front.1, back.0, back.1)
    }

    /// Lends the rows before `mid` and the rows from `mid` on as two lists. What is written to them is in this list
    /// afterwards, and everything after the rows is unchanged. `mid` is at most the number of rows.
    pub fn split_at_mut(&mut self, mid: usize) -> (ShardsRefMut<'_>, ShardsRefMut<'_>)
        requires fits { Fits self.old }
        requires within { mid ≤ self.old.shard_count }
        ensures* lends { sem 𝓛 (LendsHalves self.entry mid result) }
        ensures first { HasRows self.old 0 mid result.0 }
        ensures second { HasRows self.old mid (self.old.shard_count - mid) result.1 }
    {
        let len = self.shard_len_64;
        let rest = self.shard_count - mid;
        let a = mid * len;
        two_lists(two_runs(self.all(), 0, a, a, rest * len), mid, rest, len)
    }

    /// Fills the rows of the range with zero bytes. The range ends at most at the number of rows.
    pub fn zero(&mut self, range: Range<usize>)
        requires fits { Fits self.old }
        requires ordered { range.start ≤ range.end }
        requires within { range.end ≤ self.old.shard_count }
        ensures extent { SameExtent self.old self.new }
        ensures zeros { AreZero range.start range.end self.new }
        ensures others { SameRowsOutside range.start range.end self.old self.new }
    {
        let len = self.shard_len_64;
        let chunks = &mut *self.chunks;
        for k in range.start * len..range.end * len {
            chunks[k] = [0; 64];
        }
    }

    /// Lends row `index`, which is in the list.
    pub fn row(&self, index: usize) -> &[[u8; 64]]
        requires fits { Fits self.now }
        requires within { index < self.now.shard_count }
        ensures { result.now ≡ row_at self.now index }
    {
        let start = index * self.shard_len_64;
        &self.chunks[start..start + self.shard_len_64]
    }

    /// Lends row `index`, which is in the list, for writing. What is written to it is in the list afterwards, and every
    /// other row is unchanged.
    pub fn row_mut(&mut self, index: usize) -> &mut [[u8; 64]]
        requires fits { Fits self.old }
        requires within { index < self.old.shard_count }
        ensures* lends { sem 𝓛 (LendsRow self.entry index result) }
        ensures now { result.now ≡ row_at self.old index }
    {
        let len = self.shard_len_64;
        self.run(index * len, len)
    }

    // Lends all chunks, as a loan of their own.
    fn all(&mut self) -> &mut [[u8; 64]]
        ensures* lends { sem 𝓛 (LendsAll self.entry result) }
        ensures now { result.now ≡ self.old.chunks.now }
    {
        &mut *self.chunks
    }

    // Lends the n chunks from a on, by the pointer to the chunks, as `two_runs` does.
    fn run(&mut self, a: usize, n: usize) -> &mut [[u8; 64]]
        requires { a + n ≤ length self.old.chunks.now }
        ensures* lends { sem 𝓛 (LendsRun self.entry a n result) }
        ensures now { result.now ≡ take n (drop a self.old.chunks.now) }
    {
        let all = self.all();
        let p = all.as_mut_ptr();
        unsafe { std::slice::from_raw_parts_mut(p.add(a), n) }
    }
}

// Lends the n chunks from a on and the m chunks from b on, by the pointer to the chunks: the checker does not follow a
// loan through `split_at_mut` if some of the chunks are not lent.
fn two_runs(
    chunks: &mut [[u8; 64]],
    a: usize,
    n: usize,
    b: usize,
    m: usize,
) -> (&mut [[u8; 64]], &mut [[u8; 64]])
    requires apart { a + n ≤ b }
    requires within { b + m ≤ length chunks.old }
    ensures* lends { sem 𝓛 (LendsParts chunks.entry a n b m result) }
    ensures value { (result.0.now ≡ take n (drop a chunks.old))
        × (result.1.now ≡ take m (drop b chunks.old)) }
{
    let p = chunks.as_mut_ptr();
    unsafe {
        (
            std::slice::from_raw_parts_mut(p.add(a), n),
            std::slice::from_raw_parts_mut(p.add(b), m),
        )
    }
}

// Makes a list of rows of each of two runs of chunks.
fn two_lists<'a>(
    runs: (&'a mut [[u8; 64]], &'a mut [[u8; 64]]),
    count: usize,
    rest: usize,
    len: usize,
) -> (ShardsRefMut<'a>, ShardsRefMut<'a>)
    requires first { count * len ≤ length runs.0.now }
    requires second { rest * len ≤ length runs.1.now }
    ensures first { IsListOf result.0 runs.entry.0 count len }
    ensures second { IsListOf result.1 runs.entry.1 rest len }
{
    let (first, second) = runs;
    (
        ShardsRefMut::new(count, len, first),
        ShardsRefMut::new(rest, len, second),
    )
}

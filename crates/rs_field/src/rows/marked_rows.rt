//! The rows of a transform that are used: rows whose results are wanted, or rows that may hold anything but zeros.
ghost use Rattle.std.specs.Prelude.{◌≡◌, ℕ, ◌+◌, ◌-◌, ◌^◌, ◌<◌, ◌≤◌, true, false, length};
ghost use Rattle.rs_field.specs.rows.MarkedRows.{is_marked, is_used, HasMarks};

/// The rows of a block that a transform uses. A forward transform uses the rows whose results are wanted. A backward
/// transform uses the rows that may hold anything but zeros.
#[derive(Clone, Copy, Debug, PartialEq, Eq, Hash)]
pub enum UsedRows<'a> {
    /// The first rows; the value is their number.
    First(usize),
    /// The marked rows: row i is used if mark i is true.
    Marked(&'a [bool]),
}

impl<'a> UsedRows<'a> {
    /// Returns true if no row is used. If the rows are marked, this function reads the marks up to the first used row.
    pub fn are_none(self) -> bool
        ensures none { result ≡ true → (i : ℕ) → is_used self.entry i ≡ false }
        ensures some { result ≡ false → (i : ℕ) × (is_used self.entry i ≡ true) }
    {
        match self {
            UsedRows::First(count) => count == 0,
            UsedRows::Marked(marks) => !any_marked(marks),
        }
    }

    /// Returns which of the `rows` rows from row `start` on are used. If there are marks, there is one for each of
    /// these rows.
    pub fn part(self, start: usize, rows: usize) -> UsedRows<'a>
        requires end { start + rows < 2 ^ 64 }
        requires marks { HasMarks self (start + rows) }
        ensures marks { HasMarks result rows }
        ensures used { (i : ℕ) → i < rows → is_used result i ≡ is_used self.entry (start + i) }
    {
        match self {
            UsedRows::First(count) => UsedRows::First(count.saturating_sub(start)),
            UsedRows::Marked(marks) => UsedRows::Marked(&marks[start..start + rows]),
        }
    }
}

fn any_marked(marks: &[bool]) -> bool
    ensures none { result ≡ false → (i : ℕ) → is_marked marks.now i ≡ false }
    ensures some { result ≡ true → (i : ℕ) × (is_marked marks.now i ≡ true) }
{
    for i in 0..marks.len() {
        if marks[i] {
            return true;
        }
    }
    false
}

/// Returns the number of rows up to the last marked row, and 0 if no row is marked.
pub fn marked_end(marks: &[bool]) -> usize
    ensures within { result ≤ length marks.now }
    ensures past { (i : ℕ) → result ≤ i → is_marked marks.now i ≡ false }
    ensures last { 0 < result → is_marked marks.now (result - 1) ≡ true }
{
    let mut end = 0;
    for i in 0..marks.len() {
        if marks[i] {
            end = i + 1;
        }
    }
    end
}

//! A block of a transform: rows, and the points that they belong to.
ghost use Rattle.std.specs.Prelude.{◌≡◌, ◌+◌, ◌%◌, ◌≤◌};
ghost use Rattle.rs_field.specs.code.Counts.{next_power};

/// A block of a transform: the `size` rows from `pos` on, and the points from `skew_delta` on. `size` is a power of
/// two, `skew_delta` is a multiple of `size`, and all points are below 65536.
#[derive(Clone, Copy, Debug, PartialEq, Eq, Hash)]
pub struct Block {
    /// The index of the first row.
    pub pos: usize,
    /// The number of rows.
    pub size: usize,
    /// The first point.
    pub skew_delta: usize,
    pub ghost power: { next_power size ≡ size },
    pub ghost points: { skew_delta + size ≤ 65536 },
    pub ghost aligned: { skew_delta % size ≡ 0 },
}

impl Block {
    ghost use Rattle.std.specs.Prelude.{ℕ, ◌*◌, ◌^◌, ◌<◌};
    ghost use Rattle.rs_field.specs.rows.Layers.{is_halved, rows_of_part};

    /// Makes the block of `size` rows from `pos` on and of the points from `skew_delta` on.
    pub fn new(pos: usize, size: usize, skew_delta: usize) -> Block
        requires power { (d : ℕ) × (size ≡ 2 ^ d) }
        requires shift { skew_delta % size ≡ 0 }
        requires points { skew_delta + size ≤ 65536 }
        ensures rows { result.pos ≡ pos }
        ensures size { result.size ≡ size }
        ensures shift { result.skew_delta ≡ skew_delta }
    {
        Block {
            pos,
            size,
            skew_delta,
        }
    }

    /// Returns true if a transform of this block does one layer at once, between the halves of the block, and false if
    /// it does two layers at once, between the quarters. It does one layer for 2, 8 and 32 rows. With this choice, the
    /// recursion over larger blocks ends in blocks of four rows, which take two layers at once, and not in blocks of
    /// two rows.
    #[tactic(auto, unfolding(crate::specs::rows::Layers::is_halved))]
    pub fn is_halved(self) -> bool
        ensures { result ≡ is_halved self.size }
    {
        matches!(self.size, 2 | 8 | 32)
    }

    /// Returns the number of rows of each part that is left to transform once the layers of this block are done.
    pub fn part_rows(self) -> usize
        ensures { result ≡ rows_of_part self.size }
    {
        if self.is_halved() {
            self.size / 2
        } else {
            self.size / 4
        }
    }

    /// Returns part `j` of this block, counted from 0. Each part has `rows` rows, which is the result of `part_rows`.
    pub fn part(self, j: usize, rows: usize) -> Block
        requires large { 1 < self.size }
        requires rows { rows ≡ rows_of_part self.size }
        requires begins { j * rows < self.size }
        requires end { self.pos + self.size < 2 ^ 64 }
        ensures rows { result.pos ≡ self.pos + j * rows }
        ensures size { result.size ≡ rows }
        ensures shift { result.skew_delta ≡ self.skew_delta + j * rows }
    {
        Block {
            pos: self.pos + j * rows,
            size: rows,
            skew_delta: self.skew_delta + j * rows,
        }
    }
}

//! The frame of a code: the points of its shards, and the rows of a decoder.
ghost use Rattle.std.specs.Prelude.{◌≡◌, ◌^◌, ◌<◌, ◌≤◌};
ghost use Rattle.rs_field.specs.code.Frame.{row_count, original_row, recovery_row};

/// Where the shards of a code are, at the low or the high rate. Row i of a decoder belongs to point i.
#[derive(Clone, Copy, Debug, PartialEq, Eq, Hash)]
pub struct Frame {
    /// Whether the frame is that of the low rate. If not, it is that of the high rate.
    pub is_low: bool,
    /// The exponent of the number of rows of a decoder, which is a power of two.
    pub exponent: usize,
    /// The point of original 0.
    pub originals_from: usize,
    /// The point of recovery shard 0.
    pub recovery_from: usize,
    /// The first point at which the value is known to be zero.
    pub zeros_from: usize,
    /// The end of the points at which the value is known to be zero: the first point after them.
    pub zeros_to: usize,
}

impl Frame {
    /// Returns the number of rows of a decoder.
    #[inline(always)]
    pub fn row_count(self) -> usize
        requires { self.exponent ≤ 16 }
        ensures { result ≡ row_count self }
    {
        1 << self.exponent
    }

    /// Returns the row of the original with this index.
    #[inline(always)]
    pub fn original_row(self, index: usize) -> usize
        requires { original_row self index < 2 ^ 64 }
        ensures { result ≡ original_row self index }
    {
        self.originals_from + index
    }

    /// Returns the row of the recovery shard with this index.
    #[inline(always)]
    pub fn recovery_row(self, index: usize) -> usize
        requires { recovery_row self index < 2 ^ 64 }
        ensures { result ≡ recovery_row self index }
    {
        self.recovery_from + index
    }
}

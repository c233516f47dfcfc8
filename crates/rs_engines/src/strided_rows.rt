//! Rows at equal distances in a list of chunks, as rows that are changed in place.
use rs_field::engine::ChangeRows;

/// The first chunks of rows at equal distances in a list of chunks.
#[derive(Drop)]
pub struct StridedRows<'a> {
    /// The chunks of all rows.
    pub chunks: &'a mut [[u8; 64]],
    /// The number of chunks from the first chunk of a row to that of the next one.
    pub stride: usize,
}

impl<'a> ChangeRows for StridedRows<'a> {
    ghost use Rattle.std.specs.Prelude.{ℕ, ◌+◌, ◌*◌, ◌<◌, length};
    ghost use Rattle.rs_engines.specs.StridedRows.{strided_word};

    ghost Kept = { (ℕ × ℕ) × ℕ × ℕ × ℕ };

    ghost kept = { λ x. (x.chunks.ref_ptr, x.chunks.ghost_name, x.stride, length x.chunks.now) };

    ghost has = { λ kept i k. (k < kept.2) × (i * kept.2 + k < kept.3) };

    ghost word = { λ x k s i. strided_word x.chunks.now x.stride k s i };

    #[inline(always)]
    fn chunk(&mut self, row: usize, k: usize) -> [u8; 64] {
        self.chunks[row * self.stride + k]
    }

    #[inline(always)]
    fn put_chunk(&mut self, row: usize, k: usize, chunk: &[u8; 64]) {
        self.chunks[row * self.stride + k] = *chunk;
    }
}

//! The engine that looks up products bit by bit. It is for processors without an instruction for shuffles.
//!
//! The words of a chunk are in the lanes of vectors, as in the engines by shuffles. Instead of a shuffle, a look-up
//! takes a comparison and a sum for each bit of a nibble. Two layers of butterflies are computed one after the other,
//! because a loop with three factors would spread their bytes over vectors again for each chunk.
ghost use Rattle.std.specs.Prelude.{◌≡◌};

use crate::any_factor::factor_of;
use crate::bit_vector::BitVector;
use crate::butterflies::{Backward, Forward};
use crate::shuffle_rows::{add_row, mul_chunks, one_layer};
use crate::shuffle_tables::ShuffleTables;
use rs_field::engine::GfElement;
use rs_field::engine::kernel::Kernel;
use rs_field::engine::lent_tables::LentTables;

/// An engine that looks up products bit by bit. It reads the tables `T` and allocates nothing.
///
/// The engine runs on any machine. It is the fastest engine in a build for x86-64 without SSSE3.
#[derive(Clone, Copy)]
pub struct ByBits<T: ShuffleTables> {
    tables: T,
}

impl<T: ShuffleTables> ByBits<T> {
    /// Makes the engine over these tables.
    pub fn over(tables: T) -> ByBits<T>
        ensures { result.tables ≡ tables }
    {
        ByBits { tables }
    }
}

impl<T: ShuffleTables> Kernel for ByBits<T> {
    fn tables(&self) -> LentTables<'_> {
        self.tables.transform_tables()
    }

    fn fft_butterfly(&self, x: &mut [[u8; 64]], y: &mut [[u8; 64]], log_m: GfElement) {
        let products = self.tables.products(log_m);
        one_layer::<BitVector, Forward>(x, y, factor_of(products.lend(), log_m));
    }

    fn ifft_butterfly(&self, x: &mut [[u8; 64]], y: &mut [[u8; 64]], log_m: GfElement) {
        let products = self.tables.products(log_m);
        one_layer::<BitVector, Backward>(x, y, factor_of(products.lend(), log_m));
    }

    fn mul_row(&self, x: &mut [[u8; 64]], log_m: GfElement) {
        let products = self.tables.products(log_m);
        mul_chunks::<BitVector>(x, products.lend());
    }

    fn mul_add_row(&self, x: &mut [[u8; 64]], y: &[[u8; 64]], log_m: GfElement) {
        let products = self.tables.products(log_m);
        add_row::<BitVector>(x, y, factor_of(products.lend(), log_m));
    }
}

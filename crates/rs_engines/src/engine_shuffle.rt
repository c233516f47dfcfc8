//! The engines that look up products by shuffles. The words of a chunk are in the lanes of vectors, and a product takes
//! eight look-ups of nibbles, or six if the factor is small. If several sums of at least six rows are made at once, it
//! takes four if the factors are small.
ghost use Rattle.std.specs.Prelude.{◌≡◌, ℕ};
ghost use Rattle.rs_field.specs.words.Field.{power};
ghost use Rattle.rs_field.specs.words.Products.{IsNibbleBytes};
ghost use Rattle.rs_engines.specs.Factors.{log_of};

use crate::any_factor::{AnyFactor, factor_of};
use crate::butterflies::{Backward, Forward};
use crate::byte_vector::ByteVector;
use crate::factors::ThreeFactors;
use crate::shuffle_changes::change_all;
use crate::shuffle_rows::{
    add_row, mul_chunks, one_layer, one_layer_written, two_layers, two_layers_written,
};
use crate::shuffle_sums::sum_strided;
use crate::shuffle_tables::ShuffleTables;
use crate::word_lanes::{AddWords, ReplaceWords};
use rs_field::engine::kernel::{FourRows, Kernel, ThreeLogarithms};
use rs_field::engine::lent_tables::LentTables;
use rs_field::engine::tables::{Multiply128lutT, Tables};
use rs_field::engine::{AddedRows, Change, ChangeRows, GfElement, Writing};
use std::marker::PhantomData;
use std::simd::prelude::*;

/// An engine that looks up products by shuffles of byte vectors. It reads the tables `T` and allocates nothing.
///
/// The engine runs on any machine, and is fast if the processor shuffles bytes with one instruction.
#[derive(Clone, Copy)]
pub struct ByShuffles<V: ByteVector, T: ShuffleTables> {
    tables: T,
    vectors: PhantomData<V>,
}

/// The engine with vectors of 16 bytes, the width of SSSE3. It is the fastest engine in the default build, x86-64-v2.
pub type Ssse3<'t> = ByShuffles<u8x16, &'t Tables>;

/// The engine with vectors of 32 bytes, the width of AVX2. It is the fastest engine in a build for AVX2,
/// `--cpu=x86-64-v3`.
pub type Avx2<'t> = ByShuffles<u8x32, &'t Tables>;

/// The width of the vectors of an engine.
pub trait Lanes {
    // The number of bytes of a vector of the engine.
    ghost lanes: { ℕ };
}

impl<V: ByteVector, T: ShuffleTables> Lanes for ByShuffles<V, T> {
    ghost lanes = { V.LANES };
}

impl<'t> Ssse3<'t> {
    /// Makes the engine with vectors of 16 bytes over these tables.
    ///
    /// # Examples
    ///
    /// The product of 4 and 2 is 11:
    ///
    /// ```
    /// let engine = Ssse3::new(&tables);
    /// let log_2 = get_exp_log(&tables).log[2];
    /// let mut row = [[0; 64]];
    /// row[0][0] = 4;
    /// engine.mul(&mut Steps::new(), &mut row, log_2);
    /// assert_eq!(rt; row[0][0], 11);
    /// ```
    pub fn new(tables: &'t Tables) -> Ssse3<'t>
        ensures tables { result.tables.now ≡ tables.now }
        ensures lanes { ⟦<Ssse3<'static> as Lanes>⟧.lanes ≡ 16 }
    {
        ByShuffles::over(tables)
    }
}

impl<'t> Avx2<'t> {
    /// Makes the engine with vectors of 32 bytes over these tables.
    pub fn new(tables: &'t Tables) -> Avx2<'t>
        ensures tables { result.tables.now ≡ tables.now }
        ensures lanes { ⟦<Avx2<'static> as Lanes>⟧.lanes ≡ 32 }
    {
        ByShuffles::over(tables)
    }
}

impl<V: ByteVector, T: ShuffleTables> ByShuffles<V, T> {
    /// Makes the engine over these tables.
    pub fn over(tables: T) -> ByShuffles<V, T>
        ensures { result.tables ≡ tables }
    {
        ByShuffles {
            tables,
            vectors: PhantomData,
        }
    }
}

#[inline(always)]
fn three_factors<'t>(
    p02: &'t Multiply128lutT,
    p01: &'t Multiply128lutT,
    p23: &'t Multiply128lutT,
    logs: ThreeLogarithms,
) -> ThreeFactors<AnyFactor<'t>, AnyFactor<'t>, AnyFactor<'t>>
    requires m02 { IsNibbleBytes (power logs.log_m02) p02.now }
    requires m01 { IsNibbleBytes (power logs.log_m01) p01.now }
    requires m23 { IsNibbleBytes (power logs.log_m23) p23.now }
    ensures f02 { log_of result.f02 ≡ logs.log_m02 }
    ensures f01 { log_of result.f01 ≡ logs.log_m01 }
    ensures f23 { log_of result.f23 ≡ logs.log_m23 }
{
    ThreeFactors {
        f02: factor_of(p02, logs.log_m02),
        f01: factor_of(p01, logs.log_m01),
        f23: factor_of(p23, logs.log_m23),
    }
}

impl<V: ByteVector, T: ShuffleTables> Kernel for ByShuffles<V, T> {
    fn tables(&self) -> LentTables<'_> {
        self.tables.transform_tables()
    }

    fn fft_butterfly(&self, x: &mut [[u8; 64]], y: &mut [[u8; 64]], log_m: GfElement) {
        let products = self.tables.products(log_m);
        one_layer::<V, Forward>(x, y, factor_of(products.lend(), log_m));
    }

    fn ifft_butterfly(&self, x: &mut [[u8; 64]], y: &mut [[u8; 64]], log_m: GfElement) {
        let products = self.tables.products(log_m);
        one_layer::<V, Backward>(x, y, factor_of(products.lend(), log_m));
    }

    fn fft_two_layers(
        &self,
        x0: &mut [[u8; 64]],
        x1: &mut [[u8; 64]],
        x2: &mut [[u8; 64]],
        x3: &mut [[u8; 64]],
        logs: ThreeLogarithms,
    ) {
        let p02 = self.tables.products(logs.log_m02);
        let p01 = self.tables.products(logs.log_m01);
        let p23 = self.tables.products(logs.log_m23);
        let factors = three_factors(p02.lend(), p01.lend(), p23.lend(), logs);
        two_layers::<V, Forward>(x0, x1, x2, x3, factors);
    }

    fn ifft_two_layers(
        &self,
        x0: &mut [[u8; 64]],
        x1: &mut [[u8; 64]],
        x2: &mut [[u8; 64]],
        x3: &mut [[u8; 64]],
        logs: ThreeLogarithms,
    ) {
        let p02 = self.tables.products(logs.log_m02);
        let p01 = self.tables.products(logs.log_m01);
        let p23 = self.tables.products(logs.log_m23);
        let factors = three_factors(p02.lend(), p01.lend(), p23.lend(), logs);
        two_layers::<V, Backward>(x0, x1, x2, x3, factors);
    }

    fn reads_rows(&self) -> bool {
        true
    }

    fn ifft_of_two(
        &self,
        x: &mut [[u8; 64]],
        y0: &[[u8; 64]],
        y1: &[[u8; 64]],
        log_m: GfElement,
        writing: Writing,
    ) -> bool {
        let products = self.tables.products(log_m);
        let factor = factor_of(products.lend(), log_m);
        match writing {
            Writing::Replacing => one_layer_written::<V, Backward, ReplaceWords>(x, y0, y1, factor),
            Writing::Adding => one_layer_written::<V, Backward, AddWords>(x, y0, y1, factor),
        }
        true
    }

    fn ifft_of_four(
        &self,
        x: &mut [[u8; 64]],
        y: FourRows<'_>,
        logs: ThreeLogarithms,
        writing: Writing,
    ) -> bool {
        let p02 = self.tables.products(logs.log_m02);
        let p01 = self.tables.products(logs.log_m01);
        let p23 = self.tables.products(logs.log_m23);
        let factors = three_factors(p02.lend(), p01.lend(), p23.lend(), logs);
        match writing {
            Writing::Replacing => two_layers_written::<V, Backward, ReplaceWords>(x, y, factors),
            Writing::Adding => two_layers_written::<V, Backward, AddWords>(x, y, factors),
        }
        true
    }

    fn mul_row(&self, x: &mut [[u8; 64]], log_m: GfElement) {
        let products = self.tables.products(log_m);
        mul_chunks::<V>(x, products.lend());
    }

    fn mul_add_row(&self, x: &mut [[u8; 64]], y: &[[u8; 64]], log_m: GfElement) {
        let products = self.tables.products(log_m);
        add_row::<V>(x, y, factor_of(products.lend(), log_m));
    }

    fn add_rows<A: AddedRows>(
        &self,
        x: &mut [[u8; 64]],
        stride: usize,
        rows: &A,
        writing: Writing,
    ) -> bool {
        sum_strided::<V, T, A>(&self.tables, x, stride, rows, writing);
        true
    }

    fn add_change<R: ChangeRows>(
        &self,
        rows: &mut R,
        change: Change<'_>,
        logs: &[GfElement],
    ) -> bool {
        change_all::<V, T, R>(&self.tables, rows, change, logs);
        true
    }
}

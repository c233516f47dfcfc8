//! The tables that an engine by shuffles reads. They are [`Tables`], or tables in other memory.
ghost use Rattle.std.specs.Prelude.{◌≡◌};
ghost use Rattle.rs_field.specs.words.Field.{power};
ghost use Rattle.rs_field.specs.words.Products.{IsNibbleBytes};
ghost use Rattle.rs_engines.specs.Factors.{products_of};

use rs_field::engine::GfElement;
use rs_field::engine::lent_tables::LentTables;
use rs_field::engine::tables::{Multiply128lutT, Tables, get_mul128};

/// The products with one factor, or a reference to them.
#[derive(Drop)]
pub enum Products<'t> {
    /// A reference to products in a table.
    Lent(&'t Multiply128lutT),
    /// Products that are not in a table in this form.
    Held(Multiply128lutT),
}

impl Products<'_> {
    /// Lends the products.
    #[inline(always)]
    pub fn lend(&self) -> &Multiply128lutT
        ensures { result.now ≡ products_of self.now }
    {
        match self {
            Products::Lent(products) => products,
            Products::Held(products) => products,
        }
    }
}

/// Tables that an engine by shuffles reads.
pub trait ShuffleTables: Copy + Drop {
    /// Returns the tables that transforms and locators read.
    fn transform_tables(&self) -> LentTables<'_>;

    /// Returns the products with the generator to the power `log_m`.
    fn products(&self, log_m: GfElement) -> Products<'_>
        ensures { IsNibbleBytes (power log_m) (products_of result) };
}

impl ShuffleTables for &Tables {
    #[inline(always)]
    fn transform_tables(&self) -> LentTables<'_> {
        self.lent()
    }

    #[inline(always)]
    fn products(&self, log_m: GfElement) -> Products<'_> {
        Products::Lent(&get_mul128(self)[log_m as usize])
    }
}

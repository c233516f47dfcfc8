//! Counts of steps that only proofs read: they take no bytes, and counting does nothing when it runs.
ghost use Rattle.std.specs.Prelude.{◌≡◌, ℕ, ◌+◌};
ghost use Rattle.std.specs.Borrow.{ftrue};

use std::marker::{Model, PhantomData};

/// Counts of row steps, pair sums and products, for proofs only: three whole numbers without an upper limit.
///
/// A row step is one butterfly on two rows, or one sum, product, copy, clearing, tail move or test for zero of a row. A
/// pair sum is one sum with its difference modulo 65535, and a product one product modulo 65535. A running program
/// cannot read a count, and no call of `Steps` lowers one.
#[derive(Drop)]
pub struct Steps {
    marker: PhantomData<u8>,
    pub ghost row_steps: { ℕ },
    pub ghost pair_sums: { ℕ },
    pub ghost products: { ℕ },
}

impl Model for Steps {
    ghost also_owns = { λ _. ftrue };
}

impl Default for Steps {
    ghost use Rattle.std.specs.Prelude.{◌≡◌};

    ghost is_default = { λ steps. (steps.row_steps ≡ 0) × (steps.pair_sums ≡ 0)
        × (steps.products ≡ 0) };

    fn default() -> Steps {
        Steps::new()
    }
}

impl Steps {
    /// Makes counts that are zero.
    pub fn new() -> Steps
        ensures { (result.row_steps ≡ 0) × (result.pair_sums ≡ 0) × (result.products ≡ 0) }
    {
        Steps {
            marker: PhantomData,
        }
    }

    // Counts these numbers of row steps, pair sums and products.
    #[inline(always)]
    fn count(&mut self, row_steps: usize, pair_sums: usize, products: usize)
        ensures { (self.new.row_steps ≡ self.old.row_steps + row_steps)
            × (self.new.pair_sums ≡ self.old.pair_sums + pair_sums)
            × (self.new.products ≡ self.old.products + products) }
    {}

    /// Counts one row step.
    #[inline(always)]
    pub fn row_step(&mut self)
        ensures { (self.new.row_steps ≡ self.old.row_steps + 1)
            × (self.new.pair_sums ≡ self.old.pair_sums) × (self.new.products ≡ self.old.products) }
    {
        self.count(1, 0, 0);
    }

    /// Counts one row step for each of `rows` rows.
    #[inline(always)]
    pub(crate) fn row_steps(&mut self, rows: usize)
        ensures { (self.new.row_steps ≡ self.old.row_steps + rows)
            × (self.new.pair_sums ≡ self.old.pair_sums) × (self.new.products ≡ self.old.products) }
    {
        self.count(rows, 0, 0);
    }

    /// Counts one pair sum.
    #[inline(always)]
    pub fn pair_sum(&mut self)
        ensures { (self.new.row_steps ≡ self.old.row_steps)
            × (self.new.pair_sums ≡ self.old.pair_sums + 1)
            × (self.new.products ≡ self.old.products) }
    {
        self.count(0, 1, 0);
    }

    /// Counts `sums` pair sums.
    #[inline(always)]
    pub(crate) fn pair_sums(&mut self, sums: usize)
        ensures { (self.new.row_steps ≡ self.old.row_steps)
            × (self.new.pair_sums ≡ self.old.pair_sums + sums)
            × (self.new.products ≡ self.old.products) }
    {
        self.count(0, sums, 0);
    }

    /// Counts one product.
    #[inline(always)]
    pub fn product(&mut self)
        ensures { (self.new.row_steps ≡ self.old.row_steps)
            × (self.new.pair_sums ≡ self.old.pair_sums)
            × (self.new.products ≡ self.old.products + 1) }
    {
        self.count(0, 0, 1);
    }
}

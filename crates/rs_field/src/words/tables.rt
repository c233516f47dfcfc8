//! The tables of the field, made at run time and lent.
ghost use Rattle.std.specs.Prelude.{◌≡◌, ◌+◌, ◌-◌, ◌*◌, ◌/◌, ◌%◌, ◌^◌, ◌<◌, ◌≤◌, length};
ghost use Rattle.std.specs.Prelude.{slice_index, vec_len, IfOk, IfErr, OnOk, ℕ};
ghost use Rattle.rs_field.specs.words.Field.{power};
ghost use Rattle.rs_field.specs.words.Tables.{IsExpLog, IsLog, IsLogWalsh, IsLogWalshBelow, AreLogWalshes, IsSkew};
ghost use Rattle.rs_field.specs.words.Products.{IsMul16, IsMul128};
ghost use Rattle.rs_field.specs.words.Walsh.{IsWalsh, log_or_zero};

use super::fwht::{fwht, residue};
use super::lent_tables::LentTables;
pub use super::products::{add_mod, mul};
pub use super::table_types::{Exp, ExpLog, Log, LogWalsh, Mul16, Mul128, Multiply128lutT, Skew};
use super::{GF_BITS, GF_MODULUS, GF_ORDER, GfElement, Steps, mul16, mul128, powers};
use crate::code::error::Error;
use std::alloc::{AllocError, Global};

/// All tables. They are made once and lent to engines. They take 17,432,572 bytes.
#[derive(Drop)]
pub struct Tables {
    exp_log: ExpLog,
    skew: Vec<GfElement>,
    log_walsh: Vec<GfElement>,
    mul16: Vec<[[GfElement; 16]; 4]>,
    mul128: Vec<Multiply128lutT>,
    pub ghost exp_log_entries: { IsExpLog exp_log.exp.items exp_log.log.items },
    pub ghost skew_entries: { IsSkew skew.items },
    pub ghost log_walsh_entries: { AreLogWalshes log_walsh.items },
    pub ghost mul16_entries: { IsMul16 mul16.items },
    pub ghost mul128_entries: { IsMul128 mul128.items },
}

impl Tables {
    /// Makes all tables. It takes 9 to 30 ms.
    ///
    /// # Errors
    ///
    /// [`Error::OutOfMemory`] if the tables cannot be allocated.
    pub fn new(alloc: Global) -> Result<Tables, Error>
        ensures { IfErr result (λ e. e ≡ Error.OutOfMemory) }
    {
        let exp_log = powers::exp_log_table(alloc)?;
        let skew = skew_table(alloc, &exp_log)?;
        let log_walsh = log_walsh_table(alloc, &exp_log.log)?;
        let mul16 = mul16::mul16_table(alloc, &exp_log)?;
        let mul128 = mul128::mul128_table(alloc, &mul16)?;
        Ok(Tables {
            exp_log,
            skew,
            log_walsh,
            mul16,
            mul128,
        })
    }

    /// Returns the tables that transforms and locators read.
    #[inline(always)]
    pub fn lent(&self) -> LentTables<'_> {
        LentTables {
            skew: self.skew.as_slice(),
            log_walsh: self.log_walsh.as_slice(),
        }
    }
}

/// Returns the tables of powers and logarithms.
pub fn get_exp_log(tables: &Tables) -> &ExpLog
    ensures { IsExpLog result.now.exp.items result.now.log.items }
{
    &tables.exp_log
}

/// Returns the table of the factors of butterflies.
pub fn get_skew(tables: &Tables) -> Skew<'_>
    ensures { IsSkew result.now }
{
    tables.skew.as_slice()
}

/// Returns the transform of all 65536 logarithms, for locators at all points.
pub fn get_log_walsh(tables: &Tables) -> LogWalsh<'_>
    ensures { IsLogWalsh result.now }
{
    tables.lent().log_walsh()
}

/// Returns the transform of the logarithms of the words below `points`, each times 65536 / `points`, for locators at as
/// many points. `points` is a power of two, at most 65536.
pub fn get_log_walsh_below(tables: &Tables, points: usize) -> LogWalsh<'_>
    requires power { (d : ℕ) × (points ≡ 2 ^ d) }
    requires few { points ≤ 65536 }
    ensures { IsLogWalshBelow points result.now }
{
    tables.lent().log_walsh_below(points)
}

/// Returns the table of products as words.
pub fn get_mul16(tables: &Tables) -> Mul16<'_>
    ensures { IsMul16 result.now }
{
    tables.mul16.as_slice()
}

/// Returns the table of products as bytes.
pub fn get_mul128(tables: &Tables) -> Mul128<'_>
    ensures { IsMul128 result.now }
{
    tables.mul128.as_slice()
}

// Returns the even number 2u, where j is an odd number 2u + 1 times a power of two.
fn skew_word(j: GfElement) -> GfElement
    requires { 0 < j }
    ensures { (d : ℕ) → (u : ℕ) → j ≡ (2 * u + 1) * 2 ^ d → result ≡ 2 * u }
{
    let mut odd = j;
    while odd % 2 == 0 {
        odd /= 2;
    }
    odd - 1
}

// Makes the table of the factors of butterflies. In these coordinates, a subspace polynomial of degree 2 ^ d shifts its
// argument by d places, so each entry is one look-up: the value at j - 2 ^ d is the odd part of j, less one.
fn skew_table(alloc: Global, exp_log: &ExpLog) -> Result<Vec<GfElement>, AllocError>
    requires { IsExpLog exp_log.now.exp.items exp_log.now.log.items }
    ensures { IfOk result (λ v. IsSkew v.items) }
{
    let mut table = Vec::with_capacity(alloc, GF_ORDER - 1)?;
    for i in 0..GF_MODULUS {
        let word = skew_word(i + 1);
        table.push(exp_log.log[word as usize])?;
    }
    Ok(table)
}

// Makes the transforms of the logarithms of the words below each power of two, one after the other. No step is counted
// for these transforms.
fn log_walsh_table(alloc: Global, log: Log<'_>) -> Result<Vec<GfElement>, AllocError>
    requires { IsLog log.now }
    ensures { IfOk result (λ v. AreLogWalshes v.items) }
{
    let mut table = Vec::with_capacity(alloc, 2 * GF_ORDER - 1)?;
    for places in 0..GF_BITS + 1 {
        push_log_walsh(&mut table, log, 1 << places)?;
    }
    Ok(table)
}

// Appends the transform of the logarithms of the words below `points` to the transforms that are in the table already.
fn push_log_walsh(table: &mut Vec<GfElement>, log: Log<'_>, points: usize) -> Result<(), AllocError>
    requires log { IsLog log.now }
    requires power { (d : ℕ) × (points ≡ 2 ^ d) }
    requires few { points ≤ 65536 }
    requires room { vec_len table.old + points < 2 ^ 32 }
    ensures length { OnOk result (vec_len table.new ≡ vec_len table.old + points) }
    ensures before { OnOk result
        ((i : ℕ) → i < vec_len table.old
        → slice_index table.new.items i ≡ slice_index table.old.items i) }
    ensures entries { OnOk result
        (IsWalsh points (λ z. 65536 / points * log_or_zero z)
        (λ w. slice_index table.new.items (vec_len table.old + w))) }
{
    let from = table.len();
    push_logs(table, log, points)?;
    let (_, last) = table.split_at_mut(from);
    fwht(&mut Steps::new(), last, points);
    Ok(())
}

// Appends the logarithms of the words below `points` to the entries of the table, each times 65536 / points: the two
// transforms of a locator multiply by `points`, and 65536 is one modulo 65535.
fn push_logs(table: &mut Vec<GfElement>, log: Log<'_>, points: usize) -> Result<(), AllocError>
    requires log { IsLog log.now }
    requires some { 0 < points }
    requires few { points ≤ 65536 }
    requires room { vec_len table.old + points < 2 ^ 32 }
    ensures length { OnOk result (vec_len table.new ≡ vec_len table.old + points) }
    ensures before { OnOk result
        ((i : ℕ) → i < vec_len table.old
        → slice_index table.new.items i ≡ slice_index table.old.items i) }
    ensures entries { OnOk result ((z : ℕ) → z < points
        → slice_index table.new.items (vec_len table.old + z) % 65535
        ≡ 65536 / points * log_or_zero z % 65535) }
{
    let factor = (GF_ORDER / points) as u32;
    for z in 0..points {
        table.push(residue(factor * u32::from(log_at(log, z))))?;
    }
    Ok(())
}

fn log_at(log: Log<'_>, z: usize) -> GfElement
    requires log { IsLog log.now }
    requires word { z < 65536 }
    ensures { result ≡ log_or_zero z }
{
    if z == 0 { 0 } else { log[z] }
}

//! The types of the tables of the field.

use super::GfElement;

/// A lent table of 65536 powers of the generator.
pub type Exp<'a> = &'a [GfElement];

/// A lent table of 65536 logarithms. The entry of 0, which has no logarithm, is 65535.
pub type Log<'a> = &'a [GfElement];

/// A lent table of the 65535 factors of butterflies, as logarithms. 65535 marks the factor zero.
pub type Skew<'a> = &'a [GfElement];

/// A lent table of n entries, a power of two: the Walsh-Hadamard transform of the logarithms of the words below n, each
/// times 65536 / n. The logarithm of 0 counts as 0.
///
/// The entries are residues modulo 65535: 0 and 65535 both represent zero.
pub type LogWalsh<'a> = &'a [GfElement];

/// A lent table of 65536 entries. Entry m holds the products with the generator to the power m: word i of list n is the
/// product of the word `i << 4n`.
pub type Mul16<'a> = &'a [[[GfElement; 16]; 4]];

/// A lent table of 65536 entries. Entry m holds the products with the generator to the power m, as bytes.
pub type Mul128<'a> = &'a [Multiply128lutT];

/// The products of one factor with the words 0 to 15, shifted by zero, one, two and three nibbles.
#[derive(Clone, Debug, Drop, PartialEq, Eq, Hash)]
pub struct Multiply128lutT {
    /// Byte i of number n, the lowest first, is the low byte of the product of `i << 4n`.
    pub lo: [u128; 4],
    /// Byte i of number n, the lowest first, is the high byte of the product of `i << 4n`.
    pub hi: [u128; 4],
}

/// The tables of powers and logarithms.
#[derive(Drop)]
pub struct ExpLog {
    /// Entry n is the generator to the power n, for n up to 65535.
    pub exp: Vec<GfElement>,
    /// Entry z is the logarithm of z, for z up to 65535. Entry 0 is 65535.
    pub log: Vec<GfElement>,
}

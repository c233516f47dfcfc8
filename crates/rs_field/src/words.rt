//! Words: constants of the field, tables, the locator, and the count of steps. It imports from other folders
//! only the type `Error`.
mod fwht;
pub mod lent_tables;
pub mod locating;
pub(crate) mod logarithms;
mod mul128;
mod mul16;
mod powers;
pub mod products;
mod steps;
pub mod table_types;
pub mod tables;
mod walsh_lanes;

pub use steps::Steps;

/// An element of the field: a word of 16 coordinates.
pub type GfElement = u16;

/// The number of coordinates of an element.
pub const GF_BITS: usize = 16;

/// The number of elements of the field.
pub const GF_ORDER: usize = 65536;

/// The number of nonzero elements of the field, which is the modulus of their logarithms.
pub const GF_MODULUS: GfElement = 65535;

/// The polynomial that products of bits are reduced by.
pub const GF_POLYNOMIAL: usize = 0x1002D;

/// The polynomials that the words 1, 2, 4, .., 0x8000 represent, each as the word of its coefficients.
pub const CANTOR_BASIS: [GfElement; GF_BITS] = [
    0x0001, 0xACCA, 0x3C0E, 0x163E, 0xC582, 0xED2E, 0x914C, 0x4012, 0x6C98, 0x10D8, 0x6A72, 0xB900,
    0xFDB8, 0xFB34, 0xFF38, 0x991E,
];

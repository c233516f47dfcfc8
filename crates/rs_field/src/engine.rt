//! What engines are made of, at its public paths.
pub use crate::rows::adding::AddedRows;
pub use crate::rows::changing::{Change, ChangeRows};
pub use crate::rows::engine::Engine;
pub use crate::rows::read_blocks::{add_ifft_of_many, ifft_of_many};
pub use crate::rows::read_transform::ifft_of_rows;
pub use crate::rows::reading::{ReadRows, Writing};
pub use crate::rows::row_changes::change_rows;
pub use crate::rows::row_sums::write_sums;
pub use crate::rows::{
    Naive, ShardsRefMut, block, byte_chunks, derivative, engine_naive, kernel, layout, marked_rows,
    rows, shards, symbols, transform, vectors,
};
pub use crate::words::{
    CANTOR_BASIS, GF_BITS, GF_MODULUS, GF_ORDER, GF_POLYNOMIAL, GfElement, Steps, lent_tables,
    tables,
};

/// Row functions and the locator, which engines share.
pub mod utils {
    pub use crate::rows::adding::{clear, prepare};
    pub use crate::rows::sums::{xor, xor_within};
    pub use crate::words::locating::{eval_poly, locate};
}

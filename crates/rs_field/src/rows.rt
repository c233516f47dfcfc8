//! Rows of chunks: how they are lent, laid out, summed and transformed, the trait `Engine`, and the plain engine. Of
//! this crate, these modules import only from `words`.
pub mod adding;
pub mod block;
pub mod byte_chunks;
pub mod bytes;
pub mod changing;
pub mod derivative;
pub mod engine;
pub mod engine_naive;
pub mod kernel;
mod kernel_engine;
mod layers;
pub mod layout;
pub mod marked_rows;
pub mod read_blocks;
pub mod read_transform;
pub mod reading;
pub mod row_changes;
pub mod row_sums;
pub mod rows;
pub mod shards;
pub mod sums;
pub mod symbols;
pub mod transform;
pub mod vectors;

pub use engine_naive::Naive;
pub use shards::ShardsRefMut;

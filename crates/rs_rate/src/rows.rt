//! The rows of encoders and decoders, in which shards are added and results are found. These modules may import from
//! `values`, and `values` may not import from them.
pub mod decoder_work;
pub mod encoder_work;
pub mod marks;
pub mod memory;
pub mod object_rows;
pub mod shard_rows;

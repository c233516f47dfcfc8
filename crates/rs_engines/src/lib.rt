//! Engines that look up products by nibbles: one at a time, by shuffles, or bit by bit. One more engine is chosen by
//! name.
#![tactic(auto)]

pub mod any_factor;
mod basis;
mod bit_vector;
pub mod butterflies;
pub mod byte_vector;
pub mod engine_bits;
pub mod engine_default;
pub mod engine_nosimd;
pub mod engine_shuffle;
pub mod factors;
mod group_sums;
mod pair_sums;
mod read_chunks;
mod row_factors;
mod shuffle_changes;
mod shuffle_chunks;
pub mod shuffle_rows;
mod shuffle_sums;
pub mod shuffle_tables;
mod strided_rows;
mod sum_bases;
mod twisted_chunks;
mod twisted_rows;
mod twisted_words;
mod whole_rows;
mod word_lanes;

//! The passes over rows that encode and decode. These modules may import from `rows` and `values`, which may not import
//! from them.
pub mod base_sums;
pub mod changes;
pub mod decoding;
pub mod direct;
pub mod encoding;
pub mod high_encoding;
pub mod locators;
pub mod low_encoding;
pub mod message_encoding;
pub mod read_encoding;
pub mod restoring_rows;
pub mod strip_message;
pub mod sums;

//! The format of volumes, and the coding of blocks that are read and written piece by piece.
//!
//! A volume holds blocks of files, and recovery blocks that restore lost blocks. This crate opens no file: it reads and
//! writes blocks with the traits `BlockSource` and `BlockSink`.
#![tactic(auto)]

pub mod checking;
pub mod coding_error;
pub mod creating;
pub mod description;
pub mod digest;
pub mod fault;
pub mod first;
pub mod found;
pub mod hasher;
pub mod hashing;
mod names;
mod numbers;
mod opening;
mod outputs;
pub mod part;
pub mod pieces;
pub mod placement;
mod reading;
pub mod record;
pub mod restoring;
mod writing;

pub use reading::read_description;
pub use writing::write_description;

//! A set on a disk: where its blocks are, and how its files are restored from them.
//!
//! This crate looks for the blocks of a set in its files, in volumes and in other files. It also chooses how the data
//! of a set is cut into blocks.
#![tactic(auto)]

pub mod cutting;
pub mod file_scan;
pub mod one_entry;
pub mod restoring;
pub mod rolling;
pub mod scanning;
pub mod searching;
pub mod targets;

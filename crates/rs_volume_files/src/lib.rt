//! Volumes as files: how their bytes are laid out, read and written.
//!
//! This crate finds the description of a set and the blocks in volumes of both versions of the format, which may be
//! damaged, and writes new volumes.
#![tactic(auto)]

pub mod assembly;
pub mod first;
pub mod layout;
pub mod records;
pub mod scanner;
pub mod volume;
pub mod volume_scan;
pub mod volume_sink;

//! The files of folders: how they are found, named, read and written.
//!
//! This crate knows paths and the system, and the entries of a set. It reads blocks from files at given places, and
//! gives new files their names only when they are whole. It does not know how a volume is laid out.
#![tactic(auto)]

pub mod counted;
pub mod failure;
pub mod folders;
pub mod hashing;
pub mod identity;
pub mod leftovers;
pub mod names;
pub mod output;
pub mod placing;
pub mod progress;
pub mod runs;
pub mod source;
pub mod walking;

//! The calls of the interface for C, as functions that are generic over the engine: coding over buffers and over arrays
//! of shards, faults as numbers and as texts, and the tables in memory of a C program.
#![tactic(auto)]

mod alone;
mod buffer_rooms;
mod buffers;
pub mod decoding;
pub mod encoding;
pub mod fault;
mod fault_places;
pub mod layouts;
pub mod made_tables;
mod marked_buffers;
mod receiving;
pub mod reconstructing;
pub mod tables;
pub mod text;
pub mod updating;
pub mod verifying;
mod writing;

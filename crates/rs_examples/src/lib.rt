//! Callers of the library, whose proofs use only its contracts: round trips, objects, results, stripes of a file, lent
//! rows, updates of recovery shards, and every public path.
#![tactic(auto)]

pub mod adding;
pub mod block_round_trip;
pub mod blocks;
pub mod callers;
pub mod descriptions;
pub mod file_round_trip;
pub mod lent_rows;
pub mod levels;
pub mod message_round_trip;
pub mod one_call;
pub mod plain_callers;
pub mod rate_round_trip;
pub mod reconstruct_round_trip;
pub mod round_trip;
pub mod stripes;
pub mod surface;
pub mod updating;
pub mod walking;

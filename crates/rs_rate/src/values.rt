//! What follows from counts and a shard size: whether a rate supports them, and how many rows there are. These modules
//! import from no other folder of the crate.
pub mod configuration;
pub mod frames;
pub mod rate_marker;
pub mod supported_counts;

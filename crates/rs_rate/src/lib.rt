//! Rates of the code: their encoders, decoders, works and results.
#![tactic(auto)]

mod objects;
mod passes;
pub mod rate;
mod rows;
mod values;

pub use objects::decoder_result::{DecoderResult, RestoredOriginal};
pub use objects::encoder_result::{EncoderResult, Recovery};

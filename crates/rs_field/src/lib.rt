//! The field of 65536 elements, its tables, rows, and the plain engine.
#![tactic(auto)]

mod code;
pub mod engine;
mod rows;
mod words;
pub mod worked;

pub use code::{error, frame};
pub use rows::bytes;

/// Laws of the code, and of how shards lie in rows, as contracts of functions that do nothing.
pub mod laws {
    pub use crate::code::laws::{
        code_laws, codeword_laws, count_laws, direct_laws, field_constants, field_laws, point_laws,
        recovery_laws, round_trip_laws,
    };
    pub use crate::rows::layout::layout_laws;
}

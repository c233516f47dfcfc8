//! The code: its errors, the frame of its points and rows, and its laws, which are contracts of functions that do
//! nothing. This module depends on `words`.
pub mod error;
pub mod frame;
pub mod laws;

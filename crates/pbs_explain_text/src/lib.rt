//! The text that says why an action fired, or that it didn't.
#![tactic(auto)]

mod lines;
mod spans;

pub use lines::{write_explanation, write_silence};

//! Writes the canonical text of a specification, which reads back.
#![tactic(auto)]

mod exprs;
pub mod laws;
mod lines;
mod pieces;
mod terms;

pub use lines::print_spec;

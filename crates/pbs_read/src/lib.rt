//! Reads the text of a specification.
#![tactic(auto)]

mod decls;
pub mod laws;
mod spec;

pub use spec::read_spec;

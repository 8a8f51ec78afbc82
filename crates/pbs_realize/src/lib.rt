//! The netlist of a specification that breaks no rule.
#![tactic(auto)]

mod coding;
pub mod laws;
mod names;
mod realizing;
mod tidying;

pub use realizing::realize;

//! The model: derivations over the expanded tree of main, and their laws.
#![tactic(auto)]

pub mod laws;

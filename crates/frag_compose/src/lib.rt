//! From the tree of main to its circuit. The wires that say which nodes end and where derivations stand are made from
//! the leaves up; then, from the root down, the wires that say where each leaf is begun.
#![tactic(auto)]

mod circuit;
mod descend;
mod nodes;
mod plan;
mod rise;

pub use circuit::{Composed, compose};

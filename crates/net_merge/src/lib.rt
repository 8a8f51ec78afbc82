//! Netlists in which registers that take one gate are read as the first of them. `specs/` says what such a netlist
//! does beside the one that it was made from.
#![tactic(auto)]

mod copies;
mod firsts;
mod whole;

pub use whole::merge;

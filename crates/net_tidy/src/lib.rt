//! Makes netlists small: a netlist with the same ports and registers and the same values in every row, with fewer
//! gates.
#![tactic(auto)]

mod draft;
mod fold;
mod form;
mod key;
pub mod laws;
mod mark;
mod pool;
mod shrink;
mod sweep;
mod whole;

pub use whole::tidy;

//! Elaborates raw netlists: the netlist that one stands for, or the first of rules 4 to 8 that it breaks.
#![tactic(auto)]

mod assemble;
mod check;
pub mod laws;
mod ports;
mod registers;

pub use assemble::elaborate;

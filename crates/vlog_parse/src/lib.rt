//! Reads the tokens of a netlist in the structural subset of Verilog, up to the names that stand in it.
#![tactic(auto)]

mod gates;
pub mod laws;
mod parse;
mod stack;
mod state;
mod step;
mod units;
mod words;

pub use parse::read_tokens;

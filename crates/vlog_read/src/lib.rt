//! Reads netlists from their text as structural Verilog: the netlist that a text stands for, or the first of rules 1 to
//! 8 that it breaks.
#![tactic(auto)]

pub mod laws;
mod parse;
mod read;

pub use parse::parse_netlist;
pub use read::read_netlist;
pub use vlog_text::VlogFail;

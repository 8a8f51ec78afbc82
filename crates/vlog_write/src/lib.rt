//! Writes a netlist as Verilog; and the laws that what is written reads back, and that it is short where the netlist is
//! small.
#![tactic(auto)]

pub mod laws;
mod lines;
mod names;
mod text;

pub use text::write_netlist;

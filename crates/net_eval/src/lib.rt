//! A simulator of netlists, and the law that each row of a netlist has exactly one assignment.
#![tactic(auto)]

mod chains;
mod events;
mod flat;
mod gates;
pub mod laws;
mod marks;
mod readers;
mod sim;

pub use readers::Fanout;
pub use sim::Sim;

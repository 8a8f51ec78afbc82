//! Netlists of Boolean gates and clocked registers, a builder of them, and the codes by which registers tell places.
//! `specs/` says what the rows and the runs of a netlist are.
#![tactic(auto)]

mod builder;
mod codes;
mod gate;
pub mod laws;
mod netlist;

pub use builder::Builder;
pub use codes::{Code, CodePlan, GroupList, Literal, Literals, Places, StateMap};
pub use gate::{Gate, GateKind, Gates, Pins, Wire, Wires};
pub use netlist::{Netlist, Output, Outputs};

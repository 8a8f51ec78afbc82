//! What the names of a raw netlist stand for, and where rules 4, 5, 7 and 8 are broken first.
#![tactic(auto)]

mod checks;
mod driving;
mod entering;
mod firsts;
mod kinds;
mod naming;
mod note;
mod numbers;
mod resolving;
mod rows;
mod wires;

pub use resolving::{Resolved, resolve};
pub use wires::Numbers;

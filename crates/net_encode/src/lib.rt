//! Netlists whose places share registers by codes. `specs/` says what the codes of a plan are, and what such a netlist
//! does beside the one that it was made from.
#![tactic(auto)]

mod codes;
mod decode;
mod draft;
mod moving;
mod seats;
mod sharing;
mod stages;
mod telling;
mod whole;

pub use whole::encode;

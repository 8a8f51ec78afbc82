//! The checks of a specification that has been read: rules 5 to 11, 18 and 19.
#![tactic(auto)]

mod checking;
mod circles;
mod declaring;
mod facts;
mod fail;
mod graph;
pub mod laws;
mod least;
mod named;
mod order;
mod recursion;
mod rules;
mod searching;
mod settling;
mod tables;
mod uses;
mod walks;

pub use checking::check_spec;
pub use fail::Check;

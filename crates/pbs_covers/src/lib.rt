//! What main covers, by tables of its nodes over a whole run.
#![tactic(auto)]

pub mod grid;
mod step;
mod tables;

pub use tables::{covers, truths};

//! The commands of the program, over a shelf of files and a sink that are lent to it.
#![tactic(auto)]

mod command;
mod first;
mod job;
pub mod laws;
mod status;
mod top;

pub use top::run;

//! The expansion of a specification into the tree of main, within its limits.
#![tactic(auto)]

mod build;
mod expansion;
mod fail;
mod growth;
pub mod laws;
mod parts;
mod terms;

pub use expansion::expand;
pub use fail::Expand;

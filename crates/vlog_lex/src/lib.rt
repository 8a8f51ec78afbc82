//! Cuts the text of a netlist into its tokens.
#![tactic(auto)]

mod piece;
mod tokens;

pub use tokens::tokens_of;

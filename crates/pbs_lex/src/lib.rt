//! Cuts the text of a specification into its tokens.
#![tactic(auto)]

mod piece;
mod tokens;

pub use tokens::tokens_of;

//! Reads the terms and expressions of a text by recursive descent over its tokens.
#![tactic(auto)]

mod common;
mod exprs;
mod mark;
mod nodes;
mod terms;

pub use common::{behind, expect, front, second, stop, word};
pub use exprs::{Part, expr};
pub use mark::Mark;

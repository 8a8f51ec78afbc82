//! The overlap rule (docs/LANGUAGE.md): which scope of main breaks it, and which places are together. Where none breaks
//! it, no scope is begun again while it is live. And the rules that a tree with scopes has to keep.
#![tactic(auto)]

mod checking;
mod fail;
mod joint;
pub mod laws;
mod lowest;
mod pairs;
mod planning;
mod ranges;
mod rules;
mod search;
mod steps;

pub use checking::check_overlap;
pub use fail::{OverlapFail, TreeFail};
pub use pairs::Pairs;
pub use rules::check_tree;

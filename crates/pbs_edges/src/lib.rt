//! The follow edges of the tree of main, its effective terms, and the law that the overlap rule is sound.
#![tactic(auto)]

mod counts;
mod edge;
mod ends;
mod fail;
mod finding;
pub mod laws;
mod terms;

pub use edge::{Edge, EdgeList, Edges, Places};
pub use fail::EdgeFail;
pub use finding::edges;
pub use terms::{TermTable, Terms, find_terms};

//! Decision diagrams of Boolean terms over the inputs 0 to 63: reduced and shared, ordered by the inputs' numbers.
#![tactic(auto)]

mod apart;
mod least;
mod node;
mod store;

pub use node::Node;
pub use store::Store;

//! Specifications as they are written, and the expanded tree of main that they stand for.
#![tactic(auto)]

mod main_tree;
mod syntax;
mod tree;

pub use main_tree::Main;
pub use syntax::{
    Decl, Decls, Expr, Items, Kind, Level, Levels, Prod, Prods, Set, Sets, Spec, SpecTerm,
    TermItems,
};
pub use tree::{Tree, TreeKind, first_wide};

//! The text that says which registers tell each place: docs/FORMATS.md, "Map".
#![tactic(auto)]

mod lines;
mod spans;

pub use lines::write_map;

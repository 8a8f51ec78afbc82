//! What `soak` runs: docs/FORMATS.md, "Soak". The specification for a number, the vectors of its run, in how many rows
//! the outputs are 1, and the line that says so.
#![tactic(auto)]

mod counting;
mod line;
mod text;
mod vectors;

pub use counting::{Counts, count_rows};
pub use line::write_line;
pub use text::write_spec;

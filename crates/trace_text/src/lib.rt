//! The texts beside a run: the trace that is read, in whatever pieces it comes, and the lines of the report.
#![tactic(auto)]

mod answers;
mod held;
mod line;
mod names;
mod reader;
mod row;

pub use answers::{Head, Row};
pub use held::Held;
pub use reader::TraceReader;
pub use row::{hold_end, hold_row};

//! Worked rows as plain text: reads files of rows, puts each row to a subject, and compares what comes with what the
//! row says. The notation is in docs/ROWS.md.
#![tactic(auto)]

mod block;
mod drive;
mod fail;
mod line;
mod numbers;
mod read;
mod row;
mod setting;
mod verdict;

pub use drive::run_files;
pub use fail::RowsFail;
pub use read::read_rows;
pub use row::{Answer, Content, Limits, NamedText, Row, RowFile, Subject};
pub use verdict::{Found, Tally, Verdict, try_row};

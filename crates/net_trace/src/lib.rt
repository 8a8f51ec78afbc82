//! Runs a netlist on a trace, whose rows flow through, and writes the report: docs/FORMATS.md, "Trace" and "Report".
#![tactic(auto)]

mod fail;
mod header;
mod lines;
mod names;
mod report;
mod rows;
mod run;

pub use fail::RunFail;
pub use run::simulate;

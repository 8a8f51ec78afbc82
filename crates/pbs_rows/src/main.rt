// Tries the worked rows of the commands: docs/ROWS.md. Each goes through `run` over files in memory.
#![tactic(auto)]

use pbs_base::Memory;
use pbs_cli::run;
use pbs_io::{MemShelf, MemSink};
use row_files::{Answer, Limits, NamedText, Subject, run_files};
use std::alloc::Global;
use std::process::ExitCode;

/// The commands of the program.
#[derive(Clone, Copy)]
struct Commands;

impl Subject for Commands {
    fn answer(
        &self,
        alloc: Global,
        words: &[String],
        files: &[NamedText],
        limits: &Limits,
    ) -> Result<Answer, Memory> {
        let mut shelf = MemShelf::new(alloc, limits.steps);
        for file in files {
            shelf.add(file.name.as_str(), file.bytes.as_slice())?;
        }
        for call in &limits.shelf_fails {
            shelf.fail_at(*call)?;
        }
        let mut sink = MemSink::new(alloc, limits.room, limits.puts)?;
        for call in &limits.sink_fails {
            sink.fail_at(*call)?;
        }
        let status = run(alloc, words, &mut shelf, &mut sink);
        let out = Vec::from_slice(alloc, sink.bytes())?;
        Ok(Answer { status, out })
    }
}

fn main(rt: HostRuntime) -> ExitCode {
    run_files(&rt, &Commands)
}

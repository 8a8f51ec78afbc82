// Tries the worked rows of the calls below `run`: docs/ROWS.md. A row's first word says which call, and the other words
// name its files.
#![tactic(auto)]

mod codes;
mod diagrams;
mod edges;
mod front;
mod overlap;
mod stop;
mod trees;
mod words;

use crate::stop::Stop;
use crate::words::answer_words;
use pbs_base::Memory;
use row_files::{Answer, Limits, NamedText, Subject, run_files};
use std::alloc::{AllocError, Global};
use std::process::ExitCode;

/// The calls below `run`.
#[derive(Clone, Copy)]
struct Layers;

impl Subject for Layers {
    fn answer(
        &self,
        alloc: Global,
        words: &[String],
        files: &[NamedText],
        _limits: &Limits,
    ) -> Result<Answer, Memory> {
        match answer_words(alloc, words, files) {
            Some(Ok(out)) => Ok(Answer { status: 0, out }),
            Some(Err(Stop::Memory)) => Err(Memory),
            Some(Err(stop)) => Ok(Answer {
                status: 1,
                out: line_of(alloc, stop)?,
            }),
            None => Ok(Answer {
                status: 2,
                out: Vec::new(alloc),
            }),
        }
    }
}

fn line_of(alloc: Global, stop: Stop) -> Result<Vec<u8>, AllocError> {
    Ok(format!(in alloc; "{stop}\n")?.into_bytes())
}

fn main(rt: HostRuntime) -> ExitCode {
    run_files(&rt, &Layers)
}

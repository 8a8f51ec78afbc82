// What a command does with the text of its first file.
ghost use Rattle.std.specs.Prelude.{◌≤◌};
ghost use Rattle.pbs_cli.specs.Answers.{Checks, Compiled, Mapped, Migrated, Soaked, task_of};
ghost use Rattle.pbs_cli.specs.inner.Parts.{Does, EndsAlone, job_meant};

use crate::command::Job;
use pbs_engine::{EngineFail, RunFail, check, compile, map, migrate, sim, soak, trace};
use pbs_io::{Shelf, Sink, write_all};
use std::alloc::Global;

fn check_text<K: Sink>(alloc: Global, text: &[u8], out: &mut K) -> Result<(), RunFail>
    ensures { EndsAlone (Checks text.now) (K.state out.old) (K.state out.new) result }
{
    match check(alloc, text) {
        Ok(()) => match write_all(out, b"accepted\n") {
            Ok(()) => Ok(()),
            Err(_) => Err(RunFail::WriteFault),
        },
        Err(EngineFail::Refused(refusal)) => Err(RunFail::Refused(refusal)),
        Err(EngineFail::Memory) => Err(RunFail::Memory),
    }
}

fn compile_text<K: Sink>(alloc: Global, text: &[u8], out: &mut K) -> Result<(), RunFail>
    ensures { EndsAlone (Compiled text.now) (K.state out.old) (K.state out.new) result }
{
    let mut verilog = Vec::new(alloc);
    match compile(alloc, text, &mut verilog) {
        Ok(()) => match write_all(out, verilog.as_slice()) {
            Ok(()) => Ok(()),
            Err(_) => Err(RunFail::WriteFault),
        },
        Err(EngineFail::Refused(refusal)) => Err(RunFail::Refused(refusal)),
        Err(EngineFail::Memory) => Err(RunFail::Memory),
    }
}

fn map_text<K: Sink>(alloc: Global, text: &[u8], out: &mut K) -> Result<(), RunFail>
    ensures { EndsAlone (Mapped text.now) (K.state out.old) (K.state out.new) result }
{
    let mut lines = Vec::new(alloc);
    match map(alloc, text, &mut lines) {
        Ok(()) => match write_all(out, lines.as_slice()) {
            Ok(()) => Ok(()),
            Err(_) => Err(RunFail::WriteFault),
        },
        Err(EngineFail::Refused(refusal)) => Err(RunFail::Refused(refusal)),
        Err(EngineFail::Memory) => Err(RunFail::Memory),
    }
}

fn migrate_text<K: Sink>(alloc: Global, text: &[u8], out: &mut K) -> Result<(), RunFail>
    ensures { EndsAlone (Migrated text.now) (K.state out.old) (K.state out.new) result }
{
    let mut migrated = Vec::new(alloc);
    match migrate(alloc, text, &mut migrated) {
        Ok(()) => match write_all(out, migrated.as_slice()) {
            Ok(()) => Ok(()),
            Err(_) => Err(RunFail::WriteFault),
        },
        Err(EngineFail::Refused(refusal)) => Err(RunFail::Refused(refusal)),
        Err(EngineFail::Memory) => Err(RunFail::Memory),
    }
}

/// Writes the line of a soak.
pub(crate) fn soak_line<K: Sink>(alloc: Global, n: u32, out: &mut K) -> Result<(), RunFail>
    requires { n ≤ 1000 }
    ensures { EndsAlone (Soaked n) (K.state out.old) (K.state out.new) result }
{
    let mut line = Vec::new(alloc);
    match soak(alloc, n, &mut line) {
        Ok(()) => match write_all(out, line.as_slice()) {
            Ok(()) => Ok(()),
            Err(_) => Err(RunFail::WriteFault),
        },
        Err(EngineFail::Refused(refusal)) => Err(RunFail::Refused(refusal)),
        Err(EngineFail::Memory) => Err(RunFail::Memory),
    }
}

/// Does the job with the text. A trace is opened in slot 1, and the line of a refusal isn't written.
pub(crate) fn do_job<S: Shelf, K: Sink>(
    alloc: Global,
    job: &Job<'_>,
    text: &[u8],
    shelf: &mut S,
    out: &mut K,
) -> Result<(), RunFail>
    ensures { Does (task_of (job_meant job.now)) text.now (S.state shelf.old) (S.state shelf.new)
        (K.state out.old) (K.state out.new) result }
{
    match job {
        Job::Check => check_text(alloc, text, out),
        Job::Compile => compile_text(alloc, text, out),
        Job::Map => map_text(alloc, text, out),
        Job::Migrate => migrate_text(alloc, text, out),
        Job::Sim(name) => sim(alloc, text, shelf, name, out),
        Job::Trace(name) => trace(alloc, text, shelf, name, out),
    }
}

// The first file of a command.
ghost use Rattle.std.specs.Prelude.{◌≡◌, ◌<◌};
ghost use Rattle.pbs_cli.specs.Answers.{most_of};
ghost use Rattle.pbs_cli.specs.inner.Parts.{ReadsFirst, job_meant, subject_of, too_long};

use crate::command::Job;
use pbs_base::{Refusal, Span, Subject};
use pbs_engine::RunFail;
use pbs_io::{ReadFail, Shelf, load};
use std::alloc::Global;

/// The most bytes of a specification.
const SPEC_BYTES: u32 = 1_048_576;

/// The most bytes of a netlist.
const NETLIST_BYTES: u32 = 67_108_864;

// What kind of text the job is done with.
fn subject_of(job: &Job<'_>) -> Subject
    ensures { result ≡ subject_of (job_meant job.now) }
{
    match job {
        Job::Check | Job::Compile | Job::Map | Job::Migrate | Job::Trace(_) => Subject::Spec,
        Job::Sim(_) => Subject::Netlist,
    }
}

// The most bytes that this text may have.
fn most_of(job: &Job<'_>) -> u32
    ensures most { result ≡ most_of (job_meant job.now) }
    ensures few { result < 1073741824 }
{
    match job {
        Job::Check | Job::Compile | Job::Map | Job::Migrate | Job::Trace(_) => SPEC_BYTES,
        Job::Sim(_) => NETLIST_BYTES,
    }
}

// Rule 1: more bytes than such a text may have.
fn too_long(subject: Subject, limit: u32) -> Refusal
    requires { limit < 1073741824 }
    ensures { result ≡ too_long subject limit }
{
    Refusal {
        subject,
        rule: 1,
        span: Span {
            start: limit,
            end: limit + 1,
        },
    }
}

/// Reads the named file, in slot 0.
pub(crate) fn read_first<S: Shelf>(
    alloc: Global,
    shelf: &mut S,
    name: &str,
    job: &Job<'_>,
) -> Result<Vec<u8>, RunFail>
    ensures { ReadsFirst (job_meant job.now) (S.state shelf.old) (S.state shelf.new) name.now result }
{
    let limit = most_of(job);
    match load(alloc, shelf, 0, name, limit as usize) {
        Ok(bytes) => Ok(bytes),
        Err(ReadFail::TooLong) => Err(RunFail::Refused(too_long(subject_of(job), limit))),
        Err(ReadFail::Fault) => Err(RunFail::ReadFault),
        Err(ReadFail::Memory) => Err(RunFail::Memory),
    }
}

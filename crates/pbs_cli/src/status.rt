// How a call ends: docs/FORMATS.md, "Statuses".
ghost use Rattle.std.specs.Prelude.{◌≡◌, Err};
ghost use Rattle.pbs_io.specs.Refusal.{refusal_line};
ghost use Rattle.pbs_cli.specs.inner.Parts.{Finishes, WritesLine};
ghost use Rattle.pbs_cli.specs.inner.Status.{code_of};

use pbs_base::Refusal;
use pbs_engine::RunFail;
use pbs_io::{Sink, write_refusal};

#[derive(Clone, Copy, Debug, PartialEq, Eq)]
pub(crate) enum Status {
    Accepted,
    Refused,
    Usage,
    ReadFault,
    WriteFault,
    Memory,
}

// The number with which the program ends.
pub(crate) fn code(status: Status) -> u8
    ensures { result ≡ code_of status }
{
    match status {
        Status::Accepted => 0,
        Status::Refused => 1,
        Status::Usage => 2,
        Status::ReadFault => 3,
        Status::WriteFault => 4,
        Status::Memory => 5,
    }
}

// Writes the line of a refusal.
fn refuse<K: Sink>(out: &mut K, refusal: &Refusal) -> Status
    ensures { WritesLine (K.state out.old) (K.state out.new) (refusal_line refusal.now) result }
{
    match write_refusal(out, refusal) {
        Ok(()) => Status::Refused,
        Err(_) => Status::WriteFault,
    }
}

// The status of a failure; the line of a refusal is written.
fn fail<K: Sink>(out: &mut K, fail: RunFail) -> Status
    ensures { Finishes (K.state out.old) (K.state out.new) (Err fail) result }
{
    match fail {
        RunFail::Refused(refusal) => refuse(out, &refusal),
        RunFail::ReadFault => Status::ReadFault,
        RunFail::WriteFault => Status::WriteFault,
        RunFail::Memory => Status::Memory,
    }
}

/// The status of what ended so; the line of a refusal is written.
pub(crate) fn finish<K: Sink>(out: &mut K, run: Result<(), RunFail>) -> Status
    ensures { Finishes (K.state out.old) (K.state out.new) run result }
{
    match run {
        Ok(()) => Status::Accepted,
        Err(cause) => fail(out, cause),
    }
}

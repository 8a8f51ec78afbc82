// The run of a netlist on a named trace.
ghost use Rattle.std.specs.Prelude.{◌≡◌, ◌≢◌, ◌<◌, ◌≤◌, ℕ, List, [], length, drop, take, Option, Err};
ghost use Rattle.std.specs.Option.{ForSome};
ghost use Rattle.pbs_io.specs.Outside.{GoesOn, content_of};
ghost use Rattle.net_core.specs.Circuits.{Circuit};
ghost use Rattle.trace_text.specs.States.{start};
ghost use Rattle.trace_text.specs.declared.answers.Phase.TheVariants as phase;
ghost use Rattle.net_trace.specs.declared.fail.RunFail.TheVariants as fails;
ghost use Rattle.net_trace.specs.Endings.{TaskEnds, net_task};
ghost use Rattle.net_trace.specs.inner.Steps.{Begins, EndsRows, FinishesLater, IsNew, OnlyReads, OpenedEnds, ReadAll};
ghost use Rattle.net_trace.specs.inner.Steps.{ReadingFailed};
ghost use Rattle.pbs_io.specs.Taken.{TakesAtMost};

use crate::fail::RunFail;
use crate::header::{Headed, Unused, find_header};
use crate::report::Report;
use crate::rows::{finish, read_rows, write_piece};
use net_core::Netlist;
use pbs_io::{Shelf, Sink};
use std::alloc::Global;
use trace_text::TraceReader;

/// How many bytes are read at a time, at most.
const BUFFER: usize = 65_536;

// The report behind a good header, the rest of whose piece stands in the buffer.
fn run_rows<S: Shelf, K: Sink>(
    shelf: &mut S,
    buffer: &mut [u8],
    unused: Unused,
    reader: &mut TraceReader,
    report: &mut Report,
    sink: &mut K,
) -> Result<(), RunFail>
    requires phase { reader.old.phase ≡ phase.Rows }
    requires rows { report.old.rows ≡ 0 }
    requires buffer { 0 < length buffer.old }
    requires unused { (unused.from ≤ unused.to) × (unused.to ≤ length buffer.old) }
    ensures reads { OnlyReads (S.state shelf.old) (S.state shelf.new) }
    ensures failed { result ≡ Err fails.ReadFault → ReadingFailed (S.state shelf.old) (S.state shelf.new) }
    ensures ends { (net : Circuit) (first : Option (List ℕ)) → IsNew net report.old
        → Begins net first ((S.state shelf.old).slots 1).left reader.old
        (drop unused.from (take unused.to buffer.old))
        → EndsRows net (K.state sink.old) first ((S.state shelf.new).slots 1).left (K.state sink.new) result }
{
    let Ok(()) = report.begin(sink) else {
        return Err(RunFail::WriteFault);
    };
    match write_piece(report, sink, reader, &buffer[unused.from..unused.to]) {
        Ok(()) => read_rows(shelf, buffer, reader, report, sink),
        Err(fail) => Err(fail),
    }
}

// The report behind a good header with which the trace ends.
fn run_nothing<K: Sink>(
    reader: &mut TraceReader,
    report: &mut Report,
    sink: &mut K,
) -> Result<(), RunFail>
    requires phase { reader.old.phase ≡ phase.Rows }
    requires rows { report.old.rows ≡ 0 }
    ensures no_read { result ≢ Err fails.ReadFault }
    ensures finishes { (net : Circuit) (done : List ℕ) → IsNew net report.old → ReadAll net.inputs reader.old done []
        → FinishesLater net (K.state sink.old) done (K.state sink.new) result }
{
    match report.begin(sink) {
        Ok(()) => finish(report, sink, reader),
        Err(_) => Err(RunFail::WriteFault),
    }
}

// Runs the netlist of the report on the text in slot 1.
fn run_opened<S: Shelf, K: Sink>(
    shelf: &mut S,
    buffer: &mut [u8],
    reader: &mut TraceReader,
    report: &mut Report,
    sink: &mut K,
) -> Result<(), RunFail>
    requires fresh { reader.old ≡ start reader.old.ports }
    requires rows { report.old.rows ≡ 0 }
    requires buffer { length buffer.old ≡ 65536 }
    ensures reads { OnlyReads (S.state shelf.old) (S.state shelf.new) }
    ensures failed { result ≡ Err fails.ReadFault → ReadingFailed (S.state shelf.old) (S.state shelf.new) }
    ensures ends { (net : Circuit) → IsNew net report.old → reader.old.ports ≡ net.inputs
        → OpenedEnds net (S.state shelf.old) (S.state shelf.new) (K.state sink.old) (K.state sink.new) result }
{
    match find_header(shelf, reader, buffer) {
        Headed::Ready(unused) => run_rows(shelf, buffer, unused, reader, report, sink),
        Headed::ReadyAtEnd => run_nothing(reader, report, sink),
        Headed::Refused(refusal) => Err(RunFail::Refused(refusal)),
        Headed::Fault => Err(RunFail::ReadFault),
        Headed::Memory => Err(RunFail::Memory),
    }
}

/// Opens the named trace in slot 1 and writes the report of the netlist on it: in row 0 and before it all registers and
/// inputs are 0. At most 67,108,865 bytes of the trace are read, through one buffer of 65,536 bytes, and the line of a
/// row is written before more is read than the piece in which the row came. Where the trace is refused, the line of the
/// refusal isn't written. Memory is taken before the trace is opened, and for the header.
pub fn simulate<S: Shelf, K: Sink>(
    alloc: Global,
    net: &Netlist,
    shelf: &mut S,
    name: &str,
    sink: &mut K,
) -> Result<(), RunFail>
    ensures goes_on { GoesOn (S.state shelf.old) (S.state shelf.new) }
    ensures other { (S.state shelf.new).slots 0 ≡ (S.state shelf.old).slots 0 }
    ensures later { (K.state sink.old).faults ≤ (K.state sink.new).faults }
    ensures ends { TaskEnds (net_task name.now) net.now (S.state shelf.old) (S.state shelf.new)
        (K.state sink.old) (K.state sink.new) result }
    ensures few { ForSome (S.state shelf.old).files (λ files. TakesAtMost 67108865 (content_of files name.now)
        ((S.state shelf.old).slots 1) ((S.state shelf.new).slots 1)) }
{
    let Ok(mut report) = Report::new(alloc, net) else {
        return Err(RunFail::Memory);
    };
    let Ok(mut reader) = TraceReader::new(alloc, net.inputs()) else {
        return Err(RunFail::Memory);
    };
    let Ok(mut buffer) = vec![in alloc; 0u8; BUFFER] else {
        return Err(RunFail::Memory);
    };
    let Ok(()) = shelf.open_slot(1, name) else {
        return Err(RunFail::ReadFault);
    };
    run_opened(shelf, buffer.as_mut_slice(), &mut reader, &mut report, sink)
}

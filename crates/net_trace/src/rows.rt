// The rows of a trace.
ghost use Rattle.std.specs.Prelude.{◌≡◌, ◌≢◌, ◌<◌, ◌≤◌, ◌+◌, ◌++◌, ℕ, List, length, Option, Ok, Err, OnOk};
ghost use Rattle.pbs_io.specs.Outside.{SinkState};
ghost use Rattle.pbs_base.specs.declared.entry.Entry.{Entry as EntryValue};
ghost use Rattle.net_core.specs.Circuits.{Circuit};
ghost use Rattle.trace_text.specs.declared.answers.Phase.TheVariants as phase;
ghost use Rattle.net_trace.specs.declared.fail.RunFail.TheVariants as fails;
ghost use Rattle.net_trace.specs.declared.rows.Progress.TheVariants as progress;
ghost use Rattle.net_trace.specs.inner.Steps.{Advances, Ends, EndsRows, FinishesLater, GoesOnReading, OnlyReads};
ghost use Rattle.net_trace.specs.inner.Steps.{PieceEnds};
ghost use Rattle.net_trace.specs.inner.Steps.{Read, ReadAll, ReadingFailed, Refuses, Shown, Standing, entry_in};

use crate::fail::RunFail;
use crate::header::BYTES;
use crate::report::Report;
use pbs_base::{Entry, Refusal};
use pbs_io::{Shelf, Sink, read_front};
use trace_text::{Row, TraceReader};

/// Whether more of a trace may follow.
#[derive(Clone, Copy, Debug, PartialEq, Eq)]
pub(crate) enum Progress {
    More,
    Done,
}

// Writes the lines in front of a refusal.
fn refuse<K: Sink>(report: &mut Report, sink: &mut K, refusal: Refusal) -> Result<(), RunFail>
    ensures refuses { (net : Circuit) (before : SinkState) (entries : List EntryValue)
        → Shown net before entries report.old (K.state sink.old)
        → Refuses net before entries refusal (K.state sink.new) result }
    ensures never { OnOk result ⊥ }
    ensures no_read { result ≢ Err fails.ReadFault }
{
    match report.flush(sink) {
        Ok(()) => Err(RunFail::Refused(refusal)),
        Err(_) => Err(RunFail::WriteFault),
    }
}

// The entry of a good row.
fn entry_of(row: Row) -> Option<Entry>
    ensures { result ≡ entry_in row }
{
    match row {
        Row::Vector(vector) => Some(Entry::Vector(vector)),
        Row::Reset => Some(Entry::Reset),
        _ => None,
    }
}

/// Adds the lines of the rows in a piece, behind which more of the trace may follow.
pub(crate) fn write_piece<K: Sink>(
    report: &mut Report,
    sink: &mut K,
    reader: &mut TraceReader,
    piece: &[u8],
) -> Result<(), RunFail>
    requires phase { reader.old.phase ≡ phase.Rows }
    requires count { report.old.rows ≤ reader.old.used }
    ensures phase { OnOk result (reader.new.phase ≡ phase.Rows) }
    ensures count { OnOk result (report.new.rows ≤ reader.new.used) }
    ensures used { OnOk result (reader.new.used ≡ reader.old.used + length piece.now) }
    ensures ends { (net : Circuit) (before : SinkState) (done : List ℕ) (entries : List EntryValue)
        → Read net.inputs reader.old done piece.now entries → Shown net before entries report.old (K.state sink.old)
        → PieceEnds net before (done ++ piece.now) reader.new report.new (K.state sink.new) result }
    ensures no_read { result ≢ Err fails.ReadFault }
{
    let mut at = 0;
    while at < piece.len() {
        // For the proof alone: what a reader keeps is known where its count is read.
        let _ = reader.bytes_used();
        let (used, row) = reader.next_row(&piece[at..], false);
        let Some(entry) = entry_of(row) else {
            return match row {
                Row::Refused(refusal) => refuse(report, sink, refusal),
                _ => Ok(()),
            };
        };
        let Ok(()) = report.add(sink, entry) else {
            return Err(RunFail::WriteFault);
        };
        at += used;
    }
    Ok(())
}

// Adds the last line and writes what is held.
fn end<K: Sink>(report: &mut Report, sink: &mut K) -> Result<(), RunFail>
    ensures no_read { result ≢ Err fails.ReadFault }
    ensures ends { (net : Circuit) (before : SinkState) (entries : List EntryValue)
        → Shown net before entries report.old (K.state sink.old)
        → Ends net before entries (K.state sink.new) result }
{
    match report.end(sink) {
        Ok(()) => Ok(()),
        Err(_) => Err(RunFail::WriteFault),
    }
}

/// Writes the rest of the report where the trace ends behind what was read.
pub(crate) fn finish<K: Sink>(
    report: &mut Report,
    sink: &mut K,
    reader: &mut TraceReader,
) -> Result<(), RunFail>
    requires phase { reader.old.phase ≡ phase.Rows }
    requires count { report.old.rows ≤ reader.old.used }
    ensures no_read { result ≢ Err fails.ReadFault }
    ensures finishes { (net : Circuit) (before : SinkState) (done : List ℕ) (entries : List EntryValue)
        → ReadAll net.inputs reader.old done entries → Shown net before entries report.old (K.state sink.old)
        → FinishesLater net before done (K.state sink.new) result }
{
    // For the proof alone: what a reader keeps is known where its count is read.
    let _ = reader.bytes_used();
    let (_, row) = reader.next_row(&[], true);
    let Some(entry) = entry_of(row) else {
        return match row {
            Row::Refused(refusal) => refuse(report, sink, refusal),
            _ => end(report, sink),
        };
    };
    match report.add(sink, entry) {
        Ok(()) => end(report, sink),
        Err(_) => Err(RunFail::WriteFault),
    }
}

/// Writes the lines that are held, and then reads one piece more of slot 1 and adds the lines of its rows.
fn read_piece<S: Shelf, K: Sink>(
    shelf: &mut S,
    buffer: &mut [u8],
    reader: &mut TraceReader,
    report: &mut Report,
    sink: &mut K,
) -> Result<Progress, RunFail>
    requires phase { reader.old.phase ≡ phase.Rows }
    requires count { report.old.rows ≤ reader.old.used }
    requires buffer { 0 < length buffer.old }
    ensures length { length buffer.new ≡ length buffer.old }
    ensures reads { OnlyReads (S.state shelf.old) (S.state shelf.new) }
    ensures failed { result ≡ Err fails.ReadFault → ReadingFailed (S.state shelf.old) (S.state shelf.new) }
    ensures goes_on { result ≡ Ok progress.More → GoesOnReading reader.old reader.new report.new }
    ensures advances { (net : Circuit) (before : SinkState) (first : Option (List ℕ))
        → Standing net before first ((S.state shelf.old).slots 1).left reader.old report.old (K.state sink.old)
        → Advances net before first ((S.state shelf.new).slots 1).left reader.new report.new (K.state sink.new)
        result }
{
    let room = BYTES - reader.bytes_used();
    let Ok(()) = report.flush(sink) else {
        return Err(RunFail::WriteFault);
    };
    let Ok(n) = read_front(shelf, 1, buffer, room) else {
        return Err(RunFail::ReadFault);
    };
    if n == 0 {
        return match finish(report, sink, reader) {
            Ok(()) => Ok(Progress::Done),
            Err(fail) => Err(fail),
        };
    }
    match write_piece(report, sink, reader, &buffer[..n]) {
        Ok(()) => Ok(Progress::More),
        Err(fail) => Err(fail),
    }
}

/// Reads on to the end of the trace, and writes the lines of its rows.
pub(crate) fn read_rows<S: Shelf, K: Sink>(
    shelf: &mut S,
    buffer: &mut [u8],
    reader: &mut TraceReader,
    report: &mut Report,
    sink: &mut K,
) -> Result<(), RunFail>
    requires phase { reader.old.phase ≡ phase.Rows }
    requires count { report.old.rows ≤ reader.old.used }
    requires buffer { 0 < length buffer.old }
    ensures reads { OnlyReads (S.state shelf.old) (S.state shelf.new) }
    ensures failed { result ≡ Err fails.ReadFault → ReadingFailed (S.state shelf.old) (S.state shelf.new) }
    ensures ends { (net : Circuit) (before : SinkState) (first : Option (List ℕ))
        → Standing net before first ((S.state shelf.old).slots 1).left reader.old report.old (K.state sink.old)
        → EndsRows net before first ((S.state shelf.new).slots 1).left (K.state sink.new) result }
{
    loop {
        match read_piece(shelf, buffer, reader, report, sink) {
            Ok(Progress::More) => {}
            Ok(Progress::Done) => return Ok(()),
            Err(fail) => return Err(fail),
        }
    }
}

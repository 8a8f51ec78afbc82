// The lines of a report, row by row.
ghost use Rattle.std.specs.Prelude.{◌≡◌, ◌<◌, ◌≤◌, ◌+◌, ◌++◌, [], ◌∷◌, ℕ, List, length, false, slice_index_or};
ghost use Rattle.std.specs.Prelude.{IfOk, OnOk, OnErr};
ghost use Rattle.pbs_io.specs.Outside.{SinkState};
ghost use Rattle.pbs_base.specs.declared.entry.Entry.{Entry as EntryValue};
ghost use Rattle.net_core.specs.Circuits.{Circuit, output_gate};
ghost use Rattle.net_eval.specs.States.{Steps};
ghost use Rattle.net_eval.specs.Simulated.{inputs_of, is_reset};
ghost use Rattle.trace_text.specs.Reports.{is_on, end_line};
ghost use Rattle.net_trace.specs.inner.Steps.{IsNew, Shown, ShownInPart, ShownWhole, ShowsLine};

use crate::names::port_names;
use crate::report::Report;
use net_core::Netlist;
use net_eval::Sim;
use net_eval::laws::simulation;
use pbs_base::{Entry, Memory};
use pbs_io::{Sink, WriteFail};
use std::alloc::Global;
use trace_text::{Held, hold_end, hold_row};

// One row more.
fn step_entry(sim: &mut Sim, entry: Entry)
    ensures { Steps sim.old sim.new (is_reset entry) (inputs_of entry) }
{
    match entry {
        Entry::Vector(inputs) => sim.step(false, inputs),
        Entry::Reset => sim.step(true, 0),
    }
}

// The first outputs in the last row, output n as bit n.
fn outputs_on(sim: &Sim, count: usize) -> u128
    requires few { count ≤ 128 }
    requires there { count ≤ length sim.now.net.outputs }
    ensures { (n : ℕ) → n < count
        → is_on result n ≡ slice_index_or sim.now.gates (output_gate sim.now.net n) false }
{
    let mut on = 0u128;
    for n in 0..count {
        if sim.output(n) {
            on |= 1u128 << n;
        }
    }
    on
}

impl<'a> Report<'a> {
    /// Takes all the memory that the report needs.
    pub(crate) fn new(alloc: Global, net: &'a Netlist) -> Result<Report<'a>, Memory>
        ensures { IfOk result (λ report. IsNew net.now report) }
    {
        simulation();
        let names = port_names(alloc, net)?;
        let held = Held::new(alloc)?;
        let sim = Sim::new(alloc, net)?;
        Ok(Report {
            names,
            held,
            sim,
            rows: 0,
        })
    }

    // Adds the line of the last row.
    fn show<K: Sink>(&mut self, sink: &mut K) -> Result<(), WriteFail>
        ensures { ShowsLine self.old self.new (K.state sink.old) (K.state sink.new) result }
    {
        let on = outputs_on(&self.sim, self.names.len());
        hold_row(&mut self.held, sink, self.rows, &self.names, on)
    }

    /// Makes row 0 and adds its line.
    pub(crate) fn begin<K: Sink>(&mut self, sink: &mut K) -> Result<(), WriteFail>
        ensures rows { self.new.rows ≡ self.old.rows }
        ensures ok { (net : Circuit) → IsNew net self.old
            → OnOk result (Shown net (K.state sink.old) [] self.new (K.state sink.new)) }
        ensures err { (net : Circuit) → IsNew net self.old
            → OnErr result (ShownInPart net (K.state sink.old) [] [] (K.state sink.new)) }
    {
        simulation();
        self.sim.step(true, 0);
        self.show(sink)
    }

    /// Makes the row of one entry more and adds its line.
    pub(crate) fn add<K: Sink>(&mut self, sink: &mut K, entry: Entry) -> Result<(), WriteFail>
        requires { self.old.rows < 67108865 }
        ensures rows { self.new.rows ≡ self.old.rows + 1 }
        ensures ok { (net : Circuit) (before : SinkState) (entries : List EntryValue)
            → Shown net before entries self.old (K.state sink.old)
            → OnOk result (Shown net before (entries ++ entry ∷ []) self.new (K.state sink.new)) }
        ensures err { (net : Circuit) (before : SinkState) (entries : List EntryValue)
            → Shown net before entries self.old (K.state sink.old)
            → OnErr result (ShownInPart net before (entries ++ entry ∷ []) [] (K.state sink.new)) }
    {
        simulation();
        step_entry(&mut self.sim, entry);
        self.rows += 1;
        self.show(sink)
    }

    /// Writes the lines that are held.
    pub(crate) fn flush<K: Sink>(&mut self, sink: &mut K) -> Result<(), WriteFail>
        ensures rows { self.new.rows ≡ self.old.rows }
        ensures ok { (net : Circuit) (before : SinkState) (entries : List EntryValue)
            → Shown net before entries self.old (K.state sink.old)
            → OnOk result (Shown net before entries self.new (K.state sink.new)) }
        ensures whole { (net : Circuit) (before : SinkState) (entries : List EntryValue)
            → Shown net before entries self.old (K.state sink.old)
            → OnOk result (ShownWhole net before entries [] (K.state sink.new)) }
        ensures err { (net : Circuit) (before : SinkState) (entries : List EntryValue)
            → Shown net before entries self.old (K.state sink.old)
            → OnErr result (ShownInPart net before entries [] (K.state sink.new)) }
    {
        self.held.flush(sink)
    }

    /// Adds the last line of a report that ends with its trace, and writes what is held.
    pub(crate) fn end<K: Sink>(&mut self, sink: &mut K) -> Result<(), WriteFail>
        ensures ok { (net : Circuit) (before : SinkState) (entries : List EntryValue)
            → Shown net before entries self.old (K.state sink.old)
            → OnOk result (ShownWhole net before entries (end_line (length entries)) (K.state sink.new)) }
        ensures err { (net : Circuit) (before : SinkState) (entries : List EntryValue)
            → Shown net before entries self.old (K.state sink.old)
            → OnErr result (ShownInPart net before entries (end_line (length entries)) (K.state sink.new)) }
    {
        let held = &mut self.held;
        let Ok(()) = hold_end(held, sink, self.rows) else {
            return Err(WriteFail::Fault);
        };
        held.flush(sink)
    }
}

// Runs the controller of a specification on a trace.
ghost use Rattle.std.specs.Prelude.{◌≡◌, ◌≢◌, ◌≤◌, Err};
ghost use Rattle.std.specs.Option.{ForSome};
ghost use Rattle.pbs_io.specs.Outside.{GoesOn, content_of};
ghost use Rattle.pbs_io.specs.Taken.{TakesAtMost};
ghost use Rattle.pbs_base.specs.declared.refusal.Refusal.{Refusal as RefusalValue};
ghost use Rattle.net_trace.specs.declared.fail.RunFail.TheVariants as fails;
ghost use Rattle.net_trace.specs.Endings.{TaskEnds};
ghost use Rattle.pbs_engine.specs.Accepted.{Breaks};
ghost use Rattle.pbs_engine.specs.Outcomes.{text_task};

use crate::compiling::written_netlist;
use crate::fail::EngineFail;
use crate::laws::one_check;
use net_trace::{RunFail, simulate};
use pbs_io::{Shelf, Sink};
use std::alloc::Global;

/// Compiles the specification, reads its Verilog back, and writes the report of that netlist on the named trace, which
/// is opened in slot 1: each row is written as it comes, and the line of the refusal in which a trace may end isn't
/// written. `Refused` comes by the rules of `check`, and then nothing is opened or written, or by those of traces.
pub fn trace<S: Shelf, K: Sink>(
    alloc: Global,
    text: &[u8],
    shelf: &mut S,
    name: &str,
    sink: &mut K,
) -> Result<(), RunFail>
    ensures goes_on { GoesOn (S.state shelf.old) (S.state shelf.new) }
    ensures other { (S.state shelf.new).slots 0 ≡ (S.state shelf.old).slots 0 }
    ensures later { (K.state sink.old).faults ≤ (K.state sink.new).faults }
    ensures ends { TaskEnds (text_task name.now) text.now (S.state shelf.old) (S.state shelf.new)
        (K.state sink.old) (K.state sink.new) result }
    ensures few { ForSome (S.state shelf.old).files (λ files. TakesAtMost 67108865 (content_of files name.now)
        ((S.state shelf.old).slots 1) ((S.state shelf.new).slots 1)) }
    ensures untouched { (r : RefusalValue) → Breaks text.now r → (shelf.new ≡ shelf.old) × (sink.new ≡ sink.old) }
    ensures no_fault { (r : RefusalValue) → Breaks text.now r
        → (result ≢ Err fails.ReadFault) × (result ≢ Err fails.WriteFault) }
{
    one_check();
    match written_netlist(alloc, text) {
        Ok(net) => simulate(alloc, &net, shelf, name, sink),
        Err(EngineFail::Refused(refusal)) => Err(RunFail::Refused(refusal)),
        Err(EngineFail::Memory) => Err(RunFail::Memory),
    }
}

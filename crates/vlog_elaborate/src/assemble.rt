// The parts of the netlist, put together.
ghost use Rattle.std.specs.Prelude.{◌≡◌, IfOk, None};
ghost use Rattle.vlog_text.specs.Raw.{IsRaw};
ghost use Rattle.vlog_text.specs.Refusing.{first_broken};
ghost use Rattle.vlog_text.specs.Standing.{net_of};
ghost use Rattle.vlog_elaborate.specs.Elaborated.{Elaborates};
ghost use Rattle.vlog_elaborate.specs.inner.Parts.{IsChecked};

use crate::check::{Checked, check};
use crate::ports::{input_names, outputs};
use crate::registers::register_wires;
use net_core::Netlist;
use pbs_base::Memory;
use std::alloc::Global;
use vlog_order::{places, reorder};
use vlog_text::{RawNetlist, VlogFail};

// The netlist of a raw netlist that breaks no rule.
fn assemble(alloc: Global, raw: &RawNetlist, checked: &Checked) -> Result<Netlist, Memory>
    requires raw { IsRaw raw.now }
    requires checked { IsChecked raw.now checked.now }
    requires unbroken { first_broken raw.now ≡ None }
    ensures { IfOk result (λ net. net ≡ net_of raw.now) }
{
    let places = places(alloc, checked.gates.len(), &checked.order)?;
    let inputs = input_names(alloc, &checked.numbers, raw.ports.as_slice())?;
    let outputs = outputs(alloc, &checked.numbers, &places, raw.ports.as_slice())?;
    let gates = reorder(alloc, checked.gates.as_slice(), &checked.order)?;
    let registers = register_wires(alloc, raw, checked, &places)?;
    Ok(Netlist::from_parts(inputs, outputs, gates, registers))
}

/// The netlist that the raw netlist stands for; `Refused` exactly by the first broken rule of 4 to 8, that with the
/// lowest number and then at the first place.
pub fn elaborate(alloc: Global, raw: RawNetlist) -> Result<Netlist, VlogFail>
    requires { IsRaw raw }
    ensures { Elaborates raw result }
{
    let checked = check(alloc, &raw)?;
    match checked.found {
        Some(refusal) => Err(VlogFail::Refused(refusal)),
        None => Ok(assemble(alloc, &raw, &checked)?),
    }
}

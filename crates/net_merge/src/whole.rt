// Netlists without registers that are read twice.
ghost use Rattle.std.specs.Prelude.{IfOk};
ghost use Rattle.net_merge.specs.Merges.{Merges};

use crate::copies::{copied_outputs, first_gates, first_wires};
use crate::firsts::find_firsts;
use net_core::Netlist;
use pbs_base::Memory;
use std::alloc::Global;

/// The netlist in which each register is read as the first one that takes the same gate: from the second row of a run
/// on they have the same value. Registers keep their numbers and what they take. It takes as many steps as there are
/// gates, pins and registers.
pub fn merge(alloc: Global, net: &Netlist) -> Result<Netlist, Memory>
    ensures { IfOk result (λ merged. Merges net.now merged) }
{
    net.gates();
    let firsts = find_firsts(alloc, net.registers(), net.gates().len())?;
    let gates = first_gates(alloc, net.gates(), firsts.as_slice())?;
    let registers = first_wires(alloc, net.registers(), firsts.as_slice())?;
    let outputs = copied_outputs(alloc, net.outputs())?;
    let inputs = net.inputs().copy(alloc)?;
    Ok(Netlist::from_parts(inputs, outputs, gates, registers))
}

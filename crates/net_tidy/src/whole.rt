// Tidy netlists.
ghost use Rattle.std.specs.Prelude.{◌+◌, ◌*◌, ◌≤◌, IfOk, length};
ghost use Rattle.net_core.specs.Circuits.{IsBuilt};
ghost use Rattle.net_core.specs.Building.{gate_input_pins, input_pins};
ghost use Rattle.net_tidy.specs.Tidy.{IsTidy};
ghost use Rattle.net_tidy.specs.Follows.{Follows};

use crate::draft::{Draft, add_outputs};
use crate::shrink::{Shrunk, shrink};
use net_core::Netlist;
use pbs_base::Memory;
use std::alloc::Global;

/// A netlist that does the same in every run from reset, with fewer gates. Constants are folded; `buf` and double `not`
/// are seen through; `and` and `or` of equal or opposite wires, of a wire with one that is made of it, and of a wire
/// with a join of its opposite are made shorter; equal gates are shared; and what no output and no register needs is
/// left out. Each output has a `buf` of its own at the end. Gates of other kinds, or with more pins, stay as they are,
/// with pins replaced. It takes n log n steps.
pub fn tidy(alloc: Global, net: &Netlist) -> Result<Netlist, Memory>
    ensures follows { IfOk result (λ tidied. Follows net.now tidied) }
    ensures tidy { IfOk result (λ tidied. IsTidy tidied) }
    ensures built { IfOk result (λ tidied. IsBuilt net.now.gates → IsBuilt tidied.gates) }
    ensures pins { IfOk result (λ tidied. IsBuilt net.now.gates
        → gate_input_pins tidied.gates + input_pins tidied.registers
        ≤ 2 * length net.now.gates + length net.now.outputs + length net.now.registers) }
{
    net.gates();
    let Shrunk { gates, shown, next } = shrink(alloc, net)?;
    let inputs = net.inputs().copy(alloc)?;
    let mut draft = Draft::new(alloc, inputs, gates, next);
    add_outputs(alloc, &mut draft, net, &shown)?;
    Ok(draft.finish())
}

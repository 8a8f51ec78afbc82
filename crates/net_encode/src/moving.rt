// Copies of gates and outputs behind other gates.
ghost use Rattle.std.specs.Prelude.{◌≡◌, ◌<◌, ◌+◌, ◌^◌, length, ℕ, slice_get, Some, map, IfOk, OnOk};
ghost use Rattle.net_core.specs.Building.{HasAll};
ghost use Rattle.net_core.specs.declared.netlist.Output as output;
ghost use Rattle.net_encode.specs.inner.Moves.{AllFit, AllReadBelow, ReadsBelow, gate_moved, moved, output_moved};
ghost use Rattle.net_encode.specs.inner.Moves.{with_gates};

use crate::draft::{Draft, MOST};
use net_core::{Gate, Output, Outputs, Pins, Wire, Wires};
use pbs_base::{Memory, Word};
use std::alloc::Global;

/// The wire, with a wire of the table in place of a register, and gates that stand so much later.
pub(crate) fn moved_wire(wire: Wire, table: &[Wire], offset: usize) -> Result<Wire, Memory>
    requires there { ReadsBelow (length table.now) wire }
    requires offset { offset < 2 ^ 32 }
    ensures { IfOk result (λ to. to ≡ moved table.now offset wire) }
{
    match wire {
        Wire::Reg(r) => Ok(table[r as usize]),
        Wire::Gate(n) => {
            let to = offset + n as usize;
            if to > MOST {
                return Err(Memory);
            }
            Ok(Wire::Gate(to as u32))
        }
        Wire::Const(_) | Wire::Reset | Wire::Input(_) => Ok(wire),
    }
}

// Each pin moved.
fn moved_pins(alloc: Global, pins: &[Wire], table: &[Wire], offset: usize) -> Result<Pins, Memory>
    requires there { AllReadBelow (length table.now) pins.now }
    requires offset { offset < 2 ^ 32 }
    ensures { IfOk result (λ to. to ≡ map (moved table.now offset) pins.now) }
{
    let mut to = Pins::new(alloc);
    for n in 0..pins.len() {
        to.push(moved_wire(pins[n], table, offset)?)?;
    }
    Ok(to)
}

fn moved_gate(alloc: Global, gate: &Gate, table: &[Wire], offset: usize) -> Result<Gate, Memory>
    requires there { AllReadBelow (length table.now) gate.now.pins }
    requires offset { offset < 2 ^ 32 }
    ensures { IfOk result (λ to. to ≡ gate_moved table.now offset gate.now) }
{
    let pins = moved_pins(alloc, gate.pins.as_slice(), table, offset)?;
    Ok(Gate {
        kind: gate.kind,
        pins,
    })
}

/// Adds copies of the gates, with wires of the table in place of registers.
pub(crate) fn copy_gates(draft: &mut Draft, gates: &[Gate], table: &[Wire]) -> Result<(), Memory>
    requires fit { AllFit (length draft.old.inputs) (length table.now) gates.now }
    requires table { HasAll draft.old table.now }
    ensures { OnOk result
        (draft.new ≡ with_gates draft.old (map (gate_moved table.now (length draft.old.gates)) gates.now)) }
{
    let alloc = draft.allocator();
    let offset = draft.gates();
    for n in 0..gates.len() {
        let gate = moved_gate(alloc, &gates[n], table, offset)?;
        draft.push_gate(gate)?;
    }
    Ok(())
}

/// The outputs, whose gates stand so much later.
pub(crate) fn moved_outputs(
    alloc: Global,
    outputs: &[Output],
    offset: usize,
    gates: usize,
) -> Result<Outputs, Memory>
    requires there { (n : ℕ) (o : output.Output) → slice_get outputs.now n ≡ Some o → offset + o.gate < gates }
    requires few { gates < 2 ^ 32 }
    ensures { IfOk result (λ to. to ≡ map (output_moved offset) outputs.now) }
{
    let mut to = Outputs::new(alloc);
    for n in 0..outputs.len() {
        let output = moved_output(alloc, &outputs[n], offset, gates)?;
        to.push(output)?;
    }
    Ok(to)
}

fn moved_output(
    alloc: Global,
    output: &Output,
    offset: usize,
    gates: usize,
) -> Result<Output, Memory>
    requires there { offset + output.now.gate < gates }
    requires few { gates < 2 ^ 32 }
    ensures { IfOk result (λ to. to ≡ output_moved offset output.now) }
{
    let name = Word::new(alloc, output.name.bytes())?;
    Ok(Output {
        name,
        gate: (offset + output.gate as usize) as u32,
    })
}

/// Each wire moved.
pub(crate) fn moved_wires(
    alloc: Global,
    wires: &[Wire],
    table: &[Wire],
    offset: usize,
) -> Result<Wires, Memory>
    requires there { AllReadBelow (length table.now) wires.now }
    requires offset { offset < 2 ^ 32 }
    ensures { IfOk result (λ to. to ≡ map (moved table.now offset) wires.now) }
{
    let mut to = Wires::new(alloc);
    for n in 0..wires.len() {
        to.push(moved_wire(wires[n], table, offset)?)?;
    }
    Ok(to)
}

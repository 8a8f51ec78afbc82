// Copies of gates, wires and outputs, with other registers in place of registers.
ghost use Rattle.std.specs.Prelude.{◌≡◌, length, map, IfOk};
ghost use Rattle.net_merge.specs.inner.Firsts.{AllReadBelow, GatesReadBelow, ReadsBelow, gate_read_as, read_as};

use net_core::{Gate, Gates, Output, Outputs, Pins, Wire, Wires};
use pbs_base::{Memory, Word};
use std::alloc::Global;

// The wire, with the first register in place of a register.
fn first_wire(wire: Wire, firsts: &[u32]) -> Wire
    requires { ReadsBelow (length firsts.now) wire }
    ensures { result ≡ read_as firsts.now wire }
{
    match wire {
        Wire::Reg(r) => Wire::Reg(firsts[r as usize]),
        Wire::Const(_) | Wire::Reset | Wire::Input(_) | Wire::Gate(_) => wire,
    }
}

fn first_pins(alloc: Global, pins: &[Wire], firsts: &[u32]) -> Result<Pins, Memory>
    requires { AllReadBelow (length firsts.now) pins.now }
    ensures { IfOk result (λ to. to ≡ map (read_as firsts.now) pins.now) }
{
    let mut to = Pins::new(alloc);
    for n in 0..pins.len() {
        to.push(first_wire(pins[n], firsts))?;
    }
    Ok(to)
}

fn first_gate(alloc: Global, gate: &Gate, firsts: &[u32]) -> Result<Gate, Memory>
    requires { AllReadBelow (length firsts.now) gate.now.pins }
    ensures { IfOk result (λ to. to ≡ gate_read_as firsts.now gate.now) }
{
    let pins = first_pins(alloc, gate.pins.as_slice(), firsts)?;
    Ok(Gate {
        kind: gate.kind,
        pins,
    })
}

/// The gates, with first registers in place of registers.
pub(crate) fn first_gates(alloc: Global, gates: &[Gate], firsts: &[u32]) -> Result<Gates, Memory>
    requires { GatesReadBelow (length firsts.now) gates.now }
    ensures { IfOk result (λ to. to ≡ map (gate_read_as firsts.now) gates.now) }
{
    let mut to = Gates::new(alloc);
    for n in 0..gates.len() {
        to.push(first_gate(alloc, &gates[n], firsts)?)?;
    }
    Ok(to)
}

/// The wires, with first registers in place of registers.
pub(crate) fn first_wires(alloc: Global, wires: &[Wire], firsts: &[u32]) -> Result<Wires, Memory>
    requires { AllReadBelow (length firsts.now) wires.now }
    ensures { IfOk result (λ to. to ≡ map (read_as firsts.now) wires.now) }
{
    let mut to = Wires::new(alloc);
    for n in 0..wires.len() {
        to.push(first_wire(wires[n], firsts))?;
    }
    Ok(to)
}

fn copied_output(alloc: Global, output: &Output) -> Result<Output, Memory>
    ensures { IfOk result (λ to. to ≡ output.now) }
{
    let name = Word::new(alloc, output.name.bytes())?;
    Ok(Output {
        name,
        gate: output.gate,
    })
}

/// The same outputs again.
pub(crate) fn copied_outputs(alloc: Global, outputs: &[Output]) -> Result<Outputs, Memory>
    ensures { IfOk result (λ to. to ≡ outputs.now) }
{
    let mut to = Outputs::new(alloc);
    for n in 0..outputs.len() {
        to.push(copied_output(alloc, &outputs[n])?)?;
    }
    Ok(to)
}

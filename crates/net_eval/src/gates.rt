// The values of wires and of gates, and of all gates in order.
ghost use Rattle.std.specs.Prelude.{◌≡◌, ◌<◌, length, slice_get, Some};
ghost use Rattle.net_core.specs.declared.gate.Gate.{Gate as GateValue};
ghost use Rattle.net_core.specs.Rows.{IsRow, all_of, any_of, gate_value, odd_of, output_of, value};
ghost use Rattle.net_core.specs.Circuits.{AllThere, IsCircuit, IsThere};
ghost use Rattle.net_eval.specs.States.{begun_row};

use crate::flat::FlatNetlist;
use net_core::{GateKind, Wire};

/// What a row begins with.
#[derive(Clone, Copy)]
pub struct Begun<'a> {
    pub registers: &'a [bool],
    pub reset: bool,
    pub inputs: u64,
}

/// The value of a wire.
pub(crate) fn wire_value(wire: Wire, row: &Begun, gates: &[bool]) -> bool
    requires { IsThere 64 (length row.now.registers.now) (length gates.now) wire }
    ensures { result ≡ value (begun_row row.now gates.now) wire }
{
    match wire {
        Wire::Const(bit) => bit,
        Wire::Reset => row.reset,
        Wire::Input(n) => (row.inputs >> n) % 2 == 1,
        Wire::Reg(n) => row.registers[n as usize],
        Wire::Gate(n) => gates[n as usize],
    }
}

fn all_are(pins: &[Wire], row: &Begun, gates: &[bool]) -> bool
    requires { AllThere 64 (length row.now.registers.now) (length gates.now) pins.now }
    ensures { result ≡ all_of (begun_row row.now gates.now) pins.now }
{
    for pin in pins {
        if !wire_value(*pin, row, gates) {
            return false;
        }
    }
    true
}

fn any_is(pins: &[Wire], row: &Begun, gates: &[bool]) -> bool
    requires { AllThere 64 (length row.now.registers.now) (length gates.now) pins.now }
    ensures { result ≡ any_of (begun_row row.now gates.now) pins.now }
{
    for pin in pins {
        if wire_value(*pin, row, gates) {
            return true;
        }
    }
    false
}

fn odd_are(pins: &[Wire], row: &Begun, gates: &[bool]) -> bool
    requires { AllThere 64 (length row.now.registers.now) (length gates.now) pins.now }
    ensures { result ≡ odd_of (begun_row row.now gates.now) pins.now }
{
    let mut odd = false;
    for pin in pins {
        if wire_value(*pin, row, gates) {
            odd = !odd;
        }
    }
    odd
}

// What a gate of this kind makes of its pins.
fn gate_output(kind: GateKind, pins: &[Wire], row: &Begun, gates: &[bool]) -> bool
    requires { AllThere 64 (length row.now.registers.now) (length gates.now) pins.now }
    ensures { result ≡ output_of (begun_row row.now gates.now) kind pins.now }
{
    match kind {
        GateKind::Buf => all_are(pins, row, gates),
        GateKind::Not => !all_are(pins, row, gates),
        GateKind::And => all_are(pins, row, gates),
        GateKind::Or => any_is(pins, row, gates),
        GateKind::Nand => !all_are(pins, row, gates),
        GateKind::Nor => !any_is(pins, row, gates),
        GateKind::Xor => odd_are(pins, row, gates),
        GateKind::Xnor => !odd_are(pins, row, gates),
    }
}

/// The value of gate n.
pub(crate) fn gate_now(net: &FlatNetlist, row: &Begun, gates: &[bool], n: usize) -> bool
    requires circuit { IsCircuit net.now }
    requires registers { length row.now.registers.now ≡ length net.now.registers }
    requires gates { length gates.now ≡ length net.now.gates }
    requires there { n < length net.now.gates }
    ensures { (g : GateValue) → slice_get net.now.gates n ≡ Some g
        → result ≡ gate_value (begun_row row.now gates.now) g }
{
    gate_output(net.kind(n), net.pins(n), row, gates)
}

/// The values of all gates, which make the row.
pub(crate) fn settle(net: &FlatNetlist, row: &Begun, gates: &mut [bool])
    requires circuit { IsCircuit net.now }
    requires registers { length row.now.registers.now ≡ length net.now.registers }
    requires gates { length gates.old ≡ length net.now.gates }
    ensures { IsRow net.now.gates (begun_row row.now gates.new) }
{
    for n in 0..gates.len() {
        let output = gate_now(net, row, gates, n);
        gates[n] = output;
    }
}

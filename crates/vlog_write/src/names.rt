// The names of wires.
ghost use Rattle.std.specs.Prelude.{◌≡◌, [], ◌++◌, OnOk, OnErr, decimal, nat_eq, slice_index_or};
ghost use Rattle.std.specs.List.{find};
ghost use Rattle.std.specs.Option.{option_copied};
ghost use Rattle.net_core.specs.declared.netlist.Output.{Output as OutputValue};
ghost use Rattle.vlog_text.specs.Emitted.{driven, gate_name, kind_text, operand_text, reg_name};

use itoa::Buffer;
use net_core::{GateKind, Netlist, Output, Wire};
use pbs_base::Memory;

pub(crate) fn put(text: &mut Vec<u8>, piece: &[u8]) -> Result<(), Memory>
    ensures ok { OnOk result (text.new.items ≡ text.old.items ++ piece.now) }
    ensures err { OnErr result (text.new.items ≡ text.old.items) }
{
    match text.extend_from_slice(piece) {
        Ok(()) => Ok(()),
        Err(_) => Err(Memory),
    }
}

pub(crate) fn put_number(text: &mut Vec<u8>, number: usize) -> Result<(), Memory>
    ensures { OnOk result (text.new.items ≡ text.old.items ++ decimal number) }
{
    let mut buffer = Buffer::new();
    put(text, buffer.format(number).as_bytes())
}

// The output that the gate drives.
pub(crate) fn driven(net: &Netlist, gate: usize) -> Option<&Output>
    ensures { option_copied result ≡ driven net.now gate }
{
    driven_by(net.outputs(), gate)
}

fn driven_by(outputs: &[Output], gate: usize) -> Option<&Output>
    ensures { option_copied result ≡ find (λ (o : OutputValue). nat_eq o.gate gate) outputs.now }
{
    outputs.iter().find(|output| output.gate as usize == gate)
}

pub(crate) fn put_gate_name(text: &mut Vec<u8>, net: &Netlist, gate: usize) -> Result<(), Memory>
    ensures { OnOk result (text.new.items ≡ text.old.items ++ gate_name net.now gate) }
{
    match driven(net, gate) {
        Some(output) => put(text, output.name.bytes()),
        None => {
            put(text, b"w")?;
            put_number(text, gate)
        }
    }
}

pub(crate) fn put_reg_name(text: &mut Vec<u8>, reg: usize) -> Result<(), Memory>
    ensures { OnOk result (text.new.items ≡ text.old.items ++ reg_name reg) }
{
    put(text, b"q")?;
    put_number(text, reg)
}

fn put_input_name(text: &mut Vec<u8>, net: &Netlist, input: usize) -> Result<(), Memory>
    ensures { OnOk result (text.new.items ≡ text.old.items ++ slice_index_or net.now.inputs input []) }
{
    match net.inputs().get(input) {
        Some(name) => put(text, name.bytes()),
        None => Ok(()),
    }
}

pub(crate) fn put_operand(text: &mut Vec<u8>, net: &Netlist, wire: Wire) -> Result<(), Memory>
    ensures { OnOk result (text.new.items ≡ text.old.items ++ operand_text net.now wire) }
{
    match wire {
        Wire::Const(false) => put(text, b"1'b0"),
        Wire::Const(true) => put(text, b"1'b1"),
        Wire::Reset => put(text, b"rst"),
        Wire::Input(n) => put_input_name(text, net, n as usize),
        Wire::Reg(n) => put_reg_name(text, n as usize),
        Wire::Gate(n) => put_gate_name(text, net, n as usize),
    }
}

pub(crate) fn kind_name(kind: GateKind) -> &'static [u8]
    ensures { result.now ≡ kind_text kind }
{
    match kind {
        GateKind::Buf => b"buf",
        GateKind::Not => b"not",
        GateKind::And => b"and",
        GateKind::Or => b"or",
        GateKind::Nand => b"nand",
        GateKind::Nor => b"nor",
        GateKind::Xor => b"xor",
        GateKind::Xnor => b"xnor",
    }
}

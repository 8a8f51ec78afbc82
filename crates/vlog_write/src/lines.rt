// The lines of the text.
ghost use Rattle.std.specs.Prelude.{◌≡◌, ◌++◌, OnOk, codes};
ghost use Rattle.std.specs.List.{flat_map};
ghost use Rattle.net_core.specs.declared.gate.Wire.{Wire as WireValue};
ghost use Rattle.vlog_text.specs.Emitted.{always_line, declared, driven, gate_line, listed, operand_text};
ghost use Rattle.vlog_text.specs.Emitted.{reg_name, wire_line};

use crate::names::{driven, kind_name, put, put_gate_name, put_number, put_operand, put_reg_name};
use net_core::{Gate, Netlist, Wire};
use pbs_base::Memory;

pub(crate) fn put_listed(text: &mut Vec<u8>, name: &[u8]) -> Result<(), Memory>
    ensures { OnOk result (text.new.items ≡ text.old.items ++ listed name.now) }
{
    put(text, b", ")?;
    put(text, name)
}

pub(crate) fn put_declared(text: &mut Vec<u8>, word: &[u8], name: &[u8]) -> Result<(), Memory>
    ensures { OnOk result (text.new.items ≡ text.old.items ++ declared word.now name.now) }
{
    put(text, word)?;
    put(text, b" ")?;
    put(text, name)?;
    put(text, b";\n")
}

pub(crate) fn put_reg_line(text: &mut Vec<u8>, reg: usize) -> Result<(), Memory>
    ensures { OnOk result (text.new.items ≡ text.old.items ++ declared (codes "reg") (reg_name reg)) }
{
    put(text, b"reg ")?;
    put_reg_name(text, reg)?;
    put(text, b";\n")
}

pub(crate) fn put_wire_line(text: &mut Vec<u8>, net: &Netlist, gate: usize) -> Result<(), Memory>
    ensures { OnOk result (text.new.items ≡ text.old.items ++ wire_line (driven net.now gate) gate) }
{
    match driven(net, gate) {
        Some(_) => Ok(()),
        None => {
            put(text, b"wire w")?;
            put_number(text, gate)?;
            put(text, b";\n")
        }
    }
}

fn put_pin(text: &mut Vec<u8>, net: &Netlist, pin: Wire) -> Result<(), Memory>
    ensures { OnOk result (text.new.items ≡ text.old.items ++ listed (operand_text net.now pin)) }
{
    put(text, b", ")?;
    put_operand(text, net, pin)
}

fn put_pins(text: &mut Vec<u8>, net: &Netlist, pins: &[Wire]) -> Result<(), Memory>
    ensures { OnOk result (text.new.items ≡ text.old.items
        ++ flat_map (λ (w : WireValue). listed (operand_text net.now w)) pins.now) }
{
    for pin in pins {
        put_pin(text, net, *pin)?;
    }
    Ok(())
}

pub(crate) fn put_gate_line(
    text: &mut Vec<u8>,
    net: &Netlist,
    number: usize,
    gate: &Gate,
) -> Result<(), Memory>
    ensures { OnOk result (text.new.items ≡ text.old.items ++ gate_line net.now number gate.now) }
{
    put(text, kind_name(gate.kind))?;
    put(text, b" (")?;
    put_gate_name(text, net, number)?;
    put_pins(text, net, gate.pins.as_slice())?;
    put(text, b");\n")
}

pub(crate) fn put_always_line(
    text: &mut Vec<u8>,
    net: &Netlist,
    reg: usize,
    wire: Wire,
) -> Result<(), Memory>
    ensures { OnOk result (text.new.items ≡ text.old.items ++ always_line net.now reg wire) }
{
    put(text, b"always @(posedge clk) ")?;
    put_reg_name(text, reg)?;
    put(text, b" <= ")?;
    put_operand(text, net, wire)?;
    put(text, b";\n")
}

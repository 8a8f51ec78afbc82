// The whole text.
ghost use Rattle.std.specs.Prelude.{◌≡◌, ◌++◌, OnOk, OnErr, map, codes};
ghost use Rattle.std.specs.List.{flat_map};
ghost use Rattle.net_core.specs.declared.netlist.Output.{Output as OutputValue};
ghost use Rattle.vlog_text.specs.Emitted.{always_lines, declared, emitted, gate_lines, input_lines, listed};
ghost use Rattle.vlog_text.specs.Emitted.{module_line, output_lines, reg_lines, wire_lines};

use crate::lines::{
    put_always_line, put_declared, put_gate_line, put_listed, put_reg_line, put_wire_line,
};
use crate::names::put;
use net_core::{Netlist, Output};
use pbs_base::{Memory, Names};
use std::alloc::Global;

fn put_listed_inputs(text: &mut Vec<u8>, inputs: &Names) -> Result<(), Memory>
    ensures { OnOk result (text.new.items ≡ text.old.items ++ flat_map listed inputs.now) }
{
    for n in 0..inputs.len() {
        let Some(name) = inputs.get(n) else {
            return Err(Memory);
        };
        put_listed(text, name.bytes())?;
    }
    Ok(())
}

fn put_listed_outputs(text: &mut Vec<u8>, outputs: &[Output]) -> Result<(), Memory>
    ensures { OnOk result (text.new.items ≡ text.old.items
        ++ flat_map listed (map (λ (o : OutputValue). o.name) outputs.now)) }
{
    for output in outputs {
        put_listed(text, output.name.bytes())?;
    }
    Ok(())
}

fn put_module_line(text: &mut Vec<u8>, net: &Netlist) -> Result<(), Memory>
    ensures { OnOk result (text.new.items ≡ text.old.items ++ module_line net.now) }
{
    put(text, b"module pbs (clk, rst")?;
    put_listed_inputs(text, net.inputs())?;
    put_listed_outputs(text, net.outputs())?;
    put(text, b");\n")
}

fn put_declared_inputs(text: &mut Vec<u8>, inputs: &Names) -> Result<(), Memory>
    ensures { OnOk result (text.new.items ≡ text.old.items ++ flat_map (declared (codes "input")) inputs.now) }
{
    for n in 0..inputs.len() {
        let Some(name) = inputs.get(n) else {
            return Err(Memory);
        };
        put_declared(text, b"input", name.bytes())?;
    }
    Ok(())
}

fn put_input_lines(text: &mut Vec<u8>, net: &Netlist) -> Result<(), Memory>
    ensures { OnOk result (text.new.items ≡ text.old.items ++ input_lines net.now) }
{
    put(text, b"input clk;\ninput rst;\n")?;
    put_declared_inputs(text, net.inputs())
}

fn put_declared_outputs(text: &mut Vec<u8>, outputs: &[Output]) -> Result<(), Memory>
    ensures { OnOk result (text.new.items ≡ text.old.items
        ++ flat_map (declared (codes "output")) (map (λ (o : OutputValue). o.name) outputs.now)) }
{
    for output in outputs {
        put_declared(text, b"output", output.name.bytes())?;
    }
    Ok(())
}

fn put_output_lines(text: &mut Vec<u8>, net: &Netlist) -> Result<(), Memory>
    ensures { OnOk result (text.new.items ≡ text.old.items ++ output_lines net.now) }
{
    put_declared_outputs(text, net.outputs())
}

fn put_reg_lines(text: &mut Vec<u8>, net: &Netlist) -> Result<(), Memory>
    ensures { OnOk result (text.new.items ≡ text.old.items ++ reg_lines net.now) }
{
    for (reg, _) in net.registers().iter().enumerate() {
        put_reg_line(text, reg)?;
    }
    Ok(())
}

fn put_wire_lines(text: &mut Vec<u8>, net: &Netlist) -> Result<(), Memory>
    ensures { OnOk result (text.new.items ≡ text.old.items ++ wire_lines net.now) }
{
    for (gate, _) in net.gates().iter().enumerate() {
        put_wire_line(text, net, gate)?;
    }
    Ok(())
}

fn put_gate_lines(text: &mut Vec<u8>, net: &Netlist) -> Result<(), Memory>
    ensures { OnOk result (text.new.items ≡ text.old.items ++ gate_lines net.now) }
{
    for (number, gate) in net.gates().iter().enumerate() {
        put_gate_line(text, net, number, gate)?;
    }
    Ok(())
}

fn put_always_lines(text: &mut Vec<u8>, net: &Netlist) -> Result<(), Memory>
    ensures { OnOk result (text.new.items ≡ text.old.items ++ always_lines net.now) }
{
    for (reg, wire) in net.registers().iter().enumerate() {
        put_always_line(text, net, reg, *wire)?;
    }
    Ok(())
}

fn put_netlist(text: &mut Vec<u8>, net: &Netlist) -> Result<(), Memory>
    ensures { OnOk result (text.new.items ≡ text.old.items ++ emitted net.now) }
{
    put_module_line(text, net)?;
    put_input_lines(text, net)?;
    put_output_lines(text, net)?;
    put_reg_lines(text, net)?;
    put_wire_lines(text, net)?;
    put_gate_lines(text, net)?;
    put_always_lines(text, net)?;
    put(text, b"endmodule\n")
}

/// Appends the netlist as Verilog. `Memory` leaves `out` as it was.
pub fn write_netlist(alloc: Global, net: &Netlist, out: &mut Vec<u8>) -> Result<(), Memory>
    ensures ok { OnOk result (out.new.items ≡ out.old.items ++ emitted net.now) }
    ensures err { OnErr result (out.new.items ≡ out.old.items) }
{
    let mut text = Vec::new(alloc);
    put_netlist(&mut text, net)?;
    put(out, text.as_slice())
}

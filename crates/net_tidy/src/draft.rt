// A circuit that gets its outputs.
ghost use Rattle.std.specs.Prelude.{◌≡◌, ◌<◌, ◌+◌, [], length, OnOk};
ghost use Rattle.net_core.specs.Circuits.{Exists, FitsIn, IsCircuit, IsNewName, circuit_of, output_names};
ghost use Rattle.net_core.specs.Building.{Keeps, with_gate, with_output};
ghost use Rattle.net_tidy.specs.inner.Assembled.{HasEach, OutputsLast, Shows};

use crate::form::{Form, gate_of};
use net_core::{Gate, Gates, Netlist, Output, Outputs, Wire, Wires};
use pbs_base::{Memory, Names, Word};
use std::alloc::Global;
use std::marker::Model;

/// The most gates. A call that would pass it answers `Memory`.
const MOST: usize = 4_294_967_294;

/// A circuit to which outputs are added. Once a call has answered `Memory`, it is only to be dropped.
#[derive(Drop)]
pub(crate) struct Draft {
    inputs: Names,
    outputs: Outputs,
    gates: Gates,
    regs: Wires,
    alloc: Global,
}

impl Model for Draft {
    ghost use Rattle.net_core.specs.Circuits.{Circuit, IsCircuit, circuit_of};

    ghost Value = { Circuit };

    ghost view = { λ d. circuit_of d.inputs d.gates d.regs d.outputs };

    ghost invariant = { λ d. IsCircuit (circuit_of d.inputs d.gates d.regs d.outputs) };
}

impl Draft {
    pub(crate) fn new(alloc: Global, inputs: Names, gates: Gates, regs: Wires) -> Draft
        requires { IsCircuit (circuit_of inputs gates regs []) }
        ensures { result ≡ circuit_of inputs gates regs [] }
    {
        Draft {
            inputs,
            outputs: Outputs::new(alloc),
            gates,
            regs,
            alloc,
        }
    }

    fn push_gate(&mut self, gate: Gate) -> Result<(), Memory>
        requires { FitsIn self.old gate }
        ensures { OnOk result (self.new ≡ with_gate self.old gate) }
    {
        if self.gates.len() >= MOST {
            return Err(Memory);
        }
        self.gates.push(gate)?;
        Ok(())
    }

    /// Adds an output that shows the wire.
    pub(crate) fn output(&mut self, name: Word, wire: Wire) -> Result<(), Memory>
        requires name { IsNewName self.old.outputs name }
        requires few { length self.old.outputs < 128 }
        requires wire { Exists self.old wire }
        ensures { OnOk result (self.new ≡ with_output self.old name wire) }
    {
        let gate = gate_of(self.alloc, Form::Same(wire))?;
        let number = self.gates.len();
        self.push_gate(gate)?;
        self.outputs.push(Output {
            name,
            gate: number as u32,
        })?;
        Ok(())
    }

    pub(crate) fn finish(self) -> Netlist
        ensures netlist { result ≡ self }
        ensures right { IsCircuit result }
    {
        let Draft {
            inputs,
            outputs,
            gates,
            regs,
            alloc: _,
        } = self;
        Netlist::from_parts(inputs, outputs, gates, regs)
    }
}

/// One output for each output of the netlist.
pub(crate) fn add_outputs(
    alloc: Global,
    d: &mut Draft,
    net: &Netlist,
    wires: &Wires,
) -> Result<(), Memory>
    requires none { d.old.outputs ≡ [] }
    requires count { length net.now.outputs ≡ length wires.now }
    requires there { HasEach d.old wires.now }
    ensures keeps { OnOk result (Keeps d.old d.new) }
    ensures inputs { OnOk result (d.new.inputs ≡ d.old.inputs) }
    ensures registers { OnOk result (d.new.registers ≡ d.old.registers) }
    ensures gates { OnOk result (length d.new.gates ≡ length d.old.gates + length net.now.outputs) }
    ensures names { OnOk result (output_names d.new ≡ output_names net.now) }
    ensures shows { OnOk result (Shows d.new wires.now (length net.now.outputs)) }
    ensures last { OnOk result (OutputsLast d.old d.new wires.now (length net.now.outputs)) }
{
    net.gates();
    let outputs = net.outputs();
    for a in 0..outputs.len() {
        let Some(wire) = wires.get(a) else {
            unreachable!();
        };
        let name = Word::new(alloc, outputs[a].name.bytes())?;
        d.output(name, *wire)?;
    }
    Ok(())
}

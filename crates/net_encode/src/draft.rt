// A netlist that grows by gates of any kind.
ghost use Rattle.std.specs.Prelude.{◌≡◌, ◌<◌, ◌≤◌, ◌+◌, [], ◌∷◌, ◌&&◌, ◌||◌, not, length, IfOk, OnOk};
ghost use Rattle.net_core.specs.Rows.{value};
ghost use Rattle.net_core.specs.Circuits.{AllThere, AreOutputs, Exists, FitsIn, IsCircuit, circuit_of};
ghost use Rattle.net_core.specs.Building.{input_pin, with_gate};
ghost use Rattle.net_encode.specs.inner.Drafts.{Draws, IsInside, unbound};
ghost use Rattle.net_encode.specs.inner.Unread.{LeavesUnread};

use net_core::{Gate, GateKind, Gates, Netlist, Outputs, Pins, Wire, Wires};
use pbs_base::{Memory, Names};
use std::alloc::Global;
use std::marker::Model;

/// The most gates, and the most registers. A call that would pass it answers `Memory`.
pub(crate) const MOST: usize = 4_294_967_294;

/// A netlist with a number of registers, as it grows gate by gate. Once a call has answered `Memory`, the draft is only
/// to be dropped.
#[derive(Drop)]
pub(crate) struct Draft {
    inputs: Names,
    gates: Gates,
    regs: usize,
    alloc: Global,
}

impl Model for Draft {
    ghost use Rattle.std.specs.Prelude.{[], false, replicate};
    ghost use Rattle.net_core.specs.declared.gate.Wire.TheVariants.{Const};
    ghost use Rattle.net_core.specs.Circuits.{Circuit, IsCircuit, circuit_of};

    ghost Value = { Circuit };

    ghost view = { λ d. circuit_of d.inputs d.gates (replicate d.regs (Const false)) [] };

    ghost invariant = { λ d. IsCircuit (circuit_of d.inputs d.gates (replicate d.regs (Const false)) []) };
}

fn one_pin(alloc: Global, wire: Wire) -> Result<Pins, Memory>
    ensures { IfOk result (λ pins. pins ≡ wire ∷ []) }
{
    let mut pins = Pins::new(alloc);
    pins.push(wire)?;
    Ok(pins)
}

fn two_pins(alloc: Global, first: Wire, second: Wire) -> Result<Pins, Memory>
    ensures { IfOk result (λ pins. pins ≡ first ∷ second ∷ []) }
{
    let mut pins = Pins::new(alloc);
    pins.push(first)?;
    pins.push(second)?;
    Ok(pins)
}

impl Draft {
    pub(crate) fn new(alloc: Global, inputs: Names, registers: usize) -> Result<Draft, Memory>
        requires { length inputs ≤ 64 }
        ensures { IfOk result (λ draft. draft ≡ circuit_of inputs [] (unbound registers) []) }
    {
        if registers > MOST {
            return Err(Memory);
        }
        Ok(Draft {
            inputs,
            gates: Gates::new(alloc),
            regs: registers,
            alloc,
        })
    }

    /// How many gates there are.
    pub(crate) fn gates(&self) -> usize
        ensures count { result ≡ length self.now.gates }
        ensures few { result < 4294967295 }
        ensures right { IsCircuit self.now }
    {
        self.gates.len()
    }

    pub(crate) fn allocator(&self) -> Global {
        self.alloc
    }

    pub(crate) fn push_gate(&mut self, gate: Gate) -> Result<Wire, Memory>
        requires { FitsIn self.old gate }
        ensures gate { OnOk result (self.new ≡ with_gate self.old gate) }
        ensures wire { IfOk result (λ wire. wire ≡ Wire.Gate (length self.old.gates)) }
    {
        let number = self.gates.len();
        if number >= MOST {
            return Err(Memory);
        }
        self.gates.push(gate)?;
        Ok(Wire::Gate(number as u32))
    }

    pub(crate) fn buf(&mut self, a: Wire) -> Result<Wire, Memory>
        requires { Exists self.old a }
        ensures draws { IfOk result (λ wire. Draws self.old self.new wire 1 (input_pin a) (λ row. value row a)) }
        ensures unread { IfOk result (λ wire. LeavesUnread self.old self.new (a ∷ []) (wire ∷ [])) }
    {
        let pins = one_pin(self.alloc, a)?;
        self.push_gate(Gate {
            kind: GateKind::Buf,
            pins,
        })
    }

    pub(crate) fn not(&mut self, a: Wire) -> Result<Wire, Memory>
        requires { Exists self.old a }
        ensures draws { IfOk result (λ wire. Draws self.old self.new wire 1 (input_pin a) (λ row. not (value row a))) }
        ensures wire { IfOk result (λ wire. wire ≡ Wire.Gate (length self.old.gates)) }
    {
        let pins = one_pin(self.alloc, a)?;
        self.push_gate(Gate {
            kind: GateKind::Not,
            pins,
        })
    }

    pub(crate) fn and(&mut self, a: Wire, b: Wire) -> Result<Wire, Memory>
        requires first { Exists self.old a }
        requires second { Exists self.old b }
        ensures { IfOk result (λ wire.
            Draws self.old self.new wire 1 (input_pin a + input_pin b) (λ row. value row a && value row b)) }
    {
        let pins = two_pins(self.alloc, a, b)?;
        self.push_gate(Gate {
            kind: GateKind::And,
            pins,
        })
    }

    pub(crate) fn or(&mut self, a: Wire, b: Wire) -> Result<Wire, Memory>
        requires first { Exists self.old a }
        requires second { Exists self.old b }
        ensures draws { IfOk result (λ wire.
            Draws self.old self.new wire 1 (input_pin a + input_pin b) (λ row. value row a || value row b)) }
        ensures unread { IfOk result (λ wire. LeavesUnread self.old self.new (a ∷ b ∷ []) (wire ∷ [])) }
    {
        let pins = two_pins(self.alloc, a, b)?;
        self.push_gate(Gate {
            kind: GateKind::Or,
            pins,
        })
    }

    /// Both wires; no gate where the first is the constant 1.
    pub(crate) fn both(&mut self, a: Wire, b: Wire) -> Result<Wire, Memory>
        requires first { IsInside self.old a }
        requires second { IsInside self.old b }
        ensures { IfOk result (λ wire. Draws self.old self.new wire 1 0 (λ row. value row a && value row b)) }
    {
        match a {
            Wire::Const(true) => Ok(b),
            _ => self.and(a, b),
        }
    }

    /// Either wire; no gate where the first is the constant 0.
    pub(crate) fn either(&mut self, a: Wire, b: Wire) -> Result<Wire, Memory>
        requires first { IsInside self.old a }
        requires second { IsInside self.old b }
        ensures draws { IfOk result (λ wire. Draws self.old self.new wire 1 0 (λ row. value row a || value row b)) }
        ensures unread { IfOk result (λ wire. LeavesUnread self.old self.new (a ∷ b ∷ []) (wire ∷ [])) }
    {
        match a {
            Wire::Const(false) => Ok(b),
            _ => self.or(a, b),
        }
    }

    /// The same wire, behind a gate where it is an input.
    pub(crate) fn behind(&mut self, a: Wire) -> Result<Wire, Memory>
        requires { Exists self.old a }
        ensures draws { IfOk result (λ wire. Draws self.old self.new wire 1 (input_pin a) (λ row. value row a)) }
        ensures unread { IfOk result (λ wire. LeavesUnread self.old self.new (a ∷ []) (wire ∷ [])) }
    {
        match a {
            Wire::Input(_) => self.buf(a),
            _ => Ok(a),
        }
    }

    /// The netlist with these data wires and outputs.
    pub(crate) fn finish(self, regs: Wires, outputs: Outputs) -> Netlist
        requires count { length regs ≡ length self.registers }
        requires regs { AllThere (length self.inputs) (length self.registers) (length self.gates) regs }
        requires few { length outputs ≤ 128 }
        requires outputs { AreOutputs (length self.gates) outputs }
        ensures netlist { result ≡ circuit_of self.inputs self.gates regs outputs }
        ensures right { IsCircuit result }
    {
        let Draft {
            inputs,
            gates,
            regs: _,
            alloc: _,
        } = self;
        let net = Netlist::from_parts(inputs, outputs, gates, regs);
        net.gates();
        net
    }
}

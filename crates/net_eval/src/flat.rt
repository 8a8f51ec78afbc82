// A netlist laid out for its simulation.
ghost use Rattle.std.specs.Prelude.{◌≡◌, ◌<◌, length, slice_get, Some, IfOk};
ghost use Rattle.net_core.specs.declared.gate.Gate.{Gate as GateValue};
ghost use Rattle.net_core.specs.Circuits.{IsThere};
ghost use Rattle.net_eval.specs.Readers.{readers_from};
ghost use Rattle.net_eval.specs.inner.Flat.{AreLaid};

use crate::readers::Fanout;
use net_core::{Gate, GateKind, Netlist, Output, Wire};
use pbs_base::Memory;
use std::alloc::Global;
use std::marker::Model;

/// The kinds of gates, and their pins: one list behind the other, and where each starts.
#[derive(Drop)]
pub struct FlatGates {
    pub kinds: Vec<GateKind>,
    pub starts: Vec<usize>,
    pub pins: Vec<Wire>,
}

/// A netlist, its gates laid out flat, and the readers of its wires.
#[derive(Drop)]
pub struct FlatNetlist<'a> {
    net: &'a Netlist,
    gates: FlatGates,
    fanout: Fanout,
}

impl<'a> Model for FlatNetlist<'a> {
    ghost use Rattle.net_core.specs.Circuits.{Circuit};
    ghost use Rattle.net_eval.specs.Readers.{IsFanout};
    ghost use Rattle.net_eval.specs.inner.Flat.{AreLaid};

    ghost Value = { Circuit };

    ghost view = { λ f. f.net.now };

    ghost invariant = { λ f. AreLaid f.gates f.net.now.gates × IsFanout f.net.now f.fanout };
}

impl<'a> FlatNetlist<'a> {
    /// The netlist, laid out.
    pub(crate) fn new(alloc: Global, net: &'a Netlist) -> Result<FlatNetlist<'a>, Memory>
        ensures { IfOk result (λ flat. flat ≡ net.now) }
    {
        let gates = lay_out(alloc, net.gates())?;
        let fanout = Fanout::of(alloc, net)?;
        Ok(FlatNetlist { net, gates, fanout })
    }

    /// The kind of gate n.
    pub(crate) fn kind(&self, n: usize) -> GateKind
        requires { n < length self.now.gates }
        ensures { (g : GateValue) → slice_get self.now.gates n ≡ Some g → result ≡ g.kind }
    {
        self.gates.kinds[n]
    }

    /// The pins of gate n.
    pub(crate) fn pins(&self, n: usize) -> &[Wire]
        requires { n < length self.now.gates }
        ensures { (g : GateValue) → slice_get self.now.gates n ≡ Some g → result.now ≡ g.pins }
    {
        &self.gates.pins[self.gates.starts[n]..self.gates.starts[n + 1]]
    }

    /// The gates that have the wire as a pin, each once, in rising order.
    pub(crate) fn readers(&self, wire: Wire) -> &[u32]
        requires { IsThere 64 (length self.now.registers) (length self.now.gates) wire }
        ensures { result.now ≡ readers_from 0 self.now.gates wire }
    {
        self.fanout.readers(wire)
    }

    /// The data wire of each register.
    pub(crate) fn registers(&self) -> &[Wire]
        ensures { result.now ≡ self.now.registers }
    {
        self.net.registers()
    }

    /// The outputs, each with the gate that drives it.
    pub(crate) fn outputs(&self) -> &[Output]
        ensures { result.now ≡ self.now.outputs }
    {
        self.net.outputs()
    }
}

// The kinds and the pins of the gates.
fn lay_out(alloc: Global, gates: &[Gate]) -> Result<FlatGates, Memory>
    ensures { IfOk result (λ laid. AreLaid laid gates.now) }
{
    let mut kinds = Vec::new(alloc);
    let mut starts = Vec::new(alloc);
    let mut pins = Vec::new(alloc);
    starts.push(0usize)?;
    for n in 0..gates.len() {
        kinds.push(gates[n].kind)?;
        pins.extend_from_slice(gates[n].pins.as_slice())?;
        starts.push(pins.len())?;
    }
    Ok(FlatGates {
        kinds,
        starts,
        pins,
    })
}

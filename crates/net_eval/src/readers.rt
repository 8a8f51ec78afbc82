// Which gates read a wire.
ghost use Rattle.std.specs.Prelude.{◌≡◌, ℕ, ◌<◌, ◌≤◌, ◌+◌, ◌++◌, List, length, drop, IfOk, OnOk};
ghost use Rattle.net_core.specs.declared.gate.Wire.{Wire as WireValue};
ghost use Rattle.net_core.specs.Circuits.{IsThere};
ghost use Rattle.net_eval.specs.Readers.{IsFanout, gate_count, readers_at, wire_number};
ghost use Rattle.net_eval.specs.inner.Chains.{AreSound, HasLists, Holds, IsChain};

use crate::chains::{Chains, chains_of, place};
use net_core::{Netlist, Wire};
use pbs_base::Memory;
use std::alloc::Global;
use std::marker::Model;

/// For each wire of a netlist the gates that have it as a pin: one list behind the other, and where each starts.
#[derive(Drop)]
pub struct Fanout {
    registers: usize,
    starts: Vec<usize>,
    gates: Vec<u32>,
}

impl Model for Fanout {
    ghost use Rattle.net_eval.specs.Readers.{AreStarts, Readers, readers_of};

    ghost Value = { Readers };

    ghost view = { λ f. readers_of f.registers f.starts.items f.gates.items };

    ghost invariant = { λ f. AreStarts f.registers f.starts.items f.gates.items };
}

impl Fanout {
    /// The readers of each wire of the netlist.
    pub fn of(alloc: Global, net: &Netlist) -> Result<Fanout, Memory>
        ensures { IfOk result (λ fanout. IsFanout net.now fanout) }
    {
        let registers = net.registers().len();
        let chains = chains_of(alloc, net.gates(), registers)?;
        flatten(alloc, &chains, registers)
    }

    /// The gates that have the wire as a pin, each once, in rising order.
    pub fn readers(&self, wire: Wire) -> &[u32]
        requires { IsThere 64 self.now.registers (gate_count self.now) wire }
        ensures { result.now ≡ readers_at self.now wire }
    {
        let k = place(wire, self.registers);
        &self.gates[self.starts[k]..self.starts[k + 1]]
    }
}

// Adds the list that begins at this node at the end.
fn add_list(gates: &mut Vec<u32>, chains: &Chains, head: usize) -> Result<(), Memory>
    requires sound { AreSound chains.now }
    requires head { head ≤ length chains.now.nexts.items }
    ensures front { OnOk result (gates.new.items ≡ gates.old.items ++ drop (length gates.old.items) gates.new.items) }
    ensures list { (list : List ℕ) → IsChain chains.now.gates.items chains.now.nexts.items head list
        → OnOk result (gates.new.items ≡ gates.old.items ++ list) }
{
    let mut node = head;
    while node != 0 {
        gates.push(chains.gates[node - 1])?;
        node = chains.nexts[node - 1];
    }
    Ok(())
}

// Puts the lists of all wires one behind the other.
fn flatten(alloc: Global, chains: &Chains, registers: usize) -> Result<Fanout, Memory>
    requires few { registers < 4294967295 }
    requires sound { AreSound chains.now }
    requires long { 67 + registers ≤ length chains.now.heads.items }
    ensures { (count : ℕ) (of : WireValue → List ℕ) → Holds chains.now registers count of
        → IfOk result (λ fanout. HasLists fanout registers count of) }
{
    let mut starts = Vec::new(alloc);
    let mut gates = Vec::new(alloc);
    starts.push(0usize)?;
    for k in 0..chains.heads.len() {
        add_list(&mut gates, chains, chains.heads[k])?;
        starts.push(gates.len())?;
    }
    Ok(Fanout {
        registers,
        starts,
        gates,
    })
}

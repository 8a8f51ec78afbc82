// How the readers of each wire are found.
ghost use Rattle.std.specs.Prelude.{◌≡◌, ℕ, ◌<◌, ◌≤◌, ◌+◌, ◌∷◌, [], List, length, cond, false, IfOk, OnOk};
ghost use Rattle.std.specs.Prelude.{slice_get, Some};
ghost use Rattle.net_core.specs.declared.gate.Wire.{Wire as WireValue};
ghost use Rattle.net_core.specs.Circuits.{AllThere, IsThere};
ghost use Rattle.net_eval.specs.Assignments.{IsOrdered};
ghost use Rattle.net_eval.specs.Readers.{has_pin, is_wire, readers_from, wire_number};
ghost use Rattle.net_eval.specs.inner.Chains.{AreSound, Holds, IsChain, is_first, with_first};

use net_core::{Gate, Wire};
use pbs_base::Memory;
use std::alloc::Global;

/// For each wire the gates that read it, the last one found first. A node is a gate and the node before it, and `heads`
/// has for each wire its last node; there a node is its place, counted from 1, and 0 is none.
#[derive(Drop)]
pub struct Chains {
    pub heads: Vec<usize>,
    pub gates: Vec<u32>,
    pub nexts: Vec<usize>,
}

/// The place of the wire among all wires of a netlist with this many registers.
pub(crate) fn place(wire: Wire, registers: usize) -> usize
    requires { registers < 4294967295 }
    ensures { result ≡ wire_number registers wire }
{
    match wire {
        Wire::Const(bit) => usize::from(bit),
        Wire::Reset => 2,
        Wire::Input(n) => 3 + n as usize,
        Wire::Reg(n) => 67 + n as usize,
        Wire::Gate(n) => 67 + registers + n as usize,
    }
}

// No wire has a reader.
fn no_chains(alloc: Global, registers: usize, gates: usize) -> Result<Chains, Memory>
    requires registers { registers < 4294967295 }
    requires gates { gates < 4294967295 }
    ensures { IfOk result (λ chains. Holds chains registers gates (λ w. [])) }
{
    Ok(Chains {
        heads: vec![in alloc; 0usize; 67 + registers + gates]?,
        gates: Vec::new(alloc),
        nexts: Vec::new(alloc),
    })
}

// The gate is the first of the list that begins at this node.
fn is_newest(chains: &Chains, head: usize, gate: u32) -> bool
    requires { head ≤ length chains.now.gates.items }
    ensures { (list : List ℕ) → IsChain chains.now.gates.items chains.now.nexts.items head list
        → result ≡ is_first gate list }
{
    head != 0 && chains.gates[head - 1] == gate
}

// Puts the gate in front of the wire's list, unless it is there.
fn add_reader(chains: &mut Chains, registers: usize, wire: Wire, gate: u32) -> Result<(), Memory>
    requires few { registers < 4294967295 }
    requires sound { AreSound chains.old }
    requires there { wire_number registers wire < length chains.old.heads.items }
    ensures sound { OnOk result (AreSound chains.new) }
    ensures heads { length chains.new.heads.items ≡ length chains.old.heads.items }
    ensures holds { (gates : ℕ) (of : WireValue → List ℕ) → IsThere 64 registers gates wire
        → Holds chains.old registers gates of
        → OnOk result (Holds chains.new registers gates
        (λ w. cond (is_wire w wire) (with_first gate (of w)) (of w))) }
{
    let k = place(wire, registers);
    let head = chains.heads[k];
    if is_newest(chains, head, gate) {
        return Ok(());
    }
    chains.gates.push(gate)?;
    chains.nexts.push(head)?;
    chains.heads[k] = chains.gates.len();
    Ok(())
}

// Puts the gate in front of the lists of its pins, each once.
fn add_gate(chains: &mut Chains, registers: usize, pins: &[Wire], gate: u32) -> Result<(), Memory>
    requires few { registers < 4294967295 }
    requires sound { AreSound chains.old }
    requires there { (j : ℕ) (w : WireValue) → slice_get pins.now j ≡ Some w
        → wire_number registers w < length chains.old.heads.items }
    ensures sound { OnOk result (AreSound chains.new) }
    ensures heads { length chains.new.heads.items ≡ length chains.old.heads.items }
    ensures holds { (gates : ℕ) (of : WireValue → List ℕ) → AllThere 64 registers gates pins.now
        → ((w : WireValue) → is_first gate (of w) ≡ false) → Holds chains.old registers gates of
        → OnOk result (Holds chains.new registers gates
        (λ w. cond (has_pin w pins.now) (gate ∷ of w) (of w))) }
{
    for pin in pins {
        add_reader(chains, registers, *pin, gate)?;
    }
    Ok(())
}

/// The readers of each wire.
pub(crate) fn chains_of(alloc: Global, net: &[Gate], registers: usize) -> Result<Chains, Memory>
    requires registers { registers < 4294967295 }
    requires gates { length net.now < 4294967295 }
    requires ordered { IsOrdered 64 registers net.now }
    ensures { IfOk result (λ chains. Holds chains registers (length net.now) (λ w. readers_from 0 net.now w)) }
{
    let mut chains = no_chains(alloc, registers, net.len())?;
    for done in 0..net.len() {
        let n = net.len() - 1 - done;
        add_gate(&mut chains, registers, net[n].pins.as_slice(), n as u32)?;
    }
    Ok(chains)
}

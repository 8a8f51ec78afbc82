// From the tree of main to its circuit.
ghost use Rattle.std.specs.Prelude.{◌≡◌, ◌+◌, ◌*◌, ◌≤◌, ◌<◌, ◌^◌, [], ◌++◌, false, length, replicate, take, drop};
ghost use Rattle.std.specs.Prelude.{IfOk, OnOk, IsTrue};
ghost use Rattle.pbs_ast.specs.Trees.{tree_of};
ghost use Rattle.pbs_ast.specs.Sound.{actions_below, inputs_below, node_count, place_count, tree_input_leaves};
ghost use Rattle.net_core.specs.Circuits.{Circuit};
ghost use Rattle.net_core.specs.Building.{Extends, HasAll, Keeps};
ghost use Rattle.frag_compose.specs.inner.Fits.{TreeFits};
ghost use Rattle.frag_compose.specs.Composes.{Composes, Follows, own_code, own_codes};
ghost use Rattle.frag_compose.specs.inner.Gains.{ReachesAll, with_registers};

use crate::descend::descend;
use crate::rise::rise;
use net_core::{Builder, Code, Literal, Literals, StateMap, Wire, Wires};
use pbs_ast::{Main, Tree};
use pbs_base::Memory;
use pbs_machine::controller_is_right;
use std::alloc::Global;

/// The fire wire of each action, and the registers that tell each place.
#[derive(Drop)]
pub struct Composed {
    pub fires: Wires,
    pub map: StateMap,
}

/// Adds the circuit of main: register p tells whether place p stands, and wire a of the fires whether action a fires.
pub fn compose(b: &mut Builder, main: &Main, actions: u8) -> Result<Composed, Memory>
    requires inputs { IsTrue (inputs_below (length b.old.inputs) (tree_of main.now.tree)) }
    requires fresh { b.old.registers ≡ [] }
    requires actions { IsTrue (actions_below actions (tree_of main.now.tree)) }
    ensures circuit { IfOk result (λ composed.
        Composes b.old b.new (tree_of main.now.tree) actions composed.fires) }
    ensures map { IfOk result (λ composed. composed.map ≡ own_codes (place_count (tree_of main.now.tree))) }
    ensures runs { IfOk result (λ composed. (net : Circuit) → Keeps b.new net
        → Follows net composed.fires (tree_of main.now.tree) actions) }
{
    controller_is_right();
    let alloc = b.allocator();
    let places = main.tree.count_places();
    let map = own_registers(alloc, places)?;
    let fires = add_circuit(b, &main.tree, places, actions as usize)?;
    Ok(Composed { fires, map })
}

// Each place is told by the register of its number.
fn own_registers(alloc: Global, places: usize) -> Result<StateMap, Memory>
    requires { places < 2 ^ 32 }
    ensures { IfOk result (λ map. map ≡ own_codes places) }
{
    let mut map = StateMap::new(alloc);
    for p in 0..places {
        let code = own_register(alloc, p as u32)?;
        map.push(code)?;
    }
    Ok(map)
}

fn own_register(alloc: Global, reg: u32) -> Result<Code, Memory>
    ensures { IfOk result (λ code. code ≡ own_code reg) }
{
    let mut literals = Literals::new(alloc);
    literals.push(Literal { reg, value: true })?;
    Ok(Code::Bits(literals))
}

// The circuit of a tree with so many places and actions.
fn add_circuit(b: &mut Builder, tree: &Tree, places: usize, actions: usize) -> Result<Wires, Memory>
    requires fits { TreeFits (length b.old.inputs) places actions (tree_of tree.now) }
    requires count { places ≡ place_count (tree_of tree.now) }
    requires fresh { b.old.registers ≡ [] }
    requires places { places < 2 ^ 32 }
    requires actions { actions < 2 ^ 32 }
    ensures { IfOk result (λ fires. Composes b.old b.new (tree_of tree.now) actions fires) }
{
    let alloc = b.allocator();
    add_registers(b, places)?;
    let wires = leaf_wires(b, tree, places, actions)?;
    bind_registers(b, wires.as_slice(), places);
    let fires = rest_of(alloc, wires.as_slice(), places)?;
    Ok(fires)
}

// The wires with which places and actions are reached.
fn leaf_wires(b: &mut Builder, tree: &Tree, places: usize, actions: usize) -> Result<Wires, Memory>
    requires fits { TreeFits (length b.old.inputs) places actions (tree_of tree.now) }
    requires registers { places ≡ length b.old.registers }
    requires places { places < 2 ^ 32 }
    requires actions { actions < 2 ^ 32 }
    ensures extends { OnOk result
        (Extends b.old b.new (1 + 11 * node_count (tree_of tree.now)) (tree_input_leaves (tree_of tree.now))) }
    ensures wires { IfOk result (λ wires. ReachesAll b.new places actions (tree_of tree.now) wires) }
{
    let alloc = b.allocator();
    let outer = b.not(Wire::Reset)?;
    let risen = rise(b, tree, places, actions, outer)?;
    let mut wires = blank_wires(alloc, places + actions)?;
    descend(b, &risen.plan, Wire::Reset, Wire::Const(true), &mut wires)?;
    Ok(wires)
}

// So many wires that are 0.
fn blank_wires(alloc: Global, n: usize) -> Result<Wires, Memory>
    ensures { IfOk result (λ wires. wires ≡ replicate n (Wire.Const false)) }
{
    let mut wires = Wires::new(alloc);
    for _ in 0..n {
        wires.push(Wire::Const(false))?;
    }
    Ok(wires)
}

// The wires from the first action on.
fn rest_of(alloc: Global, wires: &[Wire], from: usize) -> Result<Wires, Memory>
    requires { from ≤ length wires.now }
    ensures { IfOk result (λ rest. rest ≡ drop from wires.now) }
{
    let last = &wires[from..];
    let mut rest = Wires::new(alloc);
    for n in 0..last.len() {
        rest.push(last[n])?;
    }
    Ok(rest)
}

// So many registers.
fn add_registers(b: &mut Builder, n: usize) -> Result<(), Memory>
    ensures { OnOk result (b.new ≡ with_registers b.old (b.old.registers ++ replicate n (Wire.Const false))) }
{
    for _ in 0..n {
        b.register()?;
    }
    Ok(())
}

// Binds each register to its wire.
fn bind_registers(b: &mut Builder, wires: &[Wire], n: usize)
    requires registers { b.old.registers ≡ replicate n (Wire.Const false) }
    requires wires { n ≤ length wires.now }
    requires small { n < 2 ^ 32 }
    requires there { HasAll b.old wires.now }
    ensures { b.new ≡ with_registers b.old (take n wires.now) }
{
    for p in 0..n {
        b.bind_register(p as u32, wires[p]);
    }
}

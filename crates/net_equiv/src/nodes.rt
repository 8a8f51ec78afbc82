// Nodes that stand for the gates of a cone.
ghost use Rattle.std.specs.Prelude.{◌≡◌, ◌≤◌, ◌||◌, not, length, IfOk, OnOk};
ghost use Rattle.net_core.specs.Rows.{all_of, any_of, differs, gate_value, odd_of, value};
ghost use Rattle.net_eval.specs.Assignments.{IsOrdered};
ghost use Rattle.bool_bdd.specs.Diagrams.{node_holds, IsFor, IsNode, Keeps};
ghost use Rattle.net_equiv.specs.inner.Walking.{name_at};
ghost use Rattle.net_equiv.specs.inner.Filling.{IsFilled};
ghost use Rattle.net_equiv.specs.inner.Standing.{AllReady, view_of, AreNodes, IsReady, Tells};

use crate::answer::VarName;
use crate::cone::Cone;
use crate::vars::position;
use bool_bdd::{Node, Store};
use net_core::{Gate, GateKind, Wire};
use pbs_base::Memory;
use std::alloc::Global;

/// One side of a comparison: its gates, what its registers count as, the variables, and the reset bit.
#[derive(Clone, Copy)]
pub(crate) struct Side<'a> {
    pub gates: &'a [Gate],
    pub names: &'a [VarName],
    pub vars: &'a [VarName],
    pub reset: bool,
}

fn either(store: &mut Store, a: Node, b: Node) -> Result<Node, Memory>
    requires first { IsNode store.old a }
    requires second { IsNode store.old b }
    ensures keeps { Keeps store.old store.new }
    ensures stands { IfOk result (IsFor store.new (λ v. node_holds store.old a v || node_holds store.old b v)) }
{
    let a = store.not(a)?;
    let b = store.not(b)?;
    let neither = store.and(a, b)?;
    store.not(neither)
}

pub(crate) fn unlike(store: &mut Store, a: Node, b: Node) -> Result<Node, Memory>
    requires first { IsNode store.old a }
    requires second { IsNode store.old b }
    ensures keeps { Keeps store.old store.new }
    ensures stands { IfOk result (IsFor store.new
        (λ v. differs (node_holds store.old a v) (node_holds store.old b v))) }
{
    let some = either(store, a, b)?;
    let both = store.and(a, b)?;
    let not_both = store.not(both)?;
    store.and(some, not_both)
}

impl<'a> Side<'a> {
    /// The node of a wire.
    pub(crate) fn wire_node(
        &self,
        store: &mut Store,
        known: &[Node],
        wire: Wire,
    ) -> Result<Node, Memory>
        requires few { length self.now.vars.now ≤ 16 }
        requires ready { IsReady store.old (view_of self.now) known.now wire }
        ensures keeps { Keeps store.old store.new }
        ensures tells { IfOk result (Tells store.new (view_of self.now) (λ z. value z wire)) }
    {
        match wire {
            Wire::Const(bit) => Ok(Node::Leaf(bit)),
            Wire::Reset => Ok(Node::Leaf(self.reset)),
            Wire::Input(n) => store.var(position(self.vars, VarName::Input(n))),
            Wire::Reg(r) => store.var(position(self.vars, self.names[r as usize])),
            Wire::Gate(n) => Ok(known[n as usize]),
        }
    }

    fn all_node(&self, store: &mut Store, known: &[Node], pins: &[Wire]) -> Result<Node, Memory>
        requires few { length self.now.vars.now ≤ 16 }
        requires ready { AllReady store.old (view_of self.now) known.now pins.now }
        ensures keeps { Keeps store.old store.new }
        ensures tells { IfOk result (Tells store.new (view_of self.now) (λ z. all_of z pins.now)) }
    {
        let mut all = Node::Leaf(true);
        for pin in pins {
            let node = self.wire_node(store, known, *pin)?;
            all = store.and(all, node)?;
        }
        Ok(all)
    }

    fn any_node(&self, store: &mut Store, known: &[Node], pins: &[Wire]) -> Result<Node, Memory>
        requires few { length self.now.vars.now ≤ 16 }
        requires ready { AllReady store.old (view_of self.now) known.now pins.now }
        ensures keeps { Keeps store.old store.new }
        ensures tells { IfOk result (Tells store.new (view_of self.now) (λ z. any_of z pins.now)) }
    {
        let mut any = Node::Leaf(false);
        for pin in pins {
            let node = self.wire_node(store, known, *pin)?;
            any = either(store, any, node)?;
        }
        Ok(any)
    }

    fn odd_node(&self, store: &mut Store, known: &[Node], pins: &[Wire]) -> Result<Node, Memory>
        requires few { length self.now.vars.now ≤ 16 }
        requires ready { AllReady store.old (view_of self.now) known.now pins.now }
        ensures keeps { Keeps store.old store.new }
        ensures tells { IfOk result (Tells store.new (view_of self.now) (λ z. odd_of z pins.now)) }
    {
        let mut odd = Node::Leaf(false);
        for pin in pins {
            let node = self.wire_node(store, known, *pin)?;
            odd = unlike(store, odd, node)?;
        }
        Ok(odd)
    }

    // The node of a gate whose pins are ready.
    fn gate_node(&self, store: &mut Store, known: &[Node], gate: &Gate) -> Result<Node, Memory>
        requires few { length self.now.vars.now ≤ 16 }
        requires ready { AllReady store.old (view_of self.now) known.now gate.now.pins }
        ensures keeps { Keeps store.old store.new }
        ensures tells { IfOk result (Tells store.new (view_of self.now) (λ z. gate_value z gate.now)) }
    {
        let pins = gate.pins.as_slice();
        match gate.kind {
            GateKind::Buf => self.all_node(store, known, pins),
            GateKind::Not => self.not_all(store, known, pins),
            GateKind::And => self.all_node(store, known, pins),
            GateKind::Or => self.any_node(store, known, pins),
            GateKind::Nand => self.not_all(store, known, pins),
            GateKind::Nor => self.not_any(store, known, pins),
            GateKind::Xor => self.odd_node(store, known, pins),
            GateKind::Xnor => self.not_odd(store, known, pins),
        }
    }

    fn not_all(&self, store: &mut Store, known: &[Node], pins: &[Wire]) -> Result<Node, Memory>
        requires few { length self.now.vars.now ≤ 16 }
        requires ready { AllReady store.old (view_of self.now) known.now pins.now }
        ensures keeps { Keeps store.old store.new }
        ensures tells { IfOk result (Tells store.new (view_of self.now) (λ z. not (all_of z pins.now))) }
    {
        let all = self.all_node(store, known, pins)?;
        store.not(all)
    }

    fn not_any(&self, store: &mut Store, known: &[Node], pins: &[Wire]) -> Result<Node, Memory>
        requires few { length self.now.vars.now ≤ 16 }
        requires ready { AllReady store.old (view_of self.now) known.now pins.now }
        ensures keeps { Keeps store.old store.new }
        ensures tells { IfOk result (Tells store.new (view_of self.now) (λ z. not (any_of z pins.now))) }
    {
        let any = self.any_node(store, known, pins)?;
        store.not(any)
    }

    fn not_odd(&self, store: &mut Store, known: &[Node], pins: &[Wire]) -> Result<Node, Memory>
        requires few { length self.now.vars.now ≤ 16 }
        requires ready { AllReady store.old (view_of self.now) known.now pins.now }
        ensures keeps { Keeps store.old store.new }
        ensures tells { IfOk result (Tells store.new (view_of self.now) (λ z. not (odd_of z pins.now))) }
    {
        let odd = self.odd_node(store, known, pins)?;
        store.not(odd)
    }

    /// Puts the node of each gate of the cone into its place.
    pub(crate) fn nodes(&self, root: Wire, store: &mut Store, cone: &mut Cone) -> Result<(), Memory>
        requires few { length self.now.vars.now ≤ 16 }
        requires ordered { IsOrdered 64 (length self.now.names.now) self.now.gates.now }
        requires filled { IsFilled self.now.gates.now (name_at self.now.names.now) root self.now.vars.now cone.old }
        ensures keeps { Keeps store.old store.new }
        ensures marks { cone.new.marks.items ≡ cone.old.marks.items }
        ensures listed { cone.new.listed.items ≡ cone.old.listed.items }
        ensures nodes { OnOk result
            (AreNodes store.new (view_of self.now) cone.new.marks.items cone.new.known.items) }
    {
        // For the proof alone: the clauses name the wire whose cone it is.
        let _ = root;
        for i in 0..cone.listed.len() {
            let n = cone.listed[i] as usize;
            let node = self.gate_node(store, cone.known.as_slice(), &self.gates[n])?;
            cone.known[n] = node;
        }
        Ok(())
    }
}

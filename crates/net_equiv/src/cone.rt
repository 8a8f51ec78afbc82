// The cone of a wire, and the variables in it.
ghost use Rattle.std.specs.Prelude.{◌≡◌, ◌≤◌, ◌<◌, length, true, IfErr, IfOk, OnOk};
ghost use Rattle.net_core.specs.Circuits.{AllThere, IsThere};
ghost use Rattle.net_core.specs.declared.gate.Wire.TheVariants as wire_of;
ghost use Rattle.net_eval.specs.Assignments.{IsOrdered};
ghost use Rattle.net_equiv.specs.declared.fail.CompareFail.TheVariants as fail;
ghost use Rattle.net_equiv.specs.Cones.{Has, InCone, IsLeafOf};
ghost use Rattle.net_equiv.specs.inner.Walking.{is_marked, name_at, Adds, AreListed, AreVisited, IsClosed, IsPin, IsVisited, Lists, Marks};
ghost use Rattle.net_equiv.specs.inner.Filling.{IsClear, IsFilled};

use crate::answer::VarName;
use crate::fail::CompareFail;
use crate::vars::add;
use bool_bdd::Node;
use net_core::{Gate, Wire};
use pbs_base::Memory;
use std::alloc::Global;

/// The most variables of a comparison.
const MOST: usize = 16;

/// Which gates of a netlist are in a cone, and room for their nodes. It is kept from one comparison to the next, so that
/// a comparison takes the time of its two cones and not of all gates.
#[derive(Drop)]
pub(crate) struct Cone {
    /// Whether each gate of the netlist is in the cone.
    pub marks: Vec<bool>,
    /// The numbers of the gates that are.
    pub listed: Vec<u32>,
    /// A node for each gate of the netlist.
    pub known: Vec<Node>,
}

impl Cone {
    pub(crate) fn new(alloc: Global, count: usize) -> Result<Cone, Memory>
        ensures { IfOk result (IsClear count) }
    {
        let mut marks = Vec::new(alloc);
        let mut known = Vec::new(alloc);
        for _ in 0..count {
            marks.push(false)?;
            known.push(Node::Leaf(false))?;
        }
        Ok(Cone {
            marks,
            listed: Vec::new(alloc),
            known,
        })
    }

    // Marks and lists the gate, where that isn't done yet.
    fn mark(&mut self, n: u32) -> Result<(), Memory>
        requires { n < length self.old.marks.items }
        ensures marks { Marks (λ w. w ≡ wire_of.Gate n) self.old.marks.items self.new.marks.items }
        ensures marked { OnOk result (is_marked self.new.marks.items n ≡ true) }
        ensures lists { OnOk result (Lists self.old.marks.items self.old.listed.items
            self.new.marks.items self.new.listed.items) }
        ensures long { length self.new.marks.items ≡ length self.old.marks.items }
        ensures known { self.new.known.items ≡ self.old.known.items }
    {
        if !self.marks[n as usize] {
            self.listed.push(n)?;
            self.marks[n as usize] = true;
        }
        Ok(())
    }

    /// Takes all marks away.
    pub(crate) fn clear(&mut self)
        requires listed { AreListed self.old.marks.items self.old.listed.items }
        requires long { length self.old.known.items ≡ length self.old.marks.items }
        ensures { IsClear (length self.old.marks.items) self.new }
    {
        for i in 0..self.listed.len() {
            let n = self.listed[i] as usize;
            self.marks[n] = false;
        }
        self.listed.clear();
    }
}

// Marks the gate, or adds the variable, that the wire is.
fn visit(
    wire: Wire,
    names: &[VarName],
    cone: &mut Cone,
    vars: &mut Vec<VarName>,
) -> Result<(), CompareFail>
    requires { IsThere 64 (length names.now) (length cone.old.marks.items) wire }
    ensures marks { Marks (λ w. w ≡ wire) cone.old.marks.items cone.new.marks.items }
    ensures lists { OnOk result (Lists cone.old.marks.items cone.old.listed.items
        cone.new.marks.items cone.new.listed.items) }
    ensures long { length cone.new.marks.items ≡ length cone.old.marks.items }
    ensures known { cone.new.known.items ≡ cone.old.known.items }
    ensures adds { Adds (IsLeafOf (name_at names.now) (λ w. w ≡ wire)) vars.old.items vars.new.items }
    ensures visited { OnOk result (IsVisited (name_at names.now) cone.new.marks.items vars.new.items wire) }
    ensures few { OnOk result (length vars.old.items ≤ 16 → length vars.new.items ≤ 16) }
    ensures wide { IfErr result (λ e. e ≡ fail.Wide → 16 < length vars.new.items) }
{
    match wire {
        Wire::Const(_) | Wire::Reset => Ok(()),
        Wire::Input(n) => add_few(vars, VarName::Input(n)),
        Wire::Reg(r) => add_few(vars, names[r as usize]),
        Wire::Gate(n) => match cone.mark(n) {
            Ok(()) => Ok(()),
            Err(Memory) => Err(CompareFail::Memory),
        },
    }
}

// Adds the name, and fails where there are more than 16 then.
fn add_few(vars: &mut Vec<VarName>, name: VarName) -> Result<(), CompareFail>
    ensures adds { Adds (λ x. x ≡ name) vars.old.items vars.new.items }
    ensures has { OnOk result (Has vars.new.items name) }
    ensures few { OnOk result (length vars.new.items ≤ 16) }
    ensures wide { IfErr result (λ e. e ≡ fail.Wide → 16 < length vars.new.items) }
{
    match add(vars, name) {
        Ok(()) => {
            if vars.len() > MOST {
                Err(CompareFail::Wide)
            } else {
                Ok(())
            }
        }
        Err(Memory) => Err(CompareFail::Memory),
    }
}

// Visits all pins.
fn visit_pins(
    pins: &[Wire],
    names: &[VarName],
    cone: &mut Cone,
    vars: &mut Vec<VarName>,
) -> Result<(), CompareFail>
    requires there { AllThere 64 (length names.now) (length cone.old.marks.items) pins.now }
    ensures marks { Marks (IsPin pins.now) cone.old.marks.items cone.new.marks.items }
    ensures lists { OnOk result (Lists cone.old.marks.items cone.old.listed.items
        cone.new.marks.items cone.new.listed.items) }
    ensures long { length cone.new.marks.items ≡ length cone.old.marks.items }
    ensures known { cone.new.known.items ≡ cone.old.known.items }
    ensures adds { Adds (IsLeafOf (name_at names.now) (IsPin pins.now)) vars.old.items vars.new.items }
    ensures visited { OnOk result
        (AreVisited (name_at names.now) cone.new.marks.items vars.new.items (IsPin pins.now)) }
    ensures few { OnOk result (length vars.old.items ≤ 16 → length vars.new.items ≤ 16) }
    ensures wide { IfErr result (λ e. e ≡ fail.Wide → 16 < length vars.new.items) }
{
    for pin in pins {
        visit(*pin, names, cone, vars)?;
    }
    Ok(())
}

// Marks and lists the gates of the cone of a wire, where none is marked yet, and adds its variables.
fn walk(
    gates: &[Gate],
    root: Wire,
    names: &[VarName],
    cone: &mut Cone,
    vars: &mut Vec<VarName>,
) -> Result<(), CompareFail>
    requires ordered { IsOrdered 64 (length names.now) gates.now }
    requires root { IsThere 64 (length names.now) (length gates.now) root }
    requires clear { IsClear (length gates.now) cone.old }
    ensures adds { Adds (IsLeafOf (name_at names.now) (InCone gates.now root)) vars.old.items vars.new.items }
    ensures closed { OnOk result
        (IsClosed gates.now (name_at names.now) root cone.new.marks.items vars.new.items) }
    ensures listed { OnOk result (AreListed cone.new.marks.items cone.new.listed.items) }
    ensures known { cone.new.known.items ≡ cone.old.known.items }
    ensures few { OnOk result (length vars.old.items ≤ 16 → length vars.new.items ≤ 16) }
    ensures wide { IfErr result (λ e. e ≡ fail.Wide → 16 < length vars.new.items) }
{
    visit(root, names, cone, vars)?;
    // The list grows as it is walked.
    for i in 0..usize::MAX {
        if i >= cone.listed.len() {
            return Ok(());
        }
        let n = cone.listed[i] as usize;
        visit_pins(gates[n].pins.as_slice(), names, cone, vars)?;
    }
    Ok(())
}

/// Adds the variables in the cone of a wire, and marks and lists its gates, in order. `Wide` where there are more than 16
/// variables.
pub(crate) fn fill(
    gates: &[Gate],
    root: Wire,
    names: &[VarName],
    cone: &mut Cone,
    vars: &mut Vec<VarName>,
) -> Result<(), CompareFail>
    requires ordered { IsOrdered 64 (length names.now) gates.now }
    requires root { IsThere 64 (length names.now) (length gates.now) root }
    requires clear { IsClear (length gates.now) cone.old }
    ensures adds { Adds (IsLeafOf (name_at names.now) (InCone gates.now root)) vars.old.items vars.new.items }
    ensures filled { OnOk result (IsFilled gates.now (name_at names.now) root vars.new.items cone.new) }
    ensures few { OnOk result (length vars.old.items ≤ 16 → length vars.new.items ≤ 16) }
    ensures wide { IfErr result (λ e. e ≡ fail.Wide → 16 < length vars.new.items) }
{
    match walk(gates, root, names, cone, vars) {
        Ok(()) => {
            cone.listed.sort_unstable();
            Ok(())
        }
        Err(e) => Err(e),
    }
}

// From the root down: the wires with which the leaves are begun, from the plan.
ghost use Rattle.std.specs.Prelude.{◌*◌, ◌<◌, ◌&&◌, ◌||◌, nat_eq, length, IfOk, OnOk};
ghost use Rattle.pbs_machine.specs.Rows.{body_start, right_start};
ghost use Rattle.net_core.specs.Rows.{value};
ghost use Rattle.net_core.specs.Building.{Extends, HasAll, Means};
ghost use Rattle.frag_compose.specs.inner.Plans.{IsInner, PlanFits, plan_nodes, plan_reaches};
ghost use Rattle.frag_compose.specs.inner.Gains.{Gains};

use crate::plan::Plan;
use frag_scopes::{abort_down, when};
use net_core::{Builder, Wire, Wires};
use pbs_base::Memory;

/// Adds to each leaf's wire the rows in which the plan reaches the leaf, where the plan is begun by `start` and kept by
/// `keep`.
pub(crate) fn descend(
    b: &mut Builder,
    plan: &Plan,
    start: Wire,
    keep: Wire,
    wires: &mut Wires,
) -> Result<(), Memory>
    requires start { IsInner b.old start }
    requires keep { IsInner b.old keep }
    requires fits { PlanFits b.old (length wires.old) plan.now }
    requires there { HasAll b.old wires.old }
    ensures extends { OnOk result (Extends b.old b.new (4 * plan_nodes plan.now) 0) }
    ensures gains { OnOk result (Gains b.new wires.old wires.new (λ row leaf.
        plan_reaches row plan.now (value row start) (value row keep) leaf)) }
{
    match plan {
        Plan::Nothing => Ok(()),
        Plan::Leaf(leaf) => {
            add_to(b, wires, *leaf, start)?;
            Ok(())
        }
        Plan::Then(ends, skip, e, f) => {
            let next = next_start(b, start, keep, *ends, *skip)?;
            descend(b, e, start, keep, wires)?;
            descend(b, f, next, keep, wires)?;
            Ok(())
        }
        Plan::Either(e, f) => {
            descend(b, e, start, keep, wires)?;
            descend(b, f, start, keep, wires)?;
            Ok(())
        }
        Plan::Again(ends, e) => {
            let again = again_start(b, start, keep, *ends)?;
            descend(b, e, again, keep, wires)?;
            Ok(())
        }
        Plan::Watch(body, trap, e, x, h) => {
            let down = abort_down(b, keep, *body, *trap)?;
            descend(b, e, start, down.body_keep, wires)?;
            descend(b, x, start, down.trap_keep, wires)?;
            descend(b, h, down.after_start, keep, wires)?;
            Ok(())
        }
    }
}

// Where the second of two parts begins.
fn next_start(
    b: &mut Builder,
    start: Wire,
    keep: Wire,
    ends: Wire,
    skip: bool,
) -> Result<Wire, Memory>
    requires start { IsInner b.old start }
    requires keep { IsInner b.old keep }
    requires ends { IsInner b.old ends }
    ensures extends { OnOk result (Extends b.old b.new 2 0) }
    ensures means { IfOk result (λ wire. Means b.new wire (λ row.
        right_start (value row start) (value row keep) (value row ends) skip)) }
{
    let passed = b.and(ends, keep)?;
    let skipped = when(b, start, skip);
    b.or(passed, skipped)
}

// Where the body of a star begins.
fn again_start(b: &mut Builder, start: Wire, keep: Wire, ends: Wire) -> Result<Wire, Memory>
    requires start { IsInner b.old start }
    requires keep { IsInner b.old keep }
    requires ends { IsInner b.old ends }
    ensures extends { OnOk result (Extends b.old b.new 2 0) }
    ensures means { IfOk result (λ wire. Means b.new wire (λ row.
        body_start (value row start) (value row keep) (value row ends))) }
{
    let again = b.and(ends, keep)?;
    b.or(start, again)
}

// Either wire; a gate is made only where both may be 1.
fn joined(b: &mut Builder, a: Wire, wire: Wire) -> Result<Wire, Memory>
    requires first { IsInner b.old a }
    requires second { IsInner b.old wire }
    ensures extends { OnOk result (Extends b.old b.new 1 0) }
    ensures means { IfOk result (λ both. Means b.new both (λ row. value row a || value row wire)) }
{
    match a {
        Wire::Const(false) => Ok(wire),
        _ => b.or(a, wire),
    }
}

// The wire of one leaf is joined with another.
fn add_to(b: &mut Builder, wires: &mut Wires, leaf: usize, wire: Wire) -> Result<(), Memory>
    requires leaf { leaf < length wires.old }
    requires wire { IsInner b.old wire }
    requires there { HasAll b.old wires.old }
    ensures extends { OnOk result (Extends b.old b.new 1 0) }
    ensures gains { OnOk result (Gains b.new wires.old wires.new (λ row n. nat_eq n leaf && value row wire)) }
{
    let old = wires.as_slice()[leaf];
    let new = joined(b, old, wire)?;
    wires.set(leaf, new);
    Ok(())
}

// From the leaves up: the wires of each node, and the plan.
ghost use Rattle.std.specs.Prelude.{◌≡◌, ◌*◌, ◌<◌, ◌^◌, length, IfOk, OnOk};
ghost use Rattle.pbs_ast.specs.Trees.{tree_of};
ghost use Rattle.pbs_ast.specs.Sound.{node_count, tree_input_leaves};
ghost use Rattle.net_core.specs.Building.{Extends};
ghost use Rattle.frag_compose.specs.inner.Fits.{TreeFits};
ghost use Rattle.frag_compose.specs.inner.Plans.{IsInner, RisesTo};

use crate::nodes::{Risen, choice, lone, scope, sequence, star};
use crate::plan::Plan;
use frag_scopes::hold_gates;
use net_core::{Builder, Wire};
use pbs_ast::{Tree, TreeKind};
use pbs_base::Memory;

/// The wires and the plan of a tree whose holds outside are true where the outer wire is 1. Place p is leaf p, and
/// action a is leaf `places + a`.
pub(crate) fn rise(
    b: &mut Builder,
    tree: &Tree,
    places: usize,
    actions: usize,
    outer: Wire,
) -> Result<Risen, Memory>
    requires outer { IsInner b.old outer }
    requires fits { TreeFits (length b.old.inputs) places actions (tree_of tree.now) }
    requires registers { places ≡ length b.old.registers }
    requires small { places < 2 ^ 32 }
    ensures extends { OnOk result
        (Extends b.old b.new (7 * node_count (tree_of tree.now)) (tree_input_leaves (tree_of tree.now))) }
    ensures risen { IfOk result (λ risen. RisesTo b.new places actions (tree_of tree.now) outer risen) }
{
    match &tree.kind {
        TreeKind::Empty => Ok(lone(Wire::Const(false), Plan::Nothing)),
        TreeKind::Terminal(place, term) => {
            let holds = hold_gates(b, outer, term)?;
            let ends = b.and(Wire::Reg(*place), holds)?;
            Ok(lone(ends, Plan::Leaf(*place as usize)))
        }
        TreeKind::Action(action) => Ok(lone(
            Wire::Const(false),
            Plan::Leaf(places + *action as usize),
        )),
        TreeKind::Seq(e, f) => {
            let first = rise(b, e, places, actions, outer)?;
            let second = rise(b, f, places, actions, outer)?;
            let risen = sequence(b, first, second, e, f)?;
            Ok(risen)
        }
        TreeKind::Choice(e, f) => {
            let first = rise(b, e, places, actions, outer)?;
            let second = rise(b, f, places, actions, outer)?;
            let risen = choice(b, first, second)?;
            Ok(risen)
        }
        TreeKind::Star(e) => {
            let body = rise(b, e, places, actions, outer)?;
            let risen = star(b, body, e)?;
            Ok(risen)
        }
        TreeKind::Hold(term, e) => {
            let inner = hold_gates(b, outer, term)?;
            rise(b, e, places, actions, inner)
        }
        TreeKind::Scope(_, e, x, h) => {
            let body = rise(b, e, places, actions, outer)?;
            let trap = rise(b, x, places, actions, outer)?;
            let after = rise(b, h, places, actions, outer)?;
            let risen = scope(b, body, trap, after, h)?;
            Ok(risen)
        }
    }
}

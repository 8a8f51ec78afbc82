// The plan of a search.
ghost use Rattle.std.specs.Prelude.{◌≡◌, ℕ, ◌≤◌, ◌<◌, ◌+◌, length, IfOk};
ghost use Rattle.pbs_ast.specs.Trees.{tree_of};
ghost use Rattle.pbs_edges.specs.Found.{AreEdges};
ghost use Rattle.pbs_overlap.specs.Ranges.{ranges};
ghost use Rattle.pbs_overlap.specs.inner.Planning.{edge_at, AreSplit, AreStepsOf, FromsRise, IsPlan, IsSplit};
ghost use Rattle.pbs_overlap.specs.inner.Stepping.{IsStepBy};

use crate::joint::joint_terms;
use crate::ranges::{ScopeRange, push_leaves};
use crate::search::Plan;
use crate::steps::{Step, aborted, entered};
use pbs_ast::Main;
use pbs_base::Memory;
use pbs_edges::{Edge, Edges};
use std::alloc::Global;

// The edge as a step.
fn step_of(leaves: &[u32], ranges: &[ScopeRange], edge: Edge) -> Step
    requires from { edge.from < length leaves.now }
    requires to { edge.to < length leaves.now }
    requires few { length ranges.now ≤ 32768 }
    ensures { IsStepBy leaves.now ranges.now edge result }
{
    let leaf = leaves[edge.from as usize];
    let reached = leaves[edge.to as usize];
    Step {
        from: edge.from,
        to: edge.to,
        node: edge.node,
        leaf,
        aborts: aborted(ranges, leaf, edge.node),
        enters: entered(ranges, reached, edge.node),
    }
}

// The edges as steps.
fn steps_of(
    alloc: Global,
    leaves: &[u32],
    ranges: &[ScopeRange],
    edges: &[Edge],
) -> Result<Vec<Step>, Memory>
    requires few { length ranges.now ≤ 32768 }
    requires places { (k : ℕ) → k < length edges.now
        → ((edge_at edges.now k).from < length leaves.now) × ((edge_at edges.now k).to < length leaves.now) }
    ensures { IfOk result (λ steps. AreStepsOf leaves.now ranges.now edges.now (length edges.now) steps.items) }
{
    let mut steps = Vec::new(alloc);
    for edge in edges {
        steps.push(step_of(leaves, ranges, *edge))?;
    }
    Ok(steps)
}

// From an edge on, the first one that doesn't leave a place before this one.
fn skip(edges: &[Edge], from: usize, place: usize) -> usize
    requires from { from ≤ length edges.now }
    requires before { (k : ℕ) → k < from → (edge_at edges.now k).from < place }
    requires rise { FromsRise edges.now }
    ensures from { from ≤ result }
    ensures split { IsSplit edges.now place result }
{
    let mut k = from;
    while k < edges.len() && (edges[k].from as usize) < place {
        k += 1;
    }
    k
}

// For each place, and for the number after the last one, the first edge that doesn't leave a place before it.
fn firsts_of(alloc: Global, places: usize, edges: &[Edge]) -> Result<Vec<usize>, Memory>
    requires few { places ≤ 4096 }
    requires rise { FromsRise edges.now }
    ensures { IfOk result (λ firsts. AreSplit edges.now (places + 1) firsts.items) }
{
    let mut firsts = Vec::new(alloc);
    let mut k = 0;
    for place in 0..places + 1 {
        k = skip(edges, k, place);
        firsts.push(k)?;
    }
    Ok(firsts)
}

/// The plan of a search for main, whose scopes have these ranges.
pub(crate) fn make_plan(
    alloc: Global,
    main: &Main,
    edges: &Edges,
    scopes: &[ScopeRange],
) -> Result<Plan, Memory>
    requires edges { AreEdges (tree_of main.now.tree) edges.now }
    requires ranges { scopes.now ≡ ranges (tree_of main.now.tree) }
    ensures { IfOk result (IsPlan (tree_of main.now.tree) edges.now.follows) }
{
    let mut leaves = Vec::new(alloc);
    push_leaves(&main.tree, &mut leaves)?;
    let places = leaves.len();
    let follows = edges.follows.as_slice();
    let steps = steps_of(alloc, &leaves, scopes, follows)?;
    let firsts = firsts_of(alloc, places, follows)?;
    let terms = joint_terms(alloc, main)?;
    Ok(Plan {
        places,
        steps,
        firsts,
        terms,
    })
}

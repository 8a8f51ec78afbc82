// The check of the overlap rule.
ghost use Rattle.std.specs.Prelude.{IfErr, IfOk};
ghost use Rattle.pbs_ast.specs.Trees.{tree_of};
ghost use Rattle.pbs_edges.specs.Found.{AreEdges};
ghost use Rattle.pbs_edges.specs.Walks.{BreaksNoScope};
ghost use Rattle.pbs_overlap.specs.Told.{IsOverlapCause, TellsTogether};

use crate::fail::OverlapFail;
use crate::pairs::Pairs;
use crate::planning::make_plan;
use crate::ranges::push_ranges;
use pbs_ast::Main;
use pbs_edges::Edges;
use std::alloc::Global;

/// Checks the overlap rule, and tells which places are together. `Scope` exactly where a scope breaks the rule: the
/// lowest such scope, with its span.
pub fn check_overlap(alloc: Global, main: &Main, edges: &Edges) -> Result<Pairs, OverlapFail>
    requires { AreEdges (tree_of main.now.tree) edges.now }
    ensures accepted { IfOk result (λ pairs. BreaksNoScope (tree_of main.now.tree)) }
    ensures together { IfOk result (λ pairs. TellsTogether (tree_of main.now.tree) pairs) }
    ensures cause { IfErr result (IsOverlapCause (tree_of main.now.tree)) }
{
    let mut ranges = Vec::new(alloc);
    push_ranges(&main.tree, &mut ranges)?;
    let plan = make_plan(alloc, main, edges, &ranges)?;
    let reached = plan.search(alloc, edges.starts.as_slice())?;
    match plan.lowest_refused(&reached) {
        Some(s) => Err(OverlapFail::Scope(s, ranges[s as usize].span)),
        None => Ok(Pairs::new(plan.places, reached.marks)),
    }
}

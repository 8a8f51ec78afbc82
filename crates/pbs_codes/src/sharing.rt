// Whether places share registers, and by which plan.
ghost use Rattle.std.specs.Prelude.{IfOk, MatchOption};
ghost use Rattle.pbs_ast.specs.Trees.{tree_of};
ghost use Rattle.pbs_edges.specs.Found.{AreEdges};
ghost use Rattle.pbs_edges.specs.Walks.{BreaksNoScope};
ghost use Rattle.pbs_codes.specs.Sharing.{IsSharedBy, KeepsRegisters};

use crate::planning::plan;
use net_core::CodePlan;
use pbs_ast::Main;
use pbs_base::Memory;
use pbs_edges::{EdgeFail, Edges, edges};
use pbs_overlap::{OverlapFail, check_overlap};
use std::alloc::Global;

/// The plan by which main's places share registers. `None` exactly where each place keeps a register of its own: main
/// has more than 16,384 follow edges, or more than 256 different effective terms.
pub fn shared_plan(alloc: Global, main: &Main) -> Result<Option<CodePlan>, Memory>
    requires { BreaksNoScope (tree_of main.now.tree) }
    ensures { IfOk result (λ found.
        MatchOption found (KeepsRegisters (tree_of main.now.tree)) (IsSharedBy (tree_of main.now.tree))) }
{
    match edges(alloc, main) {
        Ok(found) => Ok(Some(plan_over(alloc, main, &found)?)),
        Err(EdgeFail::TooManyEdges | EdgeFail::TooManyTerms) => Ok(None),
        Err(EdgeFail::Memory) => Err(Memory),
    }
}

// The plan of main over its edges.
fn plan_over(alloc: Global, main: &Main, edges: &Edges) -> Result<CodePlan, Memory>
    requires edges { AreEdges (tree_of main.now.tree) edges.now }
    requires scopes { BreaksNoScope (tree_of main.now.tree) }
    ensures { IfOk result (IsSharedBy (tree_of main.now.tree)) }
{
    match check_overlap(alloc, main, edges) {
        Ok(pairs) => plan(alloc, main, edges, &pairs),
        Err(OverlapFail::Scope(_, _)) => unreachable!(),
        Err(OverlapFail::Memory) => Err(Memory),
    }
}

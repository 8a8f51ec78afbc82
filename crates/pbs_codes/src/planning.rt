// The plan of codes of main.
ghost use Rattle.std.specs.Prelude.{◌≡◌, IfOk};
ghost use Rattle.pbs_ast.specs.Trees.{tree_of};
ghost use Rattle.pbs_edges.specs.Found.{AreEdges};
ghost use Rattle.pbs_edges.specs.Walks.{BreaksNoScope};
ghost use Rattle.pbs_overlap.specs.Told.{TellsTogether};
ghost use Rattle.net_core.specs.Plans.{IsWhole};
ghost use Rattle.pbs_codes.specs.Plans.{IsCodePlan};
ghost use Rattle.pbs_codes.specs.Runs.{FitsRuns};

use crate::grouping::group_all;
use crate::leading::find_leaders;
use crate::signing::signatures;
use net_core::{CodePlan, Places};
use pbs_ast::Main;
use pbs_base::{Listed, Memory};
use pbs_edges::Edges;
use pbs_overlap::Pairs;
use std::alloc::Global;

// The places as a list.
fn listed(alloc: Global, places: &[u32]) -> Result<Places, Memory>
    ensures { IfOk result (λ list. list ≡ places.now) }
{
    let mut list = Listed::new(alloc);
    for place in places {
        list.push(*place)?;
    }
    Ok(list)
}

/// The plan of codes of main: its never places, the leader of each place, and the groups of leaders. In every run twins
/// stand together, and no two leaders of a group do.
pub fn plan(alloc: Global, main: &Main, edges: &Edges, pairs: &Pairs) -> Result<CodePlan, Memory>
    requires edges { AreEdges (tree_of main.now.tree) edges.now }
    requires pairs { TellsTogether (tree_of main.now.tree) pairs.now }
    requires accepted { BreaksNoScope (tree_of main.now.tree) }
    ensures plan { IfOk result (IsCodePlan (tree_of main.now.tree)) }
    ensures runs { IfOk result (FitsRuns (tree_of main.now.tree)) }
    ensures whole { IfOk result (λ plan. IsWhole plan) }
{
    let places = main.tree.count_places();
    let starts = edges.starts.as_slice();
    let signatures = signatures(alloc, places, starts, edges.follows.as_slice())?;
    let leading = find_leaders(alloc, pairs, &signatures)?;
    let groups = group_all(alloc, pairs, &leading.firsts)?;
    Ok(CodePlan {
        never: listed(alloc, &leading.never)?,
        leaders: listed(alloc, &leading.leaders)?,
        groups,
    })
}

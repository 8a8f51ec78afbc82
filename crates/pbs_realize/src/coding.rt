// Lets places share registers.
ghost use Rattle.std.specs.Prelude.{◌≡◌, ◌≤◌, length, IfOk};
ghost use Rattle.pbs_ast.specs.Trees.{tree_of};
ghost use Rattle.pbs_ast.specs.Sound.{place_count};
ghost use Rattle.pbs_edges.specs.Walks.{BreaksNoScope};
ghost use Rattle.frag_compose.specs.Composes.{own_codes};
ghost use Rattle.pbs_realize.specs.inner.Coding.{Recodes};

use net_encode::encode;
use pbs_ast::Main;
use pbs_base::Memory;
use pbs_codes::shared_plan;
use pbs_controller::Controller;
use std::alloc::Global;

/// The controller whose places share registers, where the tree is within the limits of what they share by.
pub(crate) fn coded(alloc: Global, main: &Main, own: Controller) -> Result<Controller, Memory>
    requires scopes { BreaksNoScope (tree_of main.now.tree) }
    requires map { own.map ≡ own_codes (place_count (tree_of main.now.tree)) }
    requires registers { place_count (tree_of main.now.tree) ≤ length own.net.registers }
    ensures { IfOk result (λ made. Recodes (tree_of main.now.tree) own.net made.net made.map) }
{
    match shared_plan(alloc, main)? {
        Some(plan) => {
            let (net, map) = encode(alloc, &own.net, &own.map, &plan)?;
            Ok(Controller { net, map })
        }
        None => Ok(own),
    }
}

// Makes the netlist of a specification.
ghost use Rattle.std.specs.Prelude.{◌≡◌, List, ℕ, None, IfOk};
ghost use Rattle.pbs_ast.specs.Trees.{tree_of};
ghost use Rattle.pbs_ast.specs.Sound.{place_count};
ghost use Rattle.pbs_ast.specs.Bare.{bare};
ghost use Rattle.pbs_text.specs.Answers.{StandsFor};
ghost use Rattle.pbs_check.specs.Checked.{IsUnbroken};
ghost use Rattle.pbs_expand.specs.Expanded.{expanded, refusal};
ghost use Rattle.pbs_expand.specs.Ready.{NamesDeclared};
ghost use Rattle.vlog_text.specs.Emitted.{emitted};
ghost use Rattle.vlog_text.specs.Reading.{ElaboratesTo};
ghost use Rattle.pbs_edges.specs.Walks.{BreaksNoScope};
ghost use Rattle.frag_compose.specs.Composes.{own_codes};
ghost use Rattle.pbs_realize.specs.Realizes.{Realizes};
ghost use Rattle.pbs_realize.specs.inner.Coding.{ControllerOf, IsCoded};

use crate::coding::coded;
use crate::laws::emitted_stands;
use crate::names::declared_names;
use crate::tidying::tidied;
use pbs_ast::{Main, Spec};
use pbs_base::Memory;
use pbs_check::laws::within_limits;
use pbs_controller::{Controller, build_controller, plan_levels};
use pbs_edges::laws::overlap_rule_is_sound;
use std::alloc::Global;

/// The netlist of a specification that breaks no rule, and whose tree is `main`, with the codes of its places. What is
/// written for it stands for it.
pub fn realize(alloc: Global, spec: &Spec, main: &Main) -> Result<Controller, Memory>
    requires unbroken { IsUnbroken (bare spec.now) }
    requires within { refusal (bare spec.now) ≡ None }
    requires names { NamesDeclared spec.now (tree_of main.now.tree) }
    requires tree { tree_of main.now.tree ≡ expanded (bare spec.now) }
    requires scopes { BreaksNoScope (tree_of main.now.tree) }
    ensures realizes { IfOk result (λ made. Realizes (bare spec.now) made.net made.map) }
    ensures stands { (text : List ℕ) → StandsFor text (bare spec.now)
        → IfOk result (λ made. ElaboratesTo (emitted made.net) made.net) }
{
    within_limits();
    emitted_stands();
    tidy_controller(alloc, spec, main)
}

// The controller of the tree, whose places share registers where they can.
fn coded_controller(alloc: Global, spec: &Spec, main: &Main) -> Result<Controller, Memory>
    requires unbroken { IsUnbroken (bare spec.now) }
    requires names { NamesDeclared spec.now (tree_of main.now.tree) }
    requires scopes { BreaksNoScope (tree_of main.now.tree) }
    ensures { IfOk result (λ made. IsCoded 1 (bare spec.now) (tree_of main.now.tree) made.net made.map) }
{
    overlap_rule_is_sound();
    let own = controller_of(alloc, spec, main)?;
    coded(alloc, main, own)
}

// The same without the gates that it doesn't need.
fn tidy_controller(alloc: Global, spec: &Spec, main: &Main) -> Result<Controller, Memory>
    requires unbroken { IsUnbroken (bare spec.now) }
    requires names { NamesDeclared spec.now (tree_of main.now.tree) }
    requires scopes { BreaksNoScope (tree_of main.now.tree) }
    ensures { IfOk result (λ made. IsCoded 2 (bare spec.now) (tree_of main.now.tree) made.net made.map) }
{
    let coded = coded_controller(alloc, spec, main)?;
    tidied(alloc, coded)
}

// The controller of the tree with the names of the specification, in which each place has a register of its own.
fn controller_of(alloc: Global, spec: &Spec, main: &Main) -> Result<Controller, Memory>
    requires unbroken { IsUnbroken (bare spec.now) }
    requires names { NamesDeclared spec.now (tree_of main.now.tree) }
    ensures net { IfOk result (λ made. ControllerOf (bare spec.now) (tree_of main.now.tree) made.net) }
    ensures map { IfOk result (λ made. made.map ≡ own_codes (place_count (tree_of main.now.tree))) }
{
    within_limits();
    let names = declared_names(alloc, spec)?;
    let plan = plan_levels(alloc, &spec.levels, &names.actions)?;
    build_controller(
        alloc,
        &names.inputs,
        &names.actions,
        &names.levels,
        &plan,
        main,
    )
}

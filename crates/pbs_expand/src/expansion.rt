// The tree of main.
ghost use Rattle.std.specs.Prelude.{◌≡◌, IfOk, None};
ghost use Rattle.pbs_ast.specs.Trees.{tree_of};
ghost use Rattle.pbs_ast.specs.Sound.{IsCounted, IsProper};
ghost use Rattle.pbs_expand.specs.Expanded.{Gives, expanded, over_limit, refused};
ghost use Rattle.pbs_expand.specs.Ready.{IsReady, NamesDeclared};

use crate::build::{Counters, Stop};
use crate::fail::Expand;
use crate::growth::grow;
use crate::parts::Part;
use pbs_ast::{Main, Spec, Tree, first_wide};
use pbs_base::{Refusal, Span, Subject};
use pbs_names::Index;
use std::alloc::Global;

fn refused(rule: u8, span: Span) -> Refusal
    ensures { result ≡ refused rule span }
{
    Refusal {
        subject: Subject::Spec,
        rule,
        span,
    }
}

/// Looks at rule 13.
fn narrow(spec: &Spec, tree: Tree) -> Result<Main, Expand>
    requires counted { IsCounted (tree_of tree) }
    requires proper { IsProper (tree_of tree) }
    requires is { tree_of tree ≡ expanded spec.now }
    requires limits { over_limit spec.now ≡ None }
    requires names { NamesDeclared spec.now (tree_of tree) }
    ensures exact { Gives spec.now result }
    ensures names { IfOk result (λ main. NamesDeclared spec.now (tree_of main.tree)) }
{
    match first_wide(&tree, 0) {
        Some(span) => Err(Expand::Refused(refused(13, span))),
        None => Ok(Main::new(tree)),
    }
}

/// The tree of main, its nodes, places and scopes numbered in the order of visits. `Refused` comes exactly where rule
/// 12 or 13 is broken, with the first of them.
pub fn expand(alloc: Global, spec: &Spec) -> Result<Main, Expand>
    requires { IsReady spec.now }
    ensures exact { Gives spec.now result }
    ensures names { IfOk result (λ main. NamesDeclared spec.now (tree_of main.tree)) }
{
    let Ok(index) = Index::new(alloc, spec) else {
        return Err(Expand::Memory);
    };
    let start = Counters {
        counts: 0,
        nodes: 0,
        places: 0,
        scopes: 0,
    };
    match grow(alloc, spec, &index, Part::Whole(&spec.main), 256, start) {
        Ok(grown) => narrow(spec, grown.tree),
        Err(Stop::Over(span)) => Err(Expand::Refused(refused(12, span))),
        Err(Stop::Memory) => Err(Expand::Memory),
    }
}

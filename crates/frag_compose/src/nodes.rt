// The wires and the plan of a node, from those of its parts.
ghost use Rattle.std.specs.Prelude.{◌≡◌, false, ◌&&◌, ◌||◌, IfOk, OnOk};
ghost use Rattle.pbs_ast.specs.Trees.{has_terminal, nullable, tree_of};
ghost use Rattle.net_core.specs.Rows.{value};
ghost use Rattle.net_core.specs.Building.{Extends, Means};
ghost use Rattle.frag_scopes.specs.Aborts.{ends_after_abort, stays_after_abort};
ghost use Rattle.frag_compose.specs.inner.Plans.{AreInner, IsAgain, IsEither, IsThen, IsWatch};

use crate::plan::{Plan, again_plan, either_plan, then_plan, watch_plan};
use frag_scopes::{Up, abort_up, when};
use net_core::{Builder, Wire};
use pbs_ast::Tree;
use pbs_base::Memory;

/// A node's wires and its plan.
#[derive(Drop)]
pub struct Risen {
    pub up: Up,
    pub plan: Plan,
}

/// A node in which no derivation stands before a later terminal.
pub(crate) fn lone(ends: Wire, plan: Plan) -> Risen
    ensures ends { result.up.ends ≡ ends }
    ensures stays { result.up.stays ≡ Wire.Const false }
    ensures plan { result.plan ≡ plan }
{
    let up = Up {
        ends,
        stays: Wire::Const(false),
    };
    Risen { up, plan }
}

/// The sequence of `e` and `f`.
pub(crate) fn sequence(
    b: &mut Builder,
    first: Risen,
    second: Risen,
    e: &Tree,
    f: &Tree,
) -> Result<Risen, Memory>
    requires first { AreInner b.old first.up }
    requires second { AreInner b.old second.up }
    ensures extends { OnOk result (Extends b.old b.new 3 0) }
    ensures ends { IfOk result (λ risen. Means b.new risen.up.ends (λ row.
        value row second.up.ends || (value row first.up.ends && nullable (tree_of f.now)))) }
    ensures stays { IfOk result (λ risen. Means b.new risen.up.stays (λ row.
        value row first.up.stays
        || (value row second.up.stays || (value row first.up.ends && has_terminal (tree_of f.now))))) }
    ensures plan { IfOk result (λ risen.
        IsThen risen.plan first.up.ends (nullable (tree_of e.now)) first.plan second.plan) }
{
    let alloc = b.allocator();
    let ended = first.up.ends;
    let passed = when(b, ended, f.nullable());
    let entered = when(b, ended, f.has_terminal());
    let ends = b.or(second.up.ends, passed)?;
    let later = b.or(second.up.stays, entered)?;
    let stays = b.or(first.up.stays, later)?;
    let plan = then_plan(alloc, ended, e.nullable(), first.plan, second.plan)?;
    let up = Up { ends, stays };
    Ok(Risen { up, plan })
}

pub(crate) fn choice(b: &mut Builder, first: Risen, second: Risen) -> Result<Risen, Memory>
    requires first { AreInner b.old first.up }
    requires second { AreInner b.old second.up }
    ensures extends { OnOk result (Extends b.old b.new 2 0) }
    ensures ends { IfOk result (λ risen. Means b.new risen.up.ends (λ row.
        value row first.up.ends || value row second.up.ends)) }
    ensures stays { IfOk result (λ risen. Means b.new risen.up.stays (λ row.
        value row first.up.stays || value row second.up.stays)) }
    ensures plan { IfOk result (λ risen. IsEither risen.plan first.plan second.plan) }
{
    let alloc = b.allocator();
    let ends = b.or(first.up.ends, second.up.ends)?;
    let stays = b.or(first.up.stays, second.up.stays)?;
    let plan = either_plan(alloc, first.plan, second.plan)?;
    let up = Up { ends, stays };
    Ok(Risen { up, plan })
}

/// The star of `e`.
pub(crate) fn star(b: &mut Builder, body: Risen, e: &Tree) -> Result<Risen, Memory>
    requires { AreInner b.old body.up }
    ensures extends { OnOk result (Extends b.old b.new 1 0) }
    ensures ends { IfOk result (λ risen. risen.up.ends ≡ body.up.ends) }
    ensures stays { IfOk result (λ risen. Means b.new risen.up.stays (λ row.
        value row body.up.stays || (value row body.up.ends && has_terminal (tree_of e.now)))) }
    ensures plan { IfOk result (λ risen. IsAgain risen.plan body.up.ends body.plan) }
{
    let alloc = b.allocator();
    let ends = body.up.ends;
    let begun = when(b, ends, e.has_terminal());
    let stays = b.or(body.up.stays, begun)?;
    let plan = again_plan(alloc, ends, body.plan)?;
    let up = Up { ends, stays };
    Ok(Risen { up, plan })
}

/// The scope with the after part `h`.
pub(crate) fn scope(
    b: &mut Builder,
    body: Risen,
    trap: Risen,
    after: Risen,
    h: &Tree,
) -> Result<Risen, Memory>
    requires body { AreInner b.old body.up }
    requires trap { AreInner b.old trap.up }
    requires after { AreInner b.old after.up }
    ensures extends { OnOk result (Extends b.old b.new 7 0) }
    ensures ends { IfOk result (λ risen. Means b.new risen.up.ends (λ row.
        ends_after_abort (value row body.up.ends) (value row trap.up.ends) (value row after.up.ends)
        (nullable (tree_of h.now)))) }
    ensures stays { IfOk result (λ risen. Means b.new risen.up.stays (λ row.
        stays_after_abort (value row body.up.stays) (value row trap.up.ends) (value row after.up.stays)
        (has_terminal (tree_of h.now)))) }
    ensures plan { IfOk result (λ risen. IsWatch risen.plan body.up trap.up body.plan trap.plan after.plan) }
{
    let alloc = b.allocator();
    let up = abort_up(
        b,
        body.up,
        trap.up,
        after.up,
        h.nullable(),
        h.has_terminal(),
    )?;
    let plan = watch_plan(alloc, body.up, trap.up, body.plan, trap.plan, after.plan)?;
    Ok(Risen { up, plan })
}

// The nodes of the expanded tree, and what is counted.

ghost use Rattle.std.specs.Prelude.{◌≡◌};
ghost use Rattle.pbs_ast.specs.Trees.{tree_of, tree_from};
ghost use Rattle.pbs_expand.specs.inner.Outcomes.{IsWithin, IsCost, enter};
ghost use Rattle.pbs_expand.specs.inner.Outcomes.{Outcome, IsOutcome, entered, with_tree};
ghost use Rattle.pbs_expand.specs.inner.Outcomes.{as_grown};
ghost use Rattle.pbs_expand.specs.Visits.{as_star, as_hold, as_pair, as_scope};
ghost use Rattle.bool_terms.specs.Terms.{term_of};

use crate::parts::Pairing;
use bool_terms::Term;
use pbs_ast::{Tree, TreeKind};
use pbs_base::{Memory, Span};
use std::alloc::{AllocError, AllocFailed, Global};

/// How many counts, nodes, places and scopes there are so far.
#[derive(Clone, Copy)]
pub struct Counters {
    pub counts: u32,
    pub nodes: u32,
    pub places: u32,
    pub scopes: u32,
}

pub enum Stop {
    /// A limit was passed at the visit of the node with this span.
    Over(Span),
    Memory,
}

impl From<Memory> for Stop {
    ghost use Rattle.pbs_expand.specs.declared.build.Stop.TheVariants.{Memory as OutOfMemory};

    ghost from_gives = { λ _ e. e ≡ OutOfMemory };

    fn from(_error: Memory) -> Stop {
        Stop::Memory
    }
}

impl<T: Drop> From<AllocFailed<T>> for Stop {
    ghost use Rattle.pbs_expand.specs.declared.build.Stop.TheVariants.{Memory as OutOfMemory};

    ghost from_gives = { λ _ e. e ≡ OutOfMemory };

    fn from(_error: AllocFailed<T>) -> Stop {
        Stop::Memory
    }
}

/// A part of the tree, and what is counted after it.
#[derive(Drop)]
pub struct Grown {
    pub tree: Tree,
    pub after: Counters,
}

/// Counts a visit, unless a limit is passed.
pub(crate) fn enter(span: Span, cost: Counters, before: Counters) -> Result<Counters, Stop>
    requires cost { IsCost cost }
    requires within { IsWithin before }
    ensures { result ≡ enter span cost before }
{
    if before.counts + cost.counts <= 32768 && before.places + cost.places <= 4096 {
        Ok(Counters {
            counts: before.counts + cost.counts,
            nodes: before.nodes + cost.nodes,
            places: before.places + cost.places,
            scopes: before.scopes + cost.scopes,
        })
    } else {
        Err(Stop::Over(span))
    }
}

/// A node without parts.
pub(crate) fn leaf(
    span: Span,
    kind: TreeKind,
    cost: Counters,
    before: Counters,
) -> Result<Grown, Stop>
    requires cost { IsCost cost }
    requires within { IsWithin before }
    ensures { IsOutcome (entered span cost before (as_grown (tree_from span before.nodes kind))) result }
{
    match enter(span, cost, before) {
        Ok(after) => Ok(Grown {
            tree: Tree {
                span,
                number: before.nodes,
                kind,
            },
            after,
        }),
        Err(stop) => Err(stop),
    }
}

pub(crate) fn star(
    alloc: Global,
    span: Span,
    number: u32,
    body: Result<Grown, Stop>,
) -> Result<Grown, Stop>
    ensures { (o : Outcome) → IsOutcome o body → IsOutcome (with_tree o (as_star span number)) result }
{
    let body = body?;
    Ok(Grown {
        tree: Tree {
            span,
            number,
            kind: TreeKind::Star(Box::new(alloc, body.tree)?),
        },
        after: body.after,
    })
}

pub(crate) fn hold(
    alloc: Global,
    span: Span,
    number: u32,
    term: Term,
    body: Result<Grown, Stop>,
) -> Result<Grown, Stop>
    ensures { (o : Outcome) → IsOutcome o body → IsOutcome (with_tree o (as_hold span number (term_of term))) result }
{
    let body = body?;
    Ok(Grown {
        tree: Tree {
            span,
            number,
            kind: TreeKind::Hold(term, Box::new(alloc, body.tree)?),
        },
        after: body.after,
    })
}

pub(crate) fn pair(
    alloc: Global,
    span: Span,
    number: u32,
    by: Pairing,
    first: Tree,
    second: Result<Grown, Stop>,
) -> Result<Grown, Stop>
    ensures { (o : Outcome) → IsOutcome o second
        → IsOutcome (with_tree o (as_pair span number by (tree_of first))) result }
{
    let second = second?;
    let first = Box::new(alloc, first)?;
    let after = second.after;
    let second = Box::new(alloc, second.tree)?;
    let kind = match by {
        Pairing::Sequence => TreeKind::Seq(first, second),
        Pairing::Choice => TreeKind::Choice(first, second),
    };
    Ok(Grown {
        tree: Tree { span, number, kind },
        after,
    })
}

pub(crate) fn scope(
    alloc: Global,
    span: Span,
    before: Counters,
    body: Tree,
    trap: Tree,
    after: Result<Grown, Stop>,
) -> Result<Grown, Stop>
    ensures { (o : Outcome) → IsOutcome o after
        → IsOutcome (with_tree o (as_scope span before.nodes before.scopes (tree_of body) (tree_of trap))) result }
{
    let last = after?;
    let body = Box::new(alloc, body)?;
    let trap = Box::new(alloc, trap)?;
    let after = last.after;
    let last = Box::new(alloc, last.tree)?;
    Ok(Grown {
        tree: Tree {
            span,
            number: before.nodes,
            kind: TreeKind::Scope(before.scopes, body, trap, last),
        },
        after,
    })
}

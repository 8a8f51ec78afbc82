// The plan of a tree's gates: what the way down needs, once each node has its wires.
ghost use Rattle.std.specs.Prelude.{IfOk};
ghost use Rattle.frag_compose.specs.inner.Plans.{IsAgain, IsEither, IsThen, IsWatch};

use frag_scopes::Up;
use net_core::Wire;
use pbs_base::Memory;
use std::alloc::Global;

/// What is left to do for a tree. A leaf is a place or an action.
#[derive(Drop)]
pub enum Plan {
    Nothing,
    Leaf(usize),
    /// The second part is begun where the wire says that the first ends; at the start too, if the flag is up.
    Then(Wire, bool, Box<Plan>, Box<Plan>),
    Either(Box<Plan>, Box<Plan>),
    /// The body is begun again where the wire says that it ends.
    Again(Wire, Box<Plan>),
    /// The body and the trap with their wires, and the after part.
    Watch(Up, Up, Box<Plan>, Box<Plan>, Box<Plan>),
}

pub(crate) fn then_plan(
    alloc: Global,
    ends: Wire,
    skip: bool,
    first: Plan,
    second: Plan,
) -> Result<Plan, Memory>
    ensures { IfOk result (λ plan. IsThen plan ends skip first second) }
{
    let first = Box::new(alloc, first)?;
    let second = Box::new(alloc, second)?;
    Ok(Plan::Then(ends, skip, first, second))
}

pub(crate) fn either_plan(alloc: Global, first: Plan, second: Plan) -> Result<Plan, Memory>
    ensures { IfOk result (λ plan. IsEither plan first second) }
{
    let first = Box::new(alloc, first)?;
    let second = Box::new(alloc, second)?;
    Ok(Plan::Either(first, second))
}

pub(crate) fn again_plan(alloc: Global, ends: Wire, body: Plan) -> Result<Plan, Memory>
    ensures { IfOk result (λ plan. IsAgain plan ends body) }
{
    let body = Box::new(alloc, body)?;
    Ok(Plan::Again(ends, body))
}

pub(crate) fn watch_plan(
    alloc: Global,
    body_up: Up,
    trap_up: Up,
    body: Plan,
    trap: Plan,
    after: Plan,
) -> Result<Plan, Memory>
    ensures { IfOk result (λ plan. IsWatch plan body_up trap_up body trap after) }
{
    let body = Box::new(alloc, body)?;
    let trap = Box::new(alloc, trap)?;
    let after = Box::new(alloc, after)?;
    Ok(Plan::Watch(body_up, trap_up, body, trap, after))
}

// The least place at which each rule is broken.
ghost use Rattle.std.specs.Prelude.{IfOk};
ghost use Rattle.pbs_check.specs.Declaring.{Rule5, Rule11};
ghost use Rattle.pbs_check.specs.Least.{IsLeast};
ghost use Rattle.pbs_check.specs.inner.Stages.{IsTables};
ghost use Rattle.pbs_base.specs.Words.{AreDifferent};
ghost use Rattle.pbs_names.specs.Naming.{prod_names};
ghost use Rattle.pbs_check.specs.inner.Links.{IsGraph};
ghost use Rattle.pbs_check.specs.Recursion.{Rule8};
ghost use Rattle.pbs_check.specs.inner.Truth.{AreFirst, IsKnown};
ghost use Rattle.pbs_names.specs.StarsAndScopes.{Rule9, Rule10};
ghost use Rattle.pbs_check.specs.Using.{Rule6, Rule7, Rule18, Rule19};

use crate::circles::Circles;
use crate::declaring::{found_over, found_twice};
use crate::graph::Graph;
use crate::recursion::least_recursion;
use crate::uses::{Look, Tables};
use crate::walks::found_in;
use pbs_ast::Spec;
use pbs_base::{Memory, Span};
use std::alloc::Global;

/// A name declared twice, of whatever kinds, or an action listed twice in one level.
pub(crate) fn rule_5(alloc: Global, spec: &Spec) -> Result<Option<Span>, Memory>
    ensures { IfOk result (IsLeast (Rule5 spec.now)) }
{
    found_twice(alloc, spec)
}

/// A name that is used and not declared.
pub(crate) fn rule_6(tables: &Tables, spec: &Spec) -> Option<Span>
    requires { IsTables spec.now tables.now }
    ensures { IsLeast (Rule6 spec.now) result }
{
    found_in(Look::Declared, tables, spec)
}

/// A name of the wrong kind.
pub(crate) fn rule_7(tables: &Tables, spec: &Spec) -> Option<Span>
    requires { IsTables spec.now tables.now }
    ensures { IsLeast (Rule7 spec.now) result }
{
    found_in(Look::Kinds, tables, spec)
}

/// More than 64 input bits, actions or levels.
pub(crate) fn rule_11(spec: &Spec) -> Option<Span>
    ensures { IsLeast (Rule11 spec.now) result }
{
    found_over(spec)
}

/// A comparison whose number needs more bits than the bus has.
pub(crate) fn rule_18(tables: &Tables, spec: &Spec) -> Option<Span>
    ensures { IsLeast (Rule18 spec.now) result }
{
    found_in(Look::Numbers, tables, spec)
}

/// A repetition whose numbers are wrong.
pub(crate) fn rule_19(tables: &Tables, spec: &Spec) -> Option<Span>
    ensures { IsLeast (Rule19 spec.now) result }
{
    found_in(Look::Copies, tables, spec)
}

/// Productions that use each other. The order is best with users after those that they use.
pub(crate) fn rule_8(
    alloc: Global,
    spec: &Spec,
    graph: &Graph,
    order: &[usize],
) -> Result<Option<Span>, Memory>
    requires different { AreDifferent (prod_names spec.now.prods) }
    requires first { AreFirst spec.now.prods }
    requires graph { IsGraph spec.now.prods graph.now }
    ensures { IfOk result (IsLeast (Rule8 spec.now)) }
{
    let circles = Circles::find_all(alloc, graph, order, spec.prods.len())?;
    Ok(least_recursion(graph.uses.as_slice(), circles.roots.as_slice()))
}

/// A star or plus whose body may be empty.
pub(crate) fn rule_9(tables: &Tables, spec: &Spec) -> Option<Span>
    requires { IsKnown spec.now tables.now }
    ensures { IsLeast (Rule9 spec.now) result }
{
    found_in(Look::Stars, tables, spec)
}

/// A scope with a trap that may be empty or has actions or scopes, or with a body without terminals.
pub(crate) fn rule_10(tables: &Tables, spec: &Spec) -> Option<Span>
    requires { IsKnown spec.now tables.now }
    ensures { IsLeast (Rule10 spec.now) result }
{
    found_in(Look::Scopes, tables, spec)
}

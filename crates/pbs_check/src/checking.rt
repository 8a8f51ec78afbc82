// Rules 5 to 11, 18 and 19, one after another.
ghost use Rattle.std.specs.Prelude.{◌≡◌, IfOk, OnOk};
ghost use Rattle.pbs_check.specs.Checked.{Checks};
ghost use Rattle.pbs_check.specs.inner.Stages.{ChecksTo, KeepsBelow, refuse};
ghost use Rattle.pbs_check.specs.inner.Stages.{IsTables};
ghost use Rattle.pbs_check.specs.inner.Truth.{IsKnown};

use crate::fail::Check;
use crate::graph::Graph;
use crate::order::order_of;
use crate::rules::{rule_5, rule_6, rule_7, rule_8, rule_9, rule_10, rule_11, rule_18, rule_19};
use crate::settling::settle;
use crate::tables::tables_of;
use crate::uses::Tables;
use pbs_ast::Spec;
use pbs_base::{Refusal, Span, Subject};
use std::alloc::Global;

fn refuse(rule: u8, found: Option<Span>) -> Result<(), Check>
    ensures { result ≡ refuse rule found }
{
    match found {
        Some(span) => Err(Check::Refused(Refusal {
            subject: Subject::Spec,
            rule,
            span,
        })),
        None => Ok(()),
    }
}

/// Rules 5 to 7, which look at names. Gives the tables for the others.
fn check_names(alloc: Global, spec: &Spec) -> Result<Tables, Check>
    ensures tables { IfOk result (IsTables spec.now) }
    ensures checked { ChecksTo spec.now 8 result }
{
    refuse(5, rule_5(alloc, spec)?)?;
    let tables = tables_of(alloc, spec)?;
    refuse(6, rule_6(&tables, spec))?;
    refuse(7, rule_7(&tables, spec))?;
    Ok(tables)
}

/// Rule 8. Learns of productions.
fn check_recursion(alloc: Global, spec: &Spec, tables: &mut Tables) -> Result<(), Check>
    requires kept { KeepsBelow spec.now 8 }
    requires tables { IsTables spec.now tables.old }
    ensures checked { ChecksTo spec.now 9 result }
    ensures known { OnOk result (IsKnown spec.now tables.new) }
{
    let graph = Graph::new(alloc, &spec.prods, &tables.prods)?;
    let order = order_of(alloc, graph.targets.as_slice())?;
    tables.known = settle(alloc, &spec.prods, order.as_slice())?;
    refuse(8, rule_8(alloc, spec, &graph, order.as_slice())?)
}

/// Rules 9 to 11, 18 and 19.
fn check_others(spec: &Spec, tables: &Tables) -> Result<(), Check>
    requires kept { KeepsBelow spec.now 9 }
    requires known { IsKnown spec.now tables.now }
    ensures { Checks spec.now result }
{
    refuse(9, rule_9(tables, spec))?;
    refuse(10, rule_10(tables, spec))?;
    refuse(11, rule_11(spec))?;
    refuse(18, rule_18(tables, spec))?;
    refuse(19, rule_19(tables, spec))
}

/// Whether the specification keeps rules 5 to 11, 18 and 19. A refusal has the first of them that it breaks, and the
/// least span at which it does.
pub fn check_spec(alloc: Global, spec: &Spec) -> Result<(), Check>
    ensures { Checks spec.now result }
{
    let mut tables = check_names(alloc, spec)?;
    check_recursion(alloc, spec, &mut tables)?;
    check_others(spec, &tables)
}

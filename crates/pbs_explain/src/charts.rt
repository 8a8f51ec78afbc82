// The charts of all nodes of a tree for a run.
ghost use Rattle.std.specs.Prelude.{◌≡◌, ◌≤◌, ◌<◌, ◌+◌, ◌-◌, ◌^◌, IfOk, OnOk, length, IsTrue, slice_get, Some};
ghost use Rattle.pbs_ast.specs.Trees.{tree_of};
ghost use Rattle.pbs_ast.specs.Sound.{inputs_below, nodes_from, visit_count};
ghost use Rattle.pbs_explain.specs.inner.Charts.{AreCharted, Charts, Gains, IsStepOf, PartsCharted, Tells, number_of};

use crate::step::{Chart, Step, make_chart};
use pbs_ast::{Tree, TreeKind};
use pbs_base::{Listed, Memory};
use pbs_covers::truths;
use std::alloc::Global;

/// The chart of the node.
pub(crate) fn chart_of<'a>(
    tree: &Tree,
    run: &[u64],
    action: u8,
    top: usize,
    charts: &'a Listed<Chart>,
) -> &'a Chart
    requires { AreCharted run.now action top charts.now (tree_of tree.now) }
    ensures { Tells run.now action (tree_of tree.now) result.now }
{
    &charts.as_slice()[top - (tree.number as usize + 1)]
}

/// The node with the charts of its parts.
fn step_of<'a>(
    alloc: Global,
    tree: &Tree,
    run: &[u64],
    action: u8,
    top: usize,
    charts: &'a Listed<Chart>,
) -> Result<Step<'a>, Memory>
    requires inputs { IsTrue (inputs_below 64 (tree_of tree.now)) }
    requires parts { PartsCharted run.now action top charts.now (tree_of tree.now) }
    ensures { IfOk result (IsStepOf run.now action (tree_of tree.now)) }
{
    match &tree.kind {
        TreeKind::Empty => Ok(Step::Empty),
        TreeKind::Action(own) => Ok(Step::Action(action == *own)),
        TreeKind::Terminal(_, term) => Ok(Step::Terminal(truths(alloc, term, run)?)),
        TreeKind::Seq(e, f) => Ok(Step::Seq(
            chart_of(e, run, action, top, charts),
            chart_of(f, run, action, top, charts),
        )),
        TreeKind::Choice(e, f) => Ok(Step::Choice(
            chart_of(e, run, action, top, charts),
            chart_of(f, run, action, top, charts),
        )),
        TreeKind::Star(e) => Ok(Step::Star(chart_of(e, run, action, top, charts))),
        TreeKind::Hold(term, e) => {
            let truths = truths(alloc, term, run)?;
            Ok(Step::Hold(truths, chart_of(e, run, action, top, charts)))
        }
        TreeKind::Scope(_, e, x, h) => Ok(Step::Scope(
            chart_of(e, run, action, top, charts),
            chart_of(x, run, action, top, charts),
            chart_of(h, run, action, top, charts),
        )),
    }
}

/// The chart of the node, whose parts have theirs.
fn chart_for(
    alloc: Global,
    tree: &Tree,
    run: &[u64],
    action: u8,
    top: usize,
    charts: &Listed<Chart>,
) -> Result<Chart, Memory>
    requires inputs { IsTrue (inputs_below 64 (tree_of tree.now)) }
    requires parts { PartsCharted run.now action top charts.now (tree_of tree.now) }
    requires vectors { length run.now ≤ 128 }
    ensures { IfOk result (Tells run.now action (tree_of tree.now)) }
{
    let step = step_of(alloc, tree, run, action, top, charts)?;
    make_chart(alloc, &step, run.len())
}

/// Adds the chart of the node, whose parts have theirs.
fn push_chart(
    alloc: Global,
    tree: &Tree,
    run: &[u64],
    action: u8,
    top: usize,
    charts: &mut Listed<Chart>,
) -> Result<(), Memory>
    requires inputs { IsTrue (inputs_below 64 (tree_of tree.now)) }
    requires parts { PartsCharted run.now action top charts.old (tree_of tree.now) }
    requires vectors { length run.now ≤ 128 }
    requires room { number_of (tree_of tree.now) + 1 + length charts.old ≡ top }
    ensures { OnOk result (Gains run.now action top charts.old charts.new (tree_of tree.now)) }
{
    let chart = chart_for(alloc, tree, run, action, top, charts)?;
    charts.push(chart)?;
    Ok(())
}

/// Adds the charts of the node and of all nodes below it, in falling order of numbers.
pub(crate) fn push_charts(
    alloc: Global,
    tree: &Tree,
    run: &[u64],
    action: u8,
    top: usize,
    charts: &mut Listed<Chart>,
) -> Result<(), Memory>
    requires inputs { IsTrue (inputs_below 64 (tree_of tree.now)) }
    requires numbered { IsTrue (nodes_from (tree_of tree.now) (number_of (tree_of tree.now))) }
    requires vectors { length run.now ≤ 128 }
    requires room { number_of (tree_of tree.now) + visit_count (tree_of tree.now) + length charts.old ≡ top }
    ensures { OnOk result (Charts run.now action top charts.old charts.new (tree_of tree.now)) }
{
    match &tree.kind {
        TreeKind::Empty | TreeKind::Action(_) | TreeKind::Terminal(_, _) => {
            push_chart(alloc, tree, run, action, top, charts)
        }
        TreeKind::Seq(e, f) => match push_charts(alloc, f, run, action, top, charts) {
            Ok(()) => match push_charts(alloc, e, run, action, top, charts) {
                Ok(()) => push_chart(alloc, tree, run, action, top, charts),
                Err(Memory) => Err(Memory),
            },
            Err(Memory) => Err(Memory),
        },
        TreeKind::Choice(e, f) => match push_charts(alloc, f, run, action, top, charts) {
            Ok(()) => match push_charts(alloc, e, run, action, top, charts) {
                Ok(()) => push_chart(alloc, tree, run, action, top, charts),
                Err(Memory) => Err(Memory),
            },
            Err(Memory) => Err(Memory),
        },
        TreeKind::Star(e) => match push_charts(alloc, e, run, action, top, charts) {
            Ok(()) => push_chart(alloc, tree, run, action, top, charts),
            Err(Memory) => Err(Memory),
        },
        TreeKind::Hold(_, e) => match push_charts(alloc, e, run, action, top, charts) {
            Ok(()) => push_chart(alloc, tree, run, action, top, charts),
            Err(Memory) => Err(Memory),
        },
        TreeKind::Scope(_, e, x, h) => match push_charts(alloc, h, run, action, top, charts) {
            Ok(()) => match push_charts(alloc, x, run, action, top, charts) {
                Ok(()) => match push_charts(alloc, e, run, action, top, charts) {
                    Ok(()) => push_chart(alloc, tree, run, action, top, charts),
                    Err(Memory) => Err(Memory),
                },
                Err(Memory) => Err(Memory),
            },
            Err(Memory) => Err(Memory),
        },
    }
}

// The first derivation that ends at an action.
ghost use Rattle.std.specs.Prelude.{◌≡◌, ◌≤◌, ◌<◌, ◌++◌, length, Some, None, IfOk, OnOk, IfSome, if◌then◌else◌};
ghost use Rattle.pbs_ast.specs.Trees.{tree_of};
ghost use Rattle.pbs_ast.specs.Sound.{visit_count};
ghost use Rattle.pbs_derive.specs.Derivations.{fires};
ghost use Rattle.pbs_explain.specs.inner.Charts.{AreCharted};
ghost use Rattle.pbs_explain.specs.Explained.{Ends};
ghost use Rattle.pbs_explain.specs.Firsts.{first_end, first_items};

use crate::charts::push_charts;
use crate::count::count_nodes;
use crate::derivation::{Derivation, Item};
use crate::known::{Known, abort_of, covers_at, fires_at, split_at, start_of, turn_end};
use pbs_ast::{Main, Tree, TreeKind};
use pbs_base::{Listed, Memory};
use std::alloc::Global;

/// Appends what the first derivation of [i,j) consumes.
fn push_items(
    known: &Known<'_>,
    tree: &Tree,
    i: usize,
    j: usize,
    out: &mut Listed<Item>,
) -> Result<(), Memory>
    requires few { length known.now.run.now ≤ 128 }
    requires charted { AreCharted known.now.run.now known.now.action known.now.top known.now.charts (tree_of tree.now) }
    requires start { i ≤ j }
    requires end { j ≤ length known.now.run.now }
    ensures { OnOk result (out.new ≡ out.old ++ first_items (tree_of tree.now) known.now.run.now i j) }
{
    match &tree.kind {
        TreeKind::Empty | TreeKind::Action(_) => Ok(()),
        TreeKind::Terminal(place, _) => out.push(Item::Take(*place)),
        TreeKind::Seq(e, f) => {
            let m = split_at(known, e, f, i, j);
            match push_items(known, e, i, m, out) {
                Ok(()) => push_items(known, f, m, j, out),
                Err(Memory) => Err(Memory),
            }
        }
        TreeKind::Choice(e, f) => {
            if covers_at(known, e, i, j) {
                push_items(known, e, i, j, out)
            } else {
                push_items(known, f, i, j, out)
            }
        }
        TreeKind::Star(e) => {
            let mut from = i;
            while from < j {
                let m = turn_end(known, e, tree, from, j);
                push_items(known, e, from, m, out)?;
                from = m;
            }
            Ok(())
        }
        TreeKind::Hold(_, e) => push_items(known, e, i, j, out),
        TreeKind::Scope(scope, e, x, h) => match abort_of(known, e, x, i, j) {
            Some(m) => match out.push(Item::Cut(*scope, m as u32)) {
                Ok(()) => push_items(known, h, m, j, out),
                Err(Memory) => Err(Memory),
            },
            None => push_items(known, e, i, j, out),
        },
    }
}

/// Appends what the first derivation from `i` that ends at the action consumes, and tells the number of its node.
fn push_end(known: &Known<'_>, tree: &Tree, i: usize, out: &mut Listed<Item>) -> Result<u32, Memory>
    requires few { length known.now.run.now ≤ 128 }
    requires charted { AreCharted known.now.run.now known.now.action known.now.top known.now.charts (tree_of tree.now) }
    requires start { i ≤ length known.now.run.now }
    ensures node { IfOk result (λ node. node ≡ (first_end (tree_of tree.now) known.now.run.now i
        (length known.now.run.now) known.now.action).node) }
    ensures items { OnOk result (out.new ≡ out.old ++ (first_end (tree_of tree.now) known.now.run.now i
        (length known.now.run.now) known.now.action).items) }
{
    match &tree.kind {
        TreeKind::Empty | TreeKind::Action(_) | TreeKind::Terminal(_, _) => Ok(tree.number),
        TreeKind::Seq(e, f) => {
            if fires_at(known, e, i) {
                push_end(known, e, i, out)
            } else {
                let m = start_of(known, e, f, i);
                match push_items(known, e, i, m, out) {
                    Ok(()) => push_end(known, f, m, out),
                    Err(Memory) => Err(Memory),
                }
            }
        }
        TreeKind::Choice(e, f) => {
            if fires_at(known, e, i) {
                push_end(known, e, i, out)
            } else {
                push_end(known, f, i, out)
            }
        }
        TreeKind::Star(e) => {
            let m = start_of(known, tree, e, i);
            match push_items(known, tree, i, m, out) {
                Ok(()) => push_end(known, e, m, out),
                Err(Memory) => Err(Memory),
            }
        }
        TreeKind::Hold(_, e) => push_end(known, e, i, out),
        TreeKind::Scope(scope, e, x, h) => match abort_of(known, e, x, i, known.run.len()) {
            Some(m) => match out.push(Item::Cut(*scope, m as u32)) {
                Ok(()) => push_end(known, h, m, out),
                Err(Memory) => Err(Memory),
            },
            None => push_end(known, e, i, out),
        },
    }
}

/// What is known of main for a run and an action.
pub(crate) fn know<'a>(
    alloc: Global,
    main: &Main,
    run: &'a [u64],
    action: u8,
) -> Result<Known<'a>, Memory>
    requires vectors { length run.now ≤ 128 }
    requires nodes { visit_count (tree_of main.now.tree) ≤ 1024 }
    ensures run { IfOk result (λ known. known.run.now ≡ run.now) }
    ensures action { IfOk result (λ known. known.action ≡ action) }
    ensures charted { IfOk result (λ known. AreCharted run.now action known.top known.charts (tree_of main.now.tree)) }
{
    let top = count_nodes(main);
    let mut charts = Listed::new(alloc);
    push_charts(alloc, &main.tree, run, action, top, &mut charts)?;
    Ok(Known {
        run,
        action,
        top,
        charts,
    })
}

/// The first derivation of main that ends at the action at the end of the run: the left part before the right one, and
/// the least split. None exactly where the action doesn't fire there.
pub fn first_derivation(
    alloc: Global,
    main: &Main,
    run: &[u64],
    action: u8,
) -> Result<Option<Derivation>, Memory>
    requires vectors { length run.now ≤ 128 }
    requires nodes { visit_count (tree_of main.now.tree) ≤ 1024 }
    ensures first { IfOk result (λ answer. answer
        ≡ (if fires (tree_of main.now.tree) run.now 0 (length run.now) action
        then Some (first_end (tree_of main.now.tree) run.now 0 (length run.now) action) else None)) }
    ensures ends { IfOk result (λ answer. IfSome answer (λ d.
        Ends (tree_of main.now.tree) run.now 0 (length run.now) d.items d.node)) }
{
    let known = know(alloc, main, run, action)?;
    if !fires_at(&known, &main.tree, 0) {
        return Ok(None);
    }
    let mut items = Listed::new(alloc);
    let node = push_end(&known, &main.tree, 0, &mut items)?;
    Ok(Some(Derivation { node, items }))
}

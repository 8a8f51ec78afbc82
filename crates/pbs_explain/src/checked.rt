// Whether items and a node are a derivation.
ghost use Rattle.std.specs.Prelude.{◌≡◌, ◌↔◌, ◌≤◌, ◌<◌, ℕ, true, IfOk, IsTrue, length};
ghost use Rattle.pbs_ast.specs.Trees.{tree_of};
ghost use Rattle.pbs_ast.specs.Sound.{inputs_below, visit_count};
ghost use Rattle.pbs_derive.specs.Derivations.{fires};
ghost use Rattle.pbs_covers.specs.Grids.{at, entry};
ghost use Rattle.pbs_explain.specs.inner.Charts.{AreCharted};
ghost use Rattle.pbs_explain.specs.inner.Checked.{Follows, IsReadStep, Reads, cuts_at, scoped};
ghost use Rattle.pbs_explain.specs.Explained.{Ends, has_action_node};

use crate::derivation::Derivation;
use crate::first::know;
use crate::items::{
    Reading, cuts, holds_throughout, is_clear, leads_to, position, positions_of, takes,
};
use crate::step::{Chart, Step, covers_grid, fires_grid};
use pbs_ast::{Main, Tree, TreeKind};
use pbs_base::{Listed, Memory};
use pbs_covers::grid::{Grid, at, entry};
use std::alloc::Global;

/// A scope's body and trap, and for each item whether it cuts the scope.
#[derive(Drop)]
pub struct Cutting<'a> {
    pub body: &'a Tree,
    pub trap: &'a Tree,
    pub cuts: Listed<bool>,
}

/// What a scope's grid tells of the items from `c` up to `d`, from the grids of its body and its after part.
fn scope_cell(
    reading: &Reading<'_>,
    scope: &Cutting<'_>,
    body: &Grid,
    after: &Grid,
    c: usize,
    d: usize,
) -> bool
    requires follows { Follows reading.now.known.run.now reading.now.items.now reading.now.positions }
    requires body { AreCharted reading.now.known.run.now reading.now.known.action reading.now.known.top
        reading.now.known.charts (tree_of scope.now.body.now) }
    requires trap { AreCharted reading.now.known.run.now reading.now.known.action reading.now.known.top
        reading.now.known.charts (tree_of scope.now.trap.now) }
    requires start { c ≤ d }
    requires end { d ≤ length reading.now.items.now }
    ensures { result ≡ scoped (tree_of scope.now.body.now) (tree_of scope.now.trap.now) reading.now.known.run.now
        reading.now.items.now scope.now.cuts
        body.now after.now c d }
{
    let n = reading.items.len();
    if is_clear(
        &reading.known,
        scope.body,
        scope.trap,
        position(reading, c),
        position(reading, d),
    ) && at(body, n, c, d)
    {
        return true;
    }
    c < d && entry(&scope.cuts, c) && at(after, n, c + 1, d)
}

fn scope_row(
    alloc: Global,
    reading: &Reading<'_>,
    scope: &Cutting<'_>,
    body: &Grid,
    after: &Grid,
    c: usize,
) -> Result<Listed<bool>, Memory>
    requires follows { Follows reading.now.known.run.now reading.now.items.now reading.now.positions }
    requires body { AreCharted reading.now.known.run.now reading.now.known.action reading.now.known.top
        reading.now.known.charts (tree_of scope.now.body.now) }
    requires trap { AreCharted reading.now.known.run.now reading.now.known.action reading.now.known.top
        reading.now.known.charts (tree_of scope.now.trap.now) }
    ensures { IfOk result (λ row. (d : ℕ) → c ≤ d → d ≤ length reading.now.items.now → entry row d
        ≡ scoped (tree_of scope.now.body.now) (tree_of scope.now.trap.now) reading.now.known.run.now
        reading.now.items.now scope.now.cuts body.now
        after.now c d) }
{
    let mut row = Listed::new(alloc);
    for d in 0..reading.items.len() + 1 {
        let value = c <= d && scope_cell(reading, scope, body, after, c, d);
        row.push(value)?;
    }
    Ok(row)
}

fn scope_grid(
    alloc: Global,
    reading: &Reading<'_>,
    scope: &Cutting<'_>,
    body: &Grid,
    after: &Grid,
) -> Result<Grid, Memory>
    requires follows { Follows reading.now.known.run.now reading.now.items.now reading.now.positions }
    requires body { AreCharted reading.now.known.run.now reading.now.known.action reading.now.known.top
        reading.now.known.charts (tree_of scope.now.body.now) }
    requires trap { AreCharted reading.now.known.run.now reading.now.known.action reading.now.known.top
        reading.now.known.charts (tree_of scope.now.trap.now) }
    ensures { IfOk result (λ grid. (c d : ℕ) → c ≤ d → d ≤ length reading.now.items.now
        → at (length reading.now.items.now) grid c d
        ≡ scoped (tree_of scope.now.body.now) (tree_of scope.now.trap.now) reading.now.known.run.now
        reading.now.items.now scope.now.cuts body.now
        after.now c d) }
{
    let n = reading.items.len();
    let mut grid = Listed::new(alloc);
    for back in 0..n + 1 {
        let row = scope_row(alloc, reading, scope, body, after, n - back)?;
        grid.push(row)?;
    }
    Ok(grid)
}

/// The chart of a scope over the items, from those of its body and its after part.
fn scope_chart(
    alloc: Global,
    reading: &Reading<'_>,
    scope: &Cutting<'_>,
    body: &Chart,
    after: &Chart,
) -> Result<Chart, Memory>
    requires follows { Follows reading.now.known.run.now reading.now.items.now reading.now.positions }
    requires body { AreCharted reading.now.known.run.now reading.now.known.action reading.now.known.top
        reading.now.known.charts (tree_of scope.now.body.now) }
    requires trap { AreCharted reading.now.known.run.now reading.now.known.action reading.now.known.top
        reading.now.known.charts (tree_of scope.now.trap.now) }
    ensures covers { IfOk result (λ chart. (c d : ℕ) → c ≤ d → d ≤ length reading.now.items.now
        → at (length reading.now.items.now) chart.covers c d
        ≡ scoped (tree_of scope.now.body.now) (tree_of scope.now.trap.now) reading.now.known.run.now
        reading.now.items.now scope.now.cuts
        body.now.covers after.now.covers c d) }
    ensures fires { IfOk result (λ chart. (c d : ℕ) → c ≤ d → d ≤ length reading.now.items.now
        → at (length reading.now.items.now) chart.fires c d
        ≡ scoped (tree_of scope.now.body.now) (tree_of scope.now.trap.now) reading.now.known.run.now
        reading.now.items.now scope.now.cuts
        body.now.fires after.now.fires c d) }
{
    let covers = scope_grid(alloc, reading, scope, &body.covers, &after.covers)?;
    let fires = scope_grid(alloc, reading, scope, &body.fires, &after.fires)?;
    Ok(Chart {
        covers,
        alive: Listed::new(alloc),
        fires,
    })
}

/// The chart of a node over the items, from those of its parts; only a scope's isn't made here.
fn step_chart(
    alloc: Global,
    reading: &Reading<'_>,
    tree: &Tree,
    step: &Step<'_>,
) -> Result<Chart, Memory>
    requires follows { Follows reading.now.known.run.now reading.now.items.now reading.now.positions }
    requires step { IsReadStep reading.now.known.run.now reading.now.items.now reading.now.node (tree_of tree.now)
        step.now }
    ensures { IfOk result (Reads reading.now.known.run.now reading.now.items.now reading.now.node (tree_of tree.now)) }
{
    let n = reading.items.len();
    let covers = covers_grid(alloc, step, n)?;
    let fires = fires_grid(alloc, step, &covers, n)?;
    Ok(Chart {
        covers,
        alive: Listed::new(alloc),
        fires,
    })
}

/// The chart of the tree over the items.
fn read_chart(alloc: Global, reading: &Reading<'_>, tree: &Tree) -> Result<Chart, Memory>
    requires inputs { IsTrue (inputs_below 64 (tree_of tree.now)) }
    requires follows { Follows reading.now.known.run.now reading.now.items.now reading.now.positions }
    requires charted { AreCharted reading.now.known.run.now reading.now.known.action reading.now.known.top
        reading.now.known.charts (tree_of tree.now) }
    ensures { IfOk result (Reads reading.now.known.run.now reading.now.items.now reading.now.node (tree_of tree.now)) }
{
    match &tree.kind {
        TreeKind::Empty => step_chart(alloc, reading, tree, &Step::Empty),
        TreeKind::Action(_) => step_chart(
            alloc,
            reading,
            tree,
            &Step::Action(tree.number == reading.node),
        ),
        TreeKind::Terminal(place, term) => {
            let truths = takes(alloc, reading, *place, term)?;
            step_chart(alloc, reading, tree, &Step::Terminal(truths))
        }
        TreeKind::Seq(e, f) => {
            let left = read_chart(alloc, reading, e)?;
            let right = read_chart(alloc, reading, f)?;
            step_chart(alloc, reading, tree, &Step::Seq(&left, &right))
        }
        TreeKind::Choice(e, f) => {
            let left = read_chart(alloc, reading, e)?;
            let right = read_chart(alloc, reading, f)?;
            step_chart(alloc, reading, tree, &Step::Choice(&left, &right))
        }
        TreeKind::Star(e) => {
            let turn = read_chart(alloc, reading, e)?;
            step_chart(alloc, reading, tree, &Step::Star(&turn))
        }
        TreeKind::Hold(term, e) => {
            let truths = holds_throughout(alloc, reading, term)?;
            let held = read_chart(alloc, reading, e)?;
            step_chart(alloc, reading, tree, &Step::Hold(truths, &held))
        }
        TreeKind::Scope(scope, e, x, h) => {
            let cuts = cuts(alloc, reading, *scope, e, x)?;
            let body = read_chart(alloc, reading, e)?;
            let after = read_chart(alloc, reading, h)?;
            let cutting = Cutting {
                body: e,
                trap: x,
                cuts,
            };
            scope_chart(alloc, reading, &cutting, &body, &after)
        }
    }
}

/// Whether the derivation is one of main that ends at its node at the end of the run. Where it is, the node is an
/// action's, and that action fires there.
pub fn check_derivation(
    alloc: Global,
    main: &Main,
    run: &[u64],
    d: &Derivation,
) -> Result<bool, Memory>
    requires vectors { length run.now ≤ 128 }
    requires nodes { visit_count (tree_of main.now.tree) ≤ 1024 }
    ensures exact { IfOk result (λ answer. (answer ≡ true)
        ↔ Ends (tree_of main.now.tree) run.now 0 (length run.now) d.now.items d.now.node) }
    ensures fires { IfOk result (λ answer. answer ≡ true
        → (a : ℕ) × (has_action_node (tree_of main.now.tree) d.now.node a ≡ true)
        × (fires (tree_of main.now.tree) run.now 0 (length run.now) a ≡ true)) }
{
    if !leads_to(&d.items, run.len()) {
        return Ok(false);
    }
    let positions = positions_of(alloc, &d.items, run.len())?;
    let known = know(alloc, main, run, 0)?;
    let reading = Reading {
        known,
        items: &d.items,
        positions,
        node: d.node,
    };
    let chart = read_chart(alloc, &reading, &main.tree)?;
    let n = d.items.len();
    Ok(at(&chart.fires, n, 0, n))
}

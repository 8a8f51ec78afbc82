// What the charts tell: splits, turns and aborts of the first derivation.
ghost use Rattle.std.specs.Prelude.{◌≡◌, ◌≤◌, ◌<◌, ◌-◌, ◌^◌, ◌&&◌, length, Some, None, IfSome, if◌then◌else◌};
ghost use Rattle.pbs_ast.specs.Trees.{tree_of};
ghost use Rattle.pbs_derive.specs.Derivations.{covers, fires, some_after, trips};
ghost use Rattle.pbs_covers.specs.Grids.{at, trips_at};
ghost use Rattle.pbs_explain.specs.inner.Charts.{AreCharted};
ghost use Rattle.pbs_explain.specs.Firsts.{first_from, least_after, least_within};

use crate::charts::chart_of;
use crate::step::Chart;
use pbs_ast::Tree;
use pbs_base::Listed;
use pbs_covers::grid::{Grid, at};

/// A run, an action, and the charts of all nodes of a tree with `top` nodes.
#[derive(Drop)]
pub struct Known<'a> {
    pub run: &'a [u64],
    pub action: u8,
    pub top: usize,
    pub charts: Listed<Chart>,
}

/// The first position from `k` to `j` at which the left grid from `i` meets the right grid to `j`; `j` where there is
/// none.
fn first_joint(left: &Grid, right: &Grid, n: usize, k: usize, i: usize, j: usize) -> usize
    requires start { i ≤ n }
    requires end { j ≤ n }
    requires order { k ≤ j }
    requires room { n < 2 ^ 62 }
    ensures { result ≡ first_from k (j - k) (λ m. at n left.now i m && at n right.now m j) }
{
    for m in k..j {
        if at(left, n, i, m) && at(right, n, m, j) {
            return m;
        }
    }
    j
}

/// The first position up to `j` at which the trap has ended while the body was alive.
fn first_trip(trap: &Grid, alive: &Grid, n: usize, i: usize, j: usize) -> Option<usize>
    requires start { i ≤ j }
    requires end { j ≤ n }
    requires room { n < 2 ^ 62 }
    ensures { result ≡ (if some_after i j (trips_at n trap.now alive.now i)
        then Some (least_after i j (trips_at n trap.now alive.now i)) else None) }
{
    for m in i + 1..j + 1 {
        if at(trap, n, i, m) && at(alive, n, i, m - 1) {
            return Some(m);
        }
    }
    None
}

pub(crate) fn covers_at(known: &Known<'_>, tree: &Tree, i: usize, j: usize) -> bool
    requires charted { AreCharted known.now.run.now known.now.action known.now.top known.now.charts (tree_of tree.now) }
    requires start { i ≤ j }
    requires end { j ≤ length known.now.run.now }
    ensures { result ≡ covers (tree_of tree.now) known.now.run.now i j }
{
    let chart = chart_of(tree, known.run, known.action, known.top, &known.charts);
    at(&chart.covers, known.run.len(), i, j)
}

/// Whether the action fires at the end of the run.
pub(crate) fn fires_at(known: &Known<'_>, tree: &Tree, i: usize) -> bool
    requires charted { AreCharted known.now.run.now known.now.action known.now.top known.now.charts (tree_of tree.now) }
    requires start { i ≤ length known.now.run.now }
    ensures { result ≡ fires (tree_of tree.now) known.now.run.now i (length known.now.run.now) known.now.action }
{
    let chart = chart_of(tree, known.run, known.action, known.top, &known.charts);
    at(&chart.fires, known.run.len(), i, known.run.len())
}

/// Where the first derivation of [i,j) goes over from the left part to the right one.
pub(crate) fn split_at(known: &Known<'_>, left: &Tree, right: &Tree, i: usize, j: usize) -> usize
    requires few { length known.now.run.now ≤ 128 }
    requires left { AreCharted known.now.run.now known.now.action known.now.top known.now.charts (tree_of left.now) }
    requires right { AreCharted known.now.run.now known.now.action known.now.top known.now.charts (tree_of right.now) }
    requires start { i ≤ j }
    requires end { j ≤ length known.now.run.now }
    ensures low { i ≤ result }
    ensures high { result ≤ j }
    ensures split { result ≡ least_within i j (λ m. covers (tree_of left.now) known.now.run.now i m
        && covers (tree_of right.now) known.now.run.now m j) }
{
    let left = chart_of(left, known.run, known.action, known.top, &known.charts);
    let right = chart_of(right, known.run, known.action, known.top, &known.charts);
    first_joint(&left.covers, &right.covers, known.run.len(), i, i, j)
}

/// Where the first turn ends, in the first derivation of [i,j) by a star.
pub(crate) fn turn_end(known: &Known<'_>, body: &Tree, star: &Tree, i: usize, j: usize) -> usize
    requires few { length known.now.run.now ≤ 128 }
    requires body { AreCharted known.now.run.now known.now.action known.now.top known.now.charts (tree_of body.now) }
    requires star { AreCharted known.now.run.now known.now.action known.now.top known.now.charts (tree_of star.now) }
    requires start { i < j }
    requires end { j ≤ length known.now.run.now }
    ensures low { i < result }
    ensures high { result ≤ j }
    ensures turn { result ≡ least_after i j (λ m. covers (tree_of body.now) known.now.run.now i m
        && covers (tree_of star.now) known.now.run.now m j) }
{
    let left = chart_of(body, known.run, known.action, known.top, &known.charts);
    let right = chart_of(star, known.run, known.action, known.top, &known.charts);
    first_joint(&left.covers, &right.covers, known.run.len(), i + 1, i, j)
}

/// Where the part begins in which the action fires, behind what the left part covers.
pub(crate) fn start_of(known: &Known<'_>, left: &Tree, right: &Tree, i: usize) -> usize
    requires few { length known.now.run.now ≤ 128 }
    requires left { AreCharted known.now.run.now known.now.action known.now.top known.now.charts (tree_of left.now) }
    requires right { AreCharted known.now.run.now known.now.action known.now.top known.now.charts (tree_of right.now) }
    requires start { i ≤ length known.now.run.now }
    ensures low { i ≤ result }
    ensures high { result ≤ length known.now.run.now }
    ensures start { result ≡ least_within i (length known.now.run.now) (λ m. covers (tree_of left.now) known.now.run.now i m
        && fires (tree_of right.now) known.now.run.now m (length known.now.run.now) known.now.action) }
{
    let left = chart_of(left, known.run, known.action, known.top, &known.charts);
    let right = chart_of(right, known.run, known.action, known.top, &known.charts);
    first_joint(
        &left.covers,
        &right.fires,
        known.run.len(),
        i,
        i,
        known.run.len(),
    )
}

/// The abort position up to `j` of the instance that begins at `i`, if there is one.
pub(crate) fn abort_of(
    known: &Known<'_>,
    body: &Tree,
    trap: &Tree,
    i: usize,
    j: usize,
) -> Option<usize>
    requires few { length known.now.run.now ≤ 128 }
    requires body { AreCharted known.now.run.now known.now.action known.now.top known.now.charts (tree_of body.now) }
    requires trap { AreCharted known.now.run.now known.now.action known.now.top known.now.charts (tree_of trap.now) }
    requires start { i ≤ j }
    requires end { j ≤ length known.now.run.now }
    ensures low { IfSome result (λ m. i < m) }
    ensures high { IfSome result (λ m. m ≤ j) }
    ensures abort { result ≡ (if some_after i j (trips (tree_of body.now) (tree_of trap.now) known.now.run.now i)
        then Some (least_after i j (trips (tree_of body.now) (tree_of trap.now) known.now.run.now i)) else None) }
{
    let body = chart_of(body, known.run, known.action, known.top, &known.charts);
    let trap = chart_of(trap, known.run, known.action, known.top, &known.charts);
    first_trip(&trap.covers, &body.alive, known.run.len(), i, j)
}

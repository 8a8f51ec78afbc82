// The charts of one node, from those of its parts.
ghost use Rattle.std.specs.Prelude.{◌≡◌, ◌≤◌, ◌<◌, ℕ, ◌^◌, IfOk};
ghost use Rattle.pbs_covers.specs.Grids.{entry};
ghost use Rattle.pbs_explain.specs.inner.Charts.{step_covers, step_alive, step_fires, IsCovers, IsAlive, IsFires, IsChart};

use pbs_base::{Listed, Memory};
use pbs_covers::grid::{Grid, aborted, at, entry, joint, throughout};
use std::alloc::Global;

/// For each stretch of a run: whether a node covers it, and whether the node is alive and the action fires behind it.
#[derive(Drop)]
pub struct Chart {
    pub covers: Grid,
    pub alive: Grid,
    pub fires: Grid,
}

/// A node, with the charts of its parts and the truth of its term in each vector.
#[derive(Drop)]
pub enum Step<'a> {
    Empty,
    /// Whether it is the action that is asked for.
    Action(bool),
    Terminal(Listed<bool>),
    Seq(&'a Chart, &'a Chart),
    Choice(&'a Chart, &'a Chart),
    Star(&'a Chart),
    Hold(Listed<bool>, &'a Chart),
    /// The body, the trap and the after part.
    Scope(&'a Chart, &'a Chart, &'a Chart),
}

/// What the node covers at one stretch. `own` has the rows of all later starts.
fn covers_cell(step: &Step<'_>, own: &Grid, n: usize, i: usize, j: usize) -> bool
    requires start { i ≤ j }
    requires end { j ≤ n }
    requires room { n < 2 ^ 62 }
    ensures { result ≡ step_covers step.now n own.now i j }
{
    match step {
        Step::Empty | Step::Action(_) => i == j,
        Step::Terminal(truths) => j == i + 1 && entry(truths, i),
        Step::Seq(e, f) => joint(&e.covers, &f.covers, n, i, i, j),
        Step::Choice(e, f) => at(&e.covers, n, i, j) || at(&f.covers, n, i, j),
        Step::Star(e) => i == j || joint(&e.covers, own, n, i + 1, i, j),
        Step::Hold(truths, e) => at(&e.covers, n, i, j) && throughout(truths, i, j),
        Step::Scope(e, x, h) => aborted(&x.covers, &e.alive, &e.covers, &h.covers, n, i, j),
    }
}

/// Whether the node is alive after one stretch. `own` is what it covers.
fn alive_cell(step: &Step<'_>, own: &Grid, n: usize, i: usize, j: usize) -> bool
    requires start { i ≤ j }
    requires end { j ≤ n }
    requires room { n < 2 ^ 62 }
    ensures { result ≡ step_alive step.now n own.now i j }
{
    match step {
        Step::Empty | Step::Action(_) => false,
        Step::Terminal(_) => i == j,
        Step::Seq(e, f) => at(&e.alive, n, i, j) || joint(&e.covers, &f.alive, n, i, i, j),
        Step::Choice(e, f) => at(&e.alive, n, i, j) || at(&f.alive, n, i, j),
        Step::Star(e) => joint(own, &e.alive, n, i, i, j),
        Step::Hold(truths, e) => at(&e.alive, n, i, j) && throughout(truths, i, j),
        Step::Scope(e, x, h) => aborted(&x.covers, &e.alive, &e.alive, &h.alive, n, i, j),
    }
}

/// Whether the action fires after one stretch. `own` is what it covers.
fn fires_cell(step: &Step<'_>, own: &Grid, n: usize, i: usize, j: usize) -> bool
    requires start { i ≤ j }
    requires end { j ≤ n }
    requires room { n < 2 ^ 62 }
    ensures { result ≡ step_fires step.now n own.now i j }
{
    match step {
        Step::Empty | Step::Terminal(_) => false,
        Step::Action(asked) => *asked && i == j,
        Step::Seq(e, f) => at(&e.fires, n, i, j) || joint(&e.covers, &f.fires, n, i, i, j),
        Step::Choice(e, f) => at(&e.fires, n, i, j) || at(&f.fires, n, i, j),
        Step::Star(e) => joint(own, &e.fires, n, i, i, j),
        Step::Hold(truths, e) => at(&e.fires, n, i, j) && throughout(truths, i, j),
        Step::Scope(e, x, h) => aborted(&x.covers, &e.alive, &e.fires, &h.fires, n, i, j),
    }
}

fn covers_row(
    alloc: Global,
    step: &Step<'_>,
    own: &Grid,
    n: usize,
    i: usize,
) -> Result<Listed<bool>, Memory>
    requires room { n < 2 ^ 62 }
    ensures { IfOk result (λ row. (j : ℕ) → i ≤ j → j ≤ n → entry row j ≡ step_covers step.now n own.now i j) }
{
    let mut row = Listed::new(alloc);
    for j in 0..n + 1 {
        let value = i <= j && covers_cell(step, own, n, i, j);
        row.push(value)?;
    }
    Ok(row)
}

fn alive_row(
    alloc: Global,
    step: &Step<'_>,
    own: &Grid,
    n: usize,
    i: usize,
) -> Result<Listed<bool>, Memory>
    requires room { n < 2 ^ 62 }
    ensures { IfOk result (λ row. (j : ℕ) → i ≤ j → j ≤ n → entry row j ≡ step_alive step.now n own.now i j) }
{
    let mut row = Listed::new(alloc);
    for j in 0..n + 1 {
        let value = i <= j && alive_cell(step, own, n, i, j);
        row.push(value)?;
    }
    Ok(row)
}

fn fires_row(
    alloc: Global,
    step: &Step<'_>,
    own: &Grid,
    n: usize,
    i: usize,
) -> Result<Listed<bool>, Memory>
    requires room { n < 2 ^ 62 }
    ensures { IfOk result (λ row. (j : ℕ) → i ≤ j → j ≤ n → entry row j ≡ step_fires step.now n own.now i j) }
{
    let mut row = Listed::new(alloc);
    for j in 0..n + 1 {
        let value = i <= j && fires_cell(step, own, n, i, j);
        row.push(value)?;
    }
    Ok(row)
}

pub(crate) fn covers_grid(alloc: Global, step: &Step<'_>, n: usize) -> Result<Grid, Memory>
    requires room { n < 2 ^ 62 }
    ensures { IfOk result (λ grid. IsCovers step.now n grid) }
{
    let mut grid = Listed::new(alloc);
    for back in 0..n + 1 {
        let row = covers_row(alloc, step, &grid, n, n - back)?;
        grid.push(row)?;
    }
    Ok(grid)
}

fn alive_grid(alloc: Global, step: &Step<'_>, own: &Grid, n: usize) -> Result<Grid, Memory>
    requires room { n < 2 ^ 62 }
    ensures { IfOk result (λ grid. IsAlive step.now n own.now grid) }
{
    let mut grid = Listed::new(alloc);
    for back in 0..n + 1 {
        let row = alive_row(alloc, step, own, n, n - back)?;
        grid.push(row)?;
    }
    Ok(grid)
}

pub(crate) fn fires_grid(
    alloc: Global,
    step: &Step<'_>,
    own: &Grid,
    n: usize,
) -> Result<Grid, Memory>
    requires room { n < 2 ^ 62 }
    ensures { IfOk result (λ grid. IsFires step.now n own.now grid) }
{
    let mut grid = Listed::new(alloc);
    for back in 0..n + 1 {
        let row = fires_row(alloc, step, own, n, n - back)?;
        grid.push(row)?;
    }
    Ok(grid)
}

pub(crate) fn make_chart(alloc: Global, step: &Step<'_>, n: usize) -> Result<Chart, Memory>
    requires room { n < 2 ^ 62 }
    ensures { IfOk result (IsChart step.now n) }
{
    let covers = covers_grid(alloc, step, n)?;
    let alive = alive_grid(alloc, step, &covers, n)?;
    let fires = fires_grid(alloc, step, &covers, n)?;
    Ok(Chart {
        covers,
        alive,
        fires,
    })
}

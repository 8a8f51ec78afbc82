// The tables of one node, from those of its parts.
ghost use Rattle.std.specs.Prelude.{◌≡◌, ◌≤◌, ◌<◌, ℕ, ◌^◌, IfOk};
ghost use Rattle.pbs_covers.specs.Grids.{entry};
ghost use Rattle.pbs_covers.specs.inner.Tables.{step_covers, step_alive, IsCovers, IsAlive, IsStep};

use crate::grid::{Grid, aborted, at, entry, joint, throughout};
use pbs_base::{Listed, Memory};
use std::alloc::Global;

/// What a node covers and where it is alive.
#[derive(Drop)]
pub struct Tables {
    pub covers: Grid,
    pub alive: Grid,
}

/// A node, with the tables of its parts and the truth of its term in each vector. An action is as an empty node.
#[derive(Drop)]
pub enum Step {
    Empty,
    Terminal(Listed<bool>),
    Seq(Tables, Tables),
    Choice(Tables, Tables),
    Star(Tables),
    Hold(Listed<bool>, Tables),
    /// The body, the trap and the after part.
    Scope(Tables, Tables, Tables),
}

/// What the node covers at one stretch. `own` has the rows of all later starts.
fn covers_cell(step: &Step, own: &Grid, n: usize, i: usize, j: usize) -> bool
    requires start { i ≤ j }
    requires end { j ≤ n }
    requires room { n < 2 ^ 62 }
    ensures { result ≡ step_covers step.now n own.now i j }
{
    match step {
        Step::Empty => i == j,
        Step::Terminal(truths) => j == i + 1 && entry(truths, i),
        Step::Seq(e, f) => joint(&e.covers, &f.covers, n, i, i, j),
        Step::Choice(e, f) => at(&e.covers, n, i, j) || at(&f.covers, n, i, j),
        Step::Star(e) => i == j || joint(&e.covers, own, n, i + 1, i, j),
        Step::Hold(truths, e) => at(&e.covers, n, i, j) && throughout(truths, i, j),
        Step::Scope(e, x, h) => aborted(&x.covers, &e.alive, &e.covers, &h.covers, n, i, j),
    }
}

/// Whether the node is alive after one stretch. `own` is what it covers.
fn alive_cell(step: &Step, own: &Grid, n: usize, i: usize, j: usize) -> bool
    requires start { i ≤ j }
    requires end { j ≤ n }
    requires room { n < 2 ^ 62 }
    ensures { result ≡ step_alive step.now n own.now i j }
{
    match step {
        Step::Empty => false,
        Step::Terminal(_) => i == j,
        Step::Seq(e, f) => at(&e.alive, n, i, j) || joint(&e.covers, &f.alive, n, i, i, j),
        Step::Choice(e, f) => at(&e.alive, n, i, j) || at(&f.alive, n, i, j),
        Step::Star(e) => joint(own, &e.alive, n, i, i, j),
        Step::Hold(truths, e) => at(&e.alive, n, i, j) && throughout(truths, i, j),
        Step::Scope(e, x, h) => aborted(&x.covers, &e.alive, &e.alive, &h.alive, n, i, j),
    }
}

fn covers_row(
    alloc: Global,
    step: &Step,
    own: &Grid,
    n: usize,
    i: usize,
) -> Result<Listed<bool>, Memory>
    requires room { n < 2 ^ 62 }
    ensures { IfOk result (λ row. (j : ℕ) → i ≤ j → j ≤ n → entry row j ≡ step_covers step.now n own.now i j) }
{
    let mut row = Listed::new(alloc);
    for j in 0..n + 1 {
        let value = i <= j && covers_cell(step, own, n, i, j);
        row.push(value)?;
    }
    Ok(row)
}

fn alive_row(
    alloc: Global,
    step: &Step,
    own: &Grid,
    n: usize,
    i: usize,
) -> Result<Listed<bool>, Memory>
    requires room { n < 2 ^ 62 }
    ensures { IfOk result (λ row. (j : ℕ) → i ≤ j → j ≤ n → entry row j ≡ step_alive step.now n own.now i j) }
{
    let mut row = Listed::new(alloc);
    for j in 0..n + 1 {
        let value = i <= j && alive_cell(step, own, n, i, j);
        row.push(value)?;
    }
    Ok(row)
}

fn covers_grid(alloc: Global, step: &Step, n: usize) -> Result<Grid, Memory>
    requires room { n < 2 ^ 62 }
    ensures { IfOk result (λ grid. IsCovers step.now n grid) }
{
    let mut grid = Listed::new(alloc);
    for back in 0..n + 1 {
        let row = covers_row(alloc, step, &grid, n, n - back)?;
        grid.push(row)?;
    }
    Ok(grid)
}

fn alive_grid(alloc: Global, step: &Step, own: &Grid, n: usize) -> Result<Grid, Memory>
    requires room { n < 2 ^ 62 }
    ensures { IfOk result (λ grid. IsAlive step.now n own.now grid) }
{
    let mut grid = Listed::new(alloc);
    for back in 0..n + 1 {
        let row = alive_row(alloc, step, own, n, n - back)?;
        grid.push(row)?;
    }
    Ok(grid)
}

pub(crate) fn step_tables(alloc: Global, step: &Step, n: usize) -> Result<Tables, Memory>
    requires room { n < 2 ^ 62 }
    ensures { IfOk result (IsStep step.now n) }
{
    let covers = covers_grid(alloc, step, n)?;
    let alive = alive_grid(alloc, step, &covers, n)?;
    Ok(Tables { covers, alive })
}

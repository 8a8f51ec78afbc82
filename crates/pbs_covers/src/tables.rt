// The tables of a tree for a run, part by part.
ghost use Rattle.std.specs.Prelude.{◌≡◌, ◌≤◌, ◌<◌, ◌^◌, IfOk, length, map, IsTrue};
ghost use Rattle.bool_terms.specs.Terms.{holds, term_of, term_inputs_below};
ghost use Rattle.pbs_ast.specs.Trees.{tree_of};
ghost use Rattle.pbs_ast.specs.Sound.{inputs_below};
ghost use Rattle.pbs_derive.specs.Derivations.{covers};
ghost use Rattle.pbs_covers.specs.inner.Tables.{IsTables, IsStepOk, terminal_step_of, seq_step_of, choice_step_of};
ghost use Rattle.pbs_covers.specs.inner.Tables.{star_step_of, hold_step_of, scope_step_of};

use crate::grid::at;
use crate::step::{Step, Tables, step_tables};
use bool_terms::Term;
use pbs_ast::{Main, Tree, TreeKind};
use pbs_base::{Listed, Memory};
use std::alloc::Global;

/// The truth of the term in each vector.
pub fn truths(alloc: Global, term: &Term, run: &[u64]) -> Result<Listed<bool>, Memory>
    requires { IsTrue (term_inputs_below 64 (term_of term.now)) }
    ensures { IfOk result (λ truths. truths ≡ map (holds (term_of term.now)) run.now) }
{
    let mut truths = Listed::new(alloc);
    for vector in run {
        truths.push(term.holds(*vector))?;
    }
    Ok(truths)
}

fn terminal_step(truths: Result<Listed<bool>, Memory>) -> Result<Step, Memory>
    ensures { result ≡ terminal_step_of truths }
{
    Ok(Step::Terminal(truths?))
}

fn seq_step(first: Result<Tables, Memory>, second: Result<Tables, Memory>) -> Result<Step, Memory>
    ensures { result ≡ seq_step_of first second }
{
    let first = first?;
    Ok(Step::Seq(first, second?))
}

fn choice_step(left: Result<Tables, Memory>, right: Result<Tables, Memory>) -> Result<Step, Memory>
    ensures { result ≡ choice_step_of left right }
{
    let left = left?;
    Ok(Step::Choice(left, right?))
}

fn star_step(body: Result<Tables, Memory>) -> Result<Step, Memory>
    ensures { result ≡ star_step_of body }
{
    Ok(Step::Star(body?))
}

fn hold_step(
    truths: Result<Listed<bool>, Memory>,
    body: Result<Tables, Memory>,
) -> Result<Step, Memory>
    ensures { result ≡ hold_step_of truths body }
{
    let truths = truths?;
    Ok(Step::Hold(truths, body?))
}

fn scope_step(
    body: Result<Tables, Memory>,
    trap: Result<Tables, Memory>,
    after: Result<Tables, Memory>,
) -> Result<Step, Memory>
    ensures { result ≡ scope_step_of body trap after }
{
    let body = body?;
    let trap = trap?;
    Ok(Step::Scope(body, trap, after?))
}

/// The tables of a node from its step.
fn finish(alloc: Global, step: Result<Step, Memory>, n: usize) -> Result<Tables, Memory>
    requires room { n < 2 ^ 62 }
    ensures { IfOk result (IsStepOk step n) }
{
    let step = step?;
    step_tables(alloc, &step, n)
}

/// The tables of a tree for a run.
fn make_tables(alloc: Global, tree: &Tree, run: &[u64]) -> Result<Tables, Memory>
    requires inputs { IsTrue (inputs_below 64 (tree_of tree.now)) }
    requires room { length run.now < 2 ^ 62 }
    ensures { IfOk result (IsTables (tree_of tree.now) run.now) }
{
    let n = run.len();
    match &tree.kind {
        TreeKind::Empty => finish(alloc, Ok(Step::Empty), n),
        TreeKind::Action(_) => finish(alloc, Ok(Step::Empty), n),
        TreeKind::Terminal(_, term) => finish(alloc, terminal_step(truths(alloc, term, run)), n),
        TreeKind::Seq(e, f) => {
            let step = seq_step(make_tables(alloc, e, run), make_tables(alloc, f, run));
            finish(alloc, step, n)
        }
        TreeKind::Choice(e, f) => {
            let step = choice_step(make_tables(alloc, e, run), make_tables(alloc, f, run));
            finish(alloc, step, n)
        }
        TreeKind::Star(e) => finish(alloc, star_step(make_tables(alloc, e, run)), n),
        TreeKind::Hold(term, e) => {
            let step = hold_step(truths(alloc, term, run), make_tables(alloc, e, run));
            finish(alloc, step, n)
        }
        TreeKind::Scope(_, e, x, h) => {
            let step = scope_step(
                make_tables(alloc, e, run),
                make_tables(alloc, x, run),
                make_tables(alloc, h, run),
            );
            finish(alloc, step, n)
        }
    }
}

/// Whether main covers the stretch of the run from position `i` to position `j`. The time grows with the number of
/// nodes times the third power of the run's length.
pub fn covers(alloc: Global, main: &Main, run: &[u64], i: usize, j: usize) -> Result<bool, Memory>
    requires start { i ≤ j }
    requires end { j ≤ length run.now }
    ensures { IfOk result (λ answer. answer ≡ covers (tree_of main.now.tree) run.now i j) }
{
    let tables = make_tables(alloc, &main.tree, run)?;
    Ok(at(&tables.covers, run.len(), i, j))
}

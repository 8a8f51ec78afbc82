// What trees cover: each value is worked out by hand.
ghost use Rattle.std.specs.Prelude.{◌≡◌, IfOk};
ghost use Rattle.bool_terms.specs.Terms.{term_of, Not};
ghost use Rattle.pbs_ast.specs.Trees.{tree_of, Terminal, Action, Seq, Choice, Star, Hold, Scope};
ghost use Rattle.pbs_examples.specs.inner.Spots.{at};

use bool_terms::Term;
use pbs_ast::{Main, Tree, TreeKind};
use pbs_base::{Memory, Span};
use pbs_covers::covers;
use std::alloc::Global;
use std::test::Fail;

const NO_SPAN: Span = Span { start: 0, end: 0 };

fn step(number: u32, place: u32, term: Term) -> Tree
    ensures { tree_of result ≡ Terminal (at number) place (term_of term) }
{
    let kind = TreeKind::Terminal(place, term);
    Tree {
        span: NO_SPAN,
        number,
        kind,
    }
}

fn act(number: u32, action: u8) -> Tree
    ensures { tree_of result ≡ Action (at number) action }
{
    let kind = TreeKind::Action(action);
    Tree {
        span: NO_SPAN,
        number,
        kind,
    }
}

fn both(alloc: Global, number: u32, first: Tree, second: Tree) -> Result<Tree, Memory>
    ensures { IfOk result (λ tree. tree_of tree ≡ Seq (at number) (tree_of first) (tree_of second)) }
{
    let kind = TreeKind::Seq(Box::new(alloc, first)?, Box::new(alloc, second)?);
    Ok(Tree {
        span: NO_SPAN,
        number,
        kind,
    })
}

fn either(alloc: Global, number: u32, left: Tree, right: Tree) -> Result<Tree, Memory>
    ensures { IfOk result (λ tree. tree_of tree ≡ Choice (at number) (tree_of left) (tree_of right)) }
{
    let kind = TreeKind::Choice(Box::new(alloc, left)?, Box::new(alloc, right)?);
    Ok(Tree {
        span: NO_SPAN,
        number,
        kind,
    })
}

fn many(alloc: Global, number: u32, body: Tree) -> Result<Tree, Memory>
    ensures { IfOk result (λ tree. tree_of tree ≡ Star (at number) (tree_of body)) }
{
    let kind = TreeKind::Star(Box::new(alloc, body)?);
    Ok(Tree {
        span: NO_SPAN,
        number,
        kind,
    })
}

fn during(alloc: Global, number: u32, term: Term, body: Tree) -> Result<Tree, Memory>
    ensures { IfOk result (λ tree. tree_of tree ≡ Hold (at number) (term_of term) (tree_of body)) }
{
    let kind = TreeKind::Hold(term, Box::new(alloc, body)?);
    Ok(Tree {
        span: NO_SPAN,
        number,
        kind,
    })
}

fn guarded(alloc: Global, body: Tree, trap: Tree, after: Tree) -> Result<Tree, Memory>
    ensures { IfOk result (λ tree. tree_of tree ≡ Scope (at 0) 0 (tree_of body) (tree_of trap) (tree_of after)) }
{
    let body = Box::new(alloc, body)?;
    let trap = Box::new(alloc, trap)?;
    let kind = TreeKind::Scope(0, body, trap, Box::new(alloc, after)?);
    Ok(Tree {
        span: NO_SPAN,
        number: 0,
        kind,
    })
}

fn negated(alloc: Global, term: Term) -> Result<Term, Memory>
    ensures { IfOk result (λ negated. term_of negated ≡ Not (term_of term)) }
{
    Ok(Term::Not(Box::new(alloc, term)?))
}

// [a], {x} | [a], [b], {y}
#[tactic(auto, using(crate::proofs::Sound::short_or_long_sound))]
fn short_or_long(alloc: Global) -> Result<Main, Memory> {
    let short = both(alloc, 1, step(2, 0, Term::Input(0)), act(3, 0))?;
    let steps = both(
        alloc,
        5,
        step(6, 1, Term::Input(0)),
        step(7, 2, Term::Input(1)),
    )?;
    let long = both(alloc, 4, steps, act(8, 1))?;
    let tree = either(alloc, 0, short, long)?;
    Ok(Main::new(tree))
}

// [a]*
#[tactic(auto, using(crate::proofs::Sound::repeated_step_sound))]
fn repeated_step(alloc: Global) -> Result<Main, Memory> {
    let tree = many(alloc, 0, step(1, 0, Term::Input(0)))?;
    Ok(Main::new(tree))
}

// hold [~c] : ([a], [b]), {x}
#[tactic(auto, using(crate::proofs::Sound::held_steps_sound))]
fn held_steps(alloc: Global) -> Result<Main, Memory> {
    let steps = both(
        alloc,
        2,
        step(3, 0, Term::Input(0)),
        step(4, 1, Term::Input(1)),
    )?;
    let held = during(alloc, 1, negated(alloc, Term::Input(2))?, steps)?;
    let tree = both(alloc, 0, held, act(5, 0))?;
    Ok(Main::new(tree))
}

// try ([~b]*, [b], {done}) abort ([1], [1], [1]) then ([1])
#[tactic(auto, using(crate::proofs::Sound::three_rows_and_one_sound))]
fn three_rows_and_one(alloc: Global) -> Result<Main, Memory> {
    let waits = many(alloc, 3, step(4, 0, negated(alloc, Term::Input(0))?))?;
    let waited = both(alloc, 2, waits, step(5, 1, Term::Input(0)))?;
    let body = both(alloc, 1, waited, act(6, 0))?;
    let two = both(
        alloc,
        8,
        step(9, 2, Term::Const(true)),
        step(10, 3, Term::Const(true)),
    )?;
    let trap = both(alloc, 7, two, step(11, 4, Term::Const(true)))?;
    let tree = guarded(alloc, body, trap, step(12, 5, Term::Const(true)))?;
    Ok(Main::new(tree))
}

#[test]
fn covers_short_or_long(rt: HostRuntime) -> Result<(), Fail> {
    let alloc = rt.alloc();
    let main = short_or_long(alloc).ok().ok_or("memory")?;
    let run = [0b01, 0b10];
    for (start, end, covered) in [(0, 1, true), (0, 2, true), (1, 2, false), (1, 1, false)] {
        assert_eq!(rt; covers(alloc, &main, &run, start, end).ok(), Some(covered));
    }
    Ok(())
}

#[test]
fn covers_repeated_step(rt: HostRuntime) -> Result<(), Fail> {
    let alloc = rt.alloc();
    let main = repeated_step(alloc).ok().ok_or("memory")?;
    let run = [1, 1, 0];
    for (start, end, covered) in [
        (0, 2, true),
        (1, 2, true),
        (2, 2, true),
        (2, 3, false),
        (0, 3, false),
    ] {
        assert_eq!(rt; covers(alloc, &main, &run, start, end).ok(), Some(covered));
    }
    Ok(())
}

#[test]
fn covers_held_steps(rt: HostRuntime) -> Result<(), Fail> {
    let alloc = rt.alloc();
    let main = held_steps(alloc).ok().ok_or("memory")?;
    for (run, covered) in [
        ([0b001, 0b010], true),
        ([0b001, 0b110], false),
        ([0b001, 0b100], false),
    ] {
        assert_eq!(rt; covers(alloc, &main, &run, 0, 2).ok(), Some(covered));
    }
    Ok(())
}

// The third vector of the second run ends the body and the trap at once; the trap of the last outlives its body.
#[test]
fn covers_three_rows_and_one(rt: HostRuntime) -> Result<(), Fail> {
    let alloc = rt.alloc();
    let main = three_rows_and_one(alloc).ok().ok_or("memory")?;
    for (run, end, covered) in [
        ([1, 0, 0, 0], 1, true),
        ([0, 0, 1, 0], 3, false),
        ([0, 0, 1, 0], 4, true),
        ([0, 1, 0, 0], 2, true),
        ([0, 1, 0, 0], 4, false),
    ] {
        assert_eq!(rt; covers(alloc, &main, &run, 0, end).ok(), Some(covered));
    }
    Ok(())
}

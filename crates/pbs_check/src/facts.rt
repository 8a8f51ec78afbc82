// What is known of productions, and of the expressions in which they are named.
ghost use Rattle.std.specs.Prelude.{◌≡◌};
ghost use Rattle.pbs_check.specs.inner.Facts.{fact, known_of, after, either, or_empty, scope_of};
ghost use Rattle.pbs_check.specs.inner.Facts.{expr_facts, all_facts, any_facts, choice_of};

use pbs_ast::{Expr, Items, Kind};
use pbs_base::Word;
use std::alloc::Global;
use std::collections::HashMap;

/// Whether an expression may be empty, a terminal lies in it, and an action or a scope does. Names are followed.
#[derive(Clone, Copy)]
pub struct Facts {
    pub may_be_empty: bool,
    pub has_terminal: bool,
    pub is_busy: bool,
}

/// The facts of productions, by their names.
#[derive(Drop)]
pub struct Known {
    pub facts: HashMap<Word, Facts>,
}

impl Known {
    ghost use Rattle.std.specs.Prelude.{ℕ, List, None};

    pub(crate) fn new(alloc: Global) -> Known
        ensures { (name : List ℕ) → known_of result name ≡ None }
    {
        Known {
            facts: HashMap::new(alloc),
        }
    }
}

fn fact(may_be_empty: bool, has_terminal: bool, is_busy: bool) -> Facts
    ensures { result ≡ fact may_be_empty has_terminal is_busy }
{
    Facts {
        may_be_empty,
        has_terminal,
        is_busy,
    }
}

fn known_of(known: &Known, name: &Word) -> Option<Facts>
    ensures { result ≡ known_of known.now name.now }
{
    known.facts.get(name).copied()
}

fn after(first: Option<Facts>, second: Option<Facts>) -> Option<Facts>
    ensures { result ≡ after first second }
{
    match first {
        Some(a) => match second {
            Some(b) => Some(fact(
                a.may_be_empty && b.may_be_empty,
                a.has_terminal || b.has_terminal,
                a.is_busy || b.is_busy,
            )),
            None => None,
        },
        None => None,
    }
}

fn either(first: Option<Facts>, second: Option<Facts>) -> Option<Facts>
    ensures { result ≡ either first second }
{
    match first {
        Some(a) => match second {
            Some(b) => Some(fact(
                a.may_be_empty || b.may_be_empty,
                a.has_terminal || b.has_terminal,
                a.is_busy || b.is_busy,
            )),
            None => None,
        },
        None => None,
    }
}

fn or_empty(may: bool, facts: Option<Facts>) -> Option<Facts>
    ensures { result ≡ or_empty may facts }
{
    match facts {
        Some(a) => Some(fact(may || a.may_be_empty, a.has_terminal, a.is_busy)),
        None => None,
    }
}

fn scope_of(body: Option<Facts>, trap: Option<Facts>, last: Option<Facts>) -> Option<Facts>
    ensures { result ≡ scope_of body trap last }
{
    match body {
        Some(a) => match trap {
            Some(b) => match last {
                Some(c) => Some(fact(
                    a.may_be_empty,
                    a.has_terminal || (b.has_terminal || c.has_terminal),
                    true,
                )),
                None => None,
            },
            None => None,
        },
        None => None,
    }
}

#[cycle(facts)]
fn all_facts(known: &Known, items: &Items) -> Option<Facts>
    ensures { result ≡ all_facts (known_of known.now) items.now }
{
    let mut facts = Some(fact(true, false, false));
    for item in items.as_slice() {
        facts = after(facts, expr_facts(known, item));
    }
    facts
}

#[cycle(facts)]
fn any_facts(known: &Known, items: &Items) -> Option<Facts>
    ensures { result ≡ any_facts (known_of known.now) items.now }
{
    let mut facts = Some(fact(false, false, false));
    for item in items.as_slice() {
        facts = either(facts, expr_facts(known, item));
    }
    facts
}

#[cycle(facts)]
fn choice_facts(known: &Known, items: &Items) -> Option<Facts>
    ensures { result ≡ choice_of items.now (any_facts (known_of known.now) items.now) }
{
    match items.as_slice() {
        [] => Some(fact(true, false, false)),
        _ => any_facts(known, items),
    }
}

/// The facts of an expression, `None` where it names a production of which nothing is known.
#[cycle(facts)]
pub(crate) fn expr_facts(known: &Known, expr: &Expr) -> Option<Facts>
    ensures { result ≡ expr_facts (known_of known.now) expr.now }
{
    match &expr.kind {
        Kind::Empty => Some(fact(true, false, false)),
        Kind::Terminal(_) => Some(fact(false, true, false)),
        Kind::Action(_, _) => Some(fact(true, false, true)),
        Kind::Seq(items) => all_facts(known, items),
        Kind::Choice(items) => choice_facts(known, items),
        Kind::Star(body) => or_empty(true, expr_facts(known, body)),
        Kind::Plus(body) => expr_facts(known, body),
        Kind::Opt(body) => or_empty(true, expr_facts(known, body)),
        Kind::Hold(_, body) => expr_facts(known, body),
        Kind::Scope(body, trap, last) => scope_of(
            expr_facts(known, body),
            expr_facts(known, trap),
            expr_facts(known, last),
        ),
        Kind::Name(name) => known_of(known, name),
        Kind::Repeat(body, least, _) => or_empty(*least == 0, expr_facts(known, body)),
    }
}

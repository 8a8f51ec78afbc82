// Expressions.
ghost use Rattle.std.specs.Prelude.{◌≡◌, ◌++◌, OnOk, map, not, codes};
ghost use Rattle.pbs_print.specs.Canonical.{term_text, kind_text, expr_text, bounds_text, bracketed, is_empty};
ghost use Rattle.pbs_print.specs.Canonical.{is_choice, is_list, is_wide, joined};

use crate::pieces::{put, put_lead, put_number};
use crate::terms::put_term;
use pbs_ast::{Expr, Items, Kind, SpecTerm};
use pbs_base::{Memory, Word};

fn is_empty(e: &Expr) -> bool
    ensures { result ≡ is_empty e.now.kind }
{
    match &e.kind {
        Kind::Empty => true,
        _ => false,
    }
}

fn is_choice(e: &Expr) -> bool
    ensures { result ≡ is_choice e.now.kind }
{
    match &e.kind {
        Kind::Choice(_) => true,
        _ => false,
    }
}

fn is_list(e: &Expr) -> bool
    ensures { result ≡ is_list e.now.kind }
{
    match &e.kind {
        Kind::Seq(_) | Kind::Choice(_) => true,
        _ => false,
    }
}

// A sequence, choice or repetition.
fn is_wide(e: &Expr) -> bool
    ensures { result ≡ is_wide e.now.kind }
{
    match &e.kind {
        Kind::Seq(_) | Kind::Choice(_) => true,
        Kind::Star(_) | Kind::Plus(_) | Kind::Opt(_) => true,
        Kind::Repeat(_, _, _) => true,
        _ => false,
    }
}

fn put_terminal(text: &mut Vec<u8>, term: &SpecTerm) -> Result<(), Memory>
    ensures { OnOk result (text.new.items ≡ text.old.items ++ (codes "[" ++ (term_text term.now ++ codes "]"))) }
{
    put(text, b"[")?;
    put_term(text, term)?;
    put(text, b"]")
}

fn put_action(text: &mut Vec<u8>, word: &Word) -> Result<(), Memory>
    ensures { OnOk result (text.new.items ≡ text.old.items ++ (codes "{" ++ (word.now ++ codes "}"))) }
{
    put(text, b"{")?;
    put(text, word.bytes())?;
    put(text, b"}")
}

fn put_bounds(text: &mut Vec<u8>, least: u32, most: u32) -> Result<(), Memory>
    ensures { OnOk result (text.new.items ≡ text.old.items ++ bounds_text least most) }
{
    put(text, b"{")?;
    put_number(text, least)?;
    put(text, b",")?;
    put_number(text, most)?;
    put(text, b"}")
}

// 'hold [' term '] : '
fn put_guard(text: &mut Vec<u8>, term: &SpecTerm) -> Result<(), Memory>
    ensures { OnOk result (text.new.items ≡ text.old.items ++
        (codes "hold [" ++ (term_text term.now ++ codes "] : "))) }
{
    put(text, b"hold [")?;
    put_term(text, term)?;
    put(text, b"] : ")
}

#[cycle(exprs)]
pub(crate) fn put_expr(text: &mut Vec<u8>, e: &Expr) -> Result<(), Memory>
    ensures { OnOk result (text.new.items ≡ text.old.items ++ kind_text e.now.kind) }
{
    match &e.kind {
        Kind::Empty => put(text, b"()"),
        Kind::Terminal(term) => put_terminal(text, term),
        Kind::Action(word, _) => put_action(text, word),
        Kind::Seq(items) => put_seq(text, items),
        Kind::Choice(items) => put_choice(text, items),
        Kind::Star(body) => put_postfix(text, body, b"*"),
        Kind::Plus(body) => put_postfix(text, body, b"+"),
        Kind::Opt(body) => put_postfix(text, body, b"?"),
        Kind::Hold(term, body) => {
            put_guard(text, term)?;
            put_bracketed(text, body, !is_empty(body))
        }
        Kind::Scope(body, trap, after) => {
            put_part(text, b"try ", body)?;
            put_part(text, b" abort ", trap)?;
            put_part(text, b" then ", after)
        }
        Kind::Name(word) => put(text, word.bytes()),
        Kind::Repeat(body, least, most) => {
            put_bracketed(text, body, is_wide(body))?;
            put_bounds(text, *least, *most)
        }
    }
}

#[cycle(exprs)]
fn put_bracketed(text: &mut Vec<u8>, e: &Expr, brackets: bool) -> Result<(), Memory>
    ensures { OnOk result (text.new.items ≡ text.old.items ++ bracketed brackets (kind_text e.now.kind)) }
{
    if !brackets {
        return put_expr(text, e);
    }
    put(text, b"(")?;
    put_expr(text, e)?;
    put(text, b")")
}

#[cycle(exprs)]
fn put_postfix(text: &mut Vec<u8>, body: &Expr, operator: &[u8]) -> Result<(), Memory>
    ensures { OnOk result (text.new.items ≡ text.old.items
        ++ (bracketed (is_wide body.now.kind) (kind_text body.now.kind) ++ operator.now)) }
{
    put_bracketed(text, body, is_wide(body))?;
    put(text, operator)
}

// A part of a scope, behind its word.
#[cycle(exprs)]
fn put_part(text: &mut Vec<u8>, word: &[u8], part: &Expr) -> Result<(), Memory>
    ensures { OnOk result (text.new.items ≡ text.old.items
        ++ (word.now ++ bracketed (not (is_empty part.now.kind)) (kind_text part.now.kind))) }
{
    put(text, word)?;
    put_bracketed(text, part, !is_empty(part))
}

#[cycle(exprs)]
fn put_seq(text: &mut Vec<u8>, items: &Items) -> Result<(), Memory>
    ensures { OnOk result (text.new.items ≡ text.old.items
        ++ joined (codes ", ") (map (λ e. bracketed (is_list e.kind) (expr_text e)) items.now)) }
{
    for n in 0..items.len() {
        let Some(item) = items.get(n) else {
            return Err(Memory);
        };
        put_lead(text, n, b", ")?;
        put_bracketed(text, item, is_list(item))?;
    }
    Ok(())
}

#[cycle(exprs)]
fn put_choice(text: &mut Vec<u8>, items: &Items) -> Result<(), Memory>
    ensures { OnOk result (text.new.items ≡ text.old.items
        ++ joined (codes " | ") (map (λ e. bracketed (is_choice e.kind) (expr_text e)) items.now)) }
{
    for n in 0..items.len() {
        let Some(item) = items.get(n) else {
            return Err(Memory);
        };
        put_lead(text, n, b" | ")?;
        put_bracketed(text, item, is_choice(item))?;
    }
    Ok(())
}

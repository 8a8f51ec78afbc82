// The tree of main and the terms in it.
use crate::front::expanded;
use crate::stop::Stop;
use bool_terms::Term;
use pbs_ast::{Tree, TreeKind};
use std::alloc::{AllocError, Global};

// The node's number, its kind with the number of a place, an action or a scope, and its span.
fn put_node(out: &mut String, tree: &Tree) -> Result<(), AllocError> {
    let number = tree.number;
    let start = tree.span.start;
    let end = tree.span.end;
    match &tree.kind {
        TreeKind::Empty => writeln!(out, "{number} empty {start}..{end}"),
        TreeKind::Terminal(place, _) => writeln!(out, "{number} place {place} {start}..{end}"),
        TreeKind::Action(action) => writeln!(out, "{number} action {action} {start}..{end}"),
        TreeKind::Seq(_, _) => writeln!(out, "{number} seq {start}..{end}"),
        TreeKind::Choice(_, _) => writeln!(out, "{number} choice {start}..{end}"),
        TreeKind::Star(_) => writeln!(out, "{number} star {start}..{end}"),
        TreeKind::Hold(_, _) => writeln!(out, "{number} hold {start}..{end}"),
        TreeKind::Scope(scope, _, _, _) => writeln!(out, "{number} scope {scope} {start}..{end}"),
    }
}

// A line for each node, a node before its parts.
fn put_tree(out: &mut String, tree: &Tree) -> Result<(), AllocError> {
    put_node(out, tree)?;
    match &tree.kind {
        TreeKind::Empty | TreeKind::Terminal(_, _) | TreeKind::Action(_) => Ok(()),
        TreeKind::Seq(first, second) | TreeKind::Choice(first, second) => {
            put_tree(out, first)?;
            put_tree(out, second)
        }
        TreeKind::Star(body) | TreeKind::Hold(_, body) => put_tree(out, body),
        TreeKind::Scope(_, body, trap, after) => {
            put_tree(out, body)?;
            put_tree(out, trap)?;
            put_tree(out, after)
        }
    }
}

// The nodes of a term, a node before its parts, with a space before each.
fn put_term(out: &mut String, term: &Term) -> Result<(), AllocError> {
    match term {
        Term::Const(false) => out.push_str(" 0"),
        Term::Const(true) => out.push_str(" 1"),
        Term::Input(input) => write!(out, " i{input}"),
        Term::Not(inner) => {
            out.push_str(" ~")?;
            put_term(out, inner)
        }
        Term::And(first, second) => {
            out.push_str(" &")?;
            put_term(out, first)?;
            put_term(out, second)
        }
        Term::Or(first, second) => {
            out.push_str(" |")?;
            put_term(out, first)?;
            put_term(out, second)
        }
    }
}

/// `tree`: the nodes of the tree.
pub(crate) fn answer_tree(alloc: Global, text: &[u8]) -> Result<Vec<u8>, Stop> {
    let main = expanded(alloc, text)?;
    let mut out = String::new(alloc);
    put_tree(&mut out, &main.tree)?;
    Ok(out.into_bytes())
}

/// `term`: the term of a main that is one terminal.
pub(crate) fn answer_term(alloc: Global, text: &[u8]) -> Result<Vec<u8>, Stop> {
    let main = expanded(alloc, text)?;
    let TreeKind::Terminal(0, term) = &main.tree.kind else {
        return Err(Stop::OtherForm);
    };
    let mut out = String::from_str(alloc, "term")?;
    put_term(&mut out, term)?;
    out.push_str("\n")?;
    Ok(out.into_bytes())
}

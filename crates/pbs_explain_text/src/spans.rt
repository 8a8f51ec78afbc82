// Where nodes, places and scopes were written.
ghost use Rattle.std.specs.Prelude.{◌≡◌, ◌++◌, OnOk};
ghost use Rattle.pbs_ast.specs.Trees.{tree_of};
ghost use Rattle.pbs_explain_text.specs.Explanations.{node_spans, place_spans, scope_spans, span_at};

use pbs_ast::{Tree, TreeKind};
use pbs_base::{Listed, Memory, Span};

/// The span with this number; 0..0 where there is none.
pub(crate) fn span_at(spans: &Listed<Span>, n: u32) -> Span
    ensures { result ≡ span_at spans.now n }
{
    match spans.get(n as usize) {
        Some(span) => *span,
        None => Span { start: 0, end: 0 },
    }
}

/// Appends the spans of all nodes of the tree, in the order of visits.
pub(crate) fn push_node_spans(tree: &Tree, spans: &mut Listed<Span>) -> Result<(), Memory>
    ensures { OnOk result (spans.new ≡ spans.old ++ node_spans (tree_of tree.now)) }
{
    match &tree.kind {
        TreeKind::Empty => spans.push(tree.span)?,
        TreeKind::Terminal(_, _) => spans.push(tree.span)?,
        TreeKind::Action(_) => spans.push(tree.span)?,
        TreeKind::Seq(left, right) => {
            spans.push(tree.span)?;
            push_node_spans(left, spans)?;
            push_node_spans(right, spans)?;
        }
        TreeKind::Choice(left, right) => {
            spans.push(tree.span)?;
            push_node_spans(left, spans)?;
            push_node_spans(right, spans)?;
        }
        TreeKind::Star(body) => {
            spans.push(tree.span)?;
            push_node_spans(body, spans)?;
        }
        TreeKind::Hold(_, body) => {
            spans.push(tree.span)?;
            push_node_spans(body, spans)?;
        }
        TreeKind::Scope(_, body, trap, after) => {
            spans.push(tree.span)?;
            push_node_spans(body, spans)?;
            push_node_spans(trap, spans)?;
            push_node_spans(after, spans)?;
        }
    }
    Ok(())
}

/// Appends the spans of the tree's terminals, in order of places.
pub(crate) fn push_place_spans(tree: &Tree, spans: &mut Listed<Span>) -> Result<(), Memory>
    ensures { OnOk result (spans.new ≡ spans.old ++ place_spans (tree_of tree.now)) }
{
    match &tree.kind {
        TreeKind::Empty => {}
        TreeKind::Terminal(_, _) => spans.push(tree.span)?,
        TreeKind::Action(_) => {}
        TreeKind::Seq(left, right) => {
            push_place_spans(left, spans)?;
            push_place_spans(right, spans)?;
        }
        TreeKind::Choice(left, right) => {
            push_place_spans(left, spans)?;
            push_place_spans(right, spans)?;
        }
        TreeKind::Star(body) => push_place_spans(body, spans)?,
        TreeKind::Hold(_, body) => push_place_spans(body, spans)?,
        TreeKind::Scope(_, body, trap, after) => {
            push_place_spans(body, spans)?;
            push_place_spans(trap, spans)?;
            push_place_spans(after, spans)?;
        }
    }
    Ok(())
}

/// Appends the spans of the tree's scopes, in order of numbers.
pub(crate) fn push_scope_spans(tree: &Tree, spans: &mut Listed<Span>) -> Result<(), Memory>
    ensures { OnOk result (spans.new ≡ spans.old ++ scope_spans (tree_of tree.now)) }
{
    match &tree.kind {
        TreeKind::Empty => {}
        TreeKind::Terminal(_, _) => {}
        TreeKind::Action(_) => {}
        TreeKind::Seq(left, right) => {
            push_scope_spans(left, spans)?;
            push_scope_spans(right, spans)?;
        }
        TreeKind::Choice(left, right) => {
            push_scope_spans(left, spans)?;
            push_scope_spans(right, spans)?;
        }
        TreeKind::Star(body) => push_scope_spans(body, spans)?,
        TreeKind::Hold(_, body) => push_scope_spans(body, spans)?,
        TreeKind::Scope(_, body, trap, after) => {
            spans.push(tree.span)?;
            push_scope_spans(body, spans)?;
            push_scope_spans(trap, spans)?;
            push_scope_spans(after, spans)?;
        }
    }
    Ok(())
}

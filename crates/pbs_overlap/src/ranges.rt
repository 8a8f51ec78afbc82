// The ranges of node numbers that a tree's scopes have.
ghost use Rattle.std.specs.Prelude.{◌≡◌, ◌++◌, OnOk};
ghost use Rattle.pbs_ast.specs.Trees.{tree_of};
ghost use Rattle.pbs_overlap.specs.Ranges.{leaves, number_of, ranges};

use pbs_ast::{Tree, TreeKind};
use pbs_base::{Memory, Span};

/// A scope: its body has the nodes from `body` up to `trap`, and its trap those from `trap` up to `after`.
#[derive(Clone, Copy)]
pub struct ScopeRange {
    pub span: Span,
    pub body: u32,
    pub trap: u32,
    pub after: u32,
}

fn range_of(span: Span, body: &Tree, trap: &Tree, after: &Tree) -> ScopeRange
    ensures span { result.span ≡ span }
    ensures body { result.body ≡ number_of (tree_of body.now) }
    ensures trap { result.trap ≡ number_of (tree_of trap.now) }
    ensures after { result.after ≡ number_of (tree_of after.now) }
{
    ScopeRange {
        span,
        body: body.number,
        trap: trap.number,
        after: after.number,
    }
}

// Appends the numbers of the tree's terminals, in order of places.
pub(crate) fn push_leaves(tree: &Tree, out: &mut Vec<u32>) -> Result<(), Memory>
    ensures { OnOk result (out.new.items ≡ out.old.items ++ leaves (tree_of tree.now)) }
{
    match &tree.kind {
        TreeKind::Empty => {}
        TreeKind::Terminal(_, _) => out.push(tree.number)?,
        TreeKind::Action(_) => {}
        TreeKind::Seq(left, right) => {
            push_leaves(left, out)?;
            push_leaves(right, out)?;
        }
        TreeKind::Choice(left, right) => {
            push_leaves(left, out)?;
            push_leaves(right, out)?;
        }
        TreeKind::Star(body) => push_leaves(body, out)?,
        TreeKind::Hold(_, body) => push_leaves(body, out)?,
        TreeKind::Scope(_, body, trap, after) => {
            push_leaves(body, out)?;
            push_leaves(trap, out)?;
            push_leaves(after, out)?;
        }
    }
    Ok(())
}

// Appends the tree's scopes, in the order of their numbers.
pub(crate) fn push_ranges(tree: &Tree, out: &mut Vec<ScopeRange>) -> Result<(), Memory>
    ensures { OnOk result (out.new.items ≡ out.old.items ++ ranges (tree_of tree.now)) }
{
    match &tree.kind {
        TreeKind::Empty => {}
        TreeKind::Terminal(_, _) => {}
        TreeKind::Action(_) => {}
        TreeKind::Seq(left, right) => {
            push_ranges(left, out)?;
            push_ranges(right, out)?;
        }
        TreeKind::Choice(left, right) => {
            push_ranges(left, out)?;
            push_ranges(right, out)?;
        }
        TreeKind::Star(body) => push_ranges(body, out)?,
        TreeKind::Hold(_, body) => push_ranges(body, out)?,
        TreeKind::Scope(_, body, trap, after) => {
            out.push(range_of(tree.span, body, trap, after))?;
            push_ranges(body, out)?;
            push_ranges(trap, out)?;
            push_ranges(after, out)?;
        }
    }
    Ok(())
}

// Where places were written.
ghost use Rattle.std.specs.Prelude.{◌≡◌, ◌++◌, OnOk};
ghost use Rattle.pbs_ast.specs.Trees.{tree_of};
ghost use Rattle.map_text.specs.Maps.{place_spans};

use pbs_ast::{Tree, TreeKind};
use pbs_base::{Memory, Span};

/// Appends the spans of the tree's terminals, in order of places.
pub(crate) fn push_spans(tree: &Tree, spans: &mut Vec<Span>) -> Result<(), Memory>
    ensures { OnOk result (spans.new.items ≡ spans.old.items ++ place_spans (tree_of tree.now)) }
{
    match &tree.kind {
        TreeKind::Empty => {}
        TreeKind::Terminal(_, _) => spans.push(tree.span)?,
        TreeKind::Action(_) => {}
        TreeKind::Seq(left, right) => {
            push_spans(left, spans)?;
            push_spans(right, spans)?;
        }
        TreeKind::Choice(left, right) => {
            push_spans(left, spans)?;
            push_spans(right, spans)?;
        }
        TreeKind::Star(body) => push_spans(body, spans)?,
        TreeKind::Hold(_, body) => push_spans(body, spans)?,
        TreeKind::Scope(_, body, trap, after) => {
            push_spans(body, spans)?;
            push_spans(trap, spans)?;
            push_spans(after, spans)?;
        }
    }
    Ok(())
}

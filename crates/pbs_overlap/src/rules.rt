// The rules 14, 15 and 16, in this order.
ghost use Rattle.std.specs.Prelude.{◌≡◌};
ghost use Rattle.pbs_base.specs.declared.refusal.Span.{Span as SpanValue};
ghost use Rattle.pbs_ast.specs.Trees.{has_no_scope, tree_of};
ghost use Rattle.pbs_edges.specs.Found.{AreEdges};
ghost use Rattle.pbs_overlap.specs.Rules.{ChecksTree, refused};

use crate::checking::check_overlap;
use crate::fail::{OverlapFail, TreeFail};
use pbs_ast::{Main, Tree, TreeKind};
use pbs_base::{Refusal, Span, Subject};
use pbs_edges::laws::scopeless_is_clear;
use pbs_edges::{EdgeFail, Edges, edges};
use std::alloc::Global;

fn refused(rule: u8, span: Span) -> Refusal
    ensures { result ≡ refused rule span }
{
    Refusal {
        subject: Subject::Spec,
        rule,
        span,
    }
}

// Whether no scope lies in the tree.
fn has_no_scope(tree: &Tree) -> bool
    ensures { result ≡ has_no_scope (tree_of tree.now) }
{
    match &tree.kind {
        TreeKind::Empty | TreeKind::Terminal(_, _) | TreeKind::Action(_) => true,
        TreeKind::Seq(first, second) | TreeKind::Choice(first, second) => has_no_scope(first)
            && has_no_scope(second),
        TreeKind::Star(body) | TreeKind::Hold(_, body) => has_no_scope(body),
        TreeKind::Scope(_, _, _, _) => false,
    }
}

/// Whether the tree keeps the rules of scopes: at most 16,384 follow edges (rule 14), at most 256 different effective
/// terms (rule 15), and the overlap rule (rule 16). A tree without scopes keeps them. `Refused` has the first that is
/// broken: 14 and 15 at `span`, main's expression's, and 16 at the lowest scope that breaks it.
pub fn check_tree(alloc: Global, main: &Main, span: Span) -> Result<(), TreeFail>
    ensures { ChecksTree (tree_of main.now.tree) span result }
{
    scopeless_is_clear();
    if has_no_scope(&main.tree) {
        return Ok(());
    }
    match edges(alloc, main) {
        Ok(found) => check_scopes(alloc, main, &found),
        Err(EdgeFail::TooManyEdges) => Err(TreeFail::Refused(refused(14, span))),
        Err(EdgeFail::TooManyTerms) => Err(TreeFail::Refused(refused(15, span))),
        Err(EdgeFail::Memory) => Err(TreeFail::Memory),
    }
}

// Looks at rule 16.
fn check_scopes(alloc: Global, main: &Main, edges: &Edges) -> Result<(), TreeFail>
    requires { AreEdges (tree_of main.now.tree) edges.now }
    ensures { (span : SpanValue) → ChecksTree (tree_of main.now.tree) span result }
{
    match check_overlap(alloc, main, edges) {
        Ok(_) => Ok(()),
        Err(OverlapFail::Scope(_, span)) => Err(TreeFail::Refused(refused(16, span))),
        Err(OverlapFail::Memory) => Err(TreeFail::Memory),
    }
}

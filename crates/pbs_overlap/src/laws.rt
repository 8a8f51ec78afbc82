//! The laws of the rules of scopes: a function that does nothing, and its clauses are the law.

ghost use Rattle.std.specs.Prelude.{◌≡◌};
ghost use Rattle.pbs_base.specs.declared.refusal.Refusal.{Refusal};
ghost use Rattle.pbs_base.specs.declared.refusal.Span.{Span};
ghost use Rattle.pbs_ast.specs.Trees.{Tree};
ghost use Rattle.pbs_overlap.specs.Rules.{IsClear, TreeRefuses};

/// A tree is refused in at most one way, and in none where it breaks none of the rules.
pub fn one_tree_refusal()
    ensures same { (main : Tree) (span : Span) (r s : Refusal) → TreeRefuses main span r → TreeRefuses main span s
        → r ≡ s }
    ensures never { (main : Tree) (span : Span) (r : Refusal) → TreeRefuses main span r → IsClear main → ⊥ }
{}

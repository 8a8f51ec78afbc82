//! The laws of edges and of the overlap rule. Each is a function that does nothing, and its clauses are the law.

ghost use Rattle.std.specs.Prelude.{◌≡◌, ◌<◌, ◌↔◌, ℕ, List, true, Contains, IsTrue, slice_get, Some};
ghost use Rattle.pbs_ast.specs.Trees.{Tree, fits, has_no_scope};
ghost use Rattle.pbs_ast.specs.Sound.{IsCounted, place_count, scopes_from};
ghost use Rattle.pbs_derive.specs.Derivations.{NoOverlapBelow, stands};
ghost use Rattle.pbs_edges.specs.declared.edge.Edge.{Edge};
ghost use Rattle.pbs_edges.specs.Effective.{all_true, effective_term};
ghost use Rattle.pbs_edges.specs.Found.{IsFollowEdge};
ghost use Rattle.pbs_edges.specs.Listed.{follow_edges};
ghost use Rattle.pbs_edges.specs.Walks.{BreaksNoScope, Together};

/// Where no scope is refused, no scope is begun while it is live, and places that stand at one position are together.
pub fn overlap_rule_is_sound()
    ensures no_overlap { (main : Tree) (v : List ℕ) (k : ℕ) → IsTrue (scopes_from main 0)
        → BreaksNoScope main → NoOverlapBelow main v k }
    ensures together { (main : Tree) (v : List ℕ) (k p q : ℕ) → IsTrue (scopes_from main 0)
        → BreaksNoScope main → stands main v 0 k p ≡ true → stands main v 0 k q ≡ true
        → Together main p q }
{}

/// A tree without scopes breaks no overlap rule.
pub fn scopeless_is_clear()
    ensures { (main : Tree) → has_no_scope main ≡ true → BreaksNoScope main }
{}

/// The list of the follow edges has each of them once.
pub fn follow_edges_are_listed()
    ensures exact { (main : Tree) (d : Edge) → Contains (follow_edges main) d ↔ IsFollowEdge main d }
    ensures once { (main : Tree) (i j : ℕ) (d : Edge) → IsCounted main → slice_get (follow_edges main) i ≡ Some d
        → slice_get (follow_edges main) j ≡ Some d → i ≡ j }
{}

/// A place fits a vector exactly where all terms of its effective term are true in it.
pub fn effective_terms_fit()
    ensures { (main : Tree) (p v : ℕ) → IsCounted main → p < place_count main
        → fits p main v ≡ all_true (effective_term main p) v }
{}

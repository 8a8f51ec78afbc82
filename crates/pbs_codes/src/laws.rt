//! The laws of codes. Each is a function that does nothing, and its clauses are the law.

ghost use Rattle.std.specs.Prelude.{◌≡◌, ◌↔◌, List, false, suc, true, ℕ};
ghost use Rattle.pbs_ast.specs.Trees.{Tree};
ghost use Rattle.pbs_ast.specs.Sound.{IsSound};
ghost use Rattle.pbs_derive.specs.Derivations.{stands};
ghost use Rattle.pbs_edges.specs.Walks.{BreaksNoScope};
ghost use Rattle.pbs_codes.specs.Twins.{AreTwins, HasEdge, IsNever};
ghost use Rattle.net_core.specs.Plans.{IsWhole};
ghost use Rattle.pbs_codes.specs.Plans.{IsCodePlan};
ghost use Rattle.pbs_codes.specs.Runs.{FitsRuns, IsTaken};
ghost use Rattle.net_core.specs.declared.codes.CodePlan.{CodePlan};

/// Behind a vector a place stands exactly where an edge to it is taken, and whether one is depends on the place that it
/// leaves, its node and the run, and not on the place that it leads to. So twins stand at the same positions.
pub fn twins_stand_together()
    ensures step { (main : Tree) (v : List ℕ) (k p : ℕ) → IsSound main
        → (stands main v 0 (suc k) p ≡ true)
        ↔ ((r : ℕ) × (n : ℕ) × IsTaken main v k r n × HasEdge main r p n) }
    ensures twins { (main : Tree) (v : List ℕ) (k p q : ℕ) → IsSound main → AreTwins main p q
        → stands main v 0 k p ≡ stands main v 0 k q }
{}

/// A never place stands at no position.
pub fn never_places_never_stand()
    ensures { (main : Tree) (v : List ℕ) (k p : ℕ) → IsSound main → BreaksNoScope main → IsNever main p
        → stands main v 0 k p ≡ false }
{}

/// A plan of an accepted tree fits each run.
pub fn plan_fits_runs()
    ensures { (main : Tree) (plan : CodePlan) → IsSound main → BreaksNoScope main → IsCodePlan main plan
        → FitsRuns main plan }
{}

/// In a plan each leader stands in one group.
pub fn plan_is_whole()
    ensures { (main : Tree) (plan : CodePlan) → IsCodePlan main plan → IsWhole plan }
{}

/// A tree has one plan.
pub fn one_code_plan()
    ensures { (main : Tree) (plan other : CodePlan) → IsCodePlan main plan → IsCodePlan main other → plan ≡ other }
{}

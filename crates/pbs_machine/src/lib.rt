//! What one row of the controller does, over the expanded tree, and the laws that its rows are the derivations.
#![tactic(auto)]

ghost use Rattle.std.specs.Prelude.{Bool, IsTrue, List, false, length, slice_index, suc, true, ℕ, ◌≡◌, ◌≤◌};
ghost use Rattle.pbs_base.specs.declared.entry.Entry.{Entry};
ghost use Rattle.pbs_base.specs.Entries.{since};
ghost use Rattle.pbs_ast.specs.Trees.{Tree, is_action, is_place};
ghost use Rattle.pbs_ast.specs.Sound.{IsSound, places_from, scopes_right};
ghost use Rattle.pbs_derive.specs.Derivations.{NoOverlap, NoOverlapBelow, fires, stands};
ghost use Rattle.pbs_machine.specs.Nodes.{IsNodeRun, IsRight};
ghost use Rattle.pbs_machine.specs.Rows.{main_starts};
ghost use Rattle.pbs_machine.specs.Runs.{IsControllerRun};

/// In each run of vectors and resets, after each row, the controller's registers are the places that stand over the
/// vectors since the last reset, and its fire bits are the actions that fire, where no scope was begun again while it
/// was live at an earlier position of that stretch. So it is where no scope overlaps at any position of the stretch.
pub fn controller_is_right()
    ensures registers { (main : Tree) (v : List Entry) (old : ℕ → ℕ → Bool) (reset : ℕ → Bool) (input : ℕ → ℕ)
        → IsSound main → IsControllerRun main v old reset input → (k : ℕ) → k ≤ length v
        → NoOverlapBelow main (since v k) (length (since v k)) → (p : ℕ)
        → main_starts main (is_place p) (old k) (input k) (reset k) ≡ stands main (since v k) 0 (length (since v k)) p }
    ensures fire_bits { (main : Tree) (v : List Entry) (old : ℕ → ℕ → Bool) (reset : ℕ → Bool) (input : ℕ → ℕ)
        → IsSound main → IsControllerRun main v old reset input → (k : ℕ) → k ≤ length v
        → NoOverlapBelow main (since v k) (length (since v k)) → (a : ℕ)
        → main_starts main (is_action a) (old k) (input k) (reset k) ≡ fires main (since v k) 0 (length (since v k)) a }
    ensures whole { (main : Tree) (v : List ℕ) → NoOverlap main v → NoOverlapBelow main v (length v) }
{}

/// The same of one row: a reset row gives the places and actions of position 0 whatever the registers are, and a row
/// with a vector leads from the places that stand at a position to the places and actions of the next one, where no
/// scope was begun again while it was live up to the position that is left.
pub fn one_row_is_right()
    ensures reset_places { (main : Tree) (v : List ℕ) (old : ℕ → Bool) (x p : ℕ) → IsSound main
        → main_starts main (is_place p) old x true ≡ stands main v 0 0 p }
    ensures reset_actions { (main : Tree) (v : List ℕ) (old : ℕ → Bool) (x a : ℕ) → IsSound main
        → main_starts main (is_action a) old x true ≡ fires main v 0 0 a }
    ensures places { (main : Tree) (v : List ℕ) (k p : ℕ) → IsSound main → NoOverlapBelow main v (suc k)
        → main_starts main (is_place p) (stands main v 0 k) (slice_index v k) false ≡ stands main v 0 (suc k) p }
    ensures actions { (main : Tree) (v : List ℕ) (k a : ℕ) → IsSound main → NoOverlapBelow main v (suc k)
        → main_starts main (is_action a) (stands main v 0 k) (slice_index v k) false ≡ fires main v 0 (suc k) a }
{}

/// The same of each node, for whatever rows it is begun, kept and held in: what it ends, where it stays, its registers
/// and its fire bits are those of the derivations that were begun, kept and held.
pub fn each_node_is_right()
    ensures { (e : Tree) (first : ℕ) (v : List ℕ) (old : ℕ → ℕ → Bool) (input : ℕ → ℕ) (outer start keep : ℕ → Bool)
        → IsTrue (scopes_right e) → IsTrue (places_from e first)
        → IsNodeRun e v old input outer start keep → IsRight e v old input outer start keep }
{}

//! The laws of derivations. Each is a function that does nothing, and its clauses are the law.

ghost use Rattle.std.specs.Prelude.{◌≡◌, ◌<◌, ◌≤◌, ◌↔◌, ◌+◌, ◌-◌, ◌&&◌, ◌||◌, Bool, IsTrue, List, nat_eq, slice_index};
ghost use Rattle.std.specs.Prelude.{true, ℕ};
ghost use Rattle.pbs_ast.specs.Trees.{Spot, Star, Tree, fits, has_no_scope, has_terminal, is_last, nullable};
ghost use Rattle.pbs_ast.specs.Sound.{places_from, scopes_right};
ghost use Rattle.pbs_ast.specs.Repeats.{blank, filled, repeated};
ghost use Rattle.pbs_derive.specs.Turns.{CoverInTurn};
ghost use Rattle.pbs_derive.specs.Derivations.{IsAbort, NoOverlapBelow, SameTo, alive, covers, fires, first_after};
ghost use Rattle.pbs_derive.specs.Derivations.{live, some_after, stands, trips};

/// What is alive at a position was alive at each position before it.
pub fn alive_before()
    ensures { (e : Tree) (v : List ℕ) (i k n : ℕ) → alive e v i k ≡ true → i ≤ n → n ≤ k
        → alive e v i n ≡ true }
{}

/// An instance has at most one abort position, and the tests for one up to k find it.
pub fn one_abort()
    ensures unique { (e x : Tree) (v : List ℕ) (i m n : ℕ) → IsAbort e x v i m → IsAbort e x v i n → m ≡ n }
    ensures found { (e x : Tree) (v : List ℕ) (i k : ℕ)
        → (some_after i k (trips e x v i) ≡ true) ↔ ((m : ℕ) × (m ≤ k) × IsAbort e x v i m) }
    ensures then { (e x : Tree) (v : List ℕ) (i k : ℕ) (test : ℕ → Bool)
        → (first_after i k (trips e x v i) test ≡ true)
        ↔ ((m : ℕ) × (m ≤ k) × IsAbort e x v i m × (test m ≡ true)) }
{}

/// A tree is alive exactly where some place of it stands.
pub fn alive_stands()
    ensures { (e : Tree) (v : List ℕ) (i k : ℕ)
        → (alive e v i k ≡ true) ↔ ((p : ℕ) × (stands e v i k p ≡ true)) }
{}

/// A tree covers the empty stretch exactly where it is nullable, and is alive there exactly where it has a terminal.
pub fn empty_stretch()
    ensures covered { (e : Tree) (v : List ℕ) (i : ℕ) → covers e v i i ≡ nullable e }
    ensures is_alive { (e : Tree) (v : List ℕ) (i : ℕ) → IsTrue (scopes_right e) → alive e v i i ≡ has_terminal e }
{}

/// What is said of positions up to n depends on the first n vectors alone.
pub fn by_prefix()
    ensures covered { (e : Tree) (v w : List ℕ) (n i j : ℕ) → SameTo n v w → j ≤ n
        → covers e v i j ≡ covers e w i j }
    ensures is_alive { (e : Tree) (v w : List ℕ) (n i k : ℕ) → SameTo n v w → k ≤ n
        → alive e v i k ≡ alive e w i k }
    ensures aborts { (e x : Tree) (v w : List ℕ) (n i m : ℕ) → SameTo n v w → m ≤ n
        → IsAbort e x v i m → IsAbort e x w i m }
    ensures stand { (e : Tree) (v w : List ℕ) (n i k p : ℕ) → SameTo n v w → k ≤ n
        → stands e v i k p ≡ stands e w i k p }
    ensures fire { (e : Tree) (v w : List ℕ) (n i k a : ℕ) → SameTo n v w → k ≤ n
        → fires e v i k a ≡ fires e w i k a }
    ensures is_live { (e : Tree) (v w : List ℕ) (n i k s j : ℕ) → SameTo n v w → k ≤ n
        → live e v i k s j ≡ live e w i k s j }
    ensures no_overlap { (main : Tree) (v w : List ℕ) (n : ℕ) → SameTo n v w
        → NoOverlapBelow main v (n + 1) → NoOverlapBelow main w (n + 1) }
{}

/// A tree without scopes covers a stretch exactly where one of its last places stood before the last vector, and the
/// place's effective term is true in that vector.
pub fn last_places()
    ensures { (e : Tree) (v : List ℕ) (i j first : ℕ) → has_no_scope e ≡ true → IsTrue (places_from e first) → i < j
        → (covers e v i j ≡ true)
        ↔ ((p : ℕ) × (is_last p e ≡ true) × (stands e v i (j - 1) p ≡ true)
        × (fits p e (slice_index v (j - 1)) ≡ true)) }
{}

/// A star covers a stretch that is empty, or whose front its body covers and whose rest, shorter, it covers itself.
pub fn star_turns()
    ensures { (spot : Spot) (e : Tree) (v : List ℕ) (i j : ℕ)
        → covers (Star spot e) v i j
        ≡ (nat_eq i j || some_after i j (λ m. covers e v i m && covers (Star spot e) v m j)) }
{}

/// The tree of a bounded repetition, at least m and at most n copies of e, spans and numbers aside, covers a stretch
/// exactly where some number of copies of e from m to n cover it, one after another.
pub fn bounded_repetition()
    ensures { (tree e : Tree) (v : List ℕ) (m n i j : ℕ) → m ≤ n → 1 ≤ n
        → blank tree ≡ filled (repeated m n) (blank e)
        → (covers tree v i j ≡ true) ↔ ((c : ℕ) × (m ≤ c) × (c ≤ n) × CoverInTurn e v c i j) }
{}

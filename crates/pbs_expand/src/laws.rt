//! The laws of the expansion. Each is a function that does nothing, and its clauses are the law.

ghost use Rattle.std.specs.Prelude.{◌≡◌, ◌≤◌, ◌<◌, ◌+◌, ◌↔◌, None, Some, List, Result, true, ℕ};
ghost use Rattle.std.specs.List.{list_all, list_any};
ghost use Rattle.pbs_base.specs.Entries.{bit};
ghost use Rattle.pbs_base.specs.declared.refusal.Span.{Span};
ghost use Rattle.bool_terms.specs.Terms.{holds};
ghost use Rattle.pbs_ast.specs.declared.syntax.Decl.{Decl};
ghost use Rattle.pbs_ast.specs.declared.syntax.SpecTerm.{SpecTerm, All, Any, Equal};
ghost use Rattle.pbs_names.specs.declared.buses.Bus.{Bus};
ghost use Rattle.pbs_names.specs.Naming.{bus_of};
ghost use Rattle.pbs_expand.specs.Written.{written};
ghost use Rattle.pbs_ast.specs.Bare.{bare};
ghost use Rattle.pbs_ast.specs.Repeats.{blank, filled, repeated};
ghost use Rattle.pbs_ast.specs.declared.main_tree.Main.{Main};
ghost use Rattle.pbs_ast.specs.declared.syntax.Expr.{Expr};
ghost use Rattle.pbs_ast.specs.declared.syntax.Spec.{Spec};
ghost use Rattle.pbs_names.specs.Forms.{Repeat, form};
ghost use Rattle.pbs_expand.specs.declared.build.Counters.{Counters};
ghost use Rattle.pbs_expand.specs.declared.fail.Expand.{Expand};
ghost use Rattle.pbs_expand.specs.Expanded.{Gives, expanded, main_walk, over_limit, refusal};
ghost use Rattle.pbs_expand.specs.Parts.{Whole};
ghost use Rattle.pbs_expand.specs.Visits.{numbered};
ghost use Rattle.pbs_expand.specs.Walks.{complete, walk};

/// Where no visit of a bounded repetition is too deep, neither is one of its body, and its tree is made of copies of
/// its body's tree as `repeated` says, spans and numbers aside. Where no limit is passed, no visit of main is too deep.
pub fn repetition()
    ensures body { (spec : Spec) (e body : Expr) (m n room : ℕ) → form e ≡ Repeat body m n → m ≤ n → 1 ≤ n
        → complete (walk spec room (Whole e)) ≡ true → complete (walk spec room (Whole body)) ≡ true }
    ensures copies { (spec : Spec) (e body : Expr) (m n room : ℕ) (c d : Counters) → form e ≡ Repeat body m n
        → m ≤ n → 1 ≤ n → complete (walk spec room (Whole e)) ≡ true
        → blank (numbered (walk spec room (Whole e)) c)
        ≡ filled (repeated m n) (blank (numbered (walk spec room (Whole body)) d)) }
    ensures limits { (spec : Spec) → over_limit spec ≡ None → complete (main_walk spec) ≡ true }
{}

/// What the term of a written one means: `&` is true where all of its members are, `|` where some member is, and a
/// comparison exactly where each bit of the bus is that of the number, bit 0 being the bus's first input.
pub fn meaning()
    ensures all { (inputs : List Decl) (items : List SpecTerm) (v : ℕ)
        → holds (written inputs (All items)) v ≡ list_all (λ t. holds (written inputs t) v) items }
    ensures any { (inputs : List Decl) (items : List SpecTerm) (v : ℕ)
        → holds (written inputs (Any items)) v ≡ list_any (λ t. holds (written inputs t) v) items }
    ensures equal { (inputs : List Decl) (name : List ℕ) (at : Span) (number : ℕ) (number_at : Span) (bus : Bus)
        → bus_of inputs name ≡ Some bus → (v : ℕ)
        → (holds (written inputs (Equal name at number number_at)) v ≡ true)
        ↔ ((k : ℕ) → k < bus.width → bit (bus.start + k) v ≡ bit k number) }
{}

/// A specification and the same one with its boxes at one place have one expansion: the same tree, refusal and answers.
pub fn same_expansion()
    ensures tree { (spec : Spec) → expanded (bare spec) ≡ expanded spec }
    ensures refusal { (spec : Spec) → refusal (bare spec) ≡ refusal spec }
    ensures answer { (spec : Spec) (result : Result Main Expand) → Gives spec result ↔ Gives (bare spec) result }
{}

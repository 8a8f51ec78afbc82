//! What holds of the rules, and of a specification that breaks none of them: a caller gets it as clauses of a call.
ghost use Rattle.std.specs.Prelude.{Result, ℕ, ◌↔◌, ◌≡◌, ◌≤◌, length};
ghost use Rattle.pbs_base.specs.declared.refusal.Refusal.{Refusal};
ghost use Rattle.pbs_base.specs.declared.refusal.Span.{Span};
ghost use Rattle.pbs_base.specs.Words.{AreDifferent};
ghost use Rattle.pbs_ast.specs.Bare.{bare};
ghost use Rattle.pbs_ast.specs.declared.syntax.Spec.{Spec};
ghost use Rattle.pbs_names.specs.Naming.{input_names, action_names, level_names};
ghost use Rattle.pbs_check.specs.Checked.{Checks, IsBroken, IsFirst, IsUnbroken};
ghost use Rattle.pbs_check.specs.declared.fail.Check.{Check};

/// There are at most 64 inputs, the bits of buses among them, at most 64 actions, and at most 64 levels.
pub fn within_limits()
    ensures inputs { (spec : Spec) → IsUnbroken spec → length (input_names spec.inputs) ≤ 64 }
    ensures actions { (spec : Spec) → IsUnbroken spec → length spec.actions ≤ 64 }
    ensures levels { (spec : Spec) → IsUnbroken spec → length spec.levels ≤ 64 }
{}

/// No input is declared twice, the bits of buses among them, no action and no level.
pub fn declared_once()
    ensures inputs { (spec : Spec) → IsUnbroken spec → AreDifferent (input_names spec.inputs) }
    ensures actions { (spec : Spec) → IsUnbroken spec → AreDifferent (action_names spec.actions) }
    ensures levels { (spec : Spec) → IsUnbroken spec → AreDifferent (level_names spec.levels) }
{}

/// A specification has at most one first refusal, and none where it breaks no rule.
pub fn one_refusal()
    ensures same { (spec : Spec) (r s : Refusal) → IsFirst spec r → IsFirst spec s → r ≡ s }
    ensures never { (spec : Spec) (r : Refusal) → IsFirst spec r → IsUnbroken spec → ⊥ }
{}

/// A specification and the same one with its boxes at one place break the same rules at the same spans. So the same
/// rule is the first that is broken, and the same answers of the checks are right.
pub fn same_rules()
    ensures broken { (spec : Spec) (rule : ℕ) (span : Span) → IsBroken spec rule span ↔ IsBroken (bare spec) rule span }
    ensures first { (spec : Spec) (refusal : Refusal) → IsFirst spec refusal ↔ IsFirst (bare spec) refusal }
    ensures answer { (spec : Spec) (result : Result (Unit {0}) Check) → Checks spec result ↔ Checks (bare spec) result }
{}

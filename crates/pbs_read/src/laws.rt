//! That a text has at most one answer: a caller gets this as a clause of a call.
ghost use Rattle.std.specs.Prelude.{◌≡◌, ℕ, List, Result};
ghost use Rattle.pbs_base.specs.declared.refusal.Refusal.{Refusal};
ghost use Rattle.pbs_ast.specs.declared.syntax.Spec.{Spec};
ghost use Rattle.pbs_text.specs.Answers.{Answers};

/// No text stands for two specifications, or is refused in two ways, or both.
pub fn one_answer()
    ensures { (bytes : List ℕ) (a b : Result Spec Refusal) → Answers bytes a → Answers bytes b → a ≡ b }
{}

//! Laws of what a text stands for: a caller gets them as clauses of a call.
ghost use Rattle.std.specs.Prelude.{◌≡◌, ◌≤◌, length, List, ℕ};
ghost use Rattle.pbs_base.specs.declared.refusal.Refusal.{Refusal};
ghost use Rattle.pbs_ast.specs.declared.syntax.Spec.{Spec};
ghost use Rattle.net_trace.specs.Outcomes.{Outcome};
ghost use Rattle.pbs_engine.specs.Accepted.{Breaks, IsAccepted};
ghost use Rattle.pbs_engine.specs.Migrated.{BreaksMigration, IsMigrationOf};
ghost use Rattle.pbs_engine.specs.Outcomes.{TextGives};
ghost use Rattle.pbs_engine.specs.Right.{IsMapOf};

use pbs_check::laws::one_refusal;
use pbs_overlap::laws::one_tree_refusal;
use pbs_read::laws::one_answer;
use pbs_realize::laws::one_coding;

/// A text is accepted as at most one specification or refused in at most one way, and not both.
pub fn one_check()
    ensures spec { (text : List ℕ) (a b : Spec) → IsAccepted text a → IsAccepted text b → a ≡ b }
    ensures refusal { (text : List ℕ) (r s : Refusal) → Breaks text r → Breaks text s → r ≡ s }
    ensures apart { (text : List ℕ) (a : Spec) (r : Refusal) → IsAccepted text a → Breaks text r → ⊥ }
{
    one_answer();
    one_refusal();
    one_tree_refusal();
}

/// The text of a specification on a trace has at most one outcome.
pub fn one_outcome()
    ensures { (text trace : List ℕ) (o p : Outcome) → TextGives text trace o → TextGives text trace p → o ≡ p }
{
    one_check();
}

/// The text of a specification has at most one map.
pub fn one_map()
    ensures { (text a b : List ℕ) → IsMapOf text a → IsMapOf text b → a ≡ b }
{
    one_check();
    one_coding();
}

/// The text of a specification has at most one migration, and is migrated or refused.
pub fn one_migration()
    ensures text { (text a b : List ℕ) → IsMigrationOf text a → IsMigrationOf text b → a ≡ b }
    ensures refusal { (text : List ℕ) (r s : Refusal) → BreaksMigration text r → BreaksMigration text s → r ≡ s }
    ensures apart { (text a : List ℕ) (r : Refusal) → IsMigrationOf text a → length a ≤ 1048576
        → BreaksMigration text r → ⊥ }
{
    one_check();
}

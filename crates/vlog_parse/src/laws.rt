//! Laws of parsing: a text is read in one way.
ghost use Rattle.std.specs.Prelude.{ℕ, List, ◌≡◌};
ghost use Rattle.pbs_base.specs.declared.refusal.Refusal.{Refusal};
ghost use Rattle.vlog_text.specs.Grammar.{TextPhrase};
ghost use Rattle.vlog_text.specs.Raw.{IsRaw};
ghost use Rattle.vlog_text.specs.Reading.{IsRead};
ghost use Rattle.vlog_text.specs.Trees.{raw_of};
ghost use Rattle.vlog_parse.specs.Parsed.{IsUnreadable};

/// A text is read as one phrase, or refused in one way by rules 1 to 3, and not both.
pub fn one_parse()
    ensures read { (bytes : List ℕ) (p q : TextPhrase) → IsRead bytes p → IsRead bytes q → p ≡ q }
    ensures refused { (bytes : List ℕ) (q r : Refusal) → IsUnreadable bytes q → IsUnreadable bytes r → q ≡ r }
    ensures neither { (bytes : List ℕ) (p : TextPhrase) (r : Refusal) → IsRead bytes p → IsUnreadable bytes r → ⊥ }
{}

/// What a text is read as is a raw netlist, with fewer gates and registers than 2^32 - 1.
pub fn read_is_raw()
    ensures { (bytes : List ℕ) (p : TextPhrase) → IsRead bytes p → IsRaw (raw_of bytes p) }
{}

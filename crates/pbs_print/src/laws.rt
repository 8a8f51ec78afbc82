//! The law that the canonical text of a specification reads back.
ghost use Rattle.std.specs.Prelude.{ℕ, ◌≤◌, List, length};
ghost use Rattle.pbs_ast.specs.declared.syntax.Spec.{Spec};
ghost use Rattle.pbs_text.specs.Answers.{StandsFor};
ghost use Rattle.pbs_ast.specs.Bare.{bare};
ghost use Rattle.pbs_print.specs.Canonical.{canonical};
ghost use Rattle.pbs_print.specs.Written.{IsWritten, ReadsBack, of_version_2};

/// A canonical text that isn't too long stands for the same specification apart from spans.
pub fn canonical_reads_back()
    // Of every specification that some text stands for, however long that text is.
    ensures written { (spec : Spec) → IsWritten spec → length (canonical spec) ≤ 1048576 → ReadsBack spec }

    // Of what `read_spec` gives.
    ensures read { (bytes : List ℕ) (spec : Spec) → StandsFor bytes (bare spec) → length (canonical spec) ≤ 1048576
        → ReadsBack spec }

    // Of what `read_spec` gives, taken as one of version 2.
    ensures second { (bytes : List ℕ) (spec : Spec) → StandsFor bytes (bare spec)
        → length (canonical (of_version_2 spec)) ≤ 1048576 → ReadsBack (of_version_2 spec) }
{}

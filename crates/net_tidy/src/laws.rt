//! Laws of netlists that follow others: a caller gets them as clauses of a call.
ghost use Rattle.std.specs.Prelude.{◌≡◌, ◌≤◌, List, ℕ, length};
ghost use Rattle.pbs_base.specs.declared.entry.Entry.{Entry};
ghost use Rattle.net_core.specs.Rows.{Row};
ghost use Rattle.net_core.specs.Circuits.{Circuit};
ghost use Rattle.net_core.specs.Runs.{IsRun};
ghost use Rattle.net_eval.specs.Assignments.{Agree};
ghost use Rattle.net_tidy.specs.Follows.{Follows, MatchesRow};

/// Each run of a netlist that follows another one shows a run of that one, row by row.
pub fn follows_runs()
    ensures { (net made : Circuit) → Follows net made → (v : List Entry) (rows : ℕ → Row) → IsRun made v rows
        → (source_rows : ℕ → Row) × IsRun net v source_rows
        × ((k : ℕ) → k ≤ length v → MatchesRow net made (source_rows k) (rows k)) }
{}

/// Two runs, of a netlist and of one that follows it, from equal registers and with equal inputs, show the same in
/// every row.
pub fn runs_match()
    ensures { (net made : Circuit) → Follows net made → (v : List Entry) (source_rows rows : ℕ → Row)
        → IsRun net v source_rows → IsRun made v rows → Agree (length net.registers) 0 (source_rows 0) (rows 0)
        → ((k : ℕ) → k ≤ length v → (source_rows k).vector ≡ (rows k).vector)
        → (k : ℕ) → k ≤ length v → MatchesRow net made (source_rows k) (rows k) }
{}

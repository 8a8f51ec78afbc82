//! That answers are determined: a caller gets this as a clause of a call.
ghost use Rattle.std.specs.Prelude.{◌≡◌, ◌≢◌, ℕ, List};
ghost use Rattle.pbs_io.specs.Outside.{NamedFile};
ghost use Rattle.pbs_cli.specs.Answers.{Answer, Defines};
ghost use Rattle.pbs_cli.specs.Words.{Command, Compile, Run};

use net_eval::laws::one_assignment;
use pbs_engine::laws::{one_check, one_map, one_migration, one_outcome};
use vlog_read::laws::{one_answer as one_netlist, stands_for_circuit};

/// A command other than `compile` has at most one answer over files that are told.
pub fn one_answer()
    ensures { (command : Command) (files : List NamedFile) (a b : Answer)
        → ((spec : List ℕ) → command ≢ Run Compile spec)
        → Defines command files a → Defines command files b → a ≡ b }
{
    one_check();
    one_map();
    one_migration();
    one_outcome();
    one_netlist();
    one_assignment();
    stands_for_circuit();
}

//! Laws of what is written for netlists: a caller gets them as clauses of a call.
ghost use Rattle.std.specs.Prelude.{◌≡◌, ◌≤◌, List, ℕ, codes};
ghost use Rattle.pbs_ast.specs.Trees.{Tree};
ghost use Rattle.pbs_ast.specs.declared.syntax.Spec.{Spec};
ghost use Rattle.pbs_text.specs.Answers.{StandsFor};
ghost use Rattle.pbs_names.specs.Naming.{action_names, input_names, level_names};
ghost use Rattle.pbs_check.specs.Checked.{IsUnbroken};
ghost use Rattle.net_core.specs.declared.codes.Code.{Code};
ghost use Rattle.net_core.specs.Circuits.{Circuit};
ghost use Rattle.vlog_text.specs.Emitted.{emitted};
ghost use Rattle.vlog_text.specs.Reading as netlists;
ghost use Rattle.pbs_controller.specs.Controllers.{IsWritable};
ghost use Rattle.pbs_controller.specs.Ports.{output_ports, ports_of};
ghost use Rattle.pbs_realize.specs.Codes.{AreCodes};
ghost use Rattle.pbs_realize.specs.inner.NameWords.{HasWords};

use pbs_check::laws::{declared_once, within_limits};
use pbs_codes::laws::one_code_plan;
use vlog_write::laws::{built_text_is_short, written_reads_back};

// The names that a text declares are words: a letter or `_`, then letters, digits and `_`, at most 64 bytes, and two
// more for the bits of buses. The names of inputs, bits of buses among them, are all different, and those of actions,
// and those of levels.
pub(crate) fn names_are_words()
    ensures { (text : List ℕ) (spec : Spec) → StandsFor text spec → IsUnbroken spec → HasWords spec }
{
    declared_once();
}

/// What is written for a netlist with the ports of an accepted specification, and with no more gates, registers and
/// pins than fit in a text, is short enough, breaks no rule and stands for that very netlist.
pub fn emitted_stands()
    ensures { (text : List ℕ) (spec : Spec) (gates registers pins : ℕ) (net : Circuit) → StandsFor text spec
        → IsUnbroken spec → IsWritable (ports_of (codes "i_") (input_names spec.inputs))
        (output_ports (action_names spec.actions) (level_names spec.levels)) gates registers pins net
        → gates ≤ 1185792 → registers ≤ 4160 → pins ≤ 32768 → netlists.ElaboratesTo (emitted net) net }
{
    names_are_words();
    within_limits();
    built_text_is_short();
    written_reads_back();
}

/// A tree has one coding: the same codes of places.
pub fn one_coding()
    ensures { (main : Tree) (m n : ℕ) (cs ds : List Code) → AreCodes main m cs → AreCodes main n ds → cs ≡ ds }
{
    one_code_plan();
}

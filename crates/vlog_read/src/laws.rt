//! What a text stands for is determined, and is a circuit: a caller gets this as a clause of a call.
ghost use Rattle.std.specs.Prelude.{◌≡◌, ℕ, List};
ghost use Rattle.pbs_base.specs.declared.refusal.Refusal.{Refusal};
ghost use Rattle.net_core.specs.Circuits.{Circuit, IsCircuit};
ghost use Rattle.vlog_text.specs.Reading.{IsRefusedVerilog, ElaboratesTo};

use vlog_elaborate::laws::unbroken_is_circuit;
use vlog_parse::laws::{one_parse, read_is_raw};

/// A text stands for one netlist, or is refused in one way, and not both.
pub fn one_answer()
    ensures net { (bytes : List ℕ) (a b : Circuit) → ElaboratesTo bytes a → ElaboratesTo bytes b → a ≡ b }
    ensures refusal { (bytes : List ℕ) (r s : Refusal) → IsRefusedVerilog bytes r → IsRefusedVerilog bytes s → r ≡ s }
    ensures apart { (bytes : List ℕ) (a : Circuit) (r : Refusal) → ElaboratesTo bytes a → IsRefusedVerilog bytes r → ⊥ }
{
    one_parse();
}

/// The netlist that a text stands for is a circuit: within the limits, and with its gates in an order.
pub fn stands_for_circuit()
    ensures { (bytes : List ℕ) (net : Circuit) → ElaboratesTo bytes net → IsCircuit net }
{
    read_is_raw();
    unbroken_is_circuit();
}

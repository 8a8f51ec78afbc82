// The gates of a hold: those of its term, and one more.
ghost use Rattle.std.specs.Prelude.{◌≡◌, ◌+◌, ◌≤◌, ◌&&◌, length, IfOk, OnOk, IsTrue};
ghost use Rattle.bool_terms.specs.Terms.{holds, input_leaves, term_inputs_below, term_nodes, term_of};
ghost use Rattle.net_core.specs.Rows.{IsRow, Row, value};
ghost use Rattle.net_core.specs.Circuits.{Exists};
ghost use Rattle.net_core.specs.Building.{Extends, Means, gate_input_pins, input_pin};

use bool_terms::Term;
use net_core::{Builder, Wire};
use pbs_base::Memory;

/// A wire that is 1 where `outer` is and the term is true.
pub fn hold_gates(b: &mut Builder, outer: Wire, term: &Term) -> Result<Wire, Memory>
    requires outer { Exists b.old outer }
    requires inputs { IsTrue (term_inputs_below (length b.old.inputs) (term_of term.now)) }
    ensures extends { OnOk result
        (Extends b.old b.new (1 + term_nodes (term_of term.now)) (input_leaves (term_of term.now) + input_pin outer)) }
    ensures means { IfOk result (λ wire.
        Means b.new wire (λ row. value row outer && holds (term_of term.now) row.vector)) }
{
    let truth = term_gates(b, term)?;
    b.and(outer, truth)
}

// The wire of a term; counted as a pin, it is among the input leaves.
fn term_gates(b: &mut Builder, term: &Term) -> Result<Wire, Memory>
    requires { IsTrue (term_inputs_below (length b.old.inputs) (term_of term.now)) }
    ensures extends { OnOk result
        (Extends b.old b.new (term_nodes (term_of term.now)) (input_leaves (term_of term.now))) }
    ensures pins { IfOk result (λ wire.
        gate_input_pins b.new.gates + input_pin wire ≤ gate_input_pins b.old.gates + input_leaves (term_of term.now)) }
    ensures there { IfOk result (λ wire. Exists b.new wire) }
    ensures means { IfOk result (λ wire.
        (row : Row) → IsRow b.new.gates row → value row wire ≡ holds (term_of term.now) row.vector) }
{
    match term {
        Term::Const(bit) => Ok(Wire::Const(*bit)),
        Term::Input(n) => Ok(Wire::Input(*n)),
        Term::Not(inner) => {
            let truth = term_gates(b, inner)?;
            b.not(truth)
        }
        Term::And(left, right) => {
            let first = term_gates(b, left)?;
            let second = term_gates(b, right)?;
            b.and(first, second)
        }
        Term::Or(left, right) => {
            let first = term_gates(b, left)?;
            let second = term_gates(b, right)?;
            b.or(first, second)
        }
    }
}

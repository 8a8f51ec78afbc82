// Takes gates away that a controller doesn't need.
ghost use Rattle.std.specs.Prelude.{◌≡◌, ◌+◌, ◌≤◌, IfOk, IfSome, IsTrue};
ghost use Rattle.net_core.specs.Building.{gate_input_pins, input_pins};
ghost use Rattle.pbs_realize.specs.inner.Coding.{Tidies};
ghost use Rattle.pbs_realize.specs.inner.Shrinking.{Shrinks};

use net_core::{Gate, Netlist, Wire};
use net_merge::merge;
use net_tidy::tidy;
use pbs_base::Memory;
use pbs_controller::Controller;
use std::alloc::Global;

/// The most pins that are inputs of a netlist whose text is sure to be short enough.
const MOST_INPUT_PINS: usize = 32_768;

/// The most rounds in which registers of one value are read as one.
const MOST_ROUNDS: usize = 4;

// This number and how many of the wires are inputs, if that is few enough.
fn count_inputs(wires: &[Wire], before: usize) -> Option<usize>
    requires { before ≤ 32768 }
    ensures count { IfSome result (λ count. count ≡ before + input_pins wires.now) }
    ensures few { IfSome result (λ count. count ≤ 32768) }
{
    let mut count = before;
    for wire in wires {
        if matches!(wire, Wire::Input(_)) {
            if count == MOST_INPUT_PINS {
                return None;
            }
            count += 1;
        }
    }
    Some(count)
}

// How many pins of the gates are inputs, if that is few enough.
fn count_gate_inputs(gates: &[Gate]) -> Option<usize>
    ensures count { IfSome result (λ count. count ≡ gate_input_pins gates.now) }
    ensures few { IfSome result (λ count. count ≤ 32768) }
{
    let mut count = 0;
    for gate in gates {
        count = count_inputs(gate.pins.as_slice(), count)?;
    }
    Some(count)
}

// Whether few enough pins are inputs, a register's data wire counted as a pin.
fn reads_few_inputs(net: &Netlist) -> bool
    ensures { IsTrue result → gate_input_pins net.now.gates + input_pins net.now.registers ≤ 32768 }
{
    match count_gate_inputs(net.gates()) {
        Some(count) => count_inputs(net.registers(), count).is_some(),
        None => false,
    }
}

// The netlist with registers of one value read as one, and without the gates that are then not needed.
fn shrunk_once(alloc: Global, net: &Netlist) -> Result<Netlist, Memory>
    ensures { IfOk result (λ made. Shrinks net.now made) }
{
    let merged = merge(alloc, net)?;
    tidy(alloc, &merged)
}

// The netlist without the gates that it doesn't need, made smaller as long as a round takes gates away.
fn shrunk(alloc: Global, net: &Netlist) -> Result<Netlist, Memory>
    ensures { IfOk result (λ made. Shrinks net.now made) }
{
    let mut least = tidy(alloc, net)?;
    for _ in 0..MOST_ROUNDS {
        let next = shrunk_once(alloc, &least)?;
        if next.gates().len() >= least.gates().len() {
            return Ok(least);
        }
        least = next;
    }
    Ok(least)
}

/// The controller without the gates that it doesn't need. One that would read inputs at so many pins that its text may be
/// too long stays as it is.
pub(crate) fn tidied(alloc: Global, coded: Controller) -> Result<Controller, Memory>
    ensures { IfOk result (λ made. Tidies coded.net made.net × (made.map ≡ coded.map)) }
{
    let net = shrunk(alloc, &coded.net)?;
    if !reads_few_inputs(&net) {
        return Ok(coded);
    }
    Ok(Controller {
        net,
        map: coded.map,
    })
}

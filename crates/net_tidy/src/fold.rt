// The gates of a netlist anew, each form once.
ghost use Rattle.std.specs.Prelude.{◌≡◌, IfOk, OnOk, length, map};
ghost use Rattle.net_core.specs.Circuits.{HasItsPins, IsBuilt, IsPlain};
ghost use Rattle.net_core.specs.Rows.{gate_value};
ghost use Rattle.net_tidy.specs.inner.Images.{IsFolded, image, row_back};
ghost use Rattle.net_tidy.specs.inner.Made.{Makes};

use crate::pool::Pool;
use net_core::{Gate, Gates, Netlist, Pins, Wire, Wires};
use pbs_base::Memory;
use std::alloc::Global;

/// New gates, and for each gate of a netlist the wire that stands for it.
#[derive(Drop)]
pub(crate) struct Folded {
    pub(crate) gates: Gates,
    pub(crate) stands: Wires,
}

// What stands for the wire.
pub(crate) fn image(stands: &[Wire], wire: Wire) -> Wire
    ensures { result ≡ image stands.now wire }
{
    match wire {
        Wire::Gate(n) => match stands.get(n as usize) {
            Some(stand) => *stand,
            None => Wire::Const(false),
        },
        other => other,
    }
}

pub(crate) fn images(alloc: Global, stands: &[Wire], pins: &[Wire]) -> Result<Pins, Memory>
    ensures { IfOk result (λ images. images ≡ map (image stands.now) pins.now) }
{
    let mut images = Pins::new(alloc);
    for pin in pins {
        images.push(image(stands, *pin))?;
    }
    Ok(images)
}

// A wire that stands for the gate, where the wires that stand for the gates before it are known.
fn fold_gate(alloc: Global, pool: &mut Pool, stands: &[Wire], gate: &Gate) -> Result<Wire, Memory>
    requires { HasItsPins gate.now.kind (length gate.now.pins) }
    ensures makes { IfOk result (λ made. Makes pool.old pool.new (map (image stands.now) gate.now.pins) made
        (λ row. gate_value (row_back stands.now row) gate.now)) }
    ensures built { OnOk result (IsBuilt pool.old → IsPlain gate.now → IsBuilt pool.new) }
{
    let pins = images(alloc, stands, gate.pins.as_slice())?;
    pool.add(gate.kind, pins)
}

/// Gates with the values that the gates of the netlist have. There are no more, no two are of one form, and none that
/// has a form reads a constant.
pub(crate) fn fold(alloc: Global, net: &Netlist) -> Result<Folded, Memory>
    ensures { IfOk result (λ f. IsFolded net.now f.gates f.stands) }
{
    let mut pool = Pool::new(alloc);
    let mut stands = Wires::new(alloc);
    let gates = net.gates();
    for n in 0..gates.len() {
        let wire = fold_gate(alloc, &mut pool, stands.as_slice(), &gates[n])?;
        stands.push(wire)?;
    }
    Ok(Folded {
        gates: pool.finish(),
        stands,
    })
}

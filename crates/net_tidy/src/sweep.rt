// The marked gates alone.
ghost use Rattle.std.specs.Prelude.{◌≡◌, ◌<◌, ℕ, length, IfOk};
ghost use Rattle.net_tidy.specs.inner.Marks.{IsKept, SweepsTo};
ghost use Rattle.net_tidy.specs.inner.Made.{AllFit};

use crate::fold::{Folded, images};
use net_core::{Gate, Gates, Wire, Wires};
use pbs_base::Memory;
use std::alloc::Global;

// Adds the gate, if it is marked, with pins by the places of earlier gates, and answers its place.
fn keep(
    alloc: Global,
    kept: &mut Gates,
    places: &[Wire],
    gate: &Gate,
    marked: bool,
) -> Result<Wire, Memory>
    requires { length kept.old < 4294967295 }
    ensures { IfOk result (λ place. IsKept marked kept.old kept.new places.now gate.now place) }
{
    if !marked {
        return Ok(Wire::Const(false));
    }
    let pins = images(alloc, places, gate.pins.as_slice())?;
    let number = kept.len();
    kept.push(Gate {
        kind: gate.kind,
        pins,
    })?;
    Ok(Wire::Gate(number as u32))
}

/// The marked gates in their order, and for each gate its place.
pub(crate) fn sweep(alloc: Global, gates: &[Gate], marks: &[bool]) -> Result<Folded, Memory>
    requires long { length marks.now ≡ length gates.now }
    requires few { length gates.now < 4294967295 }
    ensures { IfOk result (λ swept. (i r : ℕ) → AllFit i r gates.now
        → SweepsTo i r gates.now marks.now (length gates.now) swept.gates swept.stands) }
{
    let mut kept = Gates::new(alloc);
    let mut places = Wires::new(alloc);
    for n in 0..gates.len() {
        let place = keep(alloc, &mut kept, places.as_slice(), &gates[n], marks[n])?;
        places.push(place)?;
    }
    Ok(Folded {
        gates: kept,
        stands: places,
    })
}

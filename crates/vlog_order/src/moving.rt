// Gates in another order, with the pins renumbered.

ghost use Rattle.std.specs.Prelude.{◌≡◌, ℕ, ◌<◌, ◌^◌, length, replicate, IfOk, slice_get, slice_index, Some};
ghost use Rattle.vlog_text.specs.Orders.{place_in, moved, reordered};
ghost use Rattle.vlog_order.specs.Named.{AllNamed};

use crate::numbers::renumber;
use net_core::{Gate, Gates, Pins};
use pbs_base::Memory;
use std::alloc::Global;

/// The place of each gate in the order; 0 where it has none.
pub fn places(alloc: Global, count: usize, order: &[usize]) -> Result<Vec<u32>, Memory>
    requires there { (i n : ℕ) → slice_get order.now i ≡ Some n → n < count }
    requires few { length order.now < 2 ^ 32 }
    ensures long { IfOk result (λ places. length places.items ≡ count) }
    ensures places { IfOk result (λ places. (n : ℕ) → n < count
        → slice_index places.items n ≡ place_in order.now n) }
{
    let mut places = zeros(alloc, count)?;
    let mut k = order.len();
    while k > 0 {
        k -= 1;
        places[order[k]] = k as u32;
    }
    Ok(places)
}

fn zeros(alloc: Global, count: usize) -> Result<Vec<u32>, Memory>
    ensures { IfOk result (λ zeros. zeros.items ≡ replicate count 0) }
{
    Ok(vec![in alloc; 0; count]?)
}

fn move_gate(alloc: Global, gate: &Gate, places: &[u32]) -> Result<Gate, Memory>
    ensures { IfOk result (λ new. new ≡ moved (slice_index places.now) gate.now) }
{
    let mut pins = Pins::new(alloc);
    for pin in gate.pins.as_slice() {
        pins.push(renumber(places, *pin))?;
    }
    Ok(Gate {
        kind: gate.kind,
        pins,
    })
}

/// The gates of the order, each pin with its gate's new number.
pub fn reorder(alloc: Global, gates: &[Gate], order: &[usize]) -> Result<Gates, Memory>
    requires named { AllNamed (length gates.now) gates.now }
    requires there { (i n : ℕ) → slice_get order.now i ≡ Some n → n < length gates.now }
    requires few { length order.now < 2 ^ 32 }
    ensures { IfOk result (λ new. new ≡ reordered gates.now order.now) }
{
    let places = places(alloc, gates.len(), order)?;
    let mut new = Gates::new(alloc);
    for gate in order {
        let next = move_gate(alloc, &gates[*gate], &places)?;
        new.push(next)?;
    }
    Ok(new)
}

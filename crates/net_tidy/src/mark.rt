// Marks on the gates that outputs and registers reach.
ghost use Rattle.std.specs.Prelude.{◌≡◌, ◌<◌, ◌⊎◌, ℕ, length, IfOk, true, false, replicate, slice_index_or};
ghost use Rattle.net_core.specs.declared.gate.Wire.{Wire as WireItem};
ghost use Rattle.net_core.specs.declared.gate.Wire.TheVariants as wires;
ghost use Rattle.net_tidy.specs.inner.Marks.{AllMarked, IsClosedOver, IsMarked, IsPinOf, IsReached, Marks, Passes};
ghost use Rattle.net_tidy.specs.inner.Made.{AllFit};

use net_core::{Gate, Wire};
use pbs_base::Memory;
use std::alloc::Global;

fn mark_number(marks: &mut [bool], n: usize)
    ensures long { length marks.new ≡ length marks.old }
    ensures marked { slice_index_or marks.new n true ≡ true }
    ensures others { (m : ℕ) → (m ≡ n → ⊥) → slice_index_or marks.new m true ≡ slice_index_or marks.old m true }
{
    if n < marks.len() {
        marks[n] = true;
    }
}

fn mark_wire(marks: &mut [bool], wire: Wire)
    ensures long { length marks.new ≡ length marks.old }
    ensures marked { IsMarked marks.new wire }
    ensures others { (n : ℕ) → (wire ≡ wires.Gate n → ⊥)
        → slice_index_or marks.new n true ≡ slice_index_or marks.old n true }
{
    if let Wire::Gate(n) = wire {
        mark_number(marks, n as usize);
    }
}

fn mark_wires(marks: &mut [bool], wires: &[Wire])
    ensures { Marks marks.old marks.new wires.now (length wires.now) }
{
    for wire in wires {
        mark_wire(marks, *wire);
    }
}

fn mark_pins(marks: &mut [bool], n: usize, gate: &Gate)
    requires { n < length marks.old }
    ensures { Passes marks.old marks.new n gate.now.pins }
{
    if marks[n] {
        mark_wires(marks, gate.pins.as_slice());
    }
}

// Marks whatever marked gates read, from the last gate to the first.
fn close(gates: &[Gate], marks: &mut [bool])
    requires { length marks.old ≡ length gates.now }
    ensures long { length marks.new ≡ length marks.old }
    ensures keeps { (w : WireItem) → IsMarked marks.old w → IsMarked marks.new w }
    ensures closed { (i r : ℕ) → AllFit i r gates.now → IsClosedOver gates.now marks.new (length gates.now) }
    ensures only { (n : ℕ) → IsMarked marks.new (wires.Gate n)
        → IsMarked marks.old (wires.Gate n) ⊎ IsPinOf gates.now marks.new n }
{
    let count = gates.len();
    for k in 0..count {
        let n = count - 1 - k;
        mark_pins(marks, n, &gates[n]);
    }
}

fn mark_reached(gates: &[Gate], marks: &mut [bool], shown: &[Wire], next: &[Wire])
    requires { length marks.old ≡ length gates.now }
    ensures long { length marks.new ≡ length marks.old }
    ensures shown { AllMarked marks.new shown.now }
    ensures next { AllMarked marks.new next.now }
    ensures closed { (i r : ℕ) → AllFit i r gates.now → IsClosedOver gates.now marks.new (length gates.now) }
    ensures only { (n : ℕ) → IsMarked marks.new (wires.Gate n)
        → IsMarked marks.old (wires.Gate n) ⊎ IsReached gates.now marks.new shown.now next.now n }
{
    mark_wires(marks, shown);
    mark_wires(marks, next);
    close(gates, marks);
}

/// Marks on the gates that the wires reach, over pins.
pub(crate) fn reached(
    alloc: Global,
    gates: &[Gate],
    shown: &[Wire],
    next: &[Wire],
) -> Result<Vec<bool>, Memory>
    ensures long { IfOk result (λ marks. length marks.items ≡ length gates.now) }
    ensures shown { IfOk result (λ marks. AllMarked marks.items shown.now) }
    ensures next { IfOk result (λ marks. AllMarked marks.items next.now) }
    ensures closed { IfOk result (λ marks.
        (i r : ℕ) → AllFit i r gates.now → IsClosedOver gates.now marks.items (length gates.now)) }
    ensures reached { IfOk result (λ marks. (n : ℕ) → n < length gates.now
        → IsMarked marks.items (wires.Gate n) → IsReached gates.now marks.items shown.now next.now n) }
{
    let mut marks = unmarked(alloc, gates.len())?;
    mark_reached(gates, &mut marks, shown, next);
    Ok(marks)
}

fn unmarked(alloc: Global, count: usize) -> Result<Vec<bool>, Memory>
    ensures { IfOk result (λ marks. marks.items ≡ replicate count false) }
{
    let mut marks = Vec::new(alloc);
    for _ in 0..count {
        marks.push(false)?;
    }
    Ok(marks)
}

// The wires that tell places from registers that they share.
ghost use Rattle.std.specs.Prelude.{◌≡◌, ◌<◌, ◌≤◌, ◌+◌, ◌*◌, ◌++◌, ◌^◌, [], length, IfOk, OnOk};
ghost use Rattle.net_encode.specs.Codes.{all_hold, tells};
ghost use Rattle.net_encode.specs.inner.Drafts.{AreFew, AreFewCodes, IsFewCode, Draws, Grows, HasInverters, TellsAll};
ghost use Rattle.net_encode.specs.inner.Drafts.{literal_wire_of, own_wires};

use crate::draft::Draft;
use net_core::{Code, Literal, Wire, Wires};
use pbs_base::Memory;

/// Adds a gate for each of so many registers that shows its negation: gate r that of register r.
pub(crate) fn add_inverters(draft: &mut Draft, count: usize) -> Result<(), Memory>
    requires none { draft.old.gates ≡ [] }
    requires registers { count ≤ length draft.old.registers }
    requires few { count < 2 ^ 32 }
    ensures grows { OnOk result (Grows draft.old draft.new count 0) }
    ensures inverters { OnOk result (HasInverters draft.new count) }
{
    for r in 0..count {
        draft.not(Wire::Reg(r as u32))?;
    }
    Ok(())
}

fn literal_wire(literal: Literal) -> Wire
    ensures { result ≡ literal_wire_of literal }
{
    if literal.value {
        Wire::Reg(literal.reg)
    } else {
        Wire::Gate(literal.reg)
    }
}

// The wire that is 1 where all literals hold.
fn add_literals(draft: &mut Draft, literals: &[Literal], count: usize) -> Result<Wire, Memory>
    requires inverters { HasInverters draft.old count }
    requires few { AreFew count literals.now }
    ensures { IfOk result (λ wire. Draws draft.old draft.new wire 3 0 (λ row. all_hold row.registers literals.now)) }
{
    let mut wire = Wire::Const(true);
    for n in 0..literals.len() {
        wire = draft.both(wire, literal_wire(literals[n]))?;
    }
    Ok(wire)
}

// The wire that is 1 where the registers tell the code.
fn add_code(draft: &mut Draft, code: &Code, count: usize) -> Result<Wire, Memory>
    requires inverters { HasInverters draft.old count }
    requires few { IsFewCode count code.now }
    ensures { IfOk result (λ wire. Draws draft.old draft.new wire 3 0 (λ row. tells row.registers code.now)) }
{
    match code {
        Code::Never => Ok(Wire::Const(false)),
        Code::Bits(literals) => add_literals(draft, literals.as_slice(), count),
    }
}

/// A wire for each code, which is 1 where the registers tell it.
pub(crate) fn add_codes(draft: &mut Draft, codes: &[Code], count: usize) -> Result<Wires, Memory>
    requires inverters { HasInverters draft.old count }
    requires few { AreFewCodes count codes.now }
    ensures grows { OnOk result (Grows draft.old draft.new (3 * length codes.now) 0) }
    ensures wires { IfOk result (λ wires. TellsAll draft.new codes.now wires) }
{
    let mut wires = Wires::new(draft.allocator());
    for p in 0..codes.len() {
        let wire = add_code(draft, &codes[p], count)?;
        wires.push(wire)?;
    }
    Ok(wires)
}

/// Adds the wires of so many registers from this one on.
pub(crate) fn add_own(wires: &mut Wires, from: usize, count: usize) -> Result<(), Memory>
    requires { from + count < 2 ^ 32 }
    ensures { OnOk result (wires.new ≡ wires.old ++ own_wires from count) }
{
    for n in 0..count {
        wires.push(Wire::Reg((from + n) as u32))?;
    }
    Ok(())
}

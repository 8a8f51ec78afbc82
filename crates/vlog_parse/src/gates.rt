// The gates of an `assign`.
ghost use Rattle.std.specs.Prelude.{◌≡◌, [], ◌∷◌, ◌++◌, length, IfOk, OnOk};
ghost use Rattle.vlog_parse.specs.inner.Machine.{joined_part, held, made, settled_gates, settled_pin, unwound};
ghost use Rattle.vlog_parse.specs.inner.Machine.{unwound_frames};
ghost use Rattle.vlog_parse.specs.inner.Machine.{and_held, driven, or_held, with_part, xor_held};
ghost use Rattle.net_core.specs.declared.gate.GateKind.TheVariants as gate;

use crate::stack::Stack;
use crate::state::{Frame, Level, Part};
use net_core::GateKind;
use pbs_base::{Listed, Memory};
use std::alloc::Global;
use vlog_text::{RawGate, RawGates, RawName, RawPin, RawPins, Target};

// The number that a new gate takes.
fn number_of(gates: &RawGates) -> Result<u32, Memory>
    ensures { IfOk result (λ n. n ≡ length gates.now) }
{
    let count = gates.len();
    if count > 4_294_967_294 {
        return Err(Memory);
    }
    Ok(count as u32)
}

// The pin that reads the part. The part's own gate is found.
fn settle(part: Part, gates: &mut RawGates) -> Result<RawPin, Memory>
    ensures pin { IfOk result (λ p. p ≡ settled_pin (length gates.old) part) }
    ensures gates { OnOk result (gates.new ≡ settled_gates part gates.old) }
{
    match part {
        Part::Pin(pin) => Ok(pin),
        Part::Made(kind, pins) => {
            let number = number_of(gates)?;
            gates.push(RawGate {
                kind,
                target: Target::Inner,
                pins,
            })?;
            Ok(RawPin::Prior(number))
        }
    }
}

/// Puts the pin that reads the part behind the others.
pub(crate) fn put(pins: &mut RawPins, part: Part, gates: &mut RawGates) -> Result<(), Memory>
    ensures pins { OnOk result (pins.new ≡ with_part pins.old (held part gates.old)) }
    ensures gates { OnOk result (gates.new ≡ settled_gates part gates.old) }
{
    let pin = settle(part, gates)?;
    pins.push(pin)
}

// The part, with those before it.
fn join(kind: GateKind, before: RawPins, part: Part, gates: &mut RawGates) -> Result<Part, Memory>
    ensures { IfOk result (λ p. held p gates.new ≡ joined_part kind before (held part gates.old)) }
{
    if before.len() == 0 {
        return Ok(part);
    }
    let mut pins = before;
    put(&mut pins, part, gates)?;
    Ok(Part::Made(kind, pins))
}

/// What the parts of an `and` come to.
pub(crate) fn join_and(ands: RawPins, part: Part, gates: &mut RawGates) -> Result<Part, Memory>
    ensures { IfOk result (λ p. held p gates.new ≡ joined_part gate.And ands (held part gates.old)) }
{
    join(GateKind::And, ands, part, gates)
}

/// What the parts of an `xor` come to.
pub(crate) fn join_xor(
    xors: RawPins,
    ands: RawPins,
    part: Part,
    gates: &mut RawGates,
) -> Result<Part, Memory>
    ensures { IfOk result (λ p. held p gates.new
        ≡ joined_part gate.Xor xors (joined_part gate.And ands (held part gates.old))) }
{
    let all = join_and(ands, part, gates)?;
    join(GateKind::Xor, xors, all, gates)
}

/// What a whole level comes to.
pub(crate) fn join_level(level: Level, part: Part, gates: &mut RawGates) -> Result<Part, Memory>
    ensures { IfOk result (λ p. held p gates.new ≡ or_held level (held part gates.old)) }
{
    let odd = join_xor(level.xors, level.ands, part, gates)?;
    join(GateKind::Or, level.ors, odd, gates)
}

fn negate(alloc: Global, part: Part, gates: &mut RawGates) -> Result<Part, Memory>
    ensures { IfOk result (λ p. held p gates.new ≡ made gate.Not [] (held part gates.old)) }
{
    let mut pins = Listed::new(alloc);
    put(&mut pins, part, gates)?;
    Ok(Part::Made(GateKind::Not, pins))
}

/// Lets each `~` that is open take the part.
pub(crate) fn unwind(
    alloc: Global,
    frames: &mut Stack<Frame>,
    part: Part,
    gates: &mut RawGates,
) -> Result<Part, Memory>
    ensures part { IfOk result (λ p. held p gates.new ≡ unwound frames.old (held part gates.old)) }
    ensures frames { OnOk result (frames.new ≡ unwound_frames frames.old) }
{
    let mut taken = part;
    while let Some(frame) = frames.pop() {
        match frame {
            Frame::Negation => taken = negate(alloc, taken, gates)?,
            Frame::Bracket(level) => {
                frames.push(Frame::Bracket(level))?;
                return Ok(taken);
            }
        }
    }
    Ok(taken)
}

/// The gate that drives the target.
pub(crate) fn drive(alloc: Global, target: RawName, part: Part) -> Result<RawGate, Memory>
    ensures { IfOk result (λ g. g ≡ driven target part) }
{
    match part {
        Part::Made(kind, pins) => Ok(RawGate {
            kind,
            target: Target::Name(target),
            pins,
        }),
        Part::Pin(pin) => {
            let mut pins = Listed::new(alloc);
            pins.push(pin)?;
            Ok(RawGate {
                kind: GateKind::Buf,
                target: Target::Name(target),
                pins,
            })
        }
    }
}

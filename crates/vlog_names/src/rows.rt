// Names with a fault, list by list.
ghost use Rattle.std.specs.Prelude.{◌≡◌, map};
ghost use Rattle.std.specs.List.{filter_map, flat_map};
ghost use Rattle.vlog_text.specs.declared.raw.RawName.{RawName as Named};
ghost use Rattle.vlog_text.specs.declared.raw.RawGate.{RawGate as GateItem};
ghost use Rattle.vlog_text.specs.declared.raw.RawReg.{RawReg as RegItem};
ghost use Rattle.vlog_text.specs.Words.{pin_name, target_name};
ghost use Rattle.vlog_text.specs.Refusing.{earliest, refusals};
ghost use Rattle.vlog_names.specs.Names.{kinds_in};
ghost use Rattle.vlog_names.specs.inner.Steps.{has_fault};
ghost use Rattle.vlog_names.specs.inner.Rows.{named_pin, named_target, faulty};

use crate::kinds::{KindTable, is_clock};
use crate::note::note_if;
use pbs_base::{Refusal, Word};
use vlog_text::{RawGate, RawName, RawPin, RawReg, Target};

/// What may be wrong with a name, by as what its word is declared.
#[derive(Clone, Copy)]
pub enum Fault {
    Undeclared,
    NotPort,
    InputOrReg,
    NotReg,
    Clock,
}

fn has_fault(fault: Fault, kinds: &KindTable, word: &Word) -> bool
    ensures { result ≡ has_fault fault (kinds_in kinds.now) word.now }
{
    match fault {
        Fault::Undeclared => !kinds.of(word).any(),
        Fault::NotPort => kinds.of(word).wire || kinds.of(word).reg,
        Fault::InputOrReg => kinds.of(word).input || kinds.of(word).reg,
        Fault::NotReg => !kinds.of(word).reg,
        Fault::Clock => is_clock(word),
    }
}

/// Those of the names that have the fault.
pub(crate) fn note_names(
    fault: Fault,
    kinds: &KindTable,
    names: &[RawName],
    rule: u8,
    found: Option<Refusal>,
) -> Option<Refusal>
    ensures { result ≡ earliest found (refusals rule (faulty fault (kinds_in kinds.now) names.now)) }
{
    let mut found = found;
    for name in names {
        found = note_if(has_fault(fault, kinds, &name.word), name, rule, found);
    }
    found
}

/// Those of the names that gates drive.
pub(crate) fn note_gate_targets(
    fault: Fault,
    kinds: &KindTable,
    gates: &[RawGate],
    rule: u8,
    found: Option<Refusal>,
) -> Option<Refusal>
    ensures { result ≡ earliest found (refusals rule (faulty fault (kinds_in kinds.now)
        (filter_map (λ (g : GateItem). target_name g.target) gates.now))) }
{
    let mut found = found;
    for gate in gates {
        found = note_target(fault, kinds, &gate.target, rule, found);
    }
    found
}

fn note_target(
    fault: Fault,
    kinds: &KindTable,
    target: &Target,
    rule: u8,
    found: Option<Refusal>,
) -> Option<Refusal>
    ensures { result ≡ earliest found (refusals rule (faulty fault (kinds_in kinds.now)
        (named_target target.now))) }
{
    match target {
        Target::Name(name) => note_if(has_fault(fault, kinds, &name.word), name, rule, found),
        Target::Inner => found,
    }
}

/// Those of the registers' names.
pub(crate) fn note_reg_targets(
    fault: Fault,
    kinds: &KindTable,
    regs: &[RawReg],
    rule: u8,
    found: Option<Refusal>,
) -> Option<Refusal>
    ensures { result ≡ earliest found (refusals rule (faulty fault (kinds_in kinds.now)
        (map (λ (r : RegItem). r.target) regs.now))) }
{
    let mut found = found;
    for reg in regs {
        found = note_if(
            has_fault(fault, kinds, &reg.target.word),
            &reg.target,
            rule,
            found,
        );
    }
    found
}

fn note_pin(
    fault: Fault,
    kinds: &KindTable,
    pin: &RawPin,
    rule: u8,
    found: Option<Refusal>,
) -> Option<Refusal>
    ensures { result ≡ earliest found (refusals rule (faulty fault (kinds_in kinds.now) (named_pin pin.now))) }
{
    match pin {
        RawPin::Name(name) => note_if(has_fault(fault, kinds, &name.word), name, rule, found),
        RawPin::Const(_) | RawPin::Prior(_) => found,
    }
}

fn note_pins(
    fault: Fault,
    kinds: &KindTable,
    pins: &[RawPin],
    rule: u8,
    found: Option<Refusal>,
) -> Option<Refusal>
    ensures { result ≡ earliest found (refusals rule (faulty fault (kinds_in kinds.now)
        (filter_map pin_name pins.now))) }
{
    let mut found = found;
    for pin in pins {
        found = note_pin(fault, kinds, pin, rule, found);
    }
    found
}

/// Those of the names that gates read.
pub(crate) fn note_gate_pins(
    fault: Fault,
    kinds: &KindTable,
    gates: &[RawGate],
    rule: u8,
    found: Option<Refusal>,
) -> Option<Refusal>
    ensures { result ≡ earliest found (refusals rule (faulty fault (kinds_in kinds.now)
        (flat_map (λ (g : GateItem). filter_map pin_name g.pins) gates.now))) }
{
    let mut found = found;
    for gate in gates {
        found = note_pins(fault, kinds, gate.pins.as_slice(), rule, found);
    }
    found
}

/// Those of the names that registers take.
pub(crate) fn note_data(
    fault: Fault,
    kinds: &KindTable,
    regs: &[RawReg],
    rule: u8,
    found: Option<Refusal>,
) -> Option<Refusal>
    ensures { result ≡ earliest found (refusals rule (faulty fault (kinds_in kinds.now)
        (filter_map (λ (r : RegItem). pin_name r.wire) regs.now))) }
{
    let mut found = found;
    for reg in regs {
        found = note_pin(fault, kinds, &reg.wire, rule, found);
    }
    found
}

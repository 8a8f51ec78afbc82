// Lists of names that may stand once.
ghost use Rattle.std.specs.Prelude.{◌≡◌, IfOk, OnOk, Some, [], map};
ghost use Rattle.std.specs.List.{filter_map};
ghost use Rattle.vlog_text.specs.declared.raw.RawName.{RawName as Named};
ghost use Rattle.vlog_text.specs.declared.raw.RawGate.{RawGate as GateItem};
ghost use Rattle.vlog_text.specs.declared.raw.RawReg.{RawReg as RegItem};
ghost use Rattle.vlog_text.specs.Words.{target_name, repeated};
ghost use Rattle.vlog_text.specs.Refusing.{earliest, refusals};
ghost use Rattle.vlog_names.specs.Names.{first_in, IsFirsts};
ghost use Rattle.vlog_names.specs.inner.Steps.{again, Learns};

use crate::firsts::Firsts;
use crate::note::note_if;
use pbs_base::{Memory, Refusal};
use std::alloc::Global;
use vlog_text::{RawGate, RawName, RawReg, Target};

fn enter_name(
    firsts: &mut Firsts,
    alloc: Global,
    name: &RawName,
    place: usize,
    rule: u8,
    found: Option<Refusal>,
) -> Result<Option<Refusal>, Memory>
    ensures learns { OnOk result (Learns firsts.old firsts.new (Some name.now) place) }
    ensures found { IfOk result (λ f. f
        ≡ earliest found (refusals rule (again (first_in firsts.old) (Some name.now)))) }
{
    let is_new = firsts.enter(alloc, name, place)?;
    Ok(note_if(!is_new, name, rule, found))
}

fn enter_target(
    firsts: &mut Firsts,
    alloc: Global,
    target: &Target,
    place: usize,
    rule: u8,
    found: Option<Refusal>,
) -> Result<Option<Refusal>, Memory>
    ensures learns { OnOk result (Learns firsts.old firsts.new (target_name target.now) place) }
    ensures found { IfOk result (λ f. f
        ≡ earliest found (refusals rule (again (first_in firsts.old) (target_name target.now)))) }
{
    match target {
        Target::Name(name) => enter_name(firsts, alloc, name, place, rule, found),
        Target::Inner => Ok(found),
    }
}

/// The listed names, and those that are listed twice.
pub(crate) fn enter_ports(
    alloc: Global,
    ports: &[RawName],
    found: Option<Refusal>,
) -> Result<(Firsts, Option<Refusal>), Memory>
    ensures firsts { IfOk result (λ r. IsFirsts (map (λ (n : Named). Some n) ports.now) r.0) }
    ensures found { IfOk result (λ r. r.1 ≡ earliest found (refusals 4 (repeated [] ports.now))) }
{
    let mut firsts = Firsts::new(alloc);
    let mut found = found;
    for place in 0..ports.len() {
        found = enter_name(&mut firsts, alloc, &ports[place], place, 4, found)?;
    }
    Ok((firsts, found))
}

/// The names that gates drive, and those that are driven twice.
pub(crate) fn enter_gates(
    alloc: Global,
    gates: &[RawGate],
    found: Option<Refusal>,
) -> Result<(Firsts, Option<Refusal>), Memory>
    ensures firsts { IfOk result (λ r. IsFirsts (map (λ (g : GateItem). target_name g.target) gates.now) r.0) }
    ensures found { IfOk result (λ r. r.1
        ≡ earliest found (refusals 5 (repeated [] (filter_map (λ (g : GateItem). target_name g.target) gates.now)))) }
{
    let mut firsts = Firsts::new(alloc);
    let mut found = found;
    for place in 0..gates.len() {
        found = enter_target(&mut firsts, alloc, &gates[place].target, place, 5, found)?;
    }
    Ok((firsts, found))
}

/// The registers that are driven, and those that are driven twice.
pub(crate) fn enter_regs(
    alloc: Global,
    regs: &[RawReg],
    found: Option<Refusal>,
) -> Result<(Firsts, Option<Refusal>), Memory>
    ensures firsts { IfOk result (λ r. IsFirsts (map (λ (r : RegItem). Some r.target) regs.now) r.0) }
    ensures found { IfOk result (λ r. r.1
        ≡ earliest found (refusals 5 (repeated [] (map (λ (r : RegItem). r.target) regs.now)))) }
{
    let mut firsts = Firsts::new(alloc);
    let mut found = found;
    for place in 0..regs.len() {
        found = enter_name(&mut firsts, alloc, &regs[place].target, place, 5, found)?;
    }
    Ok((firsts, found))
}

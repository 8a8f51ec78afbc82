// Rule 5: what is not an input has one driver, of its kind.
ghost use Rattle.std.specs.Prelude.{◌≡◌, IfOk, Some, None, map, filter, not, ◌&&◌, ◌||◌, is_some};
ghost use Rattle.vlog_text.specs.declared.raw.RawDecl.{RawDecl as DeclItem};
ghost use Rattle.vlog_text.specs.declared.raw.RawGate.{RawGate as GateItem};
ghost use Rattle.vlog_text.specs.declared.raw.RawReg.{RawReg as RegItem};
ghost use Rattle.vlog_text.specs.Words.{target_name};
ghost use Rattle.vlog_text.specs.Standing.{is_input};
ghost use Rattle.vlog_text.specs.Refusing.{earliest, refusals, rule_5};
ghost use Rattle.vlog_names.specs.Names.{first_in, IsFirsts, KnowsKinds};

use crate::entering::{enter_gates, enter_regs};
use crate::firsts::Firsts;
use crate::kinds::KindTable;
use crate::note::note_if;
use crate::rows::{Fault, note_gate_targets, note_reg_targets};
use pbs_base::{Memory, Refusal};
use std::alloc::Global;
use vlog_text::{DeclKind, RawDecl, RawNetlist};

/// What drives names, once rule 5 was looked at.
#[derive(Drop)]
pub struct Driving {
    pub gates: Firsts,
    pub regs: Firsts,
    pub found: Option<Refusal>,
}

fn is_undriven(kind: DeclKind, by_gate: bool, by_reg: bool) -> bool
    ensures { result ≡ (not (is_input kind) && not (by_gate || by_reg)) }
{
    !matches!(kind, DeclKind::Input) && !(by_gate || by_reg)
}

// What isn't an input and has no driver.
fn note_undriven(
    gates: &Firsts,
    regs: &Firsts,
    decls: &[RawDecl],
    found: Option<Refusal>,
) -> Option<Refusal>
    ensures { result ≡ earliest found (refusals 5 (map (λ (d : DeclItem). d.name) (filter
        (λ (d : DeclItem). not (is_input d.kind) && not (is_some (first_in gates.now d.name.word)
        || is_some (first_in regs.now d.name.word))) decls.now))) }
{
    let mut found = found;
    for decl in decls {
        let by_gate = gates.has(&decl.name.word);
        let by_reg = regs.has(&decl.name.word);
        let is_undriven = is_undriven(decl.kind, by_gate, by_reg);
        found = note_if(is_undriven, &decl.name, 5, found);
    }
    found
}

/// Where rule 5 is broken first.
pub(crate) fn check_drivers(
    alloc: Global,
    raw: &RawNetlist,
    kinds: &KindTable,
) -> Result<Driving, Memory>
    requires { KnowsKinds raw.now.decls kinds.now }
    ensures gates { IfOk result (λ d. IsFirsts (map (λ (g : GateItem). target_name g.target) raw.now.gates) d.gates) }
    ensures regs { IfOk result (λ d. IsFirsts (map (λ (r : RegItem). Some r.target) raw.now.regs) d.regs) }
    ensures found { IfOk result (λ d. d.found ≡ earliest None (refusals 5 (rule_5 raw.now))) }
{
    let (gates, found) = enter_gates(alloc, raw.gates.as_slice(), None)?;
    let (regs, found) = enter_regs(alloc, raw.regs.as_slice(), found)?;
    let found = note_gate_targets(Fault::InputOrReg, kinds, raw.gates.as_slice(), 5, found);
    let found = note_reg_targets(Fault::NotReg, kinds, raw.regs.as_slice(), 5, found);
    let found = note_undriven(&gates, &regs, raw.decls.as_slice(), found);
    Ok(Driving { gates, regs, found })
}

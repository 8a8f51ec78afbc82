// Rule 4: names are declared once, and ports listed once.
ghost use Rattle.std.specs.Prelude.{◌≡◌, IfOk, Some, None, [], map, filter, not, ◌&&◌, is_some};
ghost use Rattle.vlog_text.specs.declared.raw.RawName.{RawName as Named};
ghost use Rattle.vlog_text.specs.declared.raw.RawDecl.{RawDecl as DeclItem};
ghost use Rattle.vlog_text.specs.Words.{repeated, uses};
ghost use Rattle.vlog_text.specs.Standing.{is_port};
ghost use Rattle.vlog_text.specs.Refusing.{earliest, refusals, rule_4};
ghost use Rattle.vlog_names.specs.Names.{first_in, kinds_in, IsFirsts, KnowsKinds};
ghost use Rattle.vlog_names.specs.inner.Rows.{faulty};

use crate::entering::enter_ports;
use crate::firsts::Firsts;
use crate::kinds::KindTable;
use crate::note::note_if;
use crate::rows::{
    Fault, note_data, note_gate_pins, note_gate_targets, note_names, note_reg_targets,
};
use pbs_base::{Memory, Refusal};
use std::alloc::Global;
use vlog_text::{DeclKind, RawDecl, RawNetlist};

/// What is known of names once rule 4 was looked at.
#[derive(Drop)]
pub struct Naming {
    pub kinds: KindTable,
    pub listed: Firsts,
    pub found: Option<Refusal>,
}

// As what words are declared, and the names that are declared twice.
fn declare(
    alloc: Global,
    decls: &[RawDecl],
    found: Option<Refusal>,
) -> Result<(KindTable, Option<Refusal>), Memory>
    ensures kinds { IfOk result (λ r. KnowsKinds decls.now r.0) }
    ensures found { IfOk result (λ r. r.1
        ≡ earliest found (refusals 4 (repeated [] (map (λ (d : DeclItem). d.name) decls.now)))) }
{
    let mut kinds = KindTable::new(alloc);
    let mut found = found;
    for decl in decls {
        let is_known = kinds.of(&decl.name.word).any();
        found = note_if(is_known, &decl.name, 4, found);
        kinds.add(alloc, decl)?;
    }
    Ok((kinds, found))
}

fn is_unlisted(kind: DeclKind, is_listed: bool) -> bool
    ensures { result ≡ (is_port kind && not is_listed) }
{
    matches!(kind, DeclKind::Input | DeclKind::Output) && !is_listed
}

// Inputs and outputs that aren't listed.
fn note_unlisted(listed: &Firsts, decls: &[RawDecl], found: Option<Refusal>) -> Option<Refusal>
    ensures { result ≡ earliest found (refusals 4 (map (λ (d : DeclItem). d.name) (filter
        (λ (d : DeclItem). is_port d.kind && not (is_some (first_in listed.now d.name.word))) decls.now))) }
{
    let mut found = found;
    for decl in decls {
        let is_unlisted = is_unlisted(decl.kind, listed.has(&decl.name.word));
        found = note_if(is_unlisted, &decl.name, 4, found);
    }
    found
}

/// Where rule 4 is broken first.
pub(crate) fn check_names(alloc: Global, raw: &RawNetlist) -> Result<Naming, Memory>
    ensures kinds { IfOk result (λ n. KnowsKinds raw.now.decls n.kinds) }
    ensures listed { IfOk result (λ n. IsFirsts (map (λ (p : Named). Some p) raw.now.ports) n.listed) }
    ensures found { IfOk result (λ n. n.found ≡ earliest None (refusals 4 (rule_4 raw.now))) }
{
    let (kinds, found) = declare(alloc, raw.decls.as_slice(), None)?;
    let (listed, found) = enter_ports(alloc, raw.ports.as_slice(), found)?;
    let found = note_undeclared(&kinds, raw, found);
    let found = note_names(Fault::NotPort, &kinds, raw.ports.as_slice(), 4, found);
    let found = note_unlisted(&listed, raw.decls.as_slice(), found);
    Ok(Naming {
        kinds,
        listed,
        found,
    })
}

// Names that are used or listed and not declared.
fn note_undeclared(kinds: &KindTable, raw: &RawNetlist, found: Option<Refusal>) -> Option<Refusal>
    ensures { result ≡ earliest found (refusals 4 (faulty Fault.Undeclared (kinds_in kinds.now) (uses raw.now))) }
{
    let fault = Fault::Undeclared;
    let found = note_names(fault, kinds, raw.ports.as_slice(), 4, found);
    let found = note_gate_targets(fault, kinds, raw.gates.as_slice(), 4, found);
    let found = note_reg_targets(fault, kinds, raw.regs.as_slice(), 4, found);
    let found = note_gate_pins(fault, kinds, raw.gates.as_slice(), 4, found);
    note_data(fault, kinds, raw.regs.as_slice(), 4, found)
}

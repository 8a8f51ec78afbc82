// Rules 7 and 8: the clock, and how many ports there are.
ghost use Rattle.std.specs.Prelude.{[], ◌∷◌, ◌&&◌, ◌≡◌, ◌<◌, ◌-◌, IfOk, None, map, filter, if◌then◌else◌, true};
ghost use Rattle.vlog_text.specs.declared.raw.RawDecl.{RawDecl as DeclItem};
ghost use Rattle.vlog_text.specs.Refusing.{earliest, refusals, rule_7, rule_8, at_place};
ghost use Rattle.vlog_names.specs.Names.{kinds_in, KnowsKinds};
ghost use Rattle.vlog_names.specs.inner.Checks.{is_counted};

use crate::kinds::{KindTable, is_clock, is_reset};
use crate::note::note_if;
use crate::rows::{Fault, note_data, note_gate_pins};
use pbs_base::{Memory, Refusal, Word};
use std::alloc::Global;
use vlog_text::{DeclKind, RawDecl, RawName, RawNetlist};

fn is_input(alloc: Global, kinds: &KindTable, word: &[u8]) -> Result<bool, Memory>
    ensures { IfOk result (λ b. b ≡ (kinds_in kinds.now word.now).input) }
{
    let word = Word::new(alloc, word)?;
    Ok(kinds.of(&word).input)
}

/// Where rule 7 is broken first.
pub(crate) fn check_clock(
    alloc: Global,
    raw: &RawNetlist,
    kinds: &KindTable,
) -> Result<Option<Refusal>, Memory>
    requires { KnowsKinds raw.now.decls kinds.now }
    ensures { IfOk result (λ found. found ≡ earliest None (refusals 7 (rule_7 raw.now))) }
{
    let has_clock = is_input(alloc, kinds, b"clk")?;
    let has_reset = is_input(alloc, kinds, b"rst")?;
    let found = note_missing(has_clock, has_reset, &raw.name);
    let found = note_gate_pins(Fault::Clock, kinds, raw.gates.as_slice(), 7, found);
    Ok(note_data(Fault::Clock, kinds, raw.regs.as_slice(), 7, found))
}

fn note_missing(has_clock: bool, has_reset: bool, name: &RawName) -> Option<Refusal>
    ensures { result ≡ earliest None (refusals 7 (if has_clock && has_reset then [] else name.now ∷ [])) }
{
    note_if(!(has_clock && has_reset), name, 7, None)
}

/// Which ports are counted.
#[derive(Clone, Copy)]
pub enum Counted {
    Inputs,
    Outputs,
}

fn is_counted(counted: Counted, decl: &RawDecl) -> bool
    ensures { result ≡ is_counted counted decl.now }
{
    match counted {
        Counted::Inputs => {
            matches!(decl.kind, DeclKind::Input)
                && !(is_clock(&decl.name.word) || is_reset(&decl.name.word))
        }
        Counted::Outputs => matches!(decl.kind, DeclKind::Output),
    }
}

fn less(left: usize, is_one: bool) -> usize
    requires { is_one ≡ true → 0 < left }
    ensures { result ≡ left - (if is_one then 1 else 0) }
{
    if is_one { left - 1 } else { left }
}

// The declaration of the port that is one too many.
fn note_one_too_many(
    decls: &[RawDecl],
    counted: Counted,
    most: usize,
    found: Option<Refusal>,
) -> Option<Refusal>
    ensures { result ≡ earliest found (refusals 8 (at_place most
        (map (λ (d : DeclItem). d.name) (filter (is_counted counted) decls.now)))) }
{
    let mut left = most;
    for decl in decls {
        let is_one = is_counted(counted, decl);
        if is_one && left == 0 {
            return note_if(true, &decl.name, 8, found);
        }
        left = less(left, is_one);
    }
    found
}

/// Where rule 8 is broken first.
pub(crate) fn check_counts(raw: &RawNetlist) -> Option<Refusal>
    ensures { result ≡ earliest None (refusals 8 (rule_8 raw.now)) }
{
    let found = note_one_too_many(raw.decls.as_slice(), Counted::Inputs, 64, None);
    note_one_too_many(raw.decls.as_slice(), Counted::Outputs, 128, found)
}

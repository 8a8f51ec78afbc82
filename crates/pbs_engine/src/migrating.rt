// Writes a specification in version 2 of the language.
ghost use Rattle.std.specs.Prelude.{◌≡◌, ◌≤◌, length};
ghost use Rattle.pbs_text.specs.Refusals.{refusal};
ghost use Rattle.pbs_engine.specs.Migrated.{IsMigrationOf, Migrates, whole_span};
ghost use Rattle.pbs_engine.specs.inner.AcceptedAs.{IsAcceptedAs};

use crate::fail::EngineFail;
use crate::front::{Accepted, accept};
use pbs_base::{Refusal, Span, Subject};
use pbs_print::print_spec;
use std::alloc::Global;

/// The most bytes of a specification.
const SPEC_BYTES: usize = 1_048_576;

/// Appends the canonical text, with version 2, of the specification: docs/LANGUAGE.md, "Canonical text". `Refused` comes
/// by the rules of `check`, and then by rule 20. After a failure `out` is as it was.
pub fn migrate(alloc: Global, text: &[u8], out: &mut Vec<u8>) -> Result<(), EngineFail>
    ensures { Migrates text.now out.old.items out.new.items result }
{
    match accept(alloc, text) {
        Ok(accepted) => migrate_accepted(alloc, text, accepted, out),
        Err(fail) => Err(fail),
    }
}

// Appends the canonical text of an accepted specification.
fn migrate_accepted(
    alloc: Global,
    text: &[u8],
    accepted: Accepted,
    out: &mut Vec<u8>,
) -> Result<(), EngineFail>
    requires { IsAcceptedAs text.now accepted }
    ensures { Migrates text.now out.old.items out.new.items result }
{
    let mut spec = accepted.spec;
    spec.version = 2;
    let mut migrated = Vec::new(alloc);
    match print_spec(alloc, &spec, &mut migrated) {
        Ok(()) => append_migrated(text, migrated.as_slice(), out),
        Err(_) => Err(EngineFail::Memory),
    }
}

// Appends a text that isn't longer than a specification may be.
fn append_migrated(text: &[u8], migrated: &[u8], out: &mut Vec<u8>) -> Result<(), EngineFail>
    requires { IsMigrationOf text.now migrated.now }
    ensures { Migrates text.now out.old.items out.new.items result }
{
    if migrated.len() > SPEC_BYTES {
        return Err(EngineFail::Refused(too_long(text)));
    }
    match out.extend_from_slice(migrated) {
        Ok(()) => Ok(()),
        Err(_) => Err(EngineFail::Memory),
    }
}

// Rule 20, which is broken by the whole of the text.
fn too_long(text: &[u8]) -> Refusal
    requires { length text.now ≤ 1048576 }
    ensures { result ≡ refusal 20 (whole_span text.now) }
{
    Refusal {
        subject: Subject::Spec,
        rule: 20,
        span: Span {
            start: 0,
            end: text.len() as u32,
        },
    }
}

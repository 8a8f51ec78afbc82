// Writes the map of a specification.
ghost use Rattle.pbs_engine.specs.Right.{Maps};
ghost use Rattle.pbs_engine.specs.inner.AcceptedAs.{IsAcceptedAs};

use crate::controller::controller_of_accepted;
use crate::fail::EngineFail;
use crate::front::{Accepted, accept};
use map_text::write_map;
use std::alloc::Global;

/// Appends the map of the specification, which says by which registers of its Verilog each place is told: docs/FORMATS.md,
/// "Map". `Refused` comes by the rules of `check`. After a failure `out` is as it was.
pub fn map(alloc: Global, text: &[u8], out: &mut Vec<u8>) -> Result<(), EngineFail>
    ensures { Maps text.now out.old.items out.new.items result }
{
    match accept(alloc, text) {
        Ok(accepted) => map_accepted(alloc, text, &accepted, out),
        Err(fail) => Err(fail),
    }
}

// Appends the map of an accepted specification.
fn map_accepted(
    alloc: Global,
    text: &[u8],
    accepted: &Accepted,
    out: &mut Vec<u8>,
) -> Result<(), EngineFail>
    requires { IsAcceptedAs text.now accepted.now }
    ensures { Maps text.now out.old.items out.new.items result }
{
    let made = match controller_of_accepted(alloc, text, accepted) {
        Ok(made) => made,
        Err(fail) => return Err(fail),
    };
    match write_map(alloc, &accepted.main.tree, &made.map, out) {
        Ok(()) => Ok(()),
        Err(_) => Err(EngineFail::Memory),
    }
}

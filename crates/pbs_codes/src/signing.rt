// The signatures of the places of a tree.
ghost use Rattle.std.specs.Prelude.{◌≡◌, ◌<◌, ℕ, [], length, slice_index_or, Contains, IfOk, false};
ghost use Rattle.pbs_codes.specs.inner.Signatures.{AreSignatures, is_start, start_number};
ghost use Rattle.pbs_edges.specs.declared.edge.Edge.{Edge};

use crate::signature::Signature;
use pbs_base::Memory;
use pbs_edges::Edge;
use std::alloc::Global;

// For each place whether it is one of the starts.
fn start_flags(alloc: Global, places: usize, starts: &[u32]) -> Result<Vec<bool>, Memory>
    requires { (p : ℕ) → Contains starts.now p → p < places }
    ensures size { IfOk result (λ flags. length flags.items ≡ places) }
    ensures each { IfOk result (λ flags. (p : ℕ) → p < places
        → slice_index_or flags.items p false ≡ is_start starts.now p) }
{
    let mut flags = vec![in alloc; false; places]?;
    for start in starts {
        flags[*start as usize] = true;
    }
    Ok(flags)
}

// For each place the signature of a place with no edges.
fn begun(alloc: Global, flags: &[bool]) -> Result<Vec<Signature>, Memory>
    ensures size { IfOk result (λ all. length all.items ≡ length flags.now) }
    ensures each { IfOk result (λ all. (p : ℕ) → p < length flags.now
        → slice_index_or all.items p [] ≡ start_number (slice_index_or flags.now p false)) }
{
    let mut all = Vec::new(alloc);
    for flag in flags {
        let number = if *flag { 1 } else { 0 };
        all.push(Signature::new(alloc, number)?)?;
    }
    Ok(all)
}

/// The signatures of the places by these starts and follow edges.
pub(crate) fn signatures(
    alloc: Global,
    places: usize,
    starts: &[u32],
    follows: &[Edge],
) -> Result<Vec<Signature>, Memory>
    requires starts { (p : ℕ) → Contains starts.now p → p < places }
    requires follows { (d : Edge) → Contains follows.now d → d.to < places }
    ensures { IfOk result (λ all. AreSignatures starts.now follows.now places all.items) }
{
    let flags = start_flags(alloc, places, starts)?;
    let mut all = begun(alloc, &flags)?;
    for edge in follows {
        all[edge.to as usize].push_both(edge.from, edge.node)?;
    }
    Ok(all)
}

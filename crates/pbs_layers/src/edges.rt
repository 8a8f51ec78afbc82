// The first places and the follow edges of main, and its effective terms.
use crate::front::expanded;
use crate::stop::Stop;
use pbs_edges::{Edge, edges, find_terms};
use std::alloc::{AllocError, Global};

fn put_starts(out: &mut String, starts: &[u32]) -> Result<(), AllocError> {
    for place in starts {
        write!(out, "{place} ")?;
    }
    Ok(())
}

fn put_edges(out: &mut String, follows: &[Edge]) -> Result<(), AllocError> {
    for edge in follows {
        let Edge { from, to, node } = *edge;
        write!(out, " {from}>{to}@{node}")?;
    }
    Ok(())
}

/// `edges`: the first places, and `FROM>TO@NODE` for each follow edge.
pub(crate) fn answer_edges(alloc: Global, text: &[u8]) -> Result<Vec<u8>, Stop> {
    let main = expanded(alloc, text)?;
    let edges = edges(alloc, &main)?;
    let mut out = String::new(alloc);
    put_starts(&mut out, edges.starts.as_slice())?;
    out.push_str("|")?;
    put_edges(&mut out, edges.follows.as_slice())?;
    out.push_str("\n")?;
    Ok(out.into_bytes())
}

/// `terms`: how many different effective terms there are.
pub(crate) fn answer_terms(alloc: Global, text: &[u8]) -> Result<Vec<u8>, Stop> {
    let main = expanded(alloc, text)?;
    let table = find_terms(alloc, &main)?;
    let count = table.codes.len();
    Ok(format!(in alloc; "terms {count}\n")?.into_bytes())
}

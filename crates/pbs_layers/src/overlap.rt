// The overlap rule, and which places are together.
ghost use Rattle.std.specs.Prelude.{◌≤◌, ◌<◌};

use crate::front::expanded;
use crate::stop::Stop;
use pbs_edges::edges;
use pbs_overlap::{Pairs, check_overlap};
use std::alloc::{AllocError, Global};

/// `overlap`: how many follow edges there are, where no scope breaks the overlap rule.
pub(crate) fn answer_overlap(alloc: Global, text: &[u8]) -> Result<Vec<u8>, Stop> {
    let main = expanded(alloc, text)?;
    let edges = edges(alloc, &main)?;
    let _pairs = check_overlap(alloc, &main, &edges)?;
    let count = edges.follows.len();
    Ok(format!(in alloc; "edges {count}\n")?.into_bytes())
}

fn put_row(out: &mut String, pairs: &Pairs, p: u32, places: u32) -> Result<(), AllocError>
    requires place { p < pairs.now.places }
    requires count { places ≤ pairs.now.places }
{
    for q in 0..places {
        out.push_str(if pairs.together(p, q) { "1" } else { "0" })?;
    }
    out.push_str("\n")
}

fn put_rows(out: &mut String, pairs: &Pairs, places: u32) -> Result<(), AllocError>
    requires { places ≤ pairs.now.places }
{
    for p in 0..places {
        put_row(out, pairs, p, places)?;
    }
    Ok(())
}

/// `together`: a row for each place, in it a digit for each place: 1 where the two are together.
pub(crate) fn answer_together(alloc: Global, text: &[u8]) -> Result<Vec<u8>, Stop> {
    let main = expanded(alloc, text)?;
    let edges = edges(alloc, &main)?;
    let pairs = check_overlap(alloc, &main, &edges)?;
    let mut out = String::new(alloc);
    put_rows(&mut out, &pairs, main.tree.count_places() as u32)?;
    Ok(out.into_bytes())
}

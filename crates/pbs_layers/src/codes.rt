// The plan of codes of places.
use crate::front::expanded;
use crate::stop::Stop;
use pbs_codes::plan;
use pbs_edges::edges;
use pbs_overlap::check_overlap;
use std::alloc::{AllocError, Global};

fn put_places(out: &mut String, name: &str, places: &[u32]) -> Result<(), AllocError> {
    out.push_str(name)?;
    for place in places {
        write!(out, " {place}")?;
    }
    out.push_str("\n")
}

/// `codes`: the never places, the leader of each place, and a line for each group of leaders.
pub(crate) fn answer_codes(alloc: Global, text: &[u8]) -> Result<Vec<u8>, Stop> {
    let main = expanded(alloc, text)?;
    let edges = edges(alloc, &main)?;
    let pairs = check_overlap(alloc, &main, &edges)?;
    let plan = plan(alloc, &main, &edges, &pairs)?;
    let mut out = String::new(alloc);
    put_places(&mut out, "never", plan.never.as_slice())?;
    put_places(&mut out, "leaders", plan.leaders.as_slice())?;
    for group in plan.groups.as_slice() {
        put_places(&mut out, "group", group.as_slice())?;
    }
    Ok(out.into_bytes())
}

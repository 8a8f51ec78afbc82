// Words, and files in memory, for the tests.
ghost use Rattle.std.specs.Prelude.{◌<◌};

use pbs_io::{MemShelf, MemSink};
use std::alloc::Global;
use std::test::Fail;

pub(crate) fn words(alloc: Global, all: &[&str]) -> Result<Vec<String>, Fail> {
    let mut words = Vec::new(alloc);
    for word in all {
        words.push(String::from_str(alloc, *word)?)?;
    }
    Ok(words)
}

/// The specification with one input and the trace of one vector.
pub(crate) const SEQUENCE: &[u8] = b"spec 1; input a; action x, y; main = {x}, [a], {y};";

pub(crate) const ONE: &[u8] = b"trace i_a\n1\n";

/// A shelf with a specification `s` and a trace `t`, whose reads move at most `step` bytes.
pub(crate) fn shelf(
    rt: &HostRuntime,
    step: usize,
    spec: &[u8],
    trace: &[u8],
) -> Result<MemShelf, Fail>
    requires { 0 < step }
{
    let mut shelf = MemShelf::new(rt.alloc(), step);
    shelf.add("s", spec).ok().ok_or("memory")?;
    shelf.add("t", trace).ok().ok_or("memory")?;
    Ok(shelf)
}

pub(crate) fn sink(rt: &HostRuntime, room: usize, step: usize) -> Result<MemSink, Fail>
    requires { 0 < step }
{
    Ok(MemSink::new(rt.alloc(), room, step).ok().ok_or("memory")?)
}

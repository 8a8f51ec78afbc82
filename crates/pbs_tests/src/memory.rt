// Want of memory: a command that finds none answers 5 and has written nothing, and its whole answer otherwise. With
// `rt try --test --fail-alloc N` allocation N fails; a run without that finds memory, and the other tests tell what is
// answered then.
use crate::files::{shelf, sink, words};
use pbs_cli::run;
use pbs_samples::{HANDSHAKE, HANDSHAKE_VERILOG};
use std::test::Fail;

const REQUEST: &[u8] = b"trace i_req i_ack\n00\n10\n00\n01\n";

const REPORT: &[u8] = b"0 -\n1 -\n2 a_start\n3 -\n4 a_done\nend 4\n";

const RESTART: &[u8] =
    b"spec 1; input req, ack, rst; action start, done, lost; main = (try ([~req]*, [req], {start}, [1]*, [ack], {done}) \
    abort ([~rst]*, [rst]) then ({lost}))*;";

// Whether the answer is this one, or 5 with nothing written.
fn ends(
    rt: &HostRuntime,
    line: &[&str],
    first: &[u8],
    status: u8,
    text: &[u8],
) -> Result<bool, Fail> {
    let words = words(rt.alloc(), line)?;
    let mut shelf = shelf(rt, 4096, first, REQUEST)?;
    let mut out = sink(rt, 4096, 512)?;
    let found = run(rt.alloc(), words.as_slice(), &mut shelf, &mut out);
    if found == 5 {
        return Ok(out.bytes().is_empty());
    }
    Ok(found == status && out.bytes() == text)
}

#[test]
fn traces(rt: HostRuntime) -> Result<(), Fail> {
    assert!(rt; ends(&rt, &["trace", "s", "t"], HANDSHAKE, 0, REPORT)?);
    Ok(())
}

#[test]
fn refuses(rt: HostRuntime) -> Result<(), Fail> {
    let line: &[u8] = b"spec refused rule 16 at 63..150\n";
    assert!(rt; ends(&rt, &["trace", "s", "t"], RESTART, 1, line)?);
    Ok(())
}

#[test]
fn compiles(rt: HostRuntime) -> Result<(), Fail> {
    assert!(rt; ends(&rt, &["compile", "s"], HANDSHAKE, 0, HANDSHAKE_VERILOG)?);
    Ok(())
}

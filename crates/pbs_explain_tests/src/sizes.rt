// A tree of 897 nodes, in which 256 sequences have a left part that covers every stretch and a right part that covers
// none, and a run of 128 vectors.
use crate::answers::{Answer, accepted, expanded, explained};
use pbs_explain::Item;
use std::test::Fail;

#[test]
fn long_run(rt: HostRuntime) -> Result<(), Fail> {
    let alloc = rt.alloc();
    let text: &[u8] = b"spec 1; input a; action y; prod c1 = [1]*, ([1]*, ([1]*, ([1]*, [0]))); \
        prod c2 = c1 | c1; prod c3 = c2 | c2; prod c4 = c3 | c3; prod c5 = c4 | c4; prod c6 = c5 | c5; \
        prod c7 = c6 | c6; main = c7, {y};";
    let main = expanded(alloc, text).ok_or("no tree")?;
    let run: [u64; 128] = [0; 128];
    let silent = matches!(explained(alloc, &main, &run, 0), Answer::Silent);
    assert!(rt; silent);
    let items: [Item; 128] = [Item::Take(0); 128];
    assert!(rt; accepted(alloc, &main, &run, 896, &items) == Some(false));
    Ok(())
}

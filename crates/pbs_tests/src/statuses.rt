// The statuses over an outside that never fails: docs/FORMATS.md, "Statuses".
use crate::files::{ONE, SEQUENCE, words};
use pbs_cli::run;
use pbs_io::{CalmShelf, CalmSink};
use std::test::Fail;

// On the calm shelf an absent file is empty, and the empty text is no specification.
#[test]
fn calm_outside(rt: HostRuntime) -> Result<(), Fail> {
    let mut shelf = CalmShelf::new(rt.alloc());
    shelf.add("s", SEQUENCE).ok().ok_or("memory")?;
    shelf.add("t", ONE).ok().ok_or("memory")?;
    let mut out = CalmSink::new();
    let sound = words(rt.alloc(), &["trace", "s", "t"])?;
    assert_eq!(rt; run(rt.alloc(), sound.as_slice(), &mut shelf, &mut out), 0);
    let absent = words(rt.alloc(), &["trace", "none", "t"])?;
    assert_eq!(rt; run(rt.alloc(), absent.as_slice(), &mut shelf, &mut out), 1);
    Ok(())
}

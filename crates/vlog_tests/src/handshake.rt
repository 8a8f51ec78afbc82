// The Verilog of a worked specification, and its fronts.
use crate::texts::{breaks_form, is_refused, written};
use pbs_samples::HANDSHAKE_VERILOG;
use std::alloc::Global;
use std::test::Fail;

// The length of the first front that isn't refused by rule 2 or 3.
fn first_taken(alloc: Global, text: &[u8]) -> Result<usize, Fail> {
    let mut front = Vec::new(alloc);
    for byte in text {
        if !breaks_form(alloc, front.as_slice()) {
            return Ok(front.len());
        }
        front.push(*byte)?;
    }
    Ok(front.len())
}

// Each front is refused for its form but the whole without its last newline. That and the whole are read as the same.
#[test]
fn fronts_of_the_controller(rt: HostRuntime) -> Result<(), Fail> {
    let alloc = rt.alloc();
    assert!(rt; is_refused(alloc, b"", 3, 0, 0));
    assert_eq!(rt; first_taken(alloc, HANDSHAKE_VERILOG)?, 731);
    let mut cut = Vec::from_slice(alloc, HANDSHAKE_VERILOG)?;
    assert_eq!(rt; cut.pop(), Some(b'\n'));
    assert_eq!(rt; cut.len(), 731);
    assert_eq!(rt;
        written(alloc, cut.as_slice())?.as_slice(),
        HANDSHAKE_VERILOG
    );
    assert_eq!(rt;
        written(alloc, HANDSHAKE_VERILOG)?.as_slice(),
        HANDSHAKE_VERILOG
    );
    Ok(())
}

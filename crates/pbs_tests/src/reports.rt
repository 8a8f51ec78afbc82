// The lines of a report.

use crate::files::sink;
use pbs_base::{Names, Word};
use std::alloc::Global;
use std::test::Fail;
use trace_text::{Held, hold_end, hold_row};

// Three names of outputs.
fn outputs(alloc: Global) -> Result<Names, Fail> {
    let mut names = Names::new(alloc);
    for bytes in [b"a_x", b"a_y", b"o_z"] {
        let word = Word::new(alloc, bytes).ok().ok_or("memory")?;
        names.add(word).ok().ok_or("memory")?;
    }
    Ok(names)
}

// A row's number, and which outputs are 1 in it.
#[test]
fn report_lines(rt: HostRuntime) -> Result<(), Fail> {
    let names = outputs(rt.alloc())?;
    assert!(rt; names.len() == 3);
    let mut out = sink(&rt, 100, 6)?;
    let mut held = Held::new(rt.alloc()).ok().ok_or("memory")?;
    let rows: [(u64, u128); 3] = [(0, 0), (18_446_744_073_709_551_615, 0b101), (2, 0b1010)];
    for (row, on) in rows {
        assert!(rt; hold_row(&mut held, &mut out, row, &names, on).is_ok());
    }
    assert!(rt; hold_end(&mut held, &mut out, 10).is_ok());
    assert_eq!(rt; out.bytes().len(), 0);
    assert!(rt; held.flush(&mut out).is_ok());
    assert_eq!(rt;
        out.bytes(),
        b"0 -\n18446744073709551615 a_x o_z\n2 a_y\nend 10\n".as_slice()
    );
    Ok(())
}

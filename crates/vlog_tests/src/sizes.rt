// The netlist with the most ports.
use crate::texts::{push_times, written};
use std::alloc::Global;
use std::test::Fail;

// A comma and a name for each number, rising from 100.
fn push_rising(alloc: Global, text: &mut Vec<u8>, letter: &str, count: u8) -> Result<(), Fail> {
    for n in 0..count {
        let name = format!(in alloc; ", {letter}{}", 100 + u32::from(n))?;
        push_times(text, name.as_bytes(), 1)?;
    }
    Ok(())
}

// The same names, falling to 100.
fn push_falling(alloc: Global, text: &mut Vec<u8>, letter: &str, count: u8) -> Result<(), Fail> {
    for n in 0..count {
        let name = format!(in alloc; ", {letter}{}", 99 + u32::from(count - n))?;
        push_times(text, name.as_bytes(), 1)?;
    }
    Ok(())
}

fn push_gates(alloc: Global, text: &mut Vec<u8>, count: u8) -> Result<(), Fail> {
    for n in 0..count {
        let item = format!(in alloc; "buf (o{}, rst); ", 100 + u32::from(n))?;
        push_times(text, item.as_bytes(), 1)?;
    }
    Ok(())
}

// A module with so many inputs besides clk and rst and so many outputs besides y, which are listed in rising and
// declared in falling order, and these items.
fn ports(alloc: Global, inputs: u8, outputs: u8, items: &[u8]) -> Result<Vec<u8>, Fail> {
    let mut text = Vec::new(alloc);
    push_times(&mut text, b"module m (clk, rst, y", 1)?;
    push_rising(alloc, &mut text, "i", inputs)?;
    push_rising(alloc, &mut text, "o", outputs)?;
    push_times(&mut text, b"); input clk, rst", 1)?;
    push_falling(alloc, &mut text, "i", inputs)?;
    push_times(&mut text, b"; output y", 1)?;
    push_falling(alloc, &mut text, "o", outputs)?;
    push_times(&mut text, b"; ", 1)?;
    push_gates(alloc, &mut text, outputs)?;
    push_times(&mut text, items, 1)?;
    push_times(&mut text, b"endmodule", 1)?;
    Ok(text)
}

#[test]
fn many_ports(rt: HostRuntime) -> Result<(), Fail> {
    let alloc = rt.alloc();
    let full = ports(alloc, 64, 127, b"assign y = i100 & i163; ")?;
    let once = written(alloc, full.as_slice())?;
    assert!(rt;
        once.as_slice()
            .starts_with(b"module pbs (clk, rst, i100, i101, ")
    );
    assert_eq!(rt;
        written(alloc, once.as_slice())?.as_slice(),
        once.as_slice()
    );
    Ok(())
}

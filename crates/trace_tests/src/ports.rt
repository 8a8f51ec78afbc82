// As many ports as a netlist may have.
use crate::names::named;
use crate::pieces::{Wanted, finds};
use pbs_base::{Names, Word};
use std::alloc::Global;
use std::test::Fail;
use trace_text::Row;

// The ports `p0` to `p63`.
fn numbered(alloc: Global) -> Result<Names, Fail> {
    let mut names = Names::new(alloc);
    for k in 0..64u32 {
        let name = format!(in alloc; "p{k}")?;
        let word = Word::new(alloc, name.as_bytes()).ok().ok_or("memory")?;
        names.add(word).ok().ok_or("memory")?;
    }
    Ok(names)
}

// The header of these ports, with the first one last, and then so many zeros and a one.
fn turned(alloc: Global, zeros: u32) -> Result<Vec<u8>, Fail> {
    let mut text = Vec::from_slice(alloc, b"trace")?;
    for k in 1..64u32 {
        let name = format!(in alloc; " p{k}")?;
        text.extend_from_slice(name.as_bytes())?;
    }
    text.extend_from_slice(b" p0\n")?;
    for _ in 0..zeros {
        text.push(b'0')?;
    }
    text.push(b'1')?;
    Ok(text)
}

#[test]
fn most_ports(rt: HostRuntime) -> Result<(), Fail> {
    let alloc = rt.alloc();
    let ports = numbered(alloc)?;
    assert!(rt; ports.len() == 64);
    let text = turned(alloc, 63)?;
    let wanted = Wanted::Rows(&[Row::Vector(1)]);
    assert!(rt; finds(alloc, &ports, &[text.as_slice()], wanted)?);
    let mut text = turned(alloc, 62)?;
    text.extend_from_slice(b"0\n")?;
    let wanted = Wanted::Rows(&[Row::Vector(9_223_372_036_854_775_808)]);
    assert!(rt; finds(alloc, &ports, &[text.as_slice()], wanted)?);
    let few = named(alloc, &[b"p63"])?;
    assert!(rt; few.len() == 1);
    let wanted = Wanted::Rows(&[Row::Vector(1), Row::Vector(0)]);
    assert!(rt; finds(alloc, &few, &[b"trace p63\n1\n0\n"], wanted)?);
    Ok(())
}

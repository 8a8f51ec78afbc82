// Words, lists and terms.
use bool_terms::Term;
use pbs_base::{Listed, Names, Word};
use std::alloc::Global;
use std::test::Fail;

fn word(alloc: Global, bytes: &[u8]) -> Result<Word, Fail> {
    Ok(Word::new(alloc, bytes).ok().ok_or("memory")?)
}

#[test]
fn names_differ(rt: HostRuntime) -> Result<(), Fail> {
    let alloc = rt.alloc();
    let mut names = Names::new(alloc);
    assert_eq!(rt; names.add(word(alloc, b"req")?), Ok(true));
    assert_eq!(rt; names.add(word(alloc, b"req")?), Ok(false));
    assert_eq!(rt; names.add(word(alloc, b"ack")?), Ok(true));
    assert_eq!(rt; names.len(), 2);
    assert_eq!(rt; names.find(&word(alloc, b"ack")?), Some(1));
    assert_eq!(rt; names.find(&word(alloc, b"re")?), None);
    let copy = names.copy(alloc).ok().ok_or("memory")?;
    assert_eq!(rt; copy.len(), 2);
    assert_eq!(rt; copy.get(0).ok_or("absent")?.bytes(), b"req".as_slice());
    assert_eq!(rt; copy.get(1).ok_or("absent")?.bytes(), b"ack".as_slice());
    assert!(rt; copy.get(2).is_none());
    Ok(())
}

#[test]
fn words_and_lists(rt: HostRuntime) -> Result<(), Fail> {
    let alloc = rt.alloc();
    assert_eq!(rt; word(alloc, b"req")?.bytes(), b"req".as_slice());
    assert_eq!(rt; word(alloc, b"")?.bytes().len(), 0);
    let mut list: Listed<u32> = Listed::new(alloc);
    assert_eq!(rt; list.len(), 0);
    list.push(7).ok().ok_or("memory")?;
    assert_eq!(rt; list.len(), 1);
    assert_eq!(rt; list.get(0), Some(&7));
    assert_eq!(rt; list.as_slice(), [7].as_slice());
    Ok(())
}

// ~i0 & i2 | i3 & 0 | 1 & i5, over vectors whose bit n is input n.
#[test]
fn terms(rt: HostRuntime) -> Result<(), Fail> {
    let alloc = rt.alloc();
    let left = Term::And(
        Box::new(alloc, Term::Not(Box::new(alloc, Term::Input(0))?))?,
        Box::new(alloc, Term::Input(2))?,
    );
    let middle = Term::And(
        Box::new(alloc, Term::Input(3))?,
        Box::new(alloc, Term::Const(false))?,
    );
    let right = Term::And(
        Box::new(alloc, Term::Const(true))?,
        Box::new(alloc, Term::Input(5))?,
    );
    let pair = Term::Or(Box::new(alloc, left)?, Box::new(alloc, middle)?);
    let term = Term::Or(Box::new(alloc, pair)?, Box::new(alloc, right)?);
    let copy = term.copy(alloc).ok().ok_or("memory")?;
    for (vector, value) in [
        (0b000000, false),
        (0b000100, true),
        (0b000101, false),
        (0b001000, false),
        (0b100001, true),
    ] {
        assert_eq!(rt; term.holds(vector), value);
        assert_eq!(rt; copy.holds(vector), value);
    }
    assert_eq!(rt; copy.inputs(), 0b101101);
    Ok(())
}

// The implementations of the outside: docs/ARCHITECTURE.md, "The outside".
use crate::files::{shelf, sink};
use pbs_base::{Refusal, Span, Subject};
use pbs_io::{
    CalmShelf, CalmSink, FileShelf, ReadFail, Shelf, Sink, StdSink, read_all, write_all,
    write_refusal,
};
use std::fs;
use std::test::Fail;

#[test]
fn mem_shelf_moves_steps(rt: HostRuntime) -> Result<(), Fail> {
    let mut shelf = shelf(&rt, 3, b"hello", b"tail")?;
    let mut buffer = [0u8; 4];
    assert!(rt; shelf.open_slot(0, "s").is_ok());
    assert!(rt; shelf.open_slot(1, "t").is_ok());
    assert_eq!(rt; shelf.read_slot(0, &mut buffer), Ok(3));
    assert!(rt; buffer.starts_with(b"hel"));
    let mut short = [0u8; 2];
    assert_eq!(rt; shelf.read_slot(1, &mut short), Ok(2));
    assert!(rt; short.starts_with(b"ta"));
    assert_eq!(rt; shelf.read_slot(0, &mut buffer), Ok(2));
    assert!(rt; buffer.starts_with(b"lo"));
    assert_eq!(rt; shelf.read_slot(0, &mut buffer), Ok(0));
    Ok(())
}

// No file stands in a slot before one is opened there.
#[test]
fn mem_shelf_begins_empty(rt: HostRuntime) -> Result<(), Fail> {
    let mut shelf = shelf(&rt, 3, b"hello", b"tail")?;
    let mut buffer = [0u8; 4];
    assert!(rt; shelf.read_slot(0, &mut buffer).is_err());
    assert!(rt; shelf.open_slot(0, "none").is_err());
    assert!(rt; shelf.read_slot(0, &mut buffer).is_err());
    Ok(())
}

// An open begins the file again, and a failed one empties the slot.
#[test]
fn mem_shelf_opens_again(rt: HostRuntime) -> Result<(), Fail> {
    let mut shelf = shelf(&rt, 3, b"hello", b"tail")?;
    let mut buffer = [0u8; 4];
    assert!(rt; shelf.open_slot(0, "t").is_ok());
    assert_eq!(rt; shelf.read_slot(0, &mut buffer), Ok(3));
    assert!(rt; shelf.open_slot(0, "t").is_ok());
    assert_eq!(rt; shelf.read_slot(0, &mut buffer), Ok(3));
    assert!(rt; shelf.open_slot(0, "none").is_err());
    assert!(rt; shelf.read_slot(0, &mut buffer).is_err());
    Ok(())
}

#[test]
fn mem_shelf_fails_as_told(rt: HostRuntime) -> Result<(), Fail> {
    let mut shelf = shelf(&rt, 3, b"hello", b"tail")?;
    shelf.fail_at(0).ok().ok_or("memory")?;
    shelf.fail_at(2).ok().ok_or("memory")?;
    let mut buffer = [0u8; 4];
    assert!(rt; shelf.open_slot(0, "s").is_err());
    assert!(rt; shelf.open_slot(0, "s").is_ok());
    assert!(rt; shelf.read_slot(0, &mut buffer).is_err());
    // A read that fails takes nothing.
    assert_eq!(rt; shelf.read_slot(0, &mut buffer), Ok(3));
    assert!(rt; buffer.starts_with(b"hel"));
    Ok(())
}

#[test]
fn mem_sink_fills_its_room(rt: HostRuntime) -> Result<(), Fail> {
    let mut out = sink(&rt, 10, 4)?;
    assert_eq!(rt; out.bytes().len(), 0);
    assert_eq!(rt; out.put(b"abcdef"), Ok(4));
    assert_eq!(rt; out.put(b"gh"), Ok(2));
    assert_eq!(rt; out.put(b"ijklmn"), Ok(4));
    assert!(rt; out.put(b"o").is_err());
    assert_eq!(rt; out.bytes(), b"abcdghijkl".as_slice());
    Ok(())
}

#[test]
fn mem_sink_fails_as_told(rt: HostRuntime) -> Result<(), Fail> {
    let mut out = sink(&rt, 10, 4)?;
    out.fail_at(0).ok().ok_or("memory")?;
    assert!(rt; out.put(b"ab").is_err());
    assert_eq!(rt; out.put(b"ab"), Ok(2));
    assert_eq!(rt; out.bytes(), b"ab".as_slice());
    Ok(())
}

#[test]
fn calm_ones_never_fail(rt: HostRuntime) -> Result<(), Fail> {
    let mut shelf = CalmShelf::new(rt.alloc());
    shelf.add("s", b"hello").ok().ok_or("memory")?;
    let mut buffer = [0u8; 8];
    assert_eq!(rt; shelf.read_slot(0, &mut buffer), Ok(0));
    assert!(rt; shelf.open_slot(0, "none").is_ok());
    assert_eq!(rt; shelf.read_slot(0, &mut buffer), Ok(0));
    assert!(rt; shelf.open_slot(0, "s").is_ok());
    let mut bytes = Vec::new(rt.alloc());
    assert_eq!(rt; read_all(rt.alloc(), &mut shelf, 0, 5, &mut bytes), Ok(()));
    assert_eq!(rt; bytes.as_slice(), b"hello".as_slice());
    let mut out = CalmSink::new();
    assert_eq!(rt; out.put(b"hello"), Ok(5));
    Ok(())
}

#[test]
fn reads_to_the_end(rt: HostRuntime) -> Result<(), Fail> {
    let cases: [(usize, Result<(), ReadFail>, &[u8]); 4] = [
        (6, Ok(()), b"hello"),
        (5, Ok(()), b"hello"),
        (4, Err(ReadFail::TooLong), b"hell"),
        (0, Err(ReadFail::TooLong), b""),
    ];
    for (limit, answer, read) in cases {
        let mut shelf = shelf(&rt, 2, b"hello", b"")?;
        assert!(rt; shelf.open_slot(0, "s").is_ok());
        let mut bytes = Vec::new(rt.alloc());
        assert_eq!(rt;
            read_all(rt.alloc(), &mut shelf, 0, limit, &mut bytes),
            answer
        );
        assert_eq!(rt; bytes.as_slice(), read);
    }
    let mut shelf = shelf(&rt, 2, b"hello", b"")?;
    shelf.fail_at(2).ok().ok_or("memory")?;
    assert!(rt; shelf.open_slot(0, "s").is_ok());
    let mut bytes = Vec::new(rt.alloc());
    assert_eq!(rt;
        read_all(rt.alloc(), &mut shelf, 0, 9, &mut bytes),
        Err(ReadFail::Fault)
    );
    assert_eq!(rt; bytes.as_slice(), b"he".as_slice());
    Ok(())
}

#[test]
fn writes_whole_pieces(rt: HostRuntime) -> Result<(), Fail> {
    let mut out = sink(&rt, 12, 5)?;
    assert!(rt; write_all(&mut out, b"hello world").is_ok());
    assert!(rt; write_all(&mut out, b"").is_ok());
    assert!(rt; write_all(&mut out, b"!?").is_err());
    assert_eq!(rt; out.bytes(), b"hello world!".as_slice());
    Ok(())
}

#[test]
fn writes_refusals(rt: HostRuntime) -> Result<(), Fail> {
    let cases: [(Subject, &[u8]); 3] = [
        (Subject::Spec, b"spec refused rule 5 at 17..4294967295\n"),
        (Subject::Trace, b"trace refused rule 5 at 17..4294967295\n"),
        (
            Subject::Netlist,
            b"netlist refused rule 5 at 17..4294967295\n",
        ),
    ];
    for (subject, text) in cases {
        let mut out = sink(&rt, 100, 7)?;
        let span = Span {
            start: 17,
            end: 4_294_967_295,
        };
        let refusal = Refusal {
            subject,
            rule: 5,
            span,
        };
        assert!(rt; write_refusal(&mut out, &refusal).is_ok());
        assert_eq!(rt; out.bytes(), text);
    }
    Ok(())
}

#[test]
fn file_shelf_reads_a_file(rt: HostRuntime) -> Result<(), Fail> {
    let path = "pbs_tests_file.tmp";
    fs::write(&rt, path, b"hello\n")?;
    let mut shelf = FileShelf::new(&rt);
    let mut buffer = [0u8; 8];
    assert!(rt; shelf.read_slot(0, &mut buffer).is_err());
    assert!(rt; shelf.open_slot(0, "pbs_tests_absent.tmp").is_err());
    assert!(rt; shelf.open_slot(0, path).is_ok());
    assert!(rt; shelf.open_slot(1, path).is_ok());
    let mut bytes = Vec::new(rt.alloc());
    assert_eq!(rt;
        read_all(rt.alloc(), &mut shelf, 0, 100, &mut bytes),
        Ok(())
    );
    assert_eq!(rt; bytes.as_slice(), b"hello\n".as_slice());
    let mut again = Vec::new(rt.alloc());
    assert_eq!(rt;
        read_all(rt.alloc(), &mut shelf, 1, 4, &mut again),
        Err(ReadFail::TooLong)
    );
    assert_eq!(rt; again.as_slice(), b"hell".as_slice());
    fs::remove_file(&rt, path)?;
    Ok(())
}

#[test]
fn std_sink_takes_a_piece(rt: HostRuntime) -> Result<(), Fail> {
    let mut out = StdSink::new(&rt);
    assert!(rt; write_all(&mut out, b"written by a test\n").is_ok());
    Ok(())
}

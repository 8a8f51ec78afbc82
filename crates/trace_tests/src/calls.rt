// What single calls use and answer.
ghost use Rattle.std.specs.Prelude.{◌≡◌, ◌≤◌, length};
ghost use Rattle.trace_text.specs.declared.answers.Phase.TheVariants.{Header, Rows};

use crate::names::{named, refusal};
use pbs_base::Names;
use std::alloc::Global;
use std::test::Fail;
use trace_text::{Head, Row, TraceReader};

/// A piece of a text, whether it is the last one, how many of its bytes a call uses, what the call answers, and how
/// many bytes the reader has then used.
type Call<A> = (&'static [u8], bool, usize, A, usize);

// Whether these calls for rows use and answer so.
fn rows_use(reader: &mut TraceReader, calls: &[Call<Row>]) -> bool
    requires { reader.old.phase ≡ Rows }
{
    let [(piece, last, used, answer, so_far), more @ ..] = calls else {
        return true;
    };
    let (n, row) = reader.next_row(*piece, *last);
    if n != *used || row != *answer || reader.bytes_used() != *so_far {
        return false;
    }
    match row {
        Row::More => rows_use(reader, more),
        Row::Vector(_) => rows_use(reader, more),
        Row::Reset => rows_use(reader, more),
        Row::End | Row::Refused(_) => more.is_empty(),
    }
}

// The same of calls for the header, up to `Ready`, and then of calls for rows.
fn calls_use(
    reader: &mut TraceReader,
    heads: &[Call<Head>],
    rows: &[Call<Row>],
) -> Result<bool, Fail>
    requires { reader.old.phase ≡ Header }
{
    let [(piece, last, used, answer, so_far), more @ ..] = heads else {
        return Ok(rows.is_empty());
    };
    let Ok((n, head)) = reader.header(*piece, *last) else {
        return Err("memory".into());
    };
    if n != *used || head != *answer || reader.bytes_used() != *so_far {
        return Ok(false);
    }
    match head {
        Head::More => calls_use(reader, more, rows),
        Head::Ready => Ok(more.is_empty() && rows_use(reader, rows)),
        Head::Refused(_) => Ok(more.is_empty() && rows.is_empty()),
    }
}

// The same of a new reader.
fn reader_uses(
    alloc: Global,
    ports: &Names,
    heads: &[Call<Head>],
    rows: &[Call<Row>],
) -> Result<bool, Fail>
    requires { length ports.now ≤ 64 }
{
    let Ok(mut reader) = TraceReader::new(alloc, ports) else {
        return Err("memory".into());
    };
    if reader.bytes_used() != 0 {
        return Ok(false);
    }
    calls_use(&mut reader, heads, rows)
}

// A call uses its piece up to and with the end of the line.
#[test]
fn bytes_used(rt: HostRuntime) -> Result<(), Fail> {
    let alloc = rt.alloc();
    let ports = named(alloc, &[b"a", b"b"])?;
    assert!(rt; ports.len() == 2);
    let heads: [Call<Head>; 3] = [
        (b"trace b", false, 7, Head::More, 7),
        (b"", false, 0, Head::More, 7),
        (b" a\n01\n1", false, 3, Head::Ready, 10),
    ];
    let rows: [Call<Row>; 5] = [
        (b"01\n1", false, 3, Row::Vector(1), 13),
        (b"1", false, 1, Row::More, 14),
        (b"0\nr", false, 2, Row::Vector(2), 16),
        (b"r", true, 1, Row::Reset, 17),
        (b"", true, 0, Row::End, 17),
    ];
    assert!(rt; reader_uses(alloc, &ports, &heads, &rows)?);
    Ok(())
}

// Why the first row behind the header `trace a b` is refused, if it is, where this is all of it that was given.
fn refused_row(alloc: Global, ports: &Names, row: &[u8]) -> Result<Row, Fail>
    requires { length ports.now ≤ 64 }
{
    let Ok(mut reader) = TraceReader::new(alloc, ports) else {
        return Err("memory".into());
    };
    let Ok((_, Head::Ready)) = reader.header(b"trace a b\n", false) else {
        return Err("a header".into());
    };
    let (_, found) = reader.next_row(row, false);
    Ok(found)
}

// A bad byte is refused before its line or its piece is ended.
#[test]
fn refused_at_once(rt: HostRuntime) -> Result<(), Fail> {
    let alloc = rt.alloc();
    let ports = named(alloc, &[b"a", b"b"])?;
    assert!(rt; ports.len() == 2);
    let found = refused_row(alloc, &ports, b"0r")?;
    assert_eq!(rt; found, Row::Refused(refusal(3, 11, 12)));
    Ok(())
}

// A bad header is refused with its line.
#[test]
fn refused_with_its_line(rt: HostRuntime) -> Result<(), Fail> {
    let alloc = rt.alloc();
    let ports = named(alloc, &[b"a", b"b"])?;
    assert!(rt; ports.len() == 2);
    let Ok(mut reader) = TraceReader::new(alloc, &ports) else {
        return Err("memory".into());
    };
    let Ok((6, Head::More)) = reader.header(b"x  y z", false) else {
        return Err("the front of a bad header".into());
    };
    let Ok((_, head)) = reader.header(b"\n", false) else {
        return Err("memory".into());
    };
    assert_eq!(rt; head, Head::Refused(refusal(2, 0, 6)));
    Ok(())
}

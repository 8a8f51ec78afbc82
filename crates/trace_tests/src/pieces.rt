// What a reader answers to a text in pieces.
ghost use Rattle.std.specs.Prelude.{◌≡◌, ◌≤◌, length, IfOk};
ghost use Rattle.trace_text.specs.States.{head_phase, row_phase};
ghost use Rattle.trace_text.specs.declared.answers.Phase.TheVariants.{Header, Rows};

use crate::names::refusal;
use pbs_base::Names;
use std::alloc::Global;
use std::test::Fail;
use trace_text::{Head, Row, TraceReader};

/// What is to be found in a text: its rows, its rows up to where one is refused by rule 3, or where its header is
/// refused by rule 2.
#[derive(Clone, Copy)]
pub(crate) enum Wanted<'w> {
    Rows(&'w [Row]),
    RowsTo(&'w [Row], u32, u32),
    NoHeader(u32, u32),
}

/// Reads the header, and answers how much of its last piece is left, and the pieces behind that. The last of the pieces
/// ends the text.
pub(crate) fn read_head<'p>(
    reader: &mut TraceReader,
    pieces: &'p [&'p [u8]],
) -> Result<(Head, &'p [u8], &'p [&'p [u8]]), Fail>
    requires { reader.old.phase ≡ Header }
    ensures { IfOk result (λ found. reader.new.phase ≡ head_phase found.0) }
{
    let [piece, behind @ ..] = pieces else {
        return Ok((Head::More, b"", pieces));
    };
    let Ok((used, head)) = reader.header(*piece, behind.is_empty()) else {
        return Err("memory".into());
    };
    match head {
        Head::More => read_head(reader, behind),
        _ => Ok((head, &piece[used..], behind)),
    }
}

// Reads a row that begins with this piece.
fn read_row<'p>(
    reader: &mut TraceReader,
    piece: &'p [u8],
    behind: &'p [&'p [u8]],
) -> (Row, &'p [u8], &'p [&'p [u8]])
    requires { reader.old.phase ≡ Rows }
    ensures { reader.new.phase ≡ row_phase result.0 }
{
    let (used, row) = reader.next_row(piece, behind.is_empty());
    match row {
        Row::More => {
            let [next, others @ ..] = behind else {
                return (row, b"", behind);
            };
            read_row(reader, *next, others)
        }
        _ => (row, &piece[used..], behind),
    }
}

// Whether these are the rows of the rest, and this is behind them.
fn has_rows<'p>(
    reader: &mut TraceReader,
    piece: &'p [u8],
    behind: &'p [&'p [u8]],
    wanted: &[Row],
    end: Row,
) -> bool
    requires { reader.old.phase ≡ Rows }
{
    let (row, rest, others) = read_row(reader, piece, behind);
    let [first, more @ ..] = wanted else {
        return row == end;
    };
    if row != *first {
        return false;
    }
    match row {
        Row::Vector(_) => has_rows(reader, rest, others, more, end),
        Row::Reset => has_rows(reader, rest, others, more, end),
        Row::End | Row::Refused(_) | Row::More => false,
    }
}

/// Whether this is found in the text of the pieces.
pub(crate) fn finds(
    alloc: Global,
    ports: &Names,
    pieces: &[&[u8]],
    wanted: Wanted,
) -> Result<bool, Fail>
    requires { length ports.now ≤ 64 }
{
    let Ok(mut reader) = TraceReader::new(alloc, ports) else {
        return Err("memory".into());
    };
    let (head, rest, behind) = read_head(&mut reader, pieces)?;
    match (head, wanted) {
        (Head::Ready, Wanted::Rows(rows)) => {
            Ok(has_rows(&mut reader, rest, behind, rows, Row::End))
        }
        (Head::Ready, Wanted::RowsTo(rows, start, end)) => {
            let last = Row::Refused(refusal(3, start, end));
            Ok(has_rows(&mut reader, rest, behind, rows, last))
        }
        (Head::Refused(found), Wanted::NoHeader(start, end)) => {
            Ok(found == refusal(2, start, end))
        }
        _ => Ok(false),
    }
}

/// Whether this is found in the text, in whatever one, two or three pieces it comes, and with an empty one behind.
pub(crate) fn finds_each_way(
    alloc: Global,
    ports: &Names,
    text: &[u8],
    wanted: Wanted,
) -> Result<bool, Fail>
    requires { length ports.now ≤ 64 }
{
    for n in 0..=text.len() {
        let (front, rest) = text.split_at(n);
        for m in 0..=rest.len() {
            let (middle, back) = rest.split_at(m);
            let whole = finds(alloc, ports, &[front, middle, back], wanted)?;
            let with_more = finds(alloc, ports, &[front, middle, back, b""], wanted)?;
            if !whole || !with_more {
                return Ok(false);
            }
        }
    }
    Ok(true)
}

// Rows that are read, malformed texts, and rows that are tried.
use pbs_base::Memory;
use row_files::{Answer, Found, Limits, NamedText, RowsFail, Subject, Tally, read_rows, try_row};
use std::alloc::Global;
use std::test::Fail;

/// Answers with the number of words behind the first, and writes all words and files one after another.
#[derive(Clone, Copy)]
struct Joiner;

impl Subject for Joiner {
    fn answer(
        &self,
        alloc: Global,
        words: &[String],
        files: &[NamedText],
        _limits: &Limits,
    ) -> Result<Answer, Memory> {
        let mut out = Vec::new(alloc);
        for word in words {
            out.extend_from_slice(word.as_bytes())?;
        }
        for file in files {
            out.extend_from_slice(file.bytes.as_slice())?;
        }
        let status = u8::try_from(words.len().saturating_sub(1)).unwrap_or(255);
        Ok(Answer { status, out })
    }
}

const TEXT: &str = "# Each form.
text abc - abc

words a
word  b c
word
file f = abc 1..3
- d
x 0a ff
* 2 - ()
status 3
out
- a b cbcd
x 0a ff
| ()()
sink fails 0 7
steps 9
";

#[test]
fn reads_each_form(rt: HostRuntime) -> Result<(), Fail> {
    let mut rows = read_rows(rt.alloc(), TEXT).ok().ok_or("refused")?;
    assert_eq!(rt; rows.len(), 1);
    let row = rows.pop().ok_or("none")?;
    assert_eq!(rt; row.line, 4);
    assert_eq!(rt; row.words.len(), 3);
    assert_eq!(rt; row.files.len(), 1);
    assert_eq!(rt; row.limits.steps, 9);
    assert_eq!(rt; row.limits.puts, 512);
    assert_eq!(rt; row.limits.sink_fails.as_slice(), [0, 7].as_slice());
    assert_eq!(rt; row.expected.status, 3);
    assert_eq!(rt;
        row.expected.out.as_slice(),
        b"a b cbcd\n\xff()()\n".as_slice()
    );
    Ok(())
}

// Texts, and the number of the line that can't stand.
const MALFORMED: &[(&'static str, usize)] = &[
    ("status 0", 1),
    ("\nwords a\nout", 3),
    ("words a\nstatus 0\nstatus 1\n", 3),
    ("words a\nstatus 256\n", 2),
    ("words a\nstatus +1\n", 2),
    ("words a  b\nstatus 0\n", 1),
    ("words a\n| b\nstatus 0\n", 2),
    ("words a\nfile f = b\nstatus 0\n", 2),
    ("text b - c\n\nwords a\nfile f = b 1..2\nstatus 0\n", 4),
    ("text b - c\ntext d - e\n", 2),
    ("words a\nfile f by b\n- c\nstatus 0\n", 3),
    ("words a\nout x 0\nstatus 0\n", 2),
    ("words a\nout * 2 * 2 - b\nstatus 0\n", 2),
    ("words a\nputs 0\nstatus 0\n", 2),
    ("words a\nstatus 0\n\n# b\nwords c\nout\n\n", 7),
];

#[test]
fn names_the_line(rt: HostRuntime) -> Result<(), Fail> {
    for (text, line) in MALFORMED {
        let wanted = Some(RowsFail::Malformed { line: *line });
        assert_eq!(rt; read_rows(rt.alloc(), *text).err(), wanted, "in {text:?}");
    }
    Ok(())
}

// What is found for the rows of a text.
fn tally(rt: &HostRuntime, text: &str) -> Result<Tally, Fail> {
    let rows = read_rows(rt.alloc(), text).ok().ok_or("refused")?;
    let mut verdicts = Vec::new(rt.alloc());
    for row in rows {
        verdicts.push(try_row(rt.alloc(), &Joiner, row).ok().ok_or("memory")?)?;
    }
    Ok(Tally::of(verdicts.as_slice()))
}

#[test]
fn tries_rows(rt: HostRuntime) -> Result<(), Fail> {
    let text =
        "words a\nstatus 0\nout - a\n\nwords a\nstatus 0\nout - b\n\nwords a\nstatus 1\nout - a";
    let found = tally(&rt, text)?;
    assert_eq!(rt; found, Tally { rows: 3, differ: 2 });
    assert_eq!(rt; found.status(), 1);
    let none = tally(&rt, "")?;
    assert_eq!(rt; none, Tally { rows: 0, differ: 0 });
    assert_eq!(rt; none.status(), 0);
    Ok(())
}

// The words that make a file see the files above it.
#[test]
fn makes_files(rt: HostRuntime) -> Result<(), Fail> {
    let text = "words a\nfile f - b\nfile g by m\nfile h - c\nstatus 0\nout - abmbc\n";
    assert_eq!(rt; tally(&rt, text)?, Tally { rows: 1, differ: 0 });
    Ok(())
}

// They must end with status 0.
#[test]
fn tells_what_was_not_made(rt: HostRuntime) -> Result<(), Fail> {
    let mut rows = read_rows(rt.alloc(), "words a\nfile g by b c\nstatus 0\nout - abc\n")
        .ok()
        .ok_or("refused")?;
    let row = rows.pop().ok_or("none")?;
    let verdict = try_row(rt.alloc(), &Joiner, row).ok().ok_or("memory")?;
    let out = Vec::from_slice(rt.alloc(), b"bc")?;
    assert_eq!(rt; verdict.found, Found::NotMade(Answer { status: 1, out }));
    Ok(())
}

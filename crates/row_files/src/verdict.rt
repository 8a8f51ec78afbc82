// What comes of a row.
ghost use Rattle.std.specs.Prelude.{◌≡◌, ◌≤◌, ◌↔◌, length, IfOk};
ghost use Rattle.std.specs.List.{count_by};
ghost use Rattle.row_files.specs.Verdicts.{differs, Agrees, Shows};
ghost use Rattle.row_files.specs.declared.verdict.Found.TheVariants.{Expected};

use crate::row::{Answer, Content, Limits, NamedText, Row, RowFile, Subject};
use pbs_base::Memory;
use std::alloc::Global;

/// What was found for a row.
#[derive(Debug, PartialEq, Eq, Drop)]
pub enum Found {
    /// The answer that the row says.
    Expected,
    /// Another one.
    Other(Answer),
    /// The words that make one of the files gave this one.
    NotMade(Answer),
}

/// A row's first line, and what was found for it.
#[derive(Debug, PartialEq, Eq, Drop)]
pub struct Verdict {
    pub line: usize,
    pub found: Found,
}

/// How many rows there are, and for how many of them the expected answer was not found.
#[derive(Clone, Copy, Debug, PartialEq, Eq)]
pub struct Tally {
    pub rows: usize,
    pub differ: usize,
}

/// Puts a row to the subject.
pub fn try_row<S: Subject>(alloc: Global, subject: &S, row: Row) -> Result<Verdict, Memory>
    ensures { IfOk result (λ verdict. verdict.line ≡ row.line) }
{
    let line = row.line;
    let mut files = Vec::new(alloc);
    for file in row.files {
        match made(alloc, subject, file, files.as_slice())? {
            Ok(text) => files.push(text)?,
            Err(answer) => {
                return Ok(Verdict {
                    line,
                    found: Found::NotMade(answer),
                });
            }
        }
    }
    let answer = subject.answer(alloc, row.words.as_slice(), files.as_slice(), &row.limits)?;
    Ok(Verdict {
        line,
        found: judge(row.expected, answer),
    })
}

// The file with its bytes, or the answer that its words gave where the status wasn't 0.
fn made<S: Subject>(
    alloc: Global,
    subject: &S,
    file: RowFile,
    front: &[NamedText],
) -> Result<Result<NamedText, Answer>, Memory> {
    let RowFile { name, content } = file;
    let bytes = match content {
        Content::Bytes(bytes) => bytes,
        Content::By(words) => {
            let limits = Limits::ample(alloc);
            let answer = subject.answer(alloc, words.as_slice(), front, &limits)?;
            if answer.status != 0 {
                return Ok(Err(answer));
            }
            answer.out
        }
    };
    Ok(Ok(NamedText { name, bytes }))
}

// What an answer is beside the expected one.
fn judge(expected: Answer, answer: Answer) -> Found
    ensures expected { (result ≡ Expected) ↔ Agrees expected answer }
    ensures shown { Shows answer result }
{
    if answer == expected {
        Found::Expected
    } else {
        Found::Other(answer)
    }
}

impl Verdict {
    /// Whether the expected answer was not found.
    pub fn differs(&self) -> bool
        ensures { result ≡ differs self.now }
    {
        match &self.found {
            Found::Expected => false,
            Found::Other(_) => true,
            Found::NotMade(_) => true,
        }
    }
}

impl Tally {
    /// Of these verdicts.
    pub fn of(verdicts: &[Verdict]) -> Tally
        ensures rows { result.rows ≡ length verdicts.now }
        ensures differ { result.differ ≡ count_by differs verdicts.now }
    {
        let mut differ = 0;
        for verdict in verdicts {
            if verdict.differs() {
                differ += 1;
            }
        }
        Tally {
            rows: verdicts.len(),
            differ,
        }
    }

    /// The status with which the program ends: whether some rows differ.
    pub fn status(&self) -> u8
        ensures status { result ≤ 1 }
        ensures sound { (result ≡ 0) ↔ (self.now.differ ≡ 0) }
    {
        if self.differ == 0 { 0 } else { 1 }
    }
}

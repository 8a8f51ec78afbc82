// The program: tries the rows of the files that its arguments name.
use crate::fail::RowsFail;
use crate::read::read_rows;
use crate::row::{Answer, Subject};
use crate::verdict::{Found, Tally, Verdict, try_row};
use pbs_base::Memory;
use std::process::ExitCode;
use std::{env, fs, io};

/// Why the rows were not all tried.
#[derive(Drop)]
enum DriveFail {
    Malformed { file: String, line: usize },
    Unreadable { file: String },
    Outside,
}

impl From<io::Error> for DriveFail {
    fn from(_error: io::Error) -> DriveFail {
        DriveFail::Outside
    }
}

impl From<Memory> for DriveFail {
    fn from(_error: Memory) -> DriveFail {
        DriveFail::Outside
    }
}

/// Tries each row of the files that the program's arguments name, and prints which of them differ and how many rows
/// there are. The status is 0 where none differs, 1 where some do, 2 where a file is no row file, and 3 where one can't
/// be read or no memory is found.
pub fn run_files<S: Subject>(rt: &HostRuntime, subject: &S) -> ExitCode {
    match try_files(rt, subject) {
        Ok(tally) => ExitCode::from(tally.status()),
        Err(DriveFail::Malformed { file, line }) => {
            let _ = eprintln!(rt; "{file}:{line}: this line can't stand here");
            ExitCode::from(2)
        }
        Err(DriveFail::Unreadable { file }) => {
            let _ = eprintln!(rt; "{file} can't be read");
            ExitCode::from(3)
        }
        Err(DriveFail::Outside) => ExitCode::from(3),
    }
}

fn try_files<S: Subject>(rt: &HostRuntime, subject: &S) -> Result<Tally, DriveFail> {
    let mut verdicts = Vec::new(rt.alloc());
    let mut names = env::args(rt)?;
    // The first is the program's own name.
    let _ = names.next();
    for name in names {
        try_file(rt, subject, name, &mut verdicts)?;
    }
    let tally = Tally::of(verdicts.as_slice());
    let rows = tally.rows;
    let differ = tally.differ;
    println!(rt; "{rows} rows, {differ} differ")?;
    Ok(tally)
}

fn try_file<S: Subject>(
    rt: &HostRuntime,
    subject: &S,
    file: String,
    verdicts: &mut Vec<Verdict>,
) -> Result<(), DriveFail> {
    let Ok(text) = fs::read_to_string(rt, file.as_str()) else {
        return Err(DriveFail::Unreadable { file });
    };
    let rows = match read_rows(rt.alloc(), text.as_str()) {
        Ok(rows) => rows,
        Err(RowsFail::Malformed { line }) => return Err(DriveFail::Malformed { file, line }),
        Err(RowsFail::Memory) => return Err(DriveFail::Outside),
    };
    for row in rows {
        let verdict = try_row(rt.alloc(), subject, row)?;
        print_verdict(rt, file.as_str(), &verdict)?;
        if verdicts.push(verdict).is_err() {
            return Err(DriveFail::Outside);
        }
    }
    Ok(())
}

fn print_verdict(rt: &HostRuntime, file: &str, verdict: &Verdict) -> io::Result<()> {
    let line = verdict.line;
    match &verdict.found {
        Found::Expected => Ok(()),
        Found::Other(answer) => {
            println!(rt; "{file}:{line}: differs")?;
            print_answer(rt, answer)
        }
        Found::NotMade(answer) => {
            println!(rt; "{file}:{line}: a file is not made")?;
            print_answer(rt, answer)
        }
    }
}

// An answer as a row has it; a byte that isn't printable stands as a question mark.
fn print_answer(rt: &HostRuntime, answer: &Answer) -> io::Result<()> {
    let status = answer.status;
    println!(rt; "status {status}")?;
    println!(rt; "out")?;
    let mut line = String::new(rt.alloc());
    for byte in answer.out.as_slice() {
        match *byte {
            b'\n' => {
                println!(rt; "| {line}")?;
                line.clear();
            }
            b' '..=b'~' => line.push(char::from(*byte))?,
            _ => line.push('?')?,
        }
    }
    if !line.is_empty() {
        println!(rt; "- {line}")?;
    }
    Ok(())
}

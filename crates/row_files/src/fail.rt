// Why rows are not read.
ghost use Rattle.std.specs.Prelude.{ℕ, ◌≤◌};

use std::alloc::{AllocError, AllocFailed};
use thiserror::Error;

/// Why a text of rows is not read.
#[derive(Clone, Copy, Debug, PartialEq, Eq, Error)]
pub enum RowsFail {
    /// The line with this number, counted from 1, can't stand where it is.
    #[error("line {line} is not one of a row file")]
    Malformed { line: usize },
    #[error("no memory was found")]
    Memory,
}

/// Why a line is not taken.
#[derive(Clone, Copy, Debug, PartialEq, Eq)]
pub(crate) enum LineFail {
    Malformed,
    Memory,
}

impl LineFail {
    ghost use Rattle.row_files.specs.Lines.{NamesLineOf};

    /// The failure at the line with this number.
    pub(crate) fn at(self, line: usize) -> RowsFail
        ensures { (count : ℕ) → 1 ≤ line → line ≤ count → NamesLineOf count result }
    {
        match self {
            LineFail::Malformed => RowsFail::Malformed { line },
            LineFail::Memory => RowsFail::Memory,
        }
    }
}

impl From<AllocError> for LineFail {
    fn from(_error: AllocError) -> LineFail {
        LineFail::Memory
    }
}

impl<T: Drop> From<AllocFailed<T>> for LineFail {
    fn from(_error: AllocFailed<T>) -> LineFail {
        LineFail::Memory
    }
}

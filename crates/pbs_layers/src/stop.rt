// Why a word prints nothing of its layer.
use pbs_base::{Memory, Refusal, Span};
use pbs_check::Check;
use pbs_edges::EdgeFail;
use pbs_expand::Expand;
use pbs_overlap::OverlapFail;
use pbs_text::ReadSpec;
use std::alloc::{AllocError, AllocFailed};
use std::fmt;

#[derive(Clone, Copy, Debug, PartialEq, Eq)]
pub(crate) enum Stop {
    Refused(Refusal),
    TooManyEdges,
    TooManyTerms,
    /// The lowest scope that breaks the overlap rule, and its span.
    Overlap(u32, Span),
    /// Main isn't of the form that the word asks for.
    OtherForm,
    /// A line is no row.
    NoRow,
    Memory,
}

impl fmt::Display for Stop {
    fn fmt<W: fmt::Write>(&self, f: &mut fmt::Formatter<W>) -> fmt::Result {
        match self {
            Stop::Refused(refusal) => {
                let rule = refusal.rule;
                let Span { start, end } = refusal.span;
                write!(f, "rule {rule} at {start}..{end}")
            }
            Stop::TooManyEdges => write!(f, "too many edges"),
            Stop::TooManyTerms => write!(f, "too many terms"),
            Stop::Overlap(scope, span) => {
                let Span { start, end } = span;
                write!(f, "scope {scope} at {start}..{end}")
            }
            Stop::OtherForm => write!(f, "main is of another form"),
            Stop::NoRow => write!(f, "a line is no row"),
            Stop::Memory => write!(f, "no memory was found"),
        }
    }
}

impl From<ReadSpec> for Stop {
    fn from(fail: ReadSpec) -> Stop {
        match fail {
            ReadSpec::Refused(refusal) => Stop::Refused(refusal),
            ReadSpec::Memory => Stop::Memory,
        }
    }
}

impl From<Check> for Stop {
    fn from(fail: Check) -> Stop {
        match fail {
            Check::Refused(refusal) => Stop::Refused(refusal),
            Check::Memory => Stop::Memory,
        }
    }
}

impl From<Expand> for Stop {
    fn from(fail: Expand) -> Stop {
        match fail {
            Expand::Refused(refusal) => Stop::Refused(refusal),
            Expand::Memory => Stop::Memory,
        }
    }
}

impl From<EdgeFail> for Stop {
    fn from(fail: EdgeFail) -> Stop {
        match fail {
            EdgeFail::TooManyEdges => Stop::TooManyEdges,
            EdgeFail::TooManyTerms => Stop::TooManyTerms,
            EdgeFail::Memory => Stop::Memory,
        }
    }
}

impl From<OverlapFail> for Stop {
    fn from(fail: OverlapFail) -> Stop {
        match fail {
            OverlapFail::Scope(scope, span) => Stop::Overlap(scope, span),
            OverlapFail::Memory => Stop::Memory,
        }
    }
}

impl From<Memory> for Stop {
    fn from(_fail: Memory) -> Stop {
        Stop::Memory
    }
}

impl From<AllocError> for Stop {
    fn from(_fail: AllocError) -> Stop {
        Stop::Memory
    }
}

impl<T: Drop> From<AllocFailed<T>> for Stop {
    fn from(_fail: AllocFailed<T>) -> Stop {
        Stop::Memory
    }
}

// Ports, and refusals.
use pbs_base::{Names, Refusal, Span, Subject, Word};
use std::alloc::Global;
use std::test::Fail;

/// The ports of these names.
pub(crate) fn named(alloc: Global, all: &[&[u8]]) -> Result<Names, Fail> {
    let mut names = Names::new(alloc);
    for bytes in all {
        let word = Word::new(alloc, *bytes).ok().ok_or("memory")?;
        names.add(word).ok().ok_or("memory")?;
    }
    Ok(names)
}

/// The trace is refused by this rule, with this span.
pub(crate) fn refusal(rule: u8, start: u32, end: u32) -> Refusal {
    Refusal {
        subject: Subject::Trace,
        rule,
        span: Span { start, end },
    }
}

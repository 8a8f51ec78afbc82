// Texts, and what reading them answers.
use net_core::Netlist;
use pbs_base::{Refusal, Span, Subject};
use std::alloc::Global;
use std::test::Fail;
use vlog_read::{VlogFail, read_netlist};
use vlog_write::write_netlist;

/// A text, and what is written of it.
pub(crate) type Pair = (&'static [u8], &'static [u8]);

/// The rule that the text breaks, and the span.
pub(crate) fn refusal(alloc: Global, text: &[u8]) -> Option<Refusal> {
    match read_netlist(alloc, text) {
        Err(VlogFail::Refused(found)) => Some(found),
        _ => None,
    }
}

/// The text is refused by this rule, with this span.
pub(crate) fn is_refused(alloc: Global, text: &[u8], rule: u8, start: u32, end: u32) -> bool {
    let wanted = Refusal {
        subject: Subject::Netlist,
        rule,
        span: Span { start, end },
    };
    refusal(alloc, text) == Some(wanted)
}

/// The text is refused by rule 2 or 3.
pub(crate) fn breaks_form(alloc: Global, text: &[u8]) -> bool {
    match refusal(alloc, text) {
        Some(found) => found.rule == 2 || found.rule == 3,
        None => false,
    }
}

pub(crate) fn read(alloc: Global, text: &[u8]) -> Result<Netlist, Fail> {
    let net = read_netlist(alloc, text).ok().ok_or("no netlist")?;
    Ok(net)
}

/// What is written of the netlist that is read.
pub(crate) fn written(alloc: Global, text: &[u8]) -> Result<Vec<u8>, Fail> {
    let net = read(alloc, text)?;
    let mut out = Vec::new(alloc);
    write_netlist(alloc, &net, &mut out).ok().ok_or("memory")?;
    Ok(out)
}

/// The parts, each as often as it says.
pub(crate) fn joined(alloc: Global, parts: &[(&[u8], usize)]) -> Result<Vec<u8>, Fail> {
    let mut text = Vec::new(alloc);
    for (part, times) in parts {
        push_times(&mut text, *part, *times)?;
    }
    Ok(text)
}

/// Adds the part so many times.
pub(crate) fn push_times(text: &mut Vec<u8>, part: &[u8], times: usize) -> Result<(), Fail> {
    for _ in 0..times {
        text.extend_from_slice(part)?;
    }
    Ok(())
}

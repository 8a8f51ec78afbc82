// The earliest refusal so far.
ghost use Rattle.std.specs.Prelude.{◌≡◌, Some};
ghost use Rattle.vlog_text.specs.Refusing.{is_before, earlier_of, earliest, refusal, refusals};
ghost use Rattle.vlog_names.specs.inner.Steps.{when};

use pbs_base::{Refusal, Span, Subject};
use vlog_text::RawName;

fn is_before(a: Refusal, b: Refusal) -> bool
    ensures { result ≡ is_before a b }
{
    a.rule < b.rule
        || (a.rule == b.rule
            && (a.span.start < b.span.start
                || (a.span.start == b.span.start && a.span.end < b.span.end)))
}

// The earlier of what was found and one more.
fn note(found: Option<Refusal>, rule: u8, span: Span) -> Option<Refusal>
    ensures { result ≡ Some (earlier_of found (refusal rule span)) }
{
    let next = Refusal {
        subject: Subject::Netlist,
        rule,
        span,
    };
    match found {
        None => Some(next),
        Some(old) => {
            if is_before(next, old) {
                Some(next)
            } else {
                Some(old)
            }
        }
    }
}

/// What was found, or a breach at this name if that is earlier.
pub(crate) fn note_if(
    is_broken: bool,
    name: &RawName,
    rule: u8,
    found: Option<Refusal>,
) -> Option<Refusal>
    ensures { result ≡ earliest found (refusals rule (when is_broken name.now)) }
{
    if is_broken {
        note(found, rule, name.span)
    } else {
        found
    }
}

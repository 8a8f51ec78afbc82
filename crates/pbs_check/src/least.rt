// Spans by their start, then their end.
ghost use Rattle.std.specs.Prelude.{◌≡◌};
ghost use Rattle.pbs_check.specs.Least.{span_le, later_span, earlier_span, least_of};

use pbs_base::Span;

pub(crate) fn is_before(first: Span, second: Span) -> bool
    ensures { result ≡ span_le first second }
{
    first.start < second.start || (first.start == second.start && first.end <= second.end)
}

pub(crate) fn later(first: Span, second: Span) -> Span
    ensures { result ≡ later_span first second }
{
    if is_before(first, second) {
        second
    } else {
        first
    }
}

pub(crate) fn earlier(first: Span, second: Span) -> Span
    ensures { result ≡ earlier_span first second }
{
    if is_before(first, second) {
        first
    } else {
        second
    }
}

/// The least span of the two.
pub(crate) fn least_of(first: Option<Span>, second: Option<Span>) -> Option<Span>
    ensures { result ≡ least_of first second }
{
    match first {
        None => second,
        Some(first) => match second {
            None => Some(first),
            Some(second) => Some(earlier(first, second)),
        },
    }
}

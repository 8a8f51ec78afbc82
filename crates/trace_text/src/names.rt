// The names of a header.
ghost use Rattle.std.specs.Prelude.{◌≡◌, ◌+◌, ◌≤◌, ◌<◌, ◌^◌, [], ◌∷◌, length, IfOk};
ghost use Rattle.std.specs.List.{list_all};
ghost use Rattle.trace_text.specs.Headers.{header_order, is_name, names_order, words};
ghost use Rattle.trace_text.specs.inner.Names.{FindsPort, Gives, IsFront, length_behind, words_behind};
ghost use Rattle.trace_text.specs.Traces.{refused};

use pbs_base::{Memory, Names, Refusal, Span, Subject, Word};
use std::alloc::Global;

/// What was found of a header: the ports in its order, or the first broken rule.
#[derive(Drop)]
pub(crate) enum Verdict {
    Order(Vec<u8>),
    Refused(Refusal),
}

// How many bytes stand before the first such byte, or in all where there is none.
pub(crate) fn front_length(text: &[u8], byte: u8) -> usize
    ensures { IsFront byte text.now result }
{
    for (n, other) in text.iter().enumerate() {
        if *other == byte {
            return n;
        }
    }
    text.len()
}

pub(crate) fn refusal_of(rule: u8, start: usize, end: usize) -> Refusal
    requires start { start < 2 ^ 32 }
    requires end { end < 2 ^ 32 }
    ensures { result ≡ refused rule start end }
{
    Refusal {
        subject: Subject::Trace,
        rule,
        span: Span {
            start: start as u32,
            end: end as u32,
        },
    }
}

// The first word, and what stands behind its space.
fn split_word(text: &[u8]) -> (&[u8], Option<&[u8]>)
    ensures words { words text.now ≡ result.0.now ∷ words_behind result.1 }
    ensures long { length text.now ≡ length result.0.now + length_behind result.1 }
{
    let n = front_length(text, b' ');
    if n == text.len() {
        return (text, None);
    }
    (&text[..n], Some(&text[n + 1..]))
}

// Whether no word is empty.
fn are_names(names: Option<&[u8]>) -> bool
    ensures { result ≡ list_all is_name (words_behind names.entry) }
{
    let mut behind = names;
    while let Some(text) = behind {
        let (name, more) = split_word(text);
        if name.is_empty() {
            return false;
        }
        behind = more;
    }
    true
}

// The number of the port with this name, where it isn't in the order.
fn find_port(alloc: Global, ports: &Names, name: &[u8], order: &[u8]) -> Result<Option<u8>, Memory>
    requires { length ports.now ≤ 64 }
    ensures { IfOk result (FindsPort ports.now name.now order.now) }
{
    let word = Word::new(alloc, name)?;
    let Some(n) = ports.find(&word) else {
        return Ok(None);
    };
    let port = n as u8;
    if order.contains(&port) {
        return Ok(None);
    }
    Ok(Some(port))
}

// The ports of the names.
fn read_names(alloc: Global, ports: &Names, names: Option<&[u8]>) -> Result<Verdict, Memory>
    requires few { length ports.now ≤ 64 }
    requires short { 5 + length_behind names ≤ 67108864 }
    ensures { IfOk result (Gives (length ports.now) (names_order ports.now [] 5 (words_behind names.entry))) }
{
    let mut behind = names;
    let mut order = Vec::new(alloc);
    let mut at = 5;
    while let Some(text) = behind {
        let (name, more) = split_word(text);
        let Some(port) = find_port(alloc, ports, name, &order)? else {
            return Ok(Verdict::Refused(refusal_of(2, at + 1, at + 1 + name.len())));
        };
        order.push(port)?;
        at += 1 + name.len();
        behind = more;
    }
    if order.len() == ports.len() {
        Ok(Verdict::Order(order))
    } else {
        Ok(Verdict::Refused(refusal_of(2, at, at)))
    }
}

/// Reads the line of a header, without its newline.
pub(crate) fn read_header(alloc: Global, ports: &Names, line: &[u8]) -> Result<Verdict, Memory>
    requires few { length ports.now ≤ 64 }
    requires short { length line.now ≤ 67108864 }
    ensures { IfOk result (Gives (length ports.now) (header_order ports.now line.now)) }
{
    let trace: &[u8] = b"trace";
    let (first, names) = split_word(line);
    if first != trace {
        return Ok(Verdict::Refused(refusal_of(2, 0, line.len())));
    }
    if !are_names(names) {
        return Ok(Verdict::Refused(refusal_of(2, 0, line.len())));
    }
    read_names(alloc, ports, names)
}

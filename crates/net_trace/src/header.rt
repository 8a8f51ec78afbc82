// The header of a trace.
ghost use Rattle.std.specs.Prelude.{◌≡◌, length};
ghost use Rattle.trace_text.specs.States.{start};
ghost use Rattle.net_trace.specs.inner.Steps.{Heads, OnlyReads};

use pbs_base::Refusal;
use pbs_io::{Shelf, read_front};
use trace_text::{Head, TraceReader};

/// The bytes of a trace that are read, with one more: a line that isn't ended by then is refused.
pub(crate) const BYTES: usize = 67_108_865;

/// The part of a buffer that wasn't used yet: from the first number up to but not including the second.
#[derive(Clone, Copy, Debug, PartialEq, Eq)]
pub(crate) struct Unused {
    pub(crate) from: usize,
    pub(crate) to: usize,
}

/// What was found of a header.
#[derive(Clone, Copy, Debug, PartialEq, Eq)]
pub(crate) enum Headed {
    Ready(Unused),
    /// The header is good, and the text ends with it.
    ReadyAtEnd,
    Refused(Refusal),
    Fault,
    Memory,
}

/// Reads slot 1 up to the end of the header, through the buffer.
pub(crate) fn find_header<S: Shelf>(
    shelf: &mut S,
    reader: &mut TraceReader,
    buffer: &mut [u8],
) -> Headed
    requires fresh { reader.old ≡ start reader.old.ports }
    requires buffer { length buffer.old ≡ 65536 }
    ensures length { length buffer.new ≡ 65536 }
    ensures reads { OnlyReads (S.state shelf.old) (S.state shelf.new) }
    ensures heads { Heads reader.old.ports (S.state shelf.old) (S.state shelf.new) reader.new buffer.new result }
{
    loop {
        let room = BYTES - reader.bytes_used();
        let Ok(n) = read_front(shelf, 1, buffer, room) else {
            return Headed::Fault;
        };
        let Ok((used, head)) = reader.header(&buffer[..n], n == 0) else {
            return Headed::Memory;
        };
        match head {
            Head::More => {}
            Head::Ready if n == 0 => return Headed::ReadyAtEnd,
            Head::Ready => return Headed::Ready(Unused { from: used, to: n }),
            Head::Refused(refusal) => return Headed::Refused(refusal),
        }
    }
}

// The line that says which rule a text broke, and where: docs/FORMATS.md, "Refusal lines".
ghost use Rattle.std.specs.Prelude.{◌≡◌};
ghost use Rattle.pbs_io.specs.Outside.{Writes};
ghost use Rattle.pbs_io.specs.Refusal.{refusal_line, subject_word};

use crate::{Sink, WriteFail, write_pieces};
use itoa::Buffer;
use pbs_base::{Refusal, Subject};

// The subject's word.
fn word_of(subject: Subject) -> &'static [u8]
    ensures { result.now ≡ subject_word subject }
{
    match subject {
        Subject::Spec => b"spec",
        Subject::Netlist => b"netlist",
        Subject::Trace => b"trace",
    }
}

/// Writes the refusal's line. After `Fault` a prefix of it was written.
pub fn write_refusal<K: Sink>(sink: &mut K, refusal: &Refusal) -> Result<(), WriteFail>
    ensures { Writes (K.state sink.old) (K.state sink.new) (refusal_line refusal.now) result }
{
    let mut rule = Buffer::new();
    let mut start = Buffer::new();
    let mut end = Buffer::new();
    let pieces = [
        word_of(refusal.subject),
        b" refused rule ",
        rule.format(refusal.rule).as_bytes(),
        b" at ",
        start.format(refusal.span.start).as_bytes(),
        b"..",
        end.format(refusal.span.end).as_bytes(),
        b"\n",
    ];
    write_pieces(sink, &pieces)
}

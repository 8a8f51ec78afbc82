// A header as long as a trace may be.
ghost use Rattle.std.specs.Prelude.{◌≤◌, length};

use crate::names::{named, refusal};
use crate::pieces::read_head;
use pbs_base::{Names, Refusal};
use std::alloc::Global;
use std::test::Fail;
use trace_text::{Head, TraceReader};

fn letters(alloc: Global) -> Result<Vec<u8>, Fail> {
    let mut text = Vec::with_capacity(alloc, 65536)?;
    for _ in 0..65536u32 {
        text.push(b'a')?;
    }
    Ok(text)
}

// Why the header is refused that begins with 1,024 pieces of 65,536 letters, which are 67,108,864 letters, and ends
// with one piece more. No answer comes before that piece.
fn refused_at_last(alloc: Global, ports: &Names, last: &[u8]) -> Result<Option<Refusal>, Fail>
    requires { length ports.now ≤ 64 }
{
    let piece = letters(alloc)?;
    let mut pieces: Vec<&[u8]> = Vec::new(alloc);
    for _ in 0..1024u32 {
        pieces.push(piece.as_slice())?;
    }
    pieces.push(last)?;
    let Ok(mut reader) = TraceReader::new(alloc, ports) else {
        return Err("memory".into());
    };
    let (head, _, behind) = read_head(&mut reader, pieces.as_slice())?;
    match head {
        Head::Refused(refusal) if behind.is_empty() => Ok(Some(refusal)),
        _ => Ok(None),
    }
}

// Behind 67,108,864 letters: one more, the newline that comes too late, and nothing, for a line that ends with the text
// may have so many bytes (this one has no header's form).
const ENDS: &[(&'static [u8], u8, u32, u32)] = &[
    (b"a", 1, 67_108_864, 67_108_865),
    (b"\n", 1, 67_108_864, 67_108_865),
    (b"", 2, 0, 67_108_864),
];

#[test]
fn longest_headers(rt: HostRuntime) -> Result<(), Fail> {
    let alloc = rt.alloc();
    let ports = named(alloc, &[b"a"])?;
    assert!(rt; ports.len() == 1);
    for (last, rule, start, end) in ENDS {
        let found = refused_at_last(alloc, &ports, *last)?;
        assert_eq!(rt; found, Some(refusal(*rule, *start, *end)));
    }
    Ok(())
}

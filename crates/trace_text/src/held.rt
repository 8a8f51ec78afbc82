// Bytes that are held back, so that a sink is given long pieces.
ghost use Rattle.std.specs.Prelude.{◌≡◌, ◌≤◌, ◌+◌, [], ◌++◌, length, vec_len, vec_capacity, IfOk, OnOk};
ghost use Rattle.pbs_io.specs.Outside.{Writes};
ghost use Rattle.trace_text.specs.Held.{Holds};

use pbs_base::Memory;
use pbs_io::{Sink, WriteFail, write_all};
use std::alloc::Global;

/// How many bytes are held before they are written.
const ROOM: usize = 65_536;

/// Up to 65,536 bytes that were not written yet. All its memory is taken when it is made.
#[derive(Drop)]
pub struct Held {
    pub(crate) bytes: Vec<u8>,
    ghost within: { vec_len bytes ≤ 65536 },
    ghost room: { 65536 ≤ vec_capacity bytes },
}

impl Held {
    ghost use Rattle.trace_text.specs.HeldBytes.{held_bytes};

    pub fn new(alloc: Global) -> Result<Held, Memory>
        ensures { IfOk result (λ held. held_bytes held ≡ []) }
    {
        match Vec::with_capacity(alloc, ROOM) {
            Ok(bytes) => Ok(Held { bytes }),
            Err(_) => Err(Memory),
        }
    }

    /// Adds the piece to what is held. Where it doesn't fit, all is written first.
    pub fn write<K: Sink>(&mut self, sink: &mut K, piece: &[u8]) -> Result<(), WriteFail>
        ensures { Holds (K.state sink.old) (K.state sink.new) (held_bytes self.old) (held_bytes self.new) piece.now
            result }
    {
        if piece.len() <= ROOM - self.bytes.len() {
            self.keep(piece);
            return Ok(());
        }
        let Ok(()) = self.flush(sink) else {
            return Err(WriteFail::Fault);
        };
        write_all(sink, piece)
    }

    /// Writes what is held.
    pub fn flush<K: Sink>(&mut self, sink: &mut K) -> Result<(), WriteFail>
        ensures writes { Writes (K.state sink.old) (K.state sink.new) (held_bytes self.old) result }
        ensures empty { OnOk result (held_bytes self.new ≡ []) }
    {
        let Ok(()) = write_all(sink, self.bytes.as_slice()) else {
            return Err(WriteFail::Fault);
        };
        self.bytes.clear();
        Ok(())
    }

    fn keep(&mut self, piece: &[u8])
        requires { vec_len self.old.bytes + length piece.now ≤ 65536 }
        ensures { self.new.bytes.items ≡ self.old.bytes.items ++ piece.now }
    {
        match self.bytes.extend_from_slice(piece) {
            Ok(()) => {}
            Err(_) => unreachable!(),
        }
    }
}

// A sink in memory, whose calls fail where they are told to.
ghost use Rattle.std.specs.Prelude.{◌≡◌, ◌+◌, ◌-◌, ◌<◌, ◌≤◌, ◌^◌, min, [], ◌∷◌, ◌++◌, length, vec_len, vec_capacity};
ghost use Rattle.std.specs.Prelude.{IfOk, OnOk, OnErr, nat_eq, is_err, ◌||◌};
ghost use Rattle.pbs_io.specs.Outside.{Puts};

use crate::calls::Calls;
use crate::{Failed, Sink};
use pbs_base::Memory;
use std::alloc::Global;

/// Bytes in memory, up to a room that is given. It tells them. A call fails exactly where it is told to, or where no
/// room is left; the calls are counted from 0.
#[derive(Drop)]
pub struct MemSink {
    bytes: Vec<u8>,
    calls: Calls,
    room: usize,
    step: usize,
    ghost positive: { 0 < step },
    ghost within: { vec_len bytes ≤ room },
    ghost kept: { room ≤ vec_capacity bytes },
}

impl MemSink {
    ghost use Rattle.pbs_io.specs.Memory.{mem_sink_state, sink_bytes, sink_fails, sink_calls, sink_room, sink_step};

    /// Takes up to `room` bytes, at most `step` in one call.
    pub fn new(alloc: Global, room: usize, step: usize) -> Result<MemSink, Memory>
        requires { 0 < step }
        ensures bytes { IfOk result (λ sink. sink_bytes sink ≡ []) }
        ensures faults { IfOk result (λ sink. (mem_sink_state sink).faults ≡ 0) }
        ensures calls { IfOk result (λ sink. sink_calls sink ≡ 0) }
        ensures fails { IfOk result (λ sink. sink_fails sink ≡ []) }
        ensures room { IfOk result (λ sink. sink_room sink ≡ room) }
        ensures step { IfOk result (λ sink. sink_step sink ≡ step) }
    {
        match Vec::with_capacity(alloc, room) {
            Ok(bytes) => Ok(MemSink {
                bytes,
                calls: Calls::new(alloc),
                room,
                step,
            }),
            Err(_) => Err(Memory),
        }
    }

    /// The call with this number, counted from 0, is to fail. `Memory` leaves the sink as it was.
    pub fn fail_at(&mut self, call: u64) -> Result<(), Memory>
        ensures added { OnOk result (sink_fails self.new ≡ sink_fails self.old ++ call ∷ []) }
        ensures err { OnErr result (sink_fails self.new ≡ sink_fails self.old) }
        ensures state { mem_sink_state self.new ≡ mem_sink_state self.old }
        ensures calls { sink_calls self.new ≡ sink_calls self.old }
        ensures room { sink_room self.new ≡ sink_room self.old }
        ensures step { sink_step self.new ≡ sink_step self.old }
    {
        self.calls.fail_at(call)
    }

    /// The bytes that were written.
    pub fn bytes(&self) -> &[u8]
        ensures { result.now ≡ sink_bytes self.now }
    {
        &self.bytes
    }
}

impl Sink for MemSink {
    ghost use Rattle.pbs_io.specs.Memory.{mem_sink_state, sink_fails, sink_calls, sink_room, sink_step, sink_takes};
    ghost use Rattle.pbs_io.specs.Memory.{is_to_fail};

    ghost state = { mem_sink_state };

    fn put(&mut self, piece: &[u8]) -> Result<usize, Failed>
        requires { 0 < length piece.now }
        ensures bound { IfOk result (λ n. (0 < n) × (n ≤ length piece.now)) }
        ensures puts { Puts (mem_sink_state self.old) (mem_sink_state self.new) piece.now result }
        ensures exact { is_err result
            ≡ (is_to_fail (sink_fails self.old) (sink_calls self.old) || nat_eq
            (sink_takes self.old (length piece.now)) 0) }
        ensures most { IfOk result (λ n. n ≡ sink_takes self.old (length piece.now)) }
        ensures counted { sink_calls self.new ≡ min (sink_calls self.old + 1) (2 ^ 64 - 1) }
        ensures fails { sink_fails self.new ≡ sink_fails self.old }
        ensures room { sink_room self.new ≡ sink_room self.old }
        ensures step { sink_step self.new ≡ sink_step self.old }
    {
        let count = self.step.min(piece.len().min(self.room - self.bytes.len()));
        if self.calls.count() || count == 0 {
            return Err(self.calls.fail());
        }
        match self.bytes.extend_from_slice(&piece[..count]) {
            Ok(()) => Ok(count),
            Err(_) => unreachable!(),
        }
    }
}

// The reader of a trace.
ghost use Rattle.std.specs.Prelude.{◌≡◌, ◌+◌, ◌<◌, ◌≤◌, ◌^◌, ◌++◌, [], ◌∷◌, length, nat_eq, false, IfOk, OnOk};
ghost use Rattle.trace_text.specs.inner.Calls.{EndsHeader, EndsText, TakesByte, row_of};
ghost use Rattle.trace_text.specs.States.{IsInHeader, IsInRow, ReadsHead, ReadsRow, has_newline, start, state_of};
ghost use Rattle.trace_text.specs.Steps.{Wants, whole};
ghost use Rattle.trace_text.specs.Traces.{entry, refused, right};
ghost use Rattle.trace_text.specs.declared.answers.Phase.TheVariants.{Done, Header, Rows};
ghost use Rattle.trace_text.specs.declared.answers.Head.TheVariants as head;
ghost use Rattle.trace_text.specs.declared.answers.Row.TheVariants.{End, More, Refused};

use crate::answers::{Head, Phase, Row};
use crate::line::{is_wanted, is_whole, read_row};
use crate::names::{Verdict, front_length, read_header, refusal_of};
use pbs_base::{Memory, Names, Refusal};
use std::alloc::Global;
use std::marker::Model;

/// The bytes of a trace that are read: a line that isn't ended within them is refused where there are more bytes.
const LIMIT: usize = 67_108_864;

/// The inputs of a netlist: there are at most so many.
const INPUTS: usize = 64;

/// Reads a trace, whose text comes in pieces: its header, and then row by row.
#[derive(Drop)]
pub struct TraceReader<'a> {
    ports: &'a Names,
    phase: Phase,
    used: usize,
    begun: Vec<u8>,
    order: Vec<u8>,
}

impl<'a> Model for TraceReader<'a> {
    ghost use Rattle.std.specs.Prelude.{vec_capacity};
    ghost use Rattle.trace_text.specs.States.{ReaderState, IsReader, state_of};

    ghost Value = { ReaderState };

    ghost view = { λ r. state_of r.ports.now r.phase r.used r.begun.items r.order.items };

    ghost invariant = { λ r. IsReader (state_of r.ports.now r.phase r.used r.begun.items r.order.items)
        (vec_capacity r.begun) };
}

impl<'a> TraceReader<'a> {
    pub fn new(alloc: Global, ports: &'a Names) -> Result<TraceReader<'a>, Memory>
        requires { length ports.now ≤ 64 }
        ensures { IfOk result (λ reader. reader ≡ start ports.now) }
    {
        let begun = match Vec::with_capacity(alloc, INPUTS) {
            Ok(begun) => begun,
            Err(_) => return Err(Memory),
        };
        Ok(TraceReader {
            ports,
            phase: Phase::Header,
            used: 0,
            begun,
            order: Vec::new(alloc),
        })
    }

    /// Reads on to the end of the header, until it answers `Ready` or `Refused`. The number is that of the bytes of the
    /// piece that were used. Where this is the last piece, the text ends behind it. After `Memory` the reader is to be
    /// dropped.
    pub fn header(&mut self, piece: &[u8], last: bool) -> Result<(usize, Head), Memory>
        requires { self.old.phase ≡ Header }
        ensures { IfOk result (λ found. ReadsHead self.old self.new piece.now last found.0 found.1) }
    {
        let front = front_length(piece, b'\n');
        if front == piece.len() {
            return self.header_front(piece, last);
        }
        if front >= self.room() {
            return Ok((front, self.refuse_header(refusal_of(1, LIMIT, LIMIT + 1))));
        }
        self.extend(&piece[..front])?;
        Ok((front + 1, self.end_header(1)?))
    }

    /// Reads on to the end of a row, once `header` has answered `Ready`, until this call answers `End` or `Refused`.
    /// The number is that of the bytes of the piece that were used. Where this is the last piece, the text ends
    /// behind it.
    pub fn next_row(&mut self, piece: &[u8], last: bool) -> (usize, Row)
        requires { self.old.phase ≡ Rows }
        ensures { ReadsRow self.old self.new piece.now last result.0 result.1 }
    {
        for (n, byte) in piece.iter().enumerate() {
            match self.take(*byte) {
                Row::More => {}
                row => return (n + 1, row),
            }
        }
        if last {
            (piece.len(), self.finish())
        } else {
            (piece.len(), self.go_on())
        }
    }

    /// How many bytes were used so far: at most 67,108,864 of them as long as no rule is broken.
    pub fn bytes_used(&self) -> usize
        ensures value { result ≡ self.now.used }
        ensures header { self.now.phase ≡ Header → IsInHeader self.now }
        ensures row { self.now.phase ≡ Rows → IsInRow self.now }
    {
        self.used
    }

    // The row isn't ended, and no rule is broken yet.
    fn go_on(&self) -> Row
        requires { self.now.phase ≡ Rows }
        ensures more { result ≡ More }
        ensures begun { IsInRow self.now }
    {
        // For the proof alone: what a reader keeps is known where its begun line is read.
        let _ = &self.begun;
        Row::More
    }

    // The next byte of a row.
    fn take(&mut self, byte: u8) -> Row
        requires { self.old.phase ≡ Rows }
        ensures { TakesByte self.old self.new byte result }
    {
        let used = self.used();
        if used == LIMIT {
            return self.refuse(1, LIMIT, LIMIT + 1);
        }
        if self.wants(byte) {
            return self.keep(byte);
        }
        if byte != b'\n' {
            return self.refuse(3, used, used + 1);
        }
        if self.is_whole() {
            self.end_row(1)
        } else {
            self.refuse(3, used, used + 1)
        }
    }

    // The end of the text.
    fn finish(&mut self) -> Row
        requires { self.old.phase ≡ Rows }
        ensures { EndsText self.old self.new result }
    {
        let used = self.used();
        if self.is_at_start() {
            return self.end();
        }
        if self.is_whole() {
            self.end_row(0)
        } else {
            self.refuse(3, used, used)
        }
    }

    fn used(&self) -> usize
        requires { self.now.phase ≡ Rows }
        ensures value { result ≡ self.now.used }
        ensures begun { IsInRow self.now }
    {
        self.used
    }

    // Whether no line is begun.
    fn is_at_start(&self) -> bool
        ensures { result ≡ nat_eq (length self.now.begun) 0 }
    {
        self.begun.is_empty()
    }

    fn is_whole(&self) -> bool
        ensures { result ≡ whole (length self.now.order) self.now.begun }
    {
        is_whole(self.order.len(), &self.begun)
    }

    fn wants(&self, byte: u8) -> bool
        requires { IsInRow self.now }
        ensures { Wants (length self.now.order) self.now.begun byte result }
    {
        is_wanted(self.order.len(), &self.begun, byte)
    }

    // Adds a right byte to the begun row.
    fn keep(&mut self, byte: u8) -> Row
        requires phase { self.old.phase ≡ Rows }
        requires within { self.old.used < 67108864 }
        requires short { length self.old.begun < 64 }
        requires good { right (length self.old.order) (self.old.begun ++ byte ∷ []) ≡ length self.old.begun + 1 }
        ensures row { result ≡ More }
        ensures new { self.new ≡ state_of self.old.ports Rows (self.old.used + 1)
            (self.old.begun ++ byte ∷ []) self.old.order }
    {
        match self.begun.push(byte) {
            Ok(()) => {}
            Err(_) => unreachable!(),
        }
        self.used += 1;
        Row::More
    }

    // A good row is ended, with a newline or with the text.
    fn end_row(&mut self, newlines: usize) -> Row
        requires phase { self.old.phase ≡ Rows }
        requires within { self.old.used + newlines ≤ 67108864 }
        ensures row { result ≡ row_of (entry self.old.order self.old.begun) }
        ensures new { self.new ≡ state_of self.old.ports Rows (self.old.used + newlines) [] self.old.order }
    {
        let row = read_row(&self.order, &self.begun);
        self.begun.clear();
        self.used += newlines;
        row
    }

    // The text is ended, with no line begun.
    fn end(&mut self) -> Row
        ensures row { result ≡ End }
        ensures new { self.new ≡ state_of self.old.ports Done self.old.used self.old.begun self.old.order }
    {
        self.phase = Phase::Done;
        Row::End
    }

    // The same where there is no newline in the piece.
    fn header_front(&mut self, piece: &[u8], last: bool) -> Result<(usize, Head), Memory>
        requires phase { self.old.phase ≡ Header }
        requires open_line { has_newline piece.now ≡ false }
        ensures { IfOk result (λ found. ReadsHead self.old self.new piece.now last found.0 found.1) }
    {
        if piece.len() > self.room() {
            return Ok((
                piece.len(),
                self.refuse_header(refusal_of(1, LIMIT, LIMIT + 1)),
            ));
        }
        self.extend(piece)?;
        if last {
            Ok((piece.len(), self.end_header(0)?))
        } else {
            Ok((piece.len(), Head::More))
        }
    }

    // How many bytes of the header there may still be.
    fn room(&self) -> usize
        requires { self.now.phase ≡ Header }
        ensures room { result + length self.now.begun ≡ 67108864 }
        ensures begun { IsInHeader self.now }
    {
        LIMIT - self.used
    }

    // Adds bytes to the begun header.
    fn extend(&mut self, front: &[u8]) -> Result<(), Memory>
        requires phase { self.old.phase ≡ Header }
        requires open_line { has_newline front.now ≡ false }
        requires within { length self.old.begun + length front.now ≤ 67108864 }
        ensures { OnOk result (self.new ≡ state_of self.old.ports Header (self.old.used + length front.now)
            (self.old.begun ++ front.now) self.old.order) }
    {
        self.begun.extend_from_slice(front)?;
        self.used += front.len();
        Ok(())
    }

    // The header's line is ended, with a newline or with the text.
    fn end_header(&mut self, newlines: usize) -> Result<Head, Memory>
        requires phase { self.old.phase ≡ Header }
        requires within { length self.old.begun + newlines ≤ 67108864 }
        ensures { IfOk result (EndsHeader self.old self.new newlines) }
    {
        let alloc = *self.begun.allocator();
        match read_header(alloc, self.ports, &self.begun)? {
            Verdict::Refused(refusal) => Ok(self.refuse_header(refusal)),
            Verdict::Order(order) => {
                self.used += newlines;
                self.begun.clear();
                self.order = order;
                self.phase = Phase::Rows;
                Ok(Head::Ready)
            }
        }
    }

    fn refuse_header(&mut self, refusal: Refusal) -> Head
        ensures head { result ≡ head.Refused refusal }
        ensures new { self.new ≡ state_of self.old.ports Done self.old.used self.old.begun self.old.order }
    {
        self.phase = Phase::Done;
        Head::Refused(refusal)
    }

    // Nothing is read behind a refusal.
    fn refuse(&mut self, rule: u8, start: usize, end: usize) -> Row
        requires start { start < 2 ^ 32 }
        requires end { end < 2 ^ 32 }
        ensures row { result ≡ Refused (refused rule start end) }
        ensures new { self.new ≡ state_of self.old.ports Done self.old.used self.old.begun self.old.order }
    {
        self.phase = Phase::Done;
        Row::Refused(refusal_of(rule, start, end))
    }
}

// Real files and standard output. What they hold is not told; that they do what they say is trusted.
ghost use Rattle.std.specs.Prelude.{◌≡◌, ◌-◌, ◌<◌, ◌≤◌, length, None, IfOk, is_some};
ghost use Rattle.std.specs.Io.{ReadsAtMost};
ghost use Rattle.pbs_io.specs.Outside.{Rose};

use crate::{Failed, Shelf, Sink};
use std::fs;
use std::io::{ErrorKind, Read};
use std::rt::Files;

/// Files of the system, by their paths. It tells no content and is never sound.
#[derive(Drop)]
pub struct FileShelf<'a, R: Files> {
    rt: &'a R,
    first: Option<R::File>,
    second: Option<R::File>,
    faults: u64,
}

impl<'a, R: Files> FileShelf<'a, R> {
    ghost use Rattle.pbs_io.specs.Real.{stands_in};

    pub fn new(rt: &'a R) -> FileShelf<'a, R>
        ensures { result.faults ≡ 0 }
    {
        FileShelf {
            rt,
            first: None,
            second: None,
            faults: 0,
        }
    }

    // Puts what was opened into the slot.
    fn place(&mut self, slot: usize, opened: Option<R::File>)
        requires { slot < 2 }
        ensures slot { stands_in (is_some self.new.first) (is_some self.new.second) slot ≡ is_some opened }
        ensures other { stands_in (is_some self.new.first) (is_some self.new.second) (1 - slot) ≡ stands_in
            (is_some self.old.first) (is_some self.old.second) (1 - slot) }
        ensures faults { self.new.faults ≡ self.old.faults }
    {
        if slot == 0 {
            self.first = opened;
        } else {
            self.second = opened;
        }
    }

    // Reads from the file in the slot, if there is one.
    fn read(&mut self, slot: usize, buffer: &mut [u8]) -> Result<usize, Failed>
        ensures bound { ReadsAtMost result buffer.new }
        ensures first { is_some self.new.first ≡ is_some self.old.first }
        ensures second { is_some self.new.second ≡ is_some self.old.second }
        ensures faults { self.new.faults ≡ self.old.faults }
    {
        if slot == 0 {
            read_from(&mut self.first, buffer)
        } else {
            read_from(&mut self.second, buffer)
        }
    }
}

// How often a call that a signal interrupts is made.
const TRIES: u32 = 64;

// Reads from an open file, if there is one.
fn read_from<F: Read>(file: &mut Option<F>, buffer: &mut [u8]) -> Result<usize, Failed>
    ensures bound { ReadsAtMost result buffer.new }
    ensures stands { is_some file.new ≡ is_some file.old }
{
    match file {
        Some(file) => read_again(file, buffer),
        None => Err(Failed),
    }
}

// Reads, and again where a signal interrupts it.
fn read_again<F: Read>(file: &mut F, buffer: &mut [u8]) -> Result<usize, Failed>
    ensures { ReadsAtMost result buffer.new }
{
    for _ in 0..TRIES {
        match file.read(buffer) {
            Ok(count) => return Ok(count),
            Err(error) if error.kind() == ErrorKind::Interrupted => {}
            Err(_) => return Err(Failed),
        }
    }
    Err(Failed)
}

// Writes some of the piece, and again where a signal interrupts it; to take nothing is a failure.
fn write_again<R: Print>(rt: &R, piece: &[u8]) -> Result<usize, Failed>
    ensures { IfOk result (λ n. (0 < n) × (n ≤ length piece.now)) }
{
    for _ in 0..TRIES {
        match rt.write_some(piece) {
            Ok(count) if count > 0 => return Ok(count),
            Err(error) if error.kind() == ErrorKind::Interrupted => {}
            _ => return Err(Failed),
        }
    }
    Err(Failed)
}

// A fault more, up to the last value.
fn one_more(faults: &mut u64) -> Failed
    ensures later { faults.old ≤ faults.new }
    ensures rose { Rose faults.old faults.new }
{
    *faults = faults.saturating_add(1);
    Failed
}

impl<'a, R: Files> Shelf for FileShelf<'a, R> {
    ghost use Rattle.pbs_io.specs.Real.{real_state};

    ghost state = { λ s. real_state (is_some s.first) (is_some s.second) s.faults };

    ghost sound_tells = { λ _ never. Prim.cc };

    fn open_slot(&mut self, slot: usize, name: &str) -> Result<(), Failed> {
        match fs::open(self.rt, name) {
            Ok(file) => {
                self.place(slot, Some(file));
                Ok(())
            }
            Err(_) => {
                self.place(slot, None);
                Err(one_more(&mut self.faults))
            }
        }
    }

    fn read_slot(&mut self, slot: usize, buffer: &mut [u8]) -> Result<usize, Failed> {
        match self.read(slot, buffer) {
            Ok(count) => Ok(count),
            Err(_) => Err(one_more(&mut self.faults)),
        }
    }
}

/// Standard output, which is flushed at each `put`. It tells no bytes.
#[derive(Drop)]
pub struct StdSink<'a, R: Print> {
    rt: &'a R,
    faults: u64,
}

impl<'a, R: Print> StdSink<'a, R> {
    pub fn new(rt: &'a R) -> StdSink<'a, R>
        ensures { result.faults ≡ 0 }
    {
        StdSink { rt, faults: 0 }
    }
}

impl<'a, R: Print> Sink for StdSink<'a, R> {
    ghost state = { λ s. record { written = None; faults = s.faults } };

    fn put(&mut self, piece: &[u8]) -> Result<usize, Failed> {
        match write_again(self.rt, piece) {
            Ok(count) => Ok(count),
            Err(_) => Err(one_more(&mut self.faults)),
        }
    }
}

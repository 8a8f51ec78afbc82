// A shelf and a sink that never fail: their counts of faults are always 0.
ghost use Rattle.std.specs.Prelude.{◌≡◌, ◌<◌, ◌≤◌, length, Some, [], false, IfOk, OnOk, OnErr, option_map, refl};
ghost use Rattle.pbs_io.specs.Outside.{Puts};

use crate::cabinet::Cabinet;
use crate::{Failed, Shelf, Sink};
use pbs_base::Memory;
use std::alloc::Global;

/// Named files in memory. An absent name is an empty file, and a slot in which no file stands reads as an empty file.
#[derive(Drop)]
pub struct CalmShelf {
    cabinet: Cabinet,
    alloc: Global,
}

impl CalmShelf {
    ghost use Rattle.pbs_io.specs.Calm.{calm_shelf_state};
    ghost use Rattle.pbs_io.specs.Outside.{with_file};

    /// No files yet.
    pub fn new(alloc: Global) -> CalmShelf
        ensures files { (calm_shelf_state result).files ≡ Some [] }
        ensures first { ((calm_shelf_state result).slots 0).stands ≡ false }
        ensures second { ((calm_shelf_state result).slots 1).stands ≡ false }
    {
        CalmShelf {
            cabinet: Cabinet::new(alloc),
            alloc,
        }
    }

    /// Adds a file, or puts other bytes under a name that is there. Then no file stands in a slot. `Memory` leaves the
    /// shelf as it was.
    pub fn add(&mut self, name: &str, bytes: &[u8]) -> Result<(), Memory>
        ensures files { OnOk result ((calm_shelf_state self.new).files
            ≡ option_map (λ files. with_file files name.now bytes.now) (calm_shelf_state self.old).files) }
        ensures first { OnOk result (((calm_shelf_state self.new).slots 0).stands ≡ false) }
        ensures second { OnOk result (((calm_shelf_state self.new).slots 1).stands ≡ false) }
        ensures err { OnErr result (calm_shelf_state self.new ≡ calm_shelf_state self.old) }
    {
        self.cabinet.add(self.alloc, name, bytes)
    }
}

impl Shelf for CalmShelf {
    ghost use Rattle.pbs_io.specs.Calm.{calm_shelf_state};

    ghost state = { calm_shelf_state };

    ghost sound_tells = { λ _ _. refl };

    fn open_slot(&mut self, slot: usize, name: &str) -> Result<(), Failed> {
        match self.cabinet.find(name) {
            Some(file) => self.cabinet.open(slot, file),
            None => self.cabinet.open_empty(slot),
        }
        Ok(())
    }

    fn read_slot(&mut self, slot: usize, buffer: &mut [u8]) -> Result<usize, Failed> {
        let room = buffer.len();
        Ok(self.cabinet.read(slot, buffer, room))
    }
}

/// Takes every piece whole, keeps nothing and tells no bytes.
#[derive(Drop)]
pub struct CalmSink;

impl CalmSink {
    pub fn new() -> CalmSink {
        CalmSink
    }
}

impl Default for CalmSink {
    fn default() -> CalmSink {
        CalmSink
    }
}

impl Sink for CalmSink {
    ghost use Rattle.pbs_io.specs.Calm.{calm_sink_state};

    ghost state = { calm_sink_state };

    fn put(&mut self, piece: &[u8]) -> Result<usize, Failed>
        requires { 0 < length piece.now }
        ensures bound { IfOk result (λ n. (0 < n) × (n ≤ length piece.now)) }
        ensures puts { Puts (calm_sink_state self.old) (calm_sink_state self.new) piece.now result }
        ensures whole { IfOk result (λ n. n ≡ length piece.now) }
    {
        Ok(piece.len())
    }
}

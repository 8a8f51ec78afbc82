// The two devices that the program is lent: docs/ARCHITECTURE.md, "The outside".
ghost use Rattle.std.specs.Prelude.{◌≡◌, ◌<◌, ◌≤◌, length, IfOk, IsSome, true};
ghost use Rattle.std.specs.Io.{ReadsAtMost};
ghost use Rattle.pbs_io.specs.Outside.{ShelfState, SinkState, Opens, Reads, Puts};

use crate::Failed;

/// Named files, which are read through the slots 0 and 1. `state` is what a shelf means: its files and what is left to
/// read in each slot, where they are told, a count of faults that never falls, and whether it is sound.
pub trait Shelf {
    ghost state: { Self → ShelfState };

    /// Puts the slot at the beginning of the named file and replaces what was in the slot. `Failed` leaves no file in
    /// the slot, and comes only where the count of faults rose.
    fn open_slot(&mut self, slot: usize, name: &str) -> Result<(), Failed>
        requires { slot < 2 }
        ensures { Opens (state self.old) (state self.new) slot name.now result };

    /// Moves the next bytes into the front of `buffer` and answers how many: zero exactly at the end of the file.
    /// `Failed` has moved none, and comes only where the count of faults rose.
    fn read_slot(&mut self, slot: usize, buffer: &mut [u8]) -> Result<usize, Failed>
        requires slot_in { slot < 2 }
        requires room { 0 < length buffer.old }
        ensures bound { ReadsAtMost result buffer.new }
        ensures reads { Reads (state self.old) (state self.new) slot buffer.new result };

    /// A sound shelf tells its files.
    ghost sound_tells: { (shelf : Self) → (state shelf).sound ≡ true → IsSome (state shelf).files };
}

/// Takes the bytes that are written. `state` is what a sink means: the bytes written, where they are told, and a count
/// of faults that never falls.
pub trait Sink {
    ghost state: { Self → SinkState };

    /// Appends the first bytes of the piece and answers how many, at least one. `Failed` has appended none, and comes
    /// only where the count of faults rose.
    fn put(&mut self, piece: &[u8]) -> Result<usize, Failed>
        requires { 0 < length piece.now }
        ensures bound { IfOk result (λ n. (0 < n) × (n ≤ length piece.now)) }
        ensures puts { Puts (state self.old) (state self.new) piece.now result };
}

// A shelf in memory, whose calls fail where they are told to.
ghost use Rattle.std.specs.Prelude.{◌≡◌, ◌+◌, ◌-◌, ◌<◌, ◌^◌, min, [], ◌∷◌, ◌++◌, length, true, false, Some, IfOk, OnOk};
ghost use Rattle.std.specs.Prelude.{OnErr, is_err, not, ◌||◌, refl, option_map};
ghost use Rattle.std.specs.Io.{ReadsAtMost};
ghost use Rattle.pbs_io.specs.Outside.{Opens, Reads};

use crate::cabinet::Cabinet;
use crate::calls::Calls;
use crate::{Failed, Shelf};
use pbs_base::Memory;
use std::alloc::Global;

/// Named files in memory. It tells all content. A call fails exactly where it is told to, or for a name that isn't
/// there, or for a slot in which no file stands; the calls are counted from 0.
#[derive(Drop)]
pub struct MemShelf {
    cabinet: Cabinet,
    calls: Calls,
    alloc: Global,
    step: usize,
    ghost positive: { 0 < step },
}

impl MemShelf {
    ghost use Rattle.pbs_io.specs.Memory.{mem_shelf_state, shelf_fails, shelf_calls, shelf_step};
    ghost use Rattle.pbs_io.specs.Outside.{with_file};

    /// No files yet. A read moves at most `step` bytes.
    pub fn new(alloc: Global, step: usize) -> MemShelf
        requires { 0 < step }
        ensures files { (mem_shelf_state result).files ≡ Some [] }
        ensures first { ((mem_shelf_state result).slots 0).stands ≡ false }
        ensures second { ((mem_shelf_state result).slots 1).stands ≡ false }
        ensures faults { (mem_shelf_state result).faults ≡ 0 }
        ensures sound { (mem_shelf_state result).sound ≡ true }
        ensures calls { shelf_calls result ≡ 0 }
        ensures fails { shelf_fails result ≡ [] }
        ensures step { shelf_step result ≡ step }
    {
        MemShelf {
            cabinet: Cabinet::new(alloc),
            calls: Calls::new(alloc),
            alloc,
            step,
        }
    }

    /// Adds a file, or puts other bytes under a name that is there. Then no file stands in a slot. `Memory` leaves the
    /// shelf as it was.
    pub fn add(&mut self, name: &str, bytes: &[u8]) -> Result<(), Memory>
        ensures files { OnOk result ((mem_shelf_state self.new).files
            ≡ option_map (λ files. with_file files name.now bytes.now) (mem_shelf_state self.old).files) }
        ensures first { OnOk result (((mem_shelf_state self.new).slots 0).stands ≡ false) }
        ensures second { OnOk result (((mem_shelf_state self.new).slots 1).stands ≡ false) }
        ensures err { OnErr result (mem_shelf_state self.new ≡ mem_shelf_state self.old) }
        ensures faults { (mem_shelf_state self.new).faults ≡ (mem_shelf_state self.old).faults }
        ensures sound { (mem_shelf_state self.new).sound ≡ (mem_shelf_state self.old).sound }
        ensures calls { shelf_calls self.new ≡ shelf_calls self.old }
        ensures fails { shelf_fails self.new ≡ shelf_fails self.old }
        ensures step { shelf_step self.new ≡ shelf_step self.old }
    {
        self.cabinet.add(self.alloc, name, bytes)
    }

    /// The call with this number, counted from 0, is to fail. `Memory` leaves the shelf as it was.
    pub fn fail_at(&mut self, call: u64) -> Result<(), Memory>
        ensures added { OnOk result (shelf_fails self.new ≡ shelf_fails self.old ++ call ∷ []) }
        ensures err { OnErr result (mem_shelf_state self.new ≡ mem_shelf_state self.old) }
        ensures files { (mem_shelf_state self.new).files ≡ (mem_shelf_state self.old).files }
        ensures slots { (mem_shelf_state self.new).slots ≡ (mem_shelf_state self.old).slots }
        ensures faults { (mem_shelf_state self.new).faults ≡ (mem_shelf_state self.old).faults }
        ensures calls { shelf_calls self.new ≡ shelf_calls self.old }
        ensures step { shelf_step self.new ≡ shelf_step self.old }
    {
        self.calls.fail_at(call)
    }
}

impl Shelf for MemShelf {
    ghost use Rattle.pbs_io.specs.Memory.{mem_shelf_state, shelf_fails, shelf_calls, shelf_step, shelf_moves};
    ghost use Rattle.pbs_io.specs.Memory.{is_to_fail};
    ghost use Rattle.pbs_io.specs.Outside.{has_file};
    ghost use Rattle.pbs_io.specs.Cabinet.{entries};

    ghost state = { mem_shelf_state };

    ghost sound_tells = { λ _ _. refl };

    #[tactic(auto, using(crate::proofs::CallLemmas::calm_later, crate::proofs::CallLemmas::calm_passes))]
    fn open_slot(&mut self, slot: usize, name: &str) -> Result<(), Failed>
        requires { slot < 2 }
        ensures opens { Opens (mem_shelf_state self.old) (mem_shelf_state self.new) slot name.now result }
        ensures exact { is_err result
            ≡ (is_to_fail (shelf_fails self.old) (shelf_calls self.old) || not
            (has_file (entries self.old.cabinet.files.items) name.now)) }
        ensures counted { shelf_calls self.new ≡ min (shelf_calls self.old + 1) (2 ^ 64 - 1) }
        ensures fails { shelf_fails self.new ≡ shelf_fails self.old }
        ensures step { shelf_step self.new ≡ shelf_step self.old }
    {
        if self.calls.count() {
            self.cabinet.close(slot);
            return Err(self.calls.fail());
        }
        match self.cabinet.find(name) {
            Some(file) => {
                self.cabinet.open(slot, file);
                Ok(())
            }
            None => {
                self.cabinet.close(slot);
                Err(self.calls.fail())
            }
        }
    }

    #[tactic(auto, using(crate::proofs::CallLemmas::calm_later, crate::proofs::CallLemmas::calm_passes))]
    fn read_slot(&mut self, slot: usize, buffer: &mut [u8]) -> Result<usize, Failed>
        requires slot_in { slot < 2 }
        requires room { 0 < length buffer.old }
        ensures bound { ReadsAtMost result buffer.new }
        ensures reads { Reads (mem_shelf_state self.old) (mem_shelf_state self.new) slot buffer.new result }
        ensures exact { is_err result
            ≡ (is_to_fail (shelf_fails self.old) (shelf_calls self.old) || not
            ((mem_shelf_state self.old).slots slot).stands) }
        ensures most { IfOk result (λ n. n ≡ shelf_moves self.old slot (length buffer.old)) }
        ensures counted { shelf_calls self.new ≡ min (shelf_calls self.old + 1) (2 ^ 64 - 1) }
        ensures fails { shelf_fails self.new ≡ shelf_fails self.old }
        ensures step { shelf_step self.new ≡ shelf_step self.old }
    {
        if self.calls.count() || !self.cabinet.stands(slot) {
            return Err(self.calls.fail());
        }
        Ok(self.cabinet.read(slot, buffer, self.step))
    }
}

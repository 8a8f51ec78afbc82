// Calls that are counted, some of which are to fail.
ghost use Rattle.std.specs.Prelude.{◌≡◌, ◌+◌, ◌-◌, ◌^◌, ◌≤◌, min, [], ◌∷◌, ◌++◌, OnOk, OnErr};

use crate::Failed;
use pbs_base::Memory;
use std::alloc::Global;

#[derive(Drop)]
pub(crate) struct Calls {
    next: u64,
    faults: u64,
    fails: Vec<u64>,
}

impl Calls {
    ghost use Rattle.pbs_io.specs.Memory.{is_to_fail};

    pub(crate) fn new(alloc: Global) -> Calls
        ensures next { result.next ≡ 0 }
        ensures faults { result.faults ≡ 0 }
        ensures fails { result.fails.items ≡ [] }
    {
        Calls {
            next: 0,
            faults: 0,
            fails: Vec::new(alloc),
        }
    }

    pub(crate) fn fail_at(&mut self, call: u64) -> Result<(), Memory>
        ensures added { OnOk result (self.new.fails.items ≡ self.old.fails.items ++ call ∷ []) }
        ensures err { OnErr result (self.new.fails.items ≡ self.old.fails.items) }
        ensures next { self.new.next ≡ self.old.next }
        ensures faults { self.new.faults ≡ self.old.faults }
    {
        match self.fails.push(call) {
            Ok(()) => Ok(()),
            Err(_) => Err(Memory),
        }
    }

    // Counts a call, and says whether it is to fail.
    pub(crate) fn count(&mut self) -> bool
        ensures value { result ≡ is_to_fail self.old.fails.items self.old.next }
        ensures next { self.new.next ≡ min (self.old.next + 1) (2 ^ 64 - 1) }
        ensures later { self.old.next ≤ self.new.next }
        ensures fails { self.new.fails ≡ self.old.fails }
        ensures faults { self.new.faults ≡ self.old.faults }
    {
        let fails = self.fails.contains(&self.next);
        self.next = self.next.saturating_add(1);
        fails
    }

    // Counts a fault.
    pub(crate) fn fail(&mut self) -> Failed
        ensures faults { self.new.faults ≡ min (self.old.faults + 1) (2 ^ 64 - 1) }
        ensures later { self.old.faults ≤ self.new.faults }
        ensures next { self.new.next ≡ self.old.next }
        ensures fails { self.new.fails ≡ self.old.fails }
    {
        self.faults = self.faults.saturating_add(1);
        Failed
    }
}

// For each gate, those that wait for it.

ghost use Rattle.std.specs.Prelude.{◌≡◌, ◌<◌, [], ◌∷◌, ◌++◌, length, IfOk, OnOk, replicate, slice_set, slice_index_or};

use std::alloc::{AllocError, Global};
use std::marker::Model;
use std::mem;

/// A gate that waits: its pins before this one are settled.
#[derive(Clone, Copy)]
pub struct Waiter {
    pub gate: usize,
    pub pin: usize,
}

#[derive(Drop)]
pub struct Waiting {
    lists: Vec<Vec<Waiter>>,
}

impl Model for Waiting {
    ghost use Rattle.std.specs.Prelude.{List, map};
    ghost use Rattle.vlog_order.specs.declared.waiting.Waiter.{Waiter};

    ghost Value = { List (List Waiter) };

    ghost view = { λ w. map (λ v. v.items) w.lists.items };
}

impl Waiting {
    /// Nobody waits for any of so many gates.
    pub fn new(alloc: Global, gates: usize) -> Result<Waiting, AllocError>
        ensures { IfOk result (λ waiting. waiting ≡ replicate gates []) }
    {
        let mut lists = Vec::new(alloc);
        for _ in 0..gates {
            lists.push(Vec::new(alloc))?;
        }
        Ok(Waiting { lists })
    }

    pub fn push(&mut self, gate: usize, waiter: Waiter) -> Result<(), AllocError>
        requires { gate < length self.old }
        ensures { OnOk result (self.new ≡ slice_set self.old gate (slice_index_or self.old gate [] ++ waiter ∷ [])) }
    {
        self.lists[gate].push(waiter)?;
        Ok(())
    }

    /// Those that wait for the gate, who then wait no more.
    pub fn take(&mut self, alloc: Global, gate: usize) -> Vec<Waiter>
        requires { gate < length self.old }
        ensures woken { result.items ≡ slice_index_or self.old gate [] }
        ensures others { self.new ≡ slice_set self.old gate [] }
    {
        mem::replace(&mut self.lists[gate], Vec::new(alloc))
    }
}

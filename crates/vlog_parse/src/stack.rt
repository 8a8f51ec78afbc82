// What was put down last is taken up first.
ghost use Rattle.std.specs.Prelude.{◌≡◌, [], ◌∷◌, length, OnOk, MatchOption};

use pbs_base::Memory;
use std::alloc::Global;
use std::marker::Model;

/// A stack, which contracts see as its items, the last pushed first.
#[derive(Drop)]
pub struct Stack<T> {
    held: Vec<T>,
}

impl<T> Model for Stack<T> {
    ghost use Rattle.std.specs.Prelude.{List, reverse};
    ghost use Rattle.std.specs.Coded.{coded_list};

    ghost Value = { List T };

    ghost coded = { coded_list T.code };

    ghost view = { λ stack. reverse stack.held.items };
}

impl<T> Stack<T> {
    pub fn new(alloc: Global) -> Stack<T>
        ensures { result ≡ [] }
    {
        Stack {
            held: Vec::new(alloc),
        }
    }

    pub fn len(&self) -> usize
        ensures { result ≡ length self.now }
    {
        self.held.len()
    }

    pub fn pop(&mut self) -> Option<T>
        ensures top { MatchOption result (self.old ≡ []) (λ item. self.old ≡ item ∷ self.new) }
        ensures empty { MatchOption result (self.new ≡ []) (λ item. Unit {0}) }
    {
        self.held.pop()
    }
}

impl<T: Drop> Stack<T> {
    pub fn push(&mut self, item: T) -> Result<(), Memory>
        ensures { OnOk result (self.new ≡ item ∷ self.old) }
    {
        self.held.push(item)?;
        Ok(())
    }
}

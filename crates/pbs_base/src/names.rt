ghost use Rattle.std.specs.Prelude.{◌≡◌, ◌<◌, [], ◌∷◌, ◌++◌, Ok, true, false, length, slice_get, IsSome, IfSome};
ghost use Rattle.std.specs.Prelude.{IfNone, IfOk, OnErr, ◌↔◌, Contains, Some, ◌==◌};
ghost use Rattle.std.specs.List.{position};
ghost use Rattle.std.specs.Cmp.Lexicographic.{pointwise};
ghost use Rattle.std.specs.Option.{option_copied};
ghost use Rattle.pbs_base.specs.Words.{AreDifferent};

use crate::{Memory, Word};
use indexmap::IndexSet;
use std::alloc::Global;
use std::marker::Model;

/// Words in the order in which they came, all different. Contracts see the list of the words.
#[derive(Drop)]
pub struct Names {
    held: IndexSet<Word>,
}

impl Model for Names {
    ghost use Rattle.std.specs.Prelude.{ℕ, List};

    ghost Value = { List (List ℕ) };

    ghost view = { λ names. names.held.keys };
}

impl Names {
    pub fn new(alloc: Global) -> Names
        ensures { result ≡ [] }
    {
        Names {
            held: IndexSet::new(alloc),
        }
    }

    /// The words as names, in their order.
    pub fn from_words(alloc: Global, words: &[Word]) -> Result<Names, Memory>
        requires { AreDifferent words.now }
        ensures { IfOk result (λ names. names ≡ words.now) }
    {
        let mut names = Names::new(alloc);
        for word in words {
            names.add(Word::new(alloc, word.bytes())?)?;
        }
        Ok(names)
    }

    pub fn len(&self) -> usize
        ensures count { result ≡ length self.now }
        ensures different { AreDifferent self.now }
    {
        self.held.len()
    }

    /// `None` exactly where `n` isn't below the length.
    pub fn get(&self, n: usize) -> Option<&Word>
        ensures value { option_copied result ≡ slice_get self.now n }
        ensures found { IsSome result ↔ (n < length self.now) }
    {
        self.held.get_index(n)
    }

    /// Adds the word and answers true, or false exactly where it is there already. Then, and on `Memory`, nothing
    /// changes.
    pub fn add(&mut self, word: Word) -> Result<bool, Memory>
        ensures there { result ≡ Ok false → Contains self.old word }
        ensures kept { result ≡ Ok false → self.new ≡ self.old }
        ensures fresh { result ≡ Ok true → Contains self.old word → ⊥ }
        ensures added { result ≡ Ok true → self.new ≡ self.old ++ word ∷ [] }
        ensures err { OnErr result (self.new ≡ self.old) }
    {
        let (_, is_new) = self.held.insert_full(word)?;
        Ok(is_new)
    }

    /// The number of the word, `None` exactly where it isn't there.
    pub fn find(&self, word: &Word) -> Option<usize>
        ensures index { result ≡ position (pointwise ◌==◌ word.now) self.now }
        ensures within { IfSome result (λ n. n < length self.now) }
        ensures found { IfSome result (λ n. slice_get self.now n ≡ Some word.now) }
        ensures absent { IfNone result (Contains self.now word.now → ⊥) }
    {
        self.held.get_index_of(word)
    }

    /// The same list again.
    pub fn copy(&self, alloc: Global) -> Result<Names, Memory>
        ensures { IfOk result (λ copy. copy ≡ self.now) }
    {
        let mut copy = Names::new(alloc);
        for n in 0..self.len() {
            let Some(word) = self.get(n) else {
                unreachable!();
            };
            copy.add(Word::new(alloc, word.bytes())?)?;
        }
        Ok(copy)
    }
}

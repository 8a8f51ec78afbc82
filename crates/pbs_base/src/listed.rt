ghost use Rattle.std.specs.Prelude.{◌≡◌, [], ◌∷◌, ◌++◌, ◌<◌, length, slice_get, IsSome, ◌↔◌, OnOk, OnErr};
ghost use Rattle.std.specs.Option.{option_copied};

use crate::Memory;
use std::alloc::Global;
use std::marker::Model;

/// A list, which contracts see as its items. It may stand inside a type that holds itself.
#[derive(Drop)]
pub struct Listed<T> {
    held: Vec<T>,
}

impl<T> Model for Listed<T> {
    ghost use Rattle.std.specs.Prelude.{List};
    ghost use Rattle.std.specs.Coded.{coded_list};

    ghost Value = { List T };

    ghost coded = { coded_list T.code };

    ghost view = { λ list. list.held.items };
}

impl<T> Listed<T> {
    pub fn new(alloc: Global) -> Listed<T>
        ensures { result ≡ [] }
    {
        Listed {
            held: Vec::new(alloc),
        }
    }

    pub fn as_slice(&self) -> &[T]
        ensures { result.now ≡ self.now }
    {
        self.held.as_slice()
    }

    pub fn len(&self) -> usize
        ensures { result ≡ length self.now }
    {
        self.held.len()
    }

    /// `None` exactly where `n` isn't below the length.
    pub fn get(&self, n: usize) -> Option<&T>
        ensures value { option_copied result ≡ slice_get self.now n }
        ensures found { IsSome result ↔ (n < length self.now) }
    {
        self.held.get(n)
    }
}

impl<T: Drop> Listed<T> {
    /// Adds the item at the end. On `Memory` it is dropped and nothing changes.
    pub fn push(&mut self, item: T) -> Result<(), Memory>
        ensures ok { OnOk result (self.new ≡ self.old ++ item ∷ []) }
        ensures err { OnErr result (self.new ≡ self.old) }
    {
        self.held.push(item)?;
        Ok(())
    }
}

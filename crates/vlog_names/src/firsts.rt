// The first places of names.
ghost use Rattle.std.specs.Prelude.{◌≡◌, IfOk, OnOk, [], not, is_some, Some};
ghost use Rattle.vlog_names.specs.Names.{first_in, IsFirsts};
ghost use Rattle.vlog_names.specs.inner.Steps.{Learns};

use pbs_base::{Memory, Word};
use std::alloc::Global;
use std::collections::HashMap;
use vlog_text::RawName;

/// The words of a list with the first place of each.
#[derive(Drop)]
pub struct Firsts {
    places: HashMap<Word, usize>,
}

impl Firsts {
    pub(crate) fn new(alloc: Global) -> Firsts
        ensures { IsFirsts [] result }
    {
        Firsts {
            places: HashMap::new(alloc),
        }
    }

    /// The first place of the word, `None` where it has none.
    pub(crate) fn find(&self, word: &Word) -> Option<usize>
        ensures { result ≡ first_in self.now word.now }
    {
        self.places.get(word).copied()
    }

    pub(crate) fn has(&self, word: &Word) -> bool
        ensures { result ≡ is_some (first_in self.now word.now) }
    {
        self.find(word).is_some()
    }

    /// Notes that the name stands at this place, unless it stands at an earlier one; answers whether it doesn't.
    pub(crate) fn enter(
        &mut self,
        alloc: Global,
        name: &RawName,
        place: usize,
    ) -> Result<bool, Memory>
        ensures is_new { IfOk result (λ is_new. is_new ≡ not (is_some (first_in self.old name.now.word))) }
        ensures learns { OnOk result (Learns self.old self.new (Some name.now) place) }
    {
        if self.has(&name.word) {
            return Ok(false);
        }
        let word = Word::new(alloc, name.word.bytes())?;
        self.places.insert(word, place)?;
        Ok(true)
    }
}

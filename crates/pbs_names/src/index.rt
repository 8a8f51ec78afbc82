// The numbers of names, found at once.
ghost use Rattle.std.specs.Prelude.{◌≡◌, IfOk};
ghost use Rattle.std.specs.Option.{option_copied};
ghost use Rattle.pbs_names.specs.Naming.{prod_names, body_of};
ghost use Rattle.pbs_names.specs.Numbers.{IsNumbering};

use crate::names::{action_words, input_words, prod_words};
use pbs_ast::{Expr, Prods, Spec};
use pbs_base::{Memory, Word};
use std::alloc::Global;
use std::collections::HashMap;

/// The words of a list with the number of each, that of its first place.
#[derive(Drop)]
pub struct Numbers {
    firsts: HashMap<Word, usize>,
}

impl Numbers {
    ghost use Rattle.pbs_names.specs.Numbers.{number_in, IsNumbering};

    pub fn new(alloc: Global, mut words: Vec<Word>) -> Result<Numbers, Memory>
        ensures { IfOk result (IsNumbering words.items) }
    {
        let mut firsts = HashMap::new(alloc);
        while let Some(word) = words.pop() {
            firsts.insert(word, words.len())?;
        }
        Ok(Numbers { firsts })
    }

    /// The number of the word, `None` where it isn't in the list.
    pub fn find(&self, word: &Word) -> Option<usize>
        ensures { result ≡ number_in self.now word.now }
    {
        self.firsts.get(word).copied()
    }
}

/// The numbers of the names of a specification.
#[derive(Drop)]
pub struct Index {
    pub inputs: Numbers,
    pub actions: Numbers,
    pub prods: Numbers,
}

impl Index {
    ghost use Rattle.pbs_names.specs.Numbers.{IsIndexOf};

    pub fn new(alloc: Global, spec: &Spec) -> Result<Index, Memory>
        ensures { IfOk result (IsIndexOf spec.now) }
    {
        let inputs = Numbers::new(alloc, input_words(alloc, &spec.inputs)?)?;
        let actions = Numbers::new(alloc, action_words(alloc, &spec.actions)?)?;
        let prods = Numbers::new(alloc, prod_words(alloc, &spec.prods)?)?;
        Ok(Index {
            inputs,
            actions,
            prods,
        })
    }
}

/// The body of the first production of that name.
pub fn body_of<'a>(prods: &'a Prods, index: &Numbers, name: &Word) -> Option<&'a Expr>
    requires { IsNumbering (prod_names prods.now) index.now }
    ensures { option_copied result ≡ body_of prods.now name.now }
{
    match index.find(name) {
        Some(number) => match prods.get(number) {
            Some(prod) => Some(&prod.body),
            None => None,
        },
        None => None,
    }
}

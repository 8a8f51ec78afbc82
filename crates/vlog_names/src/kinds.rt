// As what words are declared.
ghost use Rattle.std.specs.Prelude.{◌≡◌, OnOk, [], if◌then◌else◌, ℕ, List};
ghost use Rattle.std.specs.Str.{bytes_eq};
ghost use Rattle.vlog_text.specs.Standing.{is_clock, is_reset};
ghost use Rattle.vlog_names.specs.Names.{no_kinds, kinds_in, is_plain, KnowsKinds};
ghost use Rattle.vlog_names.specs.inner.Steps.{with_kind, is_any};

use pbs_base::{Memory, Word};
use std::alloc::Global;
use std::collections::HashMap;
use vlog_text::{DeclKind, RawDecl};

/// As what a word is declared.
#[derive(Clone, Copy)]
pub struct Kinds {
    pub input: bool,
    pub output: bool,
    pub wire: bool,
    pub reg: bool,
}

impl Kinds {
    pub(crate) fn none() -> Kinds
        ensures { result ≡ no_kinds }
    {
        Kinds {
            input: false,
            output: false,
            wire: false,
            reg: false,
        }
    }

    pub(crate) fn with(self, kind: DeclKind) -> Kinds
        ensures { result ≡ with_kind self kind }
    {
        Kinds {
            input: self.input || matches!(kind, DeclKind::Input),
            output: self.output || matches!(kind, DeclKind::Output),
            wire: self.wire || matches!(kind, DeclKind::Wire),
            reg: self.reg || matches!(kind, DeclKind::Reg),
        }
    }

    pub(crate) fn any(self) -> bool
        ensures { result ≡ is_any self }
    {
        self.input || self.output || self.wire || self.reg
    }
}

/// As what each word is declared.
#[derive(Drop)]
pub struct KindTable {
    kinds: HashMap<Word, Kinds>,
}

impl KindTable {
    pub(crate) fn new(alloc: Global) -> KindTable
        ensures { KnowsKinds [] result }
    {
        KindTable {
            kinds: HashMap::new(alloc),
        }
    }

    pub(crate) fn of(&self, word: &Word) -> Kinds
        ensures { result ≡ kinds_in self.now word.now }
    {
        match self.kinds.get(word) {
            Some(kinds) => *kinds,
            None => Kinds::none(),
        }
    }

    pub(crate) fn add(&mut self, alloc: Global, decl: &RawDecl) -> Result<(), Memory>
        ensures { OnOk result ((w : List ℕ) → kinds_in self.new w
            ≡ (if bytes_eq w decl.now.name.word then with_kind (kinds_in self.old w) decl.now.kind
            else kinds_in self.old w)) }
    {
        let kinds = self.of(&decl.name.word).with(decl.kind);
        let word = Word::new(alloc, decl.name.word.bytes())?;
        self.kinds.insert(word, kinds)?;
        Ok(())
    }
}

pub(crate) fn is_clock(word: &Word) -> bool
    ensures { result ≡ is_clock word.now }
{
    word.bytes() == b"clk".as_slice()
}

pub(crate) fn is_reset(word: &Word) -> bool
    ensures { result ≡ is_reset word.now }
{
    word.bytes() == b"rst".as_slice()
}

/// Whether the word, declared as these things, is an input other than `clk` and `rst`.
pub(crate) fn is_plain(kinds: Kinds, word: &Word) -> bool
    ensures { result ≡ is_plain kinds word.now }
{
    kinds.input && !(is_clock(word) || is_reset(word))
}

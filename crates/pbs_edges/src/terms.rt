// Effective terms. Each is written as a word of bytes, so that equal ones are found.
ghost use Rattle.std.specs.Prelude.{◌≡◌, ◌≤◌, ◌++◌, [], ◌∷◌, ◌⊎◌, length, Contains, IfOk, OnOk, IsTrue, slice_get};
ghost use Rattle.bool_terms.specs.Terms.{And, term_inputs_below, term_of};
ghost use Rattle.pbs_ast.specs.Trees.{tree_of};
ghost use Rattle.pbs_ast.specs.Sound.{inputs_below};
ghost use Rattle.pbs_edges.specs.Effective.{effective_terms};
ghost use Rattle.pbs_edges.specs.Codes.{code, Adds, AllMean, IsTermTable, Means};

use crate::edge::Places;
use bool_terms::Term;
use pbs_ast::{Main, Tree, TreeKind};
use pbs_base::{Listed, Memory, Names, Word};
use std::alloc::Global;

/// The most different effective terms that a tree may have.
pub const MOST_TERMS: usize = 256;

pub type Terms = Listed<Term>;

/// The different effective terms that were found, each as one term, and the number of that of each place.
#[derive(Drop)]
pub struct TermTable {
    pub codes: Names,
    pub terms: Terms,
    pub of_place: Places,
}

// Appends the bytes that the term is written as.
fn push_code(term: &Term, out: &mut Vec<u8>) -> Result<(), Memory>
    ensures { OnOk result (out.new.items ≡ out.old.items ++ code (term_of term.now)) }
{
    match term {
        Term::Const(value) => out.push(u8::from(*value))?,
        Term::Input(n) => {
            out.push(2)?;
            out.push(*n)?;
        }
        Term::Not(inner) => {
            out.push(3)?;
            push_code(inner, out)?;
        }
        Term::And(left, right) => {
            out.push(4)?;
            push_code(left, out)?;
            push_code(right, out)?;
        }
        Term::Or(left, right) => {
            out.push(5)?;
            push_code(left, out)?;
            push_code(right, out)?;
        }
    }
    Ok(())
}

// What stands round a part of the tree: the terms of the holds, as bytes and as one term.
#[derive(Drop)]
struct Front {
    bytes: Vec<u8>,
    term: Term,
}

// The bytes with those of one more term.
fn with_code(alloc: Global, front: &[u8], term: &Term) -> Result<Vec<u8>, Memory>
    ensures { IfOk result (λ bytes. bytes.items ≡ front.now ++ code (term_of term.now)) }
{
    let mut bytes = Vec::from_slice(alloc, front)?;
    push_code(term, &mut bytes)?;
    Ok(bytes)
}

// A term that is true where both are.
fn both(alloc: Global, left: &Term, right: &Term) -> Result<Term, Memory>
    ensures { IfOk result (λ both. term_of both ≡ And (term_of left.now) (term_of right.now)) }
{
    let left = left.copy(alloc)?;
    let right = right.copy(alloc)?;
    Ok(Term::And(Box::new(alloc, left)?, Box::new(alloc, right)?))
}

// The front with one more term.
fn with_term(alloc: Global, front: &Front, term: &Term) -> Result<Front, Memory>
    requires inputs { IsTrue (term_inputs_below 64 (term_of term.now)) }
    requires front { Means front.now.bytes.items front.now.term }
    ensures bytes { IfOk result (λ new. new.bytes.items ≡ front.now.bytes.items ++ code (term_of term.now)) }
    ensures means { IfOk result (λ new. Means new.bytes.items new.term) }
{
    let bytes = with_code(alloc, &front.bytes, term)?;
    let term = both(alloc, &front.term, term)?;
    Ok(Front { bytes, term })
}

// Adds a term that isn't there, with its word, and tells its number.
fn add_term(table: &mut TermTable, word: Word, term: Term) -> Result<u32, Memory>
    requires few { length table.old.codes ≤ 256 }
    requires new { Contains table.old.codes word → ⊥ }
    requires word { Means word term }
    requires table { AllMean table.old.codes table.old.terms }
    ensures number { IfOk result (λ n. slice_get table.new.codes n ≡ Some word) }
    ensures codes { OnOk result (table.new.codes ≡ table.old.codes ++ word ∷ []) }
    ensures table { OnOk result (AllMean table.new.codes table.new.terms) }
    ensures of_place { table.new.of_place ≡ table.old.of_place }
{
    let number = table.codes.len() as u32;
    table.codes.add(word)?;
    table.terms.push(term)?;
    Ok(number)
}

// The number of the effective term of a place, which is added where it isn't there.
fn number_of(alloc: Global, front: Front, table: &mut TermTable) -> Result<u32, Memory>
    requires few { length table.old.codes ≤ 256 }
    requires front { Means front.bytes.items front.term }
    requires table { AllMean table.old.codes table.old.terms }
    ensures number { IfOk result (λ n. slice_get table.new.codes n ≡ Some front.bytes.items) }
    ensures codes { OnOk result ((table.new.codes ≡ table.old.codes)
        ⊎ (table.new.codes ≡ table.old.codes ++ front.bytes.items ∷ [])) }
    ensures table { OnOk result (AllMean table.new.codes table.new.terms) }
    ensures of_place { table.new.of_place ≡ table.old.of_place }
{
    let word = Word::new(alloc, &front.bytes)?;
    match table.codes.find(&word) {
        Some(number) => Ok(number as u32),
        None => add_term(table, word, front.term),
    }
}

// Adds the effective term of a place, unless there are too many already.
fn add_place(alloc: Global, front: &Front, own: &Term, table: &mut TermTable) -> Result<(), Memory>
    requires inputs { IsTrue (term_inputs_below 64 (term_of own.now)) }
    requires front { Means front.now.bytes.items front.now.term }
    requires table { AllMean table.old.codes table.old.terms }
    ensures table { OnOk result (AllMean table.new.codes table.new.terms) }
    ensures adds { OnOk result (Adds front.now.bytes.items ((term_of own.now ∷ []) ∷ []) table.old table.new) }
{
    if table.codes.len() > MOST_TERMS {
        return Ok(());
    }
    let whole = with_term(alloc, front, own)?;
    let number = number_of(alloc, whole, table)?;
    table.of_place.push(number)?;
    Ok(())
}

// Adds the effective terms of the places of a part of the tree.
fn add_all(alloc: Global, tree: &Tree, front: &Front, table: &mut TermTable) -> Result<(), Memory>
    requires inputs { IsTrue (inputs_below 64 (tree_of tree.now)) }
    requires front { Means front.now.bytes.items front.now.term }
    requires table { AllMean table.old.codes table.old.terms }
    ensures table { OnOk result (AllMean table.new.codes table.new.terms) }
    ensures adds { OnOk result (Adds front.now.bytes.items (effective_terms (tree_of tree.now)) table.old table.new) }
{
    match &tree.kind {
        TreeKind::Empty => Ok(()),
        TreeKind::Terminal(_, term) => add_place(alloc, front, term, table),
        TreeKind::Action(_) => Ok(()),
        TreeKind::Seq(left, right) => match add_all(alloc, left, front, table) {
            Ok(()) => add_all(alloc, right, front, table),
            Err(Memory) => Err(Memory),
        },
        TreeKind::Choice(left, right) => match add_all(alloc, left, front, table) {
            Ok(()) => add_all(alloc, right, front, table),
            Err(Memory) => Err(Memory),
        },
        TreeKind::Star(body) => add_all(alloc, body, front, table),
        TreeKind::Hold(term, body) => match with_term(alloc, front, term) {
            Ok(front) => add_all(alloc, body, &front, table),
            Err(Memory) => Err(Memory),
        },
        TreeKind::Scope(_, body, trap, after) => match add_all(alloc, body, front, table) {
            Ok(()) => match add_all(alloc, trap, front, table) {
                Ok(()) => add_all(alloc, after, front, table),
                Err(Memory) => Err(Memory),
            },
            Err(Memory) => Err(Memory),
        },
    }
}

/// The different effective terms of main, and which of them each place has. Where there are more than 256, some are
/// missing, and more than 256 are there.
pub fn find_terms(alloc: Global, main: &Main) -> Result<TermTable, Memory>
    ensures { IfOk result (IsTermTable (tree_of main.now.tree)) }
{
    let mut table = TermTable {
        codes: Names::new(alloc),
        terms: Listed::new(alloc),
        of_place: Listed::new(alloc),
    };
    let front = Front {
        bytes: Vec::new(alloc),
        term: Term::Const(true),
    };
    add_all(alloc, &main.tree, &front, &mut table)?;
    let _count = table.codes.len();
    Ok(table)
}

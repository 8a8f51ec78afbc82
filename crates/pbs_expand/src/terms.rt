// Terms with the inputs' numbers.

ghost use Rattle.std.specs.Prelude.{◌≡◌, ◌≤◌, ◌<◌, ◌+◌, length, vec_len, map, MatchOption, IfOk, if◌then◌else◌};
ghost use Rattle.bool_terms.specs.Terms.{term_of, term_nodes, Not, Input};
ghost use Rattle.pbs_names.specs.Naming.{index_of, input_names, bus_of};
ghost use Rattle.pbs_names.specs.Numbers.{IsNumbering};
ghost use Rattle.pbs_expand.specs.Written.{written, named_term, both, empty_term, equal_term, joined, literals};
ghost use Rattle.pbs_expand.specs.inner.WrittenTerms.{IsWritten, IsJoined, AreWritten, AreLiterals, weight};

use bool_terms::Term;
use pbs_ast::{Decls, SpecTerm, TermItems};
use pbs_base::{Memory, Word};
use pbs_names::{Bus, Numbers, find_bus};
use std::alloc::Global;

#[derive(Clone, Copy)]
pub enum Connective {
    AndOf,
    OrOf,
}

/// A term and how many nodes it has.
#[derive(Drop)]
pub struct Written {
    pub term: Term,
    pub nodes: u32,
}

/// Terms and how many nodes they have together.
#[derive(Drop)]
pub struct Many {
    pub terms: Vec<Term>,
    pub nodes: u32,
}

fn input_term(inputs: &Decls, index: &Numbers, name: &Word) -> Term
    requires index { IsNumbering (input_names inputs.now) index.now }
    requires few { length (input_names inputs.now) ≤ 64 }
    ensures { term_of result ≡ named_term (index_of (input_names inputs.now) name.now) }
{
    match index.find(name) {
        Some(number) => Term::Input(number as u8),
        None => Term::Const(false),
    }
}

fn both(alloc: Global, by: Connective, first: Term, second: Term) -> Result<Term, Memory>
    ensures { IfOk result (λ t. term_of t ≡ both by (term_of first) (term_of second)) }
{
    let first = Box::new(alloc, first)?;
    let second = Box::new(alloc, second)?;
    match by {
        Connective::AndOf => Ok(Term::And(first, second)),
        Connective::OrOf => Ok(Term::Or(first, second)),
    }
}

/// The one term, or that of none.
fn single_term(by: Connective, mut terms: Vec<Term>) -> Term
    requires { vec_len terms ≤ 1 }
    ensures { IsJoined by (map term_of terms.items) result }
{
    match terms.pop() {
        Some(term) => term,
        None => empty_term(by),
    }
}

/// The terms joined by halves.
fn join(alloc: Global, by: Connective, mut terms: Vec<Term>) -> Result<Term, Memory>
    ensures { IfOk result (IsJoined by (map term_of terms.items)) }
{
    let count = terms.len();
    if count <= 1 {
        return Ok(single_term(by, terms));
    }
    let second = terms.split_off(count - count / 2)?;
    let first = join(alloc, by, terms)?;
    let second = join(alloc, by, second)?;
    both(alloc, by, first, second)
}

fn empty_term(by: Connective) -> Term
    ensures { term_of result ≡ empty_term by }
{
    match by {
        Connective::AndOf => Term::Const(true),
        Connective::OrOf => Term::Const(false),
    }
}

/// A term of one node.
fn leaf_term(term: Term, room: u32) -> Option<Written>
    requires { term_nodes (term_of term) ≡ 1 }
    ensures { MatchOption result (room < 1) (IsWritten (term_of term) room) }
{
    if room == 0 {
        None
    } else {
        Some(Written { term, nodes: 1 })
    }
}

fn not_term(alloc: Global, inner: Written, room: u32) -> Result<Option<Written>, Memory>
    requires { inner.nodes ≡ term_nodes (term_of inner.term) }
    ensures { let t = Not (term_of inner.term) in
        IfOk result (λ some. MatchOption some (room < 1 + inner.nodes) (IsWritten t room)) }
{
    if inner.nodes >= room {
        return Ok(None);
    }
    let term = Term::Not(Box::new(alloc, inner.term)?);
    Ok(Some(Written {
        term,
        nodes: inner.nodes + 1,
    }))
}

/// One term of several.
fn joined_term(
    alloc: Global,
    by: Connective,
    many: Many,
    room: u32,
) -> Result<Option<Written>, Memory>
    requires { AreWritten (map term_of many.terms.items) room many }
    ensures { let ts = map term_of many.terms.items in let t = joined (length ts) by ts in
        IfOk result (λ some. MatchOption some (room < term_nodes t) (IsWritten t room)) }
{
    let count = many.terms.len();
    if count == 0 {
        return Ok(leaf_term(empty_term(by), room));
    }
    let term = join(alloc, by, many.terms)?;
    Ok(Some(Written {
        term,
        nodes: many.nodes - 1,
    }))
}

/// The literal of one bit of a bus.
fn literal(alloc: Global, input: u8, is_set: bool) -> Result<Written, Memory>
    ensures { IfOk result (IsWritten (if is_set then Input input else Not (Input input)) 2) }
{
    let term = Term::Input(input);
    if is_set {
        Ok(Written { term, nodes: 1 })
    } else {
        Ok(Written {
            term: Term::Not(Box::new(alloc, term)?),
            nodes: 2,
        })
    }
}

/// The literals of all bits of a bus, from bit 0 up.
fn write_literals(alloc: Global, bus: Bus, number: u32) -> Result<Many, Memory>
    requires { bus.start + bus.width ≤ 64 }
    ensures { IfOk result (AreLiterals (literals bus.start number 0 bus.width)) }
{
    let number = u64::from(number);
    let mut terms = Vec::new(alloc);
    let mut nodes = 0;
    for bit in 0..bus.width {
        let written = literal(alloc, bus.start + bit, number >> bit & 1 == 1)?;
        nodes += written.nodes + 1;
        terms.push(written.term)?;
    }
    Ok(Many { terms, nodes })
}

/// The term of a bus that equals a number.
fn write_equal(
    alloc: Global,
    inputs: &Decls,
    name: &Word,
    number: u32,
    room: u32,
) -> Result<Option<Written>, Memory>
    requires few { length (input_names inputs.now) ≤ 64 }
    requires room { room < 4294967295 }
    ensures { let t = equal_term (bus_of inputs.now name.now) number in
        IfOk result (λ some. MatchOption some (room < term_nodes t) (IsWritten t room)) }
{
    let Some(bus) = find_bus(inputs, name) else {
        return Ok(leaf_term(Term::Const(false), room));
    };
    let many = write_literals(alloc, bus, number)?;
    if many.nodes > room + 1 {
        return Ok(None);
    }
    joined_term(alloc, Connective::AndOf, many, room)
}

#[cycle(write_term)]
fn write_items(
    alloc: Global,
    inputs: &Decls,
    index: &Numbers,
    items: &TermItems,
    room: u32,
) -> Result<Option<Many>, Memory>
    requires index { IsNumbering (input_names inputs.now) index.now }
    requires few { length (input_names inputs.now) ≤ 64 }
    requires room { room < 4294967295 }
    ensures { let ts = map (written inputs.now) items.now in
        IfOk result (λ some. MatchOption some (room + 1 < weight ts) (AreWritten ts room)) }
{
    let mut terms = Vec::new(alloc);
    let mut nodes = 0;
    for item in items.as_slice() {
        if nodes > room {
            return Ok(None);
        }
        match write_term(alloc, inputs, index, item, room - nodes) {
            Ok(Some(written)) => {
                nodes += written.nodes;
                nodes += 1;
                terms.push(written.term)?;
            }
            Ok(None) => return Ok(None),
            Err(memory) => return Err(memory),
        }
    }
    Ok(Some(Many { terms, nodes }))
}

/// The term, unless it has more nodes than there is room for.
#[cycle(write_term)]
pub(crate) fn write_term(
    alloc: Global,
    inputs: &Decls,
    index: &Numbers,
    term: &SpecTerm,
    room: u32,
) -> Result<Option<Written>, Memory>
    requires index { IsNumbering (input_names inputs.now) index.now }
    requires few { length (input_names inputs.now) ≤ 64 }
    requires room { room < 4294967295 }
    ensures { let t = written inputs.now term.now in
        IfOk result (λ some. MatchOption some (room < term_nodes t) (IsWritten t room)) }
{
    match term {
        SpecTerm::Const(value) => Ok(leaf_term(Term::Const(*value), room)),
        SpecTerm::Name(name, _) => Ok(leaf_term(input_term(inputs, index, name), room)),
        SpecTerm::Equal(name, _, number, _) => write_equal(alloc, inputs, name, *number, room),
        SpecTerm::Not(inner) => match write_term(alloc, inputs, index, inner, room) {
            Ok(Some(inner)) => not_term(alloc, inner, room),
            Ok(None) => Ok(None),
            Err(memory) => Err(memory),
        },
        SpecTerm::All(items) => match write_items(alloc, inputs, index, items, room) {
            Ok(Some(many)) => joined_term(alloc, Connective::AndOf, many, room),
            Ok(None) => Ok(None),
            Err(memory) => Err(memory),
        },
        SpecTerm::Any(items) => match write_items(alloc, inputs, index, items, room) {
            Ok(Some(many)) => joined_term(alloc, Connective::OrOf, many, room),
            Ok(None) => Ok(None),
            Err(memory) => Err(memory),
        },
    }
}

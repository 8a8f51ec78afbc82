// Names with their places, and those that stand twice.
ghost use Rattle.std.specs.Prelude.{◌≡◌, ◌++◌, IfOk, OnOk, Some};
ghost use Rattle.pbs_check.specs.Declaring.{named, declared_by, declared_inputs, declared_actions, declared_levels};
ghost use Rattle.pbs_check.specs.Declaring.{declared_prods, declared_names, listed};
ghost use Rattle.pbs_check.specs.Least.{least_of};
ghost use Rattle.pbs_check.specs.inner.Twices.{first_twice, later_of};

use crate::least::{earlier, later, least_of};
use pbs_ast::{Decl, Decls, Levels, Prods, Sets, Spec};
use pbs_base::{Memory, Span, Word};
use pbs_names::bit_word;
use std::alloc::Global;
use std::collections::HashMap;

/// A name with the place at which it is declared or listed.
#[derive(Drop)]
pub struct Named {
    pub name: Word,
    pub span: Span,
}

fn make_named(alloc: Global, span: Span, name: &Word) -> Result<Named, Memory>
    ensures { IfOk result (λ n. n ≡ named span name.now) }
{
    Ok(Named {
        name: Word::new(alloc, name.bytes())?,
        span,
    })
}

/// Adds what an input or a bus declares.
fn push_input(alloc: Global, decl: &Decl, out: &mut Vec<Named>) -> Result<(), Memory>
    ensures { OnOk result (out.new.items ≡ out.old.items ++ declared_by decl.now) }
{
    out.push(make_named(alloc, decl.span, &decl.name)?)?;
    for bit in 0..decl.width {
        out.push(Named {
            name: bit_word(alloc, &decl.name, bit)?,
            span: decl.span,
        })?;
    }
    Ok(())
}

fn push_inputs(alloc: Global, inputs: &Decls, out: &mut Vec<Named>) -> Result<(), Memory>
    ensures { OnOk result (out.new.items ≡ out.old.items ++ declared_inputs inputs.now) }
{
    for decl in inputs.as_slice() {
        push_input(alloc, decl, out)?;
    }
    Ok(())
}

fn push_actions(alloc: Global, actions: &Decls, out: &mut Vec<Named>) -> Result<(), Memory>
    ensures { OnOk result (out.new.items ≡ out.old.items ++ declared_actions actions.now) }
{
    for decl in actions.as_slice() {
        out.push(make_named(alloc, decl.span, &decl.name)?)?;
    }
    Ok(())
}

fn push_levels(alloc: Global, levels: &Levels, out: &mut Vec<Named>) -> Result<(), Memory>
    ensures { OnOk result (out.new.items ≡ out.old.items ++ declared_levels levels.now) }
{
    for level in levels.as_slice() {
        out.push(make_named(alloc, level.span, &level.name)?)?;
    }
    Ok(())
}

fn push_prods(alloc: Global, prods: &Prods, out: &mut Vec<Named>) -> Result<(), Memory>
    ensures { OnOk result (out.new.items ≡ out.old.items ++ declared_prods prods.now) }
{
    for prod in prods.as_slice() {
        out.push(make_named(alloc, prod.span, &prod.name)?)?;
    }
    Ok(())
}

/// Every declared name.
pub(crate) fn declared_names(alloc: Global, spec: &Spec) -> Result<Vec<Named>, Memory>
    ensures { IfOk result (λ names. names.items ≡ declared_names spec.now) }
{
    let mut names = Vec::new(alloc);
    push_inputs(alloc, &spec.inputs, &mut names)?;
    push_actions(alloc, &spec.actions, &mut names)?;
    push_levels(alloc, &spec.levels, &mut names)?;
    push_prods(alloc, &spec.prods, &mut names)?;
    Ok(names)
}

/// The actions that a level lists.
pub(crate) fn listed(alloc: Global, sets: &Sets) -> Result<Vec<Named>, Memory>
    ensures { IfOk result (λ names. names.items ≡ listed sets.now) }
{
    let mut names = Vec::new(alloc);
    for set in sets.as_slice() {
        names.push(make_named(alloc, set.span, &set.action)?)?;
    }
    Ok(names)
}

fn later_of(known: Option<Span>, span: Span) -> Option<Span>
    ensures { result ≡ later_of known span }
{
    match known {
        Some(known) => Some(later(known, span)),
        None => None,
    }
}

fn first_of(span: Span, known: Option<Span>) -> Span
    ensures { Some result ≡ least_of (Some span) known }
{
    match known {
        Some(known) => earlier(span, known),
        None => span,
    }
}

/// The least place at which a name stands that stands earlier too.
pub(crate) fn first_twice(alloc: Global, mut names: Vec<Named>) -> Result<Option<Span>, Memory>
    ensures { IfOk result (λ found. found ≡ first_twice names.items) }
{
    let mut firsts: HashMap<Word, Span> = HashMap::new(alloc);
    let mut found = None;
    while let Some(named) = names.pop() {
        let known = firsts.get(&named.name).copied();
        found = least_of(later_of(known, named.span), found);
        firsts.insert(named.name, first_of(named.span, known))?;
    }
    Ok(found)
}

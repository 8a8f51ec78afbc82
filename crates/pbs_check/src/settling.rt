// Productions one after another, each once all is known of those that it uses.
ghost use Rattle.std.specs.Prelude.{◌≡◌, ◌<◌, true, false, None, OnOk, IfOk, Contains};
ghost use Rattle.pbs_check.specs.inner.Facts.{known_of, expr_facts};
ghost use Rattle.pbs_check.specs.inner.Truth.{AreFirst, IsStuck, Settles, unknown_count};

use crate::facts::{Known, expr_facts};
use pbs_ast::{Prod, Prods};
use pbs_base::{Memory, Word};
use std::alloc::Global;

/// Learns of the production, where enough is known. True where something was learnt.
fn learn(alloc: Global, prods: &Prods, prod: &Prod, known: &mut Known) -> Result<bool, Memory>
    requires first { AreFirst prods.now }
    requires there { Contains prods.now prod.now }
    requires settles { Settles prods.now (known_of known.old) }
    ensures settles { OnOk result (Settles prods.now (known_of known.new)) }
    ensures fewer { IfOk result (λ learnt. learnt ≡ true
        → unknown_count prods.now (known_of known.new) < unknown_count prods.now (known_of known.old)) }
    ensures same { IfOk result (λ learnt. learnt ≡ false → known.new ≡ known.old) }
    ensures stuck { IfOk result (λ learnt. learnt ≡ false → known_of known.old prod.now.name ≡ None
        → expr_facts (known_of known.old) prod.now.body ≡ None) }
{
    if known.facts.contains_key(&prod.name) {
        return Ok(false);
    }
    match expr_facts(known, &prod.body) {
        Some(facts) => {
            let name = Word::new(alloc, prod.name.bytes())?;
            known.facts.insert(name, facts)?;
            Ok(true)
        }
        None => Ok(false),
    }
}

/// Goes over all productions once. True where something was learnt.
fn learn_all(alloc: Global, prods: &Prods, known: &mut Known) -> Result<bool, Memory>
    requires first { AreFirst prods.now }
    requires settles { Settles prods.now (known_of known.old) }
    ensures settles { OnOk result (Settles prods.now (known_of known.new)) }
    ensures fewer { IfOk result (λ learnt. learnt ≡ true
        → unknown_count prods.now (known_of known.new) < unknown_count prods.now (known_of known.old)) }
    ensures stuck { IfOk result (λ learnt. learnt ≡ false → IsStuck prods.now (known_of known.new)) }
{
    let mut learnt = false;
    for prod in prods.as_slice() {
        if learn(alloc, prods, prod, known)? {
            learnt = true;
        }
    }
    Ok(learnt)
}

fn learn_at(alloc: Global, prods: &Prods, number: usize, known: &mut Known) -> Result<(), Memory>
    requires first { AreFirst prods.now }
    requires settles { Settles prods.now (known_of known.old) }
    ensures { OnOk result (Settles prods.now (known_of known.new)) }
{
    if let Some(prod) = prods.get(number) {
        learn(alloc, prods, prod, known)?;
    }
    Ok(())
}

fn learn_in_order(
    alloc: Global,
    prods: &Prods,
    order: &[usize],
    known: &mut Known,
) -> Result<(), Memory>
    requires first { AreFirst prods.now }
    requires settles { Settles prods.now (known_of known.old) }
    ensures { OnOk result (Settles prods.now (known_of known.new)) }
{
    for number in order {
        learn_at(alloc, prods, *number, known)?;
    }
    Ok(())
}

/// What can be learnt of productions. Where the order is right, one more round over all of them ends it.
pub(crate) fn settle(alloc: Global, prods: &Prods, order: &[usize]) -> Result<Known, Memory>
    requires { AreFirst prods.now }
    ensures settles { IfOk result (λ known. Settles prods.now (known_of known)) }
    ensures stuck { IfOk result (λ known. IsStuck prods.now (known_of known)) }
{
    let mut known = Known::new(alloc);
    learn_in_order(alloc, prods, order, &mut known)?;
    while learn_all(alloc, prods, &mut known)? {}
    Ok(known)
}

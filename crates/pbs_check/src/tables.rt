// The tables of the declared names.
ghost use Rattle.std.specs.Prelude.{◌≡◌, IfOk, map};
ghost use Rattle.pbs_check.specs.inner.Stages.{IsTables};
ghost use Rattle.pbs_check.specs.Using.{bus_names};

use crate::facts::Known;
use crate::named::{Named, declared_names};
use crate::uses::Tables;
use pbs_ast::{Decls, Spec};
use pbs_base::{Memory, Word};
use pbs_names::{Numbers, action_words, input_words, prod_words};
use std::alloc::Global;

fn words_of(alloc: Global, names: &[Named]) -> Result<Vec<Word>, Memory>
    ensures { IfOk result (λ words. words.items ≡ map (λ n. n.name) names.now) }
{
    let mut words = Vec::new(alloc);
    for named in names {
        words.push(Word::new(alloc, named.name.bytes())?)?;
    }
    Ok(words)
}

fn bus_words(alloc: Global, inputs: &Decls) -> Result<Vec<Word>, Memory>
    ensures { IfOk result (λ words. words.items ≡ bus_names inputs.now) }
{
    let mut words = Vec::new(alloc);
    for decl in inputs.as_slice() {
        if decl.width != 0 {
            words.push(Word::new(alloc, decl.name.bytes())?)?;
        }
    }
    Ok(words)
}

pub(crate) fn tables_of(alloc: Global, spec: &Spec) -> Result<Tables, Memory>
    ensures { IfOk result (IsTables spec.now) }
{
    let names = declared_names(alloc, spec)?;
    let declared = Numbers::new(alloc, words_of(alloc, names.as_slice())?)?;
    let inputs = Numbers::new(alloc, input_words(alloc, &spec.inputs)?)?;
    let buses = Numbers::new(alloc, bus_words(alloc, &spec.inputs)?)?;
    let actions = Numbers::new(alloc, action_words(alloc, &spec.actions)?)?;
    let prods = Numbers::new(alloc, prod_words(alloc, &spec.prods)?)?;
    Ok(Tables {
        declared,
        inputs,
        buses,
        actions,
        prods,
        known: Known::new(alloc),
    })
}

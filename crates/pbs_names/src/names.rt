// The names that a specification declares, in order.
ghost use Rattle.std.specs.Prelude.{◌≡◌, ◌++◌, IfOk, OnOk};
ghost use Rattle.pbs_names.specs.Naming.{bit_name, bit_names, input_names, action_names, level_names, prod_names};

use pbs_ast::{Decls, Levels, Prods};
use pbs_base::{Memory, Word};
use std::alloc::Global;

/// The input that is a bit of a bus.
pub fn bit_word(alloc: Global, bus: &Word, bit: u8) -> Result<Word, Memory>
    ensures { IfOk result (λ word. word ≡ bit_name bus.now bit) }
{
    let tail = format!(in alloc; "_{bit}")?;
    let mut bytes = Vec::from_slice(alloc, bus.bytes())?;
    bytes.extend_from_slice(tail.as_bytes())?;
    Word::new(alloc, bytes.as_slice())
}

/// Adds the bits of a bus as inputs, from bit 0 up.
fn push_bits(alloc: Global, bus: &Word, width: u8, words: &mut Vec<Word>) -> Result<(), Memory>
    ensures { OnOk result (words.new.items ≡ words.old.items ++ bit_names bus.now 0 width) }
{
    for bit in 0..width {
        words.push(bit_word(alloc, bus, bit)?)?;
    }
    Ok(())
}

/// The inputs in declared order, where a bus stands for its bits.
pub fn input_words(alloc: Global, inputs: &Decls) -> Result<Vec<Word>, Memory>
    ensures { IfOk result (λ words. words.items ≡ input_names inputs.now) }
{
    let mut words = Vec::new(alloc);
    for decl in inputs.as_slice() {
        if decl.width == 0 {
            words.push(Word::new(alloc, decl.name.bytes())?)?;
        } else {
            push_bits(alloc, &decl.name, decl.width, &mut words)?;
        }
    }
    Ok(words)
}

pub fn action_words(alloc: Global, actions: &Decls) -> Result<Vec<Word>, Memory>
    ensures { IfOk result (λ words. words.items ≡ action_names actions.now) }
{
    let mut words = Vec::new(alloc);
    for decl in actions.as_slice() {
        words.push(Word::new(alloc, decl.name.bytes())?)?;
    }
    Ok(words)
}

pub fn level_words(alloc: Global, levels: &Levels) -> Result<Vec<Word>, Memory>
    ensures { IfOk result (λ words. words.items ≡ level_names levels.now) }
{
    let mut words = Vec::new(alloc);
    for level in levels.as_slice() {
        words.push(Word::new(alloc, level.name.bytes())?)?;
    }
    Ok(words)
}

pub fn prod_words(alloc: Global, prods: &Prods) -> Result<Vec<Word>, Memory>
    ensures { IfOk result (λ words. words.items ≡ prod_names prods.now) }
{
    let mut words = Vec::new(alloc);
    for prod in prods.as_slice() {
        words.push(Word::new(alloc, prod.name.bytes())?)?;
    }
    Ok(words)
}

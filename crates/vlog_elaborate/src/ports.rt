// The inputs and the outputs, in the order of the ports.
ghost use Rattle.std.specs.Prelude.{◌≡◌, [], ◌∷◌, ◌++◌, IfOk, OnOk, map, filter, if◌then◌else◌, Contains};
ghost use Rattle.vlog_text.specs.declared.raw.RawName.{RawName as Named};
ghost use Rattle.vlog_text.specs.Words.{repeated};
ghost use Rattle.vlog_names.specs.Numbers.{names_input, names_output};
ghost use Rattle.vlog_elaborate.specs.inner.Parts.{output_at};

use net_core::{Output, Outputs};
use pbs_base::{Memory, Names, Word};
use std::alloc::Global;
use vlog_names::Numbers;
use vlog_order::place_of;
use vlog_text::RawName;

fn add_new(names: &mut Names, word: Word) -> Result<(), Memory>
    requires { Contains names.old word → ⊥ }
    ensures { OnOk result (names.new ≡ names.old ++ word ∷ []) }
{
    names.add(word)?;
    Ok(())
}

// Adds the name, if it is an input other than `clk` and `rst`.
fn add_input(
    names: &mut Names,
    alloc: Global,
    numbers: &Numbers,
    name: &RawName,
) -> Result<(), Memory>
    requires { Contains names.old name.now.word → ⊥ }
    ensures { OnOk result (names.new ≡ names.old
        ++ (if names_input numbers.now name.now.word then name.now.word ∷ [] else [])) }
{
    if !numbers.is_input(&name.word) {
        return Ok(());
    }
    add_new(names, Word::new(alloc, name.word.bytes())?)
}

/// The words of the inputs other than `clk` and `rst`.
pub(crate) fn input_names(
    alloc: Global,
    numbers: &Numbers,
    ports: &[RawName],
) -> Result<Names, Memory>
    requires { repeated [] ports.now ≡ [] }
    ensures { IfOk result (λ names. names ≡ map (λ (n : Named). n.word)
        (filter (λ (n : Named). names_input numbers.now n.word) ports.now)) }
{
    let mut names = Names::new(alloc);
    for name in ports {
        add_input(&mut names, alloc, numbers, name)?;
    }
    Ok(names)
}

fn output(
    alloc: Global,
    numbers: &Numbers,
    places: &[u32],
    name: &RawName,
) -> Result<Output, Memory>
    ensures { IfOk result (λ output. output ≡ output_at numbers.now places.now name.now) }
{
    let word = Word::new(alloc, name.word.bytes())?;
    let gate = place_of(places, numbers.driver(&name.word));
    Ok(Output { name: word, gate })
}

// Adds the name with its driver's place, if it is an output.
fn add_output(
    outputs: &mut Outputs,
    alloc: Global,
    numbers: &Numbers,
    places: &[u32],
    name: &RawName,
) -> Result<(), Memory>
    ensures { OnOk result (outputs.new ≡ outputs.old ++ (if names_output numbers.now name.now.word
        then output_at numbers.now places.now name.now ∷ [] else [])) }
{
    if !numbers.is_output(&name.word) {
        return Ok(());
    }
    outputs.push(output(alloc, numbers, places, name)?)
}

/// The outputs, each with its driver's place.
pub(crate) fn outputs(
    alloc: Global,
    numbers: &Numbers,
    places: &[u32],
    ports: &[RawName],
) -> Result<Outputs, Memory>
    ensures { IfOk result (λ outputs. outputs ≡ map (output_at numbers.now places.now)
        (filter (λ (n : Named). names_output numbers.now n.word) ports.now)) }
{
    let mut outputs = Outputs::new(alloc);
    for name in ports {
        add_output(&mut outputs, alloc, numbers, places, name)?;
    }
    Ok(outputs)
}

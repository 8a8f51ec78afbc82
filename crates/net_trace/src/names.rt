// The names of a netlist's outputs.
ghost use Rattle.std.specs.Prelude.{◌≡◌, ◌≤◌, length, map, IfOk};
ghost use Rattle.net_core.specs.Circuits.{IsCircuit, output_names};
ghost use Rattle.net_core.specs.declared.netlist.Output.{Output};

use net_core::{Netlist, Output};
use pbs_base::{Memory, Names, Word};
use std::alloc::Global;

// The words of the outputs, in order.
fn output_words(alloc: Global, outputs: &[Output]) -> Result<Vec<Word>, Memory>
    ensures { IfOk result (λ words. words.items ≡ map (λ (o : Output). o.name) outputs.now) }
{
    let mut words = Vec::new(alloc);
    for output in outputs {
        words.push(Word::new(alloc, output.name.bytes())?)?;
    }
    Ok(words)
}

/// The names of the outputs, in order.
pub(crate) fn port_names(alloc: Global, net: &Netlist) -> Result<Names, Memory>
    ensures names { IfOk result (λ names. names ≡ output_names net.now) }
    ensures few { IfOk result (λ names. length names ≤ 128) }
    ensures right { IsCircuit net.now }
{
    // For the proof alone: what a netlist keeps is known where its gates are read.
    let _ = net.gates();
    let words = output_words(alloc, net.outputs())?;
    Names::from_words(alloc, words.as_slice())
}

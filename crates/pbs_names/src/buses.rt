// Buses among the declared inputs.
ghost use Rattle.std.specs.Prelude.{◌≡◌, ◌≤◌, length};
ghost use Rattle.pbs_names.specs.Naming.{inputs_of, input_names, bus_of};

use pbs_ast::{Decl, Decls};
use pbs_base::Word;

/// A bus by the number of its bit 0 and its width.
#[derive(Clone, Copy)]
pub struct Bus {
    pub start: u8,
    pub width: u8,
}

/// How many inputs the declaration stands for.
#[tactic(auto, using(crate::proofs::NameLemmas::plain_count, crate::proofs::NameLemmas::bus_count))]
pub fn input_count(decl: &Decl) -> u8
    ensures { result ≡ length (inputs_of decl.now) }
{
    if decl.width == 0 { 1 } else { decl.width }
}

/// The first bus of that name.
pub fn find_bus(inputs: &Decls, name: &Word) -> Option<Bus>
    requires few { length (input_names inputs.now) ≤ 64 }
    ensures { result ≡ bus_of inputs.now name.now }
{
    let mut start: u8 = 0;
    for decl in inputs.as_slice() {
        if decl.width != 0 && decl.name == *name {
            return Some(Bus {
                start,
                width: decl.width,
            });
        }
        start += input_count(decl);
    }
    None
}

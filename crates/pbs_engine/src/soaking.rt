// Drives everything at a size of one's choice.
ghost use Rattle.std.specs.Prelude.{◌≡◌, ◌≤◌};
ghost use Rattle.soak_run.specs.Soaks.{spec_text};
ghost use Rattle.pbs_engine.specs.Right.{IsReadBack};
ghost use Rattle.pbs_engine.specs.Soaked.{Soaks};

use crate::compiling::written_netlist;
use crate::fail::EngineFail;
use net_core::Netlist;
use net_eval::laws::simulation;
use soak_run::{count_rows, write_line, write_spec};
use std::alloc::Global;

/// Appends the line of `soak n`: docs/FORMATS.md, "Soak". Makes the specification for n, compiles it, reads its Verilog
/// back and runs that netlist on 10 n vectors. `Refused` comes by the rules of `check`. After a failure `out` is as it
/// was.
pub fn soak(alloc: Global, n: u32, out: &mut Vec<u8>) -> Result<(), EngineFail>
    requires { n ≤ 1000 }
    ensures { Soaks n out.old.items out.new.items result }
{
    let mut text = Vec::new(alloc);
    match write_spec(n, &mut text) {
        Ok(()) => soak_text(alloc, n, text.as_slice(), out),
        Err(_) => Err(EngineFail::Memory),
    }
}

// Appends the line of the specification for n.
fn soak_text(alloc: Global, n: u32, text: &[u8], out: &mut Vec<u8>) -> Result<(), EngineFail>
    requires number { n ≤ 1000 }
    requires text { text.now ≡ spec_text n }
    ensures { Soaks n out.old.items out.new.items result }
{
    match written_netlist(alloc, text) {
        Ok(net) => soak_netlist(alloc, n, &net, out),
        Err(fail) => Err(fail),
    }
}

// Appends the line of the netlist that the Verilog of the specification for n stands for.
fn soak_netlist(alloc: Global, n: u32, net: &Netlist, out: &mut Vec<u8>) -> Result<(), EngineFail>
    requires number { n ≤ 1000 }
    requires net { IsReadBack (spec_text n) net.now }
    ensures { Soaks n out.old.items out.new.items result }
{
    let counts = match count_rows(alloc, net, n) {
        Ok(counts) => counts,
        Err(_) => return Err(EngineFail::Memory),
    };
    simulation();
    match write_line(alloc, n, &counts, out) {
        Ok(()) => Ok(()),
        Err(_) => Err(EngineFail::Memory),
    }
}

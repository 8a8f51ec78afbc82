// Writes the Verilog of a specification.
ghost use Rattle.pbs_engine.specs.Right.{Compiles, IsVerilogOf, ReadsBack};

use crate::controller::controller_of_text;
use crate::fail::EngineFail;
use net_core::Netlist;
use std::alloc::Global;
use vlog_read::laws::one_answer;
use vlog_read::{VlogFail, read_netlist};
use vlog_write::write_netlist;

/// Appends the Verilog of the specification: docs/VERILOG.md. `Refused` comes by the rules of `check`. After a failure
/// `out` is as it was.
pub fn compile(alloc: Global, text: &[u8], out: &mut Vec<u8>) -> Result<(), EngineFail>
    ensures { Compiles text.now out.old.items out.new.items result }
{
    let made = match controller_of_text(alloc, text) {
        Ok(made) => made,
        Err(fail) => return Err(fail),
    };
    match write_netlist(alloc, &made.net, out) {
        Ok(()) => Ok(()),
        Err(_) => Err(EngineFail::Memory),
    }
}

/// The netlist that the Verilog of the specification stands for.
pub(crate) fn written_netlist(alloc: Global, text: &[u8]) -> Result<Netlist, EngineFail>
    ensures { ReadsBack text.now result }
{
    let mut verilog = Vec::new(alloc);
    match compile(alloc, text, &mut verilog) {
        Ok(()) => {}
        Err(fail) => return Err(fail),
    }
    netlist_of_verilog(alloc, text, verilog.as_slice())
}

// The netlist of Verilog that was written.
fn netlist_of_verilog(alloc: Global, text: &[u8], verilog: &[u8]) -> Result<Netlist, EngineFail>
    requires { IsVerilogOf text.now verilog.now }
    ensures { ReadsBack text.now result }
{
    one_answer();
    // For the proof alone: the clause speaks of the text.
    let _ = text;
    match read_netlist(alloc, verilog) {
        Ok(net) => Ok(net),
        Err(VlogFail::Refused(_)) => unreachable!(),
        Err(VlogFail::Memory) => Err(EngineFail::Memory),
    }
}

// Whole texts: docs/VERILOG.md.
ghost use Rattle.vlog_read.specs.Read.{Reads};

use crate::parse::parse_netlist;
use net_core::Netlist;
use std::alloc::Global;
use vlog_elaborate::elaborate;
use vlog_text::VlogFail;

/// The netlist that the text stands for. `Refused` has the first broken rule of 1 to 8, and its place.
pub fn read_netlist(alloc: Global, bytes: &[u8]) -> Result<Netlist, VlogFail>
    ensures { Reads bytes.now result }
{
    let raw = parse_netlist(alloc, bytes)?;
    elaborate(alloc, raw)
}

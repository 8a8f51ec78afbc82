// The text of a small netlist, written out by hand.
ghost use Rattle.std.specs.Prelude.{◌≤◌, length};

use net_core::{Builder, Netlist, Wire};
use pbs_base::{Memory, Names, Word};
use std::alloc::Global;
use std::test::Fail;
use vlog_write::write_netlist;

const WRITTEN: &[u8] = b"// kept
module pbs (clk, rst, a_go);
input clk;
input rst;
output a_go;
reg q0;
wire w0;
or (w0, q0, rst);
buf (a_go, w0);
always @(posedge clk) q0 <= w0;
endmodule
";

// A register that is 1 from the first reset on.
fn netlist(alloc: Global, inputs: Names, name: Word) -> Result<Netlist, Memory>
    requires { length inputs ≤ 64 }
{
    let mut b = Builder::new(alloc, inputs);
    let reg = b.register()?;
    let gate = b.or(Wire::Reg(reg), Wire::Reset)?;
    b.bind_register(reg, gate);
    b.output(name, gate)?;
    Ok(b.finish())
}

#[test]
fn writes_a_netlist(rt: HostRuntime) -> Result<(), Fail> {
    let alloc = rt.alloc();
    let name = Word::new(alloc, b"a_go").ok().ok_or("memory")?;
    let net = netlist(alloc, Names::new(alloc), name)
        .ok()
        .ok_or("memory")?;
    let mut out = Vec::from_slice(alloc, b"// kept\n")?;
    write_netlist(alloc, &net, &mut out).ok().ok_or("memory")?;
    assert_eq!(rt; out.as_slice(), WRITTEN);
    Ok(())
}

// Encodes a netlist by a plan.
ghost use Rattle.std.specs.Prelude.{◌≡◌, ◌≤◌, ◌<◌, ◌+◌, ◌^◌, length, IfOk};
ghost use Rattle.net_core.specs.Circuits.{IsCircuit};
ghost use Rattle.net_core.specs.Plans.{IsWhole};
ghost use Rattle.net_encode.specs.Codes.{code_registers, codes_of};
ghost use Rattle.net_encode.specs.inner.Plans.{IsPlan};
ghost use Rattle.net_encode.specs.inner.Telling.{AreTelling};
ghost use Rattle.net_encode.specs.Encodings.{Encodes, IsOwnMap};

use crate::codes::{count_registers, place_codes};
use crate::draft::{Draft, MOST};
use crate::moving::moved_outputs;
use crate::seats::find_seats;
use crate::stages::{add_copies, add_data, add_table};
use crate::telling::telling_codes;
use net_core::{Code, CodePlan, Netlist, StateMap};
use pbs_base::Memory;
use std::alloc::Global;

/// The netlist whose places share registers by the plan, and the map of its codes: registers of groups come first, and
/// those that are no place's follow. `Memory` also where it would have more than 4,294,967,294 gates or registers.
pub fn encode(
    alloc: Global,
    net: &Netlist,
    map: &StateMap,
    plan: &CodePlan,
) -> Result<(Netlist, StateMap), Memory>
    requires map { IsOwnMap map.now }
    requires places { length map.now ≡ length plan.now.leaders }
    requires registers { length map.now ≤ length net.now.registers }
    requires plan { IsWhole plan.now }
    ensures netlist { IfOk result (λ both. Encodes net.now both.0 (length map.now) plan.now) }
    ensures map { IfOk result (λ both. both.1 ≡ codes_of plan.now) }
{
    net.gates();
    let shared = count_registers(plan.groups.as_slice())?;
    let rest = net.registers().len() - map.len();
    if shared + rest > MOST {
        return Err(Memory);
    }
    let seats = find_seats(alloc, map.len(), plan.groups.as_slice())?;
    let codes = place_codes(alloc, plan, seats.as_slice())?;
    let telling = telling_codes(alloc, plan, seats.as_slice())?;
    let encoded = encoded(alloc, net, telling.as_slice(), plan, shared, rest)?;
    Ok((encoded, codes))
}

// The netlist whose places are told by these codes, with so many registers behind the shared ones.
fn encoded(
    alloc: Global,
    net: &Netlist,
    codes: &[Code],
    plan: &CodePlan,
    shared: usize,
    rest: usize,
) -> Result<Netlist, Memory>
    requires right { IsCircuit net.now }
    requires plan { IsPlan (length codes.now) plan.now }
    requires codes { AreTelling plan.now (length codes.now) codes.now }
    requires shared { shared ≡ code_registers plan.now.groups }
    requires rest { rest + length codes.now ≡ length net.now.registers }
    requires few { shared + rest < 2 ^ 32 }
    ensures { IfOk result (λ new. Encodes net.now new (length codes.now) plan.now) }
{
    let mut draft = Draft::new(alloc, net.inputs().copy(alloc)?, shared + rest)?;
    let table = add_table(&mut draft, codes, shared, rest)?;
    let offset = draft.gates();
    let others = add_copies(&mut draft, net, table.as_slice())?;
    let regs = add_data(
        &mut draft,
        others.as_slice(),
        codes.len(),
        plan.groups.as_slice(),
    )?;
    let outputs = moved_outputs(alloc, net.outputs(), offset, draft.gates())?;
    Ok(draft.finish(regs, outputs))
}

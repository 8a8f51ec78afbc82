// The stages in which a netlist is encoded.
ghost use Rattle.std.specs.Prelude.{◌≡◌, ◌<◌, ◌≤◌, ◌+◌, ◌*◌, ◌++◌, ◌^◌, [], length, take, map, IfOk, OnOk};
ghost use Rattle.net_core.specs.Circuits.{AllThere};
ghost use Rattle.net_core.specs.Building.{HasAll, input_pins};
ghost use Rattle.net_encode.specs.inner.Drafts.{AreFewCodes, Grows};
ghost use Rattle.net_encode.specs.inner.Moves.{gate_moved, moved, with_gates};
ghost use Rattle.net_encode.specs.inner.Sharing.{AreGroups, member_count};
ghost use Rattle.net_encode.specs.inner.Stages.{IsData, IsTable};
ghost use Rattle.net_encode.specs.inner.Unread.{LeavesUnread};

use crate::decode::{add_codes, add_inverters, add_own};
use crate::draft::Draft;
use crate::moving::{copy_gates, moved_wires};
use crate::sharing::{add_groups, add_sources};
use net_core::{Code, Netlist, Places, Wire, Wires};
use pbs_base::Memory;

/// A wire for each old register: for each code one that tells it, and then so many registers behind the shared ones.
pub(crate) fn add_table(
    draft: &mut Draft,
    codes: &[Code],
    shared: usize,
    rest: usize,
) -> Result<Wires, Memory>
    requires none { draft.old.gates ≡ [] }
    requires registers { length draft.old.registers ≡ shared + rest }
    requires few { shared + rest < 2 ^ 32 }
    requires codes { AreFewCodes shared codes.now }
    ensures grows { OnOk result (Grows draft.old draft.new (shared + 3 * length codes.now) 0) }
    ensures table { IfOk result (λ table. IsTable draft.new codes.now shared rest table) }
{
    add_inverters(draft, shared)?;
    let mut table = add_codes(draft, codes, shared)?;
    add_own(&mut table, shared, rest)?;
    Ok(table)
}

/// The old gates, and the data wires of the old registers, with wires of the table in place of registers.
pub(crate) fn add_copies(draft: &mut Draft, net: &Netlist, table: &[Wire]) -> Result<Wires, Memory>
    requires inputs { draft.old.inputs ≡ net.now.inputs }
    requires registers { length table.now ≡ length net.now.registers }
    requires table { HasAll draft.old table.now }
    ensures copies { OnOk result
        (draft.new ≡ with_gates draft.old (map (gate_moved table.now (length draft.old.gates)) net.now.gates)) }
    ensures wires { IfOk result (λ wires. wires ≡ map (moved table.now (length draft.old.gates)) net.now.registers) }
{
    let alloc = draft.allocator();
    let offset = draft.gates();
    copy_gates(draft, net.gates(), table)?;
    moved_wires(alloc, net.registers(), table, offset)
}

/// The data wires of the groups' registers, and then those of the registers that are no place's.
pub(crate) fn add_data(
    draft: &mut Draft,
    others: &[Wire],
    places: usize,
    groups: &[Places],
) -> Result<Wires, Memory>
    requires there { AllThere (length draft.old.inputs) (length draft.old.registers) (length draft.old.gates)
        others.now }
    requires places { places ≤ length others.now }
    requires groups { AreGroups places groups.now }
    ensures grows { OnOk result
        (Grows draft.old draft.new (places + 3 * member_count groups.now) (input_pins (take places others.now))) }
    ensures regs { IfOk result (λ regs. IsData draft.new others.now places groups.now regs) }
    ensures unread { IfOk result (λ regs. LeavesUnread draft.old draft.new others.now regs) }
{
    let sources = add_sources(draft, others, places)?;
    let mut regs = add_groups(draft, sources.as_slice(), groups)?;
    add_wires(&mut regs, &others[places..])?;
    Ok(regs)
}

// Adds the wires at the end.
fn add_wires(wires: &mut Wires, more: &[Wire]) -> Result<(), Memory>
    ensures { OnOk result (wires.new ≡ wires.old ++ more.now) }
{
    for wire in more {
        wires.push(*wire)?;
    }
    Ok(())
}

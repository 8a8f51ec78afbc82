// The wires that registers of groups take.
ghost use Rattle.std.specs.Prelude.{◌≡◌, ◌<◌, ◌≤◌, ◌+◌, ◌*◌, ◌++◌, [], ◌∷◌, ◌&&◌, ◌||◌, Bool, List, length, take};
ghost use Rattle.std.specs.Prelude.{IfOk, OnOk};
ghost use Rattle.net_core.specs.Rows.{Row, value};
ghost use Rattle.net_core.specs.Circuits.{wire_at};
ghost use Rattle.net_core.specs.Building.{HasAll, input_pins};
ghost use Rattle.net_encode.specs.Codes.{code_registers, width};
ghost use Rattle.net_encode.specs.inner.Columns.{code_bits, column, group_bits};
ghost use Rattle.net_encode.specs.inner.Drafts.{Draws, Grows, IsInside};
ghost use Rattle.net_encode.specs.inner.Sharing.{AreGroups, HasFront, IsGroup, ShowsBits, ShowsFront, member_count};
ghost use Rattle.net_encode.specs.inner.Unread.{LeavesUnread};

use crate::codes::{group_width, has_bit};
use crate::draft::Draft;
use net_core::{Places, Wire, Wires};
use pbs_base::Memory;

/// The first wires, each behind a gate where it is an input.
pub(crate) fn add_sources(draft: &mut Draft, others: &[Wire], count: usize) -> Result<Wires, Memory>
    requires count { count ≤ length others.now }
    requires there { HasFront draft.old count others.now }
    ensures grows { OnOk result (Grows draft.old draft.new count (input_pins (take count others.now))) }
    ensures wires { IfOk result (λ wires. ShowsFront draft.new count others.now wires) }
    ensures unread { IfOk result (λ wires. LeavesUnread draft.old draft.new others.now wires) }
{
    let mut wires = Wires::new(draft.allocator());
    for n in 0..count {
        let wire = draft.behind(others[n])?;
        wires.push(wire)?;
    }
    Ok(wires)
}

// The wire, or the source too where it counts.
fn add_member(draft: &mut Draft, wire: Wire, source: Wire, counts: bool) -> Result<Wire, Memory>
    requires wire { IsInside draft.old wire }
    requires source { IsInside draft.old source }
    ensures draws { IfOk result (λ to.
        Draws draft.old draft.new to 1 0 (λ row. value row wire || (counts && value row source))) }
    ensures unread { IfOk result (λ to. LeavesUnread draft.old draft.new (wire ∷ source ∷ []) (to ∷ [])) }
{
    if counts {
        draft.either(wire, source)
    } else {
        Ok(wire)
    }
}

// The wire that is 1 where some member stands that has bit t in its code.
fn add_column(draft: &mut Draft, sources: &[Wire], members: &[u32], t: u8) -> Result<Wire, Memory>
    requires sources { HasAll draft.old sources.now }
    requires group { IsGroup (length sources.now) members.now }
    requires bit { t < 64 }
    ensures draws { IfOk result (λ wire. Draws draft.old draft.new wire (length members.now) 0
        (λ row. column (λ p. value row (wire_at sources.now p)) t 1 members.now)) }
    ensures unread { IfOk result (λ wire. LeavesUnread draft.old draft.new sources.now (wire ∷ [])) }
{
    let mut wire = Wire::Const(false);
    for n in 0..members.len() {
        let counts = has_bit(n as u64 + 1, t);
        wire = add_member(draft, wire, sources[members[n] as usize], counts)?;
    }
    Ok(wire)
}

// Adds the wires that the registers of a group take.
fn add_group(
    draft: &mut Draft,
    wires: &mut Wires,
    sources: &[Wire],
    members: &[u32],
) -> Result<(), Memory>
    requires sources { HasAll draft.old sources.now }
    requires group { IsGroup (length sources.now) members.now }
    ensures grows { OnOk result (Grows draft.old draft.new (3 * length members.now) 0) }
    ensures count { OnOk result (length wires.new ≡ length wires.old + width (length members.now)) }
    ensures wires { OnOk result ((bits_of : Row → List Bool) → ShowsBits draft.old wires.old bits_of
        → ShowsBits draft.new wires.new
        (λ row. bits_of row ++ group_bits (λ p. value row (wire_at sources.now p)) members.now)) }
    ensures unread { OnOk result (LeavesUnread draft.old draft.new (sources.now ++ wires.old) wires.new) }
{
    let count = group_width(members.len());
    for t in 0..count {
        let wire = add_column(draft, sources, members, t as u8)?;
        wires.push(wire)?;
    }
    Ok(())
}

/// The wires that the registers of all groups take: each is 1 where some member of its group stands whose code has the
/// register's bit.
pub(crate) fn add_groups(
    draft: &mut Draft,
    sources: &[Wire],
    groups: &[Places],
) -> Result<Wires, Memory>
    requires sources { HasAll draft.old sources.now }
    requires groups { AreGroups (length sources.now) groups.now }
    ensures grows { OnOk result (Grows draft.old draft.new (3 * member_count groups.now) 0) }
    ensures count { IfOk result (λ wires. length wires ≡ code_registers groups.now) }
    ensures wires { IfOk result (λ wires. ShowsBits draft.new wires
        (λ row. code_bits (λ p. value row (wire_at sources.now p)) groups.now)) }
    ensures unread { IfOk result (λ wires. LeavesUnread draft.old draft.new sources.now wires) }
{
    let mut wires = Wires::new(draft.allocator());
    for n in 0..groups.len() {
        add_group(draft, &mut wires, sources, groups[n].as_slice())?;
    }
    Ok(wires)
}

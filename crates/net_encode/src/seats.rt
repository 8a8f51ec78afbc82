// The seats that members of groups have.
ghost use Rattle.std.specs.Prelude.{◌≡◌, ◌<◌, ◌≤◌, ◌+◌, ◌^◌, length, take, IfOk};
ghost use Rattle.net_encode.specs.Codes.{code_registers};
ghost use Rattle.net_encode.specs.inner.Seats.{AreSeats, AreSeatsTo};
ghost use Rattle.net_encode.specs.inner.Sharing.{AreGroups};

use crate::codes::group_width;
use net_core::Places;
use pbs_base::Memory;
use std::alloc::Global;

/// The code of a member, its group's registers, so many from the first on, and the last code of the group.
#[derive(Clone, Copy)]
pub(crate) struct Seat {
    pub first: usize,
    pub count: usize,
    pub code: u64,
    pub last: u64,
}

// Seats the members of a group, whose codes count from 1.
fn seat_members(seats: &mut Vec<Option<Seat>>, groups: &[Places], number: usize, first: usize)
    requires number { number < length groups.now }
    requires first { first ≡ code_registers (take number groups.now) }
    requires groups { AreGroups (length seats.old.items) groups.now }
    requires seats { AreSeatsTo groups.now number 0 seats.old.items }
    ensures seats { AreSeatsTo groups.now (number + 1) 0 seats.new.items }
    ensures count { length seats.new.items ≡ length seats.old.items }
{
    let members = groups[number].as_slice();
    let count = group_width(members.len());
    for n in 0..members.len() {
        seats[members[n] as usize] = Some(Seat {
            first,
            count,
            code: n as u64 + 1,
            last: members.len() as u64,
        });
    }
}

/// The seat of each of so many places in the groups.
pub(crate) fn find_seats(
    alloc: Global,
    places: usize,
    groups: &[Places],
) -> Result<Vec<Option<Seat>>, Memory>
    requires groups { AreGroups places groups.now }
    requires few { code_registers groups.now < 2 ^ 32 }
    ensures count { IfOk result (λ seats. length seats.items ≡ places) }
    ensures seats { IfOk result (λ seats. AreSeats groups.now seats.items) }
{
    let mut seats = vec![in alloc; None; places]?;
    let mut first = 0;
    for n in 0..groups.len() {
        seat_members(&mut seats, groups, n, first);
        first += group_width(groups[n].len());
    }
    Ok(seats)
}

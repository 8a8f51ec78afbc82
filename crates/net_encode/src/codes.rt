// The codes of places by a plan.
ghost use Rattle.std.specs.Prelude.{◌≡◌, ◌<◌, ◌≤◌, ◌+◌, ◌^◌, length, IfOk};
ghost use Rattle.pbs_base.specs.Entries.{bit};
ghost use Rattle.net_encode.specs.Codes.{code_registers, codes_of, literals_from, low_bits, width};
ghost use Rattle.net_encode.specs.inner.Plans.{IsPlan};
ghost use Rattle.net_encode.specs.inner.Seats.{AreSeats, HasRoom, code_at};

use crate::draft::MOST;
use crate::seats::Seat;
use net_core::{Code, CodePlan, Literal, Literals, Places, StateMap};
use pbs_base::Memory;
use std::alloc::Global;

/// How many registers a group with so many members has.
pub(crate) fn group_width(members: usize) -> usize
    ensures { result ≡ width members }
{
    match members {
        0 => 0,
        1 => 1,
        2 | 3 => 2,
        _ => 3,
    }
}

/// How many registers the groups have.
pub(crate) fn count_registers(groups: &[Places]) -> Result<usize, Memory>
    ensures count { IfOk result (λ count. count ≡ code_registers groups.now) }
    ensures few { IfOk result (λ count. count < 4294967295) }
{
    let mut count = 0;
    for n in 0..groups.len() {
        count += group_width(groups[n].len());
        if count > MOST {
            return Err(Memory);
        }
    }
    Ok(count)
}

/// Bit t of the code.
pub(crate) fn has_bit(code: u64, t: u8) -> bool
    requires { t < 64 }
    ensures { result ≡ bit t code }
{
    (code >> t) % 2 == 1
}

// The literals of a code on so many registers.
fn literals(alloc: Global, first: usize, count: usize, code: u64) -> Result<Literals, Memory>
    requires count { count ≤ 3 }
    requires room { first + count < 2 ^ 32 }
    ensures { IfOk result (λ literals. literals ≡ literals_from first (low_bits count code)) }
{
    let mut literals = Literals::new(alloc);
    for t in 0..count {
        literals.push(Literal {
            reg: (first + t) as u32,
            value: has_bit(code, t as u8),
        })?;
    }
    Ok(literals)
}

// The code of a place with this seat; one with none never stands.
fn seat_code(alloc: Global, seat: Option<Seat>) -> Result<Code, Memory>
    requires { HasRoom seat }
    ensures { IfOk result (λ code. code ≡ code_at seat) }
{
    match seat {
        None => Ok(Code::Never),
        Some(seat) => Ok(Code::Bits(literals(alloc, seat.first, seat.count, seat.code)?)),
    }
}

/// The code of each place.
pub(crate) fn place_codes(
    alloc: Global,
    plan: &CodePlan,
    seats: &[Option<Seat>],
) -> Result<StateMap, Memory>
    requires few { code_registers plan.now.groups < 2 ^ 32 }
    requires plan { IsPlan (length plan.now.leaders) plan.now }
    requires count { length seats.now ≡ length plan.now.leaders }
    requires seats { AreSeats plan.now.groups seats.now }
    ensures { IfOk result (λ map. map ≡ codes_of plan.now) }
{
    let mut map = StateMap::new(alloc);
    for n in 0..plan.leaders.len() {
        let leader = plan.leaders.as_slice()[n];
        map.push(seat_code(alloc, seats[leader as usize])?)?;
    }
    Ok(map)
}

// The fewest literals by which places are told.
ghost use Rattle.std.specs.Prelude.{◌≡◌, ◌<◌, ◌≤◌, ◌+◌, ◌^◌, length, Some, IfOk};
ghost use Rattle.net_encode.specs.Codes.{code_registers};
ghost use Rattle.net_encode.specs.inner.Plans.{IsPlan};
ghost use Rattle.net_encode.specs.inner.Seats.{AreSeats, HasRoom, HasSmallCode};
ghost use Rattle.net_encode.specs.inner.Telling.{AreTelling, is_needed, telling_at, telling_literals};

use crate::codes::has_bit;
use crate::seats::Seat;
use net_core::{Code, CodePlan, Literal, Literals, StateMap};
use pbs_base::Memory;
use std::alloc::Global;

// 2 to the power of t.
fn weight(t: usize) -> u64
    requires { t < 3 }
    ensures { result ≡ 2 ^ t }
{
    match t {
        0 => 1,
        1 => 2,
        _ => 4,
    }
}

// Whether bit t tells the code from another one of its group: 0 and those up to the last.
fn needs(code: u64, last: u64, t: usize) -> bool
    requires bit { t < 3 }
    requires code { code < 256 }
    ensures { result ≡ is_needed last code t }
{
    has_bit(code, t as u8) || code + weight(t) <= last
}

// The literals that tell the seat's code.
fn seat_literals(alloc: Global, seat: Seat) -> Result<Literals, Memory>
    requires room { HasRoom (Some seat) }
    requires code { seat.code < 256 }
    ensures { IfOk result (λ literals. literals ≡ telling_literals seat.first seat.last seat.code seat.count) }
{
    let mut literals = Literals::new(alloc);
    for t in 0..seat.count {
        if needs(seat.code, seat.last, t) {
            literals.push(Literal {
                reg: (seat.first + t) as u32,
                value: has_bit(seat.code, t as u8),
            })?;
        }
    }
    Ok(literals)
}

fn seat_telling(alloc: Global, seat: Option<Seat>) -> Result<Code, Memory>
    requires room { HasRoom seat }
    requires code { HasSmallCode seat }
    ensures { IfOk result (λ code. code ≡ telling_at seat) }
{
    match seat {
        None => Ok(Code::Never),
        Some(seat) => Ok(Code::Bits(seat_literals(alloc, seat)?)),
    }
}

/// For each place the code with the literals by which it is told from the others of its group, and from none.
pub(crate) fn telling_codes(
    alloc: Global,
    plan: &CodePlan,
    seats: &[Option<Seat>],
) -> Result<StateMap, Memory>
    requires few { code_registers plan.now.groups < 2 ^ 32 }
    requires plan { IsPlan (length plan.now.leaders) plan.now }
    requires count { length seats.now ≡ length plan.now.leaders }
    requires seats { AreSeats plan.now.groups seats.now }
    ensures telling { IfOk result (λ codes. AreTelling plan.now (length plan.now.leaders) codes) }
{
    let mut codes = StateMap::new(alloc);
    for n in 0..plan.leaders.len() {
        let leader = plan.leaders.as_slice()[n];
        codes.push(seat_telling(alloc, seats[leader as usize])?)?;
    }
    Ok(codes)
}

// The steps inside what is assigned.
ghost use Rattle.std.specs.Prelude.{◌≡◌, [], ◌∷◌, ◌<◌, length, IfOk, true};
ghost use Rattle.vlog_parse.specs.inner.Machine as machine;
ghost use Rattle.vlog_parse.specs.inner.Machine.{IsNext, held};

use crate::gates::{drive, join_and, join_level, join_xor, put, unwind};
use crate::stack::Stack;
use crate::state::{AssignState, Assigned, Found, Frame, Level, Part, State};
use crate::words::operand;
use pbs_base::{Listed, Memory};
use std::alloc::Global;
use vlog_text::{RawName, Token, TokenKind};

/// How many `(` and `~` may be open.
const MAX_NESTING: usize = 64;

/// The parts at the beginning of a level.
pub(crate) fn no_parts(alloc: Global) -> Level
    ensures { result ≡ machine.no_parts }
{
    Level {
        ors: Listed::new(alloc),
        xors: Listed::new(alloc),
        ands: Listed::new(alloc),
    }
}

fn wants_unit(target: RawName, level: Level, frames: Stack<Frame>) -> State
    ensures { result ≡ machine.wants_unit target level frames }
{
    State::OfAssign(AssignState::WantsUnit(Assigned {
        target,
        level,
        frames,
    }))
}

// Behind a unit that is this part.
fn after_unit(
    alloc: Global,
    target: RawName,
    level: Level,
    frames: Stack<Frame>,
    part: Part,
    found: &mut Found,
) -> Result<Option<State>, Memory>
    ensures { IfOk result (λ r. IsNext (machine.after_unit (record { target = target; level = level; frames = [] })
        frames (held part found.old.gates) found.old) r found.new) }
{
    let mut open = frames;
    let all = unwind(alloc, &mut open, part, &mut found.gates)?;
    Ok(Some(State::OfAssign(AssignState::AfterUnit(
        Assigned {
            target,
            level,
            frames: open,
        },
        all,
    ))))
}

fn open_tilde(assigned: Assigned) -> Result<Option<State>, Memory>
    ensures { IfOk result (λ r. r ≡ machine.tilde_next assigned) }
{
    if assigned.frames.len() >= MAX_NESTING {
        return Ok(None);
    }
    let mut frames = assigned.frames;
    frames.push(Frame::Negation)?;
    Ok(Some(wants_unit(assigned.target, assigned.level, frames)))
}

fn open_round(alloc: Global, assigned: Assigned) -> Result<Option<State>, Memory>
    ensures { IfOk result (λ r. r ≡ machine.round_next assigned) }
{
    if assigned.frames.len() >= MAX_NESTING {
        return Ok(None);
    }
    let mut frames = assigned.frames;
    frames.push(Frame::Bracket(assigned.level))?;
    Ok(Some(wants_unit(assigned.target, no_parts(alloc), frames)))
}

fn lone(
    alloc: Global,
    bytes: &[u8],
    assigned: Assigned,
    token: Token,
    found: &mut Found,
) -> Result<Option<State>, Memory>
    ensures { IfOk result (λ r. IsNext (machine.lone_next bytes.now assigned found.old token.kind token.span)
        r found.new) }
{
    match operand(alloc, bytes, token)? {
        Some(pin) => after_unit(
            alloc,
            assigned.target,
            assigned.level,
            assigned.frames,
            Part::Pin(pin),
            found,
        ),
        None => Ok(None),
    }
}

/// The step where a unit is wanted.
pub(crate) fn unit_next(
    alloc: Global,
    bytes: &[u8],
    assigned: Assigned,
    token: Token,
    found: &mut Found,
) -> Result<Option<State>, Memory>
    ensures { IfOk result (λ r. IsNext (machine.unit_next bytes.now assigned found.old token.kind token.span)
        r found.new) }
{
    match token.kind {
        TokenKind::Tilde => open_tilde(assigned),
        TokenKind::OpenRound => open_round(alloc, assigned),
        _ => lone(alloc, bytes, assigned, token, found),
    }
}

fn behind_and(assigned: Assigned, part: Part, found: &mut Found) -> Result<Option<State>, Memory>
    ensures { IfOk result (λ r. IsNext (machine.and_next assigned part found.old) r found.new) }
{
    let Level { ors, xors, ands } = assigned.level;
    let mut ands = ands;
    put(&mut ands, part, &mut found.gates)?;
    Ok(Some(wants_unit(assigned.target, Level { ors, xors, ands }, assigned.frames)))
}

fn behind_xor(
    alloc: Global,
    assigned: Assigned,
    part: Part,
    found: &mut Found,
) -> Result<Option<State>, Memory>
    ensures { IfOk result (λ r. IsNext (machine.xor_next assigned part found.old) r found.new) }
{
    let Level { ors, xors, ands } = assigned.level;
    let mut xors = xors;
    let all = join_and(ands, part, &mut found.gates)?;
    put(&mut xors, all, &mut found.gates)?;
    let level = Level {
        ors,
        xors,
        ands: Listed::new(alloc),
    };
    Ok(Some(wants_unit(assigned.target, level, assigned.frames)))
}

fn behind_or(
    alloc: Global,
    assigned: Assigned,
    part: Part,
    found: &mut Found,
) -> Result<Option<State>, Memory>
    ensures { IfOk result (λ r. IsNext (machine.or_next assigned part found.old) r found.new) }
{
    let Level { ors, xors, ands } = assigned.level;
    let mut ors = ors;
    let odd = join_xor(xors, ands, part, &mut found.gates)?;
    put(&mut ors, odd, &mut found.gates)?;
    let level = Level {
        ors,
        xors: Listed::new(alloc),
        ands: Listed::new(alloc),
    };
    Ok(Some(wants_unit(assigned.target, level, assigned.frames)))
}

fn close_round(
    alloc: Global,
    assigned: Assigned,
    part: Part,
    found: &mut Found,
) -> Result<Option<State>, Memory>
    ensures { IfOk result (λ r. IsNext (machine.close_next assigned part found.old) r found.new) }
{
    let mut frames = assigned.frames;
    match frames.pop() {
        Some(Frame::Bracket(outer)) => {
            let all = join_level(assigned.level, part, &mut found.gates)?;
            after_unit(alloc, assigned.target, outer, frames, all, found)
        }
        _ => Ok(None),
    }
}

fn end_assign(
    alloc: Global,
    assigned: Assigned,
    part: Part,
    found: &mut Found,
) -> Result<Option<State>, Memory>
    ensures { IfOk result (λ r. IsNext (machine.end_next assigned part found.old) r found.new) }
{
    if assigned.frames.len() > 0 {
        return Ok(None);
    }
    let all = join_level(assigned.level, part, &mut found.gates)?;
    found.gates.push(drive(alloc, assigned.target, all)?)?;
    Ok(Some(State::InItems))
}

/// The step behind a unit.
pub(crate) fn part_next(
    alloc: Global,
    assigned: Assigned,
    part: Part,
    token: Token,
    found: &mut Found,
) -> Result<Option<State>, Memory>
    ensures { IfOk result (λ r. IsNext (machine.part_next assigned part found.old token.kind) r found.new) }
{
    match token.kind {
        TokenKind::Ampersand => behind_and(assigned, part, found),
        TokenKind::Caret => behind_xor(alloc, assigned, part, found),
        TokenKind::Bar => behind_or(alloc, assigned, part, found),
        TokenKind::CloseRound => close_round(alloc, assigned, part, found),
        TokenKind::Semicolon => end_assign(alloc, assigned, part, found),
        _ => Ok(None),
    }
}

// The step of the machine over one token.
ghost use Rattle.std.specs.Prelude.{◌≡◌, [], ◌∷◌, ◌++◌, IfOk, option_map};
ghost use Rattle.vlog_text.specs.Grammar.{is_single};
ghost use Rattle.vlog_text.specs.Trees.{name_of, operand_of, word_at};
ghost use Rattle.vlog_parse.specs.inner.Steps.{name_at, operand_at};
ghost use Rattle.vlog_parse.specs.inner.Machine as machine;
ghost use Rattle.vlog_parse.specs.inner.Machine.{IsNext};

use crate::stack::Stack;
use crate::state::{AssignState, Assigned, Fixed, Found, GateState, RegState, State};
use crate::units::{no_parts, part_next, unit_next};
use crate::words::{name, one, operand};
use net_core::GateKind;
use pbs_base::Memory;
use std::alloc::Global;
use vlog_text::{DeclKind, RawDecl, RawGate, RawName, RawPins, RawReg, Target, Token, TokenKind};

// ---- tokens that leave what was found as it is

fn fixed_next(fixed: Fixed, kind: TokenKind) -> Option<State>
    ensures { result ≡ machine.fixed_next fixed kind }
{
    match fixed {
        Fixed::WantsModule => match kind {
            TokenKind::ModuleWord => Some(State::WantsTitle),
            _ => None,
        },
        Fixed::AfterTitle => match kind {
            TokenKind::OpenRound => Some(State::WantsPort),
            _ => None,
        },
        Fixed::AfterPorts => match kind {
            TokenKind::Semicolon => Some(State::InItems),
            _ => None,
        },
        Fixed::AfterAlways => match kind {
            TokenKind::At => Some(State::OfFixed(Fixed::AfterAt)),
            _ => None,
        },
        Fixed::AfterAt => match kind {
            TokenKind::OpenRound => Some(State::OfFixed(Fixed::AfterClockOpen)),
            _ => None,
        },
        Fixed::AfterClockOpen => match kind {
            TokenKind::PosedgeWord => Some(State::OfFixed(Fixed::AfterPosedge)),
            _ => None,
        },
        Fixed::AfterPosedge => match kind {
            TokenKind::Clock => Some(State::OfFixed(Fixed::AfterClock)),
            _ => None,
        },
        Fixed::AfterClock => match kind {
            TokenKind::CloseRound => Some(State::OfReg(RegState::AfterEdge)),
            _ => None,
        },
        Fixed::WantsEnd => match kind {
            TokenKind::Semicolon => Some(State::InItems),
            _ => None,
        },
    }
}

fn port_next(kind: TokenKind) -> Option<State>
    ensures { result ≡ machine.port_next kind }
{
    match kind {
        TokenKind::Comma => Some(State::WantsPort),
        TokenKind::CloseRound => Some(State::OfFixed(Fixed::AfterPorts)),
        _ => None,
    }
}

fn item_next(kind: TokenKind) -> Option<State>
    ensures { result ≡ machine.item_next kind }
{
    match kind {
        TokenKind::DeclWord(decl) => Some(State::WantsName(decl)),
        TokenKind::GateWord(gate) => Some(State::OfGate(GateState::AfterWord(gate))),
        TokenKind::AssignWord => Some(State::OfAssign(AssignState::AfterAssign)),
        TokenKind::AlwaysWord => Some(State::OfFixed(Fixed::AfterAlways)),
        TokenKind::EndmoduleWord => Some(State::Whole),
        _ => None,
    }
}

fn name_next(decl: DeclKind, kind: TokenKind) -> Option<State>
    ensures { result ≡ machine.name_next decl kind }
{
    match kind {
        TokenKind::Comma => Some(State::WantsName(decl)),
        TokenKind::Semicolon => Some(State::InItems),
        _ => None,
    }
}

fn word_next(gate: GateKind, kind: TokenKind) -> Option<State>
    ensures { result ≡ machine.word_next gate kind }
{
    match kind {
        TokenKind::OpenRound => Some(State::OfGate(GateState::WantsTarget(gate))),
        TokenKind::Name | TokenKind::Clock => Some(State::OfGate(GateState::AfterInstance(gate))),
        _ => None,
    }
}

fn instance_next(gate: GateKind, kind: TokenKind) -> Option<State>
    ensures { result ≡ machine.instance_next gate kind }
{
    match kind {
        TokenKind::OpenRound => Some(State::OfGate(GateState::WantsTarget(gate))),
        _ => None,
    }
}

fn target_next(gate: GateKind, target: RawName, kind: TokenKind) -> Option<State>
    ensures { result ≡ machine.target_next gate target kind }
{
    match kind {
        TokenKind::Comma => Some(State::OfGate(GateState::WantsPin(gate, target))),
        _ => None,
    }
}

fn register_next(target: RawName, kind: TokenKind) -> Option<State>
    ensures { result ≡ machine.register_next target kind }
{
    match kind {
        TokenKind::Arrow => Some(State::OfReg(RegState::AfterArrow(target))),
        _ => None,
    }
}

// ---- gates

fn is_single(kind: GateKind) -> bool
    ensures { result ≡ is_single kind }
{
    match kind {
        GateKind::Buf | GateKind::Not => true,
        _ => false,
    }
}

fn first_pin(
    alloc: Global,
    bytes: &[u8],
    gate: GateKind,
    target: RawName,
    token: Token,
) -> Result<Option<State>, Memory>
    ensures { IfOk result (λ r. r ≡ option_map (λ p. machine.first_pin gate target (operand_of bytes.now p))
        (operand_at token.kind token.span)) }
{
    let Some(pin) = operand(alloc, bytes, token)? else {
        return Ok(None);
    };
    let pins = one(alloc, pin)?;
    if is_single(gate) {
        return Ok(Some(State::OfGate(GateState::AfterPin(gate, target, pins))));
    }
    Ok(Some(State::OfGate(GateState::AfterPins(gate, target, pins))))
}

fn end_gate(
    gate: GateKind,
    target: RawName,
    pins: RawPins,
    found: &mut Found,
) -> Result<Option<State>, Memory>
    ensures { IfOk result (λ r. IsNext (machine.end_gate gate target pins found.old) r found.new) }
{
    found.gates.push(RawGate {
        kind: gate,
        target: Target::Name(target),
        pins,
    })?;
    Ok(Some(State::OfFixed(Fixed::WantsEnd)))
}

fn gate_next(
    alloc: Global,
    bytes: &[u8],
    state: GateState,
    token: Token,
    found: &mut Found,
) -> Result<Option<State>, Memory>
    ensures { IfOk result (λ r. IsNext (machine.gate_next bytes.now state found.old token.kind token.span)
        r found.new) }
{
    match state {
        GateState::AfterWord(gate) => Ok(word_next(gate, token.kind)),
        GateState::AfterInstance(gate) => Ok(instance_next(gate, token.kind)),
        GateState::WantsTarget(gate) => match name(alloc, bytes, token)? {
            Some(target) => Ok(Some(State::OfGate(GateState::AfterTarget(gate, target)))),
            None => Ok(None),
        },
        GateState::AfterTarget(gate, target) => Ok(target_next(gate, target, token.kind)),
        GateState::WantsPin(gate, target) => first_pin(alloc, bytes, gate, target, token),
        GateState::WantsNextPin(gate, target, before) => match operand(alloc, bytes, token)? {
            Some(pin) => {
                let mut pins = before;
                pins.push(pin)?;
                Ok(Some(State::OfGate(GateState::AfterPins(gate, target, pins))))
            }
            None => Ok(None),
        },
        GateState::AfterPins(gate, target, pins) => match token.kind {
            TokenKind::Comma => Ok(Some(State::OfGate(GateState::WantsNextPin(
                gate, target, pins,
            )))),
            TokenKind::CloseRound => end_gate(gate, target, pins, found),
            _ => Ok(None),
        },
        GateState::AfterPin(gate, target, pins) => match token.kind {
            TokenKind::CloseRound => end_gate(gate, target, pins, found),
            _ => Ok(None),
        },
    }
}

// ---- assignments and registers

fn assign_next(
    alloc: Global,
    bytes: &[u8],
    state: AssignState,
    token: Token,
    found: &mut Found,
) -> Result<Option<State>, Memory>
    ensures { IfOk result (λ r. IsNext (machine.assign_next bytes.now state found.old token.kind token.span)
        r found.new) }
{
    match state {
        AssignState::AfterAssign => match name(alloc, bytes, token)? {
            Some(target) => Ok(Some(State::OfAssign(AssignState::AfterAssigned(target)))),
            None => Ok(None),
        },
        AssignState::AfterAssigned(target) => match token.kind {
            TokenKind::Equals => Ok(Some(State::OfAssign(AssignState::WantsUnit(Assigned {
                target,
                level: no_parts(alloc),
                frames: Stack::new(alloc),
            })))),
            _ => Ok(None),
        },
        AssignState::WantsUnit(assigned) => unit_next(alloc, bytes, assigned, token, found),
        AssignState::AfterUnit(assigned, part) => part_next(alloc, assigned, part, token, found),
    }
}

fn reg_next(
    alloc: Global,
    bytes: &[u8],
    state: RegState,
    token: Token,
    found: &mut Found,
) -> Result<Option<State>, Memory>
    ensures { IfOk result (λ r. IsNext (machine.reg_next bytes.now state found.old token.kind token.span)
        r found.new) }
{
    match state {
        RegState::AfterEdge => match name(alloc, bytes, token)? {
            Some(target) => Ok(Some(State::OfReg(RegState::AfterRegister(target)))),
            None => Ok(None),
        },
        RegState::AfterRegister(target) => Ok(register_next(target, token.kind)),
        RegState::AfterArrow(target) => match operand(alloc, bytes, token)? {
            Some(wire) => {
                found.regs.push(RawReg { target, wire })?;
                Ok(Some(State::OfFixed(Fixed::WantsEnd)))
            }
            None => Ok(None),
        },
    }
}

// ---- names

fn title(
    alloc: Global,
    bytes: &[u8],
    token: Token,
    found: &mut Found,
) -> Result<Option<State>, Memory>
    ensures { IfOk result (λ r. IsNext (machine.title_next bytes.now found.old token.kind token.span) r found.new) }
{
    match name(alloc, bytes, token)? {
        Some(title) => {
            found.title = Some(title);
            Ok(Some(State::OfFixed(Fixed::AfterTitle)))
        }
        None => Ok(None),
    }
}

fn port(
    alloc: Global,
    bytes: &[u8],
    token: Token,
    found: &mut Found,
) -> Result<Option<State>, Memory>
    ensures { IfOk result (λ r. IsNext (machine.listed_next bytes.now found.old token.kind token.span) r found.new) }
{
    match name(alloc, bytes, token)? {
        Some(port) => {
            found.ports.push(port)?;
            Ok(Some(State::AfterPort))
        }
        None => Ok(None),
    }
}

fn declared(
    alloc: Global,
    bytes: &[u8],
    kind: DeclKind,
    token: Token,
    found: &mut Found,
) -> Result<Option<State>, Memory>
    ensures { IfOk result (λ r. IsNext (machine.declared_next bytes.now kind found.old token.kind token.span)
        r found.new) }
{
    match name(alloc, bytes, token)? {
        Some(name) => {
            found.decls.push(RawDecl { kind, name })?;
            Ok(Some(State::AfterName(kind)))
        }
        None => Ok(None),
    }
}

/// The state behind the token, or `None` where the token can't stand.
pub(crate) fn step(
    alloc: Global,
    bytes: &[u8],
    state: State,
    token: Token,
    found: &mut Found,
) -> Result<Option<State>, Memory>
    ensures { IfOk result (λ r. IsNext (machine.next bytes.now state found.old token.kind token.span) r found.new) }
{
    match state {
        State::OfFixed(fixed) => Ok(fixed_next(fixed, token.kind)),
        State::WantsTitle => title(alloc, bytes, token, found),
        State::WantsPort => port(alloc, bytes, token, found),
        State::AfterPort => Ok(port_next(token.kind)),
        State::InItems => Ok(item_next(token.kind)),
        State::WantsName(kind) => declared(alloc, bytes, kind, token, found),
        State::AfterName(kind) => Ok(name_next(kind, token.kind)),
        State::OfGate(gate) => gate_next(alloc, bytes, gate, token, found),
        State::OfAssign(assign) => assign_next(alloc, bytes, assign, token, found),
        State::OfReg(reg) => reg_next(alloc, bytes, reg, token, found),
        State::Whole => Ok(None),
    }
}

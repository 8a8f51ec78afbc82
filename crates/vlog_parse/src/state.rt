// Where the machine stands, and what it has found.
use crate::stack::Stack;
use net_core::GateKind;
use vlog_text::{DeclKind, RawDecls, RawGates, RawName, RawNames, RawPin, RawPins, RawRegs};

/// What was found so far. The title is the module's name.
#[derive(Drop)]
pub struct Found {
    pub title: Option<RawName>,
    pub ports: RawNames,
    pub decls: RawDecls,
    pub gates: RawGates,
    pub regs: RawRegs,
}

/// The parts of an `or`, of an `xor` and of an `and` that end with an operator.
#[derive(Drop)]
pub struct Level {
    pub ors: RawPins,
    pub xors: RawPins,
    pub ands: RawPins,
}

/// A `~` that is open, or a `(` with the parts before it.
#[derive(Drop)]
pub enum Frame {
    Negation,
    Bracket(Level),
}

/// What was read last: a pin, or a gate that isn't among those found yet.
#[derive(Drop)]
pub enum Part {
    Pin(RawPin),
    Made(GateKind, RawPins),
}

/// An `assign` up to an operand.
#[derive(Drop)]
pub struct Assigned {
    pub target: RawName,
    pub level: Level,
    pub frames: Stack<Frame>,
}

/// Where one kind of token alone may stand, and means nothing by itself.
#[derive(Clone, Copy, Drop)]
pub enum Fixed {
    WantsModule,
    AfterTitle,
    AfterPorts,
    AfterAlways,
    AfterAt,
    AfterClockOpen,
    AfterPosedge,
    AfterClock,
    WantsEnd,
}

/// Inside a gate.
#[derive(Drop)]
pub enum GateState {
    AfterWord(GateKind),
    AfterInstance(GateKind),
    WantsTarget(GateKind),
    AfterTarget(GateKind, RawName),
    WantsPin(GateKind, RawName),
    WantsNextPin(GateKind, RawName, RawPins),
    AfterPins(GateKind, RawName, RawPins),
    AfterPin(GateKind, RawName, RawPins),
}

/// Inside an `assign`.
#[derive(Drop)]
pub enum AssignState {
    AfterAssign,
    AfterAssigned(RawName),
    WantsUnit(Assigned),
    AfterUnit(Assigned, Part),
}

/// Inside an `always`, behind its `)`.
#[derive(Drop)]
pub enum RegState {
    AfterEdge,
    AfterRegister(RawName),
    AfterArrow(RawName),
}

/// Where the machine stands.
#[derive(Drop)]
pub enum State {
    OfFixed(Fixed),
    WantsTitle,
    WantsPort,
    AfterPort,
    InItems,
    WantsName(DeclKind),
    AfterName(DeclKind),
    OfGate(GateState),
    OfAssign(AssignState),
    OfReg(RegState),
    Whole,
}

// Netlists as they stand in a text: names in place of numbers, with spans.
use net_core::GateKind;
use pbs_base::{Listed, Span, Word};

/// A name at its place in the text.
#[derive(Drop)]
pub struct RawName {
    pub word: Word,
    pub span: Span,
}

pub type RawNames = Listed<RawName>;

/// What a name is declared as.
#[derive(Clone, Copy)]
pub enum DeclKind {
    Input,
    Output,
    Wire,
    Reg,
}

/// One declared name.
#[derive(Drop)]
pub struct RawDecl {
    pub kind: DeclKind,
    pub name: RawName,
}

pub type RawDecls = Listed<RawDecl>;

/// What a gate or a register reads. `Prior(n)` is the raw gate n, one of the same `assign`.
#[derive(Drop)]
pub enum RawPin {
    Const(bool),
    Name(RawName),
    Prior(u32),
}

pub type RawPins = Listed<RawPin>;

/// What a gate drives. The gates of an `assign` but its last are `Inner`: later gates of it read them.
#[derive(Drop)]
pub enum Target {
    Name(RawName),
    Inner,
}

/// One gate.
#[derive(Drop)]
pub struct RawGate {
    pub kind: GateKind,
    pub target: Target,
    pub pins: RawPins,
}

pub type RawGates = Listed<RawGate>;

/// One `always`: the register, and what it takes after each row.
#[derive(Drop)]
pub struct RawReg {
    pub target: RawName,
    pub wire: RawPin,
}

pub type RawRegs = Listed<RawReg>;

/// A netlist with the names that stand in its text. `name` is the module's. Each list is in text order.
#[derive(Drop)]
pub struct RawNetlist {
    pub name: RawName,
    pub ports: RawNames,
    pub decls: RawDecls,
    pub gates: RawGates,
    pub regs: RawRegs,
}

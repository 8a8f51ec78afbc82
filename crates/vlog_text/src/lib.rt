//! The structural subset of Verilog, for its writer and its reader: `specs/` says what text is written for a netlist,
//! and what netlist a text stands for. Here are the types of which that speaks.
#![tactic(auto)]

mod fail;
mod raw;
mod token;

pub use fail::VlogFail;
pub use raw::{
    DeclKind, RawDecl, RawDecls, RawGate, RawGates, RawName, RawNames, RawNetlist, RawPin, RawPins,
    RawReg, RawRegs, Target,
};
pub use token::{Piece, Token, TokenKind};

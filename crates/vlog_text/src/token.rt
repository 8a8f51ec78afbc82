// Tokens: what kind each is, and where it stands.
use crate::raw::DeclKind;
use net_core::GateKind;
use pbs_base::Span;

/// The kinds of tokens. `Clock` is the name `clk`, and `Name` any other. `DeclWord` is `input`, `output`, `wire` or
/// `reg`, and `GateWord` one of `and`, `or`, `nand`, `nor`, `xor`, `xnor`, `not` and `buf`.
#[derive(Clone, Copy)]
pub enum TokenKind {
    Name,
    Clock,
    Bit(bool),
    DeclWord(DeclKind),
    GateWord(GateKind),
    ModuleWord,
    EndmoduleWord,
    AssignWord,
    AlwaysWord,
    PosedgeWord,
    OpenRound,
    CloseRound,
    Comma,
    Semicolon,
    Equals,
    Tilde,
    Ampersand,
    Caret,
    Bar,
    At,
    Arrow,
}

/// A token. The bytes of a name are those of its span.
#[derive(Clone, Copy)]
pub struct Token {
    pub kind: TokenKind,
    pub span: Span,
}

/// What begins at a place of a text, and how many bytes it has: space or a comment, a token, or what breaks rule 2.
#[derive(Clone, Copy)]
pub enum Piece {
    Gap(usize),
    Whole(TokenKind, usize),
    Fault(usize),
}

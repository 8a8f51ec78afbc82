// Tokens: what kind each is, and where it stands.
use pbs_base::Span;

/// The kinds of tokens. `Digit` is a number written `3` to `8`, and `Number` any other but `0`, `1` and `2`.
#[derive(Clone, Copy, Debug, PartialEq, Eq)]
pub enum TokenKind {
    Name,
    Zero,
    One,
    Two,
    Digit(u8),
    Number(u32),
    SpecWord,
    InputWord,
    ActionWord,
    LevelWord,
    ProdWord,
    MainWord,
    HoldWord,
    TryWord,
    AbortWord,
    ThenWord,
    Semicolon,
    Comma,
    Equals,
    OpenCurly,
    CloseCurly,
    OpenRound,
    CloseRound,
    OpenSquare,
    CloseSquare,
    Bar,
    Star,
    Plus,
    Question,
    Tilde,
    Ampersand,
    Colon,
}

/// A token. The bytes of a word are those of its span.
#[derive(Clone, Copy, Debug, PartialEq, Eq)]
pub struct Token {
    pub kind: TokenKind,
    pub span: Span,
}

/// `*`, `+` and `?` behind an item.
#[derive(Clone, Copy, Debug, PartialEq, Eq)]
pub enum Operator {
    StarOp,
    PlusOp,
    OptOp,
}

/// What begins at a place: space or a comment, a token, or nothing that may stand there. The number counts its bytes.
#[derive(Clone, Copy, Debug, PartialEq, Eq)]
pub enum Piece {
    Gap(usize),
    Whole(TokenKind, usize),
    Fault(usize),
}

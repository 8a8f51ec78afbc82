// Pieces of a text: what begins at a place.
ghost use Rattle.std.specs.Prelude.{◌≡◌, ◌≤◌, ◌<◌, ◌+◌, ◌^◌, ◌==◌, not, length, IfSome};
ghost use Rattle.std.specs.List.{prefix_len};
ghost use Rattle.vlog_text.specs.Lexing as lexing;
ghost use Rattle.vlog_lex.specs.inner.Lexing as words;
ghost use Rattle.vlog_lex.specs.inner.Lexing.{IsWithin};

use net_core::GateKind;
use vlog_text::{DeclKind, Piece, TokenKind};

fn is_space(b: u8) -> bool
    ensures { result ≡ lexing.is_space b }
{
    b == 9 || b == 10 || b == 12 || b == 13 || b == 32
}

fn is_letter(b: u8) -> bool
    ensures { result ≡ lexing.is_letter b }
{
    b >= b'a' && b <= b'z' || b >= b'A' && b <= b'Z' || b == b'_'
}

fn is_name_byte(b: u8) -> bool
    ensures { result ≡ lexing.is_name_byte b }
{
    is_letter(b) || b >= b'0' && b <= b'9' || b == b'$'
}

fn word_kind(word: &[u8]) -> TokenKind
    ensures { result ≡ lexing.kind_in lexing.words word.now }
{
    if word == b"module".as_slice() {
        TokenKind::ModuleWord
    } else if word == b"endmodule".as_slice() {
        TokenKind::EndmoduleWord
    } else {
        declared_kind(word)
    }
}

fn declared_kind(word: &[u8]) -> TokenKind
    ensures { result ≡ lexing.kind_in words.declaring word.now }
{
    if word == b"input".as_slice() {
        TokenKind::DeclWord(DeclKind::Input)
    } else if word == b"output".as_slice() {
        TokenKind::DeclWord(DeclKind::Output)
    } else if word == b"wire".as_slice() {
        TokenKind::DeclWord(DeclKind::Wire)
    } else if word == b"reg".as_slice() {
        TokenKind::DeclWord(DeclKind::Reg)
    } else {
        driven_kind(word)
    }
}

fn driven_kind(word: &[u8]) -> TokenKind
    ensures { result ≡ lexing.kind_in words.driving word.now }
{
    if word == b"assign".as_slice() {
        TokenKind::AssignWord
    } else if word == b"always".as_slice() {
        TokenKind::AlwaysWord
    } else if word == b"posedge".as_slice() {
        TokenKind::PosedgeWord
    } else {
        gate_kind(word)
    }
}

fn gate_kind(word: &[u8]) -> TokenKind
    ensures { result ≡ lexing.kind_in words.gates word.now }
{
    if word == b"and".as_slice() {
        TokenKind::GateWord(GateKind::And)
    } else if word == b"or".as_slice() {
        TokenKind::GateWord(GateKind::Or)
    } else if word == b"nand".as_slice() {
        TokenKind::GateWord(GateKind::Nand)
    } else if word == b"nor".as_slice() {
        TokenKind::GateWord(GateKind::Nor)
    } else {
        odd_kind(word)
    }
}

fn odd_kind(word: &[u8]) -> TokenKind
    ensures { result ≡ lexing.kind_in words.odd_gates word.now }
{
    if word == b"xor".as_slice() {
        TokenKind::GateWord(GateKind::Xor)
    } else if word == b"xnor".as_slice() {
        TokenKind::GateWord(GateKind::Xnor)
    } else if word == b"not".as_slice() {
        TokenKind::GateWord(GateKind::Not)
    } else if word == b"buf".as_slice() {
        TokenKind::GateWord(GateKind::Buf)
    } else if word == b"clk".as_slice() {
        TokenKind::Clock
    } else {
        TokenKind::Name
    }
}

fn starts_with(sign: u8, bytes: &[u8]) -> bool
    ensures { result ≡ lexing.starts sign bytes.now }
{
    match bytes {
        [] => false,
        [first, ..] => *first == sign,
    }
}

// A sign of one byte.
fn mark_piece(b: u8) -> Piece
    ensures { result ≡ words.mark_piece b }
{
    let kind = match b {
        b'(' => TokenKind::OpenRound,
        b')' => TokenKind::CloseRound,
        b',' => TokenKind::Comma,
        b';' => TokenKind::Semicolon,
        b'=' => TokenKind::Equals,
        b'~' => TokenKind::Tilde,
        b'&' => TokenKind::Ampersand,
        b'^' => TokenKind::Caret,
        b'|' => TokenKind::Bar,
        b'@' => TokenKind::At,
        _ => return Piece::Fault(1),
    };
    Piece::Whole(kind, 1)
}

// A sign, given the bytes behind its first.
fn sign_piece(b: u8, bytes: &[u8]) -> Piece
    ensures { result ≡ lexing.sign_piece b bytes.now }
{
    if b == b'<' && starts_with(b'=', bytes) {
        return Piece::Whole(TokenKind::Arrow, 2);
    }
    mark_piece(b)
}

// How many bytes there are up to the end of the next `*/`.
#[tactic(auto, unfolding(vlog_text::specs::Lexing::block_end))]
fn block_end(bytes: &[u8]) -> Option<usize>
    requires { length bytes.now < 2 ^ 63 }
    ensures value { result ≡ lexing.block_end bytes.now }
    ensures within { IfSome result (λ n. n ≤ length bytes.now) }
{
    let mut n = 0;
    let mut rest = bytes;
    while let [first, behind @ ..] = rest {
        if *first == b'*' && starts_with(b'/', behind) {
            return Some(n + 2);
        }
        n += 1;
        rest = behind;
    }
    None
}

// How many bytes there are up to the next newline.
fn line_len(bytes: &[u8]) -> usize
    ensures value { result ≡ prefix_len (λ c. not (c == 10)) bytes.now }
    ensures within { result ≤ length bytes.now }
{
    bytes.iter().take_while(|b| **b != b'\n').count()
}

// What begins with a `/`, given the bytes behind it.
fn slash_piece(bytes: &[u8]) -> Piece
    requires { length bytes.now < 2 ^ 63 }
    ensures value { result ≡ lexing.slash_piece bytes.now }
    ensures within { IsWithin (length bytes.now + 1) result }
{
    match bytes {
        [b'/', rest @ ..] => Piece::Gap(line_len(rest) + 2),
        [b'*', rest @ ..] => match block_end(rest) {
            Some(n) => Piece::Gap(n + 2),
            None => Piece::Fault(rest.len() + 2),
        },
        _ => Piece::Fault(1),
    }
}

fn word_len(bytes: &[u8]) -> usize
    ensures { result ≡ prefix_len lexing.is_name_byte bytes.now }
{
    bytes.iter().take_while(|b| is_name_byte(**b)).count()
}

fn word_piece(bytes: &[u8]) -> Piece
    ensures { result ≡ lexing.word_piece bytes.now }
{
    let n = word_len(bytes);
    if n > 255 {
        return Piece::Fault(n);
    }
    Piece::Whole(word_kind(&bytes[..n]), n)
}

// `1'b0` or `1'b1`, given the bytes behind the 1.
fn constant_piece(bytes: &[u8]) -> Piece
    ensures value { result ≡ lexing.constant_piece bytes.now }
    ensures within { IsWithin (length bytes.now + 1) result }
{
    let front = &bytes[..bytes.len().min(3)];
    if front == b"'b0".as_slice() {
        Piece::Whole(TokenKind::Bit(false), 4)
    } else if front == b"'b1".as_slice() {
        Piece::Whole(TokenKind::Bit(true), 4)
    } else {
        Piece::Fault(1)
    }
}

/// The piece that begins with these bytes.
pub(crate) fn first_piece(bytes: &[u8]) -> Piece
    requires { length bytes.now < 2 ^ 63 }
    ensures value { result ≡ lexing.first_piece bytes.now }
    ensures within { 0 < length bytes.now → IsWithin (length bytes.now) result }
{
    match bytes {
        [] => Piece::Gap(0),
        [first, rest @ ..] => {
            let b = *first;
            if is_space(b) {
                Piece::Gap(1)
            } else if is_letter(b) {
                word_piece(bytes)
            } else if b == b'1' {
                constant_piece(rest)
            } else if b == b'/' {
                slash_piece(rest)
            } else {
                sign_piece(b, rest)
            }
        }
    }
}

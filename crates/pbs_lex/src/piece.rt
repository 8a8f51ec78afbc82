// Pieces of a text: what begins at a place.
ghost use Rattle.std.specs.Prelude.{◌≡◌, ◌≤◌, ◌<◌, ◌+◌, ◌^◌, length, IfSome, EachIndex, slice_index};
ghost use Rattle.std.specs.List.{prefix_len};
ghost use Rattle.pbs_text.specs.Lexing as lexing;

use pbs_text::{Piece, TokenKind};

fn is_space(b: u8) -> bool
    ensures { result ≡ lexing.is_space b }
{
    b == 9 || b == 10 || b == 13 || b == 32
}

fn is_digit(b: u8) -> bool
    ensures { result ≡ lexing.is_digit b }
{
    b >= b'0' && b <= b'9'
}

fn is_letter(b: u8) -> bool
    ensures { result ≡ lexing.is_letter b }
{
    b >= b'a' && b <= b'z' || b >= b'A' && b <= b'Z' || b == b'_'
}

fn is_word_byte(b: u8) -> bool
    ensures { result ≡ lexing.is_word_byte b }
{
    is_letter(b) || is_digit(b)
}

fn word_kind(word: &[u8]) -> TokenKind
    ensures { result ≡ lexing.word_kind word.now }
{
    if word == b"spec".as_slice() {
        TokenKind::SpecWord
    } else if word == b"input".as_slice() {
        TokenKind::InputWord
    } else if word == b"action".as_slice() {
        TokenKind::ActionWord
    } else if word == b"level".as_slice() {
        TokenKind::LevelWord
    } else if word == b"prod".as_slice() {
        TokenKind::ProdWord
    } else {
        late_kind(word)
    }
}

fn late_kind(word: &[u8]) -> TokenKind
    ensures { result ≡ lexing.late_kind word.now }
{
    if word == b"main".as_slice() {
        TokenKind::MainWord
    } else if word == b"hold".as_slice() {
        TokenKind::HoldWord
    } else if word == b"try".as_slice() {
        TokenKind::TryWord
    } else if word == b"abort".as_slice() {
        TokenKind::AbortWord
    } else if word == b"then".as_slice() {
        TokenKind::ThenWord
    } else {
        TokenKind::Name
    }
}

// The number that at most nine digits stand for.
fn decimal(digits: &[u8]) -> u32
    requires few { length digits.now ≤ 9 }
    requires ascii { EachIndex digits.now (λ k. slice_index digits.now k ≤ 57) }
    ensures { result ≡ lexing.decimal_from 0 digits.now }
{
    let mut value: u32 = 0;
    for b in digits {
        value = value * 10 + u32::from(b.saturating_sub(b'0'));
    }
    value
}

fn digit_kind(digit: u8) -> TokenKind
    ensures { result ≡ lexing.digit_kind digit }
{
    match digit {
        0 => TokenKind::Zero,
        1 => TokenKind::One,
        2 => TokenKind::Two,
        3..=8 => TokenKind::Digit(digit),
        _ => TokenKind::Number(u32::from(digit)),
    }
}

fn number_kind(digits: &[u8]) -> TokenKind
    requires few { length digits.now ≤ 9 }
    requires ascii { EachIndex digits.now (λ k. slice_index digits.now k ≤ 57) }
    ensures { result ≡ lexing.number_kind digits.now }
{
    match digits {
        [] => TokenKind::Number(0),
        [digit] => digit_kind(digit.saturating_sub(b'0')),
        _ => TokenKind::Number(decimal(digits)),
    }
}

fn bracket_piece(b: u8) -> Piece
    ensures { result ≡ lexing.bracket_piece b }
{
    let kind = match b {
        b'(' => TokenKind::OpenRound,
        b')' => TokenKind::CloseRound,
        b'[' => TokenKind::OpenSquare,
        b']' => TokenKind::CloseSquare,
        b'{' => TokenKind::OpenCurly,
        b'}' => TokenKind::CloseCurly,
        _ => return Piece::Fault(1),
    };
    Piece::Whole(kind, 1)
}

// A sign of one byte.
fn sign_piece(b: u8) -> Piece
    ensures { result ≡ lexing.sign_piece b }
{
    let kind = match b {
        b';' => TokenKind::Semicolon,
        b',' => TokenKind::Comma,
        b'=' => TokenKind::Equals,
        b'|' => TokenKind::Bar,
        b'*' => TokenKind::Star,
        b'+' => TokenKind::Plus,
        b'?' => TokenKind::Question,
        b'~' => TokenKind::Tilde,
        b'&' => TokenKind::Ampersand,
        b':' => TokenKind::Colon,
        _ => return bracket_piece(b),
    };
    Piece::Whole(kind, 1)
}

fn starts_slash(bytes: &[u8]) -> bool
    ensures { result ≡ lexing.starts_slash bytes.now }
{
    match bytes {
        [] => false,
        [first, ..] => *first == b'/',
    }
}

// How many bytes there are up to the end of the next `*/`.
#[tactic(auto, unfolding(pbs_text::specs::Lexing::block_end))]
fn block_end(bytes: &[u8]) -> Option<usize>
    requires { length bytes.now < 2 ^ 63 }
    ensures value { result ≡ lexing.block_end bytes.now }
    ensures within { IfSome result (λ n. n ≤ length bytes.now) }
{
    let mut n = 0;
    let mut rest = bytes;
    while let [first, behind @ ..] = rest {
        if *first == b'*' && starts_slash(behind) {
            return Some(n + 2);
        }
        n += 1;
        rest = behind;
    }
    None
}

// How many bytes there are up to the next newline.
fn line_len(bytes: &[u8]) -> usize
    ensures value { result ≡ prefix_len lexing.is_not_newline bytes.now }
    ensures within { result ≤ length bytes.now }
{
    bytes.iter().take_while(|b| **b != b'\n').count()
}

// What begins with a `/`, given the bytes behind it.
fn slash_piece(bytes: &[u8]) -> Piece
    requires { length bytes.now < 2 ^ 63 }
    ensures value { result ≡ lexing.slash_piece bytes.now }
    ensures within { lexing.IsWithin (length bytes.now + 1) result }
{
    match bytes {
        [b'/', rest @ ..] => Piece::Gap(line_len(rest) + 2),
        [b'*', rest @ ..] => match block_end(rest) {
            Some(n) => Piece::Gap(n + 2),
            None => Piece::Fault(rest.len() + 2),
        },
        _ => Piece::Fault(1),
    }
}

fn word_len(bytes: &[u8]) -> usize
    ensures { result ≡ prefix_len lexing.is_word_byte bytes.now }
{
    bytes.iter().take_while(|b| is_word_byte(**b)).count()
}

fn number_len(bytes: &[u8]) -> usize
    ensures { result ≡ prefix_len lexing.is_digit bytes.now }
{
    bytes.iter().take_while(|b| is_digit(**b)).count()
}

fn word_piece(bytes: &[u8]) -> Piece
    ensures { result ≡ lexing.word_piece bytes.now }
{
    let n = word_len(bytes);
    if n > 64 {
        return Piece::Fault(n);
    }
    Piece::Whole(word_kind(&bytes[..n]), n)
}

fn number_piece(bytes: &[u8]) -> Piece
    ensures { result ≡ lexing.number_piece bytes.now }
{
    let n = number_len(bytes);
    if n > 9 {
        return Piece::Fault(n);
    }
    Piece::Whole(number_kind(&bytes[..n]), n)
}

/// The piece that begins with these bytes.
pub(crate) fn first_piece(bytes: &[u8]) -> Piece
    requires { length bytes.now < 2 ^ 63 }
    ensures value { result ≡ lexing.first_piece bytes.now }
    ensures within { 0 < length bytes.now → lexing.IsWithin (length bytes.now) result }
{
    match bytes {
        [] => Piece::Gap(0),
        [first, rest @ ..] => {
            let b = *first;
            if is_space(b) {
                Piece::Gap(1)
            } else if is_letter(b) {
                word_piece(bytes)
            } else if is_digit(b) {
                number_piece(bytes)
            } else if b == b'/' {
                slash_piece(rest)
            } else {
                sign_piece(b)
            }
        }
    }
}

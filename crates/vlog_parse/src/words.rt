// Names and operands.
ghost use Rattle.std.specs.Prelude.{◌≡◌, [], ◌∷◌, IfOk, option_map};
ghost use Rattle.vlog_text.specs.Trees.{name_of, operand_of, word_at};
ghost use Rattle.vlog_parse.specs.inner.Steps.{name_at, operand_at, name_phrase};

use pbs_base::{Listed, Memory, Span, Word};
use std::alloc::Global;
use vlog_text::{RawName, RawPin, RawPins, Token, TokenKind};

// The word whose bytes are those of the span.
fn word(alloc: Global, bytes: &[u8], at: Span) -> Result<Word, Memory>
    ensures { IfOk result (λ word. word ≡ word_at bytes.now at) }
{
    let start = bytes.len().min(at.start as usize);
    let rest = bytes.split_at(start).1;
    let len = rest.len().min(at.end.saturating_sub(at.start) as usize);
    Word::new(alloc, rest.split_at(len).0)
}

fn named(alloc: Global, bytes: &[u8], span: Span) -> Result<RawName, Memory>
    ensures { IfOk result (λ name. name ≡ record { word = word_at bytes.now span; span = span }) }
{
    Ok(RawName {
        word: word(alloc, bytes, span)?,
        span,
    })
}

/// The name that the token is.
pub(crate) fn name(alloc: Global, bytes: &[u8], token: Token) -> Result<Option<RawName>, Memory>
    ensures { IfOk result (λ r. r ≡ option_map (name_of bytes.now) (name_at token.kind token.span)) }
{
    match token.kind {
        TokenKind::Name | TokenKind::Clock => Ok(Some(named(alloc, bytes, token.span)?)),
        _ => Ok(None),
    }
}

/// The operand that the token is.
pub(crate) fn operand(alloc: Global, bytes: &[u8], token: Token) -> Result<Option<RawPin>, Memory>
    ensures { IfOk result (λ r. r ≡ option_map (operand_of bytes.now) (operand_at token.kind token.span)) }
{
    match token.kind {
        TokenKind::Name | TokenKind::Clock => {
            Ok(Some(RawPin::Name(named(alloc, bytes, token.span)?)))
        }
        TokenKind::Bit(bit) => Ok(Some(RawPin::Const(bit))),
        _ => Ok(None),
    }
}

/// A list of one pin.
pub(crate) fn one(alloc: Global, pin: RawPin) -> Result<RawPins, Memory>
    ensures { IfOk result (λ pins. pins ≡ pin ∷ []) }
{
    let mut pins = Listed::new(alloc);
    pins.push(pin)?;
    Ok(pins)
}

// What every part of the descent uses.
ghost use Rattle.std.specs.Prelude.{◌≡◌, ◌∷◌, [], true, IfOk, IfErr, IfNone, IfSome, MatchOption, option_map};
ghost use Rattle.pbs_text.specs.Grammar.{token, operator_kind};
ghost use Rattle.pbs_text.specs.Trees.{word_at, numeral_value};
ghost use Rattle.pbs_descent.specs.Marks.{kind_of, mark_of};
ghost use Rattle.pbs_text.specs.places.Steps.{numeral_of};
ghost use Rattle.pbs_descent.specs.Descent.{BeginsWith, NoFront, NoOperator, TakesNumeral, front_refusal};

use crate::mark::Mark;
use pbs_base::{Refusal, Span, Subject, Word};
use pbs_text::{Operator, ReadSpec, Token, TokenKind};
use std::alloc::Global;

/// How many `(` and `~` may be open.
pub(crate) const MAX_NESTING: u32 = 64;

/// A refusal of the text.
pub(crate) fn refused(rule: u8, span: Span) -> ReadSpec
    ensures { result ≡ ReadSpec.Refused (record { subject = Subject.Spec; rule = rule; span = span }) }
{
    ReadSpec::Refused(Refusal {
        subject: Subject::Spec,
        rule,
        span,
    })
}

/// The first token, and those behind it.
pub fn front(tokens: &[Token]) -> Option<(Token, &[Token])>
    ensures { MatchOption result (tokens.now ≡ []) (λ x. tokens.now ≡ x.0 ∷ x.1.now) }
{
    match tokens {
        [] => None,
        [first, rest @ ..] => Some((*first, rest)),
    }
}

/// The answer, once what was read is let go.
pub(crate) fn let_go<T: Drop>(_read: T, answer: ReadSpec) -> ReadSpec
    ensures { result ≡ answer }
{
    answer
}

fn mark_of(kind: TokenKind) -> Option<Mark>
    ensures { result ≡ mark_of kind }
{
    match kind {
        TokenKind::Name => Some(Mark::AName),
        TokenKind::SpecWord => Some(Mark::Spec),
        TokenKind::MainWord => Some(Mark::Main),
        TokenKind::AbortWord => Some(Mark::Abort),
        TokenKind::ThenWord => Some(Mark::Then),
        TokenKind::Semicolon => Some(Mark::SemicolonMark),
        TokenKind::Comma => Some(Mark::CommaMark),
        TokenKind::Equals => Some(Mark::EqualsMark),
        TokenKind::OpenCurly => Some(Mark::OpenCurlyMark),
        TokenKind::CloseCurly => Some(Mark::CloseCurlyMark),
        TokenKind::OpenRound => Some(Mark::OpenRoundMark),
        TokenKind::CloseRound => Some(Mark::CloseRoundMark),
        TokenKind::OpenSquare => Some(Mark::OpenSquareMark),
        TokenKind::CloseSquare => Some(Mark::CloseSquareMark),
        TokenKind::Bar => Some(Mark::BarMark),
        TokenKind::Star => Some(Mark::StarMark),
        TokenKind::Plus => Some(Mark::PlusMark),
        TokenKind::Question => Some(Mark::QuestionMark),
        TokenKind::Ampersand => Some(Mark::AmpersandMark),
        TokenKind::Colon => Some(Mark::ColonMark),
        _ => None,
    }
}

/// The tokens behind the first, if that is of this kind.
pub fn behind(tokens: &[Token], mark: Mark) -> Option<(Span, &[Token])>
    ensures { MatchOption result (BeginsWith (kind_of mark) tokens.now → ⊥)
        (λ x. tokens.now ≡ token (kind_of mark) x.0 ∷ x.1.now) }
{
    let Some((first, rest)) = front(tokens) else {
        return None;
    };
    match mark_of(first.kind) {
        Some(found) if found == mark => Some((first.span, rest)),
        _ => None,
    }
}

/// The same in version 2 alone.
pub fn second(two: bool, tokens: &[Token], mark: Mark) -> Option<(Span, &[Token])>
    ensures none { IfNone result (two ≡ true → BeginsWith (kind_of mark) tokens.now → ⊥) }
    ensures version { IfSome result (λ _. two ≡ true) }
    ensures taken { IfSome result (λ x. tokens.now ≡ token (kind_of mark) x.0 ∷ x.1.now) }
{
    if !two {
        return None;
    }
    behind(tokens, mark)
}

/// The refusal at the first token, or at the text's end.
pub fn stop(tokens: &[Token], end: u32) -> ReadSpec
    ensures { result ≡ ReadSpec.Refused (front_refusal end tokens.now) }
{
    match front(tokens) {
        Some((first, _)) => refused(3, first.span),
        None => refused(3, Span { start: end, end }),
    }
}

/// The first token, which has to be of this kind.
pub fn expect(tokens: &[Token], mark: Mark, end: u32) -> Result<(Span, &[Token]), ReadSpec>
    ensures ok { IfOk result (λ x. tokens.now ≡ token (kind_of mark) x.0 ∷ x.1.now) }
    ensures err { IfErr result (λ e. (e ≡ ReadSpec.Refused (front_refusal end tokens.now)) ×
        (BeginsWith (kind_of mark) tokens.now → ⊥)) }
{
    match behind(tokens, mark) {
        Some(found) => Ok(found),
        None => Err(stop(tokens, end)),
    }
}

/// The word whose bytes are those of the span.
pub fn word(alloc: Global, bytes: &[u8], at: Span) -> Result<Word, ReadSpec>
    ensures value { IfOk result (λ word. word ≡ word_at bytes.now at) }
    ensures memory { IfErr result (λ e. e ≡ ReadSpec.Memory) }
{
    let start = bytes.len().min(at.start as usize);
    let rest = bytes.split_at(start).1;
    let len = rest.len().min(at.end.saturating_sub(at.start) as usize);
    Ok(Word::new(alloc, rest.split_at(len).0)?)
}

fn number_of(kind: TokenKind) -> Option<u32>
    ensures { result ≡ option_map numeral_value (numeral_of kind) }
{
    match kind {
        TokenKind::Zero => Some(0),
        TokenKind::One => Some(1),
        TokenKind::Two => Some(2),
        TokenKind::Digit(digit) => Some(u32::from(digit)),
        TokenKind::Number(number) => Some(number),
        _ => None,
    }
}

/// The number that comes next, if one does.
pub(crate) fn numeral(tokens: &[Token]) -> Option<(u32, Span, &[Token])>
    ensures { MatchOption result (NoFront numeral_of tokens.now) (λ x. TakesNumeral tokens.now x.0 x.1 x.2.now) }
{
    let Some((first, rest)) = front(tokens) else {
        return None;
    };
    match number_of(first.kind) {
        Some(number) => Some((number, first.span, rest)),
        None => None,
    }
}

/// The operator that comes next, if one does.
pub(crate) fn operator(tokens: &[Token]) -> Option<(Operator, Span, &[Token])>
    ensures { MatchOption result (NoOperator tokens.now) (λ x. tokens.now ≡ token (operator_kind x.0) x.1 ∷ x.2.now) }
{
    if let Some((at, rest)) = behind(tokens, Mark::StarMark) {
        return Some((Operator::StarOp, at, rest));
    }
    if let Some((at, rest)) = behind(tokens, Mark::PlusMark) {
        return Some((Operator::PlusOp, at, rest));
    }
    if let Some((at, rest)) = behind(tokens, Mark::QuestionMark) {
        return Some((Operator::OptOp, at, rest));
    }
    None
}

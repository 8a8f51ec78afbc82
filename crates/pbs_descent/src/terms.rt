// Terms.
ghost use Rattle.std.specs.Prelude.{ℕ, ◌≡◌, ◌≤◌, ◌∷◌, true, IfOk, IfErr};
ghost use Rattle.pbs_ast.specs.Bare.{bare_term};
ghost use Rattle.pbs_text.specs.Grammar.{token};
ghost use Rattle.pbs_descent.specs.Descent.{ReadsUnit, StopsUnit, ReadsAll, StopsAll, ReadsTerm, StopsTerm, BeginsWith};
ghost use Rattle.pbs_descent.specs.Descent.{negated_term};
ghost use Rattle.pbs_text.specs.declared.token.TokenKind.TheVariants.{Name, Equals, Tilde, OpenRound, Ampersand, Bar};

use crate::common::{MAX_NESTING, behind, front, let_go, numeral, refused, second, stop, word};
use crate::mark::Mark;
use pbs_ast::SpecTerm;
use pbs_base::{Listed, Span};
use pbs_text::{ReadSpec, Token, TokenKind};
use std::alloc::Global;

fn not_of(alloc: Global, operand: SpecTerm) -> Result<SpecTerm, ReadSpec>
    ensures value { IfOk result (λ term. bare_term term ≡ negated_term (bare_term operand)) }
    ensures memory { IfErr result (λ e. e ≡ ReadSpec.Memory) }
{
    Ok(SpecTerm::Not(Box::new(alloc, operand)?))
}

// number behind a name and a '='
fn comparison<'a>(
    alloc: Global,
    bytes: &[u8],
    two: bool,
    name: Span,
    tokens: &'a [Token],
    end: u32,
) -> Result<(SpecTerm, &'a [Token]), ReadSpec>
    requires { two ≡ true }
    ensures ok { IfOk result (λ x. (equals_at : Span) (depth : ℕ)
        → ReadsUnit two bytes.now end depth (token Name name ∷ token Equals equals_at ∷ tokens.now)
        (bare_term x.0) x.1.now) }
    ensures err { IfErr result (λ e. (equals_at : Span) (depth : ℕ)
        → StopsUnit two end depth (token Name name ∷ token Equals equals_at ∷ tokens.now) e) }
{
    let Some((number, at, rest)) = numeral(tokens) else {
        return Err(stop(tokens, end));
    };
    Ok((
        SpecTerm::Equal(word(alloc, bytes, name)?, name, number, at),
        rest,
    ))
}

// name, or name '=' number in version 2
fn named<'a>(
    alloc: Global,
    bytes: &[u8],
    two: bool,
    name: Span,
    rest: &'a [Token],
    end: u32,
) -> Result<(SpecTerm, &'a [Token]), ReadSpec>
    ensures ok { IfOk result (λ x. (depth : ℕ) → ReadsUnit two bytes.now end depth (token Name name ∷ rest.now)
        (bare_term x.0) x.1.now) }
    ensures err { IfErr result (λ e. (depth : ℕ) → StopsUnit two end depth (token Name name ∷ rest.now) e) }
{
    match second(two, rest, Mark::EqualsMark) {
        Some((_, rest)) => comparison(alloc, bytes, two, name, rest, end),
        None => Ok((SpecTerm::Name(word(alloc, bytes, name)?, name), rest)),
    }
}

/// unit := '~' unit | '(' term ')' | name | bit | name '=' number
#[cycle(terms)]
pub(crate) fn unit<'a>(
    alloc: Global,
    bytes: &[u8],
    two: bool,
    tokens: &'a [Token],
    depth: u32,
    end: u32,
) -> Result<(SpecTerm, &'a [Token]), ReadSpec>
    requires { depth ≤ 64 }
    ensures ok { IfOk result (λ x. ReadsUnit two bytes.now end depth tokens.now (bare_term x.0) x.1.now) }
    ensures err { IfErr result (λ e. StopsUnit two end depth tokens.now e) }
{
    let Some((first, rest)) = front(tokens) else {
        return Err(stop(tokens, end));
    };
    match first.kind {
        TokenKind::Tilde => negation(alloc, bytes, two, first.span, rest, depth, end),
        TokenKind::OpenRound => bracket(alloc, bytes, two, first.span, rest, depth, end),
        TokenKind::Name => named(alloc, bytes, two, first.span, rest, end),
        TokenKind::Zero => Ok((SpecTerm::Const(false), rest)),
        TokenKind::One => Ok((SpecTerm::Const(true), rest)),
        _ => Err(stop(tokens, end)),
    }
}

// The unit behind a `~`.
#[cycle(terms)]
fn negation<'a>(
    alloc: Global,
    bytes: &[u8],
    two: bool,
    at: Span,
    rest: &'a [Token],
    depth: u32,
    end: u32,
) -> Result<(SpecTerm, &'a [Token]), ReadSpec>
    requires { depth ≤ 64 }
    ensures ok { IfOk result (λ x. ReadsUnit two bytes.now end depth (token Tilde at ∷ rest.now)
        (bare_term x.0) x.1.now) }
    ensures err { IfErr result (λ e. StopsUnit two end depth (token Tilde at ∷ rest.now) e) }
{
    if depth == MAX_NESTING {
        return Err(refused(4, at));
    }
    let (operand, rest) = unit(alloc, bytes, two, rest, depth + 1, end)?;
    Ok((not_of(alloc, operand)?, rest))
}

// The term behind a `(`, and the `)`.
#[cycle(terms)]
fn bracket<'a>(
    alloc: Global,
    bytes: &[u8],
    two: bool,
    at: Span,
    rest: &'a [Token],
    depth: u32,
    end: u32,
) -> Result<(SpecTerm, &'a [Token]), ReadSpec>
    requires { depth ≤ 64 }
    ensures ok { IfOk result (λ x. ReadsUnit two bytes.now end depth (token OpenRound at ∷ rest.now)
        (bare_term x.0) x.1.now) }
    ensures err { IfErr result (λ e. StopsUnit two end depth (token OpenRound at ∷ rest.now) e) }
{
    if depth == MAX_NESTING {
        return Err(refused(4, at));
    }
    let (inner, rest) = term(alloc, bytes, two, rest, depth + 1, end)?;
    let Some((_, rest)) = behind(rest, Mark::CloseRoundMark) else {
        return Err(let_go(inner, stop(rest, end)));
    };
    Ok((inner, rest))
}

// all := unit {{ '&' unit }}
#[cycle(terms)]
fn all<'a>(
    alloc: Global,
    bytes: &[u8],
    two: bool,
    tokens: &'a [Token],
    depth: u32,
    end: u32,
) -> Result<(SpecTerm, &'a [Token]), ReadSpec>
    requires { depth ≤ 64 }
    ensures ok { IfOk result (λ x. ReadsAll two bytes.now end depth tokens.now (bare_term x.0) x.1.now) }
    ensures no_more { IfOk result (λ x. BeginsWith Ampersand x.1.now → ⊥) }
    ensures err { IfErr result (λ e. StopsAll two end depth tokens.now e) }
{
    let (first, mut rest) = unit(alloc, bytes, two, tokens, depth, end)?;
    let Some(_) = behind(rest, Mark::AmpersandMark) else {
        return Ok((first, rest));
    };
    let mut items = Listed::new(alloc);
    items.push(first)?;
    while let Some((_, after)) = behind(rest, Mark::AmpersandMark) {
        let (next, more) = unit(alloc, bytes, two, after, depth, end)?;
        items.push(next)?;
        rest = more;
    }
    Ok((SpecTerm::All(items), rest))
}

/// term := all {{ '|' all }}
#[cycle(terms)]
pub(crate) fn term<'a>(
    alloc: Global,
    bytes: &[u8],
    two: bool,
    tokens: &'a [Token],
    depth: u32,
    end: u32,
) -> Result<(SpecTerm, &'a [Token]), ReadSpec>
    requires { depth ≤ 64 }
    ensures ok { IfOk result (λ x. ReadsTerm two bytes.now end depth tokens.now (bare_term x.0) x.1.now) }
    ensures no_more { IfOk result (λ x. BeginsWith Ampersand x.1.now → ⊥) }
    ensures no_bar { IfOk result (λ x. BeginsWith Bar x.1.now → ⊥) }
    ensures err { IfErr result (λ e. StopsTerm two end depth tokens.now e) }
{
    let (first, mut rest) = all(alloc, bytes, two, tokens, depth, end)?;
    let Some(_) = behind(rest, Mark::BarMark) else {
        return Ok((first, rest));
    };
    let mut items = Listed::new(alloc);
    items.push(first)?;
    while let Some((_, after)) = behind(rest, Mark::BarMark) {
        let (next, more) = all(alloc, bytes, two, after, depth, end)?;
        items.push(next)?;
        rest = more;
    }
    Ok((SpecTerm::Any(items), rest))
}

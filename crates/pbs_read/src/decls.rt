// Declarations.
ghost use Rattle.std.specs.Prelude.{◌≡◌, IfOk, IfErr, option_map};
ghost use Rattle.pbs_ast.specs.Bare.{bare_expr, bare_prod};
ghost use Rattle.pbs_text.specs.places.Steps.{bit_of, width_of};
ghost use Rattle.pbs_text.specs.Trees.{width_value, declared};
ghost use Rattle.pbs_descent.specs.Descent.{NoFront, BeginsWith, front_refusal};
ghost use Rattle.pbs_read.specs.inner.DeclDescent.{TakesBit, ReadsWidth, StopsWidth, ReadsInput, StopsInput};
ghost use Rattle.pbs_read.specs.inner.DeclDescent.{ReadsInputs, StopsInputs, ReadsNames, StopsNames, ReadsSet};
ghost use Rattle.pbs_read.specs.inner.DeclDescent.{StopsSet, ReadsSets, StopsSets, ReadsLevelHead, StopsLevel};
ghost use Rattle.pbs_read.specs.inner.DeclDescent.{ReadsLevel, ReadsRightSide, StopsRightSide, ReadsProd, StopsProd};
ghost use Rattle.pbs_text.specs.declared.token.TokenKind.TheVariants.{Name};

use pbs_ast::{Decl, Decls, Expr, Level, Prod, Set, Sets};
use pbs_base::{Listed, Span};
use pbs_descent::{Mark, behind, expect, expr, front, second, stop, word};
use pbs_text::{ReadSpec, Token, TokenKind};
use std::alloc::Global;

fn bit_value(kind: TokenKind) -> Option<bool>
    ensures { result ≡ bit_of kind }
{
    match kind {
        TokenKind::Zero => Some(false),
        TokenKind::One => Some(true),
        _ => None,
    }
}

// The bit that has to come next.
fn expect_bit(tokens: &[Token], end: u32) -> Result<(bool, &[Token]), ReadSpec>
    ensures ok { IfOk result (λ x. TakesBit tokens.now x.0 x.1.now) }
    ensures err { IfErr result (λ e. (e ≡ ReadSpec.Refused (front_refusal end tokens.now)) × NoFront bit_of
        tokens.now) }
{
    let Some((first, rest)) = front(tokens) else {
        return Err(stop(tokens, end));
    };
    match bit_value(first.kind) {
        Some(bit) => Ok((bit, rest)),
        None => Err(stop(tokens, end)),
    }
}

fn width_number(kind: TokenKind) -> Option<u8>
    ensures { result ≡ option_map width_value (width_of kind) }
{
    match kind {
        TokenKind::One => Some(1),
        TokenKind::Two => Some(2),
        TokenKind::Digit(digit) => Some(digit),
        _ => None,
    }
}

// Nothing, or ':' width in version 2, behind the name of an input.
fn width(two: bool, tokens: &[Token], end: u32) -> Result<(u8, &[Token]), ReadSpec>
    ensures ok { IfOk result (λ x. ReadsWidth two end tokens.now x.0 x.1.now) }
    ensures err { IfErr result (λ e. StopsWidth two end tokens.now e) }
{
    let Some((_, behind_colon)) = second(two, tokens, Mark::ColonMark) else {
        return Ok((0, tokens));
    };
    let Some((first, rest)) = front(behind_colon) else {
        return Err(stop(behind_colon, end));
    };
    match width_number(first.kind) {
        Some(number) => Ok((number, rest)),
        None => Err(stop(behind_colon, end)),
    }
}

// input := name | name ':' width
fn input<'a>(
    alloc: Global,
    bytes: &[u8],
    two: bool,
    tokens: &'a [Token],
    end: u32,
) -> Result<(Decl, &'a [Token]), ReadSpec>
    ensures ok { IfOk result (λ x. ReadsInput two bytes.now end tokens.now x.0 x.1.now) }
    ensures err { IfErr result (λ e. StopsInput two end tokens.now e) }
{
    let (span, rest) = expect(tokens, Mark::AName, end)?;
    let (width, rest) = width(two, rest, end)?;
    let name = word(alloc, bytes, span)?;
    Ok((Decl { name, span, width }, rest))
}

/// input {{ ',' input }} ';' behind an 'input', to the end of the list.
pub(crate) fn inputs<'a>(
    alloc: Global,
    bytes: &[u8],
    two: bool,
    tokens: &'a [Token],
    end: u32,
    list: &mut Decls,
) -> Result<&'a [Token], ReadSpec>
    ensures ok { IfOk result (λ rest. ReadsInputs two bytes.now end tokens.now list.old list.new rest.now) }
    ensures err { IfErr result (λ e. StopsInputs two end tokens.now e) }
{
    let (first, mut rest) = input(alloc, bytes, two, tokens, end)?;
    list.push(first)?;
    while let Some((_, after)) = behind(rest, Mark::CommaMark) {
        let (next, more) = input(alloc, bytes, two, after, end)?;
        list.push(next)?;
        rest = more;
    }
    let (_, rest) = expect(rest, Mark::SemicolonMark, end)?;
    Ok(rest)
}

// A declared action.
fn action_of(alloc: Global, bytes: &[u8], span: Span) -> Result<Decl, ReadSpec>
    ensures value { IfOk result (λ x. x ≡ declared bytes.now span 0) }
    ensures memory { IfErr result (λ e. e ≡ ReadSpec.Memory) }
{
    let name = word(alloc, bytes, span)?;
    Ok(Decl {
        name,
        span,
        width: 0,
    })
}

/// name {{ ',' name }} ';' behind an 'action', to the end of the list.
pub(crate) fn names<'a>(
    alloc: Global,
    bytes: &[u8],
    tokens: &'a [Token],
    end: u32,
    list: &mut Decls,
) -> Result<&'a [Token], ReadSpec>
    ensures ok { IfOk result (λ rest. ReadsNames bytes.now end tokens.now list.old list.new rest.now) }
    ensures err { IfErr result (λ e. StopsNames end tokens.now e) }
{
    let (at, mut rest) = expect(tokens, Mark::AName, end)?;
    list.push(action_of(alloc, bytes, at)?)?;
    while let Some((_, after)) = behind(rest, Mark::CommaMark) {
        let (at, more) = expect(after, Mark::AName, end)?;
        list.push(action_of(alloc, bytes, at)?)?;
        rest = more;
    }
    let (_, rest) = expect(rest, Mark::SemicolonMark, end)?;
    Ok(rest)
}

// ':' bit ';' behind the name of an action
fn set(tokens: &[Token], end: u32) -> Result<(bool, &[Token]), ReadSpec>
    ensures ok { IfOk result (λ x. ReadsSet end tokens.now x.0 x.1.now) }
    ensures err { IfErr result (λ e. StopsSet end tokens.now e) }
{
    let (_, rest) = expect(tokens, Mark::ColonMark, end)?;
    let (value, rest) = expect_bit(rest, end)?;
    let (_, rest) = expect(rest, Mark::SemicolonMark, end)?;
    Ok((value, rest))
}

// {{ name ':' bit ';' }}
fn sets<'a>(
    alloc: Global,
    bytes: &[u8],
    tokens: &'a [Token],
    end: u32,
) -> Result<(Sets, &'a [Token]), ReadSpec>
    ensures ok { IfOk result (λ x. ReadsSets bytes.now end tokens.now x.0 x.1.now) }
    ensures no_name { IfOk result (λ x. BeginsWith Name x.1.now → ⊥) }
    ensures err { IfErr result (λ e. StopsSets end tokens.now e) }
{
    let mut found = Listed::new(alloc);
    let mut rest = tokens;
    while let Some((span, after)) = behind(rest, Mark::AName) {
        let (value, more) = set(after, end)?;
        let action = word(alloc, bytes, span)?;
        found.push(Set {
            action,
            span,
            value,
        })?;
        rest = more;
    }
    Ok((found, rest))
}

// name '=' bit '{' behind a 'level'
fn level_head(tokens: &[Token], end: u32) -> Result<(Span, bool, &[Token]), ReadSpec>
    ensures ok { IfOk result (λ x. ReadsLevelHead end tokens.now x.0 x.1 x.2.now) }
    ensures err { IfErr result (λ e. StopsLevel end tokens.now e) }
{
    let (name, rest) = expect(tokens, Mark::AName, end)?;
    let (_, rest) = expect(rest, Mark::EqualsMark, end)?;
    let (value, rest) = expect_bit(rest, end)?;
    let (_, rest) = expect(rest, Mark::OpenCurlyMark, end)?;
    Ok((name, value, rest))
}

/// name '=' bit '{' {{ name ':' bit ';' }} '}' behind a 'level'
pub(crate) fn level<'a>(
    alloc: Global,
    bytes: &[u8],
    tokens: &'a [Token],
    end: u32,
) -> Result<(Level, &'a [Token]), ReadSpec>
    ensures ok { IfOk result (λ x. ReadsLevel bytes.now end tokens.now x.0 x.1.now) }
    ensures err { IfErr result (λ e. StopsLevel end tokens.now e) }
{
    let (span, start, rest) = level_head(tokens, end)?;
    let (sets, rest) = sets(alloc, bytes, rest, end)?;
    let (_, rest) = expect(rest, Mark::CloseCurlyMark, end)?;
    let name = word(alloc, bytes, span)?;
    Ok((
        Level {
            name,
            span,
            start,
            sets,
        },
        rest,
    ))
}

/// '=' expr ';' behind the name of a production or 'main'
pub(crate) fn right_side<'a>(
    alloc: Global,
    bytes: &[u8],
    two: bool,
    tokens: &'a [Token],
    end: u32,
) -> Result<(Expr, &'a [Token]), ReadSpec>
    ensures ok { IfOk result (λ x. ReadsRightSide two bytes.now end tokens.now (bare_expr x.0) x.1.now) }
    ensures err { IfErr result (λ e. StopsRightSide two end tokens.now e) }
{
    let (_, rest) = expect(tokens, Mark::EqualsMark, end)?;
    let (body, rest) = expr(alloc, bytes, two, rest, 0, end)?;
    let (_, rest) = expect(rest, Mark::SemicolonMark, end)?;
    Ok((body.tree, rest))
}

/// name '=' expr ';' behind a 'prod'
pub(crate) fn prod<'a>(
    alloc: Global,
    bytes: &[u8],
    two: bool,
    tokens: &'a [Token],
    end: u32,
) -> Result<(Prod, &'a [Token]), ReadSpec>
    ensures ok { IfOk result (λ x. ReadsProd two bytes.now end tokens.now (bare_prod x.0) x.1.now) }
    ensures err { IfErr result (λ e. StopsProd two end tokens.now e) }
{
    let (span, rest) = expect(tokens, Mark::AName, end)?;
    let (body, rest) = right_side(alloc, bytes, two, rest, end)?;
    let name = word(alloc, bytes, span)?;
    Ok((Prod { name, span, body }, rest))
}

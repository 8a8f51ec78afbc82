// Expressions.
ghost use Rattle.std.specs.Prelude.{◌≡◌, ◌≤◌, ◌<◌, ◌∷◌, length, IfOk, IfErr};
ghost use Rattle.pbs_ast.specs.Bare.{bare_term, bare_expr, expr};
ghost use Rattle.pbs_text.specs.Trees.{joined, operator_node, repeat_node, scope_node, word_at};
ghost use Rattle.pbs_text.specs.Grammar.{token};
ghost use Rattle.pbs_text.specs.places.Holes.{item_nesting};
ghost use Rattle.pbs_descent.specs.Descent.{Stops, ReadsGroup, StopsGroup, ReadsPrim, ReadsItem, StopsItem, ReadsSeq};
ghost use Rattle.pbs_descent.specs.Descent.{StopsSeq, ReadsExpr, StopsExpr, ReadsBounds, StopsBounds, ReadsGuard};
ghost use Rattle.pbs_descent.specs.Descent.{after_hold, ReadsTrap, StopsTrap, BeginsWith};
ghost use Rattle.pbs_text.specs.declared.token.TokenKind.TheVariants.{Name, OpenCurly, OpenSquare, HoldWord, TryWord};
ghost use Rattle.pbs_text.specs.declared.token.TokenKind.TheVariants.{Comma, Bar};

use crate::common::{
    MAX_NESTING, behind, expect, front, let_go, numeral, operator, refused, second, stop, word,
};
use crate::mark::Mark;
use crate::nodes::{hold_of, operator_of, repeat_of, scope_of};
use crate::terms::term;
use pbs_ast::{Expr, Kind, SpecTerm};
use pbs_base::{Listed, Span};
use pbs_text::{Operator, ReadSpec, Token, TokenKind};
use std::alloc::Global;

/// A node, and the whole of what was read for it, its brackets included.
#[derive(Drop)]
pub struct Part {
    pub tree: Expr,
    pub extent: Span,
}

// From the first byte of one span to the last of another.
fn joined(first: Span, last: Span) -> Span
    ensures { result ≡ record { start = first.start; end = last.end } }
{
    Span {
        start: first.start,
        end: last.end,
    }
}

// At least and at most how many copies, and the bracket behind.
#[derive(Clone, Copy)]
struct Copies {
    least: u32,
    most: u32,
    close: Span,
}

// number ',' number '}' behind a '{'
fn bounds(tokens: &[Token], end: u32) -> Result<(Copies, &[Token]), ReadSpec>
    ensures ok { IfOk result (λ x. ReadsBounds end tokens.now x.0.least x.0.most x.0.close x.1.now) }
    ensures err { IfErr result (λ e. StopsBounds end tokens.now e) }
{
    let Some((least, _, rest)) = numeral(tokens) else {
        return Err(stop(tokens, end));
    };
    let (_, rest) = expect(rest, Mark::CommaMark, end)?;
    let Some((most, _, rest)) = numeral(rest) else {
        return Err(stop(rest, end));
    };
    let (close, rest) = expect(rest, Mark::CloseCurlyMark, end)?;
    Ok((Copies { least, most, close }, rest))
}

// term ']' behind a '['
fn terminal<'a>(
    alloc: Global,
    bytes: &[u8],
    two: bool,
    at: Span,
    rest: &'a [Token],
    depth: u32,
    end: u32,
) -> Result<(Part, &'a [Token]), ReadSpec>
    requires { depth ≤ 64 }
    ensures ok { IfOk result (λ x. ReadsPrim two bytes.now end depth (token OpenSquare at ∷ rest.now)
        (bare_expr x.0.tree) x.0.extent x.1.now) }
    ensures err { IfErr result (λ e. StopsItem two end depth (token OpenSquare at ∷ rest.now) e) }
{
    let (inner, rest) = term(alloc, bytes, two, rest, depth, end)?;
    let Some((close, rest)) = behind(rest, Mark::CloseSquareMark) else {
        return Err(let_go(inner, stop(rest, end)));
    };
    let extent = joined(at, close);
    let tree = Expr {
        span: extent,
        kind: Kind::Terminal(inner),
    };
    Ok((Part { tree, extent }, rest))
}

// name '}' behind a '{'
fn action<'a>(
    alloc: Global,
    bytes: &[u8],
    two: bool,
    at: Span,
    rest: &'a [Token],
    depth: u32,
    end: u32,
) -> Result<(Part, &'a [Token]), ReadSpec>
    ensures ok { IfOk result (λ x. ReadsPrim two bytes.now end depth (token OpenCurly at ∷ rest.now)
        (bare_expr x.0.tree) x.0.extent x.1.now) }
    ensures err { IfErr result (λ e. StopsItem two end depth (token OpenCurly at ∷ rest.now) e) }
{
    let (name, rest) = expect(rest, Mark::AName, end)?;
    let (close, rest) = expect(rest, Mark::CloseCurlyMark, end)?;
    let extent = joined(at, close);
    let tree = Expr {
        span: extent,
        kind: Kind::Action(word(alloc, bytes, name)?, name),
    };
    Ok((Part { tree, extent }, rest))
}

// The use of a production.
fn call(alloc: Global, bytes: &[u8], at: Span) -> Result<Part, ReadSpec>
    ensures value { IfOk result (λ part. (bare_expr part.tree ≡ expr at (Kind.Name (word_at bytes.now at))) ×
        (part.extent ≡ at)) }
    ensures memory { IfErr result (λ e. e ≡ ReadSpec.Memory) }
{
    let tree = Expr {
        span: at,
        kind: Kind::Name(word(alloc, bytes, at)?),
    };
    Ok(Part { tree, extent: at })
}

// '[' term ']' ':' behind a 'hold'
fn guard<'a>(
    alloc: Global,
    bytes: &[u8],
    two: bool,
    tokens: &'a [Token],
    depth: u32,
    end: u32,
) -> Result<(SpecTerm, &'a [Token]), ReadSpec>
    requires { depth ≤ 64 }
    ensures ok { IfOk result (λ x. ReadsGuard two bytes.now end depth tokens.now (bare_term x.0) x.1.now) }
    ensures shorter { IfOk result (λ x. length x.1.now < length tokens.now) }
    ensures err { IfErr result (λ e. (at : Span) → Stops (item_nesting {two = two})
        (after_hold at) end depth tokens.now e) }
{
    let (_, rest) = expect(tokens, Mark::OpenSquareMark, end)?;
    let (inner, rest) = term(alloc, bytes, two, rest, depth, end)?;
    let Some((_, rest)) = behind(rest, Mark::CloseSquareMark) else {
        return Err(let_go(inner, stop(rest, end)));
    };
    let Some((_, rest)) = behind(rest, Mark::ColonMark) else {
        return Err(let_go(inner, stop(rest, end)));
    };
    Ok((inner, rest))
}

// group := '(' [[ expr ]] ')'
#[cycle(exprs)]
fn group<'a>(
    alloc: Global,
    bytes: &[u8],
    two: bool,
    tokens: &'a [Token],
    depth: u32,
    end: u32,
) -> Result<(Part, &'a [Token]), ReadSpec>
    requires { depth ≤ 64 }
    ensures ok { IfOk result (λ x. ReadsGroup two bytes.now end depth tokens.now
        (bare_expr x.0.tree) x.0.extent x.1.now) }
    ensures err { IfErr result (λ e. StopsGroup two end depth tokens.now e) }
{
    let Some((at, rest)) = behind(tokens, Mark::OpenRoundMark) else {
        return Err(stop(tokens, end));
    };
    if depth == MAX_NESTING {
        return Err(refused(4, at));
    }
    if let Some((close, rest)) = behind(rest, Mark::CloseRoundMark) {
        let extent = joined(at, close);
        let tree = Expr {
            span: extent,
            kind: Kind::Empty,
        };
        return Ok((Part { tree, extent }, rest));
    }
    let (inner, rest) = expr(alloc, bytes, two, rest, depth + 1, end)?;
    let Some((close, rest)) = behind(rest, Mark::CloseRoundMark) else {
        return Err(let_go(inner, stop(rest, end)));
    };
    let extent = joined(at, close);
    Ok((
        Part {
            tree: inner.tree,
            extent,
        },
        rest,
    ))
}

// '[' term ']' ':' group behind a 'hold'
#[cycle(exprs)]
fn hold<'a>(
    alloc: Global,
    bytes: &[u8],
    two: bool,
    at: Span,
    rest: &'a [Token],
    depth: u32,
    end: u32,
) -> Result<(Part, &'a [Token]), ReadSpec>
    requires { depth ≤ 64 }
    ensures ok { IfOk result (λ x. ReadsPrim two bytes.now end depth (token HoldWord at ∷ rest.now)
        (bare_expr x.0.tree) x.0.extent x.1.now) }
    ensures err { IfErr result (λ e. StopsItem two end depth (token HoldWord at ∷ rest.now) e) }
{
    let (condition, rest) = guard(alloc, bytes, two, rest, depth, end)?;
    let (body, rest) = match group(alloc, bytes, two, rest, depth, end) {
        Ok(read) => read,
        Err(answer) => return Err(let_go(condition, answer)),
    };
    let extent = joined(at, body.extent);
    let tree = hold_of(alloc, condition, body.tree, extent)?;
    Ok((Part { tree, extent }, rest))
}

// A scope of what was read for its parts.
fn scoped(alloc: Global, at: Span, body: Part, trap: Part, after: Part) -> Result<Part, ReadSpec>
    ensures value { IfOk result
        (λ part. (bare_expr part.tree ≡ expr (joined at after.extent)
        (scope_node (bare_expr body.tree) (bare_expr trap.tree) (bare_expr after.tree))) ×
        (part.extent ≡ joined at after.extent)) }
    ensures memory { IfErr result (λ e. e ≡ ReadSpec.Memory) }
{
    let extent = joined(at, after.extent);
    let tree = scope_of(alloc, body.tree, trap.tree, after.tree, extent)?;
    Ok(Part { tree, extent })
}

// 'abort' group 'then' group behind the body of a scope
#[cycle(exprs)]
fn trap_and_after<'a>(
    alloc: Global,
    bytes: &[u8],
    two: bool,
    tokens: &'a [Token],
    depth: u32,
    end: u32,
) -> Result<(Part, Part, &'a [Token]), ReadSpec>
    requires { depth ≤ 64 }
    ensures ok { IfOk result (λ x. ReadsTrap two bytes.now end depth tokens.now (bare_expr x.0.tree)
        (bare_expr x.1.tree) x.1.extent x.2.now) }
    ensures err { IfErr result (λ e. StopsTrap two end depth tokens.now e) }
{
    let (_, rest) = expect(tokens, Mark::Abort, end)?;
    let (trap, rest) = group(alloc, bytes, two, rest, depth, end)?;
    let (_, rest) = match expect(rest, Mark::Then, end) {
        Ok(found) => found,
        Err(answer) => return Err(let_go(trap, answer)),
    };
    match group(alloc, bytes, two, rest, depth, end) {
        Ok((after, rest)) => Ok((trap, after, rest)),
        Err(answer) => Err(let_go(trap, answer)),
    }
}

// group 'abort' group 'then' group behind a 'try'
#[cycle(exprs)]
fn scope<'a>(
    alloc: Global,
    bytes: &[u8],
    two: bool,
    at: Span,
    rest: &'a [Token],
    depth: u32,
    end: u32,
) -> Result<(Part, &'a [Token]), ReadSpec>
    requires { depth ≤ 64 }
    ensures ok { IfOk result (λ x. ReadsPrim two bytes.now end depth (token TryWord at ∷ rest.now)
        (bare_expr x.0.tree) x.0.extent x.1.now) }
    ensures err { IfErr result (λ e. StopsItem two end depth (token TryWord at ∷ rest.now) e) }
{
    let (body, rest) = group(alloc, bytes, two, rest, depth, end)?;
    match trap_and_after(alloc, bytes, two, rest, depth, end) {
        Ok((trap, after, rest)) => Ok((scoped(alloc, at, body, trap, after)?, rest)),
        Err(answer) => Err(let_go(body, answer)),
    }
}

// prim := '[' term ']' | '{' name '}' | name | group | 'hold' .. | 'try' ..
#[cycle(exprs)]
fn prim<'a>(
    alloc: Global,
    bytes: &[u8],
    two: bool,
    tokens: &'a [Token],
    depth: u32,
    end: u32,
) -> Result<(Part, &'a [Token]), ReadSpec>
    requires { depth ≤ 64 }
    ensures ok { IfOk result (λ x. ReadsPrim two bytes.now end depth tokens.now (bare_expr x.0.tree) x.0.extent
        x.1.now) }
    ensures err { IfErr result (λ e. StopsItem two end depth tokens.now e) }
{
    let Some((first, rest)) = front(tokens) else {
        return Err(stop(tokens, end));
    };
    let at = first.span;
    match first.kind {
        TokenKind::OpenSquare => terminal(alloc, bytes, two, at, rest, depth, end),
        TokenKind::OpenCurly => action(alloc, bytes, two, at, rest, depth, end),
        TokenKind::Name => Ok((call(alloc, bytes, at)?, rest)),
        TokenKind::OpenRound => group(alloc, bytes, two, tokens, depth, end),
        TokenKind::HoldWord => hold(alloc, bytes, two, at, rest, depth, end),
        TokenKind::TryWord => scope(alloc, bytes, two, at, rest, depth, end),
        _ => Err(stop(tokens, end)),
    }
}

// number ',' number '}' behind an item's prim and a '{'
fn counted(alloc: Global, inner: Part, copies: Copies) -> Result<Part, ReadSpec>
    ensures value { IfOk result
        (λ part. (bare_expr part.tree ≡ expr (joined inner.extent copies.close)
        (repeat_node (bare_expr inner.tree) copies.least copies.most)) ×
        (part.extent ≡ joined inner.extent copies.close)) }
    ensures memory { IfErr result (λ e. e ≡ ReadSpec.Memory) }
{
    let extent = joined(inner.extent, copies.close);
    let tree = repeat_of(alloc, inner.tree, copies.least, copies.most, extent)?;
    Ok(Part { tree, extent })
}

// operator behind an item's prim
fn repeated(alloc: Global, inner: Part, op: Operator, at: Span) -> Result<Part, ReadSpec>
    ensures value { IfOk result
        (λ part. (bare_expr part.tree ≡ expr (joined inner.extent at) (operator_node op (bare_expr inner.tree))) ×
        (part.extent ≡ joined inner.extent at)) }
    ensures memory { IfErr result (λ e. e ≡ ReadSpec.Memory) }
{
    let extent = joined(inner.extent, at);
    let tree = operator_of(alloc, op, inner.tree, extent)?;
    Ok(Part { tree, extent })
}

// item := prim [[ '*' | '+' | '?' ]] | prim '{' number ',' number '}'
#[cycle(exprs)]
fn item<'a>(
    alloc: Global,
    bytes: &[u8],
    two: bool,
    tokens: &'a [Token],
    depth: u32,
    end: u32,
) -> Result<(Part, &'a [Token]), ReadSpec>
    requires { depth ≤ 64 }
    ensures ok { IfOk result (λ x. ReadsItem two bytes.now end depth tokens.now (bare_expr x.0.tree) x.0.extent
        x.1.now) }
    ensures err { IfErr result (λ e. StopsItem two end depth tokens.now e) }
{
    let (inner, rest) = prim(alloc, bytes, two, tokens, depth, end)?;
    if let Some((_, rest)) = second(two, rest, Mark::OpenCurlyMark) {
        return match bounds(rest, end) {
            Ok((copies, rest)) => Ok((counted(alloc, inner, copies)?, rest)),
            Err(answer) => Err(let_go(inner, answer)),
        };
    }
    let Some((op, at, rest)) = operator(rest) else {
        return Ok((inner, rest));
    };
    Ok((repeated(alloc, inner, op, at)?, rest))
}

// seq := item {{ ',' item }}
#[cycle(exprs)]
fn seq<'a>(
    alloc: Global,
    bytes: &[u8],
    two: bool,
    tokens: &'a [Token],
    depth: u32,
    end: u32,
) -> Result<(Part, &'a [Token]), ReadSpec>
    requires { depth ≤ 64 }
    ensures ok { IfOk result (λ x. ReadsSeq two bytes.now end depth tokens.now (bare_expr x.0.tree) x.0.extent
        x.1.now) }
    ensures no_comma { IfOk result (λ x. BeginsWith Comma x.1.now → ⊥) }
    ensures err { IfErr result (λ e. StopsSeq two end depth tokens.now e) }
{
    let (first, mut rest) = item(alloc, bytes, two, tokens, depth, end)?;
    let Some(_) = behind(rest, Mark::CommaMark) else {
        return Ok((first, rest));
    };
    let mut extent = first.extent;
    let mut items = Listed::new(alloc);
    items.push(first.tree)?;
    while let Some((_, after)) = behind(rest, Mark::CommaMark) {
        let (next, more) = item(alloc, bytes, two, after, depth, end)?;
        items.push(next.tree)?;
        extent = joined(extent, next.extent);
        rest = more;
    }
    let tree = Expr {
        span: extent,
        kind: Kind::Seq(items),
    };
    Ok((Part { tree, extent }, rest))
}

/// expr := seq {{ '|' seq }}
#[cycle(exprs)]
pub fn expr<'a>(
    alloc: Global,
    bytes: &[u8],
    two: bool,
    tokens: &'a [Token],
    depth: u32,
    end: u32,
) -> Result<(Part, &'a [Token]), ReadSpec>
    requires { depth ≤ 64 }
    ensures ok { IfOk result (λ x. ReadsExpr two bytes.now end depth tokens.now (bare_expr x.0.tree) x.0.extent
        x.1.now) }
    ensures no_comma { IfOk result (λ x. BeginsWith Comma x.1.now → ⊥) }
    ensures no_bar { IfOk result (λ x. BeginsWith Bar x.1.now → ⊥) }
    ensures err { IfErr result (λ e. StopsExpr two end depth tokens.now e) }
{
    let (first, mut rest) = seq(alloc, bytes, two, tokens, depth, end)?;
    let Some(_) = behind(rest, Mark::BarMark) else {
        return Ok((first, rest));
    };
    let mut extent = first.extent;
    let mut items = Listed::new(alloc);
    items.push(first.tree)?;
    while let Some((_, after)) = behind(rest, Mark::BarMark) {
        let (next, more) = seq(alloc, bytes, two, after, depth, end)?;
        items.push(next.tree)?;
        extent = joined(extent, next.extent);
        rest = more;
    }
    let tree = Expr {
        span: extent,
        kind: Kind::Choice(items),
    };
    Ok((Part { tree, extent }, rest))
}

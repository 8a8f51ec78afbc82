// The nodes of an expression.
ghost use Rattle.std.specs.Prelude.{◌≡◌, IfOk, IfErr};
ghost use Rattle.pbs_ast.specs.Bare.{bare_expr, bare_term, expr};
ghost use Rattle.pbs_text.specs.Trees.{operator_node, repeat_node, hold_node, scope_node};

use crate::common::let_go;
use pbs_ast::{Expr, Kind, SpecTerm};
use pbs_base::Span;
use pbs_text::{Operator, ReadSpec};
use std::alloc::Global;

fn boxed(alloc: Global, body: Expr) -> Result<Box<Expr>, ReadSpec>
    ensures value { IfOk result (λ b. b.value ≡ body) }
    ensures memory { IfErr result (λ e. e ≡ ReadSpec.Memory) }
{
    Ok(Box::new(alloc, body)?)
}

pub(crate) fn operator_of(
    alloc: Global,
    operator: Operator,
    body: Expr,
    span: Span,
) -> Result<Expr, ReadSpec>
    ensures value { IfOk result (λ e. bare_expr e ≡ expr span (operator_node operator (bare_expr body))) }
    ensures memory { IfErr result (λ e. e ≡ ReadSpec.Memory) }
{
    let body = boxed(alloc, body)?;
    match operator {
        Operator::StarOp => Ok(Expr {
            span,
            kind: Kind::Star(body),
        }),
        Operator::PlusOp => Ok(Expr {
            span,
            kind: Kind::Plus(body),
        }),
        Operator::OptOp => Ok(Expr {
            span,
            kind: Kind::Opt(body),
        }),
    }
}

pub(crate) fn repeat_of(
    alloc: Global,
    body: Expr,
    least: u32,
    most: u32,
    span: Span,
) -> Result<Expr, ReadSpec>
    ensures value { IfOk result (λ e. bare_expr e ≡ expr span (repeat_node (bare_expr body) least most)) }
    ensures memory { IfErr result (λ e. e ≡ ReadSpec.Memory) }
{
    Ok(Expr {
        span,
        kind: Kind::Repeat(boxed(alloc, body)?, least, most),
    })
}

pub(crate) fn hold_of(
    alloc: Global,
    condition: SpecTerm,
    body: Expr,
    span: Span,
) -> Result<Expr, ReadSpec>
    ensures value { IfOk result (λ e. bare_expr e ≡ expr span (hold_node (bare_term condition) (bare_expr body))) }
    ensures memory { IfErr result (λ e. e ≡ ReadSpec.Memory) }
{
    match boxed(alloc, body) {
        Ok(body) => Ok(Expr {
            span,
            kind: Kind::Hold(condition, body),
        }),
        Err(answer) => Err(let_go(condition, answer)),
    }
}

fn boxed_pair(alloc: Global, first: Expr, second: Expr) -> Result<(Box<Expr>, Box<Expr>), ReadSpec>
    ensures value { IfOk result (λ x. (x.0.value ≡ first) × (x.1.value ≡ second)) }
    ensures memory { IfErr result (λ e. e ≡ ReadSpec.Memory) }
{
    let first = match boxed(alloc, first) {
        Ok(first) => first,
        Err(answer) => return Err(let_go(second, answer)),
    };
    match boxed(alloc, second) {
        Ok(second) => Ok((first, second)),
        Err(answer) => Err(let_go(first, answer)),
    }
}

pub(crate) fn scope_of(
    alloc: Global,
    body: Expr,
    trap: Expr,
    after: Expr,
    span: Span,
) -> Result<Expr, ReadSpec>
    ensures value { IfOk result (λ e. bare_expr e ≡ expr span
        (scope_node (bare_expr body) (bare_expr trap) (bare_expr after))) }
    ensures memory { IfErr result (λ e. e ≡ ReadSpec.Memory) }
{
    let (body, trap) = match boxed_pair(alloc, body, trap) {
        Ok(pair) => pair,
        Err(answer) => return Err(let_go(after, answer)),
    };
    match boxed(alloc, after) {
        Ok(after) => Ok(Expr {
            span,
            kind: Kind::Scope(body, trap, after),
        }),
        Err(answer) => Err(let_go(body, let_go(trap, answer))),
    }
}

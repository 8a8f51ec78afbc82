// What is visited, and the parts that it has.

ghost use Rattle.std.specs.Prelude.{◌≡◌};
ghost use Rattle.std.specs.Option.{option_copied};
ghost use Rattle.pbs_names.specs.Naming.{prod_names};
ghost use Rattle.pbs_names.specs.Numbers.{IsNumbering};
ghost use Rattle.pbs_expand.specs.Parts.{part_of, shape_of, shape, expr_shape, stripped, span_of, run_part, halves};
ghost use Rattle.pbs_expand.specs.Parts.{listed_shape, run_span, start_at, end_at, named_shape, copies_part};
ghost use Rattle.pbs_expand.specs.Parts.{copies_shape, upto_shape, repeat_shape};

use pbs_ast::{Expr, Kind, Prods, SpecTerm};
use pbs_base::{Span, Word};
use pbs_names::{Numbers, body_of};

/// The two ways in which two parts make one node.
#[derive(Clone, Copy)]
pub enum Pairing {
    Sequence,
    Choice,
}

/// What is visited: an expression, or a node that the expansion makes.
#[derive(Clone, Copy)]
pub enum Part<'a> {
    Whole(&'a Expr),
    /// Two or more items of a sequence or a choice.
    Run(Pairing, &'a [Expr]),
    Nothing(Span),
    Starred(Span, &'a Expr),
    /// A number of copies, at least two.
    Copies(Span, &'a Expr, u32),
    /// Up to a number of copies, at least one.
    UpTo(Span, &'a Expr, u32),
    /// One copy, and then up to a number of copies, at least one.
    Further(Span, &'a Expr, u32),
}

/// A node with its parts.
#[derive(Clone, Copy)]
pub enum Shape<'a> {
    Empty(Span),
    Terminal(Span, &'a SpecTerm),
    Action(Span, &'a Word),
    Name(Span, Part<'a>),
    Star(Span, Part<'a>),
    Hold(Span, &'a SpecTerm, Part<'a>),
    Pair(Span, Pairing, Part<'a>, Part<'a>),
    Scope(Span, Part<'a>, Part<'a>, Part<'a>),
}

/// One item is itself.
fn run_part<'a>(by: Pairing, items: &'a [Expr]) -> Part<'a>
    ensures { part_of result ≡ run_part by items.now }
{
    match items {
        [item] => Part::Whole(item),
        _ => Part::Run(by, items),
    }
}

fn halves<'a>(span: Span, by: Pairing, items: &'a [Expr]) -> Shape<'a>
    ensures { shape_of result ≡ halves span by items.now }
{
    let (first, second) = items.split_at((items.len() + 1) / 2);
    Shape::Pair(span, by, run_part(by, first), run_part(by, second))
}

fn listed_shape<'a>(span: Span, by: Pairing, items: &'a [Expr]) -> Shape<'a>
    ensures { shape_of result ≡ listed_shape span by items.now }
{
    if items.is_empty() {
        Shape::Empty(span)
    } else {
        halves(span, by, items)
    }
}

fn start_at(item: Option<&Expr>) -> u32
    ensures { result ≡ start_at (option_copied item.entry) }
{
    match item {
        Some(item) => item.span.start,
        None => 0,
    }
}

fn end_at(item: Option<&Expr>) -> u32
    ensures { result ≡ end_at (option_copied item.entry) }
{
    match item {
        Some(item) => item.span.end,
        None => 0,
    }
}

/// From the start of the first item to the end of the last one.
fn run_span(items: &[Expr]) -> Span
    ensures { result ≡ run_span items.now }
{
    let last = items.len().saturating_sub(1);
    Span {
        start: start_at(items.get(0)),
        end: end_at(items.get(last)),
    }
}

fn copies_part<'a>(span: Span, body: &'a Expr, count: u32) -> Part<'a>
    ensures { part_of result ≡ copies_part span body.now count }
{
    if count == 1 {
        Part::Whole(body)
    } else {
        Part::Copies(span, body, count)
    }
}

fn copies_shape<'a>(span: Span, body: &'a Expr, count: u32) -> Shape<'a>
    ensures { shape_of result ≡ copies_shape span body.now count }
{
    let second = count / 2;
    let first = count - second;
    Shape::Pair(
        span,
        Pairing::Sequence,
        copies_part(span, body, first),
        copies_part(span, body, second),
    )
}

fn upto_shape<'a>(span: Span, body: &'a Expr, count: u32) -> Shape<'a>
    ensures { shape_of result ≡ upto_shape span body.now count }
{
    let some = if count <= 1 {
        Part::Whole(body)
    } else {
        Part::Further(span, body, count - 1)
    };
    Shape::Pair(span, Pairing::Choice, some, Part::Nothing(span))
}

fn repeat_shape<'a>(span: Span, body: &'a Expr, least: u32, most: u32) -> Shape<'a>
    ensures { shape_of result ≡ repeat_shape span body.now least most }
{
    if least == most {
        copies_shape(span, body, least)
    } else if least == 0 {
        upto_shape(span, body, most)
    } else {
        let more = most.saturating_sub(least);
        Shape::Pair(
            span,
            Pairing::Sequence,
            copies_part(span, body, least),
            Part::UpTo(span, body, more),
        )
    }
}

fn named_shape<'a>(span: Span, body: Option<&'a Expr>) -> Shape<'a>
    ensures { shape_of result ≡ named_shape span (option_copied body.entry) }
{
    match body {
        Some(body) => Shape::Name(span, Part::Whole(body)),
        None => Shape::Empty(span),
    }
}

fn expr_shape<'a>(prods: &'a Prods, index: &Numbers, expr: &'a Expr) -> Shape<'a>
    requires { IsNumbering (prod_names prods.now) index.now }
    ensures { shape_of result ≡ expr_shape prods.now expr.now }
{
    let span = expr.span;
    match &expr.kind {
        Kind::Empty => Shape::Empty(span),
        Kind::Terminal(term) => Shape::Terminal(span, term),
        Kind::Action(name, _) => Shape::Action(span, name),
        Kind::Seq(items) => listed_shape(span, Pairing::Sequence, items.as_slice()),
        Kind::Choice(items) => listed_shape(span, Pairing::Choice, items.as_slice()),
        Kind::Star(body) => Shape::Star(span, Part::Whole(body)),
        Kind::Plus(body) => Shape::Pair(
            span,
            Pairing::Sequence,
            Part::Whole(body),
            Part::Starred(span, body),
        ),
        Kind::Opt(body) => Shape::Pair(
            span,
            Pairing::Choice,
            Part::Whole(body),
            Part::Nothing(span),
        ),
        Kind::Hold(term, body) => Shape::Hold(span, term, Part::Whole(body)),
        Kind::Scope(body, trap, after) => Shape::Scope(
            span,
            Part::Whole(body),
            Part::Whole(trap),
            Part::Whole(after),
        ),
        Kind::Name(name) => named_shape(span, body_of(prods, index, name)),
        Kind::Repeat(body, least, most) => repeat_shape(span, body, *least, *most),
    }
}

/// A list of one member is that member, and so is one copy.
fn only_part(expr: &Expr) -> &Expr
    ensures { result.now ≡ stripped expr.now }
{
    match &expr.kind {
        Kind::Seq(items) | Kind::Choice(items) => match items.as_slice() {
            [item] => only_part(item),
            _ => expr,
        },
        Kind::Repeat(body, 1, 1) => only_part(body),
        _ => expr,
    }
}

/// The span of what is visited.
pub(crate) fn part_span(part: Part) -> Span
    ensures { result ≡ span_of (part_of part.entry) }
{
    match part {
        Part::Whole(expr) => only_part(expr).span,
        Part::Run(_, items) => run_span(items),
        Part::Nothing(span) => span,
        Part::Starred(span, _) => span,
        Part::Copies(span, _, _) => span,
        Part::UpTo(span, _, _) => span,
        Part::Further(span, _, _) => span,
    }
}

/// The node that is visited, with its parts.
pub(crate) fn parts_of<'a>(prods: &'a Prods, index: &Numbers, part: Part<'a>) -> Shape<'a>
    requires { IsNumbering (prod_names prods.now) index.now }
    ensures { shape_of result ≡ shape prods.now (part_of part.entry) }
{
    match part {
        Part::Whole(expr) => expr_shape(prods, index, only_part(expr)),
        Part::Run(by, items) => halves(run_span(items), by, items),
        Part::Nothing(span) => Shape::Empty(span),
        Part::Starred(span, body) => Shape::Star(span, Part::Whole(body)),
        Part::Copies(span, body, count) => copies_shape(span, body, count),
        Part::UpTo(span, body, count) => upto_shape(span, body, count),
        Part::Further(span, body, count) => Shape::Pair(
            span,
            Pairing::Sequence,
            Part::Whole(body),
            Part::UpTo(span, body, count),
        ),
    }
}

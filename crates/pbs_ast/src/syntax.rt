// Specifications as they are written: docs/LANGUAGE.md.
use pbs_base::{Listed, Span, Word};

/// A term over declared inputs. What the reader gives has at least two members in each list.
#[cycle(spec_term)]
#[derive(Drop)]
pub enum SpecTerm {
    Const(bool),
    /// A declared input, with the span of its name.
    Name(Word, Span),
    Not(Box<SpecTerm>),
    All(TermItems),
    Any(TermItems),
    /// A bus that equals a number, with the spans of the name and of the number.
    Equal(Word, Span, u32, Span),
}

/// The members of `&` or `|` in a term, in order.
pub type TermItems = Listed<SpecTerm>;

/// An expression, with its span.
#[cycle(expr)]
#[derive(Drop)]
pub struct Expr {
    pub span: Span,
    pub kind: Kind,
}

/// The forms of an expression. What the reader gives has at least two members in each list.
#[cycle(expr)]
#[derive(Drop)]
pub enum Kind {
    Empty,
    Terminal(SpecTerm),
    /// An action, with the span of its name.
    Action(Word, Span),
    Seq(Items),
    Choice(Items),
    Star(Box<Expr>),
    Plus(Box<Expr>),
    Opt(Box<Expr>),
    Hold(SpecTerm, Box<Expr>),
    /// The body, the trap and the after part.
    Scope(Box<Expr>, Box<Expr>, Box<Expr>),
    /// The use of a production.
    Name(Word),
    /// At least so many copies, and at most so many.
    Repeat(Box<Expr>, u32, u32),
}

/// The items of a sequence or a choice, in order.
pub type Items = Listed<Expr>;

/// A declared input or action, with the span of its name. `width` is 0 for what isn't a bus.
#[derive(Drop)]
pub struct Decl {
    pub name: Word,
    pub span: Span,
    pub width: u8,
}

pub type Decls = Listed<Decl>;

/// What a level becomes in a row in which the action fires. The span is that of the action's name.
#[derive(Drop)]
pub struct Set {
    pub action: Word,
    pub span: Span,
    pub value: bool,
}

pub type Sets = Listed<Set>;

/// A declared level, with the span of its name and its value before the first row.
#[derive(Drop)]
pub struct Level {
    pub name: Word,
    pub span: Span,
    pub start: bool,
    pub sets: Sets,
}

pub type Levels = Listed<Level>;

/// A production, with the span of its name.
#[derive(Drop)]
pub struct Prod {
    pub name: Word,
    pub span: Span,
    pub body: Expr,
}

pub type Prods = Listed<Prod>;

/// A specification of version 1 or 2 of the language, each list in declared order.
#[derive(Drop)]
pub struct Spec {
    pub version: u8,
    pub inputs: Decls,
    pub actions: Decls,
    pub levels: Levels,
    pub prods: Prods,
    pub main: Expr,
}

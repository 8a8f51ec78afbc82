// Names that are used, comparisons and repetitions.
ghost use Rattle.std.specs.Prelude.{◌≡◌, ◌^◌, nat_le};
ghost use Rattle.std.specs.Option.{is_some};
ghost use Rattle.pbs_names.specs.Numbers.{number_in};
ghost use Rattle.pbs_check.specs.Least.{least_by};
ghost use Rattle.pbs_check.specs.Using.{leaves};
ghost use Rattle.pbs_check.specs.inner.Walking.{kind_numbers, name_broken, bus_width, too_large, equal_broken};
ghost use Rattle.pbs_check.specs.inner.Walking.{leaf_broken, all_leaves, copies_broken, star_broken, scope_broken};
ghost use Rattle.pbs_check.specs.inner.Walking.{own_broken, inside, inside_all, below};

use crate::facts::{Known, expr_facts};
use crate::least::least_of;
use pbs_ast::{Decls, Expr, Items, Kind, SpecTerm, TermItems};
use pbs_base::{Span, Word};
use pbs_names::Numbers;

/// What a use wants its name to be.
#[derive(Clone, Copy)]
pub enum Wanted {
    Input,
    Bus,
    Action,
    Production,
}

/// What a walk looks at: rules 6, 7, 18, 19, 9 and 10.
#[derive(Clone, Copy)]
pub enum Look {
    Declared,
    Kinds,
    Numbers,
    Copies,
    Stars,
    Scopes,
}

/// The declared names, all and by kind, and what is known of productions.
#[derive(Drop)]
pub struct Tables {
    pub declared: Numbers,
    pub inputs: Numbers,
    pub buses: Numbers,
    pub actions: Numbers,
    pub prods: Numbers,
    pub known: Known,
}

fn has(numbers: &Numbers, name: &Word) -> bool
    ensures { result ≡ is_some (number_in numbers.now name.now) }
{
    numbers.find(name).is_some()
}

fn kind_numbers<'a>(tables: &'a Tables, wanted: Wanted) -> &'a Numbers
    ensures { result.now ≡ kind_numbers tables.now wanted }
{
    match wanted {
        Wanted::Input => &tables.inputs,
        Wanted::Bus => &tables.buses,
        Wanted::Action => &tables.actions,
        Wanted::Production => &tables.prods,
    }
}

pub(crate) fn name_broken(
    look: Look,
    tables: &Tables,
    wanted: Wanted,
    name: &Word,
    span: Span,
) -> Option<Span>
    ensures { result ≡ name_broken look tables.now wanted name.now span }
{
    match look {
        Look::Declared => {
            if has(&tables.declared, name) {
                None
            } else {
                Some(span)
            }
        }
        Look::Kinds => {
            if has(&tables.declared, name) && !has(kind_numbers(tables, wanted), name) {
                Some(span)
            } else {
                None
            }
        }
        _ => None,
    }
}

/// Whether the number needs more bits.
#[tactic(auto, using(crate::proofs::WalkLemmas::beyond_wide, crate::proofs::WalkLemmas::power_fits))]
fn is_beyond(width: u8, number: u32) -> bool
    ensures { result ≡ nat_le (2 ^ width) number }
{
    if width < 32 {
        1u64 << width <= u64::from(number)
    } else {
        false
    }
}

/// The width of the first bus of that name.
fn bus_width(inputs: &Decls, name: &Word) -> Option<u8>
    ensures { result ≡ bus_width inputs.now name.now }
{
    for decl in inputs.as_slice() {
        if decl.width != 0 && decl.name == *name {
            return Some(decl.width);
        }
    }
    None
}

fn too_large(inputs: &Decls, name: &Word, number: u32, at: Span) -> Option<Span>
    ensures { result ≡ too_large (bus_width inputs.now name.now) number at }
{
    match bus_width(inputs, name) {
        Some(width) => {
            if is_beyond(width, number) {
                Some(at)
            } else {
                None
            }
        }
        None => None,
    }
}

fn equal_broken(
    look: Look,
    tables: &Tables,
    inputs: &Decls,
    name: &Word,
    span: Span,
    number: u32,
    at: Span,
) -> Option<Span>
    ensures { result ≡ equal_broken look tables.now inputs.now name.now span number at }
{
    match look {
        Look::Numbers => too_large(inputs, name, number, at),
        _ => name_broken(look, tables, Wanted::Bus, name, span),
    }
}

#[cycle(term)]
fn items_broken(look: Look, tables: &Tables, inputs: &Decls, items: &TermItems) -> Option<Span>
    ensures { result ≡ least_by (leaf_broken look tables.now inputs.now) (all_leaves items.now) }
{
    let mut found = None;
    for item in items.as_slice() {
        found = least_of(found, term_broken(look, tables, inputs, item));
    }
    found
}

/// The least place in a term that breaks the rule.
#[cycle(term)]
fn term_broken(look: Look, tables: &Tables, inputs: &Decls, term: &SpecTerm) -> Option<Span>
    ensures { result ≡ least_by (leaf_broken look tables.now inputs.now) (leaves term.now) }
{
    match term {
        SpecTerm::Const(_) => None,
        SpecTerm::Name(name, span) => name_broken(look, tables, Wanted::Input, name, *span),
        SpecTerm::Not(inner) => term_broken(look, tables, inputs, inner),
        SpecTerm::All(items) => items_broken(look, tables, inputs, items),
        SpecTerm::Any(items) => items_broken(look, tables, inputs, items),
        SpecTerm::Equal(name, span, number, at) => {
            equal_broken(look, tables, inputs, name, *span, *number, *at)
        }
    }
}

fn copies_broken(look: Look, span: Span, least: u32, most: u32) -> Option<Span>
    ensures { result ≡ copies_broken look span least most }
{
    match look {
        Look::Copies => {
            if most < least || most == 0 || 4096 < most {
                Some(span)
            } else {
                None
            }
        }
        _ => None,
    }
}

/// The body of a star or plus, where it may be empty.
fn star_broken(look: Look, tables: &Tables, body: &Expr) -> Option<Span>
    ensures { result ≡ star_broken look tables.now body.now }
{
    match look {
        Look::Stars => match expr_facts(&tables.known, body) {
            Some(facts) => {
                if facts.may_be_empty {
                    Some(body.span)
                } else {
                    None
                }
            }
            None => None,
        },
        _ => None,
    }
}

/// The scope, where its body has no terminal, or its trap may be empty or has an action or a scope.
fn scope_broken(look: Look, tables: &Tables, span: Span, body: &Expr, trap: &Expr) -> Option<Span>
    ensures { result ≡ scope_broken look tables.now span body.now trap.now }
{
    match look {
        Look::Scopes => match expr_facts(&tables.known, body) {
            Some(first) => match expr_facts(&tables.known, trap) {
                Some(second) => {
                    if !first.has_terminal || (second.may_be_empty || second.is_busy) {
                        Some(span)
                    } else {
                        None
                    }
                }
                None => None,
            },
            None => None,
        },
        _ => None,
    }
}

/// The least place in an expression that breaks the rule, its parts aside.
fn own_broken(look: Look, tables: &Tables, inputs: &Decls, expr: &Expr) -> Option<Span>
    ensures { result ≡ own_broken look tables.now inputs.now expr.now }
{
    match &expr.kind {
        Kind::Terminal(term) => term_broken(look, tables, inputs, term),
        Kind::Hold(term, _) => term_broken(look, tables, inputs, term),
        Kind::Action(name, at) => name_broken(look, tables, Wanted::Action, name, *at),
        Kind::Name(name) => name_broken(look, tables, Wanted::Production, name, expr.span),
        Kind::Repeat(_, least, most) => copies_broken(look, expr.span, *least, *most),
        Kind::Star(body) => star_broken(look, tables, body),
        Kind::Plus(body) => star_broken(look, tables, body),
        Kind::Scope(body, trap, _) => scope_broken(look, tables, expr.span, body, trap),
        _ => None,
    }
}

#[cycle(expr)]
fn all_broken(look: Look, tables: &Tables, inputs: &Decls, items: &Items) -> Option<Span>
    ensures { result ≡ least_by (own_broken look tables.now inputs.now) (inside_all items.now) }
{
    let mut found = None;
    for item in items.as_slice() {
        found = least_of(found, expr_broken(look, tables, inputs, item));
    }
    found
}

/// The least place in the parts of an expression that breaks the rule.
#[cycle(expr)]
fn parts_broken(look: Look, tables: &Tables, inputs: &Decls, expr: &Expr) -> Option<Span>
    ensures { result ≡ least_by (own_broken look tables.now inputs.now) (below expr.now) }
{
    match &expr.kind {
        Kind::Seq(items) => all_broken(look, tables, inputs, items),
        Kind::Choice(items) => all_broken(look, tables, inputs, items),
        Kind::Star(body) => expr_broken(look, tables, inputs, body),
        Kind::Plus(body) => expr_broken(look, tables, inputs, body),
        Kind::Opt(body) => expr_broken(look, tables, inputs, body),
        Kind::Hold(_, body) => expr_broken(look, tables, inputs, body),
        Kind::Repeat(body, _, _) => expr_broken(look, tables, inputs, body),
        Kind::Scope(body, trap, after) => {
            let last = least_of(
                expr_broken(look, tables, inputs, trap),
                expr_broken(look, tables, inputs, after),
            );
            least_of(expr_broken(look, tables, inputs, body), last)
        }
        _ => None,
    }
}

/// The least place in an expression that breaks the rule.
#[cycle(expr)]
pub(crate) fn expr_broken(look: Look, tables: &Tables, inputs: &Decls, expr: &Expr) -> Option<Span>
    ensures { result ≡ least_by (own_broken look tables.now inputs.now) (inside expr.now) }
{
    least_of(
        own_broken(look, tables, inputs, expr),
        parts_broken(look, tables, inputs, expr),
    )
}

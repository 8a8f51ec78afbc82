// The walk over the parts.

ghost use Rattle.pbs_expand.specs.Parts.{part_of};
ghost use Rattle.pbs_expand.specs.inner.Outcomes.{IsWithin, IsOutcome, outcome};
ghost use Rattle.pbs_names.specs.Naming.{action_names, index_of};
ghost use Rattle.pbs_expand.specs.inner.Numbers.{Serves};
ghost use Rattle.pbs_expand.specs.Walks.{walk, action_walk};
ghost use Rattle.pbs_expand.specs.Walks as walks;
ghost use Rattle.pbs_expand.specs.Written.{written};

use crate::build::{Counters, Grown, Stop, enter, hold, leaf, pair, scope, star};
use crate::parts::{Pairing, Part, Shape, part_span, parts_of};
use crate::terms::write_term;
use pbs_ast::{Spec, SpecTerm, TreeKind};
use pbs_base::{Span, Word};
use pbs_names::Index;
use std::alloc::Global;

const NAME: Counters = Counters {
    counts: 1,
    nodes: 0,
    places: 0,
    scopes: 0,
};

const NODE: Counters = Counters {
    counts: 1,
    nodes: 1,
    places: 0,
    scopes: 0,
};

const SCOPE: Counters = Counters {
    counts: 1,
    nodes: 1,
    places: 0,
    scopes: 1,
};

fn grow_terminal(
    alloc: Global,
    spec: &Spec,
    index: &Index,
    span: Span,
    term: &SpecTerm,
    before: Counters,
) -> Result<Grown, Stop>
    requires index { Serves spec.now index.now }
    requires within { IsWithin before }
    ensures { IsOutcome (outcome (walks.Terminal span (written spec.now.inputs term.now)) before) result }
{
    let left = 32768 - before.counts;
    match write_term(alloc, &spec.inputs, &index.inputs, term, left) {
        Ok(Some(written)) => {
            let cost = Counters {
                counts: 1 + written.nodes,
                nodes: 1,
                places: 1,
                scopes: 0,
            };
            leaf(
                span,
                TreeKind::Terminal(before.places, written.term),
                cost,
                before,
            )
        }
        Ok(None) => Err(Stop::Over(span)),
        Err(memory) => Err(Stop::from(memory)),
    }
}

fn grow_action(
    spec: &Spec,
    index: &Index,
    span: Span,
    name: &Word,
    before: Counters,
) -> Result<Grown, Stop>
    requires index { Serves spec.now index.now }
    requires within { IsWithin before }
    ensures { IsOutcome (outcome (action_walk span (index_of (action_names spec.now.actions) name.now)) before) result }
{
    match index.actions.find(name) {
        Some(number) => leaf(span, TreeKind::Action(number as u8), NODE, before),
        None => leaf(span, TreeKind::Empty, NODE, before),
    }
}

#[cycle(grow)]
fn grow_name(
    alloc: Global,
    spec: &Spec,
    index: &Index,
    span: Span,
    body: Part,
    room: u32,
    before: Counters,
) -> Result<Grown, Stop>
    requires index { Serves spec.now index.now }
    requires within { IsWithin before }
    ensures { IsOutcome (outcome (walks.Name span (walk spec.now room (part_of body.entry))) before) result }
{
    match enter(span, NAME, before) {
        Ok(inside) => grow(alloc, spec, index, body, room, inside),
        Err(stop) => Err(stop),
    }
}

#[cycle(grow)]
fn grow_star(
    alloc: Global,
    spec: &Spec,
    index: &Index,
    span: Span,
    body: Part,
    room: u32,
    before: Counters,
) -> Result<Grown, Stop>
    requires index { Serves spec.now index.now }
    requires within { IsWithin before }
    ensures { IsOutcome (outcome (walks.Star span (walk spec.now room (part_of body.entry))) before) result }
{
    match enter(span, NODE, before) {
        Ok(inside) => star(
            alloc,
            span,
            before.nodes,
            grow(alloc, spec, index, body, room, inside),
        ),
        Err(stop) => Err(stop),
    }
}

#[cycle(grow)]
fn grow_hold(
    alloc: Global,
    spec: &Spec,
    index: &Index,
    span: Span,
    term: &SpecTerm,
    body: Part,
    room: u32,
    before: Counters,
) -> Result<Grown, Stop>
    requires index { Serves spec.now index.now }
    requires within { IsWithin before }
    ensures { let inner = walk spec.now room (part_of body.entry) in
        IsOutcome (outcome (walks.Hold span (written spec.now.inputs term.now) inner) before) result }
{
    let left = 32768 - before.counts;
    match write_term(alloc, &spec.inputs, &index.inputs, term, left) {
        Ok(Some(written)) => {
            let cost = Counters {
                counts: 1 + written.nodes,
                nodes: 1,
                places: 0,
                scopes: 0,
            };
            match enter(span, cost, before) {
                Ok(inside) => hold(
                    alloc,
                    span,
                    before.nodes,
                    written.term,
                    grow(alloc, spec, index, body, room, inside),
                ),
                Err(stop) => Err(stop),
            }
        }
        Ok(None) => Err(Stop::Over(span)),
        Err(memory) => Err(Stop::from(memory)),
    }
}

#[cycle(grow)]
fn grow_pair(
    alloc: Global,
    spec: &Spec,
    index: &Index,
    span: Span,
    by: Pairing,
    first: Part,
    second: Part,
    room: u32,
    before: Counters,
) -> Result<Grown, Stop>
    requires index { Serves spec.now index.now }
    requires within { IsWithin before }
    ensures { let left = walk spec.now room (part_of first.entry) in
        let right = walk spec.now room (part_of second.entry) in
        IsOutcome (outcome (walks.Pair span by left right) before) result }
{
    match enter(span, NODE, before) {
        Ok(inside) => match grow(alloc, spec, index, first, room, inside) {
            Ok(left) => {
                let right = grow(alloc, spec, index, second, room, left.after);
                pair(alloc, span, before.nodes, by, left.tree, right)
            }
            Err(stop) => Err(stop),
        },
        Err(stop) => Err(stop),
    }
}

#[cycle(grow)]
fn grow_scope(
    alloc: Global,
    spec: &Spec,
    index: &Index,
    span: Span,
    body: Part,
    trap: Part,
    after: Part,
    room: u32,
    before: Counters,
) -> Result<Grown, Stop>
    requires index { Serves spec.now index.now }
    requires within { IsWithin before }
    ensures { let inner = walk spec.now room (part_of body.entry) in
        let aside = walk spec.now room (part_of trap.entry) in
        let last = walk spec.now room (part_of after.entry) in
        IsOutcome (outcome (walks.Scope span inner aside last) before) result }
{
    match enter(span, SCOPE, before) {
        Ok(inside) => match grow(alloc, spec, index, body, room, inside) {
            Ok(main) => match grow(alloc, spec, index, trap, room, main.after) {
                Ok(aside) => {
                    let last = grow(alloc, spec, index, after, room, aside.after);
                    scope(alloc, span, before, main.tree, aside.tree, last)
                }
                Err(stop) => Err(stop),
            },
            Err(stop) => Err(stop),
        },
        Err(stop) => Err(stop),
    }
}

/// The tree of the part, unless a limit is passed.
#[cycle(grow)]
pub(crate) fn grow(
    alloc: Global,
    spec: &Spec,
    index: &Index,
    part: Part,
    room: u32,
    before: Counters,
) -> Result<Grown, Stop>
    requires index { Serves spec.now index.now }
    requires within { IsWithin before }
    ensures { IsOutcome (outcome (walk spec.now room (part_of part.entry)) before) result }
{
    if room == 0 {
        return Err(Stop::Over(part_span(part)));
    }
    let below = room - 1;
    match parts_of(&spec.prods, &index.prods, part) {
        Shape::Empty(span) => leaf(span, TreeKind::Empty, NODE, before),
        Shape::Terminal(span, term) => grow_terminal(alloc, spec, index, span, term, before),
        Shape::Action(span, name) => grow_action(spec, index, span, name, before),
        Shape::Name(span, body) => grow_name(alloc, spec, index, span, body, below, before),
        Shape::Star(span, body) => grow_star(alloc, spec, index, span, body, below, before),
        Shape::Hold(span, term, body) => grow_hold(
            alloc, spec, index, span, term, body, below, before,
        ),
        Shape::Pair(span, by, first, second) => {
            grow_pair(alloc, spec, index, span, by, first, second, below, before)
        }
        Shape::Scope(span, body, trap, after) => {
            grow_scope(alloc, spec, index, span, body, trap, after, below, before)
        }
    }
}

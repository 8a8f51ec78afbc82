// Items read from the start of a run: the positions at which they begin, and which of them a node can take.
ghost use Rattle.std.specs.Prelude.{◌≡◌, ◌≤◌, ◌<◌, ◌+◌, ◌^◌, ℕ, true, not, IfOk, IsTrue, length, slice_get, Some};
ghost use Rattle.bool_terms.specs.Terms.{term_inputs_below, term_of};
ghost use Rattle.pbs_ast.specs.Trees.{tree_of};
ghost use Rattle.pbs_derive.specs.Derivations.{all_hold, some_after, trips};
ghost use Rattle.pbs_covers.specs.Grids.{entry};
ghost use Rattle.pbs_explain.specs.inner.Charts.{AreCharted};
ghost use Rattle.pbs_explain.specs.inner.Checked.{Follows, aborts, cuts_at, is_cut, is_take, leads, next, reached, takes_at};

use crate::derivation::Item;
use crate::known::{Known, abort_of};
use bool_terms::Term;
use pbs_ast::Tree;
use pbs_base::{Listed, Memory};
use pbs_covers::grid::{entry, throughout};
use pbs_covers::truths;
use std::alloc::Global;

/// Items that are read against a run, with the positions at which they begin and the end, and the number of the node
/// at which they are to end.
#[derive(Drop)]
pub struct Reading<'a> {
    pub known: Known<'a>,
    pub items: &'a Listed<Item>,
    pub positions: Listed<usize>,
    pub node: u32,
}

/// The position after an item that begins at `i`.
fn next_position(i: usize, item: &Item) -> usize
    requires { i < 2 ^ 62 }
    ensures { result ≡ next i item.now }
{
    match item {
        Item::Take(_) => i + 1,
        Item::Cut(_, m) => *m as usize,
    }
}

/// Whether the items lead from the start to `n`, and each of them moves on.
pub(crate) fn leads_to(items: &Listed<Item>, n: usize) -> bool
    requires { n ≤ 128 }
    ensures { result ≡ leads 0 items.now n }
{
    let mut from = 0;
    for c in 0..items.len() {
        let to = next_position(from, &items.as_slice()[c]);
        if to <= from || n < to {
            return false;
        }
        from = to;
    }
    from == n
}

/// The positions at which the items begin, and the end.
pub(crate) fn positions_of(
    alloc: Global,
    items: &Listed<Item>,
    n: usize,
) -> Result<Listed<usize>, Memory>
    requires few { n ≤ 128 }
    requires leads { leads 0 items.now n ≡ true }
    ensures filled { IfOk result (λ positions. length positions ≡ length items.now + 1) }
    ensures exact { IfOk result (λ positions. (c : ℕ) → c ≤ length items.now
        → slice_get positions c ≡ Some (reached 0 items.now c)) }
{
    let mut positions = Listed::new(alloc);
    let mut from = 0;
    positions.push(from)?;
    for c in 0..items.len() {
        from = next_position(from, &items.as_slice()[c]);
        positions.push(from)?;
    }
    Ok(positions)
}

/// The position at which item `c` begins.
pub(crate) fn position(reading: &Reading<'_>, c: usize) -> usize
    requires follows { Follows reading.now.known.run.now reading.now.items.now reading.now.positions }
    requires inside { c ≤ length reading.now.items.now }
    ensures { result ≡ reached 0 reading.now.items.now c }
{
    reading.positions.as_slice()[c]
}

fn is_take(item: &Item, place: u32) -> bool
    ensures { result ≡ is_take place (Some item.now) }
{
    match item {
        Item::Take(own) => *own == place,
        Item::Cut(_, _) => false,
    }
}

fn is_cut(item: &Item, scope: u32) -> bool
    ensures { result ≡ is_cut scope (Some item.now) }
{
    match item {
        Item::Take(_) => false,
        Item::Cut(own, _) => *own == scope,
    }
}

/// Whether nothing is an abort position from `i` up to `j`.
pub(crate) fn is_clear(known: &Known<'_>, body: &Tree, trap: &Tree, i: usize, j: usize) -> bool
    requires few { length known.now.run.now ≤ 128 }
    requires body { AreCharted known.now.run.now known.now.action known.now.top known.now.charts (tree_of body.now) }
    requires trap { AreCharted known.now.run.now known.now.action known.now.top known.now.charts (tree_of trap.now) }
    requires start { i ≤ j }
    requires end { j ≤ length known.now.run.now }
    ensures { result ≡ not (some_after i j (trips (tree_of body.now) (tree_of trap.now) known.now.run.now i)) }
{
    match abort_of(known, body, trap, i, j) {
        Some(_) => false,
        None => true,
    }
}

/// Whether `m` is the abort position of the instance that begins at `i`.
fn aborts_at(known: &Known<'_>, body: &Tree, trap: &Tree, i: usize, m: usize) -> bool
    requires few { length known.now.run.now ≤ 128 }
    requires body { AreCharted known.now.run.now known.now.action known.now.top known.now.charts (tree_of body.now) }
    requires trap { AreCharted known.now.run.now known.now.action known.now.top known.now.charts (tree_of trap.now) }
    requires start { i ≤ m }
    requires end { m ≤ length known.now.run.now }
    ensures { result ≡ aborts (tree_of body.now) (tree_of trap.now) known.now.run.now i m }
{
    match abort_of(known, body, trap, i, m) {
        Some(first) => first == m,
        None => false,
    }
}

/// For each item whether it is the place's, with the term true in its vector.
pub(crate) fn takes(
    alloc: Global,
    reading: &Reading<'_>,
    place: u32,
    term: &Term,
) -> Result<Listed<bool>, Memory>
    requires inputs { IsTrue (term_inputs_below 64 (term_of term.now)) }
    requires follows { Follows reading.now.known.run.now reading.now.items.now reading.now.positions }
    ensures { IfOk result (λ list. (c : ℕ) → c < length reading.now.items.now
        → entry list c ≡ takes_at place (term_of term.now) reading.now.known.run.now reading.now.items.now c) }
{
    let truths = truths(alloc, term, reading.known.run)?;
    let mut list = Listed::new(alloc);
    for c in 0..reading.items.len() {
        let here = is_take(&reading.items.as_slice()[c], place)
            && entry(&truths, position(reading, c));
        list.push(here)?;
    }
    Ok(list)
}

/// For each item whether the term holds from its position up to that of the next item.
pub(crate) fn holds_throughout(
    alloc: Global,
    reading: &Reading<'_>,
    term: &Term,
) -> Result<Listed<bool>, Memory>
    requires inputs { IsTrue (term_inputs_below 64 (term_of term.now)) }
    requires follows { Follows reading.now.known.run.now reading.now.items.now reading.now.positions }
    ensures { IfOk result (λ list. (c : ℕ) → c < length reading.now.items.now
        → entry list c ≡ all_hold (term_of term.now) reading.now.known.run.now (reached 0 reading.now.items.now c)
        (reached 0 reading.now.items.now (c + 1))) }
{
    let truths = truths(alloc, term, reading.known.run)?;
    let mut list = Listed::new(alloc);
    for c in 0..reading.items.len() {
        let here = throughout(&truths, position(reading, c), position(reading, c + 1));
        list.push(here)?;
    }
    Ok(list)
}

/// For each item whether it cuts the scope at its abort position.
pub(crate) fn cuts(
    alloc: Global,
    reading: &Reading<'_>,
    scope: u32,
    body: &Tree,
    trap: &Tree,
) -> Result<Listed<bool>, Memory>
    requires follows { Follows reading.now.known.run.now reading.now.items.now reading.now.positions }
    requires body { AreCharted reading.now.known.run.now reading.now.known.action reading.now.known.top
        reading.now.known.charts (tree_of body.now) }
    requires trap { AreCharted reading.now.known.run.now reading.now.known.action reading.now.known.top
        reading.now.known.charts (tree_of trap.now) }
    ensures { IfOk result (λ list. (c : ℕ) → c < length reading.now.items.now
        → entry list c ≡ cuts_at scope (tree_of body.now) (tree_of trap.now) reading.now.known.run.now
        reading.now.items.now c) }
{
    let mut list = Listed::new(alloc);
    for c in 0..reading.items.len() {
        let here = is_cut(&reading.items.as_slice()[c], scope)
            && aborts_at(
                &reading.known,
                body,
                trap,
                position(reading, c),
                position(reading, c + 1),
            );
        list.push(here)?;
    }
    Ok(list)
}

// The lines of an explanation.
ghost use Rattle.std.specs.Prelude.{◌≡◌, ◌++◌, ◌+◌, ◌<◌, ◌≤◌, ◌^◌, ℕ, OnErr, OnOk};
ghost use Rattle.pbs_ast.specs.Trees.{tree_of};
ghost use Rattle.pbs_explain_text.specs.Explanations.{cut_line, explanation_text, front_line, item_end, item_line, item_lines};
ghost use Rattle.pbs_explain_text.specs.Explanations.{silence_text, span_text, take_line, two_numbers};

use crate::spans::{push_node_spans, push_place_spans, push_scope_spans, span_at};
use pbs_ast::Tree;
use pbs_base::{Listed, Memory, Span};
use pbs_explain::{Derivation, Item};
use std::alloc::Global;
use text_pieces::{put, put_number};

fn put_span(text: &mut Vec<u8>, span: Span) -> Result<(), Memory>
    ensures { OnOk result (text.new.items ≡ text.old.items ++ span_text span) }
{
    put_number(text, span.start.into())?;
    put(text, b"..")?;
    put_number(text, span.end.into())
}

fn put_two(text: &mut Vec<u8>, first: u64, second: u32) -> Result<(), Memory>
    ensures { OnOk result (text.new.items ≡ text.old.items ++ two_numbers first second) }
{
    put_number(text, first)?;
    put(text, b" ")?;
    put_number(text, second.into())
}

fn put_take(text: &mut Vec<u8>, places: &Listed<Span>, from: u64, place: u32) -> Result<(), Memory>
    ensures { OnOk result (text.new.items ≡ text.old.items ++ take_line places.now from place) }
{
    put(text, b"take ")?;
    put_two(text, from, place)?;
    put(text, b" ")?;
    put_span(text, span_at(places, place))?;
    put(text, b"\n")
}

fn put_cut(
    text: &mut Vec<u8>,
    scopes: &Listed<Span>,
    from: u64,
    scope: u32,
    to: u32,
) -> Result<(), Memory>
    ensures { OnOk result (text.new.items ≡ text.old.items ++ cut_line scopes.now from to scope) }
{
    put(text, b"cut ")?;
    put_two(text, from, to)?;
    put(text, b" ")?;
    put_number(text, scope.into())?;
    put(text, b" ")?;
    put_span(text, span_at(scopes, scope))?;
    put(text, b"\n")
}

fn put_item(
    text: &mut Vec<u8>,
    places: &Listed<Span>,
    scopes: &Listed<Span>,
    from: u64,
    item: &Item,
) -> Result<(), Memory>
    ensures { OnOk result (text.new.items ≡ text.old.items ++ item_line places.now scopes.now from item.now) }
{
    match item {
        Item::Take(place) => put_take(text, places, from, *place),
        Item::Cut(scope, to) => put_cut(text, scopes, from, *scope, *to),
    }
}

/// The position at which an item ends that begins at `from`.
fn item_end(from: u64, item: &Item) -> u64
    requires { from < 2 ^ 63 + 2 ^ 32 }
    ensures end { result ≡ item_end from item.now }
    ensures room { (n : ℕ) → from ≤ n + 2 ^ 32 → result ≤ n + 1 + 2 ^ 32 }
{
    match item {
        Item::Take(_) => from + 1,
        Item::Cut(_, to) => (*to).into(),
    }
}

fn put_items(
    text: &mut Vec<u8>,
    places: &Listed<Span>,
    scopes: &Listed<Span>,
    items: &[Item],
) -> Result<(), Memory>
    ensures { OnOk result (text.new.items ≡ text.old.items ++ item_lines places.now scopes.now 0 items.now) }
{
    let mut from = 0;
    for item in items {
        put_item(text, places, scopes, from, item)?;
        from = item_end(from, item);
    }
    Ok(())
}

fn put_front(text: &mut Vec<u8>, row: u64, name: &[u8], span: Span) -> Result<(), Memory>
    ensures { OnOk result (text.new.items ≡ text.old.items ++ front_line row name.now span) }
{
    put(text, b"fires ")?;
    put_number(text, row)?;
    put(text, b" ")?;
    put(text, name)?;
    put(text, b" at ")?;
    put_span(text, span)?;
    put(text, b"\n")
}

/// Appends why an action fired in a row: the line `fires` with the row, the action's name and the span of its node, a
/// line for each item with the position at which it begins, and `end`. On `Memory` `out` is as it was.
pub fn write_explanation(
    alloc: Global,
    tree: &Tree,
    row: u64,
    name: &[u8],
    d: &Derivation,
    out: &mut Vec<u8>,
) -> Result<(), Memory>
    ensures ok { OnOk result (out.new.items ≡ out.old.items ++ explanation_text (tree_of tree.now) row name.now d.now) }
    ensures err { OnErr result (out.new.items ≡ out.old.items) }
{
    let mut nodes = Listed::new(alloc);
    push_node_spans(tree, &mut nodes)?;
    let mut places = Listed::new(alloc);
    push_place_spans(tree, &mut places)?;
    let mut scopes = Listed::new(alloc);
    push_scope_spans(tree, &mut scopes)?;
    let mut text = Vec::new(alloc);
    put_front(&mut text, row, name, span_at(&nodes, d.node))?;
    put_items(&mut text, &places, &scopes, d.items.as_slice())?;
    put(&mut text, b"end\n")?;
    put(out, &text)
}

/// Appends the line that the action doesn't fire in the row. On `Memory` `out` is as it was.
pub fn write_silence(alloc: Global, row: u64, name: &[u8], out: &mut Vec<u8>) -> Result<(), Memory>
    ensures ok { OnOk result (out.new.items ≡ out.old.items ++ silence_text row name.now) }
    ensures err { OnErr result (out.new.items ≡ out.old.items) }
{
    let mut text = Vec::new(alloc);
    put_number(&mut text, row)?;
    put(&mut text, b" ")?;
    put(&mut text, name)?;
    put(&mut text, b" does not fire\n")?;
    put(out, &text)
}

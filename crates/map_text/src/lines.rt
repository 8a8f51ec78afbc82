// The lines of a map.
ghost use Rattle.std.specs.Prelude.{◌≡◌, ◌++◌, OnErr, OnOk};
ghost use Rattle.pbs_ast.specs.Trees.{tree_of};
ghost use Rattle.map_text.specs.Maps.{code_text, literal_text, literals_text, map_text, place_line, place_lines};

use crate::spans::push_spans;
use net_core::{Code, Literal, StateMap};
use pbs_ast::Tree;
use pbs_base::{Memory, Span};
use std::alloc::Global;
use text_pieces::{put, put_number};

fn put_literal(text: &mut Vec<u8>, literal: &Literal) -> Result<(), Memory>
    ensures { OnOk result (text.new.items ≡ text.old.items ++ literal_text literal.now) }
{
    put(text, if literal.value { b" q" } else { b" ~q" })?;
    put_number(text, literal.reg.into())
}

fn put_literals(text: &mut Vec<u8>, literals: &[Literal]) -> Result<(), Memory>
    ensures { OnOk result (text.new.items ≡ text.old.items ++ literals_text literals.now) }
{
    for literal in literals {
        put_literal(text, literal)?;
    }
    Ok(())
}

fn put_code(text: &mut Vec<u8>, code: &Code) -> Result<(), Memory>
    ensures { OnOk result (text.new.items ≡ text.old.items ++ code_text code.now) }
{
    match code {
        Code::Never => put(text, b" never"),
        Code::Bits(literals) => put_literals(text, literals.as_slice()),
    }
}

fn put_line(text: &mut Vec<u8>, place: usize, span: Span, code: &Code) -> Result<(), Memory>
    ensures { OnOk result (text.new.items ≡ text.old.items ++ place_line place span code.now) }
{
    put_number(text, place as u64)?;
    put(text, b" ")?;
    put_number(text, span.start.into())?;
    put(text, b"..")?;
    put_number(text, span.end.into())?;
    put_code(text, code)?;
    put(text, b"\n")
}

fn put_lines(text: &mut Vec<u8>, spans: &[Span], codes: &[Code]) -> Result<(), Memory>
    ensures { OnOk result (text.new.items ≡ text.old.items ++ place_lines 0 spans.now codes.now) }
{
    for (place, span) in spans.iter().enumerate() {
        let Some(code) = codes.get(place) else {
            break;
        };
        put_line(text, place, *span, code)?;
    }
    Ok(())
}

/// Appends the map of a tree's places by their codes: a line for each place, in order of numbers, with its number, the
/// span of its terminal and its code. On `Memory` `out` is as it was.
pub fn write_map(
    alloc: Global,
    tree: &Tree,
    codes: &StateMap,
    out: &mut Vec<u8>,
) -> Result<(), Memory>
    ensures ok { OnOk result (out.new.items ≡ out.old.items ++ map_text (tree_of tree.now) codes.now) }
    ensures err { OnErr result (out.new.items ≡ out.old.items) }
{
    let mut spans = Vec::new(alloc);
    push_spans(tree, &mut spans)?;
    let mut text = Vec::new(alloc);
    put_lines(&mut text, &spans, codes.as_slice())?;
    put(out, &text)
}

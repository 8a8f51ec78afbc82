// The lines of a specification.
ghost use Rattle.std.specs.Prelude.{◌≡◌, ◌++◌, OnOk, OnErr, map, codes, decimal};
ghost use Rattle.std.specs.List.{concat};
ghost use Rattle.pbs_print.specs.Canonical.{canonical, decl_text, decls_line, expr_text, joined, level_line, prod_line};
ghost use Rattle.pbs_print.specs.Canonical.{set_text, width_text, bit_text};

use crate::exprs::put_expr;
use crate::pieces::{put, put_bit, put_lead, put_number};
use pbs_ast::{Decl, Decls, Level, Levels, Prod, Prods, Set, Sets, Spec};
use pbs_base::Memory;
use std::alloc::Global;

fn put_width(text: &mut Vec<u8>, width: u8) -> Result<(), Memory>
    ensures { OnOk result (text.new.items ≡ text.old.items ++ width_text width) }
{
    if width == 0 {
        return Ok(());
    }
    put(text, b" : ")?;
    put_number(text, u32::from(width))
}

fn put_decl(text: &mut Vec<u8>, decl: &Decl) -> Result<(), Memory>
    ensures { OnOk result (text.new.items ≡ text.old.items ++ decl_text decl.now) }
{
    put(text, decl.name.bytes())?;
    put_width(text, decl.width)
}

fn put_decls(text: &mut Vec<u8>, decls: &Decls) -> Result<(), Memory>
    ensures { OnOk result (text.new.items ≡ text.old.items ++ joined (codes ", ") (map decl_text decls.now)) }
{
    for n in 0..decls.len() {
        let Some(decl) = decls.get(n) else {
            return Err(Memory);
        };
        put_lead(text, n, b", ")?;
        put_decl(text, decl)?;
    }
    Ok(())
}

fn put_decls_line(text: &mut Vec<u8>, word: &[u8], decls: &Decls) -> Result<(), Memory>
    ensures { OnOk result (text.new.items ≡ text.old.items ++ decls_line word.now decls.now) }
{
    if decls.len() == 0 {
        return Ok(());
    }
    put(text, word)?;
    put_decls(text, decls)?;
    put(text, b";\n")
}

fn put_set(text: &mut Vec<u8>, set: &Set) -> Result<(), Memory>
    ensures { OnOk result (text.new.items ≡ text.old.items ++ set_text set.now) }
{
    put(text, b" ")?;
    put(text, set.action.bytes())?;
    put(text, b": ")?;
    put_bit(text, set.value)?;
    put(text, b";")
}

fn put_sets(text: &mut Vec<u8>, sets: &Sets) -> Result<(), Memory>
    ensures { OnOk result (text.new.items ≡ text.old.items ++ concat (map set_text sets.now)) }
{
    for n in 0..sets.len() {
        let Some(set) = sets.get(n) else {
            return Err(Memory);
        };
        put_set(text, set)?;
    }
    Ok(())
}

fn put_level_front(text: &mut Vec<u8>, level: &Level) -> Result<(), Memory>
    ensures { OnOk result (text.new.items ≡ text.old.items
        ++ (codes "level " ++ (level.now.name ++ (codes " = " ++ (bit_text level.now.start ++ codes " {"))))) }
{
    put(text, b"level ")?;
    put(text, level.name.bytes())?;
    put(text, b" = ")?;
    put_bit(text, level.start)?;
    put(text, b" {")
}

fn put_level(text: &mut Vec<u8>, level: &Level) -> Result<(), Memory>
    ensures { OnOk result (text.new.items ≡ text.old.items ++ level_line level.now) }
{
    put_level_front(text, level)?;
    put_sets(text, &level.sets)?;
    put(text, b" }\n")
}

fn put_levels(text: &mut Vec<u8>, levels: &Levels) -> Result<(), Memory>
    ensures { OnOk result (text.new.items ≡ text.old.items ++ concat (map level_line levels.now)) }
{
    for n in 0..levels.len() {
        let Some(level) = levels.get(n) else {
            return Err(Memory);
        };
        put_level(text, level)?;
    }
    Ok(())
}

fn put_prod(text: &mut Vec<u8>, prod: &Prod) -> Result<(), Memory>
    ensures { OnOk result (text.new.items ≡ text.old.items ++ prod_line prod.now) }
{
    put(text, b"prod ")?;
    put(text, prod.name.bytes())?;
    put(text, b" = ")?;
    put_expr(text, &prod.body)?;
    put(text, b";\n")
}

fn put_prods(text: &mut Vec<u8>, prods: &Prods) -> Result<(), Memory>
    ensures { OnOk result (text.new.items ≡ text.old.items ++ concat (map prod_line prods.now)) }
{
    for n in 0..prods.len() {
        let Some(prod) = prods.get(n) else {
            return Err(Memory);
        };
        put_prod(text, prod)?;
    }
    Ok(())
}

fn put_front(text: &mut Vec<u8>, spec: &Spec) -> Result<(), Memory>
    ensures { OnOk result (text.new.items ≡ text.old.items ++
        (codes "spec " ++ (decimal spec.now.version ++ (codes ";\n"
        ++ (decls_line (codes "input ") spec.now.inputs ++ decls_line (codes "action ") spec.now.actions))))) }
{
    put(text, b"spec ")?;
    put_number(text, u32::from(spec.version))?;
    put(text, b";\n")?;
    put_decls_line(text, b"input ", &spec.inputs)?;
    put_decls_line(text, b"action ", &spec.actions)
}

fn put_main(text: &mut Vec<u8>, spec: &Spec) -> Result<(), Memory>
    ensures { OnOk result (text.new.items ≡ text.old.items ++
        (codes "main = " ++ (expr_text spec.now.main ++ codes ";\n"))) }
{
    put(text, b"main = ")?;
    put_expr(text, &spec.main)?;
    put(text, b";\n")
}

fn put_spec(text: &mut Vec<u8>, spec: &Spec) -> Result<(), Memory>
    ensures { OnOk result (text.new.items ≡ text.old.items ++ canonical spec.now) }
{
    put_front(text, spec)?;
    put_levels(text, &spec.levels)?;
    put_prods(text, &spec.prods)?;
    put_main(text, spec)
}

/// Appends the canonical text of the specification. `Memory` leaves `out` as it was.
pub fn print_spec(alloc: Global, spec: &Spec, out: &mut Vec<u8>) -> Result<(), Memory>
    ensures ok { OnOk result (out.new.items ≡ out.old.items ++ canonical spec.now) }
    ensures err { OnErr result (out.new.items ≡ out.old.items) }
{
    let mut text = Vec::new(alloc);
    put_spec(&mut text, spec)?;
    match out.extend_from_slice(text.as_slice()) {
        Ok(()) => Ok(()),
        Err(_) => Err(Memory),
    }
}

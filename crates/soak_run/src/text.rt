// The specification for a number.
ghost use Rattle.std.specs.Prelude.{◌≡◌, ◌++◌, OnOk, codes, decimal};
ghost use Rattle.soak_run.specs.Soaks.{body_text, names_text, prod_text, prods_text, spec_text};

use pbs_base::Memory;
use text_pieces::{put, put_number};

const FRONT: &[u8] =
    b"spec 1; input a, b, c; action hit, pass, lost; level busy = 0 { hit: 1; pass: 0; } ";

const END: &[u8] = b"{pass}) abort ([~c]*, [c]) then ({lost}))*;";

fn put_body(text: &mut Vec<u8>, i: u32) -> Result<(), Memory>
    ensures { OnOk result (text.new.items ≡ text.old.items ++ body_text i) }
{
    if i % 2 == 0 {
        put(text, b" = [~a]*, [a], {hit}; ")
    } else {
        put(text, b" = [~b]*, [b]; ")
    }
}

fn put_prod(text: &mut Vec<u8>, i: u32) -> Result<(), Memory>
    ensures { OnOk result (text.new.items ≡ text.old.items ++ prod_text i) }
{
    put(text, b"prod p")?;
    put_number(text, i.into())?;
    put_body(text, i)
}

fn put_prods(text: &mut Vec<u8>, n: u32) -> Result<(), Memory>
    ensures { OnOk result (text.new.items ≡ text.old.items ++ prods_text n) }
{
    for i in 0..n {
        put_prod(text, i)?;
    }
    Ok(())
}

fn put_name(text: &mut Vec<u8>, i: u32) -> Result<(), Memory>
    ensures { OnOk result (text.new.items ≡ text.old.items ++ (codes "p" ++ (decimal i ++ codes ", "))) }
{
    put(text, b"p")?;
    put_number(text, i.into())?;
    put(text, b", ")
}

fn put_names(text: &mut Vec<u8>, n: u32) -> Result<(), Memory>
    ensures { OnOk result (text.new.items ≡ text.old.items ++ names_text n) }
{
    for i in 0..n {
        put_name(text, i)?;
    }
    Ok(())
}

/// Appends the specification for n: docs/FORMATS.md, "Soak".
pub fn write_spec(n: u32, text: &mut Vec<u8>) -> Result<(), Memory>
    ensures { OnOk result (text.new.items ≡ text.old.items ++ spec_text n) }
{
    put(text, FRONT)?;
    put_prods(text, n)?;
    put(text, b"main = (try (")?;
    put_names(text, n)?;
    put(text, END)
}

// Terms.
ghost use Rattle.std.specs.Prelude.{◌≡◌, ◌++◌, OnOk, map, codes, decimal};
ghost use Rattle.pbs_print.specs.Canonical.{term_text, bracketed, is_any, is_joined, joined};

use crate::pieces::{put, put_bit, put_lead, put_number};
use pbs_ast::{SpecTerm, TermItems};
use pbs_base::{Memory, Word};

fn is_any(term: &SpecTerm) -> bool
    ensures { result ≡ is_any term.now }
{
    match term {
        SpecTerm::Any(_) => true,
        _ => false,
    }
}

fn is_joined(term: &SpecTerm) -> bool
    ensures { result ≡ is_joined term.now }
{
    match term {
        SpecTerm::All(_) | SpecTerm::Any(_) => true,
        _ => false,
    }
}

fn put_equal(text: &mut Vec<u8>, word: &Word, number: u32) -> Result<(), Memory>
    ensures { OnOk result (text.new.items ≡ text.old.items ++ (word.now ++ (codes " = " ++ decimal number))) }
{
    put(text, word.bytes())?;
    put(text, b" = ")?;
    put_number(text, number)
}

#[cycle(terms)]
pub(crate) fn put_term(text: &mut Vec<u8>, term: &SpecTerm) -> Result<(), Memory>
    ensures { OnOk result (text.new.items ≡ text.old.items ++ term_text term.now) }
{
    match term {
        SpecTerm::Const(bit) => put_bit(text, *bit),
        SpecTerm::Name(word, _) => put(text, word.bytes()),
        SpecTerm::Not(operand) => {
            put(text, b"~")?;
            put_bracketed(text, operand, is_joined(operand))
        }
        SpecTerm::All(items) => put_all(text, items),
        SpecTerm::Any(items) => put_any(text, items),
        SpecTerm::Equal(word, _, number, _) => put_equal(text, word, *number),
    }
}

#[cycle(terms)]
fn put_bracketed(text: &mut Vec<u8>, term: &SpecTerm, brackets: bool) -> Result<(), Memory>
    ensures { OnOk result (text.new.items ≡ text.old.items ++ bracketed brackets (term_text term.now)) }
{
    if !brackets {
        return put_term(text, term);
    }
    put(text, b"(")?;
    put_term(text, term)?;
    put(text, b")")
}

#[cycle(terms)]
fn put_all(text: &mut Vec<u8>, items: &TermItems) -> Result<(), Memory>
    ensures { OnOk result (text.new.items ≡ text.old.items
        ++ joined (codes " & ") (map (λ t. bracketed (is_joined t) (term_text t)) items.now)) }
{
    for n in 0..items.len() {
        let Some(item) = items.get(n) else {
            return Err(Memory);
        };
        put_lead(text, n, b" & ")?;
        put_bracketed(text, item, is_joined(item))?;
    }
    Ok(())
}

#[cycle(terms)]
fn put_any(text: &mut Vec<u8>, items: &TermItems) -> Result<(), Memory>
    ensures { OnOk result (text.new.items ≡ text.old.items
        ++ joined (codes " | ") (map (λ t. bracketed (is_any t) (term_text t)) items.now)) }
{
    for n in 0..items.len() {
        let Some(item) = items.get(n) else {
            return Err(Memory);
        };
        put_lead(text, n, b" | ")?;
        put_bracketed(text, item, is_any(item))?;
    }
    Ok(())
}

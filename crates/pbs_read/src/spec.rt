// Whole texts.
ghost use Rattle.std.specs.Prelude.{◌≡◌, ◌≤◌, length, IfOk, IfErr, MatchOption};
ghost use Rattle.pbs_base.specs.declared.refusal.Refusal.{Refusal};
ghost use Rattle.pbs_ast.specs.declared.syntax.Spec.{Spec};
ghost use Rattle.pbs_text.specs.declared.fail.ReadSpec.TheVariants as answers;
ghost use Rattle.pbs_ast.specs.Bare.{bare, bare_expr};
ghost use Rattle.pbs_text.specs.Refusals.{refusal};
ghost use Rattle.pbs_text.specs.places.Steps.{version_of};
ghost use Rattle.pbs_descent.specs.Descent.{NoFront};
ghost use Rattle.pbs_read.specs.inner.TextDescent.{bare_lists, nothing_yet, made_spec, decl_word, ReadsVersion};
ghost use Rattle.pbs_read.specs.inner.TextDescent.{StopsVersion, TakesDeclWord, ReadsDecl, StopsDecl, ReadsDecls};
ghost use Rattle.pbs_read.specs.inner.TextDescent.{StopsDecls, ReadsMain, StopsMain, ReadsText, StopsText};
ghost use Rattle.pbs_text.specs.Answers.{StandsFor, IsRefusedBy, Refuses, IsThe};

use crate::decls::{inputs, level, names, prod, right_side};
use pbs_ast::{Decls, Expr, Levels, Prods, Spec};
use pbs_base::{Listed, Refusal, Span, Subject};
use pbs_descent::{Mark, expect, front, stop};
use pbs_lex::tokens_of;
use pbs_text::{ReadSpec, Token, TokenKind};
use std::alloc::Global;

/// How many bytes a text may have.
const MAX_BYTES: usize = 1_048_576;

// What is declared, each kind in declared order.
#[derive(Drop)]
struct Lists {
    inputs: Decls,
    actions: Decls,
    levels: Levels,
    prods: Prods,
}

fn no_lists(alloc: Global) -> Lists
    ensures { bare_lists result ≡ nothing_yet }
{
    Lists {
        inputs: Listed::new(alloc),
        actions: Listed::new(alloc),
        levels: Listed::new(alloc),
        prods: Listed::new(alloc),
    }
}

fn is_two(kind: TokenKind) -> Option<bool>
    ensures { result ≡ version_of kind }
{
    match kind {
        TokenKind::One => Some(false),
        TokenKind::Two => Some(true),
        _ => None,
    }
}

// 'spec' '1' ';' or 'spec' '2' ';', and whether it is version 2.
fn version(tokens: &[Token], end: u32) -> Result<(bool, &[Token]), ReadSpec>
    ensures ok { IfOk result (λ x. ReadsVersion end tokens.now x.0 x.1.now) }
    ensures err { IfErr result (λ e. StopsVersion end tokens.now e) }
{
    let (_, after_spec) = expect(tokens, Mark::Spec, end)?;
    let Some((first, rest)) = front(after_spec) else {
        return Err(stop(after_spec, end));
    };
    let Some(two) = is_two(first.kind) else {
        return Err(stop(after_spec, end));
    };
    let (_, rest) = expect(rest, Mark::SemicolonMark, end)?;
    Ok((two, rest))
}

// The words with which declarations begin.
#[derive(Clone, Copy)]
enum DeclWord {
    OfInput,
    OfAction,
    OfLevel,
    OfProd,
}

fn word_of(kind: TokenKind) -> Option<DeclWord>
    ensures { result ≡ decl_word kind }
{
    match kind {
        TokenKind::InputWord => Some(DeclWord::OfInput),
        TokenKind::ActionWord => Some(DeclWord::OfAction),
        TokenKind::LevelWord => Some(DeclWord::OfLevel),
        TokenKind::ProdWord => Some(DeclWord::OfProd),
        _ => None,
    }
}

// The word of the declaration that comes next, if one does.
fn next_decl(tokens: &[Token]) -> Option<(DeclWord, &[Token])>
    ensures { MatchOption result (NoFront decl_word tokens.now) (λ x. TakesDeclWord tokens.now x.0 x.1.now) }
{
    let Some((first, rest)) = front(tokens) else {
        return None;
    };
    match word_of(first.kind) {
        Some(found) => Some((found, rest)),
        None => None,
    }
}

// A declaration behind its word.
fn decl<'a>(
    alloc: Global,
    bytes: &[u8],
    two: bool,
    found: DeclWord,
    tokens: &'a [Token],
    end: u32,
    lists: &mut Lists,
) -> Result<&'a [Token], ReadSpec>
    ensures ok { IfOk result (λ rest. ReadsDecl two bytes.now end found tokens.now (bare_lists lists.old)
        (bare_lists lists.new) rest.now) }
    ensures err { IfErr result (λ e. StopsDecl two end found tokens.now e) }
{
    match found {
        DeclWord::OfInput => inputs(alloc, bytes, two, tokens, end, &mut lists.inputs),
        DeclWord::OfAction => names(alloc, bytes, tokens, end, &mut lists.actions),
        DeclWord::OfLevel => {
            let (found, rest) = level(alloc, bytes, tokens, end)?;
            lists.levels.push(found)?;
            Ok(rest)
        }
        DeclWord::OfProd => {
            let (found, rest) = prod(alloc, bytes, two, tokens, end)?;
            lists.prods.push(found)?;
            Ok(rest)
        }
    }
}

// {{ decl }}
fn decls<'a>(
    alloc: Global,
    bytes: &[u8],
    two: bool,
    tokens: &'a [Token],
    end: u32,
) -> Result<(Lists, &'a [Token]), ReadSpec>
    ensures ok { IfOk result (λ x. ReadsDecls two bytes.now end tokens.now (bare_lists x.0) x.1.now) }
    ensures no_more { IfOk result (λ x. NoFront decl_word x.1.now) }
    ensures err { IfErr result (λ e. StopsDecls two end tokens.now e) }
{
    let mut lists = no_lists(alloc);
    let mut rest = tokens;
    while let Some((found, after)) = next_decl(rest) {
        rest = decl(alloc, bytes, two, found, after, end, &mut lists)?;
    }
    Ok((lists, rest))
}

// 'main' '=' expr ';' end-of-text
fn main_expr(
    alloc: Global,
    bytes: &[u8],
    two: bool,
    tokens: &[Token],
    end: u32,
) -> Result<Expr, ReadSpec>
    requires { NoFront decl_word tokens.now }
    ensures ok { IfOk result (λ x. ReadsMain two bytes.now end tokens.now (bare_expr x)) }
    ensures err { IfErr result (λ e. StopsMain two end tokens.now e) }
{
    let (_, rest) = expect(tokens, Mark::Main, end)?;
    let (body, rest) = right_side(alloc, bytes, two, rest, end)?;
    if rest.is_empty() {
        Ok(body)
    } else {
        Err(stop(rest, end))
    }
}

fn spec_of(two: bool, lists: Lists, main: Expr) -> Spec
    ensures { bare result ≡ made_spec two (bare_lists lists) (bare_expr main) }
{
    Spec {
        version: if two { 2 } else { 1 },
        inputs: lists.inputs,
        actions: lists.actions,
        levels: lists.levels,
        prods: lists.prods,
        main,
    }
}

// The text that the tokens are.
fn text(alloc: Global, bytes: &[u8], tokens: &[Token], end: u32) -> Result<Spec, ReadSpec>
    ensures ok { IfOk result (λ spec. ReadsText bytes.now end tokens.now (bare spec)) }
    ensures err { IfErr result (λ e. StopsText end tokens.now e) }
{
    let (two, rest) = version(tokens, end)?;
    let (lists, rest) = decls(alloc, bytes, two, rest, end)?;
    let main = main_expr(alloc, bytes, two, rest, end)?;
    Ok(spec_of(two, lists, main))
}

fn too_long() -> ReadSpec
    ensures { result ≡ answers.Refused (refusal 1 (record { start = 1048576; end = 1048577 })) }
{
    ReadSpec::Refused(Refusal {
        subject: Subject::Spec,
        rule: 1,
        span: Span {
            start: 1_048_576,
            end: 1_048_577,
        },
    })
}

// How many bytes a text has that is not too long.
fn end_of(bytes: &[u8]) -> u32
    requires { length bytes.now ≤ 1048576 }
    ensures { result ≡ length bytes.now }
{
    bytes.len() as u32
}

fn read(alloc: Global, bytes: &[u8]) -> Result<Spec, ReadSpec>
    ensures found { IfOk result (λ spec. StandsFor bytes.now (bare spec)) }
    ensures refused { IfErr result (λ e. Refuses bytes.now e) }
{
    if bytes.len() > MAX_BYTES {
        return Err(too_long());
    }
    let tokens = tokens_of(alloc, bytes)?;
    text(alloc, bytes, &tokens, end_of(bytes))
}

/// The specification that the text stands for.
pub fn read_spec(alloc: Global, bytes: &[u8]) -> Result<Spec, ReadSpec>
    // What is read is what the text stands for, and a refusal is the first rule of 1 to 4 that the text breaks.
    ensures found { IfOk result (λ spec. StandsFor bytes.now (bare spec)) }
    ensures refused { IfErr result (λ e. Refuses bytes.now e) }

    // A text that stands for a specification is read as that one, unless memory runs out.
    ensures only { (spec : Spec) → StandsFor bytes.now spec → IfOk result (λ read. bare read ≡ spec) }
    ensures only_memory { (spec : Spec) → StandsFor bytes.now spec → IfErr result (λ e. e ≡ answers.Memory) }

    // A text that breaks one of the rules is refused so, unless memory runs out.
    ensures never { (r : Refusal) → IsRefusedBy bytes.now r → IfOk result (λ _. ⊥) }
    ensures only_refused { (r : Refusal) → IsRefusedBy bytes.now r → IfErr result (λ e. IsThe r e) }
{
    read(alloc, bytes)
}

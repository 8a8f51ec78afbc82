// From the text of a specification to its tree.
ghost use Rattle.std.specs.Prelude.{◌≡◌, None};
ghost use Rattle.pbs_text.specs.Answers.{StandsFor};
ghost use Rattle.pbs_ast.specs.Bare.{bare};
ghost use Rattle.pbs_ast.specs.Trees.{tree_of};
ghost use Rattle.pbs_check.specs.Checked.{IsUnbroken};
ghost use Rattle.pbs_expand.specs.Expanded.{expanded, refusal};
ghost use Rattle.pbs_expand.specs.Ready.{NamesDeclared};
ghost use Rattle.pbs_engine.specs.Accepted.{Checks};
ghost use Rattle.pbs_engine.specs.inner.AcceptedAs.{Accepts};

use crate::fail::EngineFail;
use pbs_ast::{Main, Spec};
use pbs_check::laws::{same_rules, within_limits};
use pbs_check::{Check, check_spec};
use pbs_expand::laws::same_expansion;
use pbs_expand::{Expand, expand};
use pbs_overlap::{TreeFail, check_tree};
use pbs_read::read_spec;
use pbs_text::ReadSpec;
use std::alloc::Global;

/// A specification that breaks no rule, and its tree.
#[derive(Drop)]
pub struct Accepted {
    pub spec: Spec,
    pub main: Main,
}

/// Whether the text breaks none of the rules 1 to 11, 18, 19 and 12 to 16. `Refused` has the first of them, in this
/// order, that is broken, and its place: docs/LANGUAGE.md, "Rules".
pub fn check(alloc: Global, text: &[u8]) -> Result<(), EngineFail>
    ensures { Checks text.now result }
{
    match accept(alloc, text) {
        Ok(_) => Ok(()),
        Err(fail) => Err(fail),
    }
}

/// Reads, checks and expands the specification.
pub(crate) fn accept(alloc: Global, text: &[u8]) -> Result<Accepted, EngineFail>
    ensures { Accepts text.now result }
{
    same_rules();
    let spec = match read_spec(alloc, text) {
        Ok(spec) => spec,
        Err(ReadSpec::Refused(refusal)) => return Err(EngineFail::Refused(refusal)),
        Err(ReadSpec::Memory) => return Err(EngineFail::Memory),
    };
    match check_spec(alloc, &spec) {
        Ok(()) => expand_checked(alloc, text, spec),
        Err(Check::Refused(refusal)) => Err(EngineFail::Refused(refusal)),
        Err(Check::Memory) => Err(EngineFail::Memory),
    }
}

// Expands a specification that was checked.
fn expand_checked(alloc: Global, text: &[u8], spec: Spec) -> Result<Accepted, EngineFail>
    requires read { StandsFor text.now (bare spec) }
    requires unbroken { IsUnbroken spec }
    ensures { Accepts text.now result }
{
    same_rules();
    same_expansion();
    within_limits();
    match expand(alloc, &spec) {
        Ok(main) => check_expanded(alloc, text, spec, main),
        Err(Expand::Refused(refusal)) => Err(EngineFail::Refused(refusal)),
        Err(Expand::Memory) => Err(EngineFail::Memory),
    }
}

// Looks at the rules of scopes in the tree of a specification.
fn check_expanded(
    alloc: Global,
    text: &[u8],
    spec: Spec,
    main: Main,
) -> Result<Accepted, EngineFail>
    requires read { StandsFor text.now (bare spec) }
    requires unbroken { IsUnbroken (bare spec) }
    requires within { refusal (bare spec) ≡ None }
    requires tree { tree_of main.tree ≡ expanded (bare spec) }
    requires names { NamesDeclared spec (tree_of main.tree) }
    ensures { Accepts text.now result }
{
    match check_tree(alloc, &main, spec.main.span) {
        Ok(()) => Ok(Accepted { spec, main }),
        Err(TreeFail::Refused(refusal)) => Err(EngineFail::Refused(refusal)),
        Err(TreeFail::Memory) => Err(EngineFail::Memory),
    }
}

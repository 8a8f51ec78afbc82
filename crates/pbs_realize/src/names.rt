// The names that a specification declares.
ghost use Rattle.std.specs.Prelude.{◌≡◌, IfOk};
ghost use Rattle.pbs_base.specs.Words.{AreDifferent};
ghost use Rattle.pbs_ast.specs.Bare.{bare};
ghost use Rattle.pbs_names.specs.Naming.{action_names, input_names, level_names};
ghost use Rattle.pbs_check.specs.Checked.{IsUnbroken};

use pbs_ast::Spec;
use pbs_base::{Memory, Names};
use pbs_check::laws::declared_once;
use pbs_names::{action_words, input_words, level_words};
use std::alloc::Global;

/// The names of the inputs, with the bits of buses among them, of the actions and of the levels, in declared order.
#[derive(Drop)]
pub(crate) struct Declared {
    pub inputs: Names,
    pub actions: Names,
    pub levels: Names,
}

fn inputs_of(alloc: Global, spec: &Spec) -> Result<Names, Memory>
    requires { AreDifferent (input_names spec.now.inputs) }
    ensures { IfOk result (λ names. names ≡ input_names spec.now.inputs) }
{
    let words = input_words(alloc, &spec.inputs)?;
    Names::from_words(alloc, words.as_slice())
}

fn actions_of(alloc: Global, spec: &Spec) -> Result<Names, Memory>
    requires { AreDifferent (action_names spec.now.actions) }
    ensures { IfOk result (λ names. names ≡ action_names spec.now.actions) }
{
    let words = action_words(alloc, &spec.actions)?;
    Names::from_words(alloc, words.as_slice())
}

fn levels_of(alloc: Global, spec: &Spec) -> Result<Names, Memory>
    requires { AreDifferent (level_names spec.now.levels) }
    ensures { IfOk result (λ names. names ≡ level_names spec.now.levels) }
{
    let words = level_words(alloc, &spec.levels)?;
    Names::from_words(alloc, words.as_slice())
}

/// The declared names.
pub(crate) fn declared_names(alloc: Global, spec: &Spec) -> Result<Declared, Memory>
    requires { IsUnbroken (bare spec.now) }
    ensures inputs { IfOk result (λ names. names.inputs ≡ input_names spec.now.inputs) }
    ensures actions { IfOk result (λ names. names.actions ≡ action_names spec.now.actions) }
    ensures levels { IfOk result (λ names. names.levels ≡ level_names spec.now.levels) }
{
    declared_once();
    let inputs = inputs_of(alloc, spec)?;
    let actions = actions_of(alloc, spec)?;
    let levels = levels_of(alloc, spec)?;
    Ok(Declared {
        inputs,
        actions,
        levels,
    })
}

// Rules 5 and 11: what is declared twice, and what is declared too often.
ghost use Rattle.std.specs.Prelude.{◌≡◌, IfOk};
ghost use Rattle.pbs_check.specs.Least.{least_by};
ghost use Rattle.pbs_check.specs.inner.Stages.{level_twice, found_twice, over_inputs, found_over};

use crate::least::least_of;
use crate::named::{declared_names, first_twice, listed};
use pbs_ast::{Decls, Levels, Spec};
use pbs_base::{Memory, Span};
use pbs_names::input_count;
use std::alloc::Global;

fn levels_twice(alloc: Global, levels: &Levels) -> Result<Option<Span>, Memory>
    ensures { IfOk result (λ found. found ≡ least_by level_twice levels.now) }
{
    let mut found = None;
    for level in levels.as_slice() {
        let twice = first_twice(alloc, listed(alloc, &level.sets)?)?;
        found = least_of(found, twice);
    }
    Ok(found)
}

/// The least place that breaks rule 5.
pub(crate) fn found_twice(alloc: Global, spec: &Spec) -> Result<Option<Span>, Memory>
    ensures { IfOk result (λ found. found ≡ found_twice spec.now) }
{
    let declared = first_twice(alloc, declared_names(alloc, spec)?)?;
    let listed = levels_twice(alloc, &spec.levels)?;
    Ok(least_of(declared, listed))
}

fn over_inputs(inputs: &Decls) -> Option<Span>
    ensures { result ≡ over_inputs 0 inputs.now }
{
    let mut count: u32 = 0;
    for decl in inputs.as_slice() {
        count += u32::from(input_count(decl));
        if count > 64 {
            return Some(decl.span);
        }
    }
    None
}

/// The least place that breaks rule 11.
pub(crate) fn found_over(spec: &Spec) -> Option<Span>
    ensures { result ≡ found_over spec.now }
{
    let action = match spec.actions.get(64) {
        Some(decl) => Some(decl.span),
        None => None,
    };
    let level = match spec.levels.get(64) {
        Some(level) => Some(level.span),
        None => None,
    };
    least_of(over_inputs(&spec.inputs), least_of(action, level))
}

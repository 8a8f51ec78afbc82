// Walks over a whole specification.
ghost use Rattle.std.specs.Prelude.{◌≡◌};
ghost use Rattle.pbs_check.specs.Least.{least_by};
ghost use Rattle.pbs_check.specs.inner.Stages.{found_in};
ghost use Rattle.pbs_check.specs.inner.Walking.{own_broken, inside_prods, set_broken, level_broken};

use crate::least::least_of;
use crate::uses::{Look, Tables, Wanted, expr_broken, name_broken};
use pbs_ast::{Decls, Levels, Prods, Sets, Spec};
use pbs_base::Span;

fn prods_broken(look: Look, tables: &Tables, inputs: &Decls, prods: &Prods) -> Option<Span>
    ensures { result ≡ least_by (own_broken look tables.now inputs.now) (inside_prods prods.now) }
{
    let mut found = None;
    for prod in prods.as_slice() {
        found = least_of(found, expr_broken(look, tables, inputs, &prod.body));
    }
    found
}

fn sets_broken(look: Look, tables: &Tables, sets: &Sets) -> Option<Span>
    ensures { result ≡ least_by (set_broken look tables.now) sets.now }
{
    let mut found = None;
    for set in sets.as_slice() {
        let broken = name_broken(look, tables, Wanted::Action, &set.action, set.span);
        found = least_of(found, broken);
    }
    found
}

fn levels_broken(look: Look, tables: &Tables, levels: &Levels) -> Option<Span>
    ensures { result ≡ least_by (level_broken look tables.now) levels.now }
{
    let mut found = None;
    for level in levels.as_slice() {
        found = least_of(found, sets_broken(look, tables, &level.sets));
    }
    found
}

/// The least place in the specification that breaks the rule.
pub(crate) fn found_in(look: Look, tables: &Tables, spec: &Spec) -> Option<Span>
    ensures { result ≡ found_in look tables.now spec.now }
{
    let prods = prods_broken(look, tables, &spec.inputs, &spec.prods);
    let main = expr_broken(look, tables, &spec.inputs, &spec.main);
    let levels = levels_broken(look, tables, &spec.levels);
    least_of(least_of(prods, main), levels)
}

// Whether some vector satisfies both of two terms, by decision diagrams.
ghost use Rattle.std.specs.Prelude.{IsTrue};
ghost use Rattle.bool_terms.specs.Terms.{term_inputs_below, term_of};

use crate::front::expanded;
use crate::stop::Stop;
use bool_bdd::Store;
use bool_terms::Term;
use pbs_ast::{Main, TreeKind};
use pbs_base::Memory;
use std::alloc::Global;

fn are_disjoint(alloc: Global, left: &Term, right: &Term) -> Result<bool, Memory>
    requires left { IsTrue (term_inputs_below 64 (term_of left.now)) }
    requires right { IsTrue (term_inputs_below 64 (term_of right.now)) }
{
    let mut store = Store::new(alloc);
    let left = store.of_term(left)?;
    let right = store.of_term(right)?;
    store.disjoint(alloc, left, right)
}

// Whether the terms of the two terminals are disjoint that main is a sequence of.
fn halves_are_disjoint(alloc: Global, main: &Main) -> Result<bool, Stop> {
    let TreeKind::Seq(first, second) = &main.tree.kind else {
        return Err(Stop::OtherForm);
    };
    match (&first.kind, &second.kind) {
        (TreeKind::Terminal(_, left), TreeKind::Terminal(_, right)) => {
            Ok(are_disjoint(alloc, left, right)?)
        }
        _ => Err(Stop::OtherForm),
    }
}

/// `disjoint`: whether no vector satisfies both terminals that main is a sequence of.
pub(crate) fn answer_disjoint(alloc: Global, text: &[u8]) -> Result<Vec<u8>, Stop> {
    let main = expanded(alloc, text)?;
    let disjoint = halves_are_disjoint(alloc, &main)?;
    let line = if disjoint {
        "disjoint\n"
    } else {
        "not disjoint\n"
    };
    Ok(String::from_str(alloc, line)?.into_bytes())
}

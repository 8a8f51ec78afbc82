// From a text to its tree, and what is answered of derivations of it.
ghost use Rattle.std.specs.Prelude.{IfSome};
ghost use Rattle.pbs_check.specs.Checked.{IsUnbroken};

use pbs_ast::{Main, Spec};
use pbs_base::Listed;
use pbs_check::check_spec;
use pbs_check::laws::within_limits;
use pbs_expand::expand;
use pbs_explain::{Derivation, Item, check_derivation, count_nodes, first_derivation};
use pbs_read::read_spec;
use std::alloc::Global;

/// What is answered of an action at the end of a run.
#[derive(Drop)]
pub(crate) enum Answer {
    Fires(Derivation),
    Silent,
    TooBig,
    NoMemory,
}

/// The specification that a text stands for, where it breaks none of the rules before those of the tree.
fn checked(alloc: Global, text: &[u8]) -> Option<Spec>
    ensures { IfSome result (λ spec. IsUnbroken spec) }
{
    let Ok(spec) = read_spec(alloc, text) else {
        return None;
    };
    match check_spec(alloc, &spec) {
        Ok(()) => Some(spec),
        Err(_) => None,
    }
}

fn tree_of_spec(alloc: Global, spec: &Spec) -> Option<Main>
    requires { IsUnbroken spec.now }
{
    // The law that what is checked has few enough inputs and actions.
    within_limits();
    match expand(alloc, spec) {
        Ok(main) => Some(main),
        Err(_) => None,
    }
}

/// The tree of a text that breaks none of the rules before the edges.
pub(crate) fn expanded(alloc: Global, text: &[u8]) -> Option<Main> {
    let spec = checked(alloc, text)?;
    tree_of_spec(alloc, &spec)
}

pub(crate) fn explained(alloc: Global, main: &Main, run: &[u64], action: u8) -> Answer {
    if run.len() > 128 || count_nodes(main) > 1024 {
        return Answer::TooBig;
    }
    match first_derivation(alloc, main, run, action) {
        Ok(Some(found)) => Answer::Fires(found),
        Ok(None) => Answer::Silent,
        Err(_) => Answer::NoMemory,
    }
}

fn listed(alloc: Global, items: &[Item]) -> Option<Listed<Item>> {
    let mut list = Listed::new(alloc);
    for item in items {
        list.push(*item).ok()?;
    }
    Some(list)
}

/// Whether the items up to the node of this number are a derivation; nothing where it wasn't found out.
pub(crate) fn accepted(
    alloc: Global,
    main: &Main,
    run: &[u64],
    node: u32,
    items: &[Item],
) -> Option<bool> {
    if run.len() > 128 || count_nodes(main) > 1024 {
        return None;
    }
    let items = listed(alloc, items)?;
    check_derivation(alloc, main, run, &Derivation { node, items }).ok()
}

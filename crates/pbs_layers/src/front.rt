// A text as a specification, checked, and as the tree of main: what the words of the upper layers begin with.
ghost use Rattle.std.specs.Prelude.{IfOk};
ghost use Rattle.pbs_ast.specs.Trees.{tree_of};
ghost use Rattle.pbs_check.specs.Checked.{IsUnbroken};
ghost use Rattle.pbs_expand.specs.Ready.{NamesDeclared};

use crate::stop::Stop;
use pbs_ast::{Main, Spec};
use pbs_check::check_spec;
use pbs_check::laws::within_limits;
use pbs_print::print_spec;
use pbs_read::read_spec;
use std::alloc::Global;

const ACCEPTED: &str = "accepted\n";

/// The specification that the text stands for, which breaks none of rules 5 to 11, 18 and 19.
pub(crate) fn checked(alloc: Global, text: &[u8]) -> Result<Spec, Stop>
    ensures { IfOk result (λ spec. IsUnbroken spec) }
{
    let spec = match read_spec(alloc, text) {
        Ok(spec) => spec,
        Err(fail) => return Err(Stop::from(fail)),
    };
    match check_spec(alloc, &spec) {
        Ok(()) => Ok(spec),
        Err(fail) => Err(Stop::from(fail)),
    }
}

/// The tree of the specification.
pub(crate) fn expand(alloc: Global, spec: &Spec) -> Result<Main, Stop>
    requires { IsUnbroken spec.now }
    ensures { IfOk result (λ main. NamesDeclared spec.now (tree_of main.tree)) }
{
    // The law that what is checked has few enough inputs and actions.
    within_limits();
    match pbs_expand::expand(alloc, spec) {
        Ok(main) => Ok(main),
        Err(fail) => Err(Stop::from(fail)),
    }
}

/// The tree of the text's specification.
pub(crate) fn expanded(alloc: Global, text: &[u8]) -> Result<Main, Stop> {
    let spec = checked(alloc, text)?;
    expand(alloc, &spec)
}

fn accepted(alloc: Global) -> Result<Vec<u8>, Stop> {
    Ok(String::from_str(alloc, ACCEPTED)?.into_bytes())
}

/// `read`: whether the text keeps rules 1 to 4.
pub(crate) fn answer_read(alloc: Global, text: &[u8]) -> Result<Vec<u8>, Stop> {
    let _spec = read_spec(alloc, text)?;
    accepted(alloc)
}

/// `check`: whether it also keeps rules 5 to 11, 18 and 19.
pub(crate) fn answer_check(alloc: Global, text: &[u8]) -> Result<Vec<u8>, Stop> {
    let _spec = checked(alloc, text)?;
    accepted(alloc)
}

/// `expand`: whether it also keeps rules 12 and 13.
pub(crate) fn answer_expand(alloc: Global, text: &[u8]) -> Result<Vec<u8>, Stop> {
    let _main = expanded(alloc, text)?;
    accepted(alloc)
}

/// `print`: the canonical text of what is read.
pub(crate) fn answer_print(alloc: Global, text: &[u8]) -> Result<Vec<u8>, Stop> {
    let spec = read_spec(alloc, text)?;
    let mut out = Vec::new(alloc);
    print_spec(alloc, &spec, &mut out)?;
    Ok(out)
}

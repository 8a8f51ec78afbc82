// The controller of an accepted text.
ghost use Rattle.pbs_ast.specs.Bare.{bare};
ghost use Rattle.pbs_engine.specs.inner.AcceptedAs.{IsAcceptedAs};
ghost use Rattle.pbs_engine.specs.inner.Controllers.{MakesController, MakesControllerOf};

use crate::fail::EngineFail;
use crate::front::{Accepted, accept};
use pbs_controller::Controller;
use pbs_realize::realize;
use std::alloc::Global;

/// The controller of the specification that the text stands for.
pub(crate) fn controller_of_text(alloc: Global, text: &[u8]) -> Result<Controller, EngineFail>
    ensures { MakesController text.now result }
{
    match accept(alloc, text) {
        Ok(accepted) => controller_of_accepted(alloc, text, &accepted),
        Err(fail) => Err(fail),
    }
}

/// The controller of an accepted specification.
pub(crate) fn controller_of_accepted(
    alloc: Global,
    text: &[u8],
    accepted: &Accepted,
) -> Result<Controller, EngineFail>
    requires { IsAcceptedAs text.now accepted.now }
    ensures { MakesControllerOf text.now (bare accepted.now.spec) result }
{
    match realize(alloc, &accepted.spec, &accepted.main) {
        Ok(made) => Ok(made),
        Err(_) => Err(EngineFail::Memory),
    }
}

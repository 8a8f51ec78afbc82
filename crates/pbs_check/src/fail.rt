// How the checks fail.
ghost use Rattle.std.specs.Prelude.{◌≡◌};
ghost use Rattle.pbs_check.specs.declared.fail.Check.TheVariants as variants;

use pbs_base::Refusal;
use thiserror::Error;

/// Why a specification is not passed on.
#[derive(Clone, Copy, Debug, PartialEq, Eq, Error)]
pub enum Check {
    /// The first broken rule of 5 to 11, 18 and 19, and the least span at which it is broken.
    #[error("the specification breaks a rule")]
    Refused(Refusal),
    #[error("no memory was found")]
    Memory,
}

impl From<pbs_base::Memory> for Check {
    ghost from_gives = { λ _ e. e ≡ variants.Memory };

    fn from(_error: pbs_base::Memory) -> Check {
        Check::Memory
    }
}

// Why no specification was read.
ghost use Rattle.std.specs.Prelude.{◌≡◌};
ghost use Rattle.pbs_text.specs.declared.fail.ReadSpec.TheVariants as variants;

use pbs_base::Refusal;
use std::alloc::{AllocError, AllocFailed};
use thiserror::Error;

/// Why no specification was read.
#[derive(Clone, Copy, Debug, PartialEq, Eq, Error)]
pub enum ReadSpec {
    /// The first broken rule of 1 to 4, and its place.
    #[error("the text is refused")]
    Refused(Refusal),
    #[error("no memory was found")]
    Memory,
}

impl From<AllocError> for ReadSpec {
    ghost from_gives = { λ _ e. e ≡ variants.Memory };

    fn from(_error: AllocError) -> ReadSpec {
        ReadSpec::Memory
    }
}

impl<T: Drop> From<AllocFailed<T>> for ReadSpec {
    ghost from_gives = { λ _ e. e ≡ variants.Memory };

    fn from(_error: AllocFailed<T>) -> ReadSpec {
        ReadSpec::Memory
    }
}

impl From<pbs_base::Memory> for ReadSpec {
    ghost from_gives = { λ _ e. e ≡ variants.Memory };

    fn from(_error: pbs_base::Memory) -> ReadSpec {
        ReadSpec::Memory
    }
}

// How the checks of trees with scopes fail.
ghost use Rattle.std.specs.Prelude.{◌≡◌};
ghost use Rattle.pbs_overlap.specs.declared.fail.OverlapFail.TheVariants as variants;

use pbs_base::{Refusal, Span};
use thiserror::Error;

/// Why a tree isn't accepted.
#[derive(Clone, Copy, Debug, PartialEq, Eq, Error)]
pub enum OverlapFail {
    /// The lowest scope that breaks the overlap rule, and its span.
    #[error("a scope breaks the overlap rule")]
    Scope(u32, Span),
    #[error("no memory was found")]
    Memory,
}

impl From<pbs_base::Memory> for OverlapFail {
    ghost from_gives = { λ _ e. e ≡ variants.Memory };

    fn from(_error: pbs_base::Memory) -> OverlapFail {
        OverlapFail::Memory
    }
}

/// Why a tree breaks a rule of scopes, or isn't checked.
#[derive(Clone, Copy, Debug, PartialEq, Eq, Error)]
pub enum TreeFail {
    /// The first broken rule of 14, 15 and 16, and its place.
    #[error("the tree breaks a rule of scopes")]
    Refused(Refusal),
    #[error("no memory was found")]
    Memory,
}

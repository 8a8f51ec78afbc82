// How finding edges fails.
ghost use Rattle.std.specs.Prelude.{◌≡◌};
ghost use Rattle.pbs_edges.specs.declared.fail.EdgeFail.TheVariants as variants;

use thiserror::Error;

/// Why there are no edges.
#[derive(Clone, Copy, Debug, PartialEq, Eq, Error)]
pub enum EdgeFail {
    #[error("there are more than 16384 follow edges")]
    TooManyEdges,
    #[error("there are more than 256 different effective terms")]
    TooManyTerms,
    #[error("no memory was found")]
    Memory,
}

impl From<pbs_base::Memory> for EdgeFail {
    ghost from_gives = { λ _ e. e ≡ variants.Memory };

    fn from(_error: pbs_base::Memory) -> EdgeFail {
        EdgeFail::Memory
    }
}

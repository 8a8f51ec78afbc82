// Why a specification is not passed on.
use pbs_base::Refusal;
use thiserror::Error;

/// Why a specification is not passed on.
#[derive(Clone, Copy, Debug, PartialEq, Eq, Error)]
pub enum EngineFail {
    /// The first broken rule, and its place.
    #[error("the specification is refused")]
    Refused(Refusal),
    #[error("no memory was found")]
    Memory,
}

// How the expansion fails.
use pbs_base::Refusal;
use thiserror::Error;

/// Why there is no tree.
#[derive(Clone, Copy, Debug, PartialEq, Eq, Error)]
pub enum Expand {
    /// The first broken rule of 12 and 13, and its place.
    #[error("the expansion breaks a rule")]
    Refused(Refusal),
    #[error("no memory was found")]
    Memory,
}

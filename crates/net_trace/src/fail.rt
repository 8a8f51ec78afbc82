// Why a run on a trace didn't come to its end.
use pbs_base::Refusal;
use thiserror::Error;

/// Why a run on a trace didn't come to its end.
#[derive(Clone, Copy, Debug, PartialEq, Eq, Error)]
pub enum RunFail {
    /// The first broken rule, and its place.
    #[error("the specification or the trace is refused")]
    Refused(Refusal),
    /// The shelf failed.
    #[error("the shelf failed")]
    ReadFault,
    /// The sink failed.
    #[error("the sink failed")]
    WriteFault,
    #[error("no memory was found")]
    Memory,
}

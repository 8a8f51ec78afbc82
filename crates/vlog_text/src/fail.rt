// Why no netlist was read.
ghost use Rattle.std.specs.Prelude.{◌≡◌};
ghost use Rattle.vlog_text.specs.declared.fail.VlogFail.TheVariants as variants;

use pbs_base::Refusal;
use std::alloc::AllocFailed;

/// Why no netlist was read.
#[derive(Clone, Copy)]
pub enum VlogFail {
    /// The first broken rule, and its place.
    Refused(Refusal),
    /// No memory was found.
    Memory,
}

impl<T: Drop> From<AllocFailed<T>> for VlogFail {
    ghost from_gives = { λ _ e. e ≡ variants.Memory };

    fn from(_error: AllocFailed<T>) -> VlogFail {
        VlogFail::Memory
    }
}

impl From<pbs_base::Memory> for VlogFail {
    ghost from_gives = { λ _ e. e ≡ variants.Memory };

    fn from(_error: pbs_base::Memory) -> VlogFail {
        VlogFail::Memory
    }
}

// The report of a simulation so far.
ghost use Rattle.std.specs.Prelude.{◌≡◌, ◌≤◌, length};
ghost use Rattle.net_core.specs.Circuits.{output_names};

use net_eval::Sim;
use pbs_base::Names;
use trace_text::Held;

/// A simulation and its report, some lines of which are held back. No more memory is taken once it is made.
#[derive(Drop)]
pub(crate) struct Report<'a> {
    pub(crate) names: Names,
    pub(crate) held: Held,
    pub(crate) sim: Sim<'a>,
    /// How many rows were made behind row 0.
    pub(crate) rows: u64,
    ghost few: { length names ≤ 128 },
    ghost named: { names ≡ output_names sim.net },
}

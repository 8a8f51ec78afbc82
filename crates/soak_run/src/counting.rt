// In how many rows outputs are 1.
ghost use Rattle.std.specs.Prelude.{◌≡◌, ◌<◌, ◌≤◌, ◌*◌, length, IfOk};
ghost use Rattle.soak_run.specs.Soaks.{CountsRows, entries, one_if};
ghost use Rattle.soak_run.specs.inner.Tallies.{CountsLast, shown};

use crate::vectors::vector;
use net_core::Netlist;
use net_eval::Sim;
use net_eval::laws::simulation;
use pbs_base::Memory;
use std::alloc::Global;

/// In how many rows the actions `hit`, `pass` and `lost` fire.
#[derive(Clone, Copy, Debug, PartialEq, Eq)]
pub struct Counts {
    pub hit: u32,
    pub pass: u32,
    pub lost: u32,
}

// Whether there is an output n, and it was 1 in the last row.
fn is_shown(sim: &Sim<'_>, outputs: usize, n: usize) -> bool
    requires { outputs ≡ length sim.now.net.outputs }
    ensures { result ≡ shown sim.now n }
{
    n < outputs && sim.output(n)
}

// The counts with the simulator's last row.
fn with_row(counts: Counts, sim: &Sim<'_>, outputs: usize) -> Counts
    requires outputs { outputs ≡ length sim.now.net.outputs }
    requires hit { counts.hit < 4294967295 }
    requires pass { counts.pass < 4294967295 }
    requires lost { counts.lost < 4294967295 }
    ensures { CountsLast sim.now counts result }
{
    Counts {
        hit: counts.hit + u32::from(is_shown(sim, outputs, 0)),
        pass: counts.pass + u32::from(is_shown(sim, outputs, 1)),
        lost: counts.lost + u32::from(is_shown(sim, outputs, 2)),
    }
}

/// Runs the netlist on the 10 n vectors of the run for n, and counts the rows in which each of its first three outputs
/// is 1, row 0 among them.
pub fn count_rows(alloc: Global, net: &Netlist, n: u32) -> Result<Counts, Memory>
    requires { n ≤ 1000 }
    ensures { IfOk result (CountsRows net.now (entries n (10 * n))) }
{
    simulation();
    let outputs = net.outputs().len();
    let mut sim = Sim::new(alloc, net)?;
    sim.step(true, 0);
    let none = Counts {
        hit: 0,
        pass: 0,
        lost: 0,
    };
    let mut counts = with_row(none, &sim, outputs);
    for t in 0..10 * n {
        sim.step(false, vector(n, t));
        counts = with_row(counts, &sim, outputs);
    }
    Ok(counts)
}

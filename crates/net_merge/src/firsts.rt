// The first register that takes a gate.
ghost use Rattle.std.specs.Prelude.{◌≡◌, ◌<◌, ◌+◌, ◌^◌, length, IfOk};
ghost use Rattle.net_merge.specs.inner.Firsts.{AreFirsts, AreTakers, IsFirst, TakeBelow};

use net_core::Wire;
use pbs_base::Memory;
use std::alloc::Global;

// The first register that takes what register `r` takes, `r` itself where none before it does or it takes no gate.
// `takers` has for each gate the first register that takes it, so far.
fn first_taker(takers: &mut Vec<Option<u32>>, registers: &[Wire], r: u32) -> u32
    requires there { r < length registers.now }
    requires gates { TakeBelow (length takers.old.items) registers.now }
    requires takers { AreTakers registers.now r takers.old.items }
    ensures takers { AreTakers registers.now (r + 1) takers.new.items }
    ensures count { length takers.new.items ≡ length takers.old.items }
    ensures first { IsFirst registers.now r result }
{
    let Wire::Gate(n) = registers[r as usize] else {
        return r;
    };
    match takers[n as usize] {
        Some(first) => first,
        None => {
            takers[n as usize] = Some(r);
            r
        }
    }
}

/// For each register the first one that takes the same gate: itself where none before it does, or where it takes no
/// gate.
pub(crate) fn find_firsts(
    alloc: Global,
    registers: &[Wire],
    gates: usize,
) -> Result<Vec<u32>, Memory>
    requires few { length registers.now < 2 ^ 32 }
    requires gates { TakeBelow gates registers.now }
    ensures { IfOk result (λ firsts. AreFirsts registers.now firsts.items) }
{
    let mut takers = vec![in alloc; None; gates]?;
    let mut firsts = Vec::new(alloc);
    for r in 0..registers.len() {
        let first = first_taker(&mut takers, registers, r as u32);
        firsts.push(first)?;
    }
    Ok(firsts)
}

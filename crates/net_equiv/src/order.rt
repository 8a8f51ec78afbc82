// The comparisons, in order.
ghost use Rattle.std.specs.Prelude.{◌≡◌, ◌<◌, ◌++◌, length, map, filter, IfOk, OnOk};
ghost use Rattle.std.specs.List.{range_with_len};
ghost use Rattle.net_equiv.specs.Comparing.{comparisons as comparisons_of, comparisons_in};
ghost use Rattle.net_equiv.specs.Comparing.{compare_output, compare_register, has_partner};
ghost use Rattle.net_equiv.specs.inner.Tabling.{AreTables};

use crate::answer::Comparison;
use crate::pairs::Partners;
use net_core::Netlist;
use pbs_base::Memory;
use std::alloc::Global;

/// All comparisons, in order.
pub(crate) fn comparisons(
    alloc: Global,
    a: &Netlist,
    partners: &Partners,
) -> Result<Vec<Comparison>, Memory>
    requires tables { AreTables partners.now }
    requires long { length partners.now.of_a.items ≡ length a.now.registers }
    ensures { IfOk result (λ order. order.items ≡ comparisons_of a.now partners.now.pairs.now) }
{
    let mut order = Vec::new(alloc);
    push_case(a, partners, true, &mut order)?;
    push_case(a, partners, false, &mut order)?;
    Ok(order)
}

fn push_case(
    a: &Netlist,
    partners: &Partners,
    reset: bool,
    order: &mut Vec<Comparison>,
) -> Result<(), Memory>
    requires tables { AreTables partners.now }
    requires long { length partners.now.of_a.items ≡ length a.now.registers }
    ensures { OnOk result (order.new.items ≡ order.old.items ++ comparisons_in a.now partners.now.pairs.now reset) }
{
    // For the proof alone: how many registers there may be is known where the netlist is read.
    let _ = a.gates();
    push_outputs(a.outputs().len(), reset, order)?;
    push_registers(a.registers().len(), partners, reset, order)
}

fn push_outputs(count: usize, reset: bool, order: &mut Vec<Comparison>) -> Result<(), Memory>
    requires { count < 4294967295 }
    ensures { OnOk result (order.new.items
        ≡ order.old.items ++ map (compare_output reset) (range_with_len 0 count)) }
{
    for n in 0..count {
        order.push(Comparison {
            reset,
            register: false,
            number: n as u32,
        })?;
    }
    Ok(())
}

fn push_registers(
    count: usize,
    partners: &Partners,
    reset: bool,
    order: &mut Vec<Comparison>,
) -> Result<(), Memory>
    requires few { count < 4294967295 }
    requires tables { AreTables partners.now }
    requires long { length partners.now.of_a.items ≡ count }
    ensures { OnOk result (order.new.items
        ≡ order.old.items ++ filter (has_partner partners.now.pairs.now) (map (compare_register reset) (range_with_len 0 count))) }
{
    for r in 0..count {
        if partners.partner(r as u32).is_some() {
            order.push(Comparison {
                reset,
                register: true,
                number: r as u32,
            })?;
        }
    }
    Ok(())
}

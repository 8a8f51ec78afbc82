// Rules 4 to 8, in their order, and the order of the gates.
ghost use Rattle.std.specs.Prelude.{◌≡◌, ◌<◌, ℕ, None, Some, map, length, IfOk, slice_get};
ghost use Rattle.vlog_text.specs.declared.raw.RawGate.{RawGate as GateItem};
ghost use Rattle.vlog_text.specs.Raw.{IsRaw};
ghost use Rattle.vlog_text.specs.Standing.{resolved, the_order};
ghost use Rattle.vlog_text.specs.Refusing.{first_broken, earliest, refusals, rule_6};
ghost use Rattle.vlog_names.specs.Numbers.{AreNumbers, capped_gate};
ghost use Rattle.vlog_elaborate.specs.inner.Ordered.{or_next};

use net_core::{Gate, Gates};
use pbs_base::{Memory, Refusal};
use std::alloc::Global;
use vlog_names::{Numbers, resolve};
use vlog_order::{check_order, order_gates};
use vlog_text::RawNetlist;

/// A raw netlist with what its names stand for, its gates by their places in the text, their order, and the first
/// broken rule.
#[derive(Drop)]
pub(crate) struct Checked {
    pub numbers: Numbers,
    pub gates: Gates,
    pub order: Vec<usize>,
    pub found: Option<Refusal>,
}

fn or_next(found: Option<Refusal>, next: Option<Refusal>) -> Option<Refusal>
    ensures { result ≡ or_next found next }
{
    match found {
        Some(refusal) => Some(refusal),
        None => next,
    }
}

/// The gates by their places in the text and their order, once rule 6 was looked at.
#[derive(Drop)]
struct Ordered {
    gates: Gates,
    order: Vec<usize>,
    late: Option<Refusal>,
}

// Rule 6, and the order of the gates.
fn order_all(alloc: Global, raw: &RawNetlist, numbers: &Numbers) -> Result<Ordered, Memory>
    requires raw { IsRaw raw.now }
    requires numbers { AreNumbers raw.now numbers.now }
    ensures gates { IfOk result (λ o.
        o.gates ≡ map (λ (g : GateItem). capped_gate (resolved raw.now g)) raw.now.gates) }
    ensures order { IfOk result (λ o. o.order.items ≡ the_order raw.now) }
    ensures late { IfOk result (λ o. o.late ≡ earliest None (refusals 6 (rule_6 raw.now))) }
{
    let gates = numbers.gates(alloc, raw.gates.as_slice())?;
    let order = order_text(alloc, raw, gates.as_slice())?;
    let late = check_order(alloc, raw.gates.as_slice(), &order)?;
    Ok(Ordered { gates, order, late })
}

/// Rules 4 to 8, and the order of the gates.
pub(crate) fn check(alloc: Global, raw: &RawNetlist) -> Result<Checked, Memory>
    requires { IsRaw raw.now }
    ensures numbers { IfOk result (λ c. AreNumbers raw.now c.numbers) }
    ensures gates { IfOk result (λ c.
        c.gates ≡ map (λ (g : GateItem). capped_gate (resolved raw.now g)) raw.now.gates) }
    ensures order { IfOk result (λ c. c.order.items ≡ the_order raw.now) }
    ensures found { IfOk result (λ c. c.found ≡ first_broken raw.now) }
{
    let resolved = resolve(alloc, raw)?;
    let ordered = order_all(alloc, raw, &resolved.numbers)?;
    let (by_name, by_driver) = (resolved.by_name, resolved.by_driver);
    let (late, clock, counts) = (ordered.late, resolved.by_clock, resolved.by_count);
    let found = first_of(by_name, by_driver, late, clock, counts);
    Ok(Checked {
        numbers: resolved.numbers,
        gates: ordered.gates,
        order: ordered.order,
        found,
    })
}

fn first_of(
    naming: Option<Refusal>,
    driving: Option<Refusal>,
    late: Option<Refusal>,
    clock: Option<Refusal>,
    counts: Option<Refusal>,
) -> Option<Refusal>
    ensures { result ≡ or_next (or_next (or_next (or_next naming driving) late) clock) counts }
{
    or_next(
        or_next(or_next(or_next(naming, driving), late), clock),
        counts,
    )
}

fn order_text(alloc: Global, raw: &RawNetlist, gates: &[Gate]) -> Result<Vec<usize>, Memory>
    requires raw { IsRaw raw.now }
    requires gates { gates.now ≡ map (λ (g : GateItem). capped_gate (resolved raw.now g)) raw.now.gates }
    ensures order { IfOk result (λ order. order.items ≡ the_order raw.now) }
    ensures there { IfOk result (λ order. (i n : ℕ) → slice_get order.items i ≡ Some n → n < length gates.now) }
{
    Ok(order_gates(alloc, gates)?)
}

// Rule 6: gates that are never taken.
ghost use Rattle.std.specs.Prelude.{◌≡◌, ◌≤◌, ◌<◌, ℕ, List, [], ◌∷◌, None, Some, true, false, drop, length, IfOk};
ghost use Rattle.std.specs.Prelude.{slice_get};
ghost use Rattle.vlog_text.specs.Orders.{is_among};
ghost use Rattle.vlog_text.specs.Refusing.{earliest, refusals, left_out, item_target};
ghost use Rattle.vlog_order.specs.inner.Queues.{marked};

use crate::order::none_taken;
use pbs_base::{Memory, Refusal, Subject};
use std::alloc::Global;
use vlog_text::{RawGate, RawName, Target};

// The gates of the order.
fn mark_taken(alloc: Global, count: usize, order: &[usize]) -> Result<Vec<bool>, Memory>
    requires { (i n : ℕ) → slice_get order.now i ≡ Some n → n < count }
    ensures long { IfOk result (λ taken. length taken.items ≡ count) }
    ensures taken { IfOk result (λ taken. (n : ℕ) → marked taken.items n ≡ is_among order.now n) }
{
    let mut taken = none_taken(alloc, count)?;
    for gate in order {
        taken[*gate] = true;
    }
    Ok(taken)
}

fn breach(name: &RawName) -> Option<Refusal>
    ensures { result ≡ earliest None (refusals 6 (name.now ∷ [])) }
{
    Some(Refusal {
        subject: Subject::Netlist,
        rule: 6,
        span: name.span,
    })
}

// The first gate that is never taken, or how many there are.
fn first_left(taken: &[bool]) -> usize
    ensures within { result ≤ length taken.now }
    ensures before { (k : ℕ) → k < result → marked taken.now k ≡ true }
    ensures at { result < length taken.now → marked taken.now result ≡ false }
{
    for n in 0..taken.len() {
        if !taken[n] {
            return n;
        }
    }
    taken.len()
}

// The first target that isn't inner, of the gates from this one on.
fn note_item(gates: &[RawGate], start: usize) -> Option<Refusal>
    requires { start ≤ length gates.now }
    ensures { result ≡ earliest None (refusals 6 (item_target (drop start gates.now))) }
{
    for n in start..gates.len() {
        if let Target::Name(name) = &gates[n].target {
            return breach(name);
        }
    }
    None
}

// A breach at the target of the item that has the first gate that is never taken.
fn check_taken(gates: &[RawGate], taken: &[bool]) -> Option<Refusal>
    requires { length taken.now ≡ length gates.now }
    ensures { (order : List ℕ) → ((n : ℕ) → marked taken.now n ≡ is_among order n)
        → result ≡ earliest None (refusals 6 (left_out order 0 gates.now)) }
{
    note_item(gates, first_left(taken))
}

/// Where rule 6 is broken first: the target of the item that has the first gate that the order leaves out.
pub fn check_order(
    alloc: Global,
    gates: &[RawGate],
    order: &[usize],
) -> Result<Option<Refusal>, Memory>
    requires { (i n : ℕ) → slice_get order.now i ≡ Some n → n < length gates.now }
    ensures { IfOk result (λ late. late ≡ earliest None (refusals 6 (left_out order.now 0 gates.now))) }
{
    let taken = mark_taken(alloc, gates.len(), order)?;
    Ok(check_taken(gates, &taken))
}

// Gates in an order in which each one's pins come first.

ghost use Rattle.std.specs.Prelude.{◌≡◌, ℕ, ◌<◌, Bool, true, false, [], length, replicate, IfOk, OnOk, IfSome};
ghost use Rattle.std.specs.Prelude.{IfNone, slice_get, slice_set};
ghost use Rattle.vlog_order.specs.declared.waiting.Waiter.{Waiter as WaiterValue};
ghost use Rattle.vlog_text.specs.Orders.{order_of};
ghost use Rattle.vlog_order.specs.Named.{AllNamed};
ghost use Rattle.vlog_order.specs.inner.Queues.{marked, SettledBetween, IsWaiter, IsQueue, Popped, without};
ghost use Rattle.vlog_order.specs.inner.Queues.{wakes};

use crate::waiting::{Waiter, Waiting};
use net_core::{Gate, Wire};
use std::alloc::{AllocError, Global};
use std::collections::BTreeSet;

/// A pin that isn't settled, and the gate that it names.
#[derive(Clone, Copy)]
struct Unsettled {
    pin: usize,
    gate: usize,
}

fn first_unsettled(pins: &[Wire], start: usize, taken: &[bool]) -> Option<Unsettled>
    requires { (i m : ℕ) → slice_get pins.now i ≡ Some (Wire.Gate m) → m < length taken.now }
    ensures none { IfNone result (SettledBetween (marked taken.now) pins.now start (length pins.now)) }
    ensures pin { IfSome result (λ found. slice_get pins.now found.pin ≡ Some (Wire.Gate found.gate)) }
    ensures free { IfSome result (λ found. marked taken.now found.gate ≡ false) }
    ensures before { IfSome result (λ found. SettledBetween (marked taken.now) pins.now start found.pin) }
{
    for i in start..pins.len() {
        if let Wire::Gate(gate) = pins[i] {
            let gate = gate as usize;
            if !taken[gate] {
                return Some(Unsettled { pin: i, gate });
            }
        }
    }
    None
}

pub(crate) fn none_taken(alloc: Global, count: usize) -> Result<Vec<bool>, AllocError>
    ensures { IfOk result (λ bits. bits.items ≡ replicate count false) }
{
    vec![in alloc; false; count]
}

// The waiter's gate goes among the ready ones, or waits for the first pin that isn't settled.
fn settle(
    gates: &[Gate],
    taken: &[bool],
    waiter: Waiter,
    ready: &mut BTreeSet<usize>,
    waiting: &mut Waiting,
) -> Result<(), AllocError>
    requires waiter { IsWaiter gates.now (marked taken.now) waiter }
    requires named { AllNamed (length gates.now) gates.now }
    requires marks { length taken.now ≡ length gates.now }
    requires lists { length waiting.old ≡ length gates.now }
    ensures { OnOk result ((pending : ℕ → Bool) → IsQueue gates.now (marked taken.now) ready.old waiting.old pending
        → IsQueue gates.now (marked taken.now) ready.new waiting.new (without pending waiter.gate)) }
{
    let pins = gates[waiter.gate].pins.as_slice();
    match first_unsettled(pins, waiter.pin, taken) {
        None => {
            ready.insert(waiter.gate)?;
        }
        Some(found) => {
            waiting.push(
                found.gate,
                Waiter {
                    gate: waiter.gate,
                    pin: found.pin,
                },
            )?;
        }
    }
    Ok(())
}

// Each of the waiters goes among the ready ones or waits again.
fn settle_all(
    gates: &[Gate],
    taken: &[bool],
    woken: &[Waiter],
    ready: &mut BTreeSet<usize>,
    waiting: &mut Waiting,
) -> Result<(), AllocError>
    requires waiters { (i : ℕ) (w : WaiterValue) → slice_get woken.now i ≡ Some w
        → IsWaiter gates.now (marked taken.now) w }
    requires named { AllNamed (length gates.now) gates.now }
    requires marks { length taken.now ≡ length gates.now }
    requires queue { IsQueue gates.now (marked taken.now) ready.old waiting.old (wakes woken.now) }
    ensures { OnOk result (IsQueue gates.now (marked taken.now) ready.new waiting.new (λ n. false)) }
{
    for waiter in woken {
        settle(gates, taken, *waiter, ready, waiting)?;
    }
    Ok(())
}

// All gates, before any is taken.
fn settle_each(
    gates: &[Gate],
    taken: &[bool],
    ready: &mut BTreeSet<usize>,
    waiting: &mut Waiting,
) -> Result<(), AllocError>
    requires named { AllNamed (length gates.now) gates.now }
    requires marks { taken.now ≡ replicate (length gates.now) false }
    requires empty { ready.old.keys ≡ [] }
    requires lists { waiting.old ≡ replicate (length gates.now) [] }
    ensures { OnOk result (IsQueue gates.now (marked taken.now) ready.new waiting.new (λ n. false)) }
{
    for gate in 0..gates.len() {
        settle(gates, taken, Waiter { gate, pin: 0 }, ready, waiting)?;
    }
    Ok(())
}

/// The numbers of the gates in the order in which they are taken; those that are never taken are left out.
pub fn order_gates(alloc: Global, gates: &[Gate]) -> Result<Vec<usize>, AllocError>
    requires { AllNamed (length gates.now) gates.now }
    ensures { IfOk result (λ order. order.items ≡ order_of gates.now) }
{
    let mut taken = none_taken(alloc, gates.len())?;
    let mut ready = BTreeSet::new(alloc);
    let mut waiting = Waiting::new(alloc, gates.len())?;
    settle_each(gates, &taken, &mut ready, &mut waiting)?;
    let mut order = Vec::new(alloc);
    for _ in 0..gates.len() {
        let Some(gate) = ready.pop_first() else {
            return Ok(order);
        };
        take(alloc, gates, gate, &mut taken, &mut ready, &mut waiting)?;
        order.push(gate)?;
    }
    Ok(order)
}

// The gate, which left the ready ones, is taken.
fn take(
    alloc: Global,
    gates: &[Gate],
    gate: usize,
    taken: &mut [bool],
    ready: &mut BTreeSet<usize>,
    waiting: &mut Waiting,
) -> Result<(), AllocError>
    requires named { AllNamed (length gates.now) gates.now }
    requires marks { length taken.old ≡ length gates.now }
    requires popped { Popped gates.now (marked taken.old) ready.old waiting.old gate }
    ensures taken { taken.new ≡ slice_set taken.old gate true }
    ensures queue { OnOk result (IsQueue gates.now (marked taken.new) ready.new waiting.new (λ n. false)) }
{
    taken[gate] = true;
    let woken = waiting.take(alloc, gate);
    settle_all(gates, taken, &woken, ready, waiting)
}

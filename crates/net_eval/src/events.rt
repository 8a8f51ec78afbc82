// Which gates a row has to look at, and their new values.
ghost use Rattle.std.specs.Prelude.{◌≡◌, ℕ, ◌<◌, ◌≤◌, ◌+◌, ◌*◌, ◌&&◌, Bool, List, length, true};
ghost use Rattle.net_core.specs.Rows.{IsRow, Row};
ghost use Rattle.net_core.specs.Circuits.{IsCircuit, IsThere};
ghost use Rattle.net_eval.specs.Readers.{is_wire};
ghost use Rattle.net_eval.specs.Counts.{changed_count};
ghost use Rattle.net_eval.specs.inner.Marks.{Awaits, IsClear, Looks, Wakes, is_marked, of_inputs, of_registers};
ghost use Rattle.net_eval.specs.States.{begun_row};

use crate::flat::FlatNetlist;
use crate::gates::{Begun, gate_now};
use crate::marks::{mark_each, next_marked, unmark};
use net_core::Wire;

// Marks the gates that have the wire as a pin.
fn wake(net: &FlatNetlist, words: &mut [u64], wire: Wire)
    requires there { IsThere 64 (length net.now.registers) (length net.now.gates) wire }
    requires long { length net.now.gates ≤ 64 * length words.old }
    ensures { Wakes net.now.gates words.old words.new (is_wire wire) }
{
    mark_each(words, net.readers(wire));
}

// Marks the gates that have the wire as a pin, where it changed.
fn wake_if(net: &FlatNetlist, words: &mut [u64], wire: Wire, changed: bool)
    requires there { IsThere 64 (length net.now.registers) (length net.now.gates) wire }
    requires long { length net.now.gates ≤ 64 * length words.old }
    ensures { Wakes net.now.gates words.old words.new (λ w. changed && is_wire wire w) }
{
    if changed {
        wake(net, words, wire);
    }
}

fn wake_inputs(net: &FlatNetlist, words: &mut [u64], before: u64, now: u64)
    requires long { length net.now.gates ≤ 64 * length words.old }
    ensures { Wakes net.now.gates words.old words.new (of_inputs before now 64) }
{
    let changed = before ^ now;
    for n in 0..64u8 {
        let rest = changed >> n;
        if rest == 0 {
            return;
        }
        wake_if(net, words, Wire::Input(n), rest % 2 == 1);
    }
}

fn wake_registers(net: &FlatNetlist, words: &mut [u64], before: &[bool], now: &[bool])
    requires few { length net.now.registers < 4294967295 }
    requires before { length before.now ≡ length net.now.registers }
    requires now { length now.now ≡ length net.now.registers }
    requires long { length net.now.gates ≤ 64 * length words.old }
    ensures { Wakes net.now.gates words.old words.new (of_registers before.now now.now (length net.now.registers)) }
{
    for n in 0..now.len() {
        let changed = before[n] != now[n];
        wake_if(net, words, Wire::Reg(n as u32), changed);
    }
}

// Marks the gates that have a pin, other than a gate, whose value changed.
fn wake_changed(net: &FlatNetlist, words: &mut [u64], before: &Begun, now: &Begun)
    requires circuit { IsCircuit net.now }
    requires before { length before.now.registers.now ≡ length net.now.registers }
    requires now { length now.now.registers.now ≡ length net.now.registers }
    requires long { length net.now.gates ≤ 64 * length words.old }
    requires clear { IsClear (length net.now.gates) words.old }
    ensures { (gates : List Bool)
        → Awaits net.now.gates words.new (begun_row before.now gates) (begun_row now.now gates) }
{
    wake_if(net, words, Wire::Reset, before.reset != now.reset);
    wake_inputs(net, words, before.inputs, now.inputs);
    wake_registers(net, words, before.registers, now.registers);
}

// Gives a marked gate its new value, and marks the gates that read it where that is another.
fn look_at(net: &FlatNetlist, row: &Begun, words: &mut [u64], gates: &mut [bool], n: usize)
    requires circuit { IsCircuit net.now }
    requires registers { length row.now.registers.now ≡ length net.now.registers }
    requires gates { length gates.old ≡ length net.now.gates }
    requires long { length net.now.gates ≤ 64 * length words.old }
    requires there { n < length net.now.gates }
    ensures { (before : Row) (count : ℕ) → is_marked words.old n ≡ true
        → Looks net.now.gates before (begun_row row.now gates.old) words.old n count
        → Looks net.now.gates before (begun_row row.now gates.new) words.new (n + 1) (count + 1) }
{
    unmark(words, n);
    let output = gate_now(net, row, gates, n);
    let changed = output != gates[n];
    gates[n] = output;
    wake_if(net, words, Wire::Gate(n as u32), changed);
}

// Gives the marked gates and those that they change their new values, and answers how many there were.
fn settle_waiting(net: &FlatNetlist, row: &Begun, words: &mut [u64], gates: &mut [bool]) -> u64
    requires circuit { IsCircuit net.now }
    requires registers { length row.now.registers.now ≡ length net.now.registers }
    requires gates { length gates.old ≡ length net.now.gates }
    requires long { length net.now.gates ≤ 64 * length words.old }
    requires few { length words.old < 4294967296 }
    ensures row { (before : Row) → IsRow net.now.gates before
        → Looks net.now.gates before (begun_row row.now gates.old) words.old 0 0
        → IsRow net.now.gates (begun_row row.now gates.new) }
    ensures clear { (before : Row) → IsRow net.now.gates before
        → Looks net.now.gates before (begun_row row.now gates.old) words.old 0 0
        → IsClear (length net.now.gates) words.new }
    ensures count { (before : Row) → IsRow net.now.gates before
        → Looks net.now.gates before (begun_row row.now gates.old) words.old 0 0
        → result ≡ changed_count before (begun_row row.now gates.new) net.now.gates }
{
    let end = gates.len();
    let mut count = 0;
    let mut n = next_marked(words, 0);
    while n < end {
        look_at(net, row, words, gates, n);
        count += 1;
        n = next_marked(words, n + 1);
    }
    count
}

/// Gives all gates their values in a row that follows another one, and answers of how many some pin changed.
pub(crate) fn resettle(
    net: &FlatNetlist,
    before: &Begun,
    row: &Begun,
    words: &mut [u64],
    gates: &mut [bool],
) -> u64
    requires circuit { IsCircuit net.now }
    requires old { length before.now.registers.now ≡ length net.now.registers }
    requires new { length row.now.registers.now ≡ length net.now.registers }
    requires gates { length gates.old ≡ length net.now.gates }
    requires long { length net.now.gates ≤ 64 * length words.old }
    requires few { length words.old < 4294967296 }
    requires clear { IsClear (length net.now.gates) words.old }
    requires before { IsRow net.now.gates (begun_row before.now gates.old) }
    ensures row { IsRow net.now.gates (begun_row row.now gates.new) }
    ensures clear { IsClear (length net.now.gates) words.new }
    ensures count { result
        ≡ changed_count (begun_row before.now gates.old) (begun_row row.now gates.new) net.now.gates }
{
    wake_changed(net, words, before, row);
    settle_waiting(net, row, words, gates)
}

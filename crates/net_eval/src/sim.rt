// The simulator.
ghost use Rattle.std.specs.Prelude.{◌≡◌, ℕ, ◌<◌, ◌≤◌, ◌*◌, false, true, length, replicate, IfOk, slice_index_or};
ghost use Rattle.net_core.specs.Rows.{IsRow, value};
ghost use Rattle.net_core.specs.Circuits.{AllThere, IsCircuit, output_gate, wire_at};
ghost use Rattle.net_eval.specs.Counts.{Evaluates, HasNoRow, evaluated_in};
ghost use Rattle.net_eval.specs.inner.Marks.{IsClear};
ghost use Rattle.net_eval.specs.States.{IsFresh, Steps, begun_row, row_of};

use crate::events::resettle;
use crate::flat::FlatNetlist;
use crate::gates::{Begun, settle, wire_value};
use net_core::{Netlist, Wire};
use pbs_base::Memory;
use std::alloc::Global;
use std::marker::Model;
use std::mem;

/// Whether there was a row, and its reset bit and its inputs.
#[derive(Clone, Copy)]
pub struct Past {
    pub begun: bool,
    pub reset: bool,
    pub inputs: u64,
}

/// A netlist, the values of its registers, and those of its gates in the last row. A step evaluates a gate only where
/// one of its pins has another value than in the row before.
#[derive(Drop)]
pub struct Sim<'a> {
    net: FlatNetlist<'a>,
    /// The registers after the last row, and those before it.
    regs: Vec<bool>,
    spare: Vec<bool>,
    gates: Vec<bool>,
    /// The gates that are still to be evaluated, one bit for each.
    waiting: Vec<u64>,
    past: Past,
    evaluated: u64,
}

impl<'a> Model for Sim<'a> {
    ghost use Rattle.net_eval.specs.States.{State, state_of};
    ghost use Rattle.net_eval.specs.inner.Marks.{IsQuiet};

    ghost Value = { State };

    ghost view = { λ s. state_of s.net s.regs.items s.gates.items s.spare.items s.past s.evaluated };

    ghost invariant = { λ s.
        IsQuiet (state_of s.net s.regs.items s.gates.items s.spare.items s.past s.evaluated) s.waiting.items };
}

impl<'a> Sim<'a> {
    /// Before row 0: all registers and all outputs are 0.
    pub fn new(alloc: Global, net: &'a Netlist) -> Result<Sim<'a>, Memory>
        ensures net { IfOk result (λ sim. sim.net ≡ net.now) }
        ensures fresh { IfOk result (λ sim. IsFresh sim) }
        ensures evaluated { IfOk result (λ sim. HasNoRow sim) }
    {
        let gates = zeros(alloc, net.gates().len())?;
        let regs = zeros(alloc, net.registers().len())?;
        let spare = zeros(alloc, net.registers().len())?;
        let waiting = no_marks(alloc, net.gates().len())?;
        let net = FlatNetlist::new(alloc, net)?;
        Ok(Sim {
            net,
            regs,
            spare,
            gates,
            waiting,
            past: Past {
                begun: false,
                reset: false,
                inputs: 0,
            },
            evaluated: 0,
        })
    }

    /// Makes one row, after which the registers have their next values.
    pub fn step(&mut self, rst: bool, inputs: u64)
        ensures steps { Steps self.old self.new rst inputs }
        ensures evaluated { Evaluates self.old self.new rst inputs }
    {
        let row = &Begun {
            registers: &self.regs,
            reset: rst,
            inputs,
        };
        self.evaluated = settle_row(
            &self.net,
            self.past,
            &self.spare,
            row,
            &mut self.waiting,
            &mut self.gates,
        );
        clock(self.net.registers(), row, &self.gates, &mut self.spare);
        mem::swap(&mut self.regs, &mut self.spare);
        self.past = Past {
            begun: true,
            reset: rst,
            inputs,
        };
    }

    /// How many gates the last step evaluated: 0 before the first, all in it, and later those of which some pin has
    /// another value than in the row before.
    pub fn evaluated(&self) -> u64
        ensures { result ≡ self.now.evaluated }
    {
        self.evaluated
    }

    /// Output n in the last row, 0 before the first.
    pub fn output(&self, n: usize) -> bool
        requires { n < length self.now.net.outputs }
        ensures { result ≡ slice_index_or self.now.gates (output_gate self.now.net n) false }
    {
        self.gates[self.net.outputs()[n].gate as usize]
    }
}

// Gives all gates their values in a row that follows the last one, where there was one, and answers how many were
// evaluated.
fn settle_row(
    net: &FlatNetlist,
    past: Past,
    last: &[bool],
    row: &Begun,
    words: &mut [u64],
    gates: &mut [bool],
) -> u64
    requires circuit { IsCircuit net.now }
    requires old { length last.now ≡ length net.now.registers }
    requires new { length row.now.registers.now ≡ length net.now.registers }
    requires gates { length gates.old ≡ length net.now.gates }
    requires long { length net.now.gates ≤ 64 * length words.old }
    requires few { length words.old < 4294967296 }
    requires clear { IsClear (length net.now.gates) words.old }
    requires before { past.begun ≡ true → IsRow net.now.gates (row_of last.now past.reset past.inputs gates.old) }
    ensures row { IsRow net.now.gates (begun_row row.now gates.new) }
    ensures clear { IsClear (length net.now.gates) words.new }
    ensures count { result ≡ evaluated_in past.begun (row_of last.now past.reset past.inputs gates.old)
        (begun_row row.now gates.new) net.now.gates }
{
    if past.begun {
        let before = &Begun {
            registers: last,
            reset: past.reset,
            inputs: past.inputs,
        };
        return resettle(net, before, row, words, gates);
    }
    settle(net, row, gates);
    gates.len() as u64
}

// Words in which none of so many gates is marked.
fn no_marks(alloc: Global, gates: usize) -> Result<Vec<u64>, Memory>
    requires { gates < 4294967295 }
    ensures long { IfOk result (λ words. gates ≤ 64 * length words.items) }
    ensures few { IfOk result (λ words. length words.items < 4294967296) }
    ensures clear { IfOk result (λ words. IsClear gates words.items) }
{
    let mut words = Vec::new(alloc);
    for _ in 0..gates / 64 + 1 {
        words.push(0)?;
    }
    Ok(words)
}

fn zeros(alloc: Global, n: usize) -> Result<Vec<bool>, Memory>
    ensures { IfOk result (λ bits. bits.items ≡ replicate n false) }
{
    let mut bits = Vec::new(alloc);
    for _ in 0..n {
        bits.push(false)?;
    }
    Ok(bits)
}

// The next values of all registers.
fn clock(wires: &[Wire], row: &Begun, gates: &[bool], next: &mut [bool])
    requires there { AllThere 64 (length row.now.registers.now) (length gates.now) wires.now }
    requires long { length next.old ≡ length wires.now }
    ensures { (r : ℕ) → r < length wires.now
        → slice_index_or next.new r false
        ≡ value (begun_row row.now gates.now) (wire_at wires.now r) }
{
    for r in 0..wires.len() {
        let bit = wire_value(wires[r], row, gates);
        next[r] = bit;
    }
}

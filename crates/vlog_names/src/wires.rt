// What names stand for.
ghost use Rattle.std.specs.Prelude.{◌≡◌, ◌<◌, ℕ, IfOk, Some, map, min, unwrap_or};
ghost use Rattle.vlog_text.specs.declared.raw.RawNetlist.{RawNetlist as Net};
ghost use Rattle.vlog_text.specs.declared.raw.RawPin.{RawPin as PinItem};
ghost use Rattle.vlog_text.specs.declared.raw.RawGate.{RawGate as GateItem};
ghost use Rattle.vlog_text.specs.Standing.{word_wire, pin_wire, resolved};
ghost use Rattle.vlog_names.specs.Numbers.{AreFew, AreNumbers, always_in, capped, capped_gate, driver_in};
ghost use Rattle.vlog_names.specs.Numbers.{names_input, names_output};

use crate::firsts::Firsts;
use crate::kinds::{KindTable, is_plain};
use net_core::{Gate, Gates, Pins, Wire};
use pbs_base::{Memory, Word};
use std::alloc::Global;
use vlog_text::{RawGate, RawPin};

/// The numbers of inputs and registers, and the gates and the `always` that drive names, by their places in the text.
#[derive(Drop)]
pub struct Numbers {
    pub(crate) kinds: KindTable,
    pub(crate) inputs: Firsts,
    pub(crate) registers: Firsts,
    pub(crate) gates: Firsts,
    pub(crate) regs: Firsts,
}

fn number(found: Option<usize>) -> u32
    requires { (n : ℕ) → found ≡ Some n → n < 4294967296 }
    ensures { result ≡ unwrap_or found 0 }
{
    match found {
        Some(n) => n as u32,
        None => 0,
    }
}

fn input_number(found: Option<usize>) -> u8
    ensures { result ≡ min (unwrap_or found 0) 255 }
{
    match found {
        Some(n) => n.min(255) as u8,
        None => 0,
    }
}

impl Numbers {
    /// Whether the word is an input other than `clk` and `rst`.
    pub fn is_input(&self, word: &Word) -> bool
        ensures { result ≡ names_input self.now word.now }
    {
        is_plain(self.kinds.of(word), word)
    }

    pub fn is_output(&self, word: &Word) -> bool
        ensures { result ≡ names_output self.now word.now }
    {
        self.kinds.of(word).output
    }

    /// The gate that drives the word, 0 where none does.
    pub fn driver(&self, word: &Word) -> usize
        ensures { result ≡ driver_in self.now word.now }
    {
        match self.gates.find(word) {
            Some(first) => first,
            None => 0,
        }
    }

    /// The `always` that drives the word.
    pub fn always(&self, word: &Word) -> Option<usize>
        ensures { result ≡ always_in self.now word.now }
    {
        self.regs.find(word)
    }

    /// What the word stands for; a gate by its place in the text.
    pub fn wire(&self, word: &Word) -> Wire
        requires { AreFew self.now }
        ensures { (raw : Net) → AreNumbers raw self.now → result ≡ capped (word_wire raw word.now) }
    {
        let kinds = self.kinds.of(word);
        if is_plain(kinds, word) {
            Wire::Input(input_number(self.inputs.find(word)))
        } else if kinds.input {
            Wire::Reset
        } else if kinds.reg {
            Wire::Reg(number(self.registers.find(word)))
        } else {
            Wire::Gate(number(self.gates.find(word)))
        }
    }

    /// What a pin reads.
    pub fn pin(&self, pin: &RawPin) -> Wire
        requires { AreFew self.now }
        ensures { (raw : Net) → AreNumbers raw self.now → result ≡ capped (pin_wire raw pin.now) }
    {
        match pin {
            RawPin::Const(value) => Wire::Const(*value),
            RawPin::Name(name) => self.wire(&name.word),
            RawPin::Prior(n) => Wire::Gate(*n),
        }
    }

    fn gate(&self, alloc: Global, gate: &RawGate) -> Result<Gate, Memory>
        requires { AreFew self.now }
        ensures { IfOk result (λ g. (raw : Net) → AreNumbers raw self.now → g ≡ capped_gate (resolved raw gate.now)) }
    {
        let mut pins = Pins::new(alloc);
        for pin in gate.pins.as_slice() {
            pins.push(self.pin(pin))?;
        }
        Ok(Gate {
            kind: gate.kind,
            pins,
        })
    }

    /// The gates in the order of the text.
    pub fn gates(&self, alloc: Global, gates: &[RawGate]) -> Result<Gates, Memory>
        requires { AreFew self.now }
        ensures { IfOk result (λ all. (raw : Net) → AreNumbers raw self.now
            → all ≡ map (λ (g : GateItem). capped_gate (resolved raw g)) gates.now) }
    {
        let mut all = Gates::new(alloc);
        for gate in gates {
            all.push(self.gate(alloc, gate)?)?;
        }
        Ok(all)
    }
}

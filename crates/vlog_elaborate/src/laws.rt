//! What a raw netlist stands for is a circuit: a caller gets this as a clause of a call.
ghost use Rattle.std.specs.Prelude.{◌≡◌, None};
ghost use Rattle.net_core.specs.Circuits.{IsCircuit};
ghost use Rattle.vlog_text.specs.declared.raw.RawNetlist.{RawNetlist};
ghost use Rattle.vlog_text.specs.Raw.{IsRaw};
ghost use Rattle.vlog_text.specs.Refusing.{first_broken};
ghost use Rattle.vlog_text.specs.Standing.{net_of};

/// The netlist of a raw netlist that breaks no rule is a circuit: within the limits, and with its gates in an order.
pub fn unbroken_is_circuit()
    ensures { (raw : RawNetlist) → IsRaw raw → first_broken raw ≡ None → IsCircuit (net_of raw) }
{}

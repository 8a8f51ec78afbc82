//! The laws that what is written for a netlist reads back, and that it is short where the netlist is small.

ghost use Rattle.std.specs.Prelude.{◌≤◌, length};
ghost use Rattle.net_core.specs.Circuits.{Circuit, IsBuilt, IsCircuit};
ghost use Rattle.vlog_text.specs.Emitted.{emitted};
ghost use Rattle.vlog_text.specs.PortNames.{HasPortNames};
ghost use Rattle.vlog_text.specs.Reading.{IsShortVerilog, ElaboratesTo};
ghost use Rattle.vlog_write.specs.NamedPins.{HasShortNames, named_pins};

/// What is written for a netlist whose ports have such names is read as the same netlist, where the text is short
/// enough.
pub fn written_reads_back()
    ensures { (c : Circuit) → IsCircuit c → HasPortNames c → IsShortVerilog (emitted c) → ElaboratesTo (emitted c) c }
{}

/// The text is short enough where the netlist is built, its ports have short names, and it has few gates and registers
/// and few pins that are written with the name of a port.
pub fn built_text_is_short()
    ensures { (c : Circuit) → IsCircuit c → IsBuilt c.gates → HasPortNames c → HasShortNames c
        → length c.gates ≤ 1185792 → length c.registers ≤ 4160 → named_pins c ≤ 33000 → IsShortVerilog (emitted c) }
{}

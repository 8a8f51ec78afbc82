//! Tests of reading and writing netlists as Verilog. Each expected value is worked out from docs/VERILOG.md by hand.
#![tactic(auto)]

#[cfg(test)]
mod forms;
#[cfg(test)]
mod handshake;
#[cfg(test)]
mod readings;
#[cfg(test)]
mod sizes;
#[cfg(test)]
mod texts;
#[cfg(test)]
mod written;

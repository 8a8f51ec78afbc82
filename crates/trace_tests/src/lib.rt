//! Tests of the reader of traces. Each expected value is worked out by hand from docs/FORMATS.md.
#![tactic(auto)]

#[cfg(test)]
mod calls;
#[cfg(test)]
mod cuts;
#[cfg(test)]
mod lengths;
#[cfg(test)]
mod names;
#[cfg(test)]
mod pieces;
#[cfg(test)]
mod ports;

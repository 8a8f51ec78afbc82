//! Tests of the calls of the lowest crates, of the reader of rows, and of `run` where memory is wanting or nothing
//! outside fails. Each expected value is worked out by hand or stands in docs/.
#![tactic(auto)]

#[cfg(test)]
mod files;
#[cfg(test)]
mod memory;
#[cfg(test)]
mod outside;
#[cfg(test)]
mod reports;
#[cfg(test)]
mod rows;
#[cfg(test)]
mod statuses;
#[cfg(test)]
mod values;

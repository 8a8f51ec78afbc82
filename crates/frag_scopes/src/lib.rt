//! The gates of holds and of aborts.
#![tactic(auto)]

mod aborts;
mod holds;

pub use aborts::{Down, Up, abort_down, abort_up, when};
pub use holds::hold_gates;

//! The order of gates, and rule 6, which is broken where a gate has no place in it; and gates put in that order.
#![tactic(auto)]

mod moving;
mod numbers;
mod order;
mod taken;
mod waiting;

pub use moving::{places, reorder};
pub use numbers::{place_of, renumber};
pub use order::order_gates;
pub use taken::check_order;

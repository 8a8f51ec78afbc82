//! The words in which the rules on specifications are stated, for the checks and for the expansion: declared names, the
//! forms of expressions and what stands in them, what may be empty; and the declared names by their numbers.
#![tactic(auto)]

mod buses;
mod index;
mod names;

pub use buses::{Bus, find_bus, input_count};
pub use index::{Index, Numbers, body_of};
pub use names::{action_words, bit_word, input_words, level_words, prod_words};

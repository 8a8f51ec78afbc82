//! What every crate of the project shares: spans, refusals, words and lists, and the entries of a run.
#![tactic(auto)]

mod entry;
mod fail;
mod listed;
mod names;
mod refusal;
mod word;

pub use entry::Entry;
pub use fail::Memory;
pub use listed::Listed;
pub use names::Names;
pub use refusal::{Refusal, Span, Subject};
pub use word::Word;

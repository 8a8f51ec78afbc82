//! The outside of the program: a shelf of named files that is read and a sink that is written, with the devices
//! themselves and their stand-ins in memory.
#![tactic(auto)]

mod cabinet;
mod calls;
mod calm;
mod fail;
mod mem_shelf;
mod mem_sink;
mod named;
mod outside;
mod read;
mod real;
mod refusal;
mod write;

pub use calm::{CalmShelf, CalmSink};
pub use fail::Failed;
pub use mem_shelf::MemShelf;
pub use mem_sink::MemSink;
pub use named::load;
pub use outside::{Shelf, Sink};
pub use read::{ReadFail, read_all, read_front};
pub use real::{FileShelf, StdSink};
pub use refusal::write_refusal;
pub use write::{WriteFail, write_all, write_pieces};

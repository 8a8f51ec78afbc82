//! The commands over bytes: what a specification or a netlist does with a trace.
#![tactic(auto)]

mod compiling;
mod controller;
mod fail;
mod front;
pub mod laws;
mod mapping;
mod migrating;
mod simulating;
mod soaking;
mod tracing;

pub use compiling::compile;
pub use fail::EngineFail;
pub use front::check;
pub use mapping::map;
pub use migrating::migrate;
pub use net_trace::RunFail;
pub use simulating::sim;
pub use soaking::soak;
pub use tracing::trace;

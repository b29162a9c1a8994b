//! The outside of a program, as traits: where its input comes from, where its output goes, and
//! the gate before each turn of a worker.
//!
//! A [`Source`] and a [`Sink`] each have a count of faults that never falls. Code that is generic
//! over them cannot raise it, so that a clause "`Failed` only where the count rose in this call"
//! refuses a body that gives up by itself.
#![tactic(auto)]

mod adapters;
mod faults;
mod gate;
mod memory_sink;
mod memory_source;
mod plan;
mod sink;
mod source;

pub use adapters::{Reading, Writing};
pub use faults::{Failed, InFault};
pub use gate::{Gate, OpenGate};
pub use memory_sink::{MemSink, SureSink};
pub use memory_source::{MemSource, SureSource};
pub use sink::{Sink, write_all};
pub use source::{Source, read_all};

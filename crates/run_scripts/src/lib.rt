//! What is read and written around a run: schedules, scripts and their play on a core, drawn runs and evictions, journals, and the report of
//! a state; and sources that are made of numbers.
#![tactic(auto)]

pub mod bounds;
pub mod draw;
pub mod events;
pub mod evictor;
pub mod few;
pub mod generated;
pub mod journal;
pub mod laws;
mod number;
mod piece;
pub mod play;
pub mod report;
pub mod rounds;
pub mod runs;
pub mod schedule;
pub mod script;

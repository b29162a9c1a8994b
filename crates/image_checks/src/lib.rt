//! Whether a run of its source can have left an image: its bytes against the source's compiled form.
#![tactic(auto)]

mod bank;
pub mod error;
mod keys;
pub mod laws;
mod limits;
mod logs;
mod mutexes;
pub mod references;
mod schedules;
mod slots;
pub mod state;
mod threads;
mod writes;

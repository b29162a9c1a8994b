//! A machine of several harts over one memory: its start, its state after a crash, and what each event does. An
//! event takes constant time (a crash as much as has changed since the last one) and no memory.
#![tactic(auto)]

mod harts;
pub mod machine;
mod running;
pub mod signs;

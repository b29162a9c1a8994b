//! The life of a compiled object: the machine that runs it, the journal of its events, and the account of the steps
//! of the source that it has begun and kept. An event takes constant time (amortized) and no memory.
#![tactic(auto)]

mod account;
mod counts;
mod earlier;
mod journal;
pub mod life;
pub mod local;
mod marks;
mod points;
mod sections;
mod stepping;

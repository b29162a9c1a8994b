//! What is asked of a machine of several harts, and what it replies: its events, its replies, and what a core is that takes
//! them. Whatever stands on a machine speaks of it in these words.
#![tactic(auto)]

pub mod event;
pub mod evictions;
pub mod machine;

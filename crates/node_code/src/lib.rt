//! The code of what the nodes of a flow graph do, wherever it stands in a thread's linked code.
//!
//! What a piece does is said of every place where it stands and every linking of the items it is among: from which registers it
//! leads where, what is observed, its marks, its resume addresses, and how many words it takes at most.
#![tactic(auto)]

mod boundaries;
mod calls;
mod evaluation;
mod items;
mod jumps;
mod kept;
pub mod laws;
mod stores;

pub use boundaries::push_boundary;
pub use calls::{push_end, push_lock, push_unlock};
pub use evaluation::{push_choice, push_computing, push_plain_write, push_unmarked};
pub use jumps::{push_branch, push_jump};
pub use kept::{Kept, KeptLocks};
pub use stores::push_store;

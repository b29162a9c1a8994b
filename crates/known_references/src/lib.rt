//! References in runs: which aren't null where a thread stands, by the block of an `if` in which its node is, whatever the thread has left to do; and
//! that those in durable memory lead to elements.
//!
//! What is left to do says only which references are followed later; an image's words are looked at by the node.
#![tactic(auto)]

pub mod laws;

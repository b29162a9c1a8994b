//! What the code of a thread is, said once: what its registers hold at each node of its flow graph, what the code of each node does,
//! and where it can be resumed. All proofs about running threads stand on this, and look at no instruction.
#![tactic(auto)]

pub mod laws;

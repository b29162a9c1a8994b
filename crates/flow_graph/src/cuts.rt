//! Boundaries of a graph.

/// Where the code of threads can be resumed: of each node whether a boundary stands before it, and whether one stands after
/// it, which counts where the node takes a lock.
#[derive(Drop)]
pub struct Cuts {
    pub before: Vec<bool>,
    pub after_lock: Vec<bool>,
}

//! What a leg begins with.
use std::snapshot::Snapshot;

/// What a leg begins with.
#[derive(Drop)]
pub(crate) struct Start<C, V> {
    pub(crate) core: Snapshot<C>,
    pub(crate) evict: Snapshot<Option<V>>,
    /// Events at most that a worker makes.
    pub(crate) turns: u64,
    /// Events at most that the core has had.
    pub(crate) moment: u64,
}

//! A gate before each turn of a worker.

/// Called before each turn of each worker, so that a test can hold workers back.
pub trait Gate {
    /// Returns when the worker of this hart may make its turn. Turns count from 1.
    fn pass(&self, hart: u32, turn: u64);
}

/// A gate that is always open.
#[derive(Clone, Copy, Debug, Default)]
pub struct OpenGate;

impl Gate for OpenGate {
    fn pass(&self, _hart: u32, _turn: u64) {}
}

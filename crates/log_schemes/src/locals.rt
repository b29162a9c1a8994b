//! Where the locals of a thread stand.

/// Where the locals of a thread stand, from one node of its code to the next.
#[derive(Clone, Copy, Debug, PartialEq, Eq, Drop)]
pub enum Locals {
    /// In registers, which a bank keeps.
    Registers,
    /// In words of the thread's log, which nothing but its own code writes. Each assignment of a section is logged as a write.
    Frame,
}

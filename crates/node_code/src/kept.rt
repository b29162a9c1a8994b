//! What a boundary keeps.
ghost use Rattle.std.specs.Prelude.{◌≡◌, ℕ, List};
ghost use Rattle.boundary_code.specs.Boundaries.{is_empty};
ghost use Rattle.node_code.specs.Pieces.{MayKeep};

use boundary_code::Written;
use log_schemes::log::Log;
use rv64_isa::field::Register;
use rv64_isa::instr::Instr;

/// The locks that are held after a boundary, as it writes them. Where there is none, it ends a section.
#[derive(Clone, Copy)]
pub enum KeptLocks<'a> {
    /// In a log that keeps a mask: bit i for mutex i.
    Mask(u64),
    /// In a log that lists locks: of each of them code that leaves its number in x5, in the list's order.
    Numbers(&'a [Vec<Instr>]),
}

impl KeptLocks<'_> {
    /// Whether no lock is kept.
    pub(crate) fn is_none(self) -> bool
        ensures { (locks : List ℕ) → MayKeep self.entry locks → result ≡ is_empty locks }
    {
        match self {
            KeptLocks::Mask(mask) => mask == 0,
            KeptLocks::Numbers(numbers) => numbers.is_empty(),
        }
    }
}

/// What a boundary keeps of a thread, so that it may be resumed after it.
#[derive(Clone, Copy)]
pub struct Kept<'a> {
    /// How the thread logs.
    pub log: Log,
    /// The number of the thread, below 8.
    pub thread: u32,
    /// The locks that it holds then.
    pub locks: KeptLocks<'a>,
    /// The registers that are live after it, each that of a local or one of the pending store.
    pub live: &'a [Register],
    /// What it says of the write that comes next.
    pub written: Written,
}

//! What an instruction does, apart from memory and locks.
use rv64_isa::field::Register;
use rv64_isa::instr::{LoadKind, StoreKind};

/// What an instruction does, by its operands. What it reads from registers it has read already.
#[derive(Clone, Copy, Drop)]
pub enum Effect {
    /// Writes a register, and goes on at the pc.
    Writes {
        register: Register,
        value: u64,
        pc: u64,
    },
    /// Goes on at the pc.
    Goes {
        pc: u64,
    },
    /// Loads into a register.
    Loads {
        kind: LoadKind,
        address: u64,
        register: Register,
    },
    /// Stores the low bytes of a value.
    Stores {
        kind: StoreKind,
        address: u64,
        value: u64,
    },
    /// Cleans the line of an address.
    Cleans {
        address: u64,
    },
    /// Waits for all that was cleaned.
    Fences,
    /// Calls, by x17 and x10.
    Calls,
}

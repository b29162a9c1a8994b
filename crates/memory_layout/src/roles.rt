//! The part of each register in a thread's code.
ghost use Rattle.std.specs.Prelude.{◌≡◌};
ghost use Rattle.memory_layout.specs.Roles.{is_temporary, is_local};

/// x3: how far the point's bank lies after the first bank.
pub const BANK_OFFSET: u8 = 3;

/// x10: the lock that a call names.
pub const LOCK: u8 = 10;

/// x17: the number of a call.
pub const CALL: u8 = 17;

/// x28: the address of the pending store.
pub const PENDING_ADDRESS: u8 = 28;

/// x29: the value of the pending store.
pub const PENDING_VALUE: u8 = 29;

/// The registers that hold nothing from one node, or boundary, to the next.
pub const TEMPORARIES: [u8; 5] = [5, 6, 7, 30, 31];

/// The registers of locals.
pub const LOCALS: [u8; 18] = [
    8, 9, 11, 12, 13, 14, 15, 16, 18, 19, 20, 21, 22, 23, 24, 25, 26, 27,
];

/// Whether the register of this number is a temporary.
pub fn is_temporary(register: u8) -> bool
    ensures { result ≡ is_temporary register }
{
    TEMPORARIES.contains(&register)
}

/// Whether the register of this number is one of locals.
pub fn is_local(register: u8) -> bool
    ensures { result ≡ is_local register }
{
    register >= LOCALS[0] && register <= LOCALS[17] && register != LOCK && register != CALL
}

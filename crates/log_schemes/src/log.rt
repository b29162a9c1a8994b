//! Logs: each is a scheme of logging. What a scheme is stands here alone; all else is said by its fields.
ghost use Rattle.std.specs.Prelude.{◌≡◌, ◌<◌, ◌≤◌};
ghost use Rattle.log_schemes.specs.Layout.{bank_bytes, log_lines, log_words};
ghost use Rattle.log_schemes.specs.declared.keeping.Keeping.TheVariants.{Listed};
ghost use Rattle.log_schemes.specs.Schemes.{bank_slots, keeping_of, keeps_register, locals_of, lock_slot, most_locks, register_slot, size_of};

use crate::keeping::Keeping;
use crate::locals::Locals;
use crate::size::LogSize;
use ido_base::limits::{MOST_LOCKS, MOST_MUTEXES};

/// The first slot of a listed lock.
pub const FIRST_LOCK_SLOT: u8 = 32;

/// The first slot of a listed lock where each write has a record.
pub const FIRST_LOCK_OF_WRITES: u8 = 4;

/// How many locks a bank lists at most.
pub const MOST_LISTED: u8 = 16;

/// How the threads of a program log.
#[derive(Clone, Copy, Debug, PartialEq, Eq, Drop)]
pub enum Log {
    /// 1,024 bytes a thread: a point, and two banks of 32 words at offsets 64 and 320. A bank keeps the mask of the locks held and the live registers.
    V1,
    /// 2,048 bytes a thread: a point, and two banks of 48 words at offsets 64 and 1,088. A bank keeps how many locks are held, the live registers, and
    /// from slot 32 on the numbers of these locks, 16 at most.
    V2,
    /// 2,048 bytes a thread, with banks as `V2` has them, and between the banks a frame of 18 words at offset 512 in which the thread's locals stand. Each
    /// write of a section has a record of its own: a bank keeps how many locks are held, the address, the value and the bytes of the write, and from
    /// slot 4 on the numbers of the locks.
    Justdo,
}

impl Log {
    /// How large a thread's log is.
    pub fn size(self) -> LogSize
        ensures { result ≡ size_of self }
    {
        match self {
            Log::V1 => LogSize::Lines16,
            Log::V2 | Log::Justdo => LogSize::Lines32,
        }
    }

    /// How a bank keeps the locks held.
    pub fn keeping(self) -> Keeping
        ensures { result ≡ keeping_of self }
    {
        match self {
            Log::V1 => Keeping::Masked,
            Log::V2 | Log::Justdo => Keeping::Listed,
        }
    }

    /// Whether a bank has a slot for the register of this number.
    pub fn keeps_register(self, register: u8) -> bool
        ensures { result ≡ keeps_register self register }
    {
        match self {
            Log::V1 | Log::V2 => 0 < register && register < 32 && register != 3,
            Log::Justdo => register == 28 || register == 29,
        }
    }

    /// The slot of a bank that has the register of this number.
    pub fn register_slot(self, register: u8) -> u8
        requires { register < 32 }
        ensures is { result ≡ register_slot self register }
        ensures exists { result < bank_slots self }
        ensures few { result < 48 }
    {
        match self {
            Log::V1 | Log::V2 => register,
            Log::Justdo => register % 27,
        }
    }

    /// The slot of a bank that has the lock of this index in the list, where locks are listed.
    pub fn lock_slot(self, index: u8) -> u8
        requires keeping { keeping_of self ≡ Listed }
        requires index { index < MOST_LISTED }
        ensures is { result ≡ lock_slot self index }
        ensures exists { result < bank_slots self }
        ensures few { result < 48 }
    {
        match self {
            Log::V1 | Log::V2 => FIRST_LOCK_SLOT + index,
            Log::Justdo => FIRST_LOCK_OF_WRITES + index,
        }
    }

    /// Where the locals of a thread stand.
    pub fn locals(self) -> Locals
        ensures { result ≡ locals_of self }
    {
        match self {
            Log::V1 | Log::V2 => Locals::Registers,
            Log::Justdo => Locals::Frame,
        }
    }

    /// How many mutexes there may be at most, with those of arrays.
    pub fn most_locks(self) -> u32
        ensures { result ≡ most_locks self }
    {
        match self.keeping() {
            Keeping::Masked => MOST_MUTEXES,
            Keeping::Listed => MOST_LOCKS,
        }
    }

    /// Lines of a thread's log, 32 at most.
    pub fn lines(self) -> u32
        ensures is { result ≡ log_lines self }
        ensures few { result ≤ 32 }
    {
        self.size().lines()
    }

    /// Words of eight bytes of a thread's log.
    pub fn words(self) -> u32
        ensures is { result ≡ log_words self }
        ensures few { result ≤ 256 }
    {
        8 * self.lines()
    }

    /// How far the second bank of a log lies after the first.
    pub fn bank_bytes(self) -> u64
        ensures is { result ≡ bank_bytes self }
        ensures few { result ≤ 1024 }
    {
        self.size().bank_bytes()
    }
}

//! Addresses within a thread's log: the point first, and from the next line on two banks of slots. The others of a bank are said by a log's scheme.
ghost use Rattle.std.specs.Prelude.{◌≡◌};
ghost use Rattle.log_schemes.specs.Layout.{frame_at, log_of, point_at, slot_at};

use crate::log::Log;
use ido_base::limits::LINE_BYTES;

/// The address of the first thread's log.
pub const LOGS_BASE: u64 = 0x2000_0000;

/// How far the first bank lies after the point.
pub const FIRST_BANK: u64 = 64;

/// Bytes of a slot.
pub const SLOT_BYTES: u64 = 8;

/// Slots of a line.
pub const LINE_SLOTS: u8 = 8;

/// The slot of the mask of the locks held, or of how many they are.
pub const LOCKS_SLOT: u8 = 0;

/// The slot of the address of a write, where each has a record.
pub const WRITE_ADDRESS_SLOT: u8 = 1;

/// The slot of its value.
pub const WRITE_VALUE_SLOT: u8 = 2;

/// The slot of how many bytes it has.
pub const WRITE_BYTES_SLOT: u8 = 3;

/// How far the frame of locals lies after the point, where locals stand in the log.
pub const FRAME: u64 = 512;

/// Lines of the frame.
pub const FRAME_LINES: u8 = 3;

/// The address of a thread's log.
pub fn log_of(log: Log, thread: u32) -> u64
    ensures { result ≡ log_of log thread }
{
    LOGS_BASE + LINE_BYTES * u64::from(log.lines()) * u64::from(thread)
}

/// The address of a thread's point, the first word of its log.
pub fn point_at(log: Log, thread: u32) -> u64
    ensures { result ≡ point_at log thread }
{
    log_of(log, thread)
}

/// The address of a word of a thread's frame.
pub fn frame_at(log: Log, thread: u32, word: u32) -> u64
    ensures { result ≡ frame_at log thread word }
{
    log_of(log, thread) + FRAME + SLOT_BYTES * u64::from(word)
}

/// The address of a slot of a bank, 0 or 1.
pub fn slot_at(log: Log, thread: u32, bank: u32, slot: u32) -> u64
    ensures { result ≡ slot_at log thread bank slot }
{
    log_of(log, thread)
        + FIRST_BANK
        + log.bank_bytes() * u64::from(bank)
        + SLOT_BYTES * u64::from(slot)
}

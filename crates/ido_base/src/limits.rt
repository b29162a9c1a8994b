//! Limits of programs, of runs and of what is read, and the sizes of memory. Code and definitions of every layer read
//! them here.

/// Threads of a program at most.
pub const MOST_THREADS: u32 = 8;

/// Mutexes of a program at most, where none is in an array.
pub const MOST_MUTEXES: u32 = 64;

/// Mutexes of a program at most, with those of arrays.
pub const MOST_LOCKS: u32 = 1024;

/// Elements of an array at most.
pub const MOST_ELEMENTS: u64 = 4096;

/// Bytes of all variables at most, with those that lie between them.
pub const MOST_VARIABLE_BYTES: u32 = 65_536;

/// Open braces at most, and brackets and operators at most since the last separator.
pub const MOST_NESTING: u32 = 128;

/// Temporaries at most that an expression needs.
pub const MOST_TEMPORARIES: u32 = 4;

/// Registers that locals have.
pub const LOCAL_REGISTERS: usize = 18;

/// The price of a thread at most.
pub const MOST_PRICE: u64 = 65_536;

/// Words of a thread's code at most, of four bytes each.
pub const MOST_CODE_WORDS: u32 = 65_536;

/// Steps of a schedule at most.
pub const MOST_STEPS: u64 = 4_000_000;

/// Events of a script at most.
pub const MOST_EVENTS: u64 = 4_000_000;

/// Steps at most that a line of a script makes until a hart has stored its point, or finished a fence.
pub const MOST_STEPS_TO: u64 = 65_536;

/// Bytes of a source text at most.
pub const MOST_SOURCE_BYTES: usize = 1_048_576;

/// Bytes of any input at most.
pub const MOST_INPUT_BYTES: u64 = 67_108_864;

/// The address of the first word of the first thread's code.
pub const CODE_BASE: u64 = 0x0001_0000;

/// Bytes of a word.
pub const WORD_BYTES: u32 = 8;

/// Bytes of a line.
pub const LINE_BYTES: u64 = 64;

/// Lines that variables have.
pub const VARIABLE_LINES: u64 = 1024;

/// Words of eight bytes that variables have.
pub const VARIABLE_WORDS: u32 = 8192;

/// The line of the first thread's point, which is word 0 of it. The point of each further thread lies a log further on.
pub const POINT_LINE: u32 = VARIABLE_LINES as u32;

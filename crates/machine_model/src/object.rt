//! Compiled programs, and their code before it is linked.
use log_schemes::log::Log;
use rv64_isa::object::CodeItem;

/// A compiled program. Calls that need it ask that threads, mutexes, initial bytes and words are within the limits of an object
/// (`IsWithinLimits`), which is no invariant of this type: at most
/// 8 threads of 1 to 65,536 words, 64 mutexes or 1,024 by the log, and 65,536 bytes, a multiple of 8.
#[derive(PartialEq, Eq, Drop)]
pub struct Object {
    /// The code words of each thread. Any word may stand here, also one that is no instruction.
    pub code: Vec<Vec<u32>>,
    /// The initial bytes of the variables.
    pub initial: Vec<u8>,
    /// The number of mutexes.
    pub mutexes: u32,
    /// How its threads log.
    pub log: Log,
}

/// The code of a program, before it is linked.
#[derive(Drop)]
pub struct Code {
    /// The parts of each thread's code.
    pub threads: Vec<Vec<CodeItem>>,
    /// The initial bytes of the variables.
    pub initial: Vec<u8>,
    /// The number of mutexes.
    pub mutexes: u32,
    /// How its threads log.
    pub log: Log,
}

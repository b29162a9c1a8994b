//! Sizes of logs, which schemes share.
ghost use Rattle.std.specs.Prelude.{◌≡◌, ◌≤◌};
ghost use Rattle.log_schemes.specs.Schemes.{bank_distance, distance_bits, lines_in_bank, lines_of};

/// How large the log of a thread is: a line for its point, and from the next line on two banks.
#[derive(Clone, Copy, Debug, PartialEq, Eq, Drop)]
pub enum LogSize {
    /// 1,024 bytes. A bank has 4 lines, and the second one begins 256 bytes after the first.
    Lines16,
    /// 2,048 bytes. A bank has 6 lines, and the second one begins 1,024 bytes after the first.
    Lines32,
}

impl LogSize {
    /// Lines of a log, 32 at most.
    pub fn lines(self) -> u32
        ensures is { result ≡ lines_of self }
        ensures few { result ≤ 32 }
    {
        match self {
            LogSize::Lines16 => 16,
            LogSize::Lines32 => 32,
        }
    }

    /// Lines of a bank, 6 at most.
    pub fn bank_lines(self) -> u8
        ensures is { result ≡ lines_in_bank self }
        ensures few { result ≤ 6 }
    {
        match self {
            LogSize::Lines16 => 4,
            LogSize::Lines32 => 6,
        }
    }

    /// How many bytes the second bank begins after the first.
    pub fn bank_bytes(self) -> u64
        ensures is { result ≡ bank_distance self }
        ensures few { result ≤ 1024 }
    {
        match self {
            LogSize::Lines16 => 256,
            LogSize::Lines32 => 1024,
        }
    }

    /// By so many bits the distance of the second bank is 1.
    pub fn distance_bits(self) -> u8
        ensures is { result ≡ distance_bits self }
        ensures few { result ≤ 10 }
    {
        match self {
            LogSize::Lines16 => 8,
            LogSize::Lines32 => 10,
        }
    }
}

//! What the point of a log says.
ghost use Rattle.std.specs.Prelude.{◌≡◌};
ghost use Rattle.log_schemes.specs.Points.{point_of};

/// Where recovery goes on.
#[derive(Clone, Copy, Debug, PartialEq, Eq, Drop)]
pub enum Point {
    /// Nowhere: the thread stands between two sections.
    Idle,
    /// At this address, with the registers of this bank, 0 or 1.
    At { address: u64, bank: u32 },
}

/// What a point's word says: 0 is idle, any other is a resume address plus the number of a bank.
pub fn read_point(word: u64) -> Point
    ensures { result ≡ point_of word }
{
    if word == 0 {
        return Point::Idle;
    }
    let bank = word % 2;
    Point::At {
        address: word - bank,
        bank: bank as u32,
    }
}

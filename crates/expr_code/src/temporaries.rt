//! The temporaries that are held while an expression is evaluated.
ghost use Rattle.std.specs.Prelude.{◌≡◌, ◌<◌};
ghost use Rattle.expr_code.specs.links.OperandCode.{temporary};

use rv64_isa::field::Register;

/// Holds an address for a moment.
pub(crate) const ADDRESS: Register = Register::X31;

/// The temporary that is held where so many are held already.
pub(crate) fn temporary(held: u32) -> Register
    ensures value { result ≡ temporary held }
    ensures some { 0 < result }
{
    match held {
        0 => Register::X5,
        1 => Register::X6,
        2 => Register::X7,
        _ => Register::X30,
    }
}

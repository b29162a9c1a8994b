//! Where a local stands.
ghost use Rattle.std.specs.Prelude.{◌≡◌};
ghost use Rattle.expr_code.specs.declared.home.Home.TheVariants.{InRegister};

use rv64_isa::field::Register;

/// Where a local of a thread stands.
#[derive(Clone, Copy, Debug, PartialEq, Eq, Drop)]
pub enum Home {
    /// In a register that is its own as long as the local is live.
    InRegister { register: Register },
    /// In a word at this address, in its register form.
    InFrame { address: u32 },
}

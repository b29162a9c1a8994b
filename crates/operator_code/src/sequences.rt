//! Short code.
ghost use Rattle.std.specs.Prelude.{◌≡◌, ◌≤◌, ◌++◌, length, OnOk};
ghost use Rattle.operator_code.specs.Sequences.{listed};

use ido_base::memory::OutOfMemory;
use rv64_isa::instr::Instr;

/// At most two instructions, in order.
#[derive(Clone, Copy, Drop)]
pub enum Sequence {
    Empty,
    One(Instr),
    Two { first: Instr, second: Instr },
}

impl Sequence {
    /// Appends the instructions to code.
    pub fn push_to(self, code: &mut Vec<Instr>) -> Result<(), OutOfMemory>
        ensures code { OnOk result (code.new.items ≡ code.old.items ++ listed self) }
        ensures short { length (listed self) ≤ 2 }
    {
        match self {
            Sequence::Empty => Ok(()),
            Sequence::One(only) => {
                code.push(only)?;
                Ok(())
            }
            Sequence::Two { first, second } => {
                code.push(first)?;
                code.push(second)?;
                Ok(())
            }
        }
    }
}

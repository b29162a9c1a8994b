//! A hart.
ghost use Rattle.rv64_isa.specs.Rows.{written, next};

use crate::local::LocalWrite;
use crate::rows;
use line_memory::queue::Queue;
use rv64_isa::field::Register;

/// The state of a hart. Register x0 holds 0 unless it is set here.
#[derive(Drop)]
pub struct Hart {
    /// x0 to x31.
    pub registers: [u64; 32],
    /// The address of the instruction that it executes next.
    pub pc: u64,
    /// What it has cleaned and not yet written back.
    pub queue: Queue,
}

impl Hart {
    ghost use Rattle.std.specs.Prelude.{◌≡◌, List, [], replicate};
    ghost use Rattle.ido_base.specs.Words.{Word};
    ghost use Rattle.line_memory.specs.links.Queues.{queue_length, RepresentsQueue};
    ghost use Rattle.rv64_isa.specs.Rows.{written, next};

    /// A hart with all registers 0 and nothing queued.
    pub fn new(pc: u64) -> Hart
        ensures registers { result.registers ≡ replicate 32 0 }
        ensures pc { result.pc ≡ pc }
        ensures queue { (words : List Word) → RepresentsQueue result.queue [] words }
    {
        Hart {
            registers: [0; 32],
            pc,
            queue: Queue::new(),
        }
    }

    /// Begins again at the pc: all registers are 0, and what was queued is lost.
    pub fn restart(&mut self, pc: u64)
        ensures registers { self.new.registers ≡ replicate 32 0 }
        ensures pc { self.new.pc ≡ pc }
        ensures queue { (words : List Word) → RepresentsQueue self.new.queue [] words }
    {
        self.registers = [0; 32];
        self.pc = pc;
        self.queue.clear();
    }

    /// Begins another life at the pc: all registers are 0, and what is queued stays.
    pub fn begin_anew(&mut self, pc: u64)
        ensures { self.new ≡ record self.old { registers = replicate 32 0; pc = pc } }
    {
        self.registers = [0; 32];
        self.pc = pc;
    }

    /// Writes a register; x0 stays as it is.
    pub(crate) fn write(&mut self, register: Register, value: u64)
        ensures { self.new ≡ record self.old { registers = written self.old.registers register value } }
    {
        let number = register.number();
        if number != 0 {
            self.registers[number as usize] = value;
        }
    }

    /// Makes a local step.
    #[inline(always)]
    pub fn step_locally(&mut self, write: LocalWrite)
        ensures { self.new ≡ record self.old { registers = written self.old.registers write.register write.value; pc = write.pc } }
    {
        self.write(write.register, write.value);
        self.pc = write.pc;
    }

    /// The pc goes on to the next instruction.
    pub(crate) fn go_on(&mut self)
        ensures { self.new ≡ record self.old { pc = next self.old.pc } }
    {
        self.pc = rows::next(self.pc);
    }
}

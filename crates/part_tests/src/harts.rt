//! Single steps, with results worked by hand. The words are those of LLVM's assembler.
ghost use Rattle.std.specs.Prelude.{◌≡◌, ◌≤◌, length, IfOk};
ghost use Rattle.ido_base.specs.declared.limits.TheConstants.{MOST_CODE_WORDS};

use hart_core::hart::Hart;
use hart_core::program::Program;
use hart_core::step::execute;
use ido_base::memory::OutOfMemory;
use line_memory::memory::LineMemory;
use lock_table::LockTable;
use log_schemes::log::Log;
use machine_events::event::{Cause, Reply};
use machine_model::object::Object;
use machine_model::phase::Phase;
use std::alloc::Global;
use std::test::Fail;

/// The code of one thread, which begins at 0x10000.
fn program_of(alloc: Global, words: &[u32]) -> Result<Program, OutOfMemory>
    requires some { 1 ≤ length words.now }
    requires few { length words.now ≤ MOST_CODE_WORDS }
    ensures { IfOk result (λ program. length program ≡ 1) }
{
    let mut code: Vec<Vec<u32>> = Vec::new(alloc);
    code.push(words.to_vec(alloc)?)?;
    let object = Object {
        code,
        initial: Vec::new(alloc),
        mutexes: 2,
        log: Log::V1,
    };
    Program::of(alloc, &object)
}

/// One instruction at 0x10000, of x5 and x6, which are x10 and x17 too: the reply, x7 and the pc. At 0x10000000 stand the bytes
/// 0x80 to 0x87. Hart 0 holds lock 0, and hart 1 lock 1.
const ROWS: [(u32, u64, u64, Reply, u64, u64); 38] = [
    // addi x7, x5, -1
    (
        0xfff2_8393,
        0,
        0,
        Reply::Moved,
        0xffff_ffff_ffff_ffff,
        0x0001_0004,
    ),
    // addi x0, x5, 5
    (0x0052_8013, 1, 0, Reply::Moved, 0, 0x0001_0004),
    // lui x7, 0x80000
    (
        0x8000_03b7,
        0,
        0,
        Reply::Moved,
        0xffff_ffff_8000_0000,
        0x0001_0004,
    ),
    // auipc x7, 1
    (0x1397, 0, 0, Reply::Moved, 0x0001_1000, 0x0001_0004),
    // jal x7, 16
    (0x0100_03ef, 0, 0, Reply::Moved, 0x0001_0004, 0x0001_0010),
    // jalr x7, 3(x5)
    (
        0x0032_83e7,
        0x0002_0000,
        0,
        Reply::Moved,
        0x0001_0004,
        0x0002_0002,
    ),
    // beq x5, x6, 8
    (0x0062_8463, 4, 4, Reply::Moved, 0, 0x0001_0008),
    // beq x5, x6, 8
    (0x0062_8463, 4, 5, Reply::Moved, 0, 0x0001_0004),
    // bne x5, x6, -8
    (0xfe62_9ce3, 4, 5, Reply::Moved, 0, 0xfff8),
    // sraiw x7, x5, 1
    (
        0x4012_d39b,
        0x8000_0000,
        0,
        Reply::Moved,
        0xffff_ffff_c000_0000,
        0x0001_0004,
    ),
    // slli x7, x5, 63
    (
        0x03f2_9393,
        3,
        0,
        Reply::Moved,
        0x8000_0000_0000_0000,
        0x0001_0004,
    ),
    // mul x7, x5, x6
    (0x0262_83b3, 6, 7, Reply::Moved, 0x2a, 0x0001_0004),
    // ld x7, 0(x5)
    (
        0x0002_b383,
        0x1000_0000,
        0,
        Reply::Moved,
        0x8786_8584_8382_8180,
        0x0001_0004,
    ),
    // lb x7, 0(x5)
    (
        0x0002_8383,
        0x1000_0000,
        0,
        Reply::Moved,
        0xffff_ffff_ffff_ff80,
        0x0001_0004,
    ),
    // lbu x7, 0(x5)
    (0x0002_c383, 0x1000_0003, 0, Reply::Moved, 0x83, 0x0001_0004),
    // lh x7, 0(x5)
    (
        0x0002_9383,
        0x1000_0002,
        0,
        Reply::Moved,
        0xffff_ffff_ffff_8382,
        0x0001_0004,
    ),
    // lw x7, 0(x5)
    (
        0x0002_a383,
        0x1000_0004,
        0,
        Reply::Moved,
        0xffff_ffff_8786_8584,
        0x0001_0004,
    ),
    // lwu x7, 0(x5)
    (
        0x0002_e383,
        0x1000_0000,
        0,
        Reply::Moved,
        0x8382_8180,
        0x0001_0004,
    ),
    // ld x0, 0(x5)
    (0x0002_b003, 0x1000_0000, 0, Reply::Moved, 0, 0x0001_0004),
    // sh x6, 1(x5)
    (0x0062_90a3, 0x1000_0001, 7, Reply::Moved, 0, 0x0001_0004),
    // cbo.clean (x5)
    (0x0012_a00f, 0x1000_0003, 0, Reply::Moved, 0, 0x0001_0004),
    // sd x6, 0(x5)
    (
        0x0062_b023,
        0,
        0,
        Reply::Stuck(Cause::Outside { address: 0 }),
        0,
        0x0001_0000,
    ),
    // sw x6, -4(x5)
    (
        0xfe62_ae23,
        0x1000_0000,
        0,
        Reply::Stuck(Cause::Outside {
            address: 0x0fff_fffc,
        }),
        0,
        0x0001_0000,
    ),
    // ld x7, 0(x5): it isn't in range, and isn't aligned
    (
        0x0002_b383,
        0x1000_fffc,
        0,
        Reply::Stuck(Cause::Outside {
            address: 0x1000_fffc,
        }),
        0,
        0x0001_0000,
    ),
    // ld x7, 0(x5)
    (
        0x0002_b383,
        0x1000_0004,
        0,
        Reply::Stuck(Cause::Unaligned {
            address: 0x1000_0004,
        }),
        0,
        0x0001_0000,
    ),
    // sh x6, 1(x5)
    (
        0x0062_90a3,
        0x1000_0000,
        7,
        Reply::Stuck(Cause::Unaligned {
            address: 0x1000_0001,
        }),
        0,
        0x0001_0000,
    ),
    // cbo.clean (x5)
    (
        0x0012_a00f,
        0x1001_0000,
        0,
        Reply::Stuck(Cause::Outside {
            address: 0x1001_0000,
        }),
        0,
        0x0001_0000,
    ),
    // ebreak
    (
        0x0010_0073,
        0,
        0,
        Reply::Stuck(Cause::Illegal { word: 0x0010_0073 }),
        0,
        0x0001_0000,
    ),
    // ecall
    (
        0x73,
        0,
        0,
        Reply::Stuck(Cause::NoCall { number: 0 }),
        0,
        0x0001_0000,
    ),
    // ecall: lock 0, which the hart has; lock 1, which another one has; a lock that there isn't
    (
        0x73,
        0,
        1,
        Reply::Waits { lock: 0, holder: 0 },
        0,
        0x0001_0000,
    ),
    (
        0x73,
        1,
        1,
        Reply::Waits { lock: 1, holder: 1 },
        0,
        0x0001_0000,
    ),
    (
        0x73,
        2,
        1,
        Reply::Stuck(Cause::NoLock { lock: 2 }),
        0,
        0x0001_0000,
    ),
    (
        0x73,
        0x1_0000_0000,
        1,
        Reply::Stuck(Cause::NoLock {
            lock: 0x1_0000_0000,
        }),
        0,
        0x0001_0000,
    ),
    // ecall: unlock 0, 1 and 2
    (0x73, 0, 2, Reply::Moved, 0, 0x0001_0004),
    (
        0x73,
        1,
        2,
        Reply::Stuck(Cause::NotHeld { lock: 1 }),
        0,
        0x0001_0000,
    ),
    (
        0x73,
        2,
        2,
        Reply::Stuck(Cause::NoLock { lock: 2 }),
        0,
        0x0001_0000,
    ),
    // ecall: the end, with lock 0 held
    (
        0x73,
        0,
        3,
        Reply::Stuck(Cause::EndHolding { lock: 0 }),
        0,
        0x0001_0000,
    ),
    // ecall: no call
    (
        0x73,
        0,
        4,
        Reply::Stuck(Cause::NoCall { number: 4 }),
        0,
        0x0001_0000,
    ),
];

/// The bytes at the start of the variables.
const BYTES: [u8; 8] = [0x80, 0x81, 0x82, 0x83, 0x84, 0x85, 0x86, 0x87];

/// What a step of hart 0 at this pc comes to, by code of one word and these numbers in x5 and x6: the reply, x0, x7 and the pc.
fn stepped(
    alloc: Global,
    word: u32,
    pc: u64,
    x5: u64,
    x6: u64,
) -> Result<(Reply, u64, u64, u64), Fail> {
    let program = program_of(alloc, &[word])?;
    let mut memory = LineMemory::new(alloc, &BYTES, Log::V1, 1)?;
    let mut locks = LockTable::new(alloc, 2, 2)?;
    let _ = (locks.try_take(0, 0), locks.try_take(1, 1));
    let mut phase = Phase::Run;
    let mut hart = Hart::new(pc);
    hart.registers[5] = x5;
    hart.registers[6] = x6;
    hart.registers[10] = x5;
    hart.registers[17] = x6;
    let next = program.fetch(0, hart.pc);
    let found = execute(0, next, &mut phase, &mut hart, &mut memory, &mut locks);
    Ok((found, hart.registers[0], hart.registers[7], hart.pc))
}

#[test]
fn single_steps(rt: HostRuntime) -> Result<(), Fail> {
    for (word, x5, x6, reply, x7, pc) in ROWS {
        let found = stepped(rt.alloc(), word, 0x0001_0000, x5, x6)?;
        assert_eq!(rt; found, (reply, 0, x7, pc), "{word:#x}");
    }
    Ok(())
}

/// Code of one word at 0x10000: where the hart stands, and why it can't go on from there.
const PLACES: [(u64, Cause); 6] = [
    (0x0001_0004, Cause::NoCode { pc: 0x0001_0004 }),
    (0x0001_0002, Cause::NoCode { pc: 0x0001_0002 }),
    (0x0001_0001, Cause::NoCode { pc: 0x0001_0001 }),
    (0xfffc, Cause::NoCode { pc: 0xfffc }),
    (0, Cause::NoCode { pc: 0 }),
    (0x1_0001_0000, Cause::NoCode { pc: 0x1_0001_0000 }),
];

#[test]
fn no_code(rt: HostRuntime) -> Result<(), Fail> {
    for (pc, cause) in PLACES {
        // addi x7, x5, -1
        let found = stepped(rt.alloc(), 0xfff2_8393, pc, 0, 0)?;
        assert_eq!(rt; found, (Reply::Stuck(cause), 0, 0, pc), "{pc:#x}");
    }
    Ok(())
}

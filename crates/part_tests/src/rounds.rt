//! A machine that enters recovery in the last round that it may need.
ghost use Rattle.std.specs.Prelude.{◌≡◌, ◌+◌, ◌≤◌, length, IfOk};
ghost use Rattle.ido_machine.specs.Machines.{events_of, program_in};

use ido_base::memory::OutOfMemory;
use ido_machine::machine::Machine;
use log_schemes::log::Log;
use machine_model::object::Object;
use machine_model::phase::Phase;
use std::alloc::Global;
use std::test::Fail;

/// One thread after a crash, whose record lists 16 locks: its log begins with a point of the first bank, at the first word of its code. The bank's slot 0,
/// the log's word 8, has their count, and from slot 32 on it has their numbers.
fn crashed(alloc: Global) -> Result<Machine, OutOfMemory>
    ensures threads { IfOk result (λ machine. length (program_in machine) ≡ 1) }
    ensures events { IfOk result (λ machine. events_of machine ≡ 0) }
{
    let mut code: Vec<Vec<u32>> = Vec::new(alloc);
    // ecall
    code.push(vec![in alloc; 0x73u32; 1]?)?;
    let object = Object {
        code,
        initial: Vec::new(alloc),
        mutexes: 16,
        log: Log::V2,
    };
    let mut words = [0u64; 256];
    words[0] = 0x0001_0000;
    words[8] = 16;
    for lock in 0..16u64 {
        words[40 + lock as usize] = lock;
    }
    Machine::of_words(alloc, &object, &words)
}

/// Three rounds over its one hart.
fn three_rounds(machine: &mut Machine)
    requires exists { 1 ≤ length (program_in machine.old) }
    requires room { events_of machine.old ≤ 1000 }
    ensures program { program_in machine.new ≡ program_in machine.old }
    ensures events { events_of machine.new ≡ events_of machine.old + 3 }
{
    machine.step(0);
    machine.step(0);
    machine.step(0);
}

/// A hart takes its 16 locks, finds that it has all, waits for none, and is resumed: 19 rounds, and none fewer.
#[test]
fn nineteen_rounds(rt: HostRuntime) -> Result<(), Fail> {
    let mut machine = crashed(rt.alloc())?;
    three_rounds(&mut machine);
    three_rounds(&mut machine);
    three_rounds(&mut machine);
    three_rounds(&mut machine);
    three_rounds(&mut machine);
    machine.step(0);
    let sixteen = machine.phase(0);
    machine.step(0);
    let seventeen = machine.phase(0);
    machine.step(0);
    let eighteen = machine.phase(0);
    machine.step(0);
    let nineteen = machine.phase(0);
    assert_eq!(rt; sixteen, Phase::Take);
    assert_eq!(rt; seventeen, Phase::Wait);
    assert_eq!(rt; eighteen, Phase::Resume);
    assert_eq!(rt; nineteen, Phase::Run);
    Ok(())
}

//! A boundary: the bank that the point doesn't name gets what is live, and then the point names it.
ghost use Rattle.std.specs.Prelude.{◌≡◌, ℕ, List, ◌<◌, ◌≤◌, ◌+◌, ◌*◌, ◌++◌, ◌∷◌, ◌==◌, ◌/◌};
ghost use Rattle.std.specs.Prelude.{[], map, length, pos, negsuc, ◌≤ℤ◌, IsTrue, IfOk, OnOk, None, Some, false};
ghost use Rattle.std.specs.List.{list_all, list_any};
ghost use Rattle.ido_base.specs.Locks.{locks_in};
ghost use Rattle.log_schemes.specs.declared.keeping.Keeping.TheVariants.{Listed, Masked};
ghost use Rattle.log_schemes.specs.Schemes.{keeping_of, lock_slot, may_keep, numbers_from, register_slot, told};
ghost use Rattle.ido_base.specs.declared.limits.TheConstants.{MOST_THREADS};
ghost use Rattle.rv64_isa.specs.Signed.{twos_complement};
ghost use Rattle.boundary_code.specs.Boundaries.{IsBoundaryCode, clean_frame, fixed_words, frame_lines, keep_told, lines_in_use};
ghost use Rattle.boundary_code.specs.Boundaries.{keep_locks, keep_slots, clean_lines, lists_of, number_words};
ghost use Rattle.boundary_code.specs.Boundaries.{point, commit};
ghost use Rattle.boundary_code.specs.links.InstructionLists.{bank_list, clean_where, last_list};

use crate::written::Written;
use ido_base::memory::OutOfMemory;
use log_schemes::addresses::{
    FIRST_BANK, FRAME, LINE_SLOTS, LOCKS_SLOT, SLOT_BYTES, WRITE_ADDRESS_SLOT, WRITE_BYTES_SLOT,
    WRITE_VALUE_SLOT, log_of,
};
use log_schemes::locals::Locals;
use log_schemes::log::Log;
use operator_code::constant::constant;
use operator_code::instructions::{add, auipc, immediate, sd, shift};
use rv64_isa::field::Register;
use rv64_isa::instr::{ImmediateOperation, Instr, ShiftOperation};
use std::alloc::Global;

/// How far the bank in use lies after the first: x3 from one boundary to the next.
const BANK_OFFSET: Register = Register::X3;

/// The address of the thread's log, within a boundary.
const LOG: Register = Register::X31;

/// The address that lies as far before the bank as the log before the first bank; then the point.
const BANK: Register = Register::X30;

/// What is stored or cleaned next.
const NEXT: Register = Register::X7;

/// The number of a lock, where a bank lists them.
const LOCK: Register = Register::X5;

/// Bytes of the instructions from the AUIPC to a boundary's end.
const POINT_BYTES: i32 = 28;

/// The slots that say which write comes next, where each has a record.
fn push_told_slots(slots: &mut Vec<u8>, log: Log, written: Written) -> Result<(), OutOfMemory>
    ensures { OnOk result (slots.new.items ≡ slots.old.items ++ map (λ (one : ℕ × ℕ). one.0) (told log written.bytes)) }
{
    match log.locals() {
        Locals::Registers => Ok(()),
        Locals::Frame => match written.bytes {
            None => {
                slots.push(WRITE_ADDRESS_SLOT)?;
                slots.push(WRITE_VALUE_SLOT)?;
                slots.push(WRITE_BYTES_SLOT)?;
                Ok(())
            }
            Some(_) => {
                slots.push(WRITE_BYTES_SLOT)?;
                Ok(())
            }
        },
    }
}

/// The slots that a bank needs: slot 0, those of so many listed locks, those that say which write comes next, and those of the live registers.
fn slots_in_use(
    alloc: Global,
    log: Log,
    locks: u8,
    written: Written,
    live: &[Register],
) -> Result<Vec<u8>, OutOfMemory>
    requires few { locks ≤ 16 }
    requires keeping { 0 < locks → keeping_of log ≡ Listed }
    ensures { IfOk result (λ slots. slots.items ≡ ((0 ∷ map (lock_slot log) (numbers_from 0 locks))
        ++ map (λ (one : ℕ × ℕ). one.0) (told log written.bytes)) ++ map (register_slot log) live.now) }
{
    let mut slots: Vec<u8> = vec![in alloc; LOCKS_SLOT]?;
    for lock in 0..locks {
        slots.push(log.lock_slot(lock))?;
    }
    push_told_slots(&mut slots, log, written)?;
    for register in live {
        slots.push(log.register_slot(register.number()))?;
    }
    Ok(slots)
}

/// Whether one of the slots stands in a line of the bank.
fn is_in_use(line: u8, slots: &[u8]) -> bool
    ensures { result ≡ list_any (λ slot. slot / 8 == line) slots.now }
{
    for slot in slots {
        if *slot / LINE_SLOTS == line {
            return true;
        }
    }
    false
}

/// How far a slot of a bank lies after the address of its log and the offset of the bank.
fn slot_offset(slot: u8) -> u16
    requires { slot < 48 }
    ensures is { result ≡ 64 + 8 * slot }
    ensures near { result < 2048 }
{
    FIRST_BANK as u16 + SLOT_BYTES as u16 * u16::from(slot)
}

/// The slots of the live registers get them.
fn emit_slots(code: &mut Vec<Instr>, log: Log, live: &[Register]) -> Result<(), OutOfMemory>
    ensures { OnOk result (code.new.items ≡ code.old.items ++ keep_slots log live.now) }
{
    for register in live {
        code.push(sd(
            *register,
            slot_offset(log.register_slot(register.number())),
            BANK,
        ))?;
    }
    Ok(())
}

/// Each lock's number gets its slot in the list.
fn emit_locks(code: &mut Vec<Instr>, log: Log, locks: &[Vec<Instr>]) -> Result<(), OutOfMemory>
    requires few { length locks.now ≤ 16 }
    requires keeping { keeping_of log ≡ Listed }
    ensures { OnOk result (code.new.items ≡ code.old.items ++ keep_locks log 0 (lists_of locks.now)) }
{
    let mut index = 0;
    for lock in locks {
        code.extend_from_slice(lock)?;
        code.push(sd(LOCK, slot_offset(log.lock_slot(index)), BANK))?;
        index += 1;
    }
    Ok(())
}

/// A slot gets a small number.
fn push_told(code: &mut Vec<Instr>, slot: u8, value: u8) -> Result<(), OutOfMemory>
    requires { slot < 48 }
    ensures { OnOk result (code.new.items ≡ code.old.items ++ keep_told ((slot, value) ∷ [])) }
{
    code.push(immediate(
        ImmediateOperation::Addi,
        NEXT,
        Register::X0,
        u16::from(value),
    ))?;
    code.push(sd(NEXT, slot_offset(slot), BANK))?;
    Ok(())
}

/// Where each write has a record, the bank is told how many bytes the one has that comes next, or that none comes.
fn emit_told(code: &mut Vec<Instr>, log: Log, written: Written) -> Result<(), OutOfMemory>
    ensures { OnOk result (code.new.items ≡ code.old.items ++ keep_told (told log written.bytes)) }
{
    match log.locals() {
        Locals::Registers => Ok(()),
        Locals::Frame => match written.bytes {
            None => {
                push_told(code, WRITE_ADDRESS_SLOT, 0)?;
                push_told(code, WRITE_VALUE_SLOT, 0)?;
                push_told(code, WRITE_BYTES_SLOT, 0)
            }
            Some(bytes) => push_told(code, WRITE_BYTES_SLOT, bytes),
        },
    }
}

/// A line of the frame is cleaned.
fn push_frame_clean(code: &mut Vec<Instr>, line: u8) -> Result<(), OutOfMemory>
    requires { line < 6 }
    ensures { OnOk result (code.new.items ≡ code.old.items ++ clean_frame (line ∷ [])) }
{
    let offset = FRAME as u16 + 64 * u16::from(line);
    code.push(immediate(ImmediateOperation::Addi, NEXT, LOG, offset))?;
    code.push(Instr::CboClean { rs1: NEXT })?;
    Ok(())
}

/// Where locals stand in the log, a section begins with them durable: the lines of the frame are cleaned.
fn emit_frame_cleans(code: &mut Vec<Instr>, log: Log, opens: bool) -> Result<(), OutOfMemory>
    ensures { OnOk result (code.new.items ≡ code.old.items ++ clean_frame (frame_lines log opens)) }
{
    match log.locals() {
        Locals::Registers => Ok(()),
        Locals::Frame => {
            if !opens {
                return Ok(());
            }
            push_frame_clean(code, 0)?;
            push_frame_clean(code, 1)?;
            push_frame_clean(code, 2)
        }
    }
}

/// A line of the bank is cleaned.
fn clean_line(line: u8) -> [Instr; 2]
    requires { line < 6 }
    ensures { result ≡ clean_lines (line ∷ []) }
{
    let offset = 64 + 64 * u16::from(line);
    [
        immediate(ImmediateOperation::Addi, NEXT, BANK, offset),
        Instr::CboClean { rs1: NEXT },
    ]
}

/// A line of the bank is cleaned where it is in use.
fn emit_clean(code: &mut Vec<Instr>, line: u8, slots: &[u8]) -> Result<(), OutOfMemory>
    requires { line < 6 }
    ensures { OnOk result (code.new.items ≡ code.old.items ++ clean_where (list_any (λ slot. slot / 8 == line) slots.now) line) }
{
    if is_in_use(line, slots) {
        code.extend_from_slice(&clean_line(line))?;
    }
    Ok(())
}

/// Those of the bank's lines that are in use are cleaned.
fn emit_cleans(code: &mut Vec<Instr>, log: Log, slots: &[u8]) -> Result<(), OutOfMemory>
    ensures { OnOk result (code.new.items ≡ code.old.items ++ clean_lines (lines_in_use log slots.now)) }
{
    for line in 0..log.size().bank_lines() {
        emit_clean(code, line, slots)?;
    }
    Ok(())
}

/// The point's new value: the address so many bytes after the boundary's end, and the number of the bank.
fn point(log: Log, resume: i32) -> [Instr; 4]
    requires low { negsuc 262143 ≤ℤ resume }
    requires high { resume ≤ℤ pos 262144 }
    ensures { result ≡ point log (twos_complement 32 resume) }
{
    let distance = (resume + POINT_BYTES).cast_unsigned();
    [
        auipc(BANK, distance.wrapping_add(0x800) / 4096),
        immediate(
            ImmediateOperation::Addi,
            BANK,
            BANK,
            (distance % 4096) as u16,
        ),
        shift(
            ShiftOperation::Srli,
            NEXT,
            BANK_OFFSET,
            log.size().distance_bits(),
        ),
        add(BANK, BANK, NEXT),
    ]
}

/// The point is stored from a register, and is durable.
fn commit(register: Register) -> [Instr; 3]
    ensures { result ≡ commit register }
{
    [
        sd(register, 0, LOG),
        Instr::CboClean { rs1: LOG },
        Instr::Fence,
    ]
}

/// A bank gets what these instructions store of the locks, what is told of a write, and the live registers; its lines in use are cleaned, and those of the
/// frame.
fn emit_bank(
    code: &mut Vec<Instr>,
    log: Log,
    others: &[Instr],
    slots: &[u8],
    live: &[Register],
    written: Written,
) -> Result<(), OutOfMemory>
    ensures { OnOk result (code.new.items ≡ code.old.items ++ others.now ++ keep_told (told log written.bytes) ++ keep_slots log live.now
        ++ clean_lines (lines_in_use log slots.now) ++ clean_frame (frame_lines log written.opens)) }
{
    code.extend_from_slice(others)?;
    emit_told(code, log, written)?;
    emit_slots(code, log, live)?;
    emit_cleans(code, log, slots)?;
    emit_frame_cleans(code, log, written.opens)
}

/// A boundary: these instructions get the address of the log, what slot 0 gets, and store what other slots get of the locks; the live registers are kept,
/// and these slots are in use.
fn emit_boundary(
    alloc: Global,
    log: Log,
    address: &[Instr],
    first: &[Instr],
    others: &[Instr],
    slots: &[u8],
    live: &[Register],
    written: Written,
    resume: i32,
) -> Result<Vec<Instr>, OutOfMemory>
    requires low { negsuc 262143 ≤ℤ resume }
    requires high { resume ≤ℤ pos 262144 }
    ensures { IfOk result (λ code. code.items ≡ bank_list log address.now first.now others.now (record {
      telling = keep_told (told log written.bytes);
      slots = slots.now;
      live = live.now;
      frame = frame_lines log written.opens;
    }) (twos_complement 32 resume)) }
{
    let flip = immediate(
        ImmediateOperation::Xori,
        BANK_OFFSET,
        BANK_OFFSET,
        log.bank_bytes() as u16,
    );
    let mut code = vec![in alloc; flip]?;
    code.extend_from_slice(address)?;
    code.push(add(BANK, LOG, BANK_OFFSET))?;
    code.extend_from_slice(first)?;
    code.push(sd(NEXT, FIRST_BANK as u16, BANK))?;
    emit_bank(&mut code, log, others, slots, live, written)?;
    code.push(Instr::Fence)?;
    code.extend_from_slice(&point(log, resume))?;
    code.extend_from_slice(&commit(BANK))?;
    Ok(code)
}

/// A section's last boundary, where these instructions get the address of the log.
fn emit_last_boundary(alloc: Global, log: &[Instr]) -> Result<Vec<Instr>, OutOfMemory>
    ensures { IfOk result (λ code. code.items ≡ last_list log.now) }
{
    let mut code = Vec::from_slice(alloc, log)?;
    code.push(Instr::Fence)?;
    code.extend_from_slice(&commit(Register::X0))?;
    Ok(code)
}

/// The code of a boundary where a bank keeps a mask: the other bank gets the mask of the locks held after it and the live registers, its
/// lines in use are cleaned, and a FENCE makes them durable, with what was cleaned before; then the point gets the
/// address that lies `resume` bytes after the boundary's end, and the bank, is cleaned, and a FENCE makes it durable.
/// Where the mask is 0, which ends a section, no bank is written and the point gets 0. It leaves all registers but
/// x3 and the temporaries as they were; x3 has the offset of the bank written, and with mask 0 the same as before.
pub fn boundary(
    alloc: Global,
    log: Log,
    thread: u32,
    mask: u64,
    live: &[Register],
    written: Written,
    resume: i32,
) -> Result<Vec<Instr>, OutOfMemory>
    requires keeping { keeping_of log ≡ Masked }
    requires thread { thread < MOST_THREADS }
    requires bytes { (bytes : ℕ) → written.bytes ≡ Some bytes → bytes ≤ 8 }
    requires live { IsTrue (list_all (may_keep log) live.now) }
    requires low { negsuc 262143 ≤ℤ resume }
    requires high { resume ≤ℤ pos 262144 }
    ensures short { IfOk result (λ code. length code.items ≤ length live.now + fixed_words log) }
    ensures code { IfOk result (λ code.
        IsBoundaryCode (record {
          log = log;
          thread = thread;
          locks = locks_in mask;
          live = live.now;
          resume = resume;
          written = written.bytes;
          opens = written.opens;
        }) [] code.items) }
{
    let address = constant(alloc, LOG, log_of(log, thread))?;
    if mask == 0 {
        return emit_last_boundary(alloc, &address);
    }
    let first = constant(alloc, NEXT, mask)?;
    let slots = slots_in_use(alloc, log, 0, written, live)?;
    emit_boundary(
        alloc,
        log,
        &address,
        &first,
        &[],
        &slots,
        live,
        written,
        resume,
    )
}

/// The code of a boundary where a bank lists the held locks: of each lock in the list's order there are instructions that leave
/// its number in x5, and x30 and x31 with the addresses that they had. The other bank gets how many locks are held after it, their numbers and the live
/// registers, its lines in use are cleaned, and a FENCE makes them durable, with what was cleaned before; then the point gets the address that lies `resume`
/// bytes after the boundary's end, and the bank, is cleaned, and a FENCE makes it durable. No locks end a section: no bank is written and the point gets 0. It
/// leaves all registers but x3 and the temporaries as they were; x3 has the offset of the bank written, and without locks the same as before.
pub fn boundary_list(
    alloc: Global,
    log: Log,
    thread: u32,
    locks: &[Vec<Instr>],
    live: &[Register],
    written: Written,
    resume: i32,
) -> Result<Vec<Instr>, OutOfMemory>
    requires keeping { keeping_of log ≡ Listed }
    requires thread { thread < MOST_THREADS }
    requires locks { length locks.now ≤ 16 }
    requires bytes { (bytes : ℕ) → written.bytes ≡ Some bytes → bytes ≤ 8 }
    requires live { IsTrue (list_all (may_keep log) live.now) }
    requires low { negsuc 262143 ≤ℤ resume }
    requires high { resume ≤ℤ pos 262144 }
    ensures short { IfOk result (λ code. length code.items ≤ length live.now + fixed_words log + number_words (lists_of locks.now)) }
    ensures code { IfOk result (λ code. (numbers : List ℕ) → length numbers ≡ length locks.now →
        IsBoundaryCode (record {
          log = log;
          thread = thread;
          locks = numbers;
          live = live.now;
          resume = resume;
          written = written.bytes;
          opens = written.opens;
        }) (lists_of locks.now) code.items) }
{
    let address = constant(alloc, LOG, log_of(log, thread))?;
    if locks.is_empty() {
        return emit_last_boundary(alloc, &address);
    }
    let count = locks.len() as u8;
    let first = constant(alloc, NEXT, u64::from(count))?;
    let mut others: Vec<Instr> = Vec::new(alloc);
    emit_locks(&mut others, log, locks)?;
    let slots = slots_in_use(alloc, log, count, written, live)?;
    emit_boundary(
        alloc, log, &address, &first, &others, &slots, live, written, resume,
    )
}

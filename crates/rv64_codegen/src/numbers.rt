//! Code of the numbers of locks, in boundaries and for calls.
ghost use Rattle.std.specs.Prelude.{◌≡◌, ◌<◌, ◌≤◌, ◌++◌, ◌∷◌, [], IfOk, OnOk};
ghost use Rattle.std.specs.List.{AllByRecursion, AllZip};
ghost use Rattle.ido_base.specs.declared.limits.TheConstants.{MOST_PRICE, MOST_TEMPORARIES};
ghost use Rattle.c_tree.specs.Exprs.{expr_of, lock_ref_of};
ghost use Rattle.c_tree.specs.LockNames.{held_names, holds};
ghost use Rattle.c_tree.specs.Prices.{need_of, node_price, nodes_of};
ghost use Rattle.c_tree.specs.links.KnownNames.{names_of};
ghost use Rattle.rv64_isa.specs.declared.instr.Instr.TheVariants.{Op, OpImmediate};
ghost use Rattle.rv64_isa.specs.declared.instr.ImmediateOperation.TheVariants.{Addi};
ghost use Rattle.rv64_isa.specs.declared.instr.Operation.TheVariants.{Add};
ghost use Rattle.expr_code.specs.EvaluationCode.{AreAtHome, homes_of};
ghost use Rattle.boundary_code.specs.Boundaries.{lists_of};
ghost use Rattle.node_code.specs.links.BoundaryCode.{call_code, number_code};
ghost use Rattle.rv64_codegen.specs.links.NumberedNames.{IsNumberedMore};
ghost use Rattle.rv64_codegen.specs.links.Numbers.{IsReady, IsKeyValue, IsKeyCode, IsKeyCall, IsNumberCode, IsCallCode};

use c_tree::expr::{Expr, LockRef};
use expr_code::{Frame, select};
use ido_base::memory::OutOfMemory;
use operator_code::instructions::{add, immediate};
use rv64_isa::field::Register;
use rv64_isa::instr::{ImmediateOperation, Instr};
use std::alloc::Global;

/// How far the bank in use lies after the first.
const BANK_OFFSET: Register = Register::X3;

/// The number of a lock in a boundary, and the value of its key.
const NUMBER: Register = Register::X5;

/// The number of a call's lock.
const LOCK: Register = Register::X10;

/// The base of the bank in a boundary.
const BANK: Register = Register::X30;

/// The address of the log in a boundary.
const LOG: Register = Register::X31;

/// The number of a lock that has no key.
fn plain_number(alloc: Global, mutex: u16) -> Result<Vec<Instr>, OutOfMemory>
    requires { mutex < 2048 }
    ensures { IfOk result (λ code. code.items ≡ number_code mutex) }
{
    let number = immediate(ImmediateOperation::Addi, NUMBER, Register::X0, mutex);
    let code: Vec<Instr> = vec![in alloc; number]?;
    Ok(code)
}

/// The number of a lock that has no key, for a call.
fn plain_call(alloc: Global, mutex: u16) -> Result<Vec<Instr>, OutOfMemory>
    requires { mutex < 2048 }
    ensures { IfOk result (λ code. code.items ≡ call_code mutex) }
{
    let number = immediate(ImmediateOperation::Addi, LOCK, Register::X0, mutex);
    let code: Vec<Instr> = vec![in alloc; number]?;
    Ok(code)
}

/// After a key's value the register gets the number of its lock.
fn with_first(mut value: Vec<Instr>, rd: Register, first: u16) -> Result<Vec<Instr>, OutOfMemory>
    requires { first < 2048 }
    ensures { IfOk result (λ code. code.items ≡ value.items ++ OpImmediate Addi rd 5 first ∷ []) }
{
    value.push(immediate(ImmediateOperation::Addi, rd, NUMBER, first))?;
    Ok(value)
}

/// After a number the log's address, by these instructions, and the base of the bank are made anew, since evaluation may have written their
/// registers.
fn with_base(mut number: Vec<Instr>, log: &[Instr]) -> Result<Vec<Instr>, OutOfMemory>
    ensures { IfOk result (λ code. code.items ≡ (number.items ++ log.now) ++ Op Add 30 31 3 ∷ []) }
{
    number.extend_from_slice(log)?;
    number.push(add(BANK, LOG, BANK_OFFSET))?;
    Ok(number)
}

/// The value of a key, in x5.
fn key_value(alloc: Global, frame: &Frame, key: &Expr) -> Result<Vec<Instr>, OutOfMemory>
    requires home { AreAtHome (homes_of frame.now) (expr_of key.now) }
    requires need { need_of (expr_of key.now) ≤ MOST_TEMPORARIES }
    requires price { node_price (nodes_of (expr_of key.now)) ≤ MOST_PRICE }
    ensures { IfOk result (λ code. IsKeyValue (homes_of frame.now) (expr_of key.now) code.items) }
{
    let code = select(alloc, key, frame, NUMBER)?;
    Ok(code)
}

/// The number of a lock with a key, of an array with this first lock.
fn keyed_number(
    alloc: Global,
    frame: &Frame,
    log: &[Instr],
    first: u16,
    key: &Expr,
) -> Result<Vec<Instr>, OutOfMemory>
    requires home { AreAtHome (homes_of frame.now) (expr_of key.now) }
    requires need { need_of (expr_of key.now) ≤ MOST_TEMPORARIES }
    requires price { node_price (nodes_of (expr_of key.now)) ≤ MOST_PRICE }
    requires first { first < 2048 }
    ensures { IfOk result (λ code. IsKeyCode (homes_of frame.now) log.now first (expr_of key.now) code.items) }
{
    let value = key_value(alloc, frame, key)?;
    let number = with_first(value, NUMBER, first)?;
    let code = with_base(number, log)?;
    Ok(code)
}

/// The number of a lock with a key, of an array with this first lock, for a call.
fn keyed_call(
    alloc: Global,
    frame: &Frame,
    first: u16,
    key: &Expr,
) -> Result<Vec<Instr>, OutOfMemory>
    requires home { AreAtHome (homes_of frame.now) (expr_of key.now) }
    requires need { need_of (expr_of key.now) ≤ MOST_TEMPORARIES }
    requires price { node_price (nodes_of (expr_of key.now)) ≤ MOST_PRICE }
    requires first { first < 2048 }
    ensures { IfOk result (λ code. IsKeyCall (homes_of frame.now) first (expr_of key.now) code.items) }
{
    let value = key_value(alloc, frame, key)?;
    let code = with_first(value, LOCK, first)?;
    Ok(code)
}

/// Code that leaves a lock's number in x5, within a boundary whose bank lists locks; these instructions get the log's address.
fn number_code_of(
    alloc: Global,
    frame: &Frame,
    log: &[Instr],
    lock: LockRef<'_>,
) -> Result<Vec<Instr>, OutOfMemory>
    requires { IsReady (homes_of frame.now) (lock_ref_of lock) }
    ensures { IfOk result (λ code. IsNumberCode (homes_of frame.now) log.now (lock_ref_of lock.entry) code.items) }
{
    let mutex = lock.mutex;
    match lock.key {
        None => plain_number(alloc, mutex as u16),
        Some(key) => keyed_number(alloc, frame, log, mutex as u16, key.expr),
    }
}

/// Code that leaves a lock's number in x10, for a call.
pub(crate) fn call_code_of(
    alloc: Global,
    frame: &Frame,
    lock: LockRef<'_>,
) -> Result<Vec<Instr>, OutOfMemory>
    requires { IsReady (homes_of frame.now) (lock_ref_of lock) }
    ensures { IfOk result (λ code. IsCallCode (homes_of frame.now) (lock_ref_of lock.entry) code.items) }
{
    let mutex = lock.mutex;
    match lock.key {
        None => plain_call(alloc, mutex as u16),
        Some(key) => keyed_call(alloc, frame, mutex as u16, key.expr),
    }
}

/// Appends code of a lock's number, where it is held.
fn push_number(
    alloc: Global,
    codes: &mut Vec<Vec<Instr>>,
    frame: &Frame,
    log: &[Instr],
    lock: LockRef<'_>,
    is_held: bool,
) -> Result<(), OutOfMemory>
    requires { IsReady (homes_of frame.now) (lock_ref_of lock) }
    ensures { OnOk result (IsNumberedMore (homes_of frame.now) log.now (lock_ref_of lock.entry) is_held (lists_of codes.old.items) (lists_of codes.new.items)) }
{
    if is_held {
        let code = number_code_of(alloc, frame, log, lock)?;
        codes.push(code)?;
    }
    Ok(())
}

/// The name of that number is held.
fn is_held(held: &[bool], number: usize) -> bool
    ensures { result ≡ holds held.now number }
{
    held.get(number).copied().unwrap_or(false)
}

/// Of each of the names that are held code that leaves its lock's number.
pub(crate) fn held_numbers(
    alloc: Global,
    frame: &Frame,
    log: &[Instr],
    names: &[LockRef<'_>],
    held: &[bool],
) -> Result<Vec<Vec<Instr>>, OutOfMemory>
    requires { AllByRecursion (IsReady (homes_of frame.now)) (names_of names.now) }
    ensures { IfOk result (λ codes. AllZip (IsNumberCode (homes_of frame.now) log.now) (held_names (names_of names.now) held.now) (lists_of codes.items)) }
{
    let mut codes: Vec<Vec<Instr>> = Vec::new(alloc);
    for (number, name) in names.iter().enumerate() {
        let is_held = is_held(held, number);
        push_number(alloc, &mut codes, frame, log, *name, is_held)?;
    }
    Ok(codes)
}

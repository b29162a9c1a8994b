//! What a thread writes next where it is resumed, by a bank.
ghost use Rattle.std.specs.Prelude.{◌≡◌, ◌↔◌, ◌+◌, ◌*◌, ◌<◌, ◌≤◌, length, map, IfSome, IsTrue, MatchResult};
ghost use Rattle.ido_base.specs.declared.location.Location.{Location};
ghost use Rattle.c_tree.specs.Flats.{flat_of};
ghost use Rattle.c_tree.specs.Programs.{variable_of};
ghost use Rattle.c_tree.specs.References.{variable_refers};
ghost use Rattle.c_tree.specs.WellFormed.{shape_of};
ghost use Rattle.c_tree.specs.links.KnownNames.{names_of};
ghost use Rattle.flow_graph.specs.HeldKeys.{names_in};
ghost use Rattle.log_schemes.specs.declared.locals.Locals.TheVariants.{Frame};
ghost use Rattle.log_schemes.specs.Layout.{frame_at, log_words};
ghost use Rattle.log_schemes.specs.Schemes.{told, told_at};
ghost use Rattle.memory_layout.specs.Variables.{AreAddresses};
ghost use Rattle.flat_compile.specs.declared.resumes.LiveLocal.{LiveLocal};
ghost use Rattle.image_checks.specs.Checks.{bank_locals, bytes_next, element_bytes, names_of_thread};
ghost use Rattle.image_checks.specs.Checks.{HasAddress, HasValue, HasWrite, IsElementOf, IsLocalWord, IsReferenceWord};
ghost use Rattle.image_checks.specs.Logs.{HavePairs, logs_of, slot_in};
ghost use Rattle.image_checks.specs.links.BankFaults.{IsWriteFault};

use crate::error::ImageError;
use crate::limits::BANK_SLOTS;
use crate::logs::{register_in, slot_in};
use crate::slots::{is_element_of, is_local_word, is_reference};
use c_tree::expr::LockRef;
use c_tree::flat::Flat;
use c_tree::program::Variable;
use flat_compile::resumes::{LiveLocal, Resume};
use ido_base::location::Location;
use log_schemes::addresses::{
    SLOT_BYTES, WRITE_ADDRESS_SLOT, WRITE_BYTES_SLOT, WRITE_VALUE_SLOT, frame_at,
};
use log_schemes::locals::Locals;
use log_schemes::log::Log;
use memory_layout::roles::{PENDING_ADDRESS, PENDING_VALUE};
use source_machine::variables::Variables;
use std::alloc::Global;

// ---- How many bytes

/// How many bytes an element of the variable of that number has.
fn element_bytes(variables: &[Variable], variable: u32) -> u32
    ensures { result ≡ element_bytes (map variable_of variables.now) variable }
{
    match variables.get(variable as usize) {
        Some(found) => found.kind.bytes(),
        None => 0,
    }
}

/// How many bytes the write has that comes next, if one comes.
fn bytes_next(
    variables: &[Variable],
    pending: Option<Location>,
    assigned: Option<LiveLocal>,
) -> Option<u64>
    ensures { result ≡ bytes_next (map variable_of variables.now) pending assigned }
{
    match pending {
        Some(location) => Some(u64::from(element_bytes(variables, location.variable))),
        None => match assigned {
            Some(_) => Some(SLOT_BYTES),
            None => None,
        },
    }
}

/// Whether the slot has that number.
fn has(log: Log, logs: &[u64], thread: u32, bank: u32, slot: u8, number: u64) -> bool
    requires log { log_words log * (thread + 1) ≤ length logs.now }
    requires bank { bank < 2 }
    requires slot { slot < BANK_SLOTS }
    ensures { IsTrue result ↔ (slot_in (logs_of log logs.now) thread bank slot ≡ number) }
{
    slot_in(log, logs, thread, bank, slot) == number
}

/// Whether a bank, where each write has a record, is told of one of so many bytes, or that none comes.
fn is_recorded(log: Log, logs: &[u64], thread: u32, bank: u32, written: Option<u64>) -> bool
    requires log { log_words log * (thread + 1) ≤ length logs.now }
    requires bank { bank < 2 }
    ensures { IsTrue result ↔ HavePairs (λ slot. slot_in (logs_of log logs.now) thread bank slot) (told_at Frame written) }
{
    match written {
        Some(bytes) => has(log, logs, thread, bank, WRITE_BYTES_SLOT, bytes),
        None => {
            has(log, logs, thread, bank, WRITE_ADDRESS_SLOT, 0)
                && has(log, logs, thread, bank, WRITE_VALUE_SLOT, 0)
                && has(log, logs, thread, bank, WRITE_BYTES_SLOT, 0)
        }
    }
}

/// Whether a bank is told of a write of so many bytes, or that none comes.
fn is_told(log: Log, logs: &[u64], thread: u32, bank: u32, written: Option<u64>) -> bool
    requires log { log_words log * (thread + 1) ≤ length logs.now }
    requires bank { bank < 2 }
    ensures { IsTrue result ↔ HavePairs (λ slot. slot_in (logs_of log logs.now) thread bank slot) (told log written) }
{
    match log.locals() {
        Locals::Registers => true,
        Locals::Frame => is_recorded(log, logs, thread, bank, written),
    }
}

// ---- Where

/// Whether the address is that of an element that may be written, where a store is pending.
fn is_element_next(
    alloc: Global,
    variables: &[Variable],
    addresses: &[u32],
    names: &[LockRef<'_>],
    locals: &[i128],
    pending: Option<Location>,
    address: u64,
) -> bool
    requires { AreAddresses (map shape_of (map variable_of variables.now)) addresses.now }
    ensures { IsTrue result ↔ IfSome pending (λ (l : Location). IsElementOf (map variable_of variables.now)
        (names_in (map variable_of variables.now) (names_of names.now) locals.now) l address) }
{
    match pending {
        Some(location) => {
            let none = Variables::none(alloc);
            is_element_of(
                variables, addresses, names, locals, &none, location, address,
            )
        }
        None => true,
    }
}

/// Whether the address is that of the word of a local that is assigned next, if one is.
fn is_word_next(log: Log, thread: u32, assigned: Option<LiveLocal>, address: u64) -> bool
    ensures { IsTrue result ↔ IfSome assigned (λ (l : LiveLocal). address ≡ frame_at log thread l.colour) }
{
    match assigned {
        Some(local) => address == frame_at(log, thread, u32::from(local.colour)),
        None => true,
    }
}

/// Whether the bank has the address of what the thread writes next there, and how many bytes that has.
fn has_address(
    alloc: Global,
    log: Log,
    flat: &Flat,
    addresses: &[u32],
    names: &[LockRef<'_>],
    locals: &[i128],
    logs: &[u64],
    thread: u32,
    bank: u32,
    resume: &Resume,
) -> bool
    requires addresses { AreAddresses (map shape_of (flat_of flat.now).variables) addresses.now }
    requires names { names_of names.now ≡ names_of_thread (flat_of flat.now) thread }
    requires locals { locals.now ≡ bank_locals (flat_of flat.now) (logs_of log logs.now) thread bank resume.now.live.items }
    requires log { log_words log * (thread + 1) ≤ length logs.now }
    requires bank { bank < 2 }
    ensures { IsTrue result ↔ HasAddress (flat_of flat.now) (logs_of log logs.now) thread bank resume.now }
{
    let address = register_in(log, logs, thread, bank, PENDING_ADDRESS);
    if !is_element_next(
        alloc,
        &flat.variables,
        addresses,
        names,
        locals,
        resume.pending,
        address,
    ) {
        return false;
    }
    if !is_word_next(log, thread, resume.assigned, address) {
        return false;
    }
    let bytes = bytes_next(&flat.variables, resume.pending, resume.assigned);
    is_told(log, logs, thread, bank, bytes)
}

// ---- What

/// What the elements of the variable of that number refer to.
fn variable_refers(variables: &[Variable], variable: u32) -> Option<u32>
    ensures { result ≡ variable_refers (map variable_of variables.now) variable }
{
    match variables.get(variable as usize) {
        Some(found) => found.refers,
        None => None,
    }
}

/// Whether the word is one of what the pending store writes, if there is one.
fn is_element_value(variables: &[Variable], pending: Option<Location>, word: u64) -> bool
    ensures { IsTrue result ↔ IfSome pending (λ (l : Location).
        IsReferenceWord (map variable_of variables.now) (variable_refers (map variable_of variables.now) l.variable) word) }
{
    match pending {
        Some(location) => is_reference(
            variables,
            variable_refers(variables, location.variable),
            word,
        ),
        None => true,
    }
}

/// Whether the word is one of a local that is assigned next, if one is.
fn is_local_value(variables: &[Variable], assigned: Option<LiveLocal>, word: u64) -> bool
    ensures { IsTrue result ↔ IfSome assigned (λ (l : LiveLocal). IsLocalWord (map variable_of variables.now) l word) }
{
    match assigned {
        Some(local) => is_local_word(variables, local, word),
        None => true,
    }
}

/// Whether the bank has a value that the thread may write next there.
fn has_value(log: Log, flat: &Flat, logs: &[u64], thread: u32, bank: u32, resume: &Resume) -> bool
    requires log { log_words log * (thread + 1) ≤ length logs.now }
    requires bank { bank < 2 }
    ensures { IsTrue result ↔ HasValue (flat_of flat.now) (logs_of log logs.now) thread bank resume.now }
{
    let value = register_in(log, logs, thread, bank, PENDING_VALUE);
    if !is_element_value(&flat.variables, resume.pending, value) {
        return false;
    }
    is_local_value(&flat.variables, resume.assigned, value)
}

/// The first fault of what the thread writes next there.
pub fn check_write(
    alloc: Global,
    log: Log,
    flat: &Flat,
    addresses: &[u32],
    names: &[LockRef<'_>],
    locals: &[i128],
    logs: &[u64],
    thread: u32,
    bank: u32,
    resume: &Resume,
) -> Result<(), ImageError>
    requires addresses { AreAddresses (map shape_of (flat_of flat.now).variables) addresses.now }
    requires names { names_of names.now ≡ names_of_thread (flat_of flat.now) thread }
    requires locals { locals.now ≡ bank_locals (flat_of flat.now) (logs_of log logs.now) thread bank resume.now.live.items }
    requires log { log_words log * (thread + 1) ≤ length logs.now }
    requires bank { bank < 2 }
    ensures { MatchResult result (λ _. HasWrite (flat_of flat.now) (logs_of log logs.now) thread bank resume.now)
        (IsWriteFault (flat_of flat.now) (logs_of log logs.now) thread bank resume.now) }
{
    if !has_address(
        alloc, log, flat, addresses, names, locals, logs, thread, bank, resume,
    ) {
        return Err(ImageError::Slot {
            thread,
            register: PENDING_ADDRESS,
        });
    }
    if !has_value(log, flat, logs, thread, bank, resume) {
        return Err(ImageError::Slot {
            thread,
            register: PENDING_VALUE,
        });
    }
    Ok(())
}

//! Whether threads can be resumed by their logs.
ghost use Rattle.std.specs.Prelude.{◌≡◌, ◌+◌, ◌*◌, ◌<◌, ◌≤◌, [], length, map};
ghost use Rattle.std.specs.Prelude.{MatchOption, MatchResult};
ghost use Rattle.std.specs.Option.{option_copied};
ghost use Rattle.ido_base.specs.declared.limits.TheConstants.{LOCAL_REGISTERS, MOST_THREADS};
ghost use Rattle.log_schemes.specs.declared.keeping.Keeping.TheVariants.{Masked, Listed};
ghost use Rattle.log_schemes.specs.declared.locals.Locals.TheVariants.{Frame, Registers};
ghost use Rattle.log_schemes.specs.Schemes.{keeping_of, locals_of};
ghost use Rattle.log_schemes.specs.Layout.{log_words};
ghost use Rattle.c_tree.specs.Flats.{flat_of};
ghost use Rattle.c_tree.specs.WellFormed.{shape_of};
ghost use Rattle.c_tree.specs.links.KnownNames.{names_of};
ghost use Rattle.memory_layout.specs.Variables.{AreAddresses};
ghost use Rattle.image_checks.specs.Checks.{bank_locals, home_number, kinds_of_thread, names_of_thread};
ghost use Rattle.image_checks.specs.Checks.{HasLocals, IsFaultBeside, IsFirstWrong, IsRight, IsRightBeside, IsBankFault};
ghost use Rattle.image_checks.specs.Checks.{resume_at, IsResumableLog, IsLogFault, AreSound, IsThreadFault};
ghost use Rattle.image_checks.specs.Logs.{home_in, locks_by, logs_of};
ghost use Rattle.image_checks.specs.ResumeSlots.{HaveSlots, AllHaveSlots, TablesHaveSlots, HasRoom, AllHaveRoom, TablesHaveRoom};
ghost use Rattle.image_checks.specs.links.BankFaults.{IsLocalFault};
ghost use Rattle.image_checks.specs.links.Errors.{IsFaultOrMemory};

use crate::bank::{are_once, has_mask, lists, locals_by, locals_of_thread, names_of_thread};
use crate::error::ImageError;
use crate::keys::locks_of;
use crate::limits::FIRST_FRAME_NUMBER;
use crate::logs::{home_in, point_in};
use crate::slots::is_local_word;
use crate::writes::check_write;
use c_tree::expr::LockRef;
use c_tree::flat::Flat;
use flat_compile::resumes::{LiveLocal, Resume};
use log_schemes::keeping::Keeping;
use log_schemes::locals::Locals;
use log_schemes::log::{Log, MOST_LISTED};
use log_schemes::point::Point;
use memory_layout::roles::LOCALS;
use std::alloc::Global;

/// The number by which the home of the locals of a colour is told.
fn home_number(log: Log, colour: u8) -> u8
    requires { colour < LOCAL_REGISTERS }
    ensures { result ≡ home_number (locals_of log) colour }
{
    match log.locals() {
        Locals::Registers => LOCALS[colour as usize],
        Locals::Frame => FIRST_FRAME_NUMBER + colour,
    }
}

/// The number of the home of the first of these locals in which no number stands that it may have.
fn wrong_register(
    log: Log,
    flat: &Flat,
    live: &[LiveLocal],
    logs: &[u64],
    thread: u32,
    bank: u32,
) -> Option<u8>
    requires slots { HaveSlots live.now }
    requires log { log_words log * (thread + 1) ≤ length logs.now }
    requires bank { bank < 2 }
    ensures { MatchOption result (HasLocals (flat_of flat.now) (logs_of log logs.now) thread bank live.now)
        (IsFirstWrong (flat_of flat.now) (logs_of log logs.now) thread bank live.now) }
{
    for local in live {
        if !is_local_word(
            &flat.variables,
            *local,
            home_in(log, logs, thread, bank, local.colour),
        ) {
            return Some(home_number(log, local.colour));
        }
    }
    None
}

/// The first fault of these locals.
fn check_locals(
    log: Log,
    flat: &Flat,
    live: &[LiveLocal],
    logs: &[u64],
    thread: u32,
    bank: u32,
) -> Result<(), ImageError>
    requires slots { HaveSlots live.now }
    requires log { log_words log * (thread + 1) ≤ length logs.now }
    requires bank { bank < 2 }
    ensures { MatchResult result (λ _. HasLocals (flat_of flat.now) (logs_of log logs.now) thread bank live.now)
        (IsLocalFault (flat_of flat.now) (logs_of log logs.now) thread bank live.now) }
{
    match wrong_register(log, flat, live, logs, thread, bank) {
        Some(register) => Err(ImageError::Slot { thread, register }),
        None => Ok(()),
    }
}

/// The first fault of a bank by which the thread is resumed there, but for its locks, where locals stand in registers: these are looked at before what is
/// written next.
fn check_registers(
    alloc: Global,
    log: Log,
    flat: &Flat,
    addresses: &[u32],
    names: &[LockRef<'_>],
    locals: &[i128],
    logs: &[u64],
    thread: u32,
    bank: u32,
    resume: &Resume,
) -> Result<(), ImageError>
    requires registers { locals_of log ≡ Registers }
    requires addresses { AreAddresses (map shape_of (flat_of flat.now).variables) addresses.now }
    requires names { names_of names.now ≡ names_of_thread (flat_of flat.now) thread }
    requires locals { locals.now ≡ bank_locals (flat_of flat.now) (logs_of log logs.now) thread bank resume.now.live.items }
    requires slots { HaveSlots resume.now.live.items }
    requires log { log_words log * (thread + 1) ≤ length logs.now }
    requires bank { bank < 2 }
    ensures { MatchResult result (λ _. IsRightBeside (flat_of flat.now) (logs_of log logs.now) thread bank resume.now)
        (IsFaultBeside (flat_of flat.now) (logs_of log logs.now) thread bank resume.now) }
{
    check_locals(log, flat, &resume.live, logs, thread, bank)?;
    check_write(
        alloc, log, flat, addresses, names, locals, logs, thread, bank, resume,
    )
}

/// The first fault of a bank by which the thread is resumed there, but for its locks, where locals stand in the frame: they are looked at after what is
/// written next.
fn check_frame(
    alloc: Global,
    log: Log,
    flat: &Flat,
    addresses: &[u32],
    names: &[LockRef<'_>],
    locals: &[i128],
    logs: &[u64],
    thread: u32,
    bank: u32,
    resume: &Resume,
) -> Result<(), ImageError>
    requires frame { locals_of log ≡ Frame }
    requires addresses { AreAddresses (map shape_of (flat_of flat.now).variables) addresses.now }
    requires names { names_of names.now ≡ names_of_thread (flat_of flat.now) thread }
    requires locals { locals.now ≡ bank_locals (flat_of flat.now) (logs_of log logs.now) thread bank resume.now.live.items }
    requires slots { HaveSlots resume.now.live.items }
    requires log { log_words log * (thread + 1) ≤ length logs.now }
    requires bank { bank < 2 }
    ensures { MatchResult result (λ _. IsRightBeside (flat_of flat.now) (logs_of log logs.now) thread bank resume.now)
        (IsFaultBeside (flat_of flat.now) (logs_of log logs.now) thread bank resume.now) }
{
    check_write(
        alloc, log, flat, addresses, names, locals, logs, thread, bank, resume,
    )?;
    check_locals(log, flat, &resume.live, logs, thread, bank)
}

/// The first fault of a bank by which the thread is resumed there, but for its locks.
fn check_beside(
    alloc: Global,
    log: Log,
    flat: &Flat,
    addresses: &[u32],
    names: &[LockRef<'_>],
    locals: &[i128],
    logs: &[u64],
    thread: u32,
    bank: u32,
    resume: &Resume,
) -> Result<(), ImageError>
    requires addresses { AreAddresses (map shape_of (flat_of flat.now).variables) addresses.now }
    requires names { names_of names.now ≡ names_of_thread (flat_of flat.now) thread }
    requires locals { locals.now ≡ bank_locals (flat_of flat.now) (logs_of log logs.now) thread bank resume.now.live.items }
    requires slots { HaveSlots resume.now.live.items }
    requires log { log_words log * (thread + 1) ≤ length logs.now }
    requires bank { bank < 2 }
    ensures { MatchResult result (λ _. IsRightBeside (flat_of flat.now) (logs_of log logs.now) thread bank resume.now)
        (IsFaultBeside (flat_of flat.now) (logs_of log logs.now) thread bank resume.now) }
{
    match log.locals() {
        Locals::Registers => check_registers(
            alloc, log, flat, addresses, names, locals, logs, thread, bank, resume,
        ),
        Locals::Frame => check_frame(
            alloc, log, flat, addresses, names, locals, logs, thread, bank, resume,
        ),
    }
}

/// The first fault of a bank with a mask, by which the thread is resumed there: locks are looked at before all else.
fn check_masked(
    alloc: Global,
    log: Log,
    flat: &Flat,
    addresses: &[u32],
    names: &[LockRef<'_>],
    locals: &[i128],
    logs: &[u64],
    thread: u32,
    bank: u32,
    resume: &Resume,
) -> Result<(), ImageError>
    requires keeping { keeping_of log ≡ Masked }
    requires addresses { AreAddresses (map shape_of (flat_of flat.now).variables) addresses.now }
    requires names { names_of names.now ≡ names_of_thread (flat_of flat.now) thread }
    requires locals { locals.now ≡ bank_locals (flat_of flat.now) (logs_of log logs.now) thread bank resume.now.live.items }
    requires slots { HaveSlots resume.now.live.items }
    requires room { HasRoom log resume.now }
    requires log { log_words log * (thread + 1) ≤ length logs.now }
    requires bank { bank < 2 }
    ensures { MatchResult result (λ _. IsRight (flat_of flat.now) (logs_of log logs.now) thread bank resume.now)
        (IsBankFault (flat_of flat.now) (logs_of log logs.now) thread bank resume.now) }
{
    if !has_mask(log, logs, thread, bank, &resume.held) {
        return Err(ImageError::Mask { thread });
    }
    check_beside(
        alloc, log, flat, addresses, names, locals, logs, thread, bank, resume,
    )
}

/// The first fault of a bank with a list, by which the thread is resumed there, where it holds these locks: they are looked at last.
fn check_listed(
    alloc: Global,
    log: Log,
    flat: &Flat,
    addresses: &[u32],
    names: &[LockRef<'_>],
    locals: &[i128],
    locks: &[u128],
    logs: &[u64],
    thread: u32,
    bank: u32,
    resume: &Resume,
) -> Result<(), ImageError>
    requires keeping { keeping_of log ≡ Listed }
    requires addresses { AreAddresses (map shape_of (flat_of flat.now).variables) addresses.now }
    requires names { names_of names.now ≡ names_of_thread (flat_of flat.now) thread }
    requires locals { locals.now ≡ bank_locals (flat_of flat.now) (logs_of log logs.now) thread bank resume.now.live.items }
    requires locks { locks.now ≡ locks_by (λ colour. home_in (logs_of log logs.now) thread bank colour) (names_of_thread (flat_of flat.now) thread)
        (length (kinds_of_thread (flat_of flat.now) thread)) resume.now }
    requires few { length locks.now ≤ MOST_LISTED }
    requires slots { HaveSlots resume.now.live.items }
    requires log { log_words log * (thread + 1) ≤ length logs.now }
    requires bank { bank < 2 }
    ensures { MatchResult result (λ _. IsRight (flat_of flat.now) (logs_of log logs.now) thread bank resume.now)
        (IsBankFault (flat_of flat.now) (logs_of log logs.now) thread bank resume.now) }
{
    check_beside(
        alloc, log, flat, addresses, names, locals, logs, thread, bank, resume,
    )?;
    if !lists(log, logs, thread, bank, locks) {
        return Err(ImageError::Mask { thread });
    }
    if !are_once(locks) {
        return Err(ImageError::Mask { thread });
    }
    Ok(())
}

/// The first fault of a bank with a list, by which the thread is resumed there.
fn check_list(
    alloc: Global,
    log: Log,
    flat: &Flat,
    addresses: &[u32],
    names: &[LockRef<'_>],
    locals: &[i128],
    logs: &[u64],
    thread: u32,
    bank: u32,
    resume: &Resume,
) -> Result<(), ImageError>
    requires keeping { keeping_of log ≡ Listed }
    requires addresses { AreAddresses (map shape_of (flat_of flat.now).variables) addresses.now }
    requires names { names_of names.now ≡ names_of_thread (flat_of flat.now) thread }
    requires locals { locals.now ≡ bank_locals (flat_of flat.now) (logs_of log logs.now) thread bank resume.now.live.items }
    requires slots { HaveSlots resume.now.live.items }
    requires room { HasRoom log resume.now }
    requires log { log_words log * (thread + 1) ≤ length logs.now }
    requires bank { bank < 2 }
    ensures { MatchResult result (λ _. IsRight (flat_of flat.now) (logs_of log logs.now) thread bank resume.now)
        (IsFaultOrMemory (IsBankFault (flat_of flat.now) (logs_of log logs.now) thread bank resume.now)) }
{
    let locks = locks_of(alloc, names, locals, &resume.held)?;
    check_listed(
        alloc, log, flat, addresses, names, locals, &locks, logs, thread, bank, resume,
    )?;
    Ok(())
}

/// The first fault of the bank by which the thread is resumed there.
fn check_bank(
    alloc: Global,
    log: Log,
    flat: &Flat,
    addresses: &[u32],
    logs: &[u64],
    thread: u32,
    bank: u32,
    resume: &Resume,
) -> Result<(), ImageError>
    requires addresses { AreAddresses (map shape_of (flat_of flat.now).variables) addresses.now }
    requires slots { HaveSlots resume.now.live.items }
    requires room { HasRoom log resume.now }
    requires log { log_words log * (thread + 1) ≤ length logs.now }
    requires bank { bank < 2 }
    ensures { MatchResult result (λ _. IsRight (flat_of flat.now) (logs_of log logs.now) thread bank resume.now)
        (IsFaultOrMemory (IsBankFault (flat_of flat.now) (logs_of log logs.now) thread bank resume.now)) }
{
    let names = names_of_thread(alloc, flat, thread)?;
    let count = locals_of_thread(flat, thread);
    let locals = locals_by(alloc, log, &resume.live, logs, thread, bank, count)?;
    match log.keeping() {
        Keeping::Masked => {
            check_masked(
                alloc, log, flat, addresses, &names, &locals, logs, thread, bank, resume,
            )?;
            Ok(())
        }
        Keeping::Listed => check_list(
            alloc, log, flat, addresses, &names, &locals, logs, thread, bank, resume,
        ),
    }
}

/// The first of the places that has this address.
fn resume_at(resumes: &[Resume], address: u64) -> Option<&Resume>
    ensures { option_copied result ≡ resume_at resumes.now address }
{
    resumes.iter().find(|resume| resume.address == address)
}

/// The first fault of the thread's log.
fn check_log(
    alloc: Global,
    log: Log,
    flat: &Flat,
    addresses: &[u32],
    resumes: &[Resume],
    logs: &[u64],
    thread: u32,
) -> Result<(), ImageError>
    requires addresses { AreAddresses (map shape_of (flat_of flat.now).variables) addresses.now }
    requires slots { AllHaveSlots resumes.now }
    requires room { AllHaveRoom log resumes.now }
    requires log { log_words log * (thread + 1) ≤ length logs.now }
    ensures { MatchResult result (λ _. IsResumableLog (flat_of flat.now) resumes.now (logs_of log logs.now) thread)
        (IsFaultOrMemory (IsLogFault (flat_of flat.now) resumes.now (logs_of log logs.now) thread)) }
{
    let Point::At { address, bank } = point_in(log, logs, thread) else {
        return Ok(());
    };
    match resume_at(resumes, address) {
        Some(resume) => check_bank(alloc, log, flat, addresses, logs, thread, bank, resume),
        None => Err(ImageError::Point { thread }),
    }
}

/// The first fault of logs, where each thread may be resumed at its places in the table.
pub fn check_logs(
    alloc: Global,
    log: Log,
    flat: &Flat,
    addresses: &[u32],
    table: &[Vec<Resume>],
    logs: &[u64],
) -> Result<(), ImageError>
    requires addresses { AreAddresses (map shape_of (flat_of flat.now).variables) addresses.now }
    requires slots { TablesHaveSlots table.now }
    requires room { TablesHaveRoom log table.now }
    requires few { length table.now ≤ MOST_THREADS }
    requires logs { length logs.now ≡ log_words log * length table.now }
    ensures { MatchResult result (λ _. AreSound (flat_of flat.now) table.now (logs_of log logs.now))
        (IsFaultOrMemory (IsThreadFault (flat_of flat.now) table.now (logs_of log logs.now))) }
{
    for (thread, resumes) in table.iter().enumerate() {
        check_log(alloc, log, flat, addresses, resumes, logs, thread as u32)?;
    }
    Ok(())
}

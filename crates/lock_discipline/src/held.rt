//! The check of a flat form.
ghost use Rattle.std.specs.Prelude.{◌≡◌, ◌<◌, ◌≤◌, ◌^◌, ◌↔◌, ℕ, [], None, Some, length, slice_index_or, IfOk, IfErr, IfSome, IsTrue, if◌then◌else◌};
ghost use Rattle.ido_base.specs.declared.limits.TheConstants.{MOST_MUTEXES};
ghost use Rattle.c_tree.specs.Flats.{flat_of};
ghost use Rattle.c_tree.specs.LockNames.{count_held};
ghost use Rattle.c_tree.specs.LockDiscipline.{lock_fault};
ghost use Rattle.lock_discipline.specs.Faults.{fault_of};
ghost use Rattle.lock_discipline.specs.NamedForms.{HasNames};
ghost use Rattle.lock_discipline.specs.Masks.{mask_of};
ghost use Rattle.lock_discipline.specs.HeldSetsByStep.{AreAllSetsOf};

use crate::error::LockError;
use crate::set::NameSet;
use crate::walk::walk_thread;
use c_tree::flat::Flat;
use c_tree::language::Language;
use c_tree::lock_names::lock_names;
use std::alloc::Global;
use std::marker::Model;

/// The locks that are held before each step of each thread, by its names.
#[derive(Drop)]
pub struct Held {
    threads: Vec<Vec<NameSet>>,
}

impl Model for Held {
    ghost use Rattle.std.specs.Prelude.{Bool, List, map};

    ghost Value = { List (List (List Bool)) };

    ghost view = { λ h. map (λ sets. sets.items) h.threads.items };
}

/// No more than so many names are held in any of the sets.
fn are_small(sets: &[NameSet], most: u32) -> bool
    ensures { IsTrue result ↔ ((step : ℕ) → count_held (slice_index_or sets.now step []) ≤ most) }
{
    for set in sets {
        if set.count() > most {
            return false;
        }
    }
    true
}

impl Held {
    /// How many threads there are.
    pub fn threads(&self) -> usize
        ensures { result ≡ length self.now }
    {
        self.threads.len()
    }

    /// How many steps a thread has.
    pub fn steps(&self, thread: u32) -> usize
        requires { thread < length self.now }
        ensures { result ≡ length (slice_index_or self.now thread []) }
    {
        self.threads[thread as usize].len()
    }

    /// Of each of the thread's names whether its lock is held before the step of this number.
    /// Steps are numbered within a thread, in the order of its text: an assignment of a variable has two, evaluation and store; each
    /// condition is one, that of a `while` before its body and that of a `do` after it; the end is the last.
    pub fn before(&self, thread: u32, step: u32) -> &[bool]
        requires thread { thread < length self.now }
        requires step { step < length (slice_index_or self.now thread []) }
        ensures is { result.now ≡ slice_index_or (slice_index_or self.now thread []) step [] }
        ensures few { length result.now < 2 ^ 32 }
    {
        let sets = &self.threads[thread as usize];
        sets[step as usize].names()
    }

    /// How many locks are held before the step of this number.
    pub fn count(&self, thread: u32, step: u32) -> u32
        requires thread { thread < length self.now }
        requires step { step < length (slice_index_or self.now thread []) }
        ensures { result ≡ count_held (slice_index_or (slice_index_or self.now thread []) step []) }
    {
        let sets = &self.threads[thread as usize];
        sets[step as usize].count()
    }

    /// No more than so many locks are held before any step.
    pub fn are_at_most(&self, most: u32) -> bool
        ensures { IsTrue result ↔ ((thread step : ℕ) → count_held (slice_index_or (slice_index_or self.now thread []) step []) ≤ most) }
    {
        for sets in &self.threads {
            if !are_small(sets, most) {
                return false;
            }
        }
        true
    }
}

/// The bit of a name.
fn bit(is_held: bool) -> u64
    ensures { result ≡ (if is_held then 1 else 0) }
{
    if is_held { 1 } else { 0 }
}

/// A set of names as a mask: bit i is set where name i is held.
pub fn mask_of(held: &[bool]) -> u64
    requires { length held.now ≤ MOST_MUTEXES }
    ensures { result ≡ mask_of held.now }
{
    let mut mask = 0;
    for high in 0..held.len() {
        let name = held.len() - 1 - high;
        mask = bit(held[name]) + 2 * mask;
    }
    mask
}

/// Walks through the threads in order, each from its beginning, to the first fault: a variable that is used while its lock isn't held, a local that is assigned
/// while the key of a held lock names it, a lock that is taken while it is held or given back while it isn't, one by which more are held than may be in the
/// language, paths that meet with different locks held, or a thread that ends with one held. Locks go by the names of each thread; of a well formed flat form
/// every lock that a thread takes has a number (`laws::well_formed_has_names`).
///
/// The sets are said by relations of before, statement and after, and not by the walk.
pub fn check(alloc: Global, language: Language, flat: &Flat) -> Result<Held, LockError<'_>>
    requires { HasNames (flat_of flat.now) }
    ensures accepts { IfOk result (λ _. lock_fault language (flat_of flat.now) ≡ None) }
    ensures refuses { IfErr result (λ error. IfSome (fault_of error) (λ fault. lock_fault language (flat_of flat.now) ≡ Some fault)) }
    ensures sets { IfOk result (λ held. AreAllSetsOf (flat_of flat.now) held) }
{
    let mut threads = Vec::new(alloc);
    for thread in &flat.threads {
        let names = lock_names(alloc, &flat.mutexes, &thread.body)?;
        threads.push(walk_thread(alloc, language, &flat.variables, &names, thread)?)?;
    }
    Ok(Held { threads })
}

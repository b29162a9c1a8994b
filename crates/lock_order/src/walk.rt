//! The walk through a thread.
ghost use Rattle.std.specs.Prelude.{◌≡◌, ◌&&◌, map, slice_get, slice_set, Some, None, if◌then◌else◌, MatchResult};
ghost use Rattle.c_tree.specs.Exprs.{lock_ref_of};
ghost use Rattle.c_tree.specs.Flats.{statement_of, statements_of, arms_list_of, thread_of};
ghost use Rattle.c_tree.specs.LockNames.{holds};
ghost use Rattle.c_tree.specs.Programs.{mutex_of};
ghost use Rattle.c_tree.specs.links.KnownNames.{names_of};
ghost use Rattle.lock_order.specs.LockOrder.{After, Progress, holding, is_blocked, is_in_way, last_in_way, was_in_way};
ghost use Rattle.lock_order.specs.LockOrder.{walk, walk_all, walk_arms, walk_lock, walk_thread};
ghost use Rattle.lock_order.specs.links.Walks.{Refuses, progress_of};

use crate::below::is_in_way;
use crate::error::OrderError;
use c_tree::expr::LockRef;
use c_tree::flat::{Arm, Statement, Thread};
use c_tree::lock_names::{lock_names, number_in};
use c_tree::program::Mutex;
use ido_base::place::Place;
use std::alloc::Global;

/// A `lock` that a walk has met.
#[derive(Clone, Copy, Drop)]
pub struct Met {
    /// The number of its name.
    pub name: usize,
    pub place: Place,
}

/// How far a walk through a thread has come.
#[derive(Drop)]
pub struct Walk {
    /// Of each name whether it is held.
    pub held: Vec<bool>,
    /// The locks that were met, in the order of the text.
    pub met: Vec<Met>,
}

/// The name of this number is held.
fn is_held(held: &[bool], name: usize) -> bool
    ensures { result ≡ holds held.now name }
{
    match held.get(name) {
        Some(is_held) => *is_held,
        None => false,
    }
}

/// The name is held, or not, and it isn't below the wanted one.
fn bars(mutexes: &[Mutex], wanted: LockRef<'_>, own: LockRef<'_>, is_held: bool) -> bool
    ensures { result ≡ (is_held && is_in_way (map mutex_of mutexes.now) (lock_ref_of wanted.entry) (lock_ref_of own.entry)) }
{
    is_held && is_in_way(mutexes, wanted, own)
}

/// A name that is held is in the way.
fn is_blocked(mutexes: &[Mutex], names: &[LockRef<'_>], held: &[bool], wanted: LockRef<'_>) -> bool
    ensures { result ≡ is_blocked (map mutex_of mutexes.now) (names_of names.now) held.now (lock_ref_of wanted.entry) }
{
    for number in 0..names.len() {
        if bars(mutexes, wanted, names[number], is_held(held, number)) {
            return true;
        }
    }
    false
}

/// The lock that was met is of such a name.
fn was_in_way(
    mutexes: &[Mutex],
    names: &[LockRef<'_>],
    held: &[bool],
    wanted: LockRef<'_>,
    met: Met,
) -> bool
    ensures { result ≡ was_in_way (map mutex_of mutexes.now) (names_of names.now) held.now (lock_ref_of wanted.entry) met }
{
    match names.get(met.name) {
        Some(own) => bars(mutexes, wanted, *own, is_held(held, met.name)),
        None => false,
    }
}

/// The last such lock.
fn last_in_way(
    mutexes: &[Mutex],
    names: &[LockRef<'_>],
    held: &[bool],
    wanted: LockRef<'_>,
    met: &[Met],
) -> Option<Met>
    ensures { result ≡ last_in_way (map mutex_of mutexes.now) (names_of names.now) held.now (lock_ref_of wanted.entry) met.now }
{
    let mut last = None;
    for one in met {
        if was_in_way(mutexes, names, held, wanted, *one) {
            last = Some(*one);
        }
    }
    last
}

/// The set with the name, or without it.
fn set_held(held: &mut [bool], name: usize, is_held: bool)
    ensures { held.new ≡ slice_set held.old name is_held }
{
    if name < held.len() {
        held[name] = is_held;
    }
}

/// A `lock`.
fn walk_lock(
    mutexes: &[Mutex],
    names: &[LockRef<'_>],
    place: Place,
    lock: LockRef<'_>,
    progress: &mut Walk,
) -> Result<(), OrderError>
    ensures { let w = walk_lock (map mutex_of mutexes.now) (names_of names.now) (progress_of progress.old) place (lock_ref_of lock.entry) in
        MatchResult result (λ _. w ≡ After (progress_of progress.new)) (Refuses w) }
{
    if is_blocked(mutexes, names, &progress.held, lock) {
        let earlier = match last_in_way(mutexes, names, &progress.held, lock, &progress.met) {
            Some(last) => last.place,
            None => place,
        };
        return Err(OrderError::NotAbove { place, earlier });
    }
    let name = number_in(names, lock);
    progress.met.push(Met { name, place })?;
    set_held(&mut progress.held, name, true);
    Ok(())
}

/// A statement.
#[cycle(walk)]
fn walk_statement(
    alloc: Global,
    mutexes: &[Mutex],
    names: &[LockRef<'_>],
    statement: &Statement,
    progress: &mut Walk,
) -> Result<(), OrderError>
    ensures { let w = walk (map mutex_of mutexes.now) (names_of names.now) (progress_of progress.old) (statement_of statement.now) in
        MatchResult result (λ _. w ≡ After (progress_of progress.new)) (Refuses w) }
{
    match statement {
        Statement::Assign { .. } => Ok(()),
        Statement::If {
            arms,
            otherwise,
            ..
        } => {
            walk_arms(alloc, mutexes, names, arms, progress)?;
            walk_statements(alloc, mutexes, names, otherwise, progress)
        }
        Statement::While { body, .. } => walk_apart(alloc, mutexes, names, body, progress),
        Statement::Do { body, .. } => walk_apart(alloc, mutexes, names, body, progress),
        Statement::Lock { place, lock } => {
            walk_lock(mutexes, names, *place, lock.as_ref(), progress)
        }
        Statement::Unlock { lock, .. } => {
            set_held(&mut progress.held, number_in(names, lock.as_ref()), false);
            Ok(())
        }
    }
}

/// Statements in order.
#[cycle(walk)]
fn walk_statements(
    alloc: Global,
    mutexes: &[Mutex],
    names: &[LockRef<'_>],
    statements: &[Statement],
    progress: &mut Walk,
) -> Result<(), OrderError>
    ensures { let w = walk_all (map mutex_of mutexes.now) (names_of names.now) (progress_of progress.old) (statements_of statements.now) in
        MatchResult result (λ _. w ≡ After (progress_of progress.new)) (Refuses w) }
{
    for statement in statements {
        walk_statement(alloc, mutexes, names, statement, progress)?;
    }
    Ok(())
}

/// Statements in order, after which the set before them is held again.
#[cycle(walk)]
fn walk_apart(
    alloc: Global,
    mutexes: &[Mutex],
    names: &[LockRef<'_>],
    statements: &[Statement],
    progress: &mut Walk,
) -> Result<(), OrderError>
    ensures { let w = holding progress.old.held.items
        (walk_all (map mutex_of mutexes.now) (names_of names.now) (progress_of progress.old) (statements_of statements.now)) in
        MatchResult result (λ _. w ≡ After (progress_of progress.new)) (Refuses w) }
{
    let before = progress.held.to_vec(alloc)?;
    walk_statements(alloc, mutexes, names, statements, progress)?;
    progress.held = before;
    Ok(())
}

/// The arms of an `if` in order, each from the set before it.
#[cycle(walk)]
fn walk_arms(
    alloc: Global,
    mutexes: &[Mutex],
    names: &[LockRef<'_>],
    arms: &[Arm],
    progress: &mut Walk,
) -> Result<(), OrderError>
    ensures { let w = walk_arms (map mutex_of mutexes.now) (names_of names.now) (progress_of progress.old) (arms_list_of arms.now) in
        MatchResult result (λ _. w ≡ After (progress_of progress.new)) (Refuses w) }
{
    for arm in arms {
        walk_apart(alloc, mutexes, names, &arm.body, progress)?;
    }
    Ok(())
}

/// A thread, which begins with no lock held.
pub fn walk_thread(alloc: Global, mutexes: &[Mutex], thread: &Thread) -> Result<(), OrderError>
    ensures { let w = walk_thread (map mutex_of mutexes.now) (thread_of thread.now) in
        MatchResult result (λ _. (end : Progress) × (w ≡ After end)) (Refuses w) }
{
    let names = lock_names(alloc, mutexes, &thread.body)?;
    let mut progress = Walk {
        held: vec![in alloc; false; names.len()]?,
        met: Vec::new(alloc),
    };
    walk_statements(alloc, mutexes, &names, &thread.body, &mut progress)
}

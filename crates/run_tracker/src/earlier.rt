//! What is kept when a life begins: the schedules of the lives before it, and its own.
ghost use Rattle.std.specs.Prelude.{◌≡◌, ◌+◌, ◌<◌, ◌^◌, ◌++◌, length, map, IfOk, OnOk};
ghost use Rattle.std.specs.Vec.{vec_capacity, vec_len};
ghost use Rattle.machine_model.specs.Schedule.{first_steps};
ghost use Rattle.run_tracker.specs.links.AccountRepresentation.{AccountInv, ends_from};
ghost use Rattle.run_tracker.specs.links.EarlierLives.{kept_count, lives_in, schedule_in, steps_together};

use crate::account::Account;
use ido_base::memory::OutOfMemory;
use std::alloc::Global;

/// The steps, as a value of their own.
fn copied(alloc: Global, steps: &[u32]) -> Result<Vec<u32>, OutOfMemory>
    ensures { IfOk result (λ copy. copy.items ≡ steps.now) }
{
    let copy = steps.to_vec(alloc)?;
    Ok(copy)
}

/// The schedules, as values of their own.
pub(crate) fn copies_of(alloc: Global, lives: &[Vec<u32>]) -> Result<Vec<Vec<u32>>, OutOfMemory>
    ensures { IfOk result (λ copies. map schedule_in copies.items ≡ map schedule_in lives.now) }
{
    let mut copies = Vec::with_capacity(alloc, lives.len())?;
    for life in lives {
        copies.push(copied(alloc, life)?)?;
    }
    Ok(copies)
}

/// Adds steps.
fn add(steps: &mut Vec<u32>, more: &[u32]) -> Result<(), OutOfMemory>
    ensures { OnOk result (steps.new.items ≡ steps.old.items ++ more.now) }
{
    steps.extend_from_slice(more)?;
    Ok(())
}

/// The steps of these lives, one life's after another's.
fn steps_together(alloc: Global, lives: &[Vec<u32>]) -> Result<Vec<u32>, OutOfMemory>
    ensures { IfOk result (λ steps. steps.items ≡ steps_together (map schedule_in lives.now)) }
{
    let mut steps = Vec::new(alloc);
    for life in lives {
        add(&mut steps, life)?;
    }
    Ok(steps)
}

/// Where these lives end among their steps; there is room for so many more that do.
pub(crate) fn ends_of(alloc: Global, lives: &[Vec<u32>], cap: u64) -> Result<Vec<u64>, OutOfMemory>
    requires { length (steps_together (map schedule_in lives.now)) + length lives.now + cap < 2 ^ 63 }
    ensures ends { IfOk result (λ ends. ends.items ≡ ends_from 0 (map schedule_in lives.now)) }
    ensures room { IfOk result (λ ends. vec_capacity ends ≡ length lives.now + cap) }
    ensures len { IfOk result (λ ends. vec_len ends ≡ length lives.now) }
{
    let mut ends = Vec::with_capacity(alloc, lives.len() + cap as usize)?;
    let mut end = 0;
    for life in lives {
        end += life.len() as u64;
        ends.push_reserved(end);
    }
    Ok(ends)
}

/// The account before any step, with these schedules kept already and room for so many steps more.
pub(crate) fn account_after(
    alloc: Global,
    harts: u32,
    earlier: &[Vec<u32>],
    schedule: &[u32],
    cap: u64,
) -> Result<Account, OutOfMemory>
    requires { kept_count earlier.now schedule.now + cap < 2 ^ 63 }
    ensures stands { IfOk result (λ account. AccountInv account (first_steps (lives_in earlier.now schedule.now))) }
    ensures harts { IfOk result (λ account. length account.harts.items ≡ harts) }
    ensures kept { IfOk result (λ account. vec_capacity account.kept ≡ kept_count earlier.now schedule.now + cap) }
    ensures reserved { IfOk result (λ account. vec_capacity account.stores ≡ cap) }
    ensures stores { IfOk result (λ account. vec_len account.stores ≡ 0) }
{
    let mut kept = steps_together(alloc, earlier)?;
    add(&mut kept, schedule)?;
    Account::new(alloc, harts, &kept, cap)
}

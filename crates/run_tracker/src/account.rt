//! The account of begun and kept steps.
ghost use Rattle.std.specs.Prelude.{◌≡◌, ◌+◌, ◌<◌, ◌≤◌, ◌++◌, ◌^◌, ℕ, List, drop, filter, nat_lt, length, replicate, sum_by, if◌then◌else◌, IfOk};
ghost use Rattle.std.specs.Vec.{vec_capacity, vec_len};
ghost use Rattle.log_schemes.specs.declared.log.Log.{Log};
ghost use Rattle.ido_base.specs.Words.{Word, word_at};
ghost use Rattle.machine_model.specs.Schedule.{Steps, first_steps, only_life, with_begun, with_stored, with_kept};
ghost use Rattle.run_tracker.specs.links.AccountRepresentation.{AccountInv, IsAscending, durable_steps, open_at, bound_in, bound_at, total, point_word};
ghost use Rattle.run_tracker.specs.links.AccountRepresentation.{without_open};
ghost use Rattle.run_tracker.specs.links.LocalRepresentation.{with_more_begun};

use ido_base::memory::OutOfMemory;
use std::alloc::Global;

/// A store of a hart's point, with the steps that are bound to it, at least one: they are kept once the point's word is durable up
/// to its position.
#[derive(Clone, Copy, Drop)]
pub(crate) struct PointStore {
    pub hart: u32,
    pub position: u64,
    pub steps: u64,
}

/// The steps of a hart that aren't kept.
#[derive(Clone, Copy, Drop)]
pub(crate) struct OpenSteps {
    /// Begun since the hart's last store of its point.
    pub free: u64,
    /// What is bound to the hart's stores before this one is kept.
    pub first: usize,
}

/// Steps begun and kept.
#[derive(Drop)]
pub(crate) struct Account {
    /// The kept schedules, one life's after another's.
    pub kept: Vec<u32>,
    /// The stores of points since the start or the last crash to which steps are bound, of all harts.
    pub stores: Vec<PointStore>,
    pub harts: Vec<OpenSteps>,
}

/// Steps of a hart that are kept, and the first of its stores that still binds some.
#[derive(Clone, Copy, Drop)]
struct Kept {
    pub steps: u64,
    pub first: usize,
}

/// Which steps of a hart are kept, as its point is durable up to this position: those of its stores up to that one.
fn kept_of(stores: &[PointStore], hart: u32, durable: u64, first: usize) -> Kept
    requires within { first ≤ length stores.now }
    requires ascending { IsAscending (bound_in (drop first stores.now) hart) }
    requires few { total (bound_in (drop first stores.now) hart) < 2 ^ 63 }
    ensures steps { result.steps ≡ durable_steps durable (bound_in (drop first stores.now) hart) }
    ensures rest { bound_in (drop result.first stores.now) hart ≡ filter (λ b. nat_lt durable b.position) (bound_in (drop first stores.now) hart) }
    ensures within { result.first ≤ length stores.now }
{
    let mut steps = 0;
    for at in first..stores.len() {
        let store = stores[at];
        if store.hart == hart {
            if store.position > durable {
                return Kept { steps, first: at };
            }
            steps += store.steps;
        }
    }
    Kept {
        steps,
        first: stores.len(),
    }
}

/// Adds so many steps of a hart.
fn push_steps(kept: &mut Vec<u32>, hart: u32, count: u64)
    requires room { vec_len kept.old + count ≤ vec_capacity kept.old }
    ensures items { kept.new.items ≡ kept.old.items ++ replicate count hart }
    ensures capacity { vec_capacity kept.new ≡ vec_capacity kept.old }
{
    for _ in 0..count {
        kept.push_reserved(hart);
    }
}

impl Account {
    /// Before any step, with a schedule that is kept already and room for so many steps more.
    pub fn new(alloc: Global, harts: u32, before: &[u32], cap: u64) -> Result<Account, OutOfMemory>
        requires few { length before.now + cap < 2 ^ 63 }
        ensures stands { IfOk result (λ account. AccountInv account (first_steps (only_life before.now))) }
        ensures harts { IfOk result (λ account. length account.harts.items ≡ harts) }
        ensures kept { IfOk result (λ account. vec_capacity account.kept ≡ length before.now + cap) }
        ensures reserved { IfOk result (λ account. vec_capacity account.stores ≡ cap) }
        ensures stores { IfOk result (λ account. vec_len account.stores ≡ 0) }
    {
        let nothing = OpenSteps { free: 0, first: 0 };
        let mut kept = Vec::with_capacity(alloc, before.len() + cap as usize)?;
        for step in before {
            kept.push_reserved(*step);
        }
        Ok(Account {
            kept,
            stores: Vec::with_capacity(alloc, cap as usize)?,
            harts: vec![in alloc; nothing; harts as usize]?,
        })
    }

    /// A step is begun, if a mark was passed.
    pub fn begin_if(&mut self, mark: bool, hart: u32)
        requires exists { hart < length self.old.harts.items }
        requires room { (open_at self.old hart).free < 2 ^ 63 }
        ensures stands { (s : Steps) → AccountInv self.old s → AccountInv self.new (if mark then with_begun hart s else s) }
        ensures harts { length self.new.harts.items ≡ length self.old.harts.items }
        ensures stores { self.new.stores ≡ self.old.stores }
        ensures capacity { vec_capacity self.new.kept ≡ vec_capacity self.old.kept }
    {
        if mark {
            self.harts[hart as usize].free += 1;
        }
    }

    /// So many steps are begun.
    pub fn begin_more(&mut self, hart: u32, count: u32)
        requires exists { hart < length self.old.harts.items }
        requires room { (open_at self.old hart).free + count < 2 ^ 64 }
        ensures stands { (s : Steps) → AccountInv self.old s → AccountInv self.new (with_more_begun hart count s) }
        ensures harts { length self.new.harts.items ≡ length self.old.harts.items }
        ensures stores { self.new.stores ≡ self.old.stores }
        ensures capacity { vec_capacity self.new.kept ≡ vec_capacity self.old.kept }
    {
        self.harts[hart as usize].free += u64::from(count);
    }

    /// The point is stored at this position: the steps begun before are bound to it.
    fn bind(&mut self, hart: u32, position: u64)
        requires exists { hart < length self.old.harts.items }
        requires room { vec_len self.old.stores < vec_capacity self.old.stores }
        ensures stands { (s : Steps) → AccountInv self.old s → AccountInv self.new (with_stored hart position s) }
        ensures harts { length self.new.harts.items ≡ length self.old.harts.items }
        ensures stores { vec_len self.new.stores ≤ vec_len self.old.stores + 1 }
        ensures reserved { vec_capacity self.new.stores ≡ vec_capacity self.old.stores }
        ensures capacity { vec_capacity self.new.kept ≡ vec_capacity self.old.kept }
    {
        let steps = self.harts[hart as usize].free;
        if steps > 0 {
            self.stores.push_reserved(PointStore {
                hart,
                position,
                steps,
            });
            self.harts[hart as usize].free = 0;
        }
    }

    /// If the point was stored, at this position, the steps begun before are bound to it.
    pub fn bind_if(&mut self, point: bool, hart: u32, position: u64)
        requires exists { hart < length self.old.harts.items }
        requires room { vec_len self.old.stores < vec_capacity self.old.stores }
        ensures stands { (s : Steps) → AccountInv self.old s → AccountInv self.new (if point then with_stored hart position s else s) }
        ensures harts { length self.new.harts.items ≡ length self.old.harts.items }
        ensures stores { vec_len self.new.stores ≤ vec_len self.old.stores + 1 }
        ensures reserved { vec_capacity self.new.stores ≡ vec_capacity self.old.stores }
        ensures capacity { vec_capacity self.new.kept ≡ vec_capacity self.old.kept }
    {
        if point {
            self.bind(hart, position);
        }
    }

    /// The hart's point is durable up to this position: the steps that are bound to it are kept.
    pub fn keep(&mut self, hart: u32, durable: u64)
        requires exists { hart < length self.old.harts.items }
        requires within { (open_at self.old hart).first ≤ length self.old.stores.items }
        requires ascending { IsAscending (bound_at self.old hart) }
        requires few { total (bound_at self.old hart) < 2 ^ 63 }
        requires room { vec_len self.old.kept + total (bound_at self.old hart) ≤ vec_capacity self.old.kept }
        ensures stands { (log : Log) (words : List Word) (s : Steps) → durable ≡ (word_at words (point_word log hart)).durable → AccountInv self.old s
            → AccountInv self.new (with_kept log words hart s) }
        ensures harts { length self.new.harts.items ≡ length self.old.harts.items }
        ensures stores { self.new.stores ≡ self.old.stores }
        ensures capacity { vec_capacity self.new.kept ≡ vec_capacity self.old.kept }
    {
        let first = self.harts[hart as usize].first;
        let kept = kept_of(&self.stores, hart, durable, first);
        push_steps(&mut self.kept, hart, kept.steps);
        self.harts[hart as usize].first = kept.first;
    }

    /// A crash, or the end of a life: what isn't kept is lost.
    pub fn lose(&mut self)
        ensures stands { (s : Steps) → AccountInv self.old s → AccountInv self.new (without_open s) }
        ensures harts { length self.new.harts.items ≡ length self.old.harts.items }
        ensures kept { self.new.kept ≡ self.old.kept }
        ensures stores { vec_len self.new.stores ≡ 0 }
        ensures reserved { vec_capacity self.new.stores ≡ vec_capacity self.old.stores }
        ensures capacity { vec_capacity self.new.kept ≡ vec_capacity self.old.kept }
    {
        self.stores.clear();
        for hart in 0..self.harts.len() {
            self.harts[hart] = OpenSteps { free: 0, first: 0 };
        }
    }
}

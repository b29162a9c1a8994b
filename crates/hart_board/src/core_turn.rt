//! A turn at a core: one event, made again and again.
ghost use Rattle.std.specs.Prelude.{◌≡◌, ◌+◌, ◌<◌, ◌≤◌, ◌↔◌, [], ℕ, length, replicate, true, Some, MatchOption};
ghost use Rattle.hart_board.specs.CoreTurns.{IsPlayed, IsDone, Makes, TurnGives, count_made, events_made};
ghost use Rattle.hart_board.specs.CoreTurns.{Adopts, BeginsAt, HasComeTo, RunsAhead, RunsIn, RunsOn};
ghost use Rattle.machine_events.specs.declared.event.Event.TheVariants.{Step};
ghost use Rattle.hart_board.specs.Journals.{IsOwn};
ghost use Rattle.machine_events.specs.Cores.{IsValid, is_idle};

use machine_events::event::{Event, Reply};
use machine_events::machine::Core;

/// Events at most that a turn makes one by one after its first, however many steps it has adopted. A short section has fewer.
const ONE_BY_ONE: u64 = 96;

/// What a seat may make of a core's events.
#[derive(Clone, Copy, Drop)]
pub struct Quota {
    pub seat: u32,
    /// The events that it has made.
    pub made: u64,
    /// The events that it makes at most.
    pub turns: u64,
    /// The events that the core has at most.
    pub ceiling: u64,
}

/// What runs ahead of a seat's hart, and by how many steps.
#[derive(Drop)]
pub struct Ahead<L> {
    pub(crate) local: L,
    pub(crate) steps: u64,
}

/// The events that were made in a turn, and what the core replied to the last one.
#[derive(Clone, Copy, Drop)]
pub struct Made {
    pub count: u64,
    pub last: Reply,
}

/// The seat has nothing more to do.
fn is_done<C: Core>(core: &C, quota: Quota) -> bool
    ensures { (result ≡ true) ↔ IsDone C.behaviour C.opening C.history C.hart_count core.now quota [] }
{
    if quota.seat < core.harts() && core.stopped(quota.seat) {
        return true;
    }
    quota.made == quota.turns || core.events() == quota.ceiling
}

/// A turn at the core: the steps that were run ahead, where the hart still stands at their beginning, and then events one by one.
/// What runs ahead begins again.
pub(crate) fn take_turn<C: Core>(
    core: &mut C,
    event: Event,
    most: u64,
    quota: Quota,
    ahead: &mut Option<Ahead<C::Local>>,
) -> Option<Made>
    requires own { IsOwn (C.hart_count core.old) quota.seat event }
    requires valid { IsValid (C.hart_count core.old) (C.evictable core.old) event }
    requires some { 0 < most }
    requires turns { quota.made ≤ quota.turns }
    requires ceiling { (length (C.history core.old) ≤ quota.ceiling) × (quota.ceiling ≤ length (C.history core.old) + C.space core.old) }
    requires ahead { RunsIn C.opening C.hart_count C.is_local C.ahead_by core.old quota.seat ahead.old }
    ensures played { IsPlayed C.opening C.history C.hart_count C.space C.evictable core.old (events_made event result) core.new }
    ensures turn { TurnGives C.behaviour C.opening C.history C.hart_count core.old quota event most result }
    ensures adopts { Adopts C.history C.is_at_beginning core.old quota most ahead.old (count_made result) }
    ensures ahead { RunsIn C.opening C.hart_count C.is_local C.ahead_by core.old quota.seat ahead.new }
    ensures begins { BeginsAt C.is_at_beginning core.new quota.seat ahead.new }
{
    let made = make_events(core, event, most, quota, ahead);
    begin_again(core, quota.seat, ahead);
    made
}

/// Adopts the steps that were run ahead, or makes the event once.
fn adopt_or_make<C: Core>(
    core: &mut C,
    event: Event,
    most: u64,
    quota: Quota,
    ahead: &Option<Ahead<C::Local>>,
) -> Option<Made>
    requires own { IsOwn (C.hart_count core.old) quota.seat event }
    requires valid { IsValid (C.hart_count core.old) (C.evictable core.old) event }
    requires some { 0 < most }
    requires turns { quota.made ≤ quota.turns }
    requires ceiling { (length (C.history core.old) ≤ quota.ceiling) × (quota.ceiling ≤ length (C.history core.old) + C.space core.old) }
    requires ahead { RunsIn C.opening C.hart_count C.is_local C.ahead_by core.old quota.seat ahead.now }
    ensures played { IsPlayed C.opening C.history C.hart_count C.space C.evictable core.old (events_made event result) core.new }
    ensures turn { TurnGives C.behaviour C.opening C.history C.hart_count core.old quota event most result }
    ensures adopts { Adopts C.history C.is_at_beginning core.old quota most ahead.now (count_made result) }
{
    if let Some(made) = adopt(core, most, quota, ahead) {
        return Some(made);
    }
    make_one(core, event, quota)
}

/// Adopts the steps that were run ahead, where they are at least one and fit.
fn adopt<C: Core>(
    core: &mut C,
    most: u64,
    quota: Quota,
    ahead: &Option<Ahead<C::Local>>,
) -> Option<Made>
    requires turns { quota.made ≤ quota.turns }
    requires ceiling { (length (C.history core.old) ≤ quota.ceiling) × (quota.ceiling ≤ length (C.history core.old) + C.space core.old) }
    requires ahead { RunsIn C.opening C.hart_count C.is_local C.ahead_by core.old quota.seat ahead.now }
    ensures made { MatchOption result (core.new ≡ core.old) (λ made. (quota.seat < C.hart_count core.old)
        × IsPlayed C.opening C.history C.hart_count C.space C.evictable core.old (replicate made.count (Step quota.seat)) core.new
        × Makes C.behaviour C.opening C.history C.hart_count core.old quota (Step quota.seat) most made) }
    ensures adopts { Adopts C.history C.is_at_beginning core.old quota most ahead.now (count_made result) }
{
    let Some(ahead) = ahead else {
        return None;
    };
    if ahead.steps == 0 || ahead.steps > most {
        return None;
    }
    if ahead.steps > quota.turns - quota.made || ahead.steps > quota.ceiling - core.events() {
        return None;
    }
    if !core.adopt(quota.seat, &ahead.local) {
        return None;
    }
    Some(Made {
        count: ahead.steps,
        last: Reply::Moved,
    })
}

/// What runs ahead begins at the hart as it is now.
fn begin_again<C: Core>(core: &C, seat: u32, ahead: &mut Option<Ahead<C::Local>>)
    requires { RunsIn C.opening C.hart_count C.is_local C.ahead_by core.now seat ahead.old }
    ensures ahead { RunsIn C.opening C.hart_count C.is_local C.ahead_by core.now seat ahead.new }
    ensures begins { BeginsAt C.is_at_beginning core.now seat ahead.new }
{
    if let Some(ahead) = ahead {
        core.refresh(seat, &mut ahead.local);
        ahead.steps = 0;
    }
}

/// Runs ahead until it can't, or has come so many steps.
pub(crate) fn run_ahead<C: Core>(ahead: &mut Option<Ahead<C::Local>>, most: u64)
    ensures ahead { (core : C) (seat : ℕ) → RunsIn C.opening C.hart_count C.is_local C.ahead_by core seat ahead.old →
        RunsIn C.opening C.hart_count C.is_local C.ahead_by core seat ahead.new }
    ensures on { RunsOn C.is_at_beginning most ahead.old ahead.new }
    ensures far { HasComeTo C.goes_ahead most ahead.new }
{
    if let Some(ahead) = ahead {
        go_ahead::<C>(ahead, most);
    }
}

/// Runs ahead until it can't, or has come so many steps.
fn go_ahead<C: Core>(ahead: &mut Ahead<C::Local>, most: u64)
    ensures ahead { (core : C) (seat : ℕ) → RunsIn C.opening C.hart_count C.is_local C.ahead_by core seat (Some ahead.old) →
        RunsIn C.opening C.hart_count C.is_local C.ahead_by core seat (Some ahead.new) }
    ensures on { RunsOn C.is_at_beginning most (Some ahead.old) (Some ahead.new) }
    ensures far { HasComeTo C.goes_ahead most (Some ahead.new) }
{
    while ahead.steps < most {
        if !C::ahead(&mut ahead.local) {
            break;
        }
        ahead.steps += 1;
    }
}

/// Makes the event at the core, unless there is nothing to do.
fn make_one<C: Core>(core: &mut C, event: Event, quota: Quota) -> Option<Made>
    requires valid { IsValid (C.hart_count core.old) (C.evictable core.old) event }
    requires turns { quota.made ≤ quota.turns }
    requires ceiling { (length (C.history core.old) ≤ quota.ceiling) × (quota.ceiling ≤ length (C.history core.old) + C.space core.old) }
    ensures played { IsPlayed C.opening C.history C.hart_count C.space C.evictable core.old (events_made event result) core.new }
    ensures turn { TurnGives C.behaviour C.opening C.history C.hart_count core.old quota event 1 result }
{
    if is_done(core, quota) {
        return None;
    }
    let last = core.event(event);
    Some(Made { count: 1, last })
}

/// Adopts the steps that were run ahead, or makes the event, and goes on with it one by one, until it waits, there is nothing more
/// to do, or the turn has as many as it may.
fn make_events<C: Core>(
    core: &mut C,
    event: Event,
    most: u64,
    quota: Quota,
    ahead: &Option<Ahead<C::Local>>,
) -> Option<Made>
    requires own { IsOwn (C.hart_count core.old) quota.seat event }
    requires valid { IsValid (C.hart_count core.old) (C.evictable core.old) event }
    requires some { 0 < most }
    requires turns { quota.made ≤ quota.turns }
    requires ceiling { (length (C.history core.old) ≤ quota.ceiling) × (quota.ceiling ≤ length (C.history core.old) + C.space core.old) }
    requires ahead { RunsIn C.opening C.hart_count C.is_local C.ahead_by core.old quota.seat ahead.now }
    ensures played { IsPlayed C.opening C.history C.hart_count C.space C.evictable core.old (events_made event result) core.new }
    ensures turn { TurnGives C.behaviour C.opening C.history C.hart_count core.old quota event most result }
    ensures adopts { Adopts C.history C.is_at_beginning core.old quota most ahead.now (count_made result) }
{
    let Some(first) = adopt_or_make(core, event, most, quota, ahead) else {
        return None;
    };
    let Made {
        mut count,
        mut last,
    } = first;
    let limit = most.min(count.saturating_add(ONE_BY_ONE));
    while count < limit {
        if is_idle(last) {
            break;
        }
        let so_far = Quota {
            made: quota.made + count,
            ..quota
        };
        if is_done(core, so_far) {
            break;
        }
        last = core.event(event);
        count += 1;
    }
    Some(Made { count, last })
}

/// The hart waits, or has ended.
fn is_idle(reply: Reply) -> bool
    ensures { result ≡ is_idle reply }
{
    matches!(
        reply,
        Reply::Waits { .. } | Reply::Barrier { .. } | Reply::Still
    )
}

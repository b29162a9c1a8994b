//! What the caller does of a leg: rounds over the workers, until each of them has a stop.
ghost use Rattle.std.specs.Prelude.{◌≡◌, ◌+◌, ◌<◌, ◌≤◌, ◌&&◌, [], length, nat_lt, None};
ghost use Rattle.std.specs.Vec.{vec_capacity, vec_len};
ghost use Rattle.machine_events.specs.Cores.{played};
ghost use Rattle.hart_board.specs.CoreTurns.{IsPlayed};
ghost use Rattle.hart_driver.specs.Legs.{made, stop_of, workers};
ghost use Rattle.hart_driver.specs.links.UnderWay.{AreStops, IsNext, IsUnderWay, leg_from, since};

use crate::start::Start;
use crate::stop::Stop;
use machine_events::event::Event;
use machine_events::evictions::Evictions;
use machine_events::machine::Core;

/// The worker's hart has ended, or its recovery is done.
fn has_ended<C: Core>(core: &C, worker: u32) -> bool
    ensures { result ≡ (nat_lt worker (C.hart_count core.now) && C.behaviour.is_stopped (played C.behaviour (C.opening core.now) (C.history core.now)) worker) }
{
    worker < core.harts() && core.stopped(worker)
}

/// The worker's stop, if it has one, after so many events of its own.
fn stop_of<C: Core, V: Evictions>(
    start: &Start<C, V>,
    core: &C,
    worker: u32,
    events: u64,
) -> Option<Stop>
    requires plays { IsPlayed C.opening C.history C.hart_count C.space C.evictable start.now.core.value (since C.history start.now core.now) core.now }
    requires begun { length (C.history start.now.core.value) ≤ start.now.moment }
    requires made { events ≡ made (leg_from C.behaviour C.opening C.history C.hart_count V.coming start.now) worker (since C.history start.now core.now) }
    ensures { result ≡ stop_of (leg_from C.behaviour C.opening C.history C.hart_count V.coming start.now) worker (since C.history start.now core.now) }
{
    if has_ended(core, worker) {
        return Some(Stop::Ended);
    }
    if events == start.turns {
        return Some(Stop::Turns);
    }
    if core.events() == start.moment {
        return Some(Stop::Moment);
    }
    None
}

/// The next event of the worker. An eviction is over with that.
fn next_event<C: Core, V: Evictions>(
    start: &Start<C, V>,
    core: &C,
    counts: &[u64],
    evict: &mut Option<V>,
    worker: u32,
) -> Event
    requires under_way { IsUnderWay C.behaviour C.opening C.history C.hart_count V.coming C.space C.evictable start.now core.now counts.now evict.old }
    requires worker { worker < workers (leg_from C.behaviour C.opening C.history C.hart_count V.coming start.now) }
    requires goes { stop_of (leg_from C.behaviour C.opening C.history C.hart_count V.coming start.now) worker (since C.history start.now core.now) ≡ None }
    ensures { IsNext C.hart_count V.coming C.evictable start.now
        (leg_from C.behaviour C.opening C.history C.hart_count V.coming start.now) (since C.history start.now core.now) worker result evict.new }
{
    if worker < core.harts() {
        return Event::Step(worker);
    }
    let Some(evict) = evict else { unreachable!() };
    let (line, mask) = evict.now();
    evict.advance();
    Event::Evict { line, mask }
}

/// Makes an event of a worker that has no stop.
fn make_event<C: Core, V: Evictions>(
    start: &Start<C, V>,
    core: &mut C,
    counts: &mut [u64],
    evict: &mut Option<V>,
    worker: u32,
)
    requires under_way { IsUnderWay C.behaviour C.opening C.history C.hart_count V.coming C.space C.evictable start.now core.old counts.old evict.old }
    requires worker { worker < workers (leg_from C.behaviour C.opening C.history C.hart_count V.coming start.now) }
    requires goes { stop_of (leg_from C.behaviour C.opening C.history C.hart_count V.coming start.now) worker (since C.history start.now core.old) ≡ None }
    ensures under_way { IsUnderWay C.behaviour C.opening C.history C.hart_count V.coming C.space C.evictable start.now core.new counts.new evict.new }
    ensures one { length (C.history core.new) ≡ length (C.history core.old) + 1 }
{
    let event = next_event(start, core, counts, evict, worker);
    core.event(event);
    counts[worker as usize] += 1;
}

/// The worker's stop, or an event where it has none.
fn stop_or_make<C: Core, V: Evictions>(
    start: &Start<C, V>,
    core: &mut C,
    counts: &mut [u64],
    evict: &mut Option<V>,
    stops: &mut Vec<Stop>,
    worker: u32,
)
    requires under_way { IsUnderWay C.behaviour C.opening C.history C.hart_count V.coming C.space C.evictable start.now core.old counts.old evict.old }
    requires worker { worker < workers (leg_from C.behaviour C.opening C.history C.hart_count V.coming start.now) }
    requires room { vec_len stops.old < vec_capacity stops.old }
    ensures under_way { IsUnderWay C.behaviour C.opening C.history C.hart_count V.coming C.space C.evictable start.now core.new counts.new evict.new }
    ensures room { vec_capacity stops.new ≡ vec_capacity stops.old }
    ensures grown { length (C.history core.old) ≤ length (C.history core.new) }
    ensures one { length (C.history core.new) + vec_len stops.new ≡ length (C.history core.old) + vec_len stops.old + 1 }
    ensures stops { vec_len stops.new ≡ vec_len stops.old + 1 →
        AreStops C.behaviour C.opening C.history C.hart_count V.coming start.now core.old worker stops.old.items →
        AreStops C.behaviour C.opening C.history C.hart_count V.coming start.now core.new (worker + 1) stops.new.items }
{
    match stop_of(start, core, worker, counts[worker as usize]) {
        Some(stop) => stops.push_reserved(stop),
        None => make_event(start, core, counts, evict, worker),
    }
}

/// A round over the workers: of each its stop, or an event where it has none.
fn make_round<C: Core, V: Evictions>(
    start: &Start<C, V>,
    core: &mut C,
    counts: &mut [u64],
    evict: &mut Option<V>,
    stops: &mut Vec<Stop>,
    count: u32,
)
    requires under_way { IsUnderWay C.behaviour C.opening C.history C.hart_count V.coming C.space C.evictable start.now core.old counts.old evict.old }
    requires workers { count ≡ workers (leg_from C.behaviour C.opening C.history C.hart_count V.coming start.now) }
    requires room { (stops.old.items ≡ []) × (count ≤ vec_capacity stops.old) }
    ensures under_way { IsUnderWay C.behaviour C.opening C.history C.hart_count V.coming C.space C.evictable start.now core.new counts.new evict.new }
    ensures room { vec_capacity stops.new ≡ vec_capacity stops.old }
    ensures each { length (C.history core.new) + vec_len stops.new ≡ length (C.history core.old) + count }
    ensures few { vec_len stops.new ≤ count }
    ensures stops { vec_len stops.new ≡ count →
        AreStops C.behaviour C.opening C.history C.hart_count V.coming start.now core.new count stops.new.items }
{
    for worker in 0..count {
        stop_or_make(start, core, counts, evict, stops, worker);
    }
}

/// Rounds over the workers, until each of them has a stop.
pub(crate) fn finish<C: Core, V: Evictions>(
    start: &Start<C, V>,
    core: &mut C,
    counts: &mut [u64],
    evict: &mut Option<V>,
    stops: &mut Vec<Stop>,
    count: u32,
)
    requires under_way { IsUnderWay C.behaviour C.opening C.history C.hart_count V.coming C.space C.evictable start.now core.old counts.old evict.old }
    requires workers { count ≡ workers (leg_from C.behaviour C.opening C.history C.hart_count V.coming start.now) }
    requires room { count ≤ vec_capacity stops.old }
    ensures under_way { IsUnderWay C.behaviour C.opening C.history C.hart_count V.coming C.space C.evictable start.now core.new counts.new evict.new }
    ensures stops { AreStops C.behaviour C.opening C.history C.hart_count V.coming start.now core.new count stops.new.items }
{
    stops.clear();
    make_round(start, core, counts, evict, stops, count);
    while stops.len() < count as usize {
        stops.clear();
        make_round(start, core, counts, evict, stops, count);
    }
}

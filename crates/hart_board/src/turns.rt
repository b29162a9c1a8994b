//! Turns of seats.
ghost use Rattle.std.specs.Prelude.{◌≡◌, ◌<◌, ◌≤◌, ◌%◌, ◌^◌, ◌++◌, ◌∷◌, [], ℕ, Some};
ghost use Rattle.machine_events.specs.declared.event.Event.TheVariants.{Step, Evict};
ghost use Rattle.machine_events.specs.Cores.{IsValid};
ghost use Rattle.hart_board.specs.declared.views.Known.{Known};
ghost use Rattle.hart_board.specs.BoardRule.{play_of, IsPlayOf, with_turn};
ghost use Rattle.hart_board.specs.Journals.{IsOwn, IsLegal};
ghost use Rattle.hart_board.specs.CoreTurns.{Adopts, IsPlayed, made_entry, count_made, IsWithin, RunsIn};
ghost use Rattle.hart_board.specs.Seats.{Represents, IsInReach, IsInTurn, IsSeatOf, number, opening_core, rules_of, answer_of, TryTells, TurnTells};
ghost use Rattle.hart_board.specs.Seats.{BeginsAgain, TryAhead, TurnAhead, quota_of};

use crate::board::Board;
use crate::core_turn::{Made, Quota, run_ahead};
use crate::seat::{Seat, TryTurn, Turn};
use machine_events::event::Event;
use machine_events::machine::Core;
use std::sync::Wait;
use std::thread::yield_now;

/// How often a waiting seat looks before it gives the processor away.
const LOOKS: u32 = 64;

impl<C: Core> Board<C> {
    /// Steps of the seat's hart, at most `most`, once all turns with earlier tickets were taken.
    pub fn turn<R: Wait>(&self, rt: &R, seat: &mut Seat<C, C::Local>, most: u64) -> Turn
        requires seat { IsSeatOf C.history C.space (RunsIn C.opening C.hart_count C.is_local C.ahead_by) self.now seat.old }
        requires hart { number seat.old < C.hart_count (opening_core self.now) }
        requires some { 0 < most }
        ensures seat { IsSeatOf C.history C.space (RunsIn C.opening C.hart_count C.is_local C.ahead_by) self.now seat.new
            × (number seat.new ≡ number seat.old) }
        ensures turn { TurnTells (rules_of C.behaviour C.opening C.history C.hart_count self.now) (Step (number seat.old)) most result seat.old seat.new }
        ensures ahead { TurnAhead C.history C.is_at_beginning C.goes_ahead
            (IsPlayed C.opening C.history C.hart_count C.space C.evictable (opening_core self.now)) most result seat.old seat.new }
    {
        self.await_turn(rt, seat, Event::Step(seat.number), most)
    }

    /// An eviction, once all turns with earlier tickets were taken.
    pub fn evict_turn<R: Wait>(
        &self,
        rt: &R,
        seat: &mut Seat<C, C::Local>,
        line: u32,
        mask: u32,
    ) -> Turn
        requires seat { IsSeatOf C.history C.space (RunsIn C.opening C.hart_count C.is_local C.ahead_by) self.now seat.old }
        requires no_hart { C.hart_count (opening_core self.now) ≤ number seat.old }
        requires valid { C.evictable (opening_core self.now) line mask }
        ensures seat { IsSeatOf C.history C.space (RunsIn C.opening C.hart_count C.is_local C.ahead_by) self.now seat.new
            × (number seat.new ≡ number seat.old) }
        ensures turn { TurnTells (rules_of C.behaviour C.opening C.history C.hart_count self.now) (Evict line mask) 1 result seat.old seat.new }
        ensures ahead { TurnAhead C.history C.is_at_beginning C.goes_ahead
            (IsPlayed C.opening C.history C.hart_count C.space C.evictable (opening_core self.now)) 1 result seat.old seat.new }
    {
        self.await_turn(rt, seat, Event::Evict { line, mask }, 1)
    }

    /// Steps of the seat's hart, where its ticket is the next one. It waits for nobody.
    pub fn try_turn(&self, seat: &mut Seat<C, C::Local>, most: u64) -> TryTurn
        requires seat { IsSeatOf C.history C.space (RunsIn C.opening C.hart_count C.is_local C.ahead_by) self.now seat.old }
        requires hart { number seat.old < C.hart_count (opening_core self.now) }
        requires some { 0 < most }
        ensures seat { IsSeatOf C.history C.space (RunsIn C.opening C.hart_count C.is_local C.ahead_by) self.now seat.new
            × (number seat.new ≡ number seat.old) }
        ensures turn { TryTells (rules_of C.behaviour C.opening C.history C.hart_count self.now) (Step (number seat.old)) most result seat.old seat.new }
        ensures ahead { TryAhead C.history C.is_at_beginning C.goes_ahead
            (IsPlayed C.opening C.history C.hart_count C.space C.evictable (opening_core self.now)) most result seat.old seat.new }
    {
        self.attempt(seat, Event::Step(seat.number), most)
    }

    /// A turn of this event. The seat tries until it is served; in between it looks without a view, and gives the processor away.
    fn await_turn<R: Wait>(
        &self,
        rt: &R,
        seat: &mut Seat<C, C::Local>,
        event: Event,
        most: u64,
    ) -> Turn
        requires seat { IsSeatOf C.history C.space (RunsIn C.opening C.hart_count C.is_local C.ahead_by) self.now seat.old }
        requires own { IsOwn (C.hart_count (opening_core self.now)) (number seat.old) event }
        requires valid { IsValid (C.hart_count (opening_core self.now)) (C.evictable (opening_core self.now)) event }
        requires some { 0 < most }
        ensures seat { IsSeatOf C.history C.space (RunsIn C.opening C.hart_count C.is_local C.ahead_by) self.now seat.new
            × (number seat.new ≡ number seat.old) }
        ensures turn { TurnTells (rules_of C.behaviour C.opening C.history C.hart_count self.now) event most result seat.old seat.new }
        ensures ahead { TurnAhead C.history C.is_at_beginning C.goes_ahead
            (IsPlayed C.opening C.history C.hart_count C.space C.evictable (opening_core self.now)) most result seat.old seat.new }
    {
        for _ in rt.forever() {
            match self.attempt(seat, event, most) {
                TryTurn::Did { events, last } => return Turn::Did { events, last },
                TryTurn::Over => return Turn::Over,
                TryTurn::Later { ticket, serving: _ } => self.await_ticket(rt, ticket),
            }
        }
        unreachable!()
    }

    /// Waits until the serving word is this ticket.
    fn await_ticket<R: Wait>(&self, rt: &R, ticket: u64) {
        for _ in rt.forever() {
            for _ in 0..LOOKS {
                if self.peek() == ticket {
                    return;
                }
            }
            yield_now();
        }
    }

    /// A turn of this event where the seat's ticket is the next one. It runs ahead with its ticket drawn, while others take their turns.
    fn attempt(&self, seat: &mut Seat<C, C::Local>, event: Event, most: u64) -> TryTurn
        requires seat { IsSeatOf C.history C.space (RunsIn C.opening C.hart_count C.is_local C.ahead_by) self.now seat.old }
        requires own { IsOwn (C.hart_count (opening_core self.now)) (number seat.old) event }
        requires valid { IsValid (C.hart_count (opening_core self.now)) (C.evictable (opening_core self.now)) event }
        requires some { 0 < most }
        ensures seat { IsSeatOf C.history C.space (RunsIn C.opening C.hart_count C.is_local C.ahead_by) self.now seat.new
            × (number seat.new ≡ number seat.old) }
        ensures turn { TryTells (rules_of C.behaviour C.opening C.history C.hart_count self.now) event most result seat.old seat.new }
        ensures ahead { TryAhead C.history C.is_at_beginning C.goes_ahead
            (IsPlayed C.opening C.history C.hart_count C.space C.evictable (opening_core self.now)) most result seat.old seat.new }
    {
        let limit = most.min(seat.turns - seat.made);
        let ticket = self.ticket_of(seat);
        run_ahead::<C>(&mut seat.local, limit);
        let serving = self.look(&mut seat.place);
        if serving != ticket {
            return TryTurn::Later { ticket, serving };
        }
        answer_of(self.serve(seat, event, most))
    }

    /// The seat's ticket, a new one where it has none.
    fn ticket_of(&self, seat: &mut Seat<C, C::Local>) -> u64
        requires table { seat.old.place.table_id ≡ self.now.table.shared.table_id }
        requires represents { (k : Known C) × Represents seat.old k }
        ensures same { (seat.new.place.table_id ≡ seat.old.place.table_id) × (seat.new.number ≡ seat.old.number) × (seat.new.local ≡ seat.old.local) }
        ensures quota { quota_of seat.new ≡ quota_of seat.old }
        ensures kept { (seat.new.ticket ≡ Some result) × ((u : ℕ) → seat.old.ticket ≡ Some u → u ≡ result) }
        ensures represents { (k : Known C) → Represents seat.old k →
            (l : Known C) × (t : ℕ) × Represents seat.new l × (l ≡ record k { drawn = 1; ticket = Some t }) × (result ≡ t % 2 ^ 64) }
    {
        match seat.ticket {
            Some(ticket) => ticket,
            None => {
                let ticket = self.draw(&mut seat.place);
                seat.ticket = Some(ticket);
                ticket
            }
        }
    }

    /// Takes the turn that the seat is in, and gives the core back.
    fn serve(&self, seat: &mut Seat<C, C::Local>, event: Event, most: u64) -> Option<Made>
        requires table { seat.old.place.table_id ≡ self.now.table.shared.table_id }
        requires some { 0 < most }
        requires turn { (k : Known C) × (core : C)
            × IsInTurn (play_of C.behaviour C.opening C.history C.hart_count) (IsPlayOf C.opening C.history C.hart_count C.space C.evictable) seat.old k core
            × IsInReach C.history C.space k.terms × IsOwn (C.hart_count k.terms.opening.value) seat.old.number event
            × IsValid (C.hart_count k.terms.opening.value) (C.evictable k.terms.opening.value) event
            × RunsIn C.opening C.hart_count C.is_local C.ahead_by k.terms.opening.value seat.old.number seat.old.local }
        ensures same { (seat.new.place.table_id ≡ seat.old.place.table_id) × (seat.new.number ≡ seat.old.number) }
        ensures turn { (k : Known C) (core : C) →
            IsInTurn (play_of C.behaviour C.opening C.history C.hart_count) (IsPlayOf C.opening C.history C.hart_count C.space C.evictable) seat.old k core
            → IsWithin most result × Represents seat.new (with_turn k (made_entry seat.old.number event result))
            × IsLegal (play_of C.behaviour C.opening C.history C.hart_count k.terms) k.terms.turns k.terms.ceiling
            (k.seen ++ made_entry seat.old.number event result ∷ [])
            × RunsIn C.opening C.hart_count C.is_local C.ahead_by k.terms.opening.value seat.old.number seat.new.local
            × Adopts C.history C.is_at_beginning core (quota_of seat.old) most seat.old.local (count_made result)
            × BeginsAgain (IsPlayOf C.opening C.history C.hart_count C.space C.evictable k.terms) C.is_at_beginning seat.new }
    {
        let quota = Quota {
            seat: seat.number,
            made: seat.made,
            turns: seat.turns,
            ceiling: seat.ceiling,
        };
        let made = self.act(&mut seat.place, event, most, quota, &mut seat.local);
        self.pass(&mut seat.place);
        seat.ticket = None;
        seat.made += count_of(made);
        made
    }
}

/// How many events were made.
fn count_of(made: Option<Made>) -> u64
    ensures { result ≡ count_made made }
{
    match made {
        None => 0,
        Some(made) => made.count,
    }
}

/// What a turn is answered that was taken.
fn answer_of(made: Option<Made>) -> TryTurn
    ensures { result ≡ answer_of made }
{
    match made {
        None => TryTurn::Over,
        Some(made) => TryTurn::Did {
            events: made.count,
            last: made.last,
        },
    }
}

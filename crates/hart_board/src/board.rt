//! A board, and the steps at its table. Word 0 is how many turns were taken, word 1 how many tickets were drawn; both go
//! round at 2^64. The one slot holds the core.
ghost use Rattle.std.specs.Prelude.{◌≡◌, ◌+◌, ◌<◌, ◌≤◌, ◌++◌, ◌∷◌, [], ℕ, length, true, false, Some, None};
ghost use Rattle.std.specs.Vec.{vec_capacity};
ghost use mathlib.Core.Option.{none};
ghost use Rattle.atomic_table.specs.Table.{step};
ghost use Rattle.hart_board.specs.declared.views.Known.{Known};
ghost use Rattle.hart_board.specs.declared.views.View.{View};
ghost use Rattle.hart_board.specs.declared.views.View.TheVariants.{Seated};
ghost use Rattle.hart_board.specs.Journals.{IsTurn, events_of, IsOwn};
ghost use Rattle.hart_board.specs.CoreTurns.{Adopts, BeginsAt, IsPlayed, RunsIn, TurnGives, count_made, events_made};
ghost use Rattle.hart_board.specs.BoardRule.{drew, looked, saw, passed, turn_of, play_of, IsPlayOf, Has, met, beside, Closed};
ghost use Rattle.machine_events.specs.Cores.{IsValid};

use crate::core_turn::{Ahead, Made, Quota, take_turn};
use crate::rule::{BoardTable, Draws, Looks, Meets, Notes, Passes, Place, Sees};
use machine_events::event::Event;
use machine_events::machine::Core;

/// A core at which seats take turns.
pub struct Board<C: Core> {
    pub(crate) table: BoardTable<C>,
    /// Room for what each seat's events are counted in at the end.
    pub(crate) counts: Vec<u64>,
    ghost sized: { (table.shared.table_id.words ≡ 2) × (table.shared.table_id.slots ≡ 1) },
    ghost some: { 0 < table.shared.key.seats },
    ghost reserved: { (counts.items ≡ []) × (table.shared.key.seats ≤ vec_capacity counts) },
}

impl<C: Core> Board<C> {
    /// How many turns were taken, modulo 2^64. Nothing is seen by it.
    pub(crate) fn peek(&self) -> u64 {
        self.table.shared.peek(0)
    }

    /// Draws a ticket.
    pub(crate) fn draw(&self, place: &mut Place<C>) -> u64
        requires table { place.old.table_id ≡ self.now.table.shared.table_id }
        requires free { (k : Known C) × (place.old.me.0 ≡ Seated k) × (k.drawn < length k.numbers) × (k.in_turn ≡ false) }
        ensures same { (place.new.table_id ≡ place.old.table_id) × (place.new.id ≡ place.old.id) }
        ensures drew { drew (step 1 1 1 0 none) place.old.me result place.new.me }
    {
        self.table.shared.fetch_add::<Draws>(place, 1, 1)
    }

    /// Looks whether the ticket is the next one, and takes the core if so.
    pub(crate) fn look(&self, place: &mut Place<C>) -> u64
        requires table { place.old.table_id ≡ self.now.table.shared.table_id }
        requires waits { (k : Known C) × (t : ℕ) × (place.old.me.0 ≡ Seated k) × (k.ticket ≡ Some t) × (k.in_turn ≡ false) }
        ensures same { (place.new.table_id ≡ place.old.table_id) × (place.new.id ≡ place.old.id) }
        ensures looked { looked (play_of C.behaviour C.opening C.history C.hart_count) (IsPlayOf C.opening C.history C.hart_count C.space C.evictable)
            (step 1 0 0 0 none) place.old.me result place.new.me }
    {
        self.table.shared.load::<Looks<C>>(place, 0)
    }

    /// Sees all turns so far.
    pub(crate) fn see(&self, place: &mut Place<C>)
        requires table { place.old.table_id ≡ self.now.table.shared.table_id }
        requires seated { (k : Known C) × (place.old.me.0 ≡ Seated k) × (k.in_turn ≡ false) }
        ensures same { (place.new.table_id ≡ place.old.table_id) × (place.new.id ≡ place.old.id) }
        ensures saw { (found : ℕ) × saw (play_of C.behaviour C.opening C.history C.hart_count) (step 1 0 0 0 none) place.old.me found place.new.me }
    {
        self.table.shared.load::<Sees<C>>(place, 0);
    }

    /// Ends the turn, and gives the core back.
    pub(crate) fn pass(&self, place: &mut Place<C>)
        requires table { place.old.table_id ≡ self.now.table.shared.table_id }
        requires turn { (k : Known C) × (n : ℕ) × (core : C) × (place.old.me ≡ (Seated k, (0, core) ∷ [])) × (k.numbers ≡ n ∷ []) × (k.in_turn ≡ true)
            × IsTurn (play_of C.behaviour C.opening C.history C.hart_count k.terms) k.terms.turns k.terms.ceiling k.seen
            (turn_of (play_of C.behaviour C.opening C.history C.hart_count) C.history k n core)
            × IsPlayOf C.opening C.history C.hart_count C.space C.evictable k.terms
            (events_of (k.seen ++ turn_of (play_of C.behaviour C.opening C.history C.hart_count) C.history k n core ∷ [])) core }
        ensures same { (place.new.table_id ≡ place.old.table_id) × (place.new.id ≡ place.old.id) }
        ensures passed { (found : ℕ) × passed (play_of C.behaviour C.opening C.history C.hart_count) C.history (step 1 0 1 0 none) place.old.me
            found place.new.me }
    {
        self.table.shared.fetch_add::<Passes<C>>(place, 0, 1);
    }

    /// Takes a turn with the core that the place holds, where it lies.
    pub(crate) fn act(
        &self,
        place: &mut Place<C>,
        event: Event,
        most: u64,
        quota: Quota,
        ahead: &mut Option<Ahead<C::Local>>,
    ) -> Option<Made>
        requires table { place.old.table_id ≡ self.now.table.shared.table_id }
        requires some { 0 < most }
        requires turns { quota.made ≤ quota.turns }
        requires held { (v : View C) × (core : C) × (place.old.me ≡ (v, (0, core) ∷ [])) × IsOwn (C.hart_count core) quota.seat event
            × IsValid (C.hart_count core) (C.evictable core) event
            × (length (C.history core) ≤ quota.ceiling) × (quota.ceiling ≤ length (C.history core) + C.space core)
            × RunsIn C.opening C.hart_count C.is_local C.ahead_by core quota.seat ahead.old }
        ensures same { (place.new.table_id ≡ place.old.table_id) × (place.new.id ≡ place.old.id) }
        ensures acted { (v : View C) (core : C) → place.old.me ≡ (v, (0, core) ∷ []) → (new : C) × (place.new.me ≡ (v, (0, new) ∷ []))
            × IsPlayed C.opening C.history C.hart_count C.space C.evictable core (events_made event result) new
            × TurnGives C.behaviour C.opening C.history C.hart_count core quota event most result
            × RunsIn C.opening C.hart_count C.is_local C.ahead_by core quota.seat ahead.new
            × Adopts C.history C.is_at_beginning core quota most ahead.old (count_made result) × BeginsAt C.is_at_beginning new quota.seat ahead.new }
    {
        let core = place.slot_mut(&self.table.shared, 0);
        take_turn(core, event, most, quota, ahead)
    }

    /// A new place, which knows what this one has seen and takes no turns.
    pub(crate) fn split_note(&self, place: &mut Place<C>) -> Place<C>
        requires table { place.old.table_id ≡ self.now.table.shared.table_id }
        requires seated { (k : Known C) × (place.old.me.0 ≡ Seated k) × (k.in_turn ≡ false) }
        ensures same { (place.new.table_id ≡ place.old.table_id) × (place.new.id ≡ place.old.id) × (place.new.me ≡ place.old.me) }
        ensures new { (k : Known C) → place.old.me.0 ≡ Seated k → (result.table_id ≡ place.old.table_id) × (result.me ≡ (Seated (beside k []), [])) }
    {
        self.table.shared.split_seat::<Notes>(place)
    }
}

/// A place takes in what another knows, and its numbers.
pub(crate) fn meet<C: Core>(table: &BoardTable<C>, place: &mut Place<C>, other: Place<C>)
    requires words { table.now.shared.table_id.words ≡ 2 }
    requires table { (place.old.table_id ≡ table.now.shared.table_id) × (other.table_id ≡ table.now.shared.table_id) }
    requires seats { (k : Known C) × (l : Known C) × (place.old.me.0 ≡ Seated k) × (other.me ≡ (Seated l, [])) × (k.in_turn ≡ false) × (l.in_turn ≡ false) }
    ensures same { (place.new.table_id ≡ place.old.table_id) × (place.new.id ≡ place.old.id) }
    ensures met { (k l : Known C) → place.old.me.0 ≡ Seated k → other.me ≡ (Seated l, []) → place.new.me ≡ (Seated (met k l), place.old.me.1) }
{
    table.shared.join_seat::<Meets>(place, other);
}

/// Ends a board, by a place that has all numbers.
pub(crate) fn close<C: Core>(table: BoardTable<C>, place: Place<C>) -> C
    requires slots { table.shared.table_id.slots ≡ 1 }
    requires table { place.table_id ≡ table.shared.table_id }
    requires all { (k : Known C) × (place.me.0 ≡ Seated k) × (k.in_turn ≡ false) × ((n : ℕ) → n < table.shared.key.seats → Has n k.numbers) }
    ensures { (k : Known C) → place.me.0 ≡ Seated k → k.in_turn ≡ false → ((n : ℕ) → n < table.shared.key.seats → Has n k.numbers)
        → Closed (play_of C.behaviour C.opening C.history C.hart_count) (IsPlayOf C.opening C.history C.hart_count C.space C.evictable) k result }
{
    let mut closed = table.close_with(place);
    let core = closed.take(0);
    closed.free();
    core
}
